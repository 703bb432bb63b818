//! How one record of a result is read.

ghost use Rattle.std.specs.Prelude.{◌≡◌, ◌<◌, ◌↔◌, IsTrue, map, length};
ghost use Rattle.exact_text.specs.Readings.{Gives, whole_of};
ghost use Rattle.capture_file.specs.Entries.{said_of};
ghost use Rattle.capture_file.specs.Device.{flag};
ghost use Rattle.capture_file.specs.Result.{claim, call, said, reply, result_body};
ghost use Rattle.capture_file.specs.ResultText.{IsClientThere};

use crate::device::read_flag;
use crate::entries::SaidRecord;
use crate::form::CaptureForm;
use crate::reading::{read_moment, read_reply};
use crate::requests::read_request;
use crate::{ClaimRecord, Format, JournalCall, RecordBytes, ReplyRecord, ResultItem, Stamp, tags};
use exact_text::{Misread, Reads, byte, many, nothing_behind, number64};
use io_caps::limits::CLIENTS;
use io_caps::{Device, Flags, Output};
use std::alloc::Global;

impl Reads<bool> for CaptureForm {
    ghost reading = { flag.read };

    fn read(_alloc: Global, bytes: &[u8]) -> Result<(bool, &[u8]), Misread> {
        read_flag(bytes)
    }
}

/// The claim of a whole body.
#[tactic(auto, unfolding(crate::specs::Result::claim))]
fn read_claim(alloc: Global, inputs: u8, body: &[u8]) -> Result<ClaimRecord<'_>, Misread>
    ensures { Gives (λ x. x) result (whole_of (claim inputs).read body.now) }
{
    let (k, rest) = number64(body)?;
    let (found, rest) = many::<CaptureForm, bool>(alloc, inputs as usize, rest)?;
    Ok(ClaimRecord {
        k,
        found: Flags::from_vec(found),
        packet: RecordBytes::new(rest),
    })
}

/// The call of a whole body.
#[tactic(auto, unfolding(crate::specs::Result::call))]
fn read_call(alloc: Global, format: Format, body: &[u8]) -> Result<JournalCall, Misread>
    ensures { Gives (λ x. x) result (whole_of (call format).read body.now) }
{
    let (at, rest) = number64(body)?;
    let (client, rest) = byte(rest)?;
    let (id, rest) = number64(rest)?;
    let ((tick, offset), rest) = read_moment(format, rest)?;
    let (request, rest) = read_request(alloc, rest)?;
    nothing_behind(rest)?;
    Ok(JournalCall::new(at, client, id, tick, offset, request))
}

/// The words of a whole body, on a device with these outputs.
#[tactic(auto, unfolding(crate::specs::Result::said))]
fn read_said<'a>(
    alloc: Global,
    format: Format,
    outputs: &[Output],
    body: &'a [u8],
) -> Result<SaidRecord<'a>, Misread>
    ensures { Gives (λ x. said_of x) result
        (whole_of (said format (map (λ o. length o.labels) outputs.now)).read body.now) }
{
    let (form, rest) = byte(body)?;
    match form {
        tags::HTTP_FORM => Ok(SaidRecord::Http(RecordBytes::new(rest))),
        tags::PLAIN_FORM => {
            let (reply, rest) = read_reply(alloc, format, outputs, rest)?;
            nothing_behind(rest)?;
            Ok(SaidRecord::Plain(reply))
        }
        _ => Err(Misread::NoReading),
    }
}

/// The reply of a whole body, on a device with these outputs.
#[tactic(auto, unfolding(crate::specs::Result::reply, crate::specs::Result::said))]
fn read_reply_record<'a>(
    alloc: Global,
    format: Format,
    outputs: &[Output],
    body: &'a [u8],
) -> Result<ReplyRecord<'a>, Misread>
    ensures { Gives (λ x. x) result
        (whole_of (reply format (map (λ o. length o.labels) outputs.now)).read body.now) }
{
    let (client, rest) = byte(body)?;
    let (calls, rest) = number64(rest)?;
    let (claims, rest) = number64(rest)?;
    let said = read_said(alloc, format, outputs, rest)?;
    let stamp = Stamp { calls, claims };
    Ok(ReplyRecord {
        client,
        stamp,
        said,
    })
}

/// The record of a tag and a body, in a result of this device in a format.
#[tactic(auto, unfolding(crate::specs::Result::result_body))]
pub(crate) fn read_result_item<'a>(
    alloc: Global,
    format: Format,
    device: &Device,
    tag: u8,
    body: &'a [u8],
) -> Result<ResultItem<'a>, Misread>
    ensures { Gives (λ x. x) result (whole_of (result_body format device.now tag).read body.now) }
{
    match tag {
        tags::CLAIM => Ok(ResultItem::Claim(read_claim(alloc, device.inputs(), body)?)),
        tags::CALL => Ok(ResultItem::Call(read_call(alloc, format, body)?)),
        tags::REPLY => {
            let reply = read_reply_record(alloc, format, device.output_slice(), body)?;
            Ok(ResultItem::Reply(reply))
        }
        _ => Err(Misread::NoReading),
    }
}

/// Whether the number of a record's client is one.
pub(crate) fn is_client_there(item: &ResultItem<'_>) -> bool
    ensures { IsTrue result ↔ IsClientThere item.now }
{
    match item {
        ResultItem::Call(call) => call.client < CLIENTS,
        ResultItem::Reply(reply) => reply.client < CLIENTS,
        ResultItem::Claim(_) | ResultItem::End => true,
    }
}
