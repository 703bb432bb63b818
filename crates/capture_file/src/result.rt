//! How a history is written as a result.

ghost use Rattle.std.specs.Prelude.{◌≡◌, ◌++◌, [], ◌+◌, ◌-◌, ◌≤◌, IfOk, OnOk};
ghost use Rattle.std.specs.List.{AllByRecursion, flat_map};
ghost use Rattle.exact_text.specs.Spellings.{Grows};
ghost use Rattle.capture_file.specs.Device.{flag};
ghost use Rattle.capture_file.specs.Records.{ShowsAll};
ghost use Rattle.capture_file.specs.Result.{call, reply, result_text, FitsCall, FitsHistory};
ghost use Rattle.capture_file.specs.Parts.{call_bytes, reply_bytes, claim_bytes};
ghost use Rattle.capture_file.specs.Parts.{between_bytes, bytes_at, range_bytes};
ghost use Rattle.capture_file.specs.Parts.{HoldsSaid, HoldsItem, IsShortClaim};
ghost use Rattle.capture_file.specs.Parts.{AreHeld, AreLeft, IsHeld, IsLeft};

use crate::replies::push_plain_reply;
use crate::runs::split_run;
use crate::writing::{push_moment, push_request, put64};
use crate::{ClaimItem, Format, History, JournalCall, ReplyItem, Said, result_magic, tags};
use exact_text::{push_record, push32};
use io_caps::{Device, NoMemory};
use std::alloc::Global;

/// The bytes of a claim's number.
pub(crate) const CLAIM_NUMBER_LEN: usize = 8;

const _: () = prove!(CLAIM_NUMBER_LEN == 8);

#[tactic(auto, using(exact_text::proofs::Growth::growth), unfolding(crate::specs::Device::flag))]
fn push_flags(out: &mut Vec<u8>, flags: &[bool]) -> Result<(), NoMemory>
    ensures ok { OnOk result (out.new.items ≡ out.old.items ++ flat_map flag.text flags.now) }
    ensures grows { Grows out.old.items out.new.items }
{
    for flag in flags {
        out.push(u8::from(*flag))?;
    }
    Ok(())
}

/// Writes a claim's record, whose body is as long as its parts.
#[tactic(auto, using(exact_text::proofs::Growth::growth))]
fn push_claim(out: &mut Vec<u8>, value: &ClaimItem) -> Result<(), NoMemory>
    requires { IsShortClaim value.now }
    ensures ok { OnOk result (out.new.items ≡ out.old.items ++ claim_bytes value.now) }
    ensures grows { Grows out.old.items out.new.items }
{
    let len = value.found.len() + value.packet.len() + CLAIM_NUMBER_LEN;
    out.push(tags::CLAIM)?;
    push32(out, len as u32)?;
    put64(out, value.k)?;
    push_flags(out, value.found.as_slice())?;
    out.extend_from_slice(value.packet.as_slice())?;
    Ok(())
}

/// The body of the record of an accepted call.
#[tactic(auto, using(exact_text::proofs::FormLaws::joined), unfolding(crate::specs::Result::call))]
fn call_body(alloc: Global, format: Format, value: &JournalCall) -> Result<Vec<u8>, NoMemory>
    requires { FitsCall format value.now }
    ensures { IfOk result (λ body. body.items ≡ (call format).text value.now) }
{
    let mut body = Vec::new(alloc);
    put64(&mut body, value.at)?;
    body.push(value.client)?;
    put64(&mut body, value.id)?;
    push_moment(&mut body, format, value.tick, value.offset)?;
    push_request(&mut body, &value.request)?;
    Ok(body)
}

#[tactic(auto, using(exact_text::proofs::Growth::growth, crate::proofs::Lengths::call_short))]
fn push_call(
    alloc: Global,
    out: &mut Vec<u8>,
    format: Format,
    value: &JournalCall,
) -> Result<(), NoMemory>
    requires { FitsCall format value.now }
    ensures ok { OnOk result (out.new.items ≡ out.old.items ++ call_bytes format value.now) }
    ensures grows { Grows out.old.items out.new.items }
{
    let body = call_body(alloc, format, value)?;
    push_record(out, tags::CALL, &body)?;
    Ok(())
}

/// The body of the record of a reply.
#[tactic(auto, using(exact_text::proofs::FormLaws::joined), unfolding(crate::specs::Result::reply, crate::specs::Result::said))]
pub(crate) fn reply_body(
    alloc: Global,
    format: Format,
    value: &ReplyItem,
) -> Result<Vec<u8>, NoMemory>
    requires { HoldsSaid format value.now.said }
    ensures { IfOk result (λ body. body.items ≡ (reply format []).text value.now) }
{
    let mut body = Vec::new(alloc);
    body.push(value.client)?;
    put64(&mut body, value.stamp.calls)?;
    put64(&mut body, value.stamp.claims)?;
    match &value.said {
        Said::Plain(reply) => {
            body.push(tags::PLAIN_FORM)?;
            push_plain_reply(&mut body, format, reply)?;
        }
        Said::Http(bytes) => {
            body.push(tags::HTTP_FORM)?;
            body.extend_from_slice(bytes.as_slice())?;
        }
    }
    Ok(body)
}

#[tactic(auto, using(exact_text::proofs::Growth::growth))]
fn push_reply(
    alloc: Global,
    out: &mut Vec<u8>,
    format: Format,
    value: &ReplyItem,
) -> Result<(), NoMemory>
    requires { HoldsItem format value.now }
    ensures ok { OnOk result (out.new.items ≡ out.old.items ++ reply_bytes format value.now) }
    ensures grows { Grows out.old.items out.new.items }
{
    let body = reply_body(alloc, format, value)?;
    push_record(out, tags::REPLY, &body)?;
    Ok(())
}

#[tactic(auto, using(exact_text::proofs::Growth::growth))]
fn push_calls(
    alloc: Global,
    out: &mut Vec<u8>,
    format: Format,
    calls: &[JournalCall],
) -> Result<(), NoMemory>
    requires { AllByRecursion (FitsCall format) calls.now }
    ensures ok { OnOk result (out.new.items
        ≡ out.old.items ++ flat_map (call_bytes format) calls.now) }
    ensures grows { Grows out.old.items out.new.items }
{
    for one in calls {
        push_call(alloc, out, format, one)?;
    }
    Ok(())
}

#[tactic(auto, using(exact_text::proofs::Growth::growth))]
fn push_replies(
    alloc: Global,
    out: &mut Vec<u8>,
    format: Format,
    replies: &[ReplyItem],
) -> Result<(), NoMemory>
    requires { AllByRecursion (HoldsItem format) replies.now }
    ensures ok { OnOk result (out.new.items
        ≡ out.old.items ++ flat_map (reply_bytes format) replies.now) }
    ensures grows { Grows out.old.items out.new.items }
{
    for one in replies {
        push_reply(alloc, out, format, one)?;
    }
    Ok(())
}

#[tactic(auto, using(exact_text::proofs::Growth::growth))]
fn push_claims(out: &mut Vec<u8>, claims: &[ClaimItem]) -> Result<(), NoMemory>
    requires { AllByRecursion IsShortClaim claims.now }
    ensures ok { OnOk result (out.new.items ≡ out.old.items ++ flat_map claim_bytes claims.now) }
    ensures grows { Grows out.old.items out.new.items }
{
    for one in claims {
        push_claim(out, one)?;
    }
    Ok(())
}

/// Calls and replies that are left to be written.
#[derive(Clone, Copy)]
pub(crate) struct LeftBetween<'a> {
    pub(crate) calls: &'a [JournalCall],
    pub(crate) replies: &'a [ReplyItem],
}

/// Writes what stands between two claims, at a number of claims: the calls, and then the replies.
/// What stands at further numbers is held back, and handed out.
#[tactic(auto, using(exact_text::proofs::Growth::growth))]
pub(crate) fn push_between<'a>(
    alloc: Global,
    out: &mut Vec<u8>,
    format: Format,
    left: &LeftBetween<'a>,
    number: u64,
) -> Result<LeftBetween<'a>, NoMemory>
    requires { AreLeft format number left.now.calls.now left.now.replies.now }
    ensures ok { OnOk result (out.new.items
        ≡ out.old.items ++ between_bytes format number left.now.calls.now left.now.replies.now) }
    ensures held { IfOk result (λ later. AreHeld (number + 1) left.now.calls.now
        left.now.replies.now later.calls.now later.replies.now) }
    ensures grows { Grows out.old.items out.new.items }
{
    let (now, calls) = split_run(left.calls, number);
    push_calls(alloc, out, format, now)?;
    let (now, replies) = split_run(left.replies, number);
    push_replies(alloc, out, format, now)?;
    Ok(LeftBetween { calls, replies })
}

/// Calls, replies and claims that are left to be written.
#[derive(Clone, Copy)]
pub(crate) struct Left<'a> {
    pub(crate) between: LeftBetween<'a>,
    pub(crate) claims: &'a [ClaimItem],
}

/// Writes what stands at a number of claims, in front of what is left: the calls, the replies, and
/// the claim of that number. What stands at further numbers is held back.
#[tactic(auto, using(exact_text::proofs::Growth::growth))]
fn push_at<'a>(
    alloc: Global,
    out: &mut Vec<u8>,
    format: Format,
    left: &Left<'a>,
    number: u64,
) -> Result<Left<'a>, NoMemory>
    requires { IsLeft format number left.now.between.calls.now left.now.between.replies.now
        left.now.claims.now }
    ensures ok { OnOk result (out.new.items ≡ out.old.items ++ bytes_at format number
        left.now.between.calls.now left.now.between.replies.now left.now.claims.now) }
    ensures held { IfOk result (λ later. IsHeld (number + 1) left.now.between.calls.now
        left.now.between.replies.now left.now.claims.now later.between.calls.now
        later.between.replies.now later.claims.now) }
    ensures grows { Grows out.old.items out.new.items }
{
    let between = push_between(alloc, out, format, &left.between, number)?;
    let (now, claims) = split_run(left.claims, number);
    push_claims(out, now)?;
    Ok(Left { between, claims })
}

/// Writes what stands at each number of claims from `from` to below `to`. What stands at further
/// numbers is held back, and handed out. The time is linear in what is written and the numbers.
#[tactic(auto, using(exact_text::proofs::Growth::growth))]
pub(crate) fn push_range<'a>(
    alloc: Global,
    out: &mut Vec<u8>,
    format: Format,
    all: &Left<'a>,
    from: u64,
    to: u64,
) -> Result<Left<'a>, NoMemory>
    requires range { from ≤ to }
    requires left { IsLeft format from all.now.between.calls.now all.now.between.replies.now
        all.now.claims.now }
    ensures ok { OnOk result (out.new.items ≡ out.old.items ++ range_bytes format from (to - from)
        all.now.between.calls.now all.now.between.replies.now all.now.claims.now) }
    ensures held { IfOk result (λ later. IsHeld to all.now.between.calls.now
        all.now.between.replies.now all.now.claims.now later.between.calls.now
        later.between.replies.now later.claims.now) }
    ensures grows { Grows out.old.items out.new.items }
{
    let mut left = *all;
    for number in from..to {
        left = push_at(alloc, out, format, &left, number)?;
    }
    Ok(left)
}

/// Writes a whole history of this device as a result of a format after what is there, in time linear
/// in the history. If memory runs out, what was there stays, and more may follow it.
#[tactic(auto, using(exact_text::proofs::Growth::growth))]
pub fn write_result(
    alloc: Global,
    _device: &Device,
    format: Format,
    history: &History,
    out: &mut Vec<u8>,
) -> Result<(), NoMemory>
    requires { FitsHistory format _device.now history.now }
    ensures ok { OnOk result (out.new.items
        ≡ out.old.items ++ result_text format _device.now history.now) }
    // Nothing of the history is left out.
    ensures shows { ShowsAll history.now }
    ensures grows { Grows out.old.items out.new.items }
{
    let between = LeftBetween {
        calls: history.journal.as_slice(),
        replies: history.replies.as_slice(),
    };
    let claims = history.claims.as_slice();
    out.extend_from_slice(result_magic(format))?;
    let all = Left { between, claims };
    push_range(alloc, out, format, &all, 0, claims.len() as u64 + 1)?;
    push_record(out, tags::END, &[])?;
    Ok(())
}
