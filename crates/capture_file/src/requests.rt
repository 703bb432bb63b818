//! How requests are read.

ghost use Rattle.exact_text.specs.Forms.{tested};
ghost use Rattle.exact_text.specs.Readings.{Gives};
ghost use Rattle.capture_file.specs.Requests.{cell, change, output_change, action, is_time};
ghost use Rattle.capture_file.specs.Requests.{time_made, request};

use crate::form::CaptureForm;
use crate::{Request, When, tags};
use exact_text::{Misread, Reads, byte, many, number32, number64};
use io_caps::ListOf;
use map_entry::{Action, Cell, Change, Changes, OutputChange};
use std::alloc::Global;
use tai_time::{NANOS_PER_SECOND, SECS_LIMIT, Tai};

impl Reads<Cell> for CaptureForm {
    ghost reading = { cell.read };

    #[tactic(auto, unfolding(crate::specs::Requests::cell))]
    fn read(_alloc: Global, bytes: &[u8]) -> Result<(Cell, &[u8]), Misread> {
        let (input, rest) = byte(bytes)?;
        let (channel, rest) = byte(rest)?;
        if input != tags::UNROUTED_INPUT {
            return Ok((Cell::From { input, channel }, rest));
        }
        if channel == 0 {
            Ok((Cell::Unrouted, rest))
        } else {
            Err(Misread::NoReading)
        }
    }
}

impl Reads<Change> for CaptureForm {
    ghost reading = { change.read };

    #[tactic(auto, unfolding(crate::specs::Requests::change))]
    fn read(alloc: Global, bytes: &[u8]) -> Result<(Change, &[u8]), Misread> {
        let (channel, rest) = byte(bytes)?;
        let (cell, rest) = CaptureForm::read(alloc, rest)?;
        Ok((Change { channel, cell }, rest))
    }
}

impl Reads<OutputChange> for CaptureForm {
    ghost reading = { output_change.read };

    #[tactic(auto, using(crate::proofs::Order::tests), unfolding(crate::specs::Requests::output_change))]
    fn read(alloc: Global, bytes: &[u8]) -> Result<(OutputChange, &[u8]), Misread> {
        let (output, rest) = byte(bytes)?;
        let (count, rest) = byte(rest)?;
        let (changes, rest) = many::<CaptureForm, Change>(alloc, count as usize, rest)?;
        match OutputChange::build(output, Changes::from_vec(changes)) {
            Some(change) => Ok((change, rest)),
            None => Err(Misread::NoReading),
        }
    }
}

#[tactic(auto, using(crate::proofs::Order::tests), unfolding(crate::specs::Requests::action))]
pub(crate) fn read_action(alloc: Global, bytes: &[u8]) -> Result<(Action, &[u8]), Misread>
    ensures { Gives (λ x. (x.0, x.1.now)) result (action.read bytes.now) }
{
    let (count, rest) = byte(bytes)?;
    let (changes, rest) = many::<CaptureForm, OutputChange>(alloc, count as usize, rest)?;
    match Action::build(ListOf::from_vec(changes)) {
        Some(action) => Ok((action, rest)),
        None => Err(Misread::NoReading),
    }
}

/// The time of these parts, where they are in range.
pub(crate) fn time_of(secs: u64, nanos: u32) -> Result<Tai, Misread>
    ensures { Gives (λ x. x) result (tested (is_time (secs, nanos)) (time_made (secs, nanos))) }
{
    if secs < SECS_LIMIT && nanos < NANOS_PER_SECOND {
        Ok(Tai { secs, nanos })
    } else {
        Err(Misread::NoReading)
    }
}

/// The request at the front of bytes, and the bytes after it.
#[tactic(auto, unfolding(crate::specs::Requests::request, crate::specs::Requests::time))]
pub(crate) fn read_request(alloc: Global, bytes: &[u8]) -> Result<(Request, &[u8]), Misread>
    ensures { Gives (λ x. (x.0, x.1.now)) result (request.read bytes.now) }
{
    let (op, rest) = byte(bytes)?;
    match op {
        tags::ACTIVATE_NOW => {
            let (action, rest) = read_action(alloc, rest)?;
            let when = When::Now;
            Ok((Request::Activate { when, action }, rest))
        }
        tags::ACTIVATE_AT => {
            let (secs, rest) = number64(rest)?;
            let (nanos, rest) = number32(rest)?;
            let time = time_of(secs, nanos)?;
            let (action, rest) = read_action(alloc, rest)?;
            let when = When::At(time);
            Ok((Request::Activate { when, action }, rest))
        }
        tags::ACTIVATE_AFTER => {
            let (secs, rest) = number64(rest)?;
            let (nanos, rest) = number32(rest)?;
            let time = time_of(secs, nanos)?;
            let (action, rest) = read_action(alloc, rest)?;
            let when = When::After(time);
            Ok((Request::Activate { when, action }, rest))
        }
        tags::DELETE => {
            let (id, rest) = number64(rest)?;
            Ok((Request::Delete { id }, rest))
        }
        tags::ACTIVE_MAP => Ok((Request::Active, rest)),
        tags::PENDING_LIST => Ok((Request::Pending, rest)),
        _ => Err(Misread::NoReading),
    }
}
