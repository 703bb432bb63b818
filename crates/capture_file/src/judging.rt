//! The records of a capture after its device, each judged by what stands before it.

ghost use Rattle.std.specs.Prelude.{◌≡◌, ◌<◌, ◌≤◌, ◌^◌, ◌↔◌, ℕ, IsTrue, IfSome, IfNone, length};
ghost use Rattle.std.specs.List.{sum_by};
ghost use Rattle.exact_text.specs.Readings.{Gives, whole_of};
ghost use Rattle.capture_file.specs.Items.{item_body, IsItemThere, claims_of};
ghost use Rattle.capture_file.specs.Capture.{AreTicks};
ghost use Rattle.capture_file.specs.Fault.{before, sort_of, IsTaken, IsEnded, IsLater, Judges};
ghost use Rattle.capture_file.specs.Walk.{IsJudged};

use crate::before::{CaptureFront, RecordKind, sort_of};
use crate::requests::read_request;
use crate::walk::{Judge, Step};
use crate::{Capture, CaptureKind, Item, RecordBytes, tags};
use exact_text::{Misread, byte, nothing_behind, number32};
use io_caps::Or;
use io_caps::limits::{CAPTURE_TICKS, CLIENTS};
use map_entry::Setup;
use std::alloc::Global;

/// The record of a tag and a body.
#[tactic(auto, unfolding(crate::specs::Items::item_body))]
fn read_item<'a>(alloc: Global, tag: u8, body: &'a [u8]) -> Result<Item<'a>, Misread>
    ensures { Gives (λ x. x) result (whole_of (item_body tag).read body.now) }
{
    match tag {
        tags::PACKET => {
            let (input, rest) = byte(body)?;
            let bytes = RecordBytes::new(rest);
            Ok(Item::Packet { input, bytes })
        }
        tags::PIECE => {
            let (client, rest) = byte(body)?;
            let bytes = RecordBytes::new(rest);
            Ok(Item::Piece { client, bytes })
        }
        tags::ASK => {
            let (client, rest) = byte(body)?;
            let (request, rest) = read_request(alloc, rest)?;
            nothing_behind(rest)?;
            Ok(Item::Ask { client, request })
        }
        tags::WORK => {
            let (claims, rest) = number32(body)?;
            nothing_behind(rest)?;
            Ok(Item::Work { claims })
        }
        _ => Err(Misread::NoReading),
    }
}

fn is_item_there(setup: &Setup, item: &Item<'_>) -> bool
    ensures { IsTrue result ↔ IsItemThere (length setup.now.device.inputs) item.now }
{
    match item {
        Item::Packet { input, .. } => *input < setup.device.inputs(),
        Item::Piece { client, .. } | Item::Ask { client, .. } => *client < CLIENTS,
        Item::Work { .. } => true,
    }
}

/// How many claims a record makes.
fn claims_of(item: &Item<'_>) -> u32
    ensures { result ≡ claims_of item.now }
{
    match item {
        Item::Packet { .. } | Item::Piece { .. } | Item::Ask { .. } => 0,
        Item::Work { claims } => *claims,
    }
}

/// All claims together, where they are no more than `most`.
fn claims_together(items: &[Item<'_>], most: u64) -> Option<u64>
    requires { most < 2 ^ 32 }
    ensures some { IfSome result (λ n. (n ≡ sum_by claims_of items.now) × (n ≤ most)) }
    ensures none { IfNone result (most < sum_by claims_of items.now) }
{
    let mut together: u64 = 0;
    for item in items {
        together += u64::from(claims_of(item));
        if together > most {
            return None;
        }
    }
    Some(together)
}

/// The ticks that the claims fill, where these are whole ticks and not too many.
fn ticks_of(outputs: u8, items: &[Item<'_>]) -> Option<u64>
    requires { 0 < outputs }
    ensures some { IfSome result (λ ticks. AreTicks outputs items.now ticks) }
    ensures none { IfNone result ((ticks : ℕ) → AreTicks outputs items.now ticks → ⊥) }
{
    let outputs = u64::from(outputs);
    let claims = claims_together(items, CAPTURE_TICKS * outputs)?;
    if claims % outputs == 0 {
        Some(claims / outputs)
    } else {
        None
    }
}

type Judged<'a> = Result<Step<CaptureFront<'a>, Capture<'a>>, Or<CaptureKind>>;

fn take_item<'a>(alloc: Global, before: CaptureFront<'a>, tag: u8, body: &'a [u8]) -> Judged<'a>
    ensures { IsJudged (IsTaken before.entry tag body.now) result }
{
    let item = match read_item(alloc, tag, body) {
        Ok(item) => item,
        Err(Misread::NoReading) => return Err(Or::Fault(CaptureKind::Body)),
        Err(Misread::NoMemory) => return Err(Or::NoMemory),
    };
    let CaptureFront { opening, mut items } = before;
    if !is_item_there(&opening.setup, &item) {
        return Err(Or::Fault(CaptureKind::Body));
    }
    items.push(item)?;
    Ok(Step::Next(CaptureFront { opening, items }))
}

fn take_end<'a>(before: CaptureFront<'a>, body: &[u8]) -> Judged<'a>
    ensures { IsJudged (IsEnded before.entry body.now) result }
{
    let CaptureFront { opening, items } = before;
    if !body.is_empty() {
        return Err(Or::Fault(CaptureKind::Body));
    }
    match ticks_of(opening.setup.device.outputs(), items.as_slice()) {
        Some(ticks) => Ok(Step::Last(Capture {
            format: opening.format,
            setup: opening.setup,
            items_at: opening.items_at,
            items,
            ticks,
        })),
        None => Err(Or::Fault(CaptureKind::Work)),
    }
}

fn take_later<'a>(alloc: Global, before: CaptureFront<'a>, tag: u8, body: &'a [u8]) -> Judged<'a>
    ensures { IsJudged (IsLater (sort_of before.entry.opening.format tag) before.entry tag body.now) result }
{
    match sort_of(before.opening.format, tag) {
        RecordKind::ItemRecord => take_item(alloc, before, tag, body),
        RecordKind::EndRecord => take_end(before, body),
        RecordKind::NoRecord(kind) => Err(Or::Fault(kind)),
    }
}

impl<'a> Judge<'a, Capture<'a>, CaptureKind> for CaptureFront<'a> {
    ghost judges = { Judges };

    fn judge(self, alloc: Global, _at: usize, tag: u8, body: &'a [u8]) -> Judged<'a> {
        take_later(alloc, self, tag, body)
    }
}
