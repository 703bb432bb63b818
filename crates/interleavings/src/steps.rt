//! What claims, looks, sets and closings do to what a core keeps.

ghost use Rattle.std.specs.Prelude.{◌≡◌, ◌<◌, ◌++◌, ◌∷◌, [], Some, true, IfOk, OnErr, OnOk};
ghost use Rattle.std.specs.Prelude.{length, slice_get, slice_index_or, slice_set};
ghost use Rattle.map_entry.specs.declared.claims.TheConstants.{CLAIMS_LIMIT};
ghost use Rattle.packet_writer.specs.Packet.{flag_of};
ghost use Rattle.interleavings.specs.Core.{CanShow, IsCore, inherited, next_answer, set_at};
ghost use Rattle.interleavings.specs.Events.{IsInRange};
ghost use Rattle.interleavings.specs.Run.{claim_with, seen_flags};
ghost use Rattle.interleavings.specs.declared.events.Event.TheVariants.{Claim as ByClaim};
ghost use Rattle.interleavings.specs.declared.events.Event.TheVariants.{Close as ByClose};
ghost use Rattle.interleavings.specs.declared.events.Event.TheVariants.{Look as ByLook};
ghost use Rattle.interleavings.specs.declared.events.Event.TheVariants.{Set as BySet};

use crate::blocks::{has_block, put_block};
use crate::facts::{Facts, Session, Sight};
use crate::render::{show, tick_of};
use crate::start::no_flags;
use crate::{Answer, Event};
use block_builder::Block;
use io_caps::{Flags, NoMemory, TryCopy};
use map_entry::Setup;
use plain_book::ClaimItem;
use std::alloc::Global;

/// What a worker saw for a claim that it draws: what it saw for a claim of the same tick.
fn inherit(alloc: Global, setup: &Setup, sight: &Sight, k: u64) -> Result<Flags, NoMemory>
    ensures { IfOk result (λ made. made ≡ inherited setup.now sight.now.latest sight.now.seen k) }
{
    let device = &setup.device;
    let outputs = u64::from(device.outputs());
    match sight.latest {
        None => no_flags(alloc, device.inputs()),
        Some(j) => {
            // The ticks are counted from the base, so that no sum is too great.
            if j / outputs == k / outputs {
                sight.seen.copy()
            } else {
                no_flags(alloc, device.inputs())
            }
        }
    }
}

/// The sight of a worker.
fn sight_at(facts: &Facts, worker: u8) -> &Sight
    requires { worker < length facts.now.sights }
    ensures { slice_get facts.now.sights worker ≡ Some result.now }
{
    &facts.sights.as_slice()[worker as usize]
}

/// A worker draws the next claim.
pub(crate) fn claim(
    session: &Session,
    _events: &[Event],
    facts: &mut Facts,
    worker: u8,
) -> Result<Answer, NoMemory>
    requires core { IsCore session.now _events.now facts.old }
    requires range { IsInRange session.now.setup session.now.workers (ByClaim worker) }
    ensures answer { IfOk result (λ a. a ≡ next_answer session.now _events.now (ByClaim worker)) }
    ensures core { OnOk result (IsCore session.now (_events.now ++ ByClaim worker ∷ []) facts.new) }
    ensures err { OnErr result (IsCore session.now _events.now facts.new) }
{
    let k = facts.desk.claims();
    if k >= session.ticks * u64::from(session.setup.device.outputs()) {
        return Ok(Answer::Over);
    }
    let seen = inherit(session.alloc, &session.setup, sight_at(facts, worker), k)?;
    let item = show(session, facts, seen.as_slice(), k)?;
    facts.history.claims.push(item)?;
    let latest = Some(k);
    facts.sights.set(worker as usize, Sight { latest, seen });
    facts.desk.raise();
    Ok(Answer::Claimed { k })
}

/// What a worker saw, and its latest claim by that, once it saw the block of an input.
fn saw(
    session: &Session,
    facts: &Facts,
    sight: &Sight,
    input: u8,
    k: u64,
) -> Result<(Flags, ClaimItem), NoMemory>
    requires facts { CanShow session.now facts.now }
    requires claim { k < CLAIMS_LIMIT }
    requires input { input < length sight.now.seen }
    ensures seen { IfOk result (λ r. r.0 ≡ slice_set sight.now.seen input true) }
    ensures claim { IfOk result (λ r. r.1 ≡ claim_with session.now.setup facts.now.desk.journal
        (set_at facts.now.blocks.items) k
        (seen_flags session.now.setup facts.now.desk.journal (flag_of r.0) k)) }
{
    let mut seen = sight.seen.copy()?;
    seen.set(input as usize, true);
    let item = show(session, facts, seen.as_slice(), k)?;
    Ok((seen, item))
}

/// A worker looks for the block of an input.
pub(crate) fn look(
    session: &Session,
    _events: &[Event],
    facts: &mut Facts,
    worker: u8,
    input: u8,
) -> Result<Answer, NoMemory>
    requires core { IsCore session.now _events.now facts.old }
    requires range { IsInRange session.now.setup session.now.workers (ByLook worker input) }
    ensures answer { IfOk result (λ a. a
        ≡ next_answer session.now _events.now (ByLook worker input)) }
    ensures core { OnOk result
        (IsCore session.now (_events.now ++ ByLook worker input ∷ []) facts.new) }
    ensures err { OnErr result (IsCore session.now _events.now facts.new) }
{
    let sight = sight_at(facts, worker);
    let k = match sight.latest {
        None => return Ok(Answer::Nothing),
        Some(k) => k,
    };
    if !has_block(facts.blocks.as_slice(), input, tick_of(&session.setup, k)) {
        return Ok(Answer::Seen { present: false });
    }
    let (seen, item) = saw(session, facts, sight, input, k)?;
    facts.history.claims.set(k as usize, item);
    let latest = Some(k);
    facts.sights.set(worker as usize, Sight { latest, seen });
    Ok(Answer::Seen { present: true })
}

/// The number below which an input's ticks are closed.
fn closing_at(facts: &Facts, input: u8) -> u64
    requires { input < length facts.now.closings }
    ensures { result ≡ slice_index_or facts.now.closings input 0 }
{
    facts.closings.as_slice()[input as usize]
}

/// A feeder sets a block.
pub(crate) fn set(
    _session: &Session,
    _events: &[Event],
    facts: &mut Facts,
    input: u8,
    tick: u64,
    block: &Block,
) -> Result<Answer, NoMemory>
    requires core { IsCore _session.now _events.now facts.old }
    requires range { IsInRange _session.now.setup _session.now.workers
        (BySet input tick block.now) }
    ensures answer { IfOk result (λ a. a
        ≡ next_answer _session.now _events.now (BySet input tick block.now)) }
    ensures core { OnOk result
        (IsCore _session.now (_events.now ++ BySet input tick block.now ∷ []) facts.new) }
    ensures err { OnErr result (IsCore _session.now _events.now facts.new) }
{
    if has_block(facts.blocks.as_slice(), input, tick) {
        return Ok(Answer::AlreadySet);
    }
    if tick < closing_at(facts, input) {
        return Ok(Answer::Closed);
    }
    put_block(&mut facts.blocks, input, tick, block.copy()?)?;
    Ok(Answer::Done)
}

/// A feeder closes the ticks of an input below a number.
pub(crate) fn close(
    _session: &Session,
    _events: &[Event],
    facts: &mut Facts,
    input: u8,
    upto: u64,
) -> Answer
    requires core { IsCore _session.now _events.now facts.old }
    requires range { IsInRange _session.now.setup _session.now.workers (ByClose input upto) }
    ensures answer { result ≡ next_answer _session.now _events.now (ByClose input upto) }
    ensures core { IsCore _session.now (_events.now ++ ByClose input upto ∷ []) facts.new }
{
    let last = closing_at(facts, input);
    facts.closings.set(input as usize, last.max(upto));
    Answer::Done
}
