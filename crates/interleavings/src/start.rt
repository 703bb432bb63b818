//! What a core keeps before the first event.

ghost use Rattle.std.specs.Prelude.{◌≡◌, ◌≤◌, [], IfOk, map, false};
ghost use Rattle.std.specs.List.{range_with_len};
ghost use Rattle.io_caps.specs.declared.limits.TheConstants.{SESSION_TICKS};
ghost use Rattle.book_words.specs.History.{history_of};
ghost use Rattle.interleavings.specs.Core.{IsCore, no_sight, repeated};

use crate::blocks::no_blocks;
use crate::facts::{Facts, Session, Sight};
use io_caps::{Flags, ListOf, NoMemory};
use plain_book::{ClaimItems, History, Journal, PlainDesk, ReplyItems};
use std::alloc::Global;

/// No flag of a given number of inputs.
pub(crate) fn no_flags(alloc: Global, inputs: u8) -> Result<Flags, NoMemory>
    ensures { IfOk result (λ made. made ≡ repeated false inputs) }
{
    let mut made = Flags::new(alloc);
    for _ in 0..inputs {
        made.push(false)?;
    }
    Ok(made)
}

/// The closings of a given number of inputs of which no tick is closed.
fn no_closings(alloc: Global, inputs: u8) -> Result<ListOf<u64>, NoMemory>
    ensures { IfOk result (λ made. made ≡ repeated 0 inputs) }
{
    let mut made = ListOf::new(alloc);
    for _ in 0..inputs {
        made.push(0)?;
    }
    Ok(made)
}

/// The sight of a worker without a claim.
fn no_sight(alloc: Global, inputs: u8) -> Result<Sight, NoMemory>
    ensures { IfOk result (λ made. made ≡ no_sight inputs) }
{
    Ok(Sight {
        latest: None,
        seen: no_flags(alloc, inputs)?,
    })
}

/// The sights of a given number of workers without a claim.
fn no_sights(alloc: Global, inputs: u8, workers: u8) -> Result<ListOf<Sight>, NoMemory>
    ensures { IfOk result (λ made. made ≡ repeated (no_sight inputs) workers) }
{
    let mut made = ListOf::new(alloc);
    for _ in 0..workers {
        made.push(no_sight(alloc, inputs)?)?;
    }
    Ok(made)
}

/// The history of no events.
fn no_history(alloc: Global) -> History
    ensures { result ≡ history_of [] [] [] }
{
    History {
        claims: ClaimItems::new(alloc),
        journal: Journal::new(alloc),
        replies: ReplyItems::new(alloc),
    }
}

/// What is kept before the first event.
pub(crate) fn start(session: &Session) -> Result<Facts, NoMemory>
    requires { session.now.ticks ≤ SESSION_TICKS }
    ensures { IfOk result (IsCore session.now []) }
{
    let alloc = session.alloc;
    let inputs = session.setup.device.inputs();
    Ok(Facts {
        desk: PlainDesk::new(alloc, &session.setup)?,
        sights: no_sights(alloc, inputs, session.workers)?,
        blocks: no_blocks(alloc, inputs)?,
        closings: no_closings(alloc, inputs)?,
        history: no_history(alloc),
    })
}
