//! The core.

ghost use Rattle.std.specs.Prelude.{◌≡◌, ◌≤◌, ◌++◌, ◌∷◌, [], IfOk, OnErr, OnOk, All, map};
ghost use Rattle.io_caps.specs.declared.limits.TheConstants.{SESSION_TICKS};
ghost use Rattle.map_entry.specs.Setup.{IsSetup};
ghost use Rattle.plain_book.specs.Journal.{entries_of};
ghost use Rattle.plain_book.specs.Rows.{AreRows};
ghost use Rattle.interleavings.specs.Core.{IsCore, IsLegalCore, core_parts, next_answer};
ghost use Rattle.interleavings.specs.Events.{IsInRange, IsRun, answer_of, run_of, taken_by};
ghost use Rattle.interleavings.specs.Run.{history_in};

use crate::asking::call;
use crate::facts::{Facts, Session};
use crate::start::start;
use crate::steps::{claim, close, look, set};
use crate::{Answer, Event, Events};
use io_caps::{NoMemory, TryCopy};
use map_entry::Setup;
use plain_book::History;
use std::alloc::Global;
use std::marker::Model;

/// A book, blocks and claims by which events are answered, one after another. Contracts see the
/// list of its events, each with its answer.
#[derive(Drop)]
pub struct Core {
    session: Session,
    events: Events,
    facts: Facts,
}

impl Model for Core {
    ghost use Rattle.interleavings.specs.Core.{CoreParts, IsCore, core_of};

    ghost Value = { CoreParts };

    ghost view = { λ c. core_of c.session c.events };

    ghost invariant = { λ c. IsCore c.session c.events c.facts };
}

/// What happens by an event.
fn advance(
    session: &Session,
    events: &[Event],
    facts: &mut Facts,
    event: &Event,
) -> Result<Answer, NoMemory>
    requires core { IsCore session.now events.now facts.old }
    requires range { IsInRange session.now.setup session.now.workers event.now }
    ensures answer { IfOk result (λ a. a ≡ next_answer session.now events.now event.now) }
    ensures core { OnOk result (IsCore session.now (events.now ++ event.now ∷ []) facts.new) }
    ensures err { OnErr result (IsCore session.now events.now facts.new) }
{
    match event {
        Event::Claim { worker } => claim(session, events, facts, *worker),
        Event::Look { worker, input } => look(session, events, facts, *worker, *input),
        Event::Set { input, tick, block } => set(session, events, facts, *input, *tick, block),
        Event::Close { input, upto } => Ok(close(session, events, facts, *input, *upto)),
        Event::Call { client, request } => call(session, events, facts, *client, request),
    }
}

impl Core {
    /// The core of a session of a given number of ticks and workers, to which nothing has happened.
    pub fn new(alloc: Global, setup: &Setup, ticks: u64, workers: u8) -> Result<Core, NoMemory>
        requires { ticks ≤ SESSION_TICKS }
        ensures value { IfOk result (λ made. made ≡ core_parts setup.now ticks workers []) }
        ensures setup { OnOk result (IsSetup setup.now) }
    {
        let session = Session {
            alloc,
            setup: setup.copy()?,
            ticks,
            workers,
        };
        let facts = start(&session)?;
        Ok(Core {
            session,
            events: Events::new(alloc),
            facts,
        })
    }

    /// Answers an event, and keeps it. If memory runs out, the core stays as it was.
    pub fn step(&mut self, event: &Event) -> Result<Answer, NoMemory>
        requires { IsInRange self.old.setup self.old.workers event.now }
        ensures answer { IfOk result (λ a. a
            ≡ answer_of self.old.setup self.old.ticks self.old.taken event.now) }
        ensures taken { OnOk result (self.new
            ≡ core_parts self.old.setup self.old.ticks self.old.workers (self.old.taken
            ++ taken_by self.old.setup self.old.ticks self.old.taken event.now ∷ [])) }
        ensures err { OnErr result (self.new ≡ self.old) }
    {
        let count = self.events.len();
        self.events.push(event.copy()?)?;
        let before = &self.events.as_slice()[..count];
        match advance(&self.session, before, &mut self.facts, event) {
            Ok(answer) => Ok(answer),
            Err(error) => {
                self.events.truncate(count);
                Err(error)
            }
        }
    }

    /// The history of what happened. However the core was stepped, it is legal, with the claims
    /// made so far and over the blocks that were set; and each row of its calls passes the check.
    pub fn history(&self) -> &History
        ensures value { result.now ≡ history_in self.now.setup self.now.taken }
        ensures run { IsRun self.now.setup self.now.ticks self.now.taken }
        ensures legal { IsLegalCore self.now }
        ensures rows { AreRows self.now.setup (entries_of self.now.setup result.now.journal) }
    {
        &self.facts.history
    }
}

/// The core of these events: all steps, one after another. Its history is legal, for every list of
/// events and every number of workers, with the claims made so far and over the blocks that were
/// set; and each row that its calls publish passes the check.
pub fn law_core(
    alloc: Global,
    setup: &Setup,
    ticks: u64,
    workers: u8,
    events: &Events,
) -> Result<Core, NoMemory>
    requires ticks { ticks ≤ SESSION_TICKS }
    requires range { All (IsInRange setup.now workers) events.now }
    ensures core { IfOk result (λ core. core
        ≡ core_parts setup.now ticks workers (run_of setup.now ticks events.now)) }
    ensures events { IfOk result (λ core. map (λ t. t.event) core.taken ≡ events.now) }
    ensures run { IfOk result (λ core. IsRun setup.now ticks core.taken) }
    ensures legal { IfOk result IsLegalCore }
    ensures rows { IfOk result (λ core. AreRows setup.now
        (entries_of setup.now (history_in setup.now core.taken).journal)) }
{
    let mut core = Core::new(alloc, setup, ticks, workers)?;
    for event in events.as_slice() {
        let _answer = core.step(event)?;
    }
    Ok(core)
}
