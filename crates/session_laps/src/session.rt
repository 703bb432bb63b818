//! A session.

ghost use Rattle.std.specs.Prelude.{◌≡◌, ◌+◌, ◌*◌, ◌<◌, ◌≤◌, ◌==◌, IfErr, IfNone, IfOk, IfSome, None, OnErr};
ghost use Rattle.std.specs.Prelude.{is_none, is_some, true};
ghost use Rattle.io_caps.specs.declared.limits.TheConstants.{LAP_TICKS, MOST_WORKERS, SESSION_TICKS};
ghost use Rattle.plain_book.specs.Carry.{carried};
ghost use Rattle.session_laps.specs.Laps.{IsAt, IsBack, is_over};
ghost use Rattle.session_laps.specs.Making.{AreMade, IsLapOf};
ghost use Rattle.session_laps.specs.Sessions.{IsNewLap, IsTurned, new_session};

use crate::ends::end_tables;
use crate::lap::{Lap, Part};
use crate::make::{Tables, make_tables};
use io_caps::limits::LAP_TICKS;
use io_caps::{NoMemory, TryCopy};
use live_book::Rest;
use map_entry::Setup;
use std::alloc::Global;
use std::marker::Model;

/// A session of a number of ticks, whose laps come one after the other. Between two laps it has the
/// book.
#[derive(Drop)]
pub struct Session {
    alloc: Global,
    setup: Setup,
    ticks: u64,
    workers: u8,
    before: u64,
    rest: Option<Rest>,
}

impl Model for Session {
    ghost use Rattle.session_laps.specs.Sessions.{IsSession, SessionFace};

    ghost Value = { SessionFace };

    ghost view = { λ s. record {
      setup = s.setup;
      ticks = s.ticks;
      workers = s.workers;
      before = s.before;
      rest = s.rest;
    } };

    ghost invariant = { λ s. IsSession (record {
      setup = s.setup;
      ticks = s.ticks;
      workers = s.workers;
      before = s.before;
      rest = s.rest;
    }) };
}

/// The lap of these tables, over which the book goes on.
fn lap_of(tables: Tables, rest: Rest, ticks: u64) -> Lap
    requires setup { tables.publisher.view.plan.setup ≡ rest.setup }
    requires from { tables.publisher.view.plan.from ≡ rest.claims }
    requires entries { tables.publisher.view.entries ≡ carried rest.setup rest.journal rest.claims }
    ensures { IsLapOf tables rest ticks result }
{
    let Tables {
        table,
        publisher,
        inputs,
        workers,
        feeds,
        clients,
        room,
    } = tables;
    let from = rest.claims();
    Lap {
        table,
        inputs,
        workers,
        feeds,
        clients,
        book: rest.over(publisher),
        room,
        from,
        ticks,
    }
}

impl Session {
    /// A session of the given number of ticks for the given number of workers, which has had no lap.
    pub fn start(alloc: Global, setup: &Setup, ticks: u64, workers: u8) -> Result<Session, NoMemory>
        requires ticks { ticks ≤ SESSION_TICKS }
        requires workers { workers ≤ MOST_WORKERS }
        ensures { IfOk result (λ made. made ≡ new_session setup.now ticks workers) }
    {
        Ok(Session {
            alloc,
            setup: setup.copy()?,
            ticks,
            workers,
            before: 0,
            rest: Some(Rest::new(alloc, setup)?),
        })
    }

    /// The tables of a lap of the given number of ticks.
    fn tables(&self, ticks: u64) -> Result<Tables, NoMemory>
        requires turned { is_some self.now.rest ≡ true }
        requires ticks { ticks ≤ LAP_TICKS }
        requires within { self.now.before + ticks ≤ self.now.ticks }
        ensures { IfOk result (λ t. IfSome self.now.rest (λ r. AreMade r self.now.before ticks
            self.now.workers t)) }
    {
        match &self.rest {
            None => unreachable!(),
            Some(rest) => make_tables(
                self.alloc,
                &self.setup,
                rest,
                self.before,
                ticks,
                self.workers,
            ),
        }
    }

    /// How many ticks lie in the laps that have ended.
    pub fn before(&self) -> u64
        ensures { result ≡ self.now.before }
    {
        self.before
    }

    /// The next lap, and `None` exactly where every tick has had its lap. The lap before must have
    /// ended. If memory runs out, the session stays as it was.
    pub fn lap(&mut self) -> Result<Option<Lap>, NoMemory>
        requires turned { is_some self.old.rest ≡ true }
        ensures none { IfOk result (λ o. is_none o ≡ (self.old.before == self.old.ticks)) }
        ensures lap { IfOk result (λ o. IfSome o (IsNewLap self.old)) }
        ensures out { IfOk result (λ o. IfSome o (λ l. self.new ≡ record self.old { rest = None })) }
        ensures still { IfOk result (λ o. IfNone o (self.new ≡ self.old)) }
        ensures err { OnErr result (self.new ≡ self.old) }
    {
        if self.before == self.ticks {
            return Ok(None);
        }
        let ticks = LAP_TICKS.min(self.ticks - self.before);
        let tables = self.tables(ticks)?;
        match self.rest.take() {
            None => unreachable!(),
            Some(rest) => Ok(Some(lap_of(tables, rest, ticks))),
        }
    }

    /// Ends the lap that is out, once its packets are all claimed and its passes are back. It returns
    /// the calls that were accepted in it and all its answers; and what was claimed, seen and fed
    /// agrees. If memory runs out, it returns the lap as it was, and the session stays as it was.
    pub fn turn(&mut self, ended: Lap) -> Result<Part, Lap>
        requires out { is_none self.old.rest ≡ true }
        requires at { IsAt self.old.setup self.old.before ended }
        requires ticks { self.old.before + ended.ticks ≤ self.old.ticks }
        requires back { IsBack ended }
        requires over { is_over ended.workers ≡ true }
        ensures turned { IfOk result (IsTurned self.old self.new ended) }
        ensures err { IfErr result (λ lap. lap ≡ ended) }
        ensures kept { OnErr result (self.new ≡ self.old) }
    {
        let calls = match ended.book.calls_since() {
            Ok(calls) => calls,
            Err(_) => return Err(ended),
        };
        let Lap {
            table,
            inputs,
            workers,
            feeds,
            clients,
            book,
            room,
            from,
            ticks,
        } = ended;
        match book.rest() {
            Err(book) => Err(Lap {
                table,
                inputs,
                workers,
                feeds,
                clients,
                book,
                room,
                from,
                ticks,
            }),
            Ok((publisher, given, rest)) => {
                end_tables(table, inputs, publisher, workers, feeds, clients, room);
                self.before += ticks;
                self.rest = Some(rest);
                Ok(Part { calls, given })
            }
        }
    }
}
