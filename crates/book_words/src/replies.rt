//! What the book of activations answers.

ghost use Rattle.std.specs.Prelude.{◌≡◌};
ghost use Rattle.book_words.specs.Replies.{activation, pending_item};

use crate::When;
use io_caps::{ListOf, NoMemory, TryCopy};
use map_entry::{Action, RowFault, Rows};

/// An activation that was accepted.
#[derive(Clone, Copy, Debug, PartialEq, Eq)]
pub struct Activation {
    /// Its number, counted from 1.
    pub id: u64,
    pub when: When,
    /// The tick from which it counts.
    pub tick: u64,
    /// The frame of the tick from which on it counts.
    pub offset: u16,
}

impl Activation {
    /// The activation of these parts.
    pub fn new(id: u64, when: When, tick: u64, offset: u16) -> Activation
        ensures { result ≡ activation id when tick offset }
    {
        Activation {
            id,
            when,
            tick,
            offset,
        }
    }
}

/// The active map: each output's row, and the activation that counted last.
#[derive(Debug, Drop)]
pub struct ActiveView {
    pub last: Option<Activation>,
    pub rows: Rows,
}

/// A pending activation.
#[derive(Debug, Drop)]
pub struct PendingItem {
    /// Its number, counted from 1.
    pub id: u64,
    pub when: When,
    /// The tick from which it counts.
    pub tick: u64,
    /// The frame of the tick from which on it counts.
    pub offset: u16,
    pub action: Action,
}

impl PendingItem {
    /// The pending activation of these parts, which takes no memory.
    pub fn new(id: u64, when: When, tick: u64, offset: u16, action: Action) -> PendingItem
        ensures { result ≡ pending_item id when tick offset action }
    {
        PendingItem {
            id,
            when,
            tick,
            offset,
            action,
        }
    }
}

/// Pending activations, by their ids.
pub type PendingItems = ListOf<PendingItem>;

/// Why a request is refused: the first that applies, in this order, and of each kind for the lowest
/// output, then the lowest channel.
#[derive(Clone, Copy, Debug, PartialEq, Eq)]
pub enum Refusal {
    /// The action names no output.
    Empty,
    /// The output is not there.
    Unknown { output: u8 },
    /// The output has no such channel.
    BadChannel { output: u8, channel: u8 },
    /// A pending activation names the output.
    Locked { output: u8 },
    /// The row that the output would have fails the check.
    Row { output: u8, fault: RowFault },
    /// The activation would count from past the end of time.
    Time,
    /// No pending activation has this id.
    NotPending { id: u64 },
}

/// What the book answers.
#[derive(Debug, Drop)]
pub enum Reply {
    /// An activation at once was accepted: its id, and the frame of a tick from which it counts.
    Activated { id: u64, tick: u64, offset: u16 },
    /// A scheduled activation was accepted, also one whose time had passed.
    Scheduled { id: u64, tick: u64, offset: u16 },
    /// A pending activation was taken back.
    Deleted { id: u64 },
    Active(ActiveView),
    Pending(PendingItems),
    Refused(Refusal),
}

impl TryCopy for Activation {
    fn copy(&self) -> Result<Activation, NoMemory> {
        Ok(*self)
    }
}

impl TryCopy for ActiveView {
    fn copy(&self) -> Result<ActiveView, NoMemory> {
        Ok(ActiveView {
            last: self.last,
            rows: self.rows.copy()?,
        })
    }
}

impl TryCopy for PendingItem {
    fn copy(&self) -> Result<PendingItem, NoMemory> {
        Ok(PendingItem {
            id: self.id,
            when: self.when,
            tick: self.tick,
            offset: self.offset,
            action: self.action.copy()?,
        })
    }
}

impl TryCopy for Refusal {
    fn copy(&self) -> Result<Refusal, NoMemory> {
        Ok(*self)
    }
}

impl TryCopy for Reply {
    fn copy(&self) -> Result<Reply, NoMemory> {
        match self {
            Reply::Activated { id, tick, offset } => Ok(Reply::Activated {
                id: *id,
                tick: *tick,
                offset: *offset,
            }),
            Reply::Scheduled { id, tick, offset } => Ok(Reply::Scheduled {
                id: *id,
                tick: *tick,
                offset: *offset,
            }),
            Reply::Deleted { id } => Ok(Reply::Deleted { id: *id }),
            Reply::Active(view) => Ok(Reply::Active(view.copy()?)),
            Reply::Pending(items) => Ok(Reply::Pending(items.copy()?)),
            Reply::Refused(refusal) => Ok(Reply::Refused(*refusal)),
        }
    }
}
