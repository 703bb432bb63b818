//! What happens in a session, one thing at a time, and what it is answered.

ghost use Rattle.std.specs.Prelude.{◌↔◌, ◌<◌, All, IsTrue, length};
ghost use Rattle.interleavings.specs.Events.{HasShape, IsInRange};
ghost use Rattle.rtp_pcm.specs.Pcm.{IsSample};

use block_builder::Block;
use io_caps::{ListOf, NoMemory, TryCopy};
use map_entry::Setup;
use plain_book::{Reply, Request, Stamp};

/// What happens, one at a time.
#[derive(Debug, Drop)]
pub enum Event {
    /// A worker draws the next claim.
    Claim { worker: u8 },
    /// A worker looks whether the block of an input is there at the tick of its latest claim.
    Look { worker: u8, input: u8 },
    /// A feeder sets the block of an input at a tick.
    Set { input: u8, tick: u64, block: Block },
    /// A feeder closes the ticks of an input below a number.
    Close { input: u8, upto: u64 },
    /// A client asks the book.
    Call { client: u8, request: Request },
}

/// What an event is answered.
#[derive(Debug, Drop)]
pub enum Answer {
    /// The claim has this number.
    Claimed { k: u64 },
    /// All packets are claimed.
    Over,
    /// Whether the block is there.
    Seen { present: bool },
    /// The worker that looks has no claim.
    Nothing,
    /// The block is set, or the ticks are closed.
    Done,
    /// The block was there already.
    AlreadySet,
    /// The tick is closed.
    Closed,
    /// What the book replied, and its place.
    Replied { reply: Reply, stamp: Stamp },
}

/// An event with its answer.
#[derive(Debug, Drop)]
pub struct AnsweredEvent {
    pub event: Event,
    pub answer: Answer,
}

/// Events, in order.
pub type Events = ListOf<Event>;

/// Samples are below this, and not below its negative.
const SAMPLES_LIMIT: i32 = 1 << 23;

/// Whether a number is a sample: a signed number of 24 bits.
fn is_sample(number: i32) -> bool
    ensures { IsTrue result ↔ IsSample number }
{
    -SAMPLES_LIMIT <= number && number < SAMPLES_LIMIT
}

/// Whether a block has a sample for each channel of an input at each frame of a tick.
fn has_shape(setup: &Setup, input: u8, block: &[i32]) -> bool
    requires { input < length setup.now.device.inputs }
    ensures { IsTrue result ↔ HasShape setup.now input block.now }
{
    let device = &setup.device;
    let channels = device.input(input).channels();
    block.len() == device.rate().frames as usize * channels
        && block.iter().all(|sample| is_sample(*sample))
}

impl Event {
    /// Whether a core of this setup and a given number of workers takes the event: its worker and
    /// its input are there, and its block has a signed 24-bit sample for each channel of each frame
    /// of a tick.
    pub fn is_in_range(&self, setup: &Setup, workers: u8) -> bool
        ensures { IsTrue result ↔ IsInRange setup.now workers self.now }
    {
        let inputs = setup.device.inputs();
        match self {
            Event::Claim { worker } => *worker < workers,
            Event::Look { worker, input } => *worker < workers && *input < inputs,
            Event::Set { input, block, .. } => {
                *input < inputs && has_shape(setup, *input, block.as_slice())
            }
            Event::Close { input, .. } => *input < inputs,
            Event::Call { .. } => true,
        }
    }
}

/// Whether a core of this setup and a given number of workers takes these events.
pub fn are_in_range(setup: &Setup, workers: u8, events: &Events) -> bool
    ensures { IsTrue result ↔ All (IsInRange setup.now workers) events.now }
{
    events
        .as_slice()
        .iter()
        .all(|event| event.is_in_range(setup, workers))
}

impl TryCopy for Event {
    fn copy(&self) -> Result<Event, NoMemory> {
        Ok(match self {
            Event::Claim { worker } => Event::Claim { worker: *worker },
            Event::Look { worker, input } => Event::Look {
                worker: *worker,
                input: *input,
            },
            Event::Set { input, tick, block } => Event::Set {
                input: *input,
                tick: *tick,
                block: block.copy()?,
            },
            Event::Close { input, upto } => Event::Close {
                input: *input,
                upto: *upto,
            },
            Event::Call { client, request } => Event::Call {
                client: *client,
                request: request.copy()?,
            },
        })
    }
}
