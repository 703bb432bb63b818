//! The inputs and outputs of a device.

ghost use Rattle.std.specs.Prelude.{◌≡◌, ◌<◌, ◌≤◌, ◌↔◌, ◌^◌, IsTrue, length};
ghost use Rattle.io_caps.specs.Port.{HasWholeBlocks, FitsPacket, IsChoice, IsRoutable};

use crate::limits::MOST_PAYLOAD;
use crate::{Choices, Labels, NoMemory, Rate, Text, TryCopy, Width};

/// What an input is fed from: nothing known, or the IS-04 source or receiver of a UUID.
#[derive(Clone, Copy, Debug, PartialEq, Eq)]
pub enum Parent {
    Nobody,
    Source(u128),
    Receiver(u128),
}

impl TryCopy for Parent {
    fn copy(&self) -> Result<Parent, NoMemory> {
        Ok(*self)
    }
}

/// What may be routed to the channels of an output: anything, or just the inputs listed. A listed
/// `None` allows that a channel is unrouted.
#[derive(Debug, Drop)]
pub enum Routable {
    All,
    Only(Choices),
}

impl Routable {
    /// Whether each input that is listed is one of a given number of inputs.
    pub(crate) fn names_inputs(&self, inputs: usize) -> bool
        ensures { IsTrue result ↔ IsRoutable inputs self.now }
    {
        match self {
            Routable::All => true,
            Routable::Only(choices) => choices
                .as_slice()
                .iter()
                .all(|choice| is_choice(inputs, *choice)),
        }
    }
}

/// Whether an output may list this choice: it is none, or an input that is there.
fn is_choice(inputs: usize, choice: Option<u8>) -> bool
    ensures { IsTrue result ↔ IsChoice inputs choice }
{
    match choice {
        None => true,
        Some(input) => (input as usize) < inputs,
    }
}

impl TryCopy for Routable {
    fn copy(&self) -> Result<Routable, NoMemory> {
        match self {
            Routable::All => Ok(Routable::All),
            Routable::Only(choices) => Ok(Routable::Only(choices.copy()?)),
        }
    }
}

/// A stream that comes in. It has a channel for each label.
#[derive(Debug, Drop)]
pub struct Input {
    pub id: Text,
    pub name: Text,
    pub description: Text,
    pub labels: Labels,
    pub width: Width,
    pub payload_type: u8,
    /// How many neighbouring channels are routed together, as one channel block.
    pub block_size: u8,
    /// Whether the channels of a channel block may be routed in another order.
    pub reordering: bool,
    pub parent: Parent,
}

impl Input {
    /// How many channels it has: as many as labels.
    pub fn channels(&self) -> usize
        ensures { result ≡ length self.now.labels }
    {
        self.labels.len()
    }

    /// Whether its channels are whole channel blocks.
    pub(crate) fn has_whole_blocks(&self) -> bool
        ensures { IsTrue result ↔ HasWholeBlocks self.now }
    {
        self.block_size >= 1 && self.labels.len() % self.block_size as usize == 0
    }
}

impl TryCopy for Input {
    fn copy(&self) -> Result<Input, NoMemory> {
        Ok(Input {
            id: self.id.copy()?,
            name: self.name.copy()?,
            description: self.description.copy()?,
            labels: self.labels.copy()?,
            width: self.width,
            payload_type: self.payload_type,
            block_size: self.block_size,
            reordering: self.reordering,
            parent: self.parent,
        })
    }
}

/// A stream that goes out. It has a channel for each label.
#[derive(Debug, Drop)]
pub struct Output {
    pub id: Text,
    pub name: Text,
    pub description: Text,
    pub labels: Labels,
    pub width: Width,
    pub payload_type: u8,
    /// The synchronisation source of its packets (RFC 3550 section 5.1).
    pub ssrc: u32,
    /// The IS-04 source of a UUID that it feeds, where there is one.
    pub source_id: Option<u128>,
    pub routable: Routable,
}

impl Output {
    /// How many channels it has: as many as labels.
    pub fn channels(&self) -> usize
        ensures { result ≡ length self.now.labels }
    {
        self.labels.len()
    }

    /// Whether the samples of a tick fit into one packet.
    pub(crate) fn fits_packet(&self, rate: Rate) -> bool
        ensures { IsTrue result ↔ FitsPacket rate self.now }
    {
        rate.frames as u128 * self.labels.len() as u128 * self.width.bytes() as u128
            <= MOST_PAYLOAD as u128
    }
}

impl TryCopy for Output {
    fn copy(&self) -> Result<Output, NoMemory> {
        Ok(Output {
            id: self.id.copy()?,
            name: self.name.copy()?,
            description: self.description.copy()?,
            labels: self.labels.copy()?,
            width: self.width,
            payload_type: self.payload_type,
            ssrc: self.ssrc,
            source_id: self.source_id,
            routable: self.routable.copy()?,
        })
    }
}
