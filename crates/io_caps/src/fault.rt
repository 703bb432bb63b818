//! What a device can be refused for.

use crate::{NoMemory, TryCopy};
use std::fmt;
use thiserror::Error;

/// An input (a source of channels) or an output (a target of them), by its number from 0.
#[derive(Clone, Copy, Debug, PartialEq, Eq)]
pub enum Slot {
    Source(u8),
    Target(u8),
}

impl fmt::Display for Slot {
    fn fmt<W: fmt::Write>(&self, f: &mut fmt::Formatter<W>) -> fmt::Result {
        match self {
            Slot::Source(number) => write!(f, "input {number}"),
            Slot::Target(number) => write!(f, "output {number}"),
        }
    }
}

impl TryCopy for Slot {
    fn copy(&self) -> Result<Slot, NoMemory> {
        Ok(*self)
    }
}

/// The first limit that the parts of a device break, in the order of the variants, inputs before
/// outputs, lowest number first.
#[derive(Clone, Copy, Debug, PartialEq, Eq, Error)]
pub enum DeviceFault {
    /// Not one of the four rates, or not 1 to 240 frames a tick.
    #[error("the rate is not one of the four, or a tick has not 1 to 240 frames")]
    Rate,
    /// The tick 2^23 past the first one does not start before 2^40 seconds.
    #[error("the first tick is too near the end of time")]
    Base,
    /// More than 64 ticks of hold.
    #[error("the hold is above 64 ticks")]
    Hold,
    /// No output at all.
    #[error("there is no output")]
    NoOutput,
    /// More than 16 inputs.
    #[error("there are more than 16 inputs")]
    ManyInputs,
    /// More than 64 outputs.
    #[error("there are more than 64 outputs")]
    ManyOutputs,
    /// An id that is not 1 to 32 ASCII letters, digits, `-` and `_`.
    #[error("{0}: the id is not 1 to 32 letters, digits, - and _")]
    Id(Slot),
    /// An id equal to an earlier one of its side.
    #[error("{0}: an earlier one has this id")]
    DoubleId(Slot),
    /// Not 1 to 64 channels.
    #[error("{0}: there are not 1 to 64 channels")]
    Channels(Slot),
    /// A payload type above 127.
    #[error("{0}: the payload type is above 127")]
    PayloadType(Slot),
    /// More than 128 channels of all inputs together.
    #[error("the inputs have more than 128 channels together")]
    ManyChannels,
    /// The input of this number has a channel block size of 0, or one that does not divide its
    /// channels.
    #[error("input {0}: the channels are no whole blocks")]
    Block(u8),
    /// The output of this number has more than 1440 bytes of samples a tick.
    #[error("output {0}: the samples of a tick do not fit into one packet")]
    Payload(u8),
    /// The output of this number lists an input that is not there.
    #[error("output {0}: an input that may be routed to it is not there")]
    Unknown(u8),
}

impl TryCopy for DeviceFault {
    fn copy(&self) -> Result<DeviceFault, NoMemory> {
        Ok(*self)
    }
}
