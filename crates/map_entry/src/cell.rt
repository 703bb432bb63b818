//! What a channel of an output is routed from.

ghost use Rattle.std.specs.Prelude.{◌≡◌};
ghost use Rattle.map_entry.specs.Row.{names, is_from, is_input_there, is_channel_there, choice_of};

use io_caps::{Input, NoMemory, TryCopy};

/// What a channel of an output is routed from: nothing, or a channel of an input, by their numbers.
#[derive(Clone, Copy, Debug, PartialEq, Eq)]
pub enum Cell {
    Unrouted,
    From { input: u8, channel: u8 },
}

impl Cell {
    /// Whether it names an input.
    pub fn names(self, input: u8) -> bool
        ensures { result ≡ names input self }
    {
        match self {
            Cell::Unrouted => false,
            Cell::From { input: of, .. } => of == input,
        }
    }

    /// Whether it is this channel of this input.
    pub(crate) fn is_from(self, input: u8, channel: usize) -> bool
        ensures { result ≡ is_from input channel self }
    {
        match self {
            Cell::Unrouted => false,
            Cell::From {
                input: of,
                channel: at,
            } => of == input && at as usize == channel,
        }
    }

    /// Whether the input that it names is there. An unrouted cell names none.
    pub(crate) fn is_input_there(self, inputs: &[Input]) -> bool
        ensures { result ≡ is_input_there inputs.now self }
    {
        match self {
            Cell::Unrouted => true,
            Cell::From { input, .. } => (input as usize) < inputs.len(),
        }
    }

    /// Whether the channel that it names is there. An unrouted cell names none.
    pub fn is_channel_there(self, inputs: &[Input]) -> bool
        ensures { result ≡ is_channel_there inputs.now self }
    {
        match self {
            Cell::Unrouted => true,
            Cell::From { input, channel } => match inputs.get(input as usize) {
                Some(input) => (channel as usize) < input.channels(),
                None => false,
            },
        }
    }

    /// The input that it names, or none: what a routable list is asked for.
    pub(crate) fn choice(self) -> Option<u8>
        ensures { result ≡ choice_of self }
    {
        match self {
            Cell::Unrouted => None,
            Cell::From { input, .. } => Some(input),
        }
    }
}

impl TryCopy for Cell {
    fn copy(&self) -> Result<Cell, NoMemory> {
        Ok(*self)
    }
}
