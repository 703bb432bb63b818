//! What rows can be refused for.

use io_caps::{NoMemory, TryCopy};
use thiserror::Error;

/// The first condition that a row fails, in the order of the variants, each with the lowest channel
/// of the output that fails it.
#[derive(Clone, Copy, Debug, PartialEq, Eq, Error)]
pub enum RowFault {
    /// The channel names an input that is not there.
    #[error("channel {0} names an input that is not there")]
    Input(u8),
    /// The channel names a channel of an input that is not there.
    #[error("channel {0} names a channel that is not there")]
    Channel(u8),
    /// The channel may not be routed so: what it names, or that it is unrouted, is not on the
    /// output's routable list.
    #[error("channel {0} may not be routed so")]
    NotRoutable(u8),
    /// The channel begins a piece that is no whole channel block of its input.
    #[error("channel {0} begins a piece that is no whole block")]
    Block(u8),
    /// The channel begins a piece in another order than its channel block, whose channels may not
    /// be reordered.
    #[error("channel {0} begins a piece in another order than its block")]
    Order(u8),
}

impl TryCopy for RowFault {
    fn copy(&self) -> Result<RowFault, NoMemory> {
        Ok(*self)
    }
}

/// What base rows can be refused for.
#[derive(Clone, Copy, Debug, PartialEq, Eq, Error)]
pub enum SetupFault {
    /// Not a row for each output with a cell for each of its channels.
    #[error("there is not a row for each output with a cell for each channel")]
    Count,
    /// There is such a row for each output: the lowest output whose row fails the check, and what
    /// it fails.
    #[error("output {output}: {fault}")]
    BaseRow { output: u8, fault: RowFault },
}

impl TryCopy for SetupFault {
    fn copy(&self) -> Result<SetupFault, NoMemory> {
        Ok(*self)
    }
}
