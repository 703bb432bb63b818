//! That no pass is left.

use thiserror::Error;

/// All passes of a running table were made, or this one was given.
#[derive(Clone, Copy, Debug, PartialEq, Eq, Error)]
#[error("no pass is left")]
pub struct NoSeat;
