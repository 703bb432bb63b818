//! Why bytes are no capture, or no result.

use io_caps::{NoMemory, TryCopy};
use thiserror::Error;

/// What is wrong with bytes that are no capture, or no result. For one record the order is `Cut`,
/// `Tag`, `Order`, `Device` or `Body`, `Work`. Of a result there are `Magic`, `Cut`, `Tag`, `Body`
/// and `Trailing`.
#[derive(Clone, Copy, Debug, PartialEq, Eq, Error)]
pub enum CaptureKind {
    /// They do not begin with the magic.
    #[error("magic")]
    Magic,
    /// They end before a record or within it, and no last record came.
    #[error("cut")]
    Cut,
    /// The tag is none of a capture, or none of a result.
    #[error("tag")]
    Tag,
    /// The first record is no device, or a later one is.
    #[error("order")]
    Order,
    /// The device's body has no reading, or the device or its base rows are out of order.
    #[error("device")]
    Device,
    /// Another record's body has no reading, or names an input or a client that is not there.
    #[error("body")]
    Body,
    /// At the last record: the claims are not those of whole ticks, or of too many.
    #[error("work")]
    Work,
    /// There are bytes after the last record of a result. [`read_capture`](crate::read_capture) never
    /// says so.
    #[error("trailing")]
    Trailing,
}

/// Why bytes are no capture or no result, by the place of the tag of the first record at fault. The
/// place of `Trailing` is that of the first byte after the last record.
#[derive(Clone, Copy, Debug, PartialEq, Eq, Error)]
#[error("{kind} at {at}")]
pub struct CaptureFault {
    pub at: u64,
    pub kind: CaptureKind,
}

impl TryCopy for CaptureKind {
    fn copy(&self) -> Result<CaptureKind, NoMemory> {
        Ok(*self)
    }
}

impl TryCopy for CaptureFault {
    fn copy(&self) -> Result<CaptureFault, NoMemory> {
        Ok(*self)
    }
}
