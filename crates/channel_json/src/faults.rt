//! Why a device or a request is not read.

use io_caps::{DeviceFault, NoMemory, TryCopy};
use map_entry::SetupFault;
use thiserror::Error;

/// Why a device is not read, in this order.
#[derive(Clone, Copy, Debug, PartialEq, Eq, Error)]
pub enum DeviceJsonFault {
    /// The text is no JSON value (RFC 8259), or one that nests deeper than 127.
    #[error("the text is not JSON")]
    NotJson,
    /// A key is missing, a value has another type, a number is no whole number of its field's
    /// range, a UUID's text has no reading, or an input's id is not there.
    #[error("the value is not a device")]
    Shape,
    /// The device breaks a limit.
    #[error("{0}")]
    Device(DeviceFault),
    /// The base rows do not fit the device.
    #[error("{0}")]
    Rows(SetupFault),
}

/// Where a request is not as it should be, in the order in which it is looked at.
#[derive(Clone, Copy, Debug, PartialEq, Eq, Error)]
pub enum Place {
    /// The whole is no object.
    #[error("the body is not an object")]
    Top,
    /// `activation` is no object.
    #[error("activation is not an object")]
    Activation,
    /// `mode` is none of the three words.
    #[error("mode is none of its three words")]
    Mode,
    /// `requested_time` of a scheduled activation is no time.
    #[error("requested_time is not a time")]
    Time,
    /// `action` is no object.
    #[error("action is not an object")]
    Action,
    /// What stands under an output's id is no object.
    #[error("what stands under the id of an output is not an object")]
    Output,
    /// A channel's key is no number up to 255, or what stands under it is no cell.
    #[error("the key of a channel is not a number up to 255, or no cell stands under it")]
    Cell,
}

/// Why a request is not read: the first that applies, where the keys of `action` and of each output
/// are looked at in the order of their bytes.
#[derive(Clone, Copy, Debug, PartialEq, Eq, Error)]
pub enum BodyFault {
    /// The text is no JSON value (RFC 8259), or one that nests deeper than 127.
    #[error("the text is not JSON")]
    NotJson,
    /// A part of the body is not as it should be: this one.
    #[error("{0}")]
    Shape(Place),
    /// An output's id is not there.
    #[error("there is no output of that id")]
    UnknownOutput,
    /// An input's id is not there.
    #[error("there is no input of that id")]
    UnknownInput,
}

impl TryCopy for DeviceJsonFault {
    fn copy(&self) -> Result<DeviceJsonFault, NoMemory> {
        Ok(*self)
    }
}

impl TryCopy for Place {
    fn copy(&self) -> Result<Place, NoMemory> {
        Ok(*self)
    }
}

impl TryCopy for BodyFault {
    fn copy(&self) -> Result<BodyFault, NoMemory> {
        Ok(*self)
    }
}
