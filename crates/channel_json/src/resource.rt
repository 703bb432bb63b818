//! The fixed resources.

use io_caps::{NoMemory, TryCopy};

/// A resource whose value a device tells alone (AMWA IS-08 v1.0). `Slash`, `Nmos` and `Mapping`
/// stand above the version. Inputs and outputs are told by their numbers.
#[derive(Clone, Copy, Debug, PartialEq, Eq)]
pub enum Resource {
    Slash,
    Nmos,
    Mapping,
    Version,
    Inputs,
    Outputs,
    /// What is below an input.
    Input,
    /// What is below an output.
    Output,
    InputProperties(u8),
    OutputProperties(u8),
    Parent(u8),
    InputChannels(u8),
    OutputChannels(u8),
    InputCaps(u8),
    SourceId(u8),
    OutputCaps(u8),
    Map,
    Io,
}

impl TryCopy for Resource {
    fn copy(&self) -> Result<Resource, NoMemory> {
        Ok(*self)
    }
}
