//! The device: its rate, its inputs and its outputs, and the parts that every crate above stands
//! on: `NoMemory`, values that can be copied, and the one list type.
#![tactic(auto)]

mod checks;
mod device;
mod fault;
pub mod limits;
mod list;
mod memory;
mod port;
mod rate;
mod seat;

pub use device::{Device, DeviceParts};
pub use fault::{DeviceFault, Slot};
pub use list::ListOf;
pub use memory::{NoMemory, Or, TryCopy};
pub use port::{Input, Output, Parent, Routable};
pub use rate::{Rate, Width};
pub use seat::NoSeat;

/// The bytes of a name, a description or a label, which need not be UTF-8.
pub type Text = ListOf<u8>;

/// Bytes of a packet or a record.
pub type Bytes = ListOf<u8>;

/// A label for each channel, in channel order.
pub type Labels = ListOf<Text>;

/// What may be routed to an output: inputs by their numbers, and `None` for unrouted.
pub type Choices = ListOf<Option<u8>>;

/// The inputs of a device, by their numbers from 0.
pub type Inputs = ListOf<Input>;

/// The outputs of a device, by their numbers from 0.
pub type Outputs = ListOf<Output>;

/// Flags, one for each input.
pub type Flags = ListOf<bool>;

/// Numbers of claims or ticks.
pub type Numbers = ListOf<u64>;

#[cfg(test)]
mod tests;
