//! The control API's JSON (AMWA IS-08 v1.0, RFC 8259): devices and requests that are read, and the
//! bodies that are written.
#![tactic(auto)]

mod activations;
mod cells;
mod devices;
mod errors;
mod faults;
mod fields;
mod ids;
mod requests;
mod resource;
mod resources;
mod uuids;
mod values;

pub use activations::{activation_body, active_body, item_body, pending_body};
pub use devices::device_of;
pub use errors::error_body;
pub use faults::{BodyFault, DeviceJsonFault, Place};
pub use ids::{input_number, output_number};
pub use requests::request_of;
pub use resource::Resource;
pub use resources::resource_body;

#[cfg(test)]
mod tests;
