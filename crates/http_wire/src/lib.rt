//! The byte stream of an HTTP/1.1 client: its requests, whatever the pieces in which its bytes
//! come, and the responses that are written to it (RFC 9112).
#![tactic(auto)]

mod fields;
mod head;
mod held;
mod known;
pub mod laws;
pub mod limits;
mod line;
mod request;
mod response;
mod scan;
pub mod status;
mod stream;

pub use request::{HttpRequest, Method};
pub use response::{Extra, write_response};
pub use stream::{Next, Stream};

#[cfg(test)]
mod tests;
