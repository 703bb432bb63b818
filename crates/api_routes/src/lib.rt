//! The resources of the control API (AMWA IS-08 v1.0): what a request asks of the book of
//! activations, and the response to it.
#![tactic(auto)]

mod answer;
mod plan;
mod routes;
mod serve;
mod targets;
mod wrong;

pub use routes::Routes;
pub use serve::{
    Answered, ServeFault, asks, no_memory_response, refuse_stream, respond, serve_request,
};

#[cfg(test)]
mod tests;
