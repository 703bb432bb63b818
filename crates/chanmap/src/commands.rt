//! What each command does, a file a command.

pub(crate) mod from_sdp;
pub(crate) mod sdp;
pub(crate) mod serial;
