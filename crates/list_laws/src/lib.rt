//! Laws of lists, options and numbers that the proofs of several crates cite, and that std does not
//! have. They stand in `proofs/`, for proofs alone: no code runs here.
#![tactic(auto)]
