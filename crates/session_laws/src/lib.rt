//! What sessions on running tables leave, as facts on plain values that the calls of the tables and
//! of the book tell; and laws: such a session's history is legal.
#![tactic(auto)]

pub mod laws;
