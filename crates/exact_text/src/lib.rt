//! Texts of bytes that are read exactly: readers at the front of a slice, spellings, and the laws
//! that what is read is spelled so and that what is spelled so is read again, whatever follows.
//!
//! A reading is a function from bytes to a value and the bytes after it. Each reader here returns
//! just what its reading gives (`Gives`). A form is a spelling, a reading and the values that fit;
//! a crate above puts forms together, proves its own readers by unfolding one of them, and has the
//! law that spelling and reading fit each other in one line a combinator (`Lawful`, in the proofs
//! of this crate).
#![tactic(auto)]

mod fields;
mod misread;
mod readers;
mod writers;

pub use fields::{NetworkOrder, Reads, many};
pub use misread::Misread;
pub use readers::{
    byte, expected, literal, nothing_behind, number16, number32, number64, record, slice, text,
};
pub use writers::{push_record, push16, push32, push64};

#[cfg(test)]
mod tests;
