//! Captures and results: what they hold, and how they are read and written as bytes.
#![tactic(auto)]

mod before;
mod capture;
mod device;
mod device_text;
mod entries;
mod fault;
mod form;
mod format;
#[cfg(test)]
mod format_tests;
mod item_text;
mod items;
mod judging;
mod laws;
mod opening;
mod parts;
mod reading;
mod replies;
mod requests;
mod result;
mod result_file;
mod result_judging;
mod result_records;
#[cfg(test)]
mod result_tests;
mod runs;
mod tags;
#[cfg(test)]
mod tests;
mod walk;
mod writing;

pub use book_words::{
    Activation, ActiveView, ClaimItem, ClaimItems, History, Journal, JournalCall, PendingItem,
    PendingItems, Refusal, Reply, ReplyItem, ReplyItems, Request, Requests, Said, Stamp, When,
};
pub use capture::{Capture, read_capture};
pub use device_text::write_device;
pub use entries::{ClaimRecord, ReplyRecord, ResultFile, ResultItem, SaidRecord};
pub use fault::{CaptureFault, CaptureKind};
pub use format::{Format, capture_magic, grain_record, result_magic};
pub use item_text::write_items;
pub use items::{Item, Items, RecordBytes};
pub use laws::written_captures_are_read;
pub use opening::{Opening, read_opening};
pub use parts::{CLAIM_HEAD_LEN, end_record, write_between, write_claim_front};
pub use result::write_result;
pub use result_file::read_result;
