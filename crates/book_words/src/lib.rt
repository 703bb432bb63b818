//! The words of the book: what clients ask, what they are answered, the calls that are accepted,
//! and histories of all of these.
#![tactic(auto)]

mod calls;
mod given;
mod history;
mod replies;
mod requests;

pub use calls::{Journal, JournalCall};
pub use given::{Given, GivenItems};
pub use history::{ClaimItem, ClaimItems, History, ReplyItem, ReplyItems, Said};
pub use replies::{Activation, ActiveView, PendingItem, PendingItems, Refusal, Reply};
pub use requests::{Request, Requests, Stamp, When};
