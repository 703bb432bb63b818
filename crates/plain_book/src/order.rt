//! The order of a history's replies.

ghost use Rattle.std.specs.Prelude.{◌≡◌, IfOk, fold};
ghost use Rattle.book_words.specs.History.{AreInOrder, in_order, put};

use crate::ReplyItems;
use io_caps::NoMemory;

/// Returns replies in the order of a history: by claims, by calls, by client, and otherwise in the
/// order in which they came.
pub fn in_order(replies: ReplyItems) -> Result<ReplyItems, NoMemory>
    ensures { IfOk result (λ made. made ≡ in_order replies) }
{
    let mut made = replies.into_vec();
    made.sort_by_key(|reply| (reply.stamp.claims, reply.stamp.calls, reply.client))?;
    Ok(ReplyItems::from_vec(made))
}

/// Returns replies that stand in order, with more of them put in their places: each after all that
/// may stand before it.
pub fn merge(replies: ReplyItems, more: ReplyItems) -> Result<ReplyItems, NoMemory>
    requires { AreInOrder replies }
    ensures { IfOk result (λ made. made ≡ fold put replies more) }
{
    let mut made = replies;
    made.append(more)?;
    in_order(made)
}
