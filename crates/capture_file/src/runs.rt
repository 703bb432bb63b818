//! Calls, replies and claims by the number of claims at which they stand, one number after the
//! other, in linear time.

ghost use Rattle.std.specs.Prelude.{◌≡◌, ◌+◌, ◌==◌, ℕ};
ghost use Rattle.std.specs.List.{filter};
ghost use Rattle.capture_file.specs.Runs.{IsFromOn, IsRisingFrom, run_len};

use book_words::{ClaimItem, JournalCall, ReplyItem};

/// What stands at a number of claims; a claim stands at its own.
pub(crate) trait Stands {
    /// The number of claims.
    ghost at: { Self → ℕ };

    /// The number of claims.
    fn at(&self) -> u64
        ensures { result ≡ at self.now };
}

impl Stands for JournalCall {
    ghost at = { λ c. c.at };

    fn at(&self) -> u64 {
        self.at
    }
}

impl Stands for ClaimItem {
    ghost at = { λ c. c.k };

    fn at(&self) -> u64 {
        self.k
    }
}

impl Stands for ReplyItem {
    ghost at = { λ r. r.stamp.claims };

    fn at(&self) -> u64 {
        self.stamp.claims
    }
}

/// How many in front stand at this number of claims.
fn run_len<T: Stands>(rest: &[T], claims: u64) -> usize
    ensures { result ≡ run_len T.at claims rest.now }
{
    let mut len = 0;
    for one in rest {
        if one.at() != claims {
            return len;
        }
        len += 1;
    }
    len
}

/// Those at this number of claims, which stand in front, and those after them.
#[tactic(auto, using(crate::proofs::RunLaws::runs))]
pub(crate) fn split_run<T: Stands>(rest: &[T], claims: u64) -> (&[T], &[T])
    requires { IsRisingFrom T.at claims rest.now }
    ensures run { result.0.now ≡ filter (λ r. T.at r == claims) rest.now }
    ensures behind { IsFromOn T.at (claims + 1) rest.now result.1.now }
{
    rest.split_at(run_len(rest, claims))
}
