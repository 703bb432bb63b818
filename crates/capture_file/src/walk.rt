//! Records one after the other, up to a last one, with the place of the first fault.

ghost use Rattle.std.specs.Prelude.{◌≤◌, ℕ, List, Result, IfOk, IfErr, length};
ghost use Rattle.capture_file.specs.declared.walk.Step.{Step};
ghost use Rattle.capture_file.specs.Walk.{IfFault, IsJudged, EndsAt, FaultAt};

use exact_text::record;
use io_caps::Or;
use std::alloc::Global;

/// What a record does to what stood before it.
#[derive(Debug, Drop)]
pub enum Step<S, E> {
    /// More records follow.
    Next(S),
    /// It is the last one.
    Last(E),
}

/// A fault, by the place of its record.
#[derive(Clone, Copy, Debug, PartialEq, Eq)]
pub struct RecordFault<F> {
    pub at: usize,
    pub fault: F,
}

/// What records are judged by: what stands before them.
pub trait Judge<'a, E, F>: Drop {
    /// What a record, by its place, its tag and its body, does to this, or its fault.
    ghost judges: { Self → ℕ → ℕ → List ℕ → Result (Step Self E) F → Type 0 };

    /// Takes the record at a place, or says its fault.
    fn judge(
        self,
        alloc: Global,
        at: usize,
        tag: u8,
        body: &'a [u8],
    ) -> Result<Step<Self, E>, Or<F>>
        ensures { IsJudged (judges self at tag body.now) result };
}

/// What all records up to the last one come to, and the place after it; or the first fault, with
/// the place of its record. A record that is not whole has the fault `cut`. The bytes are the last
/// ones of `whole` bytes, among which places count.
pub fn walk<'a, S: Judge<'a, E, F>, E: Drop, F: Drop>(
    alloc: Global,
    start: S,
    cut: F,
    whole: usize,
    bytes: &'a [u8],
) -> Result<(E, usize), Or<RecordFault<F>>>
    requires { length bytes.now ≤ whole }
    ensures end { IfOk result (λ x. EndsAt S.judges start whole bytes.now x.0 x.1) }
    ensures fault { IfErr result (λ e. IfFault e
        (λ f. FaultAt S.judges cut start whole bytes.now f.at f.fault)) }
{
    let mut state = start;
    let mut rest = bytes;
    loop {
        let at = whole - rest.len();
        let (tag, body, after) = match record(rest) {
            Ok(found) => found,
            Err(_) => return Err(Or::Fault(RecordFault { at, fault: cut })),
        };
        match state.judge(alloc, at, tag, body) {
            Ok(Step::Next(next)) => {
                state = next;
                rest = after;
            }
            Ok(Step::Last(last)) => return Ok((last, whole - after.len())),
            Err(Or::Fault(fault)) => return Err(Or::Fault(RecordFault { at, fault })),
            Err(Or::NoMemory) => return Err(Or::NoMemory),
        }
    }
}
