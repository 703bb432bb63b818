//! What an activation changes.

ghost use Rattle.std.specs.Prelude.{◌≡◌, [], ◌∷◌, ◌++◌, ◌<◌, ◌-◌, ◌↔◌, length, slice_get};
ghost use Rattle.std.specs.Prelude.{IfSome, IfNone, OnSome, IfOk, OnOk, OnErr, IsSome, IsTrue};
ghost use Rattle.std.specs.Bool.{OnTrue, OnFalse};
ghost use Rattle.std.specs.Option.{option_copied};
ghost use Rattle.map_entry.specs.Action.{IsAction, FitsRow, change_of};

use crate::OutputChange;
use io_caps::{ListOf, NoMemory, TryCopy};
use std::alloc::Global;
use std::marker::Model;

/// What an activation changes, output by output, which contracts see as the list of these changes.
/// The outputs ascend, so no two are alike.
#[derive(Debug, Drop)]
pub struct Action {
    changes: ListOf<OutputChange>,
}

impl Model for Action {
    ghost use Rattle.std.specs.Prelude.{List};
    ghost use Rattle.map_entry.specs.Action.{OutputChangeParts, IsAction};

    ghost Value = { List OutputChangeParts };

    ghost view = { λ action. action.changes };

    ghost invariant = { λ action. IsAction action.changes };
}

impl Action {
    /// The action that changes nothing.
    pub fn new(alloc: Global) -> Action
        ensures { result ≡ [] }
    {
        Action {
            changes: ListOf::new(alloc),
        }
    }

    /// The action of these changes, and `None` exactly where their outputs do not ascend.
    pub fn build(changes: ListOf<OutputChange>) -> Option<Action>
        ensures some { IfSome result (λ made. made ≡ changes) }
        ensures within { OnSome result (IsAction changes) }
        ensures none { IfNone result (IsAction changes → ⊥) }
    {
        if are_in_order(changes.as_slice()) {
            Some(Action { changes })
        } else {
            None
        }
    }

    /// Adds what is changed of an output after the last one. If memory runs out, the action stays
    /// as it was.
    pub fn push(&mut self, change: OutputChange) -> Result<(), NoMemory>
        requires { IfSome (slice_get self.old (length self.old - 1))
            (λ last. last.output < change.output) }
        ensures ok { OnOk result (self.new ≡ self.old ++ change ∷ []) }
        ensures err { OnErr result (self.new ≡ self.old) }
    {
        let ascends = self.ends_below(change.output);
        prove!(ascends);
        self.changes.push(change)?;
        Ok(())
    }

    /// Adds what is changed of an output, or answers `false` exactly where it does not come after
    /// the last one. Then, and if memory runs out, the action stays as it was.
    pub fn try_push(&mut self, change: OutputChange) -> Result<bool, NoMemory>
        ensures added { IfOk result (λ b. OnTrue b (self.new ≡ self.old ++ change ∷ [])) }
        ensures kept { IfOk result (λ b. OnFalse b (self.new ≡ self.old)) }
        ensures within { IfOk result (λ b. OnTrue b (IsAction (self.old ++ change ∷ []))) }
        ensures refused { IfOk result (λ b. OnFalse b (IsAction (self.old ++ change ∷ []) → ⊥)) }
        ensures err { OnErr result (self.new ≡ self.old) }
    {
        if !self.ends_below(change.output) {
            return Ok(false);
        }
        self.push(change)?;
        Ok(true)
    }

    /// Whether the last output that is changed is below this one.
    fn ends_below(&self, output: u8) -> bool
        ensures value { IsTrue result
            ↔ IfSome (slice_get self.now (length self.now - 1)) (λ last. last.output < output) }
        ensures valid { IsAction self.now }
    {
        match self.changes.as_slice().last() {
            Some(last) => last.output < output,
            None => true,
        }
    }

    /// How many outputs are changed.
    pub fn len(&self) -> usize
        ensures value { result ≡ length self.now }
        ensures valid { IsAction self.now }
    {
        self.changes.len()
    }

    /// What is changed of the output at a place, and `None` exactly past the end.
    pub fn get(&self, at: usize) -> Option<&OutputChange>
        ensures value { option_copied result ≡ slice_get self.now at }
        ensures within { IsSome result ↔ (at < length self.now) }
    {
        self.changes.get(at)
    }

    /// What is changed of an output, and `None` exactly where the action does not name it.
    pub fn change_of(&self, output: u8) -> Option<&OutputChange>
        ensures value { option_copied result ≡ change_of self.now output }
        ensures valid { IsAction self.now }
    {
        self.changes
            .as_slice()
            .iter()
            .find(|change| change.output == output)
    }

    /// Whether each channel of an output that is changed is below a given number.
    pub fn fits(&self, output: u8, channels: usize) -> bool
        ensures { IsTrue result ↔ FitsRow self.now output channels }
    {
        match self.change_of(output) {
            Some(change) => change.names_below(channels),
            None => true,
        }
    }

    /// The changes as a slice.
    pub fn as_slice(&self) -> &[OutputChange]
        ensures value { result.now ≡ self.now }
        ensures valid { IsAction self.now }
    {
        self.changes.as_slice()
    }
}

/// Whether the outputs ascend. The channels of each do.
fn are_in_order(changes: &[OutputChange]) -> bool
    ensures { IsTrue result ↔ IsAction changes.now }
{
    for at in 0..changes.len() {
        let change = &changes[at];
        if at > 0 {
            let before = &changes[at - 1];
            if before.output >= change.output {
                return false;
            }
        }
    }
    true
}

impl TryCopy for Action {
    fn copy(&self) -> Result<Action, NoMemory> {
        Ok(Action {
            changes: self.changes.copy()?,
        })
    }
}
