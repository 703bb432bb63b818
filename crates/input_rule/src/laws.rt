//! Functions that carry laws: their clauses are what they are for.

ghost use Rattle.input_rule.specs.StepsKeep.{Hears, Learns, Looks, MakesReader, Sees, Starts};
ghost use Rattle.input_rule.specs.StepsKeep.{StoresClosing, StoresPresence, StoresSample, TakesIn};
ghost use Rattle.input_rule.specs.WordsStay.{BlocksSettle, BlocksStay, GoOn, KeepsHeard};
ghost use Rattle.input_rule.specs.WordsStay.{KeepsLooks, StartsEmpty};

/// Later words go on to later ones, and what was seen or read stays so.
#[tactic(auto, using(crate::proofs::Steps::words_stay))]
pub fn words_stay()
    ensures go_on { GoOn }
    ensures looks { KeepsLooks }
    ensures heard { KeepsHeard }
{}

/// There is no block at the start. A block stays, and what is at a closed tick stays so.
pub fn blocks_stay()
    ensures start { StartsEmpty }
    ensures stay { BlocksStay }
    ensures settle { BlocksSettle }
{}

/// The rule holds at the start, and the feeder's stores keep it.
#[tactic(auto, using(crate::proofs::Steps::opens))]
pub fn stores_keep()
    ensures start { Starts }
    ensures sample { StoresSample }
    ensures presence { StoresPresence }
    ensures closing { StoresClosing }
{}

/// A reader's loads keep the rule.
pub fn loads_keep()
    ensures closing { Sees }
    ensures look { Looks }
    ensures sample { Hears }
{}

/// A reader's pass is made, and taken in at the end, by steps that keep the rule.
#[tactic(auto, using(crate::proofs::Steps::passes_keep))]
pub fn passes_keep()
    ensures reader { MakesReader }
    ensures taken_in { TakesIn }
    ensures learns { Learns }
{}
