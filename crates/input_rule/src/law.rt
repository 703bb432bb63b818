//! The rule, and the steps that keep it.

use crate::view::{Shape, View};
use atomic_table::{Join, Play, Split, TableRule};

/// The rule of one input's table. The first seat is the feeder's.
pub struct Law;

impl TableRule<u8, View, Shape> for Law {
    ghost use Rattle.input_rule.specs.Rule.{Keeps};
    ghost use Rattle.input_rule.specs.Views.{feeder};
    ghost use Rattle.input_rule.specs.Words.{first_words};

    ghost holds = { λ shape state. Keeps shape state };

    ghost first = { λ shape. feeder shape (first_words shape) };
}

/// The feeder stores a word.
pub struct Writes;

impl Play<u8, View> for Writes {
    ghost use Rattle.input_rule.specs.Plays.{writes};

    ghost then = { writes };
}

/// A reader loads the closing number.
pub struct SeesClosing;

impl Play<u8, View> for SeesClosing {
    ghost use Rattle.input_rule.specs.Plays.{sees};

    ghost then = { sees };
}

/// A reader loads a presence word.
pub struct Looks;

impl Play<u8, View> for Looks {
    ghost use Rattle.input_rule.specs.Plays.{looks};

    ghost then = { looks };
}

/// A reader loads a sample of a block that it has seen.
pub struct Hears;

impl Play<u8, View> for Hears {
    ghost use Rattle.input_rule.specs.Plays.{hears};

    ghost then = { hears };
}

/// The feeder learns that what it took in is true of its words.
pub struct Learns;

impl Play<u8, View> for Learns {
    ghost use Rattle.input_rule.specs.Plays.{learns};

    ghost then = { learns };
}

/// A reader's pass is made.
pub struct Hands;

impl Split<View> for Hands {
    ghost use Rattle.input_rule.specs.Views.{reader};

    ghost left = { λ v. v };

    ghost right = { reader };
}

/// The feeder takes in what a reader knows.
pub struct TakesIn;

impl Join<View> for TakesIn {
    ghost use Rattle.input_rule.specs.Views.{taken_in, spent};

    ghost both = { taken_in };

    ghost spent = { spent };
}
