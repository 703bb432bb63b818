//! The rule, and what each kind of step tells.

use crate::plan::Start;
use crate::view::View;
use atomic_table::{Join, Play, Split, TableRule};
use map_entry::Entries;

/// The rule of a claim table.
pub struct TableLaw;

impl TableRule<Entries, View, Start> for TableLaw {
    ghost use Rattle.claim_rule.specs.Rule.{Kept};
    ghost use Rattle.claim_rule.specs.Views.{opener};

    ghost holds = { Kept };

    ghost first = { opener };
}

/// A worker draws a number: one is added to word 0.
pub struct Draws;

impl Play<Entries, View> for Draws {
    ghost use Rattle.claim_rule.specs.Plays.{draws};

    ghost then = { draws };
}

/// A worker loads a word of an entry.
pub struct Reads;

impl Play<Entries, View> for Reads {
    ghost use Rattle.claim_rule.specs.Plays.{reads};

    ghost then = { reads };
}

/// A worker loads a word of a row for a part of a packet.
pub struct ReadsPiece;

impl Play<Entries, View> for ReadsPiece {
    ghost use Rattle.claim_rule.specs.Plays.{reads_piece};

    ghost then = { reads_piece };
}

/// The publisher or a client loads word 0.
pub struct Sees;

impl Play<Entries, View> for Sees {
    ghost use Rattle.claim_rule.specs.Plays.{sees};

    ghost then = { sees };
}

/// The publisher stores a word after the entries published.
pub struct Writes;

impl Play<Entries, View> for Writes {
    ghost use Rattle.claim_rule.specs.Plays.{writes};

    ghost then = { writes };
}

/// The publisher exchanges word 0, which publishes the entries that the step announces, or finds
/// that a number was drawn.
pub struct Publishes;

impl Play<Entries, View> for Publishes {
    ghost use Rattle.claim_rule.specs.Plays.{publishes};

    ghost then = { publishes };
}

/// The publisher makes a worker's pass.
pub struct Hands;

impl Split<View> for Hands {
    ghost use Rattle.claim_rule.specs.Views.{without_part, worker};

    ghost left = { without_part };

    ghost right = { worker };
}

/// A seat makes a note of what it has seen, or the publisher a client's pass.
pub struct Notes;

impl Split<View> for Notes {
    ghost use Rattle.claim_rule.specs.Views.{note};

    ghost left = { λ v. v };

    ghost right = { note };
}

/// A seat takes a note in.
pub struct NotesIn;

impl Join<View> for NotesIn {
    ghost use Rattle.claim_rule.specs.Views.{noted, spent};

    ghost both = { noted };

    ghost spent = { spent };
}

/// The publisher takes a worker's pass in.
pub struct TakesIn;

impl Join<View> for TakesIn {
    ghost use Rattle.claim_rule.specs.Views.{taken_in, spent};

    ghost both = { taken_in };

    ghost spent = { spent };
}
