//! Laws of the rule, each the contract of a function that does nothing.

ghost use Rattle.claim_rule.specs.StepsKeep.{OpeningHolds, DrawKeeps, ReadKeeps, PieceKeeps};
ghost use Rattle.claim_rule.specs.StepsKeep.{LookKeeps};
ghost use Rattle.claim_rule.specs.StepsKeep.{StoreKeeps, ExchangeKeeps, PassKeeps, NoteKeeps};
ghost use Rattle.claim_rule.specs.StepsKeep.{NoteInKeeps, PassInKeeps};
ghost use Rattle.claim_rule.specs.Ends.{EndKnown, RowsStay};

/// A table may begin with entries that its words spell.
pub fn opening_holds()
    ensures { OpeningHolds }
{}

/// A draw keeps the rule. It tells the number drawn and the entries published.
pub fn draw_keeps()
    ensures { DrawKeeps }
{}

/// A load of an entry's word keeps the rule. It tells that it is the word of an entry that the seat
/// knows.
pub fn read_keeps()
    ensures { ReadKeeps }
{}

/// So does a load for a part of a packet.
pub fn piece_keeps()
    ensures { PieceKeeps }
{}

/// A load of word 0 keeps the rule. It tells a state that is not below what the seat saw before.
pub fn look_keeps()
    ensures { LookKeeps }
{}

/// A store of the publisher, after the entries published, keeps the rule.
pub fn store_keeps()
    ensures { StoreKeeps }
{}

/// An exchange of the publisher keeps the rule. It publishes, or tells the state that it found.
pub fn exchange_keeps()
    ensures { ExchangeKeeps }
{}

/// The making of a worker's pass keeps the rule.
pub fn pass_keeps()
    ensures { PassKeeps }
{}

/// The making of a note, or of a client's pass, keeps the rule.
pub fn note_keeps()
    ensures { NoteKeeps }
{}

/// The taking in of a note keeps the rule.
pub fn note_in_keeps()
    ensures { NoteInKeeps }
{}

/// The taking in of a worker's pass keeps the rule.
pub fn pass_in_keeps()
    ensures { PassInKeeps }
{}

/// What is known once every pass was taken in.
pub fn end_known()
    ensures { EndKnown }
{}

/// What a draw's entries select for its tick is what all entries select, for good.
pub fn rows_stay()
    ensures { RowsStay }
{}
