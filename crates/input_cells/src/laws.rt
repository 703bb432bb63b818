//! Functions that carry laws: their clauses are what they are for.

ghost use Rattle.input_cells.specs.PassesGrow.{AgreesBefore, GrowsOn, HasItsTicks, HearingGrows};
ghost use Rattle.input_cells.specs.PassesGrow.{KeepsMissed, KeepsSeen, OwnLooksStay, StaysOfTable};
ghost use Rattle.input_cells.specs.PassesGrow.{UnreadHasOwn};

/// What a pass knows only grows: what it has seen stays seen, and to know more leaves fewer blocks
/// that agree. The looks that it keeps of an input are looks at that input. To read samples is to
/// know more, and no look.
pub fn passes_grow()
    ensures on { GrowsOn }
    ensures table { StaysOfTable }
    ensures seen { KeepsSeen }
    ensures missed { KeepsMissed }
    ensures agrees { AgreesBefore }
    ensures own { OwnLooksStay }
    ensures unread { UnreadHasOwn }
    ensures hears { HearingGrows }
{}

/// A table has each of its ticks at each input.
pub fn tables_have_ticks()
    ensures { HasItsTicks }
{}
