//! What definitions of this crate mean: laws, the contracts of functions that do nothing.

ghost use Rattle.http_wire.specs.Head.{RefusesDoubtful, TellsApart};
ghost use Rattle.http_wire.specs.Stream.{AnswersAreOne};

/// A head is refused only where none within the limits can come. Once a line has come, 400 and 431
/// exclude each other, but where heads can come that have more than 64 fields, and no others.
pub fn refusals_are_due()
    ensures doubtful { RefusesDoubtful }
    ensures apart { TellsApart }
{}

/// All that is to be answered to a client's bytes is one list of answers, unless bytes that it
/// comes to can begin no head within the limits.
pub fn answers_are_one()
    ensures { AnswersAreOne }
{}
