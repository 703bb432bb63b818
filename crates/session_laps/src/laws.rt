//! What laps come to in a session: laws, each the contract of a function that does nothing. A caller
//! that cites one calls it.

ghost use Rattle.std.specs.Prelude.{◌≡◌, ◌+◌, ◌<◌, ◌≤◌, [], ◌++◌, ◌∷◌, ℕ, List, Bool, true, is_some};
ghost use Rattle.std.specs.Prelude.{length};
ghost use Rattle.io_caps.specs.declared.limits.TheConstants.{CLIENTS};
ghost use Rattle.live_book.specs.Places.{may_reserve};
ghost use Rattle.map_entry.specs.Setup.{IsSetup, SetupParts};
ghost use Rattle.std.specs.List.{All};
ghost use Rattle.input_cells.specs.Agreement.{Agrees, blocks_set};
ghost use Rattle.input_cells.specs.Faces.{heard_of, looks_of};
ghost use Rattle.session_laws.specs.Facts.{Gathering, IsFed, IsLap, Lap as ToldLap, first_claim};
ghost use Rattle.session_laws.specs.Facts.{IsSession, items_of};
ghost use Rattle.session_laws.specs.Steps.{AreHistoryParts, IsHistoryPart};
ghost use Rattle.interleavings.specs.Told.{requests_of};
ghost use Rattle.packet_writer.specs.Packet.{Blocks};
ghost use Rattle.book_words.specs.declared.calls.JournalCall.{JournalCall};
ghost use Rattle.book_words.specs.declared.given.Given.{Given};
ghost use Rattle.book_words.specs.declared.history.ClaimItem.{ClaimItem};
ghost use Rattle.book_words.specs.declared.history.History.{History};
ghost use Rattle.book_words.specs.declared.requests.Request.{Request};
ghost use Rattle.plain_book.specs.Given.{AreGiven};
ghost use Rattle.session_laps.specs.Goes.{ArePartsSo, HasLaps};
ghost use Rattle.session_laps.specs.Laps.{IsAt, IsBack, IsEndedLap};
ghost use Rattle.session_laps.specs.Sessions.{IsNewLap, SessionFace};
ghost use Rattle.session_laps.specs.Told.{AreAllMade, IsToldLap};
ghost use Rattle.session_laps.specs.declared.lap.Lap.{Lap};

/// A lap that has ended is one of a session, whatever the way to gather and the blocks, if each
/// worker's packets have their claims and what was fed is the inputs'. This holds also if fewer
/// packets were claimed than the lap has, and by any blocks with which all workers agree.
pub fn laps_are_told()
    ensures fed { (s : SetupParts) (g : Gathering) (blocks : Blocks) (before : ℕ) (lap : Lap)
        (items : List (List ClaimItem)) → IsAt s before lap → IsBack lap → IsEndedLap lap
        → AreAllMade g lap.workers items
        → IsFed s g (s.device.base + before) lap.ticks (blocks_set lap.feeds) blocks
        → IsToldLap s g blocks before lap items }
    ensures by { (s : SetupParts) (g : Gathering) (blocks set : Blocks) (before : ℕ) (lap : Lap)
        (items : List (List ClaimItem)) → IsAt s before lap → IsBack lap → IsEndedLap lap
        → All (λ w. Agrees s.device (looks_of w.reads) (heard_of w.reads) set) lap.workers
        → AreAllMade g lap.workers items
        → IsFed s g (s.device.base + before) lap.ticks set blocks
        → IsToldLap s g blocks before lap items }
{}

/// A new lap has places for any client's next request. If the device has at most 29 outputs, it has
/// them also while places are set aside for any of the others.
pub fn new_laps_have_places()
    ensures one { (s : SessionFace) (lap : Lap) (client : ℕ) → IsSetup s.setup
        → is_some s.rest ≡ true → IsNewLap s lap → may_reserve lap.book.places client ≡ true }
    ensures all { (s : SessionFace) (lap : Lap) (aside : List Bool) (client : ℕ)
        → length s.setup.device.outputs ≤ 29 → is_some s.rest ≡ true → IsNewLap s lap
        → length aside ≡ CLIENTS → client < CLIENTS
        → may_reserve (record lap.book.places { aside = aside }) client ≡ true }
{}

/// A session of no lap has made nothing; and a lap more goes on from the laps so far.
pub fn laps_go_on()
    ensures none { (s : SetupParts) (g : Gathering) (blocks : Blocks)
        → HasLaps s g blocks [] 0 [] [] [] }
    ensures more { (s : SetupParts) (g : Gathering) (blocks : Blocks) (laps : List ToldLap)
        (claims : ℕ) (journal : List JournalCall) (given : List Given) (items : List ClaimItem)
        (l : ToldLap) → HasLaps s g blocks laps claims journal given items
        → claims ≡ first_claim s l → IsLap s g blocks l
        → AreGiven s journal claims l.given l.journal (claims + l.made)
        → HasLaps s g blocks (laps ++ l ∷ []) (claims + l.made) l.journal (given ++ l.given)
        (items ++ items_of l.workers) }
{}

/// Laps, with the answers to what was left after the last one, are a session.
pub fn laps_make_sessions()
    ensures { (s : SetupParts) (g : Gathering) (blocks : Blocks) (laps : List ToldLap)
        (claims : ℕ) (journal last : List JournalCall) (given late : List Given)
        (items : List ClaimItem) (asks left : ℕ → List Request)
        → HasLaps s g blocks laps claims journal given items
        → AreGiven s journal claims late last claims
        → ((client : ℕ) → requests_of given client ++ left client ≡ asks client)
        → ((client : ℕ) → requests_of late client ≡ left client)
        → IsSession s g blocks claims asks laps late last }
{}

/// The part of one more lap goes on from those of the laps so far; and with the part of the answers
/// to what was left they are all parts of the history.
pub fn parts_go_on()
    ensures more { (s : SetupParts) (g : Gathering) (blocks : Blocks) (laps : List ToldLap)
        (claims : ℕ) (journal : List JournalCall) (given : List Given) (items : List ClaimItem)
        (parts : List History) (l : ToldLap) (part : History)
        → HasLaps s g blocks laps claims journal given items → ArePartsSo [] laps parts
        → IsHistoryPart journal l.journal (items_of l.workers) l.given part
        → ArePartsSo [] (laps ++ l ∷ []) (parts ++ part ∷ []) }
    ensures all { (s : SetupParts) (g : Gathering) (blocks : Blocks) (laps : List ToldLap)
        (claims : ℕ) (journal last : List JournalCall) (given late : List Given)
        (items : List ClaimItem) (parts : List History) (part : History)
        → HasLaps s g blocks laps claims journal given items → ArePartsSo [] laps parts
        → IsHistoryPart journal last [] late part
        → AreHistoryParts [] laps late last (parts ++ part ∷ []) }
{}
