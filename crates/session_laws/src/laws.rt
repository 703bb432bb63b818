//! What holds of sessions on running tables: laws on the facts that their calls and jobs leave,
//! each the contract of a function that does nothing. A caller that cites one calls it.

ghost use Rattle.std.specs.Prelude.{◌≤◌, ◌<◌, ◌*◌, [], ℕ, List, length, All, IsPermutation};
ghost use Rattle.std.specs.Prelude.{◌≡◌, min, true};
ghost use Rattle.claim_rule.specs.declared.plan.Plan.{Plan};
ghost use Rattle.claim_rule.specs.declared.view.Sight.{Sight};
ghost use Rattle.claim_rule.specs.Ends.{Ends};
ghost use Rattle.std.specs.List.{Contains};
ghost use Rattle.std.specs.List.Sorted.{IsNonDecreasingBy};
ghost use Rattle.io_caps.specs.declared.device.DeviceParts.{DeviceParts};
ghost use Rattle.map_entry.specs.declared.entry.Entry.{Entry};
ghost use Rattle.map_entry.specs.Setup.{IsSetup, SetupParts};
ghost use Rattle.packet_writer.specs.Flags.{Sights, is_there};
ghost use Rattle.packet_writer.specs.Packet.{Blocks};
ghost use Rattle.book_words.specs.declared.calls.JournalCall.{JournalCall};
ghost use Rattle.book_words.specs.declared.given.Given.{Given};
ghost use Rattle.book_words.specs.declared.history.ClaimItem.{ClaimItem};
ghost use Rattle.book_words.specs.declared.history.History.{History};
ghost use Rattle.book_words.specs.declared.history.ReplyItem.{ReplyItem};
ghost use Rattle.book_words.specs.declared.requests.Request.{Request};
ghost use Rattle.plain_book.specs.Given.{AreGiven};
ghost use Rattle.book_words.specs.History.{AreInOrder, history_of};
ghost use Rattle.claim_rule.specs.declared.view.Draw.{Draw};
ghost use Rattle.input_cells.specs.Agreement.{Agrees};
ghost use Rattle.input_rule.specs.declared.view.HeardSample.{HeardSample};
ghost use Rattle.input_rule.specs.declared.view.Look.{Look};
ghost use Rattle.session_laws.specs.Facts.{Gathering, Lap, HasSession, HaveShapes, IsEnded, IsItem};
ghost use Rattle.session_laws.specs.Facts.{IsLegalBy, IsSession, IsToldBy, IsWorked, Made};
ghost use Rattle.session_laws.specs.Facts.{given_in_all, history_by_given, items_in_laps};
ghost use Rattle.session_laws.specs.Facts.Gathering.{GatherClosed, GatherFree};
ghost use Rattle.interleavings.specs.Legal.{IsClosedHistory, IsFreeHistory};
ghost use Rattle.session_laws.specs.Steps.{AreHistoryParts, GathersClosed, GathersFree};
ghost use Rattle.session_laws.specs.Steps.{IsSeenBefore, KnowsMore};
ghost use Rattle.session_laws.specs.Steps.{all_joined, made_more, made_over, made_still};
ghost use Rattle.session_laws.specs.Steps.{none_made};
ghost use Rattle.interleavings.specs.Told.{AreAllSaid, Ask};

/// What a session on running tables leaves, in one lap or more, is a legal history: the claims of
/// all workers in the order of their numbers, the calls accepted, and the answers in their order.
/// It is legal in closed form where workers gather closed and each tick was fed, and in free form
/// where they gather free and what was fed is the inputs'.
pub fn sessions_are_legal()
    ensures closed { (s : SetupParts) (blocks : Blocks) (m : ℕ) (asks : ℕ → List Request)
        (laps : List Lap) (late : List Given) (last : List JournalCall) (claims : List ClaimItem)
        → IsSetup s → IsSession s GatherClosed blocks m asks laps late last
        → IsPermutation (items_in_laps laps) claims → IsNonDecreasingBy (λ c. c.k) claims
        → IsClosedHistory s m blocks asks (history_by_given claims (given_in_all laps late) last) }
    ensures free { (s : SetupParts) (seen : Sights) (blocks : Blocks) (m : ℕ)
        (asks : ℕ → List Request) (laps : List Lap) (late : List Given) (last : List JournalCall)
        (claims : List ClaimItem) → IsSetup s
        → IsSession s (GatherFree seen) blocks m asks laps late last
        → IsPermutation (items_in_laps laps) claims → IsNonDecreasingBy (λ c. c.k) claims
        → IsFreeHistory s m blocks seen asks
        (history_by_given claims (given_in_all laps late) last) }
{}

/// The same to asks of any kind, of which some ask the book: with what is said to each client for
/// the session's answers, in the order of a history.
pub fn told_sessions_are_legal()
    ensures { (s : SetupParts) (g : Gathering) (blocks : Blocks) (m : ℕ)
        (requests : ℕ → List Request) (asks : ℕ → List Ask) (laps : List Lap) (late : List Given)
        (last : List JournalCall) (claims : List ClaimItem) (items : List ReplyItem)
        → IsSetup s → IsSession s g blocks m requests laps late last
        → IsPermutation (items_in_laps laps) claims → IsNonDecreasingBy (λ c. c.k) claims
        → AreAllSaid asks (given_in_all laps late) items → AreInOrder items
        → IsToldBy s g m blocks asks (history_of claims last items) }
{}

/// The same by parts, one of each lap and one of the answers to what was left, each in order for
/// itself: joined they are legal.
pub fn joined_parts_are_legal()
    ensures { (s : SetupParts) (g : Gathering) (blocks : Blocks) (m : ℕ)
        (asks : ℕ → List Request) (laps : List Lap) (late : List Given) (last : List JournalCall)
        (parts : List History) → IsSetup s
        → IsSession s g blocks m asks laps late last → AreHistoryParts [] laps late last parts
        → IsLegalBy s g m blocks asks (all_joined parts) }
{}

/// A gathered packet is the claim of its draw, over any blocks that agree with what its worker
/// has seen; and a worker's job goes on by its draws, from nothing made: one more with its claim,
/// one past the packets, or looks alone.
pub fn packets_are_claims()
    ensures closed { (s : SetupParts) (from : ℕ) (d : Draw) (looks : List Look)
        (heard : List HeardSample) (item : ClaimItem) (blocks : Blocks)
        → GathersClosed s from d looks heard item → Agrees s.device looks heard blocks
        → IsItem s GatherClosed blocks from d item }
    ensures free { (s : SetupParts) (seen : Sights) (from : ℕ) (d : Draw)
        (before looks : List Look) (heard : List HeardSample) (item : ClaimItem) (blocks : Blocks)
        → GathersFree s from d before looks heard item → IsSeenBefore s seen before item.k
        → Agrees s.device looks heard blocks → IsItem s (GatherFree seen) blocks from d item }
    ensures known { (d : DeviceParts) (looks more : List Look) (heard further : List HeardSample)
        → All (Contains more) looks → All (Contains further) heard
        → KnowsMore d looks heard more further }
    ensures none { (s : SetupParts) (g : Gathering) (from packets : ℕ)
        → IsWorked s g from packets none_made }
    ensures more { (s : SetupParts) (g : Gathering) (from packets : ℕ) (w : Made) (d : Draw)
        (looks : List Look) (heard : List HeardSample) (item : ClaimItem)
        → IsWorked s g from packets w
        → d.number < packets → KnowsMore s.device w.looks w.heard looks heard
        → ((blocks : Blocks) → Agrees s.device looks heard blocks → IsItem s g blocks from d item)
        → IsWorked s g from packets (made_more w d looks heard item) }
    ensures over { (s : SetupParts) (g : Gathering) (from packets : ℕ) (w : Made) (d : Draw)
        → IsWorked s g from packets w → packets ≤ d.number
        → IsWorked s g from packets (made_over w d) }
    ensures still { (s : SetupParts) (g : Gathering) (from packets : ℕ) (w : Made)
        (looks : List Look) (heard : List HeardSample) → IsWorked s g from packets w
        → KnowsMore s.device w.looks w.heard looks heard
        → IsWorked s g from packets (made_still w looks heard) }
{}

/// The end of a table of claims tells what a lap asks of its draws: all packets are claimed where
/// all were drawn, and as many as were drawn where the table ends early.
pub fn tables_end()
    ensures whole { (plan : Plan) (list : List Entry) (draws : List Draw) (seen : List Sight)
        → Ends plan list draws seen → plan.packets ≤ length draws
        → IsEnded plan plan.packets list draws }
    ensures part { (plan : Plan) (list : List Entry) (draws : List Draw) (seen : List Sight)
        → Ends plan list draws seen → IsEnded plan (min (length draws) plan.packets) list draws }
{}

/// For any answers of a book, and over any blocks of their inputs' shapes, there is a session that
/// leaves just these, in closed form, and in free form by whatever was seen of the blocks that are
/// there: what is said of sessions is not said of nothing.
pub fn sessions_can_be()
    ensures closed { (s : SetupParts) (blocks : Blocks) (ticks : ℕ) (given : List Given)
        (journal : List JournalCall) → HaveShapes s.device blocks
        → AreGiven s [] 0 given journal (ticks * length s.device.outputs)
        → HasSession s GatherClosed blocks (ticks * length s.device.outputs) given journal }
    ensures free { (s : SetupParts) (seen : Sights) (blocks : Blocks) (ticks : ℕ)
        (given : List Given) (journal : List JournalCall) → HaveShapes s.device blocks
        → ((k input : ℕ) → seen k input ≡ true → is_there s blocks k input ≡ true)
        → AreGiven s [] 0 given journal (ticks * length s.device.outputs)
        → HasSession s (GatherFree seen) blocks (ticks * length s.device.outputs) given journal }
{}
