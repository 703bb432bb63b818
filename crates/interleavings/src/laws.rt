//! What holds of every list of events: laws, each the contract of a function that does nothing. A
//! caller that cites one calls it.

ghost use Rattle.std.specs.Prelude.{◌≡◌, true, [], ℕ, List};
ghost use Rattle.map_entry.specs.Setup.{SetupParts};
ghost use Rattle.packet_writer.specs.Flags.{Sights, is_there};
ghost use Rattle.packet_writer.specs.Packet.{Blocks};
ghost use Rattle.book_words.specs.declared.calls.JournalCall.{JournalCall};
ghost use Rattle.book_words.specs.declared.given.Given.{Given};
ghost use Rattle.book_words.specs.declared.history.History.{History};
ghost use Rattle.book_words.specs.declared.history.ReplyItem.{ReplyItem};
ghost use Rattle.book_words.specs.declared.requests.Request.{Request};
ghost use Rattle.plain_book.specs.Given.{AreGiven, replies_of};
ghost use Rattle.book_words.specs.History.{AreInOrder};
ghost use Rattle.interleavings.specs.Events.{IsRun, block_in, claims_in};
ghost use Rattle.interleavings.specs.Legal.{AreCallsReplied, AreReplies, IsClosedHistory};
ghost use Rattle.interleavings.specs.Legal.{IsEachCallOnce, IsFreeHistory, StandsThere};
ghost use Rattle.interleavings.specs.Legal.{asks_itself, says_reply};
ghost use Rattle.interleavings.specs.Run.{asks_in, has_seen, history_in};
ghost use Rattle.interleavings.specs.Told.{AreAllSaid, Ask, requests_of};
ghost use Rattle.interleavings.specs.declared.events.AnsweredEvent.{AnsweredEvent};

/// Whatever happens, in whatever order, the history of what was answered is legal.
pub fn every_run_is_legal()
    ensures { (s : SetupParts) (ticks : ℕ) (events : List AnsweredEvent) → IsRun s ticks events
        → IsFreeHistory s (claims_in events) (block_in events) (has_seen s events)
        (asks_in events) (history_in s events) }
{}

/// A history that is legal in closed form is legal in free form, whatever of the blocks was seen.
pub fn closed_histories_are_free()
    ensures { (s : SetupParts) (claims : ℕ) (blocks : Blocks) (seen : Sights)
        (asks : ℕ → List Request) (h : History)
        → ((k input : ℕ) → seen k input ≡ true → is_there s blocks k input ≡ true)
        → IsClosedHistory s claims blocks asks h → IsFreeHistory s claims blocks seen asks h }
{}

/// What a book answers from its first call on makes legal replies, of which each call was accepted
/// by one: to plain requests the answers in order, and to asks of any kind what is said for them to
/// each client, in the order of a history.
pub fn answers_make_legal_replies()
    ensures plain { (s : SetupParts) (journal : List JournalCall) (claims : ℕ)
        (given : List Given) → AreGiven s [] 0 given journal claims
        → AreReplies s asks_itself says_reply StandsThere journal claims
        (requests_of given) (replies_of given) }
    ensures plain_calls { (s : SetupParts) (journal : List JournalCall) (claims : ℕ)
        (given : List Given) → AreGiven s [] 0 given journal claims
        → AreCallsReplied s asks_itself journal (requests_of given) (replies_of given) }
    ensures told { (s : SetupParts) (journal : List JournalCall) (claims : ℕ)
        (asks : ℕ → List Ask) (given : List Given) (items : List ReplyItem)
        → AreGiven s [] 0 given journal claims → AreAllSaid asks given items → AreInOrder items
        → AreReplies s (λ ask. ask.asked) (λ ask. ask.says) StandsThere journal claims asks items }
    ensures told_calls { (s : SetupParts) (journal : List JournalCall) (claims : ℕ)
        (asks : ℕ → List Ask) (given : List Given) (items : List ReplyItem)
        → AreGiven s [] 0 given journal claims → AreAllSaid asks given items
        → AreCallsReplied s (λ ask. ask.asked) journal asks items }
{}

/// Of legal replies just one accepted each call, and it is one to the call's client: a client goes
/// on after the call that it made.
pub fn calls_are_accepted_once()
    ensures { (s : SetupParts) (journal : List JournalCall) (claims : ℕ) (asks : ℕ → List Ask)
        (items : List ReplyItem)
        → AreReplies s (λ ask. ask.asked) (λ ask. ask.says) StandsThere journal claims asks items
        → AreCallsReplied s (λ ask. ask.asked) journal asks items
        → IsEachCallOnce s (λ ask. ask.asked) journal asks items }
{}
