//! One try to answer a request, at what the publisher sees now.

ghost use Rattle.std.specs.Prelude.{◌≡◌, ◌+◌, ◌<◌, ◌≤◌, ◌++◌, ◌∷◌, [], length, true};
ghost use Rattle.std.specs.Prelude.{IfErr, IfOk, OnErr, OnOk};
ghost use Rattle.claim_word.specs.Faces.{IsPublisherOf};
ghost use Rattle.claim_word.specs.States.{HasSeen, IsPublished};
ghost use Rattle.plain_book.specs.Desk.{IsMade, parts, settled, staged};
ghost use Rattle.plain_book.specs.Given.{given_item};
ghost use Rattle.io_caps.specs.declared.limits.TheConstants.{PLACES};
ghost use Rattle.live_book.specs.Books.{IsBook};
ghost use Rattle.live_book.specs.Places.{answer_places, is_aside, spent};
ghost use Rattle.live_book.specs.Tries.{IsMissedBy, IsStill, IsTry, IsUnder};

use crate::places::Places;
use claim_word::{ClaimTable, Publisher, State};
use io_caps::{NoMemory, TryCopy};
use map_entry::Setup;
use plain_book::{
    Acceptance, BookState, Decision, Given, GivenItems, Reply, Request, Stamp, decide, look,
    settle, stage, unstage,
};
use std::alloc::Global;

/// Why a try gave no answer.
#[derive(Clone, Copy, Debug, PartialEq, Eq)]
pub enum Under {
    /// A number was drawn between its load and its exchange. This many claims were made by then.
    Moved { claims: u64 },
    NoMemory,
}

/// Keeps an answer.
fn note(
    given: &mut GivenItems,
    client: u8,
    request: &Request,
    reply: &Reply,
    stamp: Stamp,
) -> Result<(), NoMemory>
    ensures ok { OnOk result (given.new ≡ given.old ++ given_item client request.now reply.now stamp
        ∷ []) }
    ensures err { OnErr result (given.new ≡ given.old) }
{
    let request = request.copy()?;
    let reply = reply.copy()?;
    given.push(Given {
        client,
        request,
        reply,
        stamp,
    })
}

/// Puts a call after the others and publishes its entries by one exchange, unless a number was
/// drawn since the state was seen. Then the call is taken back.
fn publish(
    table: &ClaimTable,
    publisher: &mut Publisher,
    kept: &mut BookState,
    made: Acceptance,
    seen: State,
) -> Result<(), Under>
    requires of { IsPublisherOf table.now publisher.old }
    requires seen { HasSeen publisher.old.view seen }
    requires made { IsMade publisher.old.view.plan.setup seen.claims publisher.old.view.entries
        (parts kept.old) made }
    requires room { length publisher.old.view.entries + length made.entries ≤ PLACES }
    ensures of { IsPublisherOf table.now publisher.new }
    ensures face { publisher.new ≡ record publisher.old { view = publisher.new.view } }
    ensures published { OnOk result (IsPublished publisher.old.view publisher.new.view
        made.entries) }
    ensures kept { OnOk result (parts kept.new ≡ settled (staged (parts kept.old) made.call
        made.item) made.settling) }
    ensures err { OnErr result (parts kept.new ≡ parts kept.old) }
    ensures missed { IfErr result (IsMissedBy publisher.old.view publisher.new.view seen.raw) }
{
    let Acceptance {
        call,
        entries,
        item,
        places: _,
        settling,
    } = made;
    let calls = kept.journal.len();
    let items = kept.pending.len();
    match stage(kept, call, item) {
        Err(_) => Err(Under::NoMemory),
        Ok(()) => match publisher.try_publish(table, &entries, seen) {
            Ok(()) => {
                settle(kept, settling);
                Ok(())
            }
            Err(moved) => {
                unstage(kept, calls, items);
                let claims = publisher.claims_at(moved.raw);
                Err(Under::Moved { claims })
            }
        },
    }
}

/// Answers a request at the claims of one load, or leaves entries, calls and answers as they were.
pub(crate) fn attempt(
    alloc: Global,
    setup: &Setup,
    table: &ClaimTable,
    publisher: &mut Publisher,
    kept: &mut BookState,
    given: &mut GivenItems,
    begun: usize,
    places: &mut Places,
    client: u8,
    request: &Request,
) -> Result<(Reply, Stamp), Under>
    requires of { IsPublisherOf table.now publisher.old }
    requires book { IsBook setup.now publisher.old.view (parts kept.old) given.old begun
        places.old }
    requires aside { is_aside places.old client ≡ true }
    ensures of { IsPublisherOf table.now publisher.new }
    ensures face { publisher.new ≡ record publisher.old { view = publisher.new.view } }
    ensures book { IsBook setup.now publisher.new.view (parts kept.new) given.new begun
        places.new }
    ensures spent { IfOk result (λ r. places.new ≡ spent places.old client (answer_places setup.now
        kept.old.journal client r.1.claims request.now r.0)) }
    ensures kept_places { OnErr result (places.new ≡ places.old) }
    ensures tried { IfOk result (λ r. IsTry setup.now publisher.old.view publisher.new.view
        kept.old.journal kept.new.journal given.old given.new client request.now r.0 r.1) }
    ensures still { OnErr result (IsStill publisher.old.view publisher.new.view kept.old.journal
        kept.new.journal given.old given.new) }
    ensures under { IfErr result (IsUnder publisher.old.view publisher.new.view) }
{
    let seen = publisher.state(table);
    let claims = seen.claims;
    look(kept, setup, claims);
    let calls = kept.journal.len() as u64;
    let stamp = Stamp { calls, claims };
    let count = given.len();
    let entries = publisher.entries();
    let decided = match decide(alloc, setup, entries, kept, claims, client, request) {
        Ok(decided) => decided,
        Err(_) => return Err(Under::NoMemory),
    };
    let Decision { reply, made } = decided;
    match note(given, client, request, &reply, stamp) {
        Ok(()) => {}
        Err(_) => return Err(Under::NoMemory),
    }
    match made {
        None => {
            places.spend(client, 0);
            Ok((reply, stamp))
        }
        Some(made) => {
            let taken = made.places;
            match publish(table, publisher, kept, made, seen) {
                Ok(()) => {
                    places.spend(client, taken);
                    Ok((reply, stamp))
                }
                Err(under) => {
                    given.truncate(count);
                    Err(under)
                }
            }
        }
    }
}
