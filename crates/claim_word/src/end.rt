//! How a table ends.

ghost use Rattle.std.specs.Prelude.{◌≡◌, ◌≤◌, ◌+◌, ℕ, true, ◌++◌, length};
ghost use Rattle.std.specs.Prelude.{map, vec_len};
ghost use Rattle.std.specs.Prelude.{vec_capacity};
ghost use Rattle.std.specs.List.{All, list_any};
ghost use Rattle.claim_word.specs.Faces.{IsPassOf, IsClientOf, IsPublisherOf};
ghost use Rattle.claim_word.specs.Claims.{HasOver};
ghost use Rattle.claim_rule.specs.Ends.{Ends};
ghost use Rattle.claim_word.specs.Endings.{all_seen, claims_by, draws_in, once_claimed};
ghost use Rattle.claim_word.specs.Endings.{times_claimed, with_clients, with_workers};

use crate::client::ClientPass;
use crate::publisher::Publisher;
use crate::table::ClaimTable;
use crate::worker::WorkerPass;
use crate::{ClaimLists, ClientPasses, WorkerPasses};
use atomic_table::Seat;
use claim_rule::{NotesIn, TakesIn, View};
use io_caps::Numbers;
use map_entry::Entries;

/// What is left of a table: its entries, and each worker's claims.
#[derive(Debug, Drop)]
pub struct Ended {
    pub entries: Entries,
    pub claims: ClaimLists,
}

impl ClaimTable {
    /// Ends the table, where all passes are back. The claims stand in the order of the workers'
    /// passes. No memory is taken.
    pub fn end(self, publisher: Publisher, workers: WorkerPasses, clients: ClientPasses) -> Ended
        requires publisher { IsPublisherOf self publisher }
        requires workers { All (IsPassOf self) workers × (length workers ≡ publisher.made) }
        requires clients { All (IsClientOf self) clients × (length clients ≡ publisher.clients) }
        ensures entries { result.entries ≡ publisher.view.entries }
        ensures claims { result.claims ≡ map (claims_by self.plan) workers }
        ensures ends { Ends self.plan publisher.view.entries (draws_in workers)
            (all_seen publisher clients) }
        ensures numbers { (k : ℕ)
            → times_claimed k result.claims
            ≡ once_claimed self.plan (length (draws_in workers)) k }
        ensures full { list_any (λ w. w.ended) workers ≡ true
            → self.plan.packets ≤ length (draws_in workers) }
    {
        let Publisher {
            mut seat,
            span: _,
            workers: _,
            made: _,
            clients: _,
            shelf,
            rows: _,
            mut lists,
        } = publisher;
        hear_all(&self, &mut seat, clients.into_vec());
        take_all(&self, &mut seat, workers.into_vec(), &mut lists);
        let ClaimTable { table } = self;
        table.close_with(seat).free();
        Ended {
            entries: shelf.into_entries(),
            claims: ClaimLists::from_vec(lists),
        }
    }
}

/// Takes in what clients have seen.
fn hear_all(table: &ClaimTable, seat: &mut Seat<Entries, View>, clients: Vec<ClientPass>)
    requires table { seat.old.table_id ≡ table.now.id }
    requires clients { All (IsClientOf table.now) clients.items }
    ensures seat { (seat.new.table_id ≡ seat.old.table_id) × (seat.new.id ≡ seat.old.id)
        × (seat.new.me.1 ≡ seat.old.me.1) }
    ensures view { seat.new.me.0 ≡ with_clients seat.old.me.0 clients.items }
{
    for pass in clients {
        let ClientPass {
            seat: other,
            span: _,
        } = pass;
        table.table.shared.join_seat::<NotesIn>(seat, other);
    }
}

/// Takes in the workers' passes, and lists their claims.
fn take_all(
    table: &ClaimTable,
    seat: &mut Seat<Entries, View>,
    workers: Vec<WorkerPass>,
    lists: &mut Vec<Numbers>,
)
    requires table { seat.old.table_id ≡ table.now.id }
    requires workers { All (IsPassOf table.now) workers.items }
    requires room { vec_len lists.old + length workers.items ≤ vec_capacity lists.old }
    ensures seat { (seat.new.table_id ≡ seat.old.table_id) × (seat.new.id ≡ seat.old.id)
        × (seat.new.me.1 ≡ seat.old.me.1) }
    ensures view { seat.new.me.0 ≡ with_workers seat.old.me.0 workers.items }
    ensures lists { lists.new.items ≡ lists.old.items ++ map (claims_by table.now.plan)
        workers.items }
    ensures over { list_any (λ w. w.ended) workers.items ≡ true
        → HasOver table.now.plan.packets (draws_in workers.items) }
{
    for pass in workers {
        let WorkerPass {
            seat: other,
            span: _,
            ended: _,
            claims,
            memory: _,
        } = pass;
        table.table.shared.join_seat::<TakesIn>(seat, other);
        lists.push_reserved(Numbers::from_vec(claims));
    }
}
