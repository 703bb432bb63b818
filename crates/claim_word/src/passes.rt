//! How a publisher makes passes.

ghost use Rattle.std.specs.Prelude.{◌≡◌, ◌≤◌, [], length, replicate, MatchResult, IfOk, None};
ghost use Rattle.std.specs.Prelude.{vec_capacity};
ghost use Rattle.io_caps.specs.declared.limits.TheConstants.{CLIENTS};
ghost use Rattle.claim_rule.specs.Words.{places};
ghost use Rattle.claim_word.specs.Faces.{IsPublisherOf};
ghost use Rattle.claim_word.specs.Passes.{IsClientMade, IsNoSeatIf, IsWorkerMade};

use crate::client::ClientPass;
use crate::memory::Memory;
use crate::publisher::Publisher;
use crate::table::ClaimTable;
use crate::worker::WorkerPass;
use claim_rule::{Hands, Notes};
use io_caps::limits::CLIENTS;
use io_caps::{NoMemory, NoSeat, Or};
use map_entry::Rows;
use std::alloc::Global;

/// What a worker's pass has room in.
struct Room {
    claims: Vec<u64>,
    memory: Memory,
}

impl Room {
    /// The room for as many claims as there are packets, and for what is remembered of the entries.
    fn new(alloc: Global, packets: u64, rows: &Rows) -> Result<Room, NoMemory>
        ensures claims { IfOk result (λ r. (r.claims.items ≡ [])
            × (packets ≤ vec_capacity r.claims)) }
        ensures heads { IfOk result (λ r. (r.memory.heads.items ≡ [])
            × (places ≤ vec_capacity r.memory.heads)) }
        ensures next { IfOk result (λ r. (r.memory.chains.next.items ≡ [])
            × (places ≤ vec_capacity r.memory.chains.next)) }
        ensures tracks { IfOk result
            (λ r. r.memory.chains.tracks.items ≡ replicate (length rows.now) None) }
        ensures rows { IfOk result (λ r. r.memory.rows.items ≡ rows.now) }
        ensures parts { IfOk result (λ r. r.memory.parts.items ≡ rows.now) }
        ensures row_places { IfOk result
            (λ r. r.memory.row_places.items ≡ replicate (length rows.now) None) }
        ensures part_places { IfOk result
            (λ r. r.memory.part_places.items ≡ replicate (length rows.now) None) }
    {
        Ok(Room {
            claims: Vec::with_capacity(alloc, packets as usize)?,
            memory: Memory::new(alloc, rows)?,
        })
    }
}

impl Publisher {
    /// Makes a worker's pass, with the room that it will need. `NoSeat` comes exactly where as many
    /// were made as the table is for; nothing changes then, nor if memory runs out.
    pub fn worker(&mut self, table: &ClaimTable) -> Result<WorkerPass, Or<NoSeat>>
        requires { IsPublisherOf table.now self.old }
        ensures of { IsPublisherOf table.now self.new }
        ensures made { MatchResult result (λ w. IsWorkerMade table.now self.old self.new w)
            (λ e. (self.new ≡ self.old)
            × IsNoSeatIf e (self.old.made ≡ self.old.view.plan.workers)) }
    {
        if self.made >= self.workers {
            return Err(Or::Fault(NoSeat));
        }
        let Room { claims, memory } = Room::new(
            *self.lists.allocator(),
            self.span.packets,
            &self.rows,
        )?;
        let seat = table.table.shared.split_seat::<Hands>(&mut self.seat);
        self.made += 1;
        Ok(WorkerPass {
            seat,
            span: self.span,
            ended: false,
            claims,
            memory,
        })
    }

    /// Makes a client's pass, which is told of all that the publisher has seen. `NoSeat` comes
    /// exactly where as many were made as there are clients; nothing changes then.
    pub fn client(&mut self, table: &ClaimTable) -> Result<ClientPass, NoSeat>
        requires { IsPublisherOf table.now self.old }
        ensures of { IsPublisherOf table.now self.new }
        ensures made { MatchResult result (λ c. IsClientMade table.now self.old self.new c)
            (λ _. (self.new ≡ self.old) × (self.old.clients ≡ CLIENTS)) }
    {
        if self.clients >= CLIENTS {
            return Err(NoSeat);
        }
        let seat = table.table.shared.split_seat::<Notes>(&mut self.seat);
        self.clients += 1;
        Ok(ClientPass {
            seat,
            span: self.span,
        })
    }
}
