//! Room for the passes of workers, which are taken apart at the end.

ghost use Rattle.std.specs.Prelude.{◌≡◌, ◌≤◌, [], IfOk, length, vec_capacity};
ghost use Rattle.session_laps.specs.Laps.{passes_in, reads_in};

use crate::lap::Workers;
use claim_word::{WorkerPass, WorkerPasses};
use input_cells::{ReadPass, ReadPasses};
use io_caps::NoMemory;
use packet_worker::Worker;
use std::alloc::Global;
use std::marker::Model;

/// Room for the passes of a number of workers. Contracts see this number.
#[derive(Drop)]
pub struct Room {
    most: u8,
    passes: Vec<WorkerPass>,
    reads: Vec<ReadPass>,
}

impl Model for Room {
    ghost use Rattle.std.specs.Prelude.{◌≡◌, ◌≤◌, ℕ, [], vec_capacity};

    ghost Value = { ℕ };

    ghost view = { λ r. r.most };

    ghost invariant = { λ r. (r.passes.items ≡ []) × (r.reads.items ≡ [])
        × (r.most ≤ vec_capacity r.passes) × (r.most ≤ vec_capacity r.reads) };
}

/// Takes the workers' passes apart.
fn put_apart(passes: &mut Vec<WorkerPass>, reads: &mut Vec<ReadPass>, workers: Vec<Worker>)
    requires none { (passes.old.items ≡ []) × (reads.old.items ≡ []) }
    requires room { length workers.items ≤ vec_capacity passes.old }
    requires room_reads { length workers.items ≤ vec_capacity reads.old }
    ensures passes { passes.new.items ≡ passes_in workers.items }
    ensures reads { reads.new.items ≡ reads_in workers.items }
{
    for worker in workers {
        let (pass, read) = worker.into_passes();
        passes.push_reserved(pass);
        reads.push_reserved(read);
    }
}

impl Room {
    /// Room for the passes of the given number of workers.
    pub(crate) fn new(alloc: Global, most: u8) -> Result<Room, NoMemory>
        ensures { IfOk result (λ room. room ≡ most) }
    {
        Ok(Room {
            most,
            passes: Vec::with_capacity(alloc, usize::from(most))?,
            reads: Vec::with_capacity(alloc, usize::from(most))?,
        })
    }

    /// Takes the workers' passes apart, which takes no memory.
    pub(crate) fn apart(self, workers: Workers) -> (WorkerPasses, ReadPasses)
        requires { length workers ≤ self }
        ensures passes { result.0 ≡ passes_in workers }
        ensures reads { result.1 ≡ reads_in workers }
    {
        let Room {
            most: _,
            mut passes,
            mut reads,
        } = self;
        put_apart(&mut passes, &mut reads, workers.into_vec());
        (WorkerPasses::from_vec(passes), ReadPasses::from_vec(reads))
    }
}
