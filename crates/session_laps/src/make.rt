//! How a lap is made.

ghost use Rattle.std.specs.Prelude.{◌≡◌, ◌+◌, ◌*◌, ◌^◌, ◌<◌, ◌≤◌, [], IfOk, false, length, map, replicate};
ghost use Rattle.std.specs.List.{All};
ghost use Rattle.io_caps.specs.declared.limits.TheConstants.{CLIENTS, LAP_TICKS, MOST_WORKERS};
ghost use Rattle.claim_word.specs.Faces.{IsClientOf, IsPassOf, IsPublisherOf};
ghost use Rattle.input_cells.specs.Faces.{unfed};
ghost use Rattle.map_entry.specs.declared.claims.TheConstants.{CLAIMS_LIMIT};
ghost use Rattle.session_laps.specs.Making.{AreMade, KeepsPublisher};
ghost use Rattle.session_laps.specs.Fresh.{IsFresh};

use crate::lap::Workers;
use crate::room::Room;
use claim_word::{ClaimTable, ClientPasses, Publisher};
use input_cells::{FeedPasses, Feeds, InputTable};
use io_caps::limits::CLIENTS;
use io_caps::{NoMemory, Or};
use live_book::Rest;
use map_entry::Setup;
use packet_worker::Worker;
use std::alloc::Global;

/// The tables of a lap, with all their passes.
#[derive(Drop)]
pub(crate) struct Tables {
    pub table: ClaimTable,
    pub publisher: Publisher,
    pub inputs: InputTable,
    pub workers: Workers,
    pub feeds: FeedPasses,
    pub clients: ClientPasses,
    pub room: Room,
}

/// A worker with new passes of both tables.
fn make_worker(
    alloc: Global,
    setup: &Setup,
    table: &ClaimTable,
    publisher: &mut Publisher,
    inputs: &InputTable,
    feeds: &mut Feeds,
) -> Result<Worker, NoMemory>
    requires of { IsPublisherOf table.now publisher.old }
    requires of_inputs { feeds.old.table ≡ inputs.now }
    requires setup { table.now.plan.setup ≡ setup.now }
    requires room { publisher.old.made < table.now.plan.workers }
    requires seats { feeds.old.made < feeds.old.most }
    ensures of { IsPublisherOf table.now publisher.new }
    ensures worker { IfOk result (IsFresh setup.now inputs.now) }
    ensures of_worker { IfOk result (λ w. IsPassOf table.now w.pass) }
    ensures publisher { IfOk result (λ w. KeepsPublisher publisher.old publisher.new
        (publisher.old.made + 1) publisher.old.clients) }
    ensures feeds { IfOk result (λ w. feeds.new
        ≡ record feeds.old { made = feeds.old.made + 1 }) }
{
    let pass = match publisher.worker(table) {
        Ok(pass) => pass,
        Err(Or::NoMemory) => return Err(NoMemory),
        Err(Or::Fault(_)) => unreachable!(),
    };
    match feeds.reader(inputs) {
        Ok(reads) => Worker::new(alloc, setup, pass, reads),
        Err(_) => unreachable!(),
    }
}

/// The given number of workers.
pub(crate) fn make_workers(
    alloc: Global,
    setup: &Setup,
    table: &ClaimTable,
    publisher: &mut Publisher,
    inputs: &InputTable,
    feeds: &mut Feeds,
    count: u8,
) -> Result<Workers, NoMemory>
    requires of { IsPublisherOf table.now publisher.old }
    requires of_inputs { feeds.old.table ≡ inputs.now }
    requires setup { table.now.plan.setup ≡ setup.now }
    requires none { publisher.old.made ≡ 0 }
    requires room { table.now.plan.workers ≡ count }
    requires seats { (feeds.old.made ≡ 0) × (feeds.old.most ≡ count) }
    ensures of { IsPublisherOf table.now publisher.new }
    ensures fresh { IfOk result (All (IsFresh setup.now inputs.now)) }
    ensures of_workers { IfOk result (All (λ w. IsPassOf table.now w.pass)) }
    ensures many { IfOk result (λ ws. length ws ≡ count) }
    ensures publisher { IfOk result (λ ws. KeepsPublisher publisher.old publisher.new count
        publisher.old.clients) }
    ensures feeds { IfOk result (λ ws. feeds.new ≡ record feeds.old { made = count }) }
{
    let mut made = Workers::new(alloc);
    for _ in 0..count {
        made.push(make_worker(alloc, setup, table, publisher, inputs, feeds)?)?;
    }
    Ok(made)
}

/// A pass for each client.
pub(crate) fn make_clients(
    alloc: Global,
    table: &ClaimTable,
    publisher: &mut Publisher,
) -> Result<ClientPasses, NoMemory>
    requires of { IsPublisherOf table.now publisher.old }
    requires none { publisher.old.clients ≡ 0 }
    ensures of { IsPublisherOf table.now publisher.new }
    ensures clients { IfOk result (All (IsClientOf table.now)) }
    ensures many { IfOk result (λ cs. length cs ≡ CLIENTS) }
    ensures publisher { IfOk result (λ cs. KeepsPublisher publisher.old publisher.new
        publisher.old.made CLIENTS) }
{
    let mut made = ClientPasses::new(alloc);
    for _ in 0..CLIENTS {
        match publisher.client(table) {
            Ok(pass) => made.push(pass)?,
            Err(_) => unreachable!(),
        }
    }
    Ok(made)
}

/// A pass for each feeder: the inputs', by their numbers, and the pace's.
pub(crate) fn make_feeds(
    alloc: Global,
    inputs: &InputTable,
    feeds: &mut Feeds,
) -> Result<FeedPasses, NoMemory>
    requires of { feeds.old.table ≡ inputs.now }
    requires none { feeds.old.given ≡ replicate (length inputs.now) false }
    requires few { length inputs.now < 256 }
    ensures { IfOk result (λ made. made ≡ map unfed inputs.now) }
{
    let mut made = FeedPasses::new(alloc);
    for input in 0..inputs.feeders() as u8 {
        match feeds.feed(inputs, input) {
            Ok(pass) => made.push(pass)?,
            Err(_) => unreachable!(),
        }
    }
    Ok(made)
}

/// Tables of a number of ticks after those before, which go on from a book.
pub(crate) fn make_tables(
    alloc: Global,
    setup: &Setup,
    rest: &Rest,
    before: u64,
    ticks: u64,
    workers: u8,
) -> Result<Tables, NoMemory>
    requires setup { rest.now.setup ≡ setup.now }
    requires claims { rest.now.claims ≡ before * length setup.now.device.outputs }
    requires ticks { ticks ≤ LAP_TICKS }
    requires workers { workers ≤ MOST_WORKERS }
    requires few { before + ticks < 2 ^ 24 }
    ensures { IfOk result (AreMade rest.now before ticks workers) }
{
    let first = setup.device.base() + before;
    let (table, mut publisher) = rest.start_table(ticks, workers)?;
    let (inputs, mut feeds) = InputTable::start(alloc, &setup.device, first, ticks, workers)?;
    let passes = make_workers(
        alloc,
        setup,
        &table,
        &mut publisher,
        &inputs,
        &mut feeds,
        workers,
    )?;
    let clients = make_clients(alloc, &table, &mut publisher)?;
    let fed = make_feeds(alloc, &inputs, &mut feeds)?;
    let room = Room::new(alloc, workers)?;
    Ok(Tables {
        table,
        publisher,
        inputs,
        workers: passes,
        feeds: fed,
        clients,
        room,
    })
}
