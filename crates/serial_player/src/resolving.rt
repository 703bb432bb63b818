//! The records of a capture as steps: the HTTP stream of each client is read, with no device and no
//! book, and each request stands at the record that makes it whole.

ghost use Rattle.std.specs.Prelude.{◌≡◌, ◌<◌, ◌++◌, ◌∷◌, [], All, IfOk, List, OnOk, length};
ghost use Rattle.std.specs.Prelude.{replicate};
ghost use Rattle.std.specs.List.{sum_by};
ghost use Rattle.http_wire.specs.Stream.{AnswersOn, Steps as NextSteps, holds};
ghost use Rattle.io_caps.specs.declared.limits.TheConstants.{CLIENTS};
ghost use Rattle.capture_file.specs.Items.{claims_of};
ghost use Rattle.capture_file.specs.declared.items.Item.{Item};
ghost use Rattle.serial_player.specs.Resolved.{Hears, IsClientThere, IsDueNext, IsNextAsk};
ghost use Rattle.serial_player.specs.Resolved.{IsResolved};
ghost use Rattle.serial_player.specs.Serial.{HasTurns, IsStepThere, claims_by};
ghost use Rattle.serial_player.specs.Streams.{IsSettled};

use crate::asks::{ClientAsk, Step, Steps};
use capture_file::Item;
use http_wire::{Next, Stream};
use io_caps::limits::CLIENTS;
use io_caps::{NoMemory, TryCopy};
use std::alloc::Global;

/// The streams of clients of whom nothing came yet, by number.
fn new_streams(alloc: Global) -> Result<Vec<Stream>, NoMemory>
    ensures { IfOk result (λ made. made.items ≡ replicate CLIENTS (holds [])) }
{
    let mut made = Vec::new(alloc);
    for _ in 0..CLIENTS {
        made.push(Stream::new(alloc)?)?;
    }
    Ok(made)
}

/// What is found next of a stream.
fn next_of(stream: &mut Stream) -> Result<Next, NoMemory>
    ensures steps { IfOk result (λ next. NextSteps stream.old next stream.new) }
    ensures answers { IfOk result (λ next. AnswersOn stream.old next stream.new) }
    ensures due { IfOk result (λ next. IsDueNext next stream.new) }
{
    stream.next()
}

/// The next ask of a stream, if one is due.
fn next_ask(stream: &mut Stream) -> Result<Option<ClientAsk>, NoMemory>
    ensures { IfOk result (λ found. IsNextAsk stream.old found stream.new) }
{
    match next_of(stream)? {
        Next::Need | Next::Ended => Ok(None),
        Next::Request(http) => Ok(Some(ClientAsk::Whole(http))),
        Next::Bad { status } => Ok(Some(ClientAsk::Refused(status))),
    }
}

/// Adds the asks of a client's stream that are due. Each takes bytes of the stream, or ends it.
fn take_asks(stream: &mut Stream, client: u8, steps: &mut Steps) -> Result<(), NoMemory>
    ensures hears { OnOk result (Hears client [] stream.old stream.new steps.old steps.new) }
    ensures settled { OnOk result (IsSettled stream.new) }
{
    while let Some(ask) = next_ask(stream)? {
        steps.push(Step::Ask { client, ask })?;
    }
    Ok(())
}

/// Takes a piece of a client's stream, and adds the asks that it makes whole.
fn hear(stream: &mut Stream, client: u8, piece: &[u8], steps: &mut Steps) -> Result<(), NoMemory>
    ensures hears { OnOk result (Hears client piece.now stream.old stream.new steps.old steps.new) }
    ensures settled { OnOk result (IsSettled stream.new) }
{
    stream.feed(piece)?;
    take_asks(stream, client, steps)
}

/// Adds the steps of a record.
fn take_item(streams: &mut [Stream], steps: &mut Steps, item: &Item) -> Result<(), NoMemory>
    requires client { IsClientThere item.now }
    requires all { length streams.old ≡ CLIENTS }
    ensures { OnOk result ((items : List Item) → IsResolved items streams.old steps.old
        → IsResolved (items ++ item.now ∷ []) streams.new steps.new) }
{
    match item {
        Item::Packet { .. } => Ok(()),
        Item::Piece { client, bytes } => hear(
            &mut streams[*client as usize],
            *client,
            bytes.as_slice(),
            steps,
        ),
        Item::Ask { client, request } => {
            let ask = ClientAsk::Asked(request.copy()?);
            steps.push(Step::Ask {
                client: *client,
                ask,
            })
        }
        Item::Work { claims } => steps.push(Step::Claims(*claims)),
    }
}

/// Returns the steps of a capture's records, with what the HTTP streams of clients ask in the place
/// of their pieces. It takes time in proportion to the bytes of the records.
pub fn resolve(alloc: Global, items: &[Item]) -> Result<Steps, NoMemory>
    requires { All IsClientThere items.now }
    // By answers that are those of the clients' streams they are what the records do.
    ensures turns { IfOk result (HasTurns items.now) }
    // Each can be taken over a book.
    ensures there { IfOk result (All IsStepThere) }
    // They make the claims of the records.
    ensures claims { IfOk result (λ steps. sum_by claims_by steps ≡ sum_by claims_of items.now) }
{
    let mut streams = new_streams(alloc)?;
    let mut steps = Steps::new(alloc);
    for item in items {
        take_item(&mut streams, &mut steps, item)?;
    }
    Ok(steps)
}
