use super::*;
use io_caps::{
    Choices, Device, DeviceParts, Input, Inputs, Labels, NoMemory, Or, Output, Outputs, Parent,
    Rate, Routable, Text, TryCopy, Width,
};
use std::alloc::Global;
use std::test::Fail;

const RATE: Rate = Rate {
    hz: 48000,
    frames: 2,
};

fn text(alloc: Global, byte: u8) -> Result<Text, NoMemory> {
    let mut made = Text::new(alloc);
    made.push(byte)?;
    Ok(made)
}

fn labels(alloc: Global, channels: usize) -> Result<Labels, NoMemory> {
    let mut made = Labels::new(alloc);
    for _ in 0..channels {
        made.push(Text::new(alloc))?;
    }
    Ok(made)
}

/// An input: its channels, its block size, and whether a block may be reordered.
type Source = (usize, u8, bool);

const SOURCES: [Source; 5] = [
    (2, 1, true),
    (4, 2, false),
    (4, 4, false),
    (4, 2, true),
    (64, 64, false),
];

fn inputs(alloc: Global) -> Result<Inputs, NoMemory> {
    let mut made = Inputs::new(alloc);
    for (at, (channels, block_size, reordering)) in SOURCES.iter().enumerate() {
        made.push(Input {
            id: text(alloc, b"abcde"[at])?,
            name: Text::new(alloc),
            description: Text::new(alloc),
            labels: labels(alloc, *channels)?,
            width: Width::L16,
            payload_type: 96,
            block_size: *block_size,
            reordering: *reordering,
            parent: Parent::Nobody,
        })?;
    }
    Ok(made)
}

/// What may be routed to an output: these, or anything.
type Listed = Option<&'static [Option<u8>]>;

fn routable(alloc: Global, listed: Listed) -> Result<Routable, NoMemory> {
    match listed {
        None => Ok(Routable::All),
        Some(listed) => {
            let mut made = Choices::new(alloc);
            for choice in listed {
                made.push(*choice)?;
            }
            Ok(Routable::Only(made))
        }
    }
}

fn output(alloc: Global, id: u8, channels: usize, listed: Listed) -> Result<Output, NoMemory> {
    Ok(Output {
        id: text(alloc, id)?,
        name: Text::new(alloc),
        description: Text::new(alloc),
        labels: labels(alloc, channels)?,
        width: Width::L16,
        payload_type: 96,
        ssrc: 1,
        source_id: None,
        routable: routable(alloc, listed)?,
    })
}

/// A device with the inputs above, an output of one channel, and another.
fn device(alloc: Global, channels: usize, listed: Listed) -> Result<Device, Fail> {
    let mut outputs = Outputs::new(alloc);
    outputs.push(output(alloc, b'x', 1, None)?)?;
    outputs.push(output(alloc, b'y', channels, listed)?)?;
    let parts = DeviceParts {
        rate: RATE,
        base: 0,
        hold: 1,
        inputs: inputs(alloc)?,
        outputs,
    };
    match Device::build(alloc, parts) {
        Ok(device) => Ok(device),
        Err(_) => Err("a device".into()),
    }
}

/// Builds a setup with these base rows, and copies it: the fault, where there is one.
fn setup_fault(alloc: Global, device: Device, x: Row, y: Row) -> Result<Option<SetupFault>, Fail> {
    let mut rows = Rows::new(alloc);
    rows.push(x)?;
    rows.push(y)?;
    match Setup::build(alloc, device, rows) {
        Ok(setup) => {
            setup.copy()?;
            Ok(None)
        }
        Err(Or::Fault(fault)) => Ok(Some(fault)),
        Err(Or::NoMemory) => Err("memory".into()),
    }
}

/// The fault of a base row of the last output.
fn fault(alloc: Global, listed: Listed, places: &[Place]) -> Result<Option<RowFault>, Fail> {
    let device = device(alloc, places.len(), listed)?;
    match setup_fault(alloc, device, cells(alloc, &[N])?, cells(alloc, places)?)? {
        None => Ok(None),
        Some(SetupFault::BaseRow { output: 1, fault }) => Ok(Some(fault)),
        Some(_) => Err("a fault of the last output".into()),
    }
}

/// An input with a channel of it; or unrouted.
type Place = (u8, u8);

const N: Place = (255, 0);

/// The cells of these places.
fn cells(alloc: Global, places: &[Place]) -> Result<Row, NoMemory> {
    let mut made = Row::new(alloc);
    for (input, channel) in places {
        made.push(match *input {
            255 => Cell::Unrouted,
            input => Cell::From {
                input,
                channel: *channel,
            },
        })?;
    }
    Ok(made)
}

/// Inputs 1 and 3 have blocks of two channels, which may be reordered in 3 alone; 2 has one of
/// four.
const ROWS: [(Listed, &[Place], Option<RowFault>); 33] = [
    // each fault alone
    (None, &[(9, 0)], Some(RowFault::Input(0))),
    (None, &[N, (0, 2)], Some(RowFault::Channel(1))),
    (
        Some(&[None, Some(1)]),
        &[N, (0, 1)],
        Some(RowFault::NotRoutable(1)),
    ),
    (None, &[(1, 0), N], Some(RowFault::Block(0))),
    (None, &[(1, 1), (1, 0)], Some(RowFault::Order(0))),
    // two at once, and the lowest channel of the first
    (None, &[(0, 2), (9, 0)], Some(RowFault::Input(1))),
    (Some(&[]), &[N, (0, 2), (0, 2)], Some(RowFault::Channel(1))),
    (
        Some(&[None]),
        &[(1, 0), (0, 0)],
        Some(RowFault::NotRoutable(0)),
    ),
    (None, &[(1, 1), (1, 0), (3, 0)], Some(RowFault::Block(2))),
    (None, &[N, (9, 0), (9, 0)], Some(RowFault::Input(1))),
    // lists: empty, without null, with an input twice
    (Some(&[]), &[N], Some(RowFault::NotRoutable(0))),
    (
        Some(&[Some(0)]),
        &[(0, 0), N],
        Some(RowFault::NotRoutable(1)),
    ),
    (Some(&[None]), &[N, N], None),
    (Some(&[Some(0), Some(0), None]), &[(0, 0), N, (0, 0)], None),
    // blocks of one channel
    (None, &[(0, 1)], None),
    (None, &[(0, 1), (0, 1), (0, 0)], None),
    // blocks of two
    (None, &[(1, 2), (1, 3)], None),
    (None, &[N, (1, 0), (1, 1)], None),
    (None, &[(1, 2), (1, 3), (1, 0), (1, 1)], None),
    (None, &[(1, 0), (1, 1), (1, 0), (1, 1)], None),
    (None, &[(1, 1), (1, 2)], Some(RowFault::Block(0))),
    (None, &[(1, 0), (0, 0), (1, 1)], Some(RowFault::Block(0))),
    (None, &[(1, 0), (1, 1), (1, 2)], Some(RowFault::Block(2))),
    (None, &[(3, 1), (3, 1)], Some(RowFault::Block(0))),
    (None, &[(3, 1), (3, 0)], None),
    (
        None,
        &[(3, 1), (3, 0), (1, 3), (1, 2)],
        Some(RowFault::Order(2)),
    ),
    (
        None,
        &[(1, 0), (3, 0), (3, 1), (1, 1)],
        Some(RowFault::Block(0)),
    ),
    // blocks of four
    (None, &[(2, 0), (2, 1), (2, 2), (2, 3)], None),
    (
        None,
        &[(2, 0), (2, 2), (2, 1), (2, 3)],
        Some(RowFault::Order(0)),
    ),
    (
        None,
        &[(2, 0), (2, 1), (2, 2), (2, 2)],
        Some(RowFault::Block(0)),
    ),
    (None, &[(2, 0), (2, 1), (2, 3)], Some(RowFault::Block(0))),
    (None, &[N, (2, 0), (2, 1), (2, 2), (2, 3)], None),
    (
        None,
        &[(2, 3), (2, 2), (2, 1), (2, 0)],
        Some(RowFault::Order(0)),
    ),
];

#[test]
fn rows_checked(rt: HostRuntime) -> Result<(), Fail> {
    for (at, (listed, places, found)) in ROWS.iter().enumerate() {
        assert_eq!(rt; fault(rt.alloc(), *listed, places)?, *found, "row {at}");
    }
    Ok(())
}

/// Of a device whose second input has four channels in blocks of two, in order.
#[test]
fn blocks_and_order(rt: HostRuntime) -> Result<(), Fail> {
    for (places, found) in [
        ([(1, 0), N], Some(RowFault::Block(0))),
        ([(1, 1), (1, 0)], Some(RowFault::Order(0))),
        ([(1, 2), (1, 3)], None),
        ([(1, 2), N], Some(RowFault::Block(0))),
    ] {
        assert_eq!(rt; fault(rt.alloc(), None, &places)?, found);
    }
    Ok(())
}

/// The fault of a row of 64 channels, all from the last input in their order but for the last two.
fn wide_fault(alloc: Global, low: Place, high: Place) -> Result<Option<RowFault>, Fail> {
    let mut places = [N; 64];
    for (at, place) in places.iter_mut().enumerate() {
        *place = (4, at as u8);
    }
    places[62] = low;
    places[63] = high;
    fault(alloc, None, &places)
}

#[test]
fn rows_of_64_channels(rt: HostRuntime) -> Result<(), Fail> {
    for (low, high, found) in [
        ((4, 62), (4, 63), None),
        ((4, 63), (4, 62), Some(RowFault::Order(0))),
        ((4, 63), (4, 63), Some(RowFault::Block(0))),
        ((4, 62), N, Some(RowFault::Block(0))),
        (N, (4, 64), Some(RowFault::Channel(63))),
    ] {
        assert_eq!(rt; wide_fault(rt.alloc(), low, high)?, found);
    }
    Ok(())
}

#[test]
fn base_rows(rt: HostRuntime) -> Result<(), Fail> {
    let alloc = rt.alloc();
    // a cell too many, and then the lowest output at fault
    for (x, y, found) in [
        (&[N, N] as &[Place], [(9, 0), (9, 0)], SetupFault::Count),
        (
            &[(0, 2)],
            [(9, 0), (9, 0)],
            SetupFault::BaseRow {
                output: 0,
                fault: RowFault::Channel(0),
            },
        ),
        (
            &[(0, 1)],
            [(0, 0), (0, 2)],
            SetupFault::BaseRow {
                output: 1,
                fault: RowFault::Channel(1),
            },
        ),
    ] {
        let x = cells(alloc, x)?;
        let y = cells(alloc, &y)?;
        let fault = setup_fault(alloc, device(alloc, 2, None)?, x, y)?;
        assert_eq!(rt; fault, Some(found));
    }
    Ok(())
}

#[test]
fn fault_texts(rt: HostRuntime) -> Result<(), Fail> {
    let fault = RowFault::Block(2);
    let text = format!(in rt.alloc(); "{}", SetupFault::BaseRow { output: 1, fault })?;
    assert_eq!(rt;
        text.as_str(),
        "output 1: channel 2 begins a piece that is no whole block"
    );
    Ok(())
}

const LEFT: Place = (0, 0);

const RIGHT: Place = (0, 1);

/// Entries of an output, each from its frame of a tick on.
fn entries(alloc: Global) -> Result<Entries, NoMemory> {
    let mut entries = Entries::new(alloc);
    for (tick, offset, place) in [(0, 0, N), (500, 0, LEFT), (500, 0, N), (250, 1, RIGHT)] {
        entries.push(Entry::new(3, tick, offset, cells(alloc, &[place])?, 0))?;
    }
    Ok(entries)
}

/// The cell of an output that has these entries, at a position where a tick has two frames.
fn selected(alloc: Global, output: u8, position: u64) -> Result<Option<Cell>, NoMemory> {
    let entries = entries(alloc)?;
    Ok(select(&entries.copy()?, 2, output, position).and_then(|row| row.get(0).copied()))
}

#[test]
fn schedule_delete_schedule(rt: HostRuntime) -> Result<(), Fail> {
    let right = Cell::From {
        input: 0,
        channel: 1,
    };
    for (output, position, found) in [
        (3, 0, Some(Cell::Unrouted)),
        (3, 500, Some(Cell::Unrouted)),
        (3, 501, Some(right)),
        (3, 1000, Some(right)),
        (2, 1000, None),
    ] {
        assert_eq!(rt;
            selected(rt.alloc(), output, position)?,
            found,
            "at {position}"
        );
    }
    Ok(())
}

#[test]
fn pieces_of_ticks(rt: HostRuntime) -> Result<(), Fail> {
    let entries = entries(rt.alloc())?;
    for (tick, frame, upto) in [(249, 0, 2), (250, 0, 1), (250, 1, 2), (251, 0, 2)] {
        let piece = select_piece(entries.as_slice(), 3, tick, frame, 2);
        assert_eq!(rt;
            piece.map(|(_row, end)| end),
            Some(upto),
            "at {tick} {frame}"
        );
    }
    Ok(())
}

/// The change of an output that routes channels of input 0 to these of its channels, where they
/// ascend.
fn change(alloc: Global, output: u8, list: &[(u8, u8)]) -> Result<Option<OutputChange>, NoMemory> {
    let mut changes = Changes::new(alloc);
    for (channel, from) in list {
        changes.push(Change {
            channel: *channel,
            cell: Cell::From {
                input: 0,
                channel: *from,
            },
        })?;
    }
    Ok(OutputChange::build(output, changes))
}

/// A copy of the action that changes two outputs, each once.
fn action(alloc: Global) -> Result<Action, Fail> {
    let mut action = Action::new(alloc);
    action.push(change(alloc, 3, &[(0, 1), (1, 0)])?.ok_or("channels in order")?)?;
    let again = action.try_push(change(alloc, 3, &[])?.ok_or("no channel")?)?;
    let next = action.try_push(change(alloc, 4, &[])?.ok_or("no channel")?)?;
    if again || !next {
        return Err("outputs that ascend".into());
    }
    Ok(action.copy()?)
}

/// The last of two unrouted channels of an output, after the action.
fn applied(alloc: Global, output: u8) -> Result<Option<Cell>, Fail> {
    let row = cells(alloc, &[N, N])?;
    let action = action(alloc)?;
    if !action.fits(output, row.len()) {
        return Err("channels of the row".into());
    }
    let made = apply(alloc, &row, &action, output)?;
    Ok(made.get(1).copied())
}

#[test]
fn actions(rt: HostRuntime) -> Result<(), Fail> {
    let left = Cell::From {
        input: 0,
        channel: 0,
    };
    assert_eq!(rt; applied(rt.alloc(), 3)?, Some(left));
    assert_eq!(rt; applied(rt.alloc(), 4)?, Some(Cell::Unrouted));
    assert!(rt; change(rt.alloc(), 3, &[(1, 0), (1, 0)])?.is_none());
    Ok(())
}

#[test]
fn claims(rt: HostRuntime) {
    for (claims, first) in [(0, 7), (1, 8), (3, 8), (4, 9)] {
        assert_eq!(rt; first_tick(7, 3, claims), first, "after {claims}");
    }
    assert_eq!(rt; claim_tick(7, 3, 5), 8);
    assert_eq!(rt; claim_output(3, 5), 2);
}
