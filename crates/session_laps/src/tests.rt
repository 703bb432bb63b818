//! Sessions, worked by hand.

ghost use Rattle.std.specs.Prelude.{◌≤◌};
ghost use Rattle.io_caps.specs.declared.limits.TheConstants.{SESSION_TICKS};

use super::*;
use io_caps::{
    Device, DeviceParts, Input, Inputs, Labels, NoMemory, Output, Outputs, Parent, Rate, Routable,
    Text, Width,
};
use map_entry::{Cell, Row, Rows, Setup};
use std::alloc::Global;
use std::process::Abort;
use std::test::Fail;

// ---- a device of an input and two outputs, of two channels each

fn text(alloc: Global, byte: u8) -> Result<Text, NoMemory> {
    let mut made = Text::new(alloc);
    made.push(byte)?;
    Ok(made)
}

fn labels(alloc: Global) -> Result<Labels, NoMemory> {
    let mut made = Labels::new(alloc);
    made.push(text(alloc, b'l')?)?;
    made.push(text(alloc, b'r')?)?;
    Ok(made)
}

fn inputs(alloc: Global) -> Result<Inputs, NoMemory> {
    let mut made = Inputs::new(alloc);
    made.push(Input {
        id: text(alloc, b'a')?,
        name: Text::new(alloc),
        description: Text::new(alloc),
        labels: labels(alloc)?,
        width: Width::L16,
        payload_type: 96,
        block_size: 1,
        reordering: true,
        parent: Parent::Nobody,
    })?;
    Ok(made)
}

fn outputs(alloc: Global) -> Result<Outputs, NoMemory> {
    let mut made = Outputs::new(alloc);
    for (id, width, ssrc) in [(b'x', Width::L16, 1), (b'y', Width::L24, 2)] {
        made.push(Output {
            id: text(alloc, id)?,
            name: Text::new(alloc),
            description: Text::new(alloc),
            labels: labels(alloc)?,
            width,
            payload_type: 96,
            ssrc,
            source_id: None,
            routable: Routable::All,
        })?;
    }
    Ok(made)
}

fn rows(alloc: Global) -> Result<Rows, NoMemory> {
    let mut made = Rows::new(alloc);
    for _ in 0..2 {
        let mut row = Row::new(alloc);
        row.push(Cell::Unrouted)?;
        row.push(Cell::Unrouted)?;
        made.push(row)?;
    }
    Ok(made)
}

/// At 48000 Hz, with two frames a tick, from a tick on.
fn setup_from(alloc: Global, base: u64) -> Result<Setup, Fail> {
    let parts = DeviceParts {
        rate: Rate {
            hz: 48000,
            frames: 2,
        },
        base,
        hold: 1,
        inputs: inputs(alloc)?,
        outputs: outputs(alloc)?,
    };
    let Ok(device) = Device::build(alloc, parts) else {
        return Err("a device".into());
    };
    match Setup::build(alloc, device, rows(alloc)?) {
        Ok(setup) => Ok(setup),
        Err(_) => Err("a setup".into()),
    }
}

/// How many ticks and how many workers the first lap has in a session of a number of ticks, and
/// from which claim it begins; `None` if there is no lap.
fn first_lap(alloc: Global, ticks: u64) -> Result<Option<(u64, usize, u64)>, Fail>
    requires { ticks ≤ SESSION_TICKS }
{
    let mut session = Session::start(alloc, &setup_from(alloc, 344)?, ticks, 3)?;
    match session.lap()? {
        Some(lap) => Ok(Some((lap.ticks, lap.workers.len(), lap.from))),
        None => Ok(None),
    }
}

#[test]
fn ticks_of_the_first_lap(rt: HostRuntime) -> Result<(), Fail> {
    let alloc = rt.alloc();
    assert_eq!(rt; first_lap(alloc, 0)?, None);
    assert_eq!(rt; first_lap(alloc, 1)?, Some((1, 3, 0)));
    assert_eq!(rt; first_lap(alloc, 256)?, Some((256, 3, 0)));
    assert_eq!(rt; first_lap(alloc, 257)?, Some((256, 3, 0)));
    assert_eq!(rt; first_lap(alloc, 4_194_304)?, Some((256, 3, 0)));
    Ok(())
}

/// A lap in which nothing was claimed can end the session.
#[test]
fn early_end(rt: HostRuntime) -> Result<(), Fail> {
    let alloc = rt.alloc();
    let mut session = Session::start(alloc, &setup_from(alloc, 0)?, 512, 1)?;
    let Some(lap) = session.lap()? else {
        return Err("a lap".into());
    };
    let (journal, given) = lap.end();
    assert_eq!(rt; (journal.len(), given.len()), (0, 0));
    Ok(())
}

// ---- threads

fn goes_to_a_thread<T: Send + Drop>() {}

#[test]
fn threads_may_have_them(_rt: HostRuntime) {
    goes_to_a_thread::<Session>();
    goes_to_a_thread::<Lap>();
}
