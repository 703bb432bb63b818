//! A result longer than the buffer on its way out, and the text of a history made as a whole.

use super::{
    MID_TICK, MID_TICK_RESULT, NO_FAULT, Outside, SILENCE_RESULT, TWO_TICKS, capture, expect, hex,
    run,
};
use crate::input::read_all;
use capture_file::write_result;
use serial_player::serial;
use std::alloc::Global;
use std::test::Fail;

/// The device of the other tests, with 120 frames a tick, and 60 ticks of claims.
const LONG: &str = "43484d434150310a 44 00000034
    0000bb80 0078 0000000000000000 01 01 02
    01 61 02 10 60 01 01
    01 78 02 10 60 00000001 ff ff00 ff00
    01 79 02 18 61 00000002 ff ff00 ff00
    54 00000004 00000078
    45 00000000";

/// Adds the record of a silent claim of an output: its samples have a given number of bytes.
fn push_silence(made: &mut Vec<u8>, tick: u8, output: u8, len: u32) -> Result<(), Fail> {
    let claim = u64::from(tick)
        .wrapping_mul(2)
        .wrapping_add(u64::from(output));
    let timestamp = u32::from(tick).wrapping_mul(120);
    made.push(0x43)?;
    made.extend_from_slice(&len.wrapping_add(21).to_be_bytes())?;
    made.extend_from_slice(&claim.to_be_bytes())?;
    made.extend_from_slice(&[0, 0x80, output.wrapping_add(0x60), 0, tick])?;
    made.extend_from_slice(&timestamp.to_be_bytes())?;
    made.extend_from_slice(&[0, 0, 0, output.wrapping_add(1)])?;
    for _ in 0..len {
        made.push(0)?;
    }
    Ok(())
}

/// The result of the long capture.
fn long_result(alloc: Global) -> Result<Vec<u8>, Fail> {
    let mut made = hex(alloc, "43484d524553310a")?;
    for tick in 0..60 {
        push_silence(&mut made, tick, 0, 480)?;
        push_silence(&mut made, tick, 1, 720)?;
    }
    made.extend_from_slice(&[0x45, 0, 0, 0, 0])?;
    Ok(made)
}

#[test]
fn result_longer_than_the_buffer(rt: HostRuntime) -> Result<(), Fail> {
    let alloc = rt.alloc();
    let result = long_result(alloc)?;
    let ran = run(alloc, &["serial"], hex(alloc, LONG)?, NO_FAULT)?;
    expect(&rt, &ran, 0, &result, "");
    // The second write fails: the sink took 104 claims.
    let outside = Outside {
        write: Some(1),
        ..NO_FAULT
    };
    let ran = run(alloc, &["serial"], hex(alloc, LONG)?, outside)?;
    let front = result.get(..65_112).ok_or("a front")?;
    expect(&rt, &ran, 4, front, "write fault\n");
    Ok(())
}

/// The text of the serial history of a capture, made as a whole.
fn whole_text(alloc: Global, bytes: &[u8]) -> Result<Vec<u8>, Fail> {
    let capture = match read_all(alloc, bytes) {
        Ok(capture) => capture,
        Err(_) => return Err(Fail::from("a capture")),
    };
    let history = serial(alloc, &capture)?;
    let mut text = Vec::new(alloc);
    write_result(
        alloc,
        &capture.setup.device,
        capture.format,
        &history,
        &mut text,
    )?;
    Ok(text)
}

#[test]
fn history_and_its_text(rt: HostRuntime) -> Result<(), Fail> {
    let alloc = rt.alloc();
    let silence = whole_text(alloc, &capture(alloc, TWO_TICKS)?)?;
    assert_eq!(rt; silence, hex(alloc, SILENCE_RESULT)?);
    let changed = whole_text(alloc, &capture(alloc, MID_TICK)?)?;
    assert_eq!(rt; changed, hex(alloc, MID_TICK_RESULT)?);
    Ok(())
}
