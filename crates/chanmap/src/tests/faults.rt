//! Captures that are refused, and the limits of what is taken.

use super::{DEVICE, MID_TICK, NO_FAULT, TWO_TICKS, capture, expect, hex, push_hex, run};
use std::alloc::Global;
use std::process::Abort;
use std::test::Fail;

/// The bytes with those from one place to another replaced.
fn spliced(
    alloc: Global,
    bytes: &[u8],
    from: usize,
    to: usize,
    digits: &str,
) -> Result<Vec<u8>, Fail> {
    let mut made = Vec::new(alloc);
    made.extend_from_slice(bytes.get(..from).ok_or("no such place")?)?;
    push_hex(&mut made, digits)?;
    made.extend_from_slice(bytes.get(to..).ok_or("no such place")?)?;
    Ok(made)
}

/// Changes of the capture of silence. Its device stands at 8, the claims at 65, and the end at 74.
const DEVICE_CHANGES: [(usize, usize, &str, &str); 34] = [
    // the magic
    (7, 8, "0b", "refused at 0: magic"),
    (0, 79, "", "refused at 0: magic"),
    // another first record, a second device, and an unknown tag
    (8, 9, "54", "refused at 8: order"),
    (65, 66, "44", "refused at 65: order"),
    (8, 9, "51", "refused at 8: order"),
    (65, 66, "4a", "refused at 65: order"),
    // a plain device as JSON, a piece of a client that is not there, and one of no client
    (8, 9, "4a", "refused at 8: device"),
    (65, 71, "51 00000004 10", "refused at 65: body"),
    (65, 74, "51 00000000", "refused at 65: body"),
    // a device record that ends within a base row, and one with a byte after it
    (
        9,
        65,
        "00000033 0000bb80 0002 0000000000000000 01 01 02 01 61 02 10 60 01 01 01 78 02 10
            60 00000001 ff ff00 ff00 01 79 02 18 61 00000002 ff ff00 ff",
        "refused at 8: device",
    ),
    (
        9,
        65,
        "00000035 0000bb80 0002 0000000000000000 01 01 02 01 61 02 10 60 01 01 01 78 02 10
            60 00000001 ff ff00 ff00 01 79 02 18 61 00000002 ff ff00 ff00 00",
        "refused at 8: device",
    ),
    // the rate, the frames, the base and the hold
    (13, 17, "0000bb81", "refused at 8: device"),
    (17, 19, "0000", "refused at 8: device"),
    (19, 27, "ffffffffffffffff", "refused at 8: device"),
    (27, 28, "41", "refused at 8: device"),
    // no output
    (
        9,
        65,
        "00000018 0000bb80 0002 0000000000000000 01 01 00 01 61 02 10 60 01 01",
        "refused at 8: device",
    ),
    // an id with a space, one id twice, and ids of no byte and of 33
    (31, 32, "20", "refused at 8: device"),
    (52, 53, "78", "refused at 8: device"),
    (
        9,
        65,
        "00000033 0000bb80 0002 0000000000000000 01 01 02 00 02 10 60 01 01 01 78 02 10 60
            00000001 ff ff00 ff00 01 79 02 18 61 00000002 ff ff00 ff00",
        "refused at 8: device",
    ),
    (
        9,
        65,
        "00000054 0000bb80 0002 0000000000000000 01 01 02 21
            616161616161616161616161616161616161616161616161616161616161616161 02 10 60 01 01
            01 78 02 10 60 00000001 ff ff00 ff00 01 79 02 18 61 00000002 ff ff00 ff00",
        "refused at 8: device",
    ),
    // an input's channels, bits, payload type and reordering
    (32, 33, "00", "refused at 8: device"),
    (33, 34, "11", "refused at 8: device"),
    (34, 35, "80", "refused at 8: device"),
    (36, 37, "02", "refused at 8: device"),
    // a routable list with no member
    (46, 47, "00", "refused at 8: device"),
    // a base row with another unrouted cell, and with a channel and an input that are not there
    (47, 49, "ff01", "refused at 8: device"),
    (47, 49, "0002", "refused at 8: device"),
    (47, 49, "0100", "refused at 8: device"),
    // claims of part of a tick, of 4097 ticks, and in 3 bytes
    (70, 74, "00000003", "refused at 74: work"),
    (70, 74, "00002002", "refused at 74: work"),
    (66, 71, "00000003", "refused at 65: body"),
    // an end with a body, no end, and a byte after the end
    (75, 79, "00000001 00", "refused at 74: body"),
    (74, 79, "", "refused at 74: cut"),
    (79, 79, "00", "refused at 79: trailing"),
];

/// Changes of the capture with an activation. Its packet stands at 65, claims at 91 and 118, and
/// the activation at 100.
const RECORD_CHANGES: [(usize, usize, &str, &str); 12] = [
    // a packet of an input that is not there
    (70, 71, "01", "refused at 65: body"),
    // no such client, no such op, and no output
    (105, 106, "10", "refused at 100: body"),
    (106, 107, "01", "refused at 100: body"),
    // outputs that do not ascend, and one that is not there
    (113, 114, "00", "refused at 100: body"),
    (108, 114, "01 01 00 0000 00", "refused at 100: body"),
    // channels that do not ascend, and one that is not there
    (
        101,
        118,
        "0000000b 00 00 01 00 02 00 0000 00 0000",
        "refused at 100: body",
    ),
    (116, 118, "ff01", "refused at 100: body"),
    // a byte after the action
    (
        101,
        118,
        "0000000e 00 00 02 00 01 000000 01 01 000001 00",
        "refused at 100: body",
    ),
    // claims of part of a tick
    (123, 127, "00000002", "refused at 127: work"),
    // an op that is none, a time of too many nanoseconds, a byte after a reading
    (101, 118, "00000002 00 06", "refused at 100: body"),
    (
        101,
        118,
        "0000000f 00 01 0000000000000000 3b9aca00 00",
        "refused at 100: body",
    ),
    (101, 118, "00000003 00 04 00", "refused at 100: body"),
];

/// Each changed capture is refused with the line of its first fault, up to the line's end.
fn refuse_all(
    rt: &impl Abort,
    alloc: Global,
    records: &str,
    changes: &[(usize, usize, &str, &str)],
) -> Result<(), Fail> {
    let whole = capture(alloc, records)?;
    for (from, to, digits, line) in changes {
        let input = spliced(alloc, &whole, *from, *to, digits)?;
        let mut ran = run(alloc, &["serial"], input, NO_FAULT)?;
        assert_eq!(rt; ran.err.pop(), Some(b'\n'));
        expect(rt, &ran, 5, &[], line);
    }
    Ok(())
}

/// The id of an input or output: a digit, a letter, or another character.
fn id_byte(number: u8) -> u8 {
    match number {
        0..=9 => b'0' + number,
        10..=35 => b'A' + number - 10,
        36..=61 => b'a' + number - 36,
        62 => b'-',
        _ => b'_',
    }
}

/// Inputs, or outputs with unrouted rows: how many, and their channels.
type Ports = (u8, u8);

/// The body of a plain device record in L16, with a given number of frames a tick.
fn device_body(alloc: Global, frames: u8, inputs: Ports, outputs: Ports) -> Result<Vec<u8>, Fail> {
    let mut made = hex(alloc, "0000bb80 00")?;
    made.push(frames)?;
    push_hex(&mut made, "0000000000000000 01")?;
    made.push(inputs.0)?;
    made.push(outputs.0)?;
    for input in 0..inputs.0 {
        made.extend_from_slice(&[1, id_byte(input), inputs.1, 16, 96, 1, 1])?;
    }
    for output in 0..outputs.0 {
        made.extend_from_slice(&[1, id_byte(output), outputs.1, 16, 96, 0, 0, 0, 1, 255])?;
        for _ in 0..outputs.1 {
            made.extend_from_slice(&[255, 0])?;
        }
    }
    Ok(made)
}

/// A capture of this device and no work.
fn device_alone(alloc: Global, frames: u8, inputs: Ports, outputs: Ports) -> Result<Vec<u8>, Fail> {
    let body = device_body(alloc, frames, inputs, outputs)?;
    let mut made = hex(alloc, "43484d434150310a 44 0000")?;
    let length = u16::try_from(body.len()).ok().ok_or("a long body")?;
    made.extend_from_slice(&length.to_be_bytes())?;
    made.extend_from_slice(&body)?;
    push_hex(&mut made, "45 00000000")?;
    Ok(made)
}

#[test]
fn limits_of_a_device(rt: HostRuntime) -> Result<(), Fail> {
    let alloc = rt.alloc();
    for (frames, inputs, outputs, status) in [
        // the most inputs, outputs, channels of all inputs, channels of one, frames, and bytes of a
        // packet's samples
        (2, (16, 8), (64, 2), 0),
        (2, (2, 64), (1, 64), 0),
        (240, (0, 1), (1, 3), 0),
        // one more of each
        (2, (17, 1), (1, 1), 5),
        (2, (1, 1), (65, 1), 5),
        (2, (3, 43), (1, 1), 5),
        (2, (1, 65), (1, 1), 5),
        (2, (1, 1), (1, 65), 5),
        (241, (1, 1), (1, 1), 5),
        (240, (1, 1), (1, 4), 5),
    ] {
        let input = device_alone(alloc, frames, inputs, outputs)?;
        let ran = run(alloc, &["serial"], input, NO_FAULT)?;
        assert_eq!(rt; ran.status, status);
    }
    Ok(())
}

/// A capture with a given number of activations of both outputs.
fn activations(alloc: Global, count: usize) -> Result<Vec<u8>, Fail> {
    let mut made = hex(alloc, DEVICE)?;
    for _ in 0..count {
        push_hex(&mut made, "41 0000000d 00 00 02 00 01 000000 01 01 000001")?;
    }
    push_hex(&mut made, "45 00000000")?;
    Ok(made)
}

#[test]
fn capture_faults(rt: HostRuntime) -> Result<(), Fail> {
    let alloc = rt.alloc();
    refuse_all(&rt, alloc, TWO_TICKS, &DEVICE_CHANGES)?;
    refuse_all(&rt, alloc, MID_TICK, &RECORD_CHANGES)
}

/// No table is ever full: of 600 activations of both outputs each is accepted.
#[test]
fn no_full_table(rt: HostRuntime) -> Result<(), Fail> {
    let alloc = rt.alloc();
    let ran = run(alloc, &["serial"], activations(alloc, 600)?, NO_FAULT)?;
    assert_eq!(rt; ran.status, 0);
    let end = hex(
        alloc,
        "52 00000023 00 0000000000000257 0000000000000000 01 00 0000000000000258 0000000000000000
            45 00000000",
    )?;
    assert!(rt; ran.out.ends_with(&end));
    Ok(())
}

/// A silent capture of many ticks, by the record of its claims: its result has this many bytes,
/// and ends so.
fn long_ends(
    rt: &impl Abort,
    alloc: Global,
    work: &str,
    len: usize,
    end: &str,
) -> Result<(), Fail> {
    let ran = run(alloc, &["serial"], capture(alloc, work)?, NO_FAULT)?;
    assert_eq!(rt; ran.status, 0);
    assert_eq!(rt; ran.out.len(), len);
    let end = hex(alloc, end)?;
    assert!(rt; ran.out.ends_with(&end));
    Ok(())
}

/// 257 ticks, and the most.
#[test]
fn many_ticks(rt: HostRuntime) -> Result<(), Fail> {
    let alloc = rt.alloc();
    long_ends(
        &rt,
        alloc,
        "54 00000004 00000202 45 00000000",
        18_517,
        "43 00000021 0000000000000201 00 8061 0100 00000200 00000002 000000000000000000000000
            45 00000000",
    )?;
    long_ends(
        &rt,
        alloc,
        "54 00000004 00002000 45 00000000",
        294_925,
        "43 00000021 0000000000001fff 00 8061 0fff 00001ffe 00000002 000000000000000000000000
            45 00000000",
    )
}
