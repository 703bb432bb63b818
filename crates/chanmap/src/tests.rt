//! Runs over objects in memory.

mod clients;
mod descriptions;
mod faults;
mod frames;
mod requests;
mod results;

use crate::top::chanmap;
use chan_io::{MemSink, MemSource, Sink, StdSink};
use std::alloc::Global;
use std::process::Abort;
use std::test::Fail;

/// The bytes of a capture's magic and its device: one input `a` in L16, the outputs `x` in L16 and
/// `y` in L24, of two channels each, which are unrouted.
const DEVICE: &str = "43484d434150310a 44 00000034
    0000bb80 0002 0000000000000000 01 01 02
    01 61 02 10 60 01 01
    01 78 02 10 60 00000001 ff ff00 ff00
    01 79 02 18 61 00000002 ff ff00 ff00";

/// Two ticks of claims, and the end.
const TWO_TICKS: &str = "54 00000004 00000004 45 00000000";

/// A packet of tick 2, three claims, an activation at once, three claims, and the end.
const MID_TICK: &str = "50 00000015 00 8060 0000 00000004 00000063 1111 2222 3333 4444
    54 00000004 00000003
    41 0000000d 00 00 02 00 01 000000 01 01 000001
    54 00000004 00000003
    45 00000000";

const SILENCE_RESULT: &str = "43484d524553310a
    43 0000001d 0000000000000000 00 8060 0000 00000000 00000001 0000000000000000
    43 00000021 0000000000000001 00 8061 0000 00000000 00000002 000000000000000000000000
    43 0000001d 0000000000000002 00 8060 0001 00000002 00000001 0000000000000000
    43 00000021 0000000000000003 00 8061 0001 00000002 00000002 000000000000000000000000
    45 00000000";

const MID_TICK_RESULT: &str = "43484d524553310a
    43 0000001d 0000000000000000 00 8060 0000 00000000 00000001 0000000000000000
    43 00000021 0000000000000001 00 8061 0000 00000000 00000002 000000000000000000000000
    43 0000001d 0000000000000002 00 8060 0001 00000002 00000001 0000000000000000
    48 00000025 0000000000000003 00 0000000000000001 0000000000000002 00 02 00 01 000000 01 01
       000001
    52 00000023 00 0000000000000000 0000000000000003 01 00 0000000000000001 0000000000000002
    43 00000021 0000000000000003 00 8061 0001 00000002 00000002 000000000000000000000000
    43 0000001d 0000000000000004 01 8060 0002 00000004 00000001 1111 0000 3333 0000
    43 00000021 0000000000000005 01 8061 0002 00000004 00000002 222200 000000 444400 000000
    45 00000000";

/// Inputs `a` of two channels and `b` of one. The outputs `x` in L16 and `y` in L24 have two
/// channels each: `x` carries channel 0 of `b` and 1 of `a`, and `y` channel 0 of `a` and nothing.
/// Packets of `a` come at ticks 0 and 1, and one of `b` at tick 1; then there are two ticks of
/// claims.
const TWO_INPUTS: &str = "43484d434150310a 44 0000003b
    0000bb80 0002 0000000000000000 01 02 02
    01 61 02 10 60 01 01
    01 62 01 10 61 01 01
    01 78 02 10 62 00000001 ff 0100 0001
    01 79 02 18 63 00000002 ff 0000 ff00
    50 00000015 00 8060 0000 00000000 00000007 0102 fffe 0304 fffd
    50 00000011 01 8061 0000 00000002 00000007 0506 fffc
    50 00000015 00 8060 0001 00000002 00000007 0708 fffb 090a fffa
    54 00000004 00000004
    45 00000000";

const TWO_INPUTS_RESULT: &str = "43484d524553310a
    43 0000001e 0000000000000000 0100 8062 0000 00000000 00000001 0000fffe 0000fffd
    43 00000022 0000000000000001 0100 8063 0000 00000000 00000002 010200000000 030400000000
    43 0000001e 0000000000000002 0101 8062 0001 00000002 00000001 0506fffb fffcfffa
    43 00000022 0000000000000003 0100 8063 0001 00000002 00000002 070800000000 090a00000000
    45 00000000";

/// Adds the bytes of hexadecimal digits. Other characters part them.
fn push_hex(made: &mut Vec<u8>, digits: &str) -> Result<(), Fail> {
    let mut high: Option<u8> = None;
    for digit in digits.bytes() {
        let value = match digit {
            b'0'..=b'9' => digit - b'0',
            b'a'..=b'f' => digit - b'a' + 10,
            _ => continue,
        };
        match high {
            None => high = Some(value),
            Some(first) => {
                made.push(first.wrapping_mul(16).wrapping_add(value))?;
                high = None;
            }
        }
    }
    Ok(())
}

fn hex(alloc: Global, digits: &str) -> Result<Vec<u8>, Fail> {
    let mut made = Vec::new(alloc);
    push_hex(&mut made, digits)?;
    Ok(made)
}

/// The device with these records.
fn capture(alloc: Global, records: &str) -> Result<Vec<u8>, Fail> {
    let mut made = hex(alloc, DEVICE)?;
    push_hex(&mut made, records)?;
    Ok(made)
}

/// The most bytes of an input.
const MOST: usize = 1 << 26;

/// How many bytes the source hands over in a read, and which calls fail, counted from 0: a read, a
/// write of the result, and a write of the line.
#[derive(Clone, Copy)]
struct Outside {
    piece: usize,
    read: Option<u64>,
    write: Option<u64>,
    line: Option<u64>,
}

const NO_FAULT: Outside = Outside {
    piece: 64,
    read: None,
    write: None,
    line: None,
};

/// What a run answered, and what its two sinks took.
#[derive(Drop)]
struct Ran {
    status: u8,
    out: Vec<u8>,
    err: Vec<u8>,
}

fn fails(alloc: Global, call: Option<u64>) -> Result<Vec<u64>, Fail> {
    let mut calls = Vec::new(alloc);
    if let Some(call) = call {
        calls.push(call)?;
    }
    Ok(calls)
}

fn copied(alloc: Global, bytes: &[u8]) -> Result<Vec<u8>, Fail> {
    let mut made = Vec::new(alloc);
    made.extend_from_slice(bytes)?;
    Ok(made)
}

fn strings(alloc: Global, words: &[&str]) -> Result<Vec<String>, Fail> {
    let mut made = Vec::new(alloc);
    for word in words {
        made.push(String::from_str(alloc, word)?)?;
    }
    Ok(made)
}

/// The status and the lines of a run over these words, this input and this sink of the result.
fn run_into<K: Sink>(
    alloc: Global,
    words: &[&str],
    input: Vec<u8>,
    outside: Outside,
    out: &mut K,
) -> Result<(u8, Vec<u8>), Fail> {
    let words = strings(alloc, words)?;
    let mut src = MemSource::new(input, outside.piece.max(1), fails(alloc, outside.read)?);
    let mut err = MemSink::new(alloc, fails(alloc, outside.line)?);
    let status = chanmap(alloc, &words, &mut src, out, &mut err);
    Ok((status, copied(alloc, err.taken())?))
}

fn run(alloc: Global, words: &[&str], input: Vec<u8>, outside: Outside) -> Result<Ran, Fail> {
    let mut out = MemSink::new(alloc, fails(alloc, outside.write)?);
    let (status, err) = run_into(alloc, words, input, outside, &mut out)?;
    Ok(Ran {
        status,
        out: copied(alloc, out.taken())?,
        err,
    })
}

fn expect(rt: &impl Abort, ran: &Ran, status: u8, out: &[u8], line: &str) {
    assert_eq!(rt; ran.status, status);
    assert_eq!(rt; ran.out.as_slice(), out);
    assert_eq!(rt; ran.err.as_slice(), line.as_bytes());
}

#[test]
fn silence(rt: HostRuntime) -> Result<(), Fail> {
    let alloc = rt.alloc();
    let ran = run(alloc, &["serial"], capture(alloc, TWO_TICKS)?, NO_FAULT)?;
    assert_eq!(rt; ran.out.len(), 157);
    expect(&rt, &ran, 0, &hex(alloc, SILENCE_RESULT)?, "");
    Ok(())
}

#[test]
fn no_work(rt: HostRuntime) -> Result<(), Fail> {
    let alloc = rt.alloc();
    let ran = run(alloc, &["serial"], capture(alloc, "45 00000000")?, NO_FAULT)?;
    expect(
        &rt,
        &ran,
        0,
        &hex(alloc, "43484d524553310a 45 00000000")?,
        "",
    );
    Ok(())
}

#[test]
fn mid_tick_activation(rt: HostRuntime) -> Result<(), Fail> {
    let alloc = rt.alloc();
    let input = capture(alloc, MID_TICK)?;
    assert_eq!(rt; input.len(), 132);
    let ran = run(alloc, &["serial"], input, NO_FAULT)?;
    assert_eq!(rt; ran.out.len(), 311);
    expect(&rt, &ran, 0, &hex(alloc, MID_TICK_RESULT)?, "");
    Ok(())
}

/// A block is found where the row of the packet names its input, whatever stands at other inputs.
#[test]
fn two_inputs(rt: HostRuntime) -> Result<(), Fail> {
    let alloc = rt.alloc();
    let ran = run(alloc, &["serial"], hex(alloc, TWO_INPUTS)?, NO_FAULT)?;
    expect(&rt, &ran, 0, &hex(alloc, TWO_INPUTS_RESULT)?, "");
    Ok(())
}

/// Packets of the input `a`, which has two channels, and what the first packets of `x` in L16 and
/// `y` in L24 hold, which carry both channels: the bits of `a`, the records, whether a block is
/// found, and the payloads of `x` and `y`.
const PACKETS: [(u8, &str, bool, &str, &str); 15] = [
    // l16_to_l24
    (
        16,
        "50 00000015 00 8060 0000 00000000 00000063 1234 fffe 8000 0001",
        true,
        "1234 fffe 8000 0001",
        "123400 fffe00 800000 000100",
    ),
    // l24_to_l16
    (
        24,
        "50 00000019 00 8060 0000 00000000 00000063 ffffff 0000ff 000000 7fffff",
        true,
        "ffff 0000 0000 7fff",
        "ffffff 0000ff 000000 7fffff",
    ),
    // l24_lowest_to_l16
    (
        24,
        "50 00000019 00 8060 0000 00000000 00000063 800000 8000ff 000000 000001",
        true,
        "8000 8000 0000 0000",
        "800000 8000ff 000000 000001",
    ),
    // rtp_heads: two CSRCs, an extension, and padding of 3, 7, 0 and 8 bytes; and its first 11, 19
    // and 27 bytes
    (
        16,
        "50 00000024 00 b260 0001 00000000 0000000a 0000000b 0000000c bede0001 00000000
            12345678 000003",
        true,
        "1234 5678 0000 0000",
        "123400 567800 000000 000000",
    ),
    (
        16,
        "50 00000024 00 b260 0001 00000000 0000000a 0000000b 0000000c bede0001 00000000
            12345678 000007",
        false,
        "0000 0000 0000 0000",
        "000000 000000 000000 000000",
    ),
    (
        16,
        "50 00000024 00 b260 0001 00000000 0000000a 0000000b 0000000c bede0001 00000000
            12345678 000000",
        false,
        "0000 0000 0000 0000",
        "000000 000000 000000 000000",
    ),
    (
        16,
        "50 00000024 00 b260 0001 00000000 0000000a 0000000b 0000000c bede0001 00000000
            12345678 000008",
        false,
        "0000 0000 0000 0000",
        "000000 000000 000000 000000",
    ),
    (
        16,
        "50 0000000c 00 b260 0001 00000000 000000
            50 00000014 00 b260 0001 00000000 0000000a 0000000b 000000
            50 0000001c 00 b260 0001 00000000 0000000a 0000000b 0000000c bede0001 000000",
        false,
        "0000 0000 0000 0000",
        "000000 000000 000000 000000",
    ),
    // no bytes, another payload type, and part of a frame
    (
        16,
        "50 00000001 00
            50 00000015 00 8061 0000 00000000 00000063 1111 2222 3333 4444
            50 00000013 00 8060 0000 00000000 00000063 1111 2222 3333",
        false,
        "0000 0000 0000 0000",
        "000000 000000 000000 000000",
    ),
    // at the end of the session, and far before its begin
    (
        16,
        "50 00000015 00 8060 0000 00000002 00000063 1111 2222 3333 4444
            50 00000015 00 8060 0000 80000000 00000063 1111 2222 3333 4444",
        false,
        "0000 0000 0000 0000",
        "000000 000000 000000 000000",
    ),
    // twice the same frames, the first of which stay
    (
        16,
        "50 00000015 00 8060 0000 00000000 00000063 1111 2222 3333 4444
            50 00000015 00 8060 0000 00000000 00000063 5555 6666 7777 8888",
        true,
        "1111 2222 3333 4444",
        "111100 222200 333300 444400",
    ),
    // one frame, and then both
    (
        16,
        "50 00000011 00 8060 0000 00000001 00000063 5555 6666
            50 00000015 00 8060 0000 00000000 00000063 1111 2222 3333 4444",
        true,
        "1111 2222 5555 6666",
        "111100 222200 555500 666600",
    ),
    // four frames, of which the last two are the session's
    (
        16,
        "50 0000001d 00 8060 0000 fffffffe 00000063 0101 0202 0303 0404 0505 0606 0707 0808",
        true,
        "0505 0606 0707 0808",
        "050500 060600 070700 080800",
    ),
    // four frames, of which the first two are the session's
    (
        16,
        "50 0000001d 00 80e0 ffff 00000000 00000063 0101 0202 0303 0404 0505 0606 0707 0808",
        true,
        "0101 0202 0303 0404",
        "010100 020200 030300 040400",
    ),
    // a frame is missing
    (
        16,
        "50 00000011 00 8060 0000 00000001 00000063 5555 6666",
        true,
        "0000 0000 5555 6666",
        "000000 000000 555500 666600",
    ),
];

/// A capture of these packets with a tick of claims.
fn packets_alone(alloc: Global, bits: u8, packets: &str) -> Result<Vec<u8>, Fail> {
    let mut made = hex(
        alloc,
        "43484d434150310a 44 00000034 0000bb80 0002 0000000000000000 01 01 02 01 61 02",
    )?;
    made.push(bits)?;
    push_hex(
        &mut made,
        "60 01 01 01 78 02 10 60 00000001 ff 0000 0001 01 79 02 18 61 00000002 ff 0000 0001",
    )?;
    push_hex(&mut made, packets)?;
    push_hex(&mut made, "54 00000004 00000002 45 00000000")?;
    Ok(made)
}

/// The result of a tick with these payloads.
fn tick_result(alloc: Global, found: bool, x: &str, y: &str) -> Result<Vec<u8>, Fail> {
    let mut made = hex(alloc, "43484d524553310a 43 0000001d 0000000000000000")?;
    made.push(u8::from(found))?;
    push_hex(&mut made, "8060 0000 00000000 00000001")?;
    push_hex(&mut made, x)?;
    push_hex(&mut made, "43 00000021 0000000000000001")?;
    made.push(u8::from(found))?;
    push_hex(&mut made, "8061 0000 00000000 00000002")?;
    push_hex(&mut made, y)?;
    push_hex(&mut made, "45 00000000")?;
    Ok(made)
}

#[test]
fn packets(rt: HostRuntime) -> Result<(), Fail> {
    let alloc = rt.alloc();
    for (bits, packets, found, x, y) in PACKETS {
        let ran = run(
            alloc,
            &["serial"],
            packets_alone(alloc, bits, packets)?,
            NO_FAULT,
        )?;
        expect(&rt, &ran, 0, &tick_result(alloc, found, x, y)?, "");
    }
    Ok(())
}

/// The first tick is 2147483647, and the timestamps wrap after it. `x` carries both channels of
/// `a`.
const WRAPS: &str = "43484d434150310a 44 00000026
    0000bb80 0002 000000007fffffff 01 01 01
    01 61 02 10 60 01 01
    01 78 02 10 60 00000001 ff 0000 0001
    50 00000015 00 8060 0000 fffffffe 00000063 1111 2222 3333 4444
    50 00000015 00 8060 0001 00000000 00000063 5555 6666 7777 8888
    54 00000004 00000002 45 00000000";

const WRAPS_RESULT: &str = "43484d524553310a
    43 0000001d 0000000000000000 01 8060 ffff fffffffe 00000001 1111 2222 3333 4444
    43 0000001d 0000000000000001 01 8060 0000 00000000 00000001 5555 6666 7777 8888
    45 00000000";

#[test]
fn timestamp_wraps(rt: HostRuntime) -> Result<(), Fail> {
    let alloc = rt.alloc();
    let ran = run(alloc, &["serial"], hex(alloc, WRAPS)?, NO_FAULT)?;
    expect(&rt, &ran, 0, &hex(alloc, WRAPS_RESULT)?, "");
    Ok(())
}

/// With ample memory no run is without.
#[test]
fn always_no_memory(rt: HostRuntime) -> Result<(), Fail> {
    let alloc = rt.alloc();
    for records in ["45 00000000", TWO_TICKS, MID_TICK, ""] {
        let ran = run(alloc, &["serial"], capture(alloc, records)?, NO_FAULT)?;
        assert!(rt; ran.status != 12);
    }
    Ok(())
}

/// A source that hands over pieces of this length, and fails at this call.
fn failing_read(alloc: Global, piece: usize, call: u64) -> Result<Ran, Fail> {
    let outside = Outside {
        piece,
        read: Some(call),
        ..NO_FAULT
    };
    run(alloc, &["serial"], capture(alloc, MID_TICK)?, outside)
}

/// The source fails at each of the calls that it gets, the last of which finds its end.
fn failing_source(rt: &impl Abort, alloc: Global, piece: usize, calls: u64) -> Result<(), Fail> {
    for call in 0..calls {
        let ran = failing_read(alloc, piece, call)?;
        expect(rt, &ran, 3, &[], "read fault\n");
    }
    let ran = failing_read(alloc, piece, calls)?;
    expect(rt, &ran, 0, &hex(alloc, MID_TICK_RESULT)?, "");
    Ok(())
}

#[test]
fn failing_source_and_sink(rt: HostRuntime) -> Result<(), Fail> {
    let alloc = rt.alloc();
    failing_source(&rt, alloc, 1, 133)?;
    failing_source(&rt, alloc, 7, 20)?;
    failing_source(&rt, alloc, 64, 4)?;
    let outside = Outside {
        write: Some(0),
        ..NO_FAULT
    };
    let ran = run(alloc, &["serial"], capture(alloc, MID_TICK)?, outside)?;
    expect(&rt, &ran, 4, &[], "write fault\n");
    let outside = Outside {
        write: Some(1),
        ..NO_FAULT
    };
    let ran = run(alloc, &["serial"], capture(alloc, MID_TICK)?, outside)?;
    expect(&rt, &ran, 0, &hex(alloc, MID_TICK_RESULT)?, "");
    let outside = Outside {
        line: Some(0),
        ..NO_FAULT
    };
    expect(&rt, &run(alloc, &[], Vec::new(alloc), outside)?, 2, &[], "");
    Ok(())
}

/// A sink with room for the front of the result takes it.
#[test]
fn full_sink(rt: HostRuntime) -> Result<(), Fail> {
    let alloc = rt.alloc();
    let mut room = [0u8; 100];
    let mut out = StdSink::new(room.as_mut_slice());
    let input = capture(alloc, MID_TICK)?;
    let (status, err) = run_into(alloc, &["serial"], input, NO_FAULT, &mut out)?;
    assert_eq!(rt; status, 4);
    let result = hex(alloc, MID_TICK_RESULT)?;
    assert_eq!(rt; Some(room.as_slice()), result.get(..100));
    assert_eq!(rt; err.as_slice(), b"write fault\n".as_slice());
    Ok(())
}

#[test]
fn bad_words_and_long_input(rt: HostRuntime) -> Result<(), Fail> {
    let alloc = rt.alloc();
    let usage = "usage: chanmap serial | sdp | from-sdp\n";
    for words in [
        [].as_slice(),
        &["play"],
        &["serial", "serial"],
        &["serial "],
        &["sdp", "sdp"],
        &["from-sdp"],
        &["from-sdp", "0"],
        &["from-sdp", "241"],
        &["from-sdp", "48", "48"],
    ] {
        let ran = run(alloc, words, capture(alloc, TWO_TICKS)?, NO_FAULT)?;
        expect(&rt, &ran, 2, &[], usage);
    }
    // One byte more than the most; that the most are read is said by the clauses.
    let long = vec![in alloc; 0u8; MOST + 1]?;
    let outside = Outside {
        piece: 65536,
        ..NO_FAULT
    };
    let ran = run(alloc, &["serial"], long, outside)?;
    expect(&rt, &ran, 7, &[], "too long\n");
    Ok(())
}
