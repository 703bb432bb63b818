//! Faults of results, as tables of bytes, and results by hand in both formats.

use crate::CaptureKind::{Body, Cut, Magic, Tag, Trailing};
use crate::tests::{add_hex, hex};
use crate::{CaptureFault, CaptureKind, Format, ResultFile, ResultItem, SaidRecord, read_result};
use channel_json::device_of;
use io_caps::Or;
use std::alloc::Global;
use std::test::Fail;

/// The magic of a result of the first format.
const ONE: &str = "43484d524553310a";

/// The magic of a result of the second format.
const TWO: &str = "43484d524553320a";

/// Three claims, an accepted call and its reply, and three claims more.
const RECORDS: &str = "
    43 0000001d 0000000000000000 00 8060 0000 00000000 00000001 0000000000000000
    43 00000021 0000000000000001 00 8061 0000 00000000 00000002 000000000000000000000000
    43 0000001d 0000000000000002 00 8060 0001 00000002 00000001 0000000000000000
    48 00000025 0000000000000003 00 0000000000000001 0000000000000002
    00 02 00 01 000000 01 01 000001
    52 00000023 00 0000000000000000 0000000000000003 01 00 0000000000000001 0000000000000002
    43 00000021 0000000000000003 00 8061 0001 00000002 00000002 000000000000000000000000
    43 0000001d 0000000000000004 01 8060 0002 00000004 00000001 1111000033330000
    43 00000021 0000000000000005 01 8061 0002 00000004 00000002 222200000000444400000000
    45 00000000";

/// Where the records of `RECORDS` stand, after a magic.
const PLACES: [u64; 9] = [8, 42, 80, 114, 156, 196, 234, 268, 306];

/// A device with an input of two channels and two outputs of two.
const DEVICE: &str = r#"{"rate":48000,"frames":2,"inputs":[
    {"id":"a","channels":[{"label":"1"},{"label":"2"}],"width":16,"payload_type":96}],
    "outputs":[
    {"id":"x","channels":[{"label":"1"},{"label":"2"}],"width":16,"payload_type":96,"ssrc":1},
    {"id":"y","channels":[{"label":"1"},{"label":"2"}],"width":24,"payload_type":97,"ssrc":2}]}"#;

/// The fault of bytes from a place on, as a result of the device.
fn fault_of(
    alloc: Global,
    format: Format,
    bytes: &[u8],
    start: usize,
) -> Result<Option<CaptureFault>, Fail> {
    let setup = device_of(alloc, DEVICE.as_bytes()).ok().ok_or("a device")?;
    if bytes.len() < start {
        return Err(Fail::from("a place in the bytes"));
    }
    match read_result(alloc, bytes, start, &setup.device, format) {
        Ok(_) => Ok(None),
        Err(Or::Fault(fault)) => Ok(Some(fault)),
        Err(Or::NoMemory) => Err(Fail::from("no memory")),
    }
}

/// A record and what stands after it, the place of the fault after the magic, and the fault.
type Faults<'a> = &'a [(&'a str, u64, CaptureKind)];

/// The first row that has another fault after this magic.
fn wrong(
    alloc: Global,
    format: Format,
    magic: &str,
    rows: Faults<'_>,
) -> Result<Option<usize>, Fail> {
    for (number, row) in rows.iter().enumerate() {
        let mut bytes = hex(alloc, magic)?;
        add_hex(&mut bytes, row.0)?;
        let at = row.1.wrapping_add(8);
        let fault = CaptureFault { at, kind: row.2 };
        if fault_of(alloc, format, &bytes, 0)? != Some(fault) {
            return Ok(Some(number));
        }
    }
    Ok(None)
}

/// Faults that are the same in both formats.
const BOTH: [(&str, u64, CaptureKind); 36] = [
    ("", 0, Cut),
    ("45", 0, Cut),
    ("45 000000", 0, Cut),
    ("78 00000001", 0, Cut),
    ("78 00000000", 0, Tag),
    // Tags of a capture.
    ("44 00000000", 0, Tag),
    ("4a 00000002 7b7d", 0, Tag),
    ("47 00000001 00", 0, Tag),
    ("50 00000001 00", 0, Tag),
    ("54 00000004 00000000", 0, Tag),
    ("45 00000001 00", 0, Body),
    // A byte after the last record.
    ("45 00000000 45 00000000", 5, Trailing),
    // A claim without a whole number, without its flag, and with a flag that is none.
    ("43 00000007 00000000000000", 0, Body),
    ("43 00000008 0000000000000000", 0, Body),
    ("43 00000009 0000000000000000 02", 0, Body),
    ("43 00000009 0000000000000000 01", 14, Cut),
    ("43 00000009 0000000000000000 01 45 00000001 00", 14, Body),
    // Clients that are none.
    (
        "52 00000012 10 0000000000000000 0000000000000003 00",
        0,
        Body,
    ),
    (
        "52 00000012 ff 0000000000000000 0000000000000003 00",
        0,
        Body,
    ),
    (
        "52 00000012 0f 0000000000000000 0000000000000003 00",
        23,
        Cut,
    ),
    // A form that is none, codes that are none, and a reply with a byte less and a byte more.
    ("52 00000011 00 0000000000000000 0000000000000003", 0, Body),
    (
        "52 00000012 00 0000000000000000 0000000000000003 02",
        0,
        Body,
    ),
    (
        "52 00000012 00 0000000000000000 0000000000000003 01",
        0,
        Body,
    ),
    (
        "52 00000013 00 0000000000000000 0000000000000003 01 05",
        0,
        Body,
    ),
    (
        "52 00000013 00 0000000000000000 0000000000000003 01 17",
        0,
        Body,
    ),
    (
        "52 0000001a 00 0000000000000000 0000000000000003 01 02 00000000000000",
        0,
        Body,
    ),
    (
        "52 00000014 00 0000000000000000 0000000000000003 01 10 00",
        0,
        Body,
    ),
    // Checks that are none.
    (
        "52 00000016 00 0000000000000000 0000000000000003 01 14 00 00 00",
        0,
        Body,
    ),
    (
        "52 00000016 00 0000000000000000 0000000000000003 01 14 00 06 00",
        0,
        Body,
    ),
    (
        "52 00000016 00 0000000000000000 0000000000000003 01 14 ff 05 ff",
        27,
        Cut,
    ),
    // The active map: a byte that says neither, a cell too few and too many, and a bad cell.
    (
        "52 0000001c 00 0000000000000000 0000000000000003 01 03 02 ff00ff00 ff00ff00",
        0,
        Body,
    ),
    (
        "52 0000001a 00 0000000000000000 0000000000000003 01 03 00 ff00ff00 ff00",
        0,
        Body,
    ),
    (
        "52 0000001e 00 0000000000000000 0000000000000003 01 03 00 ff00ff00 ff00ff00 ff00",
        0,
        Body,
    ),
    (
        "52 0000001c 00 0000000000000000 0000000000000003 01 03 00 ff00ff00 ff00ff01",
        0,
        Body,
    ),
    // Pending activations that are not there, and two faulty records.
    (
        "52 00000014 00 0000000000000000 0000000000000003 01 04 01",
        0,
        Body,
    ),
    ("43 00000000 78 00000000", 0, Body),
];

#[test]
fn faults_of_both_formats(rt: HostRuntime) -> Result<(), Fail> {
    assert_eq!(rt; wrong(rt.alloc(), Format::One, ONE, &BOTH)?, None);
    assert_eq!(rt; wrong(rt.alloc(), Format::Two, TWO, &BOTH)?, None);
    Ok(())
}

/// Calls of the first format.
const CALLS: [(&str, u64, CaptureKind); 10] = [
    ("48 00000000", 0, Body),
    (
        "48 0000001a 0000000000000003 10 0000000000000001 0000000000000002 04",
        0,
        Body,
    ),
    (
        "48 0000001a 0000000000000003 0f 0000000000000001 0000000000000002 04",
        31,
        Cut,
    ),
    (
        "48 0000001a 0000000000000003 00 0000000000000001 0000000000000002 06",
        0,
        Body,
    ),
    (
        "48 00000019 0000000000000003 00 0000000000000001 0000000000000002",
        0,
        Body,
    ),
    (
        "48 0000001b 0000000000000003 00 0000000000000001 0000000000000002 04 00",
        0,
        Body,
    ),
    // A time that is none, outputs that do not rise, and an unrouted cell with a channel.
    (
        "48 00000027 0000000000000003 00 0000000000000001 0000000000000002
        01 0000010000000000 00000000 00",
        0,
        Body,
    ),
    (
        "48 0000001f 0000000000000003 00 0000000000000001 0000000000000002 00 02 0100 0000",
        0,
        Body,
    ),
    (
        "48 00000020 0000000000000003 00 0000000000000001 0000000000000002 00 01 00 01 00ff01",
        0,
        Body,
    ),
    // An offset, for which the first format has no field.
    (
        "48 0000001c 0000000000000003 00 0000000000000001 0000000000000002 0001 04",
        0,
        Body,
    ),
];

/// Calls and replies of the second format: without an offset, and with one.
const OFFSETS: [(&str, u64, CaptureKind); 5] = [
    (
        "48 0000001a 0000000000000003 00 0000000000000001 0000000000000002 04",
        0,
        Body,
    ),
    (
        "48 0000001c 0000000000000003 00 0000000000000001 0000000000000002 ffff 04",
        33,
        Cut,
    ),
    (
        "48 0000001c 0000000000000003 10 0000000000000001 0000000000000002 ffff 04",
        0,
        Body,
    ),
    (
        "52 00000023 00 0000000000000000 0000000000000003 01 00 0000000000000001 0000000000000002",
        0,
        Body,
    ),
    (
        "52 00000025 00 0000000000000000 0000000000000003 01 00 0000000000000001 0000000000000002
        0001",
        42,
        Cut,
    ),
];

#[test]
fn faults_of_one_format(rt: HostRuntime) -> Result<(), Fail> {
    assert_eq!(rt; wrong(rt.alloc(), Format::One, ONE, &CALLS)?, None);
    assert_eq!(rt; wrong(rt.alloc(), Format::Two, TWO, &OFFSETS)?, None);
    Ok(())
}

/// The place of the record in which a place stands.
fn record_at(place: usize) -> u64 {
    let mut found = 0;
    for at in PLACES {
        if at <= place as u64 {
            found = at;
        }
    }
    found
}

/// The bytes of `RECORDS` after three bytes and the magic of the first format.
fn stored(alloc: Global) -> Result<Vec<u8>, Fail> {
    let mut bytes = hex(alloc, "ffffff")?;
    add_hex(&mut bytes, ONE)?;
    add_hex(&mut bytes, RECORDS)?;
    Ok(bytes)
}

#[test]
fn results_cut_anywhere(rt: HostRuntime) -> Result<(), Fail> {
    let bytes = stored(rt.alloc())?;
    let mut after = hex(rt.alloc(), "")?;
    after.extend_from_slice(&bytes)?;
    after.push(0)?;
    for len in 3..after.len() {
        let kind = if len < 11 { Magic } else { Cut };
        let at = record_at(len.wrapping_sub(3)).wrapping_add(3);
        let fault = if len == bytes.len() {
            None
        } else {
            Some(CaptureFault { at, kind })
        };
        assert!(rt; fault_of(rt.alloc(), Format::One, &after[..len], 3)? == fault);
    }
    let kind = Trailing;
    let fault = Some(CaptureFault { at: 314, kind });
    assert!(rt; fault_of(rt.alloc(), Format::One, &after, 3)? == fault);
    Ok(())
}

/// The bytes with another one at a place.
fn with_byte(alloc: Global, bytes: &[u8], place: u64, byte: u8) -> Result<Vec<u8>, Fail> {
    let mut made = Vec::new(alloc);
    for (at, old) in bytes.iter().enumerate() {
        made.push(if at as u64 == place { byte } else { *old })?;
    }
    Ok(made)
}

/// Whether another tag makes this of each record of the stored result.
fn retagged(alloc: Global, tag: u8, kind: CaptureKind) -> Result<bool, Fail> {
    let bytes = stored(alloc)?;
    for place in PLACES {
        let at = place.wrapping_add(3);
        let changed = with_byte(alloc, &bytes, at, tag)?;
        if fault_of(alloc, Format::One, &changed, 3)? != Some(CaptureFault { at, kind }) {
            return Ok(false);
        }
    }
    Ok(true)
}

#[test]
fn other_tags_of_results(rt: HostRuntime) -> Result<(), Fail> {
    assert!(rt; retagged(rt.alloc(), 0x78, Tag)?);
    assert!(rt; retagged(rt.alloc(), 0x50, Tag)?);
    assert!(rt; retagged(rt.alloc(), 0x44, Tag)?);
    Ok(())
}

#[test]
fn other_format(rt: HostRuntime) -> Result<(), Fail> {
    let bytes = stored(rt.alloc())?;
    let kind = Magic;
    let fault = Some(CaptureFault { at: 3, kind });
    assert!(rt; fault_of(rt.alloc(), Format::Two, &bytes, 3)? == fault);
    let fault = Some(CaptureFault { at: 314, kind });
    assert!(rt; fault_of(rt.alloc(), Format::One, &bytes, 314)? == fault);
    Ok(())
}

/// Whether the records stand at `PLACES`, moved by three bytes.
fn are_placed(file: &ResultFile<'_>) -> bool {
    if file.len() != PLACES.len() {
        return false;
    }
    for (number, place) in PLACES.iter().enumerate() {
        match file.get(number) {
            Some((at, _)) if *at == place.wrapping_add(3) => {}
            _ => return false,
        }
    }
    true
}

/// Whether a record is a claim with this number, this flag, and a packet of so many bytes.
fn is_claim(item: Option<&(u64, ResultItem<'_>)>, k: u64, found: bool, len: usize) -> bool {
    match item {
        Some((_, ResultItem::Claim(claim))) => {
            claim.k == k
                && claim.found.as_slice() == [found].as_slice()
                && claim.packet.as_slice().len() == len
        }
        _ => false,
    }
}

/// Reads the records of a result of the device.
fn read<'a>(
    alloc: Global,
    format: Format,
    bytes: &'a [u8],
    start: usize,
) -> Result<ResultFile<'a>, Fail> {
    let setup = device_of(alloc, DEVICE.as_bytes()).ok().ok_or("a device")?;
    if bytes.len() < start {
        return Err(Fail::from("a place in the bytes"));
    }
    match read_result(alloc, bytes, start, &setup.device, format) {
        Ok(file) => Ok(file),
        Err(_) => Err(Fail::from("a result")),
    }
}

#[test]
fn records_read(rt: HostRuntime) -> Result<(), Fail> {
    let bytes = stored(rt.alloc())?;
    let file = read(rt.alloc(), Format::One, &bytes, 3)?;
    assert!(rt; are_placed(&file));
    assert!(rt; is_claim(file.get(0), 0, false, 20));
    assert!(rt; is_claim(file.get(7), 5, true, 24));
    assert!(rt; matches!(file.get(8), Some((_, ResultItem::End))));
    Ok(())
}

/// Whether a record is a call, at this number of claims, of this client, from this moment on.
fn is_call(item: Option<&(u64, ResultItem<'_>)>, at: u64, of: u8, tick: u64, offset: u16) -> bool {
    match item {
        Some((_, ResultItem::Call(call))) => {
            call.at == at && call.client == of && call.tick == tick && call.offset == offset
        }
        _ => false,
    }
}

/// Whether a record is a response of these bytes.
fn is_response(item: Option<&(u64, ResultItem<'_>)>, of: u8, text: &[u8]) -> bool {
    match item {
        Some((_, ResultItem::Reply(reply))) => match &reply.said {
            SaidRecord::Http(bytes) => reply.client == of && bytes.as_slice() == text,
            SaidRecord::Plain(_) => false,
        },
        _ => false,
    }
}

#[test]
fn moments_read(rt: HostRuntime) -> Result<(), Fail> {
    let bytes = stored(rt.alloc())?;
    let file = read(rt.alloc(), Format::One, &bytes, 3)?;
    assert!(rt; is_call(file.get(3), 3, 0, 2, 0));
    let mut bytes = hex(rt.alloc(), TWO)?;
    add_hex(
        &mut bytes,
        "48 0000001c 0000000000000003 0f 0000000000000001 0000000000000002 ffff 04
        52 00000016 0f 0000000000000001 0000000000000003 00 48545450
        45 00000000",
    )?;
    let file = read(rt.alloc(), Format::Two, &bytes, 0)?;
    assert!(rt; is_call(file.get(0), 3, 15, 2, 65535));
    assert!(rt; is_response(file.get(1), 15, b"HTTP"));
    Ok(())
}

/// Replies of each kind in the second format, each of which is read.
const REPLIES: &str = "
    52 00000025 00 0000000000000000 0000000000000000 01 00 0000000000000001 0000000000000001 0001
    52 00000025 01 0000000000000000 0000000000000000 01 01 0000000000000002 0000000000000001 0001
    52 0000001b 02 0000000000000000 0000000000000000 01 02 0000000000000002
    52 0000001c 03 0000000000000000 0000000000000000 01 03 00 ff000001 ff00ff00
    52 0000002f 04 0000000000000000 0000000000000000 01 03
    01 0000000000000001 00 0000000000000001 0001 ff000001 ff00ff00
    52 00000014 05 0000000000000000 0000000000000000 01 04 00
    52 00000034 06 0000000000000000 0000000000000000 01 04
    01 0000000000000001 01 0000000000000000 0000f424 0000000000000001 0001 00
    52 00000013 07 0000000000000000 0000000000000000 01 10
    52 00000014 08 0000000000000000 0000000000000000 01 11 02
    52 00000015 09 0000000000000000 0000000000000000 01 12 01 09
    52 00000014 0a 0000000000000000 0000000000000000 01 13 01
    52 00000016 0b 0000000000000000 0000000000000000 01 14 01 05 ff
    52 00000013 0c 0000000000000000 0000000000000000 01 15
    52 0000001b 0d 0000000000000000 0000000000000000 01 16 0000000000000102
    45 00000000";

#[test]
fn replies_read(rt: HostRuntime) -> Result<(), Fail> {
    let mut bytes = hex(rt.alloc(), TWO)?;
    add_hex(&mut bytes, REPLIES)?;
    let file = read(rt.alloc(), Format::Two, &bytes, 0)?;
    assert_eq!(rt; file.len(), 15);
    Ok(())
}
