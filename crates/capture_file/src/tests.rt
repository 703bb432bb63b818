//! Faults of captures and replies of results, as tables of bytes, and a result by hand.

ghost use Rattle.std.specs.Prelude.{◌≡◌, [], ◌∷◌, IfOk, length};
ghost use Rattle.io_caps.specs.Device.{IsDevice};
ghost use Rattle.io_caps.specs.declared.device.DeviceParts.{DeviceParts};
ghost use Rattle.book_words.specs.History.{claim_item, reply_item};
ghost use Rattle.book_words.specs.declared.history.Said.TheVariants.{Http};
ghost use Rattle.capture_file.specs.Parts.{AreLeft};
ghost use Rattle.capture_file.specs.Result.{FitsHistory};
ghost use Rattle.capture_file.specs.declared.format.Format.TheVariants.{One};

use crate::CaptureKind::{Body, Cut, Device, Magic, Order, Tag, Work};
use crate::replies::{push_plain_reply, push_refusal};
use crate::result::reply_body;
use crate::{
    Activation, ActiveView, CLAIM_HEAD_LEN, CaptureFault, CaptureKind, ClaimItem, ClaimItems,
    ClaimRecord, Format, History, Item, Journal, JournalCall, RecordBytes, Refusal, Reply,
    ReplyItem, ReplyItems, Request, ResultItem, Said, Stamp, When, end_record, read_capture,
    result_magic, write_between, write_claim_front, write_result,
};
use io_caps::{Bytes, Flags, NoMemory, Or, TryCopy};
use map_entry::{Cell, Row, RowFault, Rows};
use std::alloc::Global;
use std::test::Fail;
use tai_time::Tai;

/// A place and what stands from there on, and the fault.
pub(crate) type Faults<'a> = &'a [(&'a str, u64, CaptureKind)];

/// The magic, and a device with an input of two channels and two outputs of two.
pub(crate) const FRONT: &str = "43484d434150310a
    44 00000034 0000bb80 0002 0000000000000000 01 01 02
    01 61 02 10 60 01 01
    01 78 02 10 60 00000001 ff ff00 ff00
    01 79 02 18 61 00000002 ff ff00 ff00";

/// A packet, claims, and an activation at once between two claims of one tick.
pub(crate) const MID_TICK: &str = "50 00000015 00 8060 0000 00000004 00000063 1111 2222 3333 4444
    54 00000004 00000003
    41 0000000d 00 00 02 00 01 000000 01 01 000001
    54 00000004 00000003
    45 00000000";

/// Where the records of `FRONT` and `MID_TICK` stand.
const PLACES: [u64; 6] = [8, 65, 91, 100, 118, 127];

/// Adds the bytes of hexadecimal digits. Other characters part them.
pub(crate) fn add_hex(out: &mut Vec<u8>, digits: &str) -> Result<(), NoMemory> {
    let mut high: Option<u8> = None;
    for digit in digits.bytes() {
        let value = match digit {
            b'0'..=b'9' => digit - b'0',
            b'a'..=b'f' => digit - b'a' + 10,
            _ => continue,
        };
        match high {
            None => high = Some(value),
            Some(first) => {
                out.push(first.wrapping_mul(16).wrapping_add(value))?;
                high = None;
            }
        }
    }
    Ok(())
}

pub(crate) fn hex(alloc: Global, digits: &str) -> Result<Vec<u8>, NoMemory> {
    let mut made = Vec::new(alloc);
    add_hex(&mut made, digits)?;
    Ok(made)
}

/// The fault of these bytes.
fn fault_of(alloc: Global, bytes: &[u8]) -> Result<Option<CaptureFault>, Fail> {
    match read_capture(alloc, bytes) {
        Ok(_) => Ok(None),
        Err(Or::Fault(fault)) => Ok(Some(fault)),
        Err(Or::NoMemory) => Err(Fail::from("no memory")),
    }
}

/// The first row that has another fault after these digits, where places count from `from`.
pub(crate) fn wrong(
    alloc: Global,
    front: &str,
    from: u64,
    rows: Faults<'_>,
) -> Result<Option<usize>, Fail> {
    for (number, row) in rows.iter().enumerate() {
        let mut bytes = hex(alloc, front)?;
        add_hex(&mut bytes, row.0)?;
        let at = row.1.wrapping_add(from);
        if fault_of(alloc, &bytes)? != Some(CaptureFault { at, kind: row.2 }) {
            return Ok(Some(number));
        }
    }
    Ok(None)
}

const FIRST: [(&str, u64, CaptureKind); 18] = [
    ("", 0, Magic),
    ("43484d43415031", 0, Magic),
    ("43484d524553310a 45 00000000", 0, Magic),
    ("43484d434150310a", 8, Cut),
    ("43484d434150310a 44", 8, Cut),
    ("43484d434150310a 44 ffffffff", 8, Cut),
    // An unknown tag at a record that is cut.
    ("43484d434150310a 78 00000001", 8, Cut),
    ("43484d434150310a 78 00000000", 8, Tag),
    ("43484d434150310a 43 00000000", 8, Tag),
    ("43484d434150310a 50 00000001 00", 8, Order),
    ("43484d434150310a 51 00000001 00", 8, Order),
    ("43484d434150310a 41 00000002 00 04", 8, Order),
    ("43484d434150310a 54 00000000", 8, Order),
    ("43484d434150310a 45 00000000", 8, Order),
    ("43484d434150310a 4a 00000002 7b7d", 8, Device),
    ("43484d434150310a 44 00000000", 8, Device),
    // A device without outputs, and one whose output allows nothing.
    (
        "43484d434150310a 44 00000011 0000bb80 0002 0000000000000000 01 00 00 45 00000000",
        8,
        Device,
    ),
    (
        "43484d434150310a 44 0000001d 0000bb80 0002 0000000000000000 01 00 01
        01 78 01 10 60 00000001 00 ff00 45 00000000",
        8,
        Device,
    ),
];

#[test]
fn faults_of_the_first_record(rt: HostRuntime) -> Result<(), Fail> {
    assert_eq!(rt; wrong(rt.alloc(), "", 0, &FIRST)?, None);
    Ok(())
}

/// Device records with one field out of range, or one byte less or more.
const DEVICES: [(&str, u64, CaptureKind); 9] = [
    (
        "44 0000001e 0000bb80 0002 0000000000000000 01 00 01 01 78 01 10 60 00000001 ff ff00 00",
        0,
        Device,
    ),
    (
        "44 0000001c 0000bb80 0002 0000000000000000 01 00 01 01 78 01 10 60 00000001 ff ff",
        0,
        Device,
    ),
    (
        "44 0000001d 0000bb81 0002 0000000000000000 01 00 01 01 78 01 10 60 00000001 ff ff00",
        0,
        Device,
    ),
    (
        "44 0000001d 0000bb80 0000 0000000000000000 01 00 01 01 78 01 10 60 00000001 ff ff00",
        0,
        Device,
    ),
    (
        "44 0000001d 0000bb80 0002 ffffffffffffffff 01 00 01 01 78 01 10 60 00000001 ff ff00",
        0,
        Device,
    ),
    (
        "44 0000001d 0000bb80 0002 0000000000000000 41 00 01 01 78 01 10 60 00000001 ff ff00",
        0,
        Device,
    ),
    (
        "44 0000001d 0000bb80 0002 0000000000000000 01 00 01 01 78 01 11 60 00000001 ff ff00",
        0,
        Device,
    ),
    (
        "44 0000001d 0000bb80 0002 0000000000000000 01 00 01 01 78 01 10 60 00000001 ff ff01",
        0,
        Device,
    ),
    // A base cell of an input that is not there.
    (
        "44 0000001d 0000bb80 0002 0000000000000000 01 00 01 01 78 01 10 60 00000001 ff 0000",
        0,
        Device,
    ),
];

#[test]
fn faults_of_devices(rt: HostRuntime) -> Result<(), Fail> {
    assert_eq!(rt; wrong(rt.alloc(), "43484d434150310a", 8, &DEVICES)?, None);
    Ok(())
}

/// A device as JSON of one output, up to the end of that output.
const OUTPUT: &str = r#"{"rate":48000,"frames":2,"inputs":[],"outputs":[
    {"id":"x","channels":[{"label":"L"}],"width":16,"payload_type":96,"ssrc":1"#;

/// What follows `OUTPUT`, and whether it is a device that is in order.
const JSON_DEVICES: [(&str, bool); 17] = [
    ("}]}", true),
    ("}]} \n", true),
    ("}],\"other\":[null]}", true),
    (",\"map\":[null]}]}", true),
    (",\"routable_inputs\":[null]}]}", true),
    // No JSON.
    ("", false),
    ("}]", false),
    ("}]}x", false),
    ("}]}\0", false),
    // No device: another type, a number past its range, an input that is not there.
    ("}],\"hold\":null}", false),
    (",\"map\":null}]}", false),
    (",\"ssrc\":4294967296}]}", false),
    (",\"map\":[{\"input\":\"a\",\"channel_index\":0}]}]}", false),
    // A device past a limit: of a doubled key the last value counts.
    ("}],\"outputs\":[]}", false),
    (",\"id\":\"\"}]}", false),
    // Base rows that do not fit: too many cells, and an unrouted cell where nothing is allowed.
    (",\"map\":[null,null]}]}", false),
    (",\"routable_inputs\":[]}]}", false),
];

/// A capture whose device is a text.
fn of_text(alloc: Global, front: &str, back: &str) -> Result<Vec<u8>, Fail> {
    let mut text = String::new(alloc);
    text.push_str(front)?;
    text.push_str(back)?;
    let len = u16::try_from(text.len()).ok().ok_or("a long text")?;
    let mut bytes = hex(alloc, "43484d434150310a 4a 0000")?;
    bytes.extend_from_slice(&len.to_be_bytes())?;
    bytes.extend_from_slice(text.as_bytes())?;
    add_hex(&mut bytes, "45 00000000")?;
    Ok(bytes)
}

#[test]
fn devices_as_json(rt: HostRuntime) -> Result<(), Fail> {
    for (back, is_there) in JSON_DEVICES {
        let bytes = of_text(rt.alloc(), OUTPUT, back)?;
        let at = 8;
        let kind = Device;
        let fault = if is_there {
            None
        } else {
            Some(CaptureFault { at, kind })
        };
        assert_eq!(rt; fault_of(rt.alloc(), &bytes)?, fault);
    }
    Ok(())
}

const LATER: [(&str, u64, CaptureKind); 32] = [
    ("", 0, Cut),
    ("54", 0, Cut),
    ("54 00000004 000000", 0, Cut),
    ("54 00000005 00000002", 0, Cut),
    ("54 ffffffff 00000002", 0, Cut),
    ("78 00000001", 0, Cut),
    ("44 00000000", 0, Order),
    ("4a 00000000", 0, Order),
    ("78 00000000", 0, Tag),
    ("43 00000000", 0, Tag),
    ("00 00000000", 0, Tag),
    ("54 00000003 000002", 0, Body),
    ("54 00000005 0000000200", 0, Body),
    ("50 00000000", 0, Body),
    // A packet of an input that is not there.
    ("50 00000002 01 80", 0, Body),
    // A piece of no client, and of clients that are none; what follows one that is read.
    ("51 00000000", 0, Body),
    ("51 00000001 10", 0, Body),
    ("51 00000004 ff 474554", 0, Body),
    ("51 00000001 0f", 6, Cut),
    ("51 00000004 00 474554 4a 00000000", 9, Order),
    ("51 00000004 00 474554 51 00000001 10", 9, Body),
    ("45 00000001 00", 0, Body),
    // Claims of no whole tick, and of too many ticks.
    ("54 00000004 00000001 45 00000000", 9, Work),
    ("54 00000004 00002002 45 00000000", 9, Work),
    (
        "54 00000004 ffffffff 54 00000004 ffffffff 45 00000000",
        18,
        Work,
    ),
    // Two faults in one record: the body before the work.
    ("54 00000004 00000001 45 00000001 00", 9, Body),
    // Two faulty records: the first one.
    ("51 00000000 44 00000000", 0, Body),
    ("50 00000000 43 00000000", 0, Body),
    ("54 00000004 00000001 43 00000000", 9, Tag),
    ("54 00000004 00000002 54 00000000", 9, Body),
    ("54 00000004 00000002 45", 9, Cut),
    ("54 00000004 00000002", 9, Cut),
];

const REQUESTS: [(&str, u64, CaptureKind); 28] = [
    ("41 00000000", 0, Body),
    ("41 00000001 00", 0, Body),
    // A client that is none, and an op that is none.
    ("41 00000002 10 04", 0, Body),
    ("41 00000002 00 06", 0, Body),
    // An action without its number of outputs, without an output, and with a byte after it.
    ("41 00000002 00 00", 0, Body),
    ("41 00000003 00 00 01", 0, Body),
    ("41 00000004 00 00 00 00", 0, Body),
    ("41 00000007 00 00 01 00 01 0000", 0, Body),
    // Outputs and channels that do not rise.
    ("41 00000007 00 00 02 01 00 00 00", 0, Body),
    ("41 00000007 00 00 02 01 00 01 00", 0, Body),
    ("41 0000000b 00 00 01 00 02 000000 000001", 0, Body),
    ("41 0000000b 00 00 01 00 02 010000 000001", 0, Body),
    // An unrouted cell with a channel.
    ("41 00000008 00 00 01 00 01 00ff01", 0, Body),
    // Times out of range, and cut ones.
    ("41 0000000f 00 01 0000010000000000 00000000 00", 0, Body),
    ("41 0000000f 00 01 ffffffffffffffff 00000000 00", 0, Body),
    ("41 0000000f 00 01 0000000000000000 3b9aca00 00", 0, Body),
    ("41 0000000f 00 02 0000010000000000 00000000 00", 0, Body),
    ("41 0000000f 00 02 0000000000000000 3b9aca00 00", 0, Body),
    ("41 0000000d 00 01 0000000000000000 000000", 0, Body),
    ("41 0000000e 00 01 0000000000000000 00000000", 0, Body),
    ("41 0000000e 00 02 0000000000000000 00000000", 0, Body),
    ("41 00000010 00 02 0000000000000000 00000000 00 00", 0, Body),
    // Ids with a byte less and a byte more.
    ("41 00000009 00 03 00000000000000", 0, Body),
    ("41 0000000b 00 03 0000000000000000 00", 0, Body),
    ("41 00000003 00 04 00", 0, Body),
    ("41 00000003 00 05 00", 0, Body),
    // A length that is one less or one more than the request.
    ("41 00000007 00 00 01 00 01 000000", 0, Body),
    ("41 00000009 00 00 01 00 01 000000 45 00000000", 0, Body),
];

/// Tries a table after 0, 1 and 20 good records of 9 bytes.
fn wrong_anywhere(alloc: Global, rows: Faults<'_>) -> Result<Option<usize>, Fail> {
    let mut front = String::new(alloc);
    front.push_str(FRONT)?;
    let mut from: u64 = 65;
    for number in 0..21u8 {
        if matches!(number, 0 | 1 | 20) {
            let found = wrong(alloc, &front, from, rows)?;
            if found.is_some() {
                return Ok(found);
            }
        }
        front.push_str("54 00000004 00000000")?;
        from = from.wrapping_add(9);
    }
    Ok(None)
}

#[test]
fn faults_of_later_records(rt: HostRuntime) -> Result<(), Fail> {
    assert_eq!(rt; wrong_anywhere(rt.alloc(), &LATER)?, None);
    Ok(())
}

#[test]
fn faults_of_requests(rt: HostRuntime) -> Result<(), Fail> {
    assert_eq!(rt; wrong_anywhere(rt.alloc(), &REQUESTS)?, None);
    Ok(())
}

/// The record in which a place stands.
fn record_at(place: usize) -> u64 {
    let mut found = 0;
    for at in PLACES {
        if at <= place as u64 {
            found = at;
        }
    }
    found
}

#[test]
fn cut_anywhere(rt: HostRuntime) -> Result<(), Fail> {
    let mut bytes = hex(rt.alloc(), FRONT)?;
    add_hex(&mut bytes, MID_TICK)?;
    for len in 0..bytes.len() {
        let kind = if len < 8 { Magic } else { Cut };
        let at = record_at(len);
        assert!(rt; fault_of(rt.alloc(), &bytes[..len])? == Some(CaptureFault { at, kind }));
    }
    Ok(())
}

/// The bytes with another one at a place.
fn with_byte(alloc: Global, bytes: &[u8], place: u64, byte: u8) -> Result<Vec<u8>, NoMemory> {
    let mut made = Vec::new(alloc);
    for (at, old) in bytes.iter().enumerate() {
        made.push(if at as u64 == place { byte } else { *old })?;
    }
    Ok(made)
}

/// What another tag of a record makes of the stored capture.
fn retagged(alloc: Global, tag: u8, first: CaptureKind, later: CaptureKind) -> Result<bool, Fail> {
    let mut bytes = hex(alloc, FRONT)?;
    add_hex(&mut bytes, MID_TICK)?;
    for at in PLACES {
        let kind = if at == 8 { first } else { later };
        let changed = with_byte(alloc, &bytes, at, tag)?;
        if fault_of(alloc, &changed)? != Some(CaptureFault { at, kind }) {
            return Ok(false);
        }
    }
    Ok(true)
}

#[test]
fn other_tags(rt: HostRuntime) -> Result<(), Fail> {
    assert!(rt; retagged(rt.alloc(), 0x4a, Device, Order)?);
    assert!(rt; retagged(rt.alloc(), 0x78, Tag, Tag)?);
    assert!(rt; retagged(rt.alloc(), 0x43, Tag, Tag)?);
    Ok(())
}

/// Each kind of request, with times at the end of their range.
const ALL_REQUESTS: &str = "51 00000004 03 474554 51 00000001 0f
    41 00000003 00 00 00
    41 00000014 0f 01 000000ffffffffff 3b9ac9ff 01 07 01 ff feff
    41 00000016 0f 02 0000000000000000 00000000 02 00 00 ff 01 ff ff00
    41 0000000a 00 03 ffffffffffffffff
    41 00000002 00 04
    41 00000002 00 05
    50 00000001 00
    45 00000000 45 00000000";

/// Whether a record is this piece of a client's stream.
fn is_piece(item: Option<&Item<'_>>, of: u8, piece: &[u8]) -> bool {
    match item {
        Some(Item::Piece { client, bytes }) => *client == of && bytes.as_slice() == piece,
        _ => false,
    }
}

#[test]
fn each_request_read(rt: HostRuntime) -> Result<(), Fail> {
    let mut bytes = hex(rt.alloc(), FRONT)?;
    add_hex(&mut bytes, ALL_REQUESTS)?;
    let (capture, place) = read_capture(rt.alloc(), &bytes).ok().ok_or("a capture")?;
    assert_eq!(rt; place.wrapping_add(5), bytes.len());
    let copied = capture.copy()?;
    assert_eq!(rt; copied.items.len(), 9);
    assert!(rt; matches!(copied.items.get(8), Some(Item::Packet { input: 0, .. })));
    assert!(rt; is_piece(copied.items.get(0), 3, b"GET"));
    assert!(rt; is_piece(copied.items.get(1), 15, b""));
    Ok(())
}

#[test]
fn fault_printed(rt: HostRuntime) -> Result<(), Fail> {
    let fault = CaptureFault { at: 65, kind: Cut };
    assert!(rt; format!(in rt.alloc(); "{fault}")?.as_str() == "cut at 65");
    Ok(())
}

/// The number of whole ticks and the place of a capture with these records.
fn read(alloc: Global, records: &str) -> Result<(u64, usize), Fail> {
    let mut bytes = hex(alloc, FRONT)?;
    add_hex(&mut bytes, records)?;
    let (capture, place) = read_capture(alloc, &bytes).ok().ok_or("a capture")?;
    Ok((capture.ticks, place))
}

#[test]
fn captures_read(rt: HostRuntime) -> Result<(), Fail> {
    assert!(rt; read(rt.alloc(), "45 00000000")? == (0, 70));
    assert!(rt; read(rt.alloc(), MID_TICK)? == (3, 132));
    assert!(rt; read(rt.alloc(), "54 00000004 00002000 45 00000000")? == (4096, 79));
    // What follows the last record is not looked at.
    assert!(rt; read(rt.alloc(), "45 00000000 78")? == (0, 70));
    Ok(())
}

/// Whether a value has a copy, and it is equal.
fn is_copied<T: TryCopy + PartialEq>(value: T) -> Result<bool, NoMemory> {
    Ok(value.copy()? == value)
}

#[test]
fn parts_copied(rt: HostRuntime) -> Result<(), Fail> {
    assert!(rt; is_copied(Cut)?);
    assert!(rt; is_copied(CaptureFault { at: 3, kind: Body })?);
    let alloc = rt.alloc();
    let claim = ClaimRecord {
        k: 4,
        found: Flags::new(alloc),
        packet: RecordBytes::new(b"p"),
    };
    let copied = ResultItem::Claim(claim).copy()?;
    assert!(rt; matches!(&copied, ResultItem::Claim(claim) if claim.k == 4));
    Ok(())
}

const REFUSALS: [(Refusal, &str); 11] = [
    (Refusal::Empty, "10"),
    (Refusal::Unknown { output: 2 }, "11 02"),
    (
        Refusal::BadChannel {
            output: 1,
            channel: 9,
        },
        "12 01 09",
    ),
    (Refusal::Locked { output: 3 }, "13 03"),
    (
        Refusal::Row {
            output: 1,
            fault: RowFault::Input(7),
        },
        "14 01 01 07",
    ),
    (
        Refusal::Row {
            output: 1,
            fault: RowFault::Channel(6),
        },
        "14 01 02 06",
    ),
    (
        Refusal::Row {
            output: 1,
            fault: RowFault::NotRoutable(5),
        },
        "14 01 03 05",
    ),
    (
        Refusal::Row {
            output: 1,
            fault: RowFault::Block(4),
        },
        "14 01 04 04",
    ),
    (
        Refusal::Row {
            output: 2,
            fault: RowFault::Order(3),
        },
        "14 02 05 03",
    ),
    (Refusal::Time, "15"),
    (Refusal::NotPending { id: 258 }, "16 0000000000000102"),
];

#[test]
fn refusals_written(rt: HostRuntime) -> Result<(), Fail> {
    for (refusal, digits) in REFUSALS {
        let mut out = Vec::new(rt.alloc());
        push_refusal(&mut out, Format::One, refusal)?;
        assert!(rt; out == hex(rt.alloc(), digits)?);
    }
    Ok(())
}

#[test]
fn accepted_written(rt: HostRuntime) -> Result<(), Fail> {
    let mut out = Vec::new(rt.alloc());
    let activated = Reply::Activated {
        id: 1,
        tick: 2,
        offset: 0,
    };
    push_plain_reply(&mut out, Format::One, &activated)?;
    let scheduled = Reply::Scheduled {
        id: 3,
        tick: 4,
        offset: 0,
    };
    push_plain_reply(&mut out, Format::One, &scheduled)?;
    push_plain_reply(&mut out, Format::One, &Reply::Deleted { id: 5 })?;
    let digits = "00 0000000000000001 0000000000000002 01 0000000000000003 0000000000000004
        02 0000000000000005";
    assert!(rt; out == hex(rt.alloc(), digits)?);
    Ok(())
}

#[test]
fn response_written(rt: HostRuntime) -> Result<(), Fail> {
    let mut bytes = Bytes::new(rt.alloc());
    for byte in *b"HTTP" {
        bytes.push(byte)?;
    }
    let place = Stamp {
        calls: 1,
        claims: 258,
    };
    let item = ReplyItem::new(15, place, Said::Http(bytes)).copy()?;
    let body = reply_body(rt.alloc(), Format::One, &item)?;
    let digits = "0f 0000000000000001 0000000000000102 00 48545450";
    assert!(rt; body == hex(rt.alloc(), digits)?);
    Ok(())
}

/// A row of an unrouted cell and one of input 1, channel 2.
fn row(alloc: Global) -> Result<Row, NoMemory> {
    let mut row = Row::new(alloc);
    row.push(Cell::Unrouted)?;
    row.push(Cell::From {
        input: 1,
        channel: 2,
    })?;
    Ok(row)
}

#[test]
fn active_written(rt: HostRuntime) -> Result<(), Fail> {
    let mut rows = Rows::new(rt.alloc());
    rows.push(row(rt.alloc())?)?;
    let when = When::At(Tai { secs: 7, nanos: 8 });
    let last = Some(Activation {
        id: 6,
        when,
        tick: 9,
        offset: 0,
    });
    let mut out = Vec::new(rt.alloc());
    push_plain_reply(
        &mut out,
        Format::One,
        &Reply::Active(ActiveView { last, rows }),
    )?;
    let digits = "03 01 0000000000000006 01 0000000000000007 00000008 0000000000000009 ff00 0102";
    assert!(rt; out == hex(rt.alloc(), digits)?);
    Ok(())
}

/// A claim of a device with one input, whose packet is one byte.
fn claim(alloc: Global, k: u64, is_found: bool, byte: u8) -> Result<ClaimItem, NoMemory>
    ensures { IfOk result (λ c. c ≡ claim_item k (is_found ∷ []) (byte ∷ [])) }
{
    let mut found = Flags::new(alloc);
    found.push(is_found)?;
    let mut packet = Bytes::new(alloc);
    packet.push(byte)?;
    Ok(ClaimItem::new(k, found, packet))
}

/// A response of one byte.
fn response(alloc: Global, client: u8, stamp: Stamp, byte: u8) -> Result<ReplyItem, NoMemory>
    ensures { IfOk result (λ r. r ≡ reply_item client stamp (Http (byte ∷ []))) }
{
    let mut bytes = Bytes::new(alloc);
    bytes.push(byte)?;
    Ok(ReplyItem::new(client, stamp, Said::Http(bytes)))
}

/// Three claims, and calls and replies in front of the first, between two, and after the last.
fn three_claims(alloc: Global) -> Result<History, NoMemory>
    ensures { (d : DeviceParts) → IsDevice d → length d.inputs ≡ 1 → IfOk result (FitsHistory One d) }
{
    let mut journal = Journal::new(alloc);
    journal.push(JournalCall::new(0, 2, 1, 5, 0, Request::Active))?;
    journal.push(JournalCall::new(0, 3, 2, 6, 0, Request::Pending))?;
    journal.push(JournalCall::new(2, 2, 3, 7, 0, Request::Active))?;
    let mut replies = ReplyItems::new(alloc);
    replies.push(response(
        alloc,
        2,
        Stamp {
            calls: 1,
            claims: 0,
        },
        33,
    )?)?;
    replies.push(response(
        alloc,
        3,
        Stamp {
            calls: 2,
            claims: 1,
        },
        34,
    )?)?;
    replies.push(response(
        alloc,
        2,
        Stamp {
            calls: 3,
            claims: 3,
        },
        35,
    )?)?;
    let mut claims = ClaimItems::new(alloc);
    claims.push(claim(alloc, 0, true, 17)?)?;
    claims.push(claim(alloc, 1, false, 18)?)?;
    claims.push(claim(alloc, 2, true, 19)?)?;
    Ok(History {
        claims,
        journal,
        replies,
    })
}

/// The text of a history, put together of its parts.
fn by_hand(alloc: Global, history: &History) -> Result<Vec<u8>, Fail>
    requires { AreLeft One 0 history.now.journal history.now.replies }
{
    let claims = history.claims.as_slice();
    let numbers = claims.len() as u64 + 1;
    let calls = history.journal.as_slice();
    let between = write_between(
        alloc,
        Format::One,
        calls,
        history.replies.as_slice(),
        numbers,
    )?;
    let mut text = Vec::new(alloc);
    text.extend_from_slice(result_magic(Format::One))?;
    for (number, records) in between.as_slice().iter().enumerate() {
        text.extend_from_slice(records.as_slice())?;
        if number < claims.len() {
            let claim = &claims[number];
            if claim.found.len() > 99 || claim.packet.len() > 99 {
                return Err(Fail::from("a short claim"));
            }
            let mut front = vec![in alloc; 0u8; CLAIM_HEAD_LEN + claim.found.len()]?;
            let found = claim.found.as_slice();
            write_claim_front(&mut front, claim.k, found, claim.packet.len());
            text.extend_from_slice(&front)?;
            text.extend_from_slice(claim.packet.as_slice())?;
        }
    }
    text.extend_from_slice(&end_record())?;
    Ok(text)
}

#[test]
fn result_by_hand(rt: HostRuntime) -> Result<(), Fail> {
    let mut bytes = hex(rt.alloc(), FRONT)?;
    add_hex(&mut bytes, "45 00000000")?;
    let (capture, _) = read_capture(rt.alloc(), &bytes).ok().ok_or("a capture")?;
    let device = &capture.setup.device;
    if device.inputs() != 1 {
        return Err(Fail::from("one input"));
    }
    let history = three_claims(rt.alloc())?;
    let mut text = Vec::new(rt.alloc());
    write_result(rt.alloc(), device, Format::One, &history, &mut text)?;
    assert!(rt; text == by_hand(rt.alloc(), &history)?);
    Ok(())
}
