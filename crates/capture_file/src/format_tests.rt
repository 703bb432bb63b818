//! Captures of format 2: where a grain may stand and what it says, as tables of bytes.

use crate::CaptureKind::{Body, Cut, Order, Tag};
use crate::tests::{FRONT, MID_TICK, add_hex, hex, wrong};
use crate::{CaptureKind, Format, read_capture};
use map_entry::Grain;
use std::test::Fail;

/// The front of a capture of format 2: the magic, and the device of `FRONT`.
const SECOND_FRONT: &str = "43484d434150320a
    44 00000034 0000bb80 0002 0000000000000000 01 01 02
    01 61 02 10 60 01 01
    01 78 02 10 60 00000001 ff ff00 ff00
    01 79 02 18 61 00000002 ff ff00 ff00";

/// What stands behind the device in format 2.
const GRAINS: [(&str, u64, CaptureKind); 12] = [
    // No body, another number, and a byte too many.
    ("47 00000000", 0, Body),
    ("47 00000001 02", 0, Body),
    ("47 00000001 ff", 0, Body),
    ("47 00000002 00 00", 0, Body),
    ("47 00000001", 0, Cut),
    ("47", 0, Cut),
    // A second one, and one behind another record, whatever their bodies.
    ("47 00000001 00 47 00000001 00", 6, Order),
    ("47 00000001 01 47 00000000", 6, Order),
    ("54 00000004 00000002 47 00000001 01", 9, Order),
    ("47 00000001 01 44 00000000", 6, Order),
    ("47 00000001 01 78 00000000", 6, Tag),
    ("47 00000001 01", 6, Cut),
];

/// What stands behind the device in format 1, which knows no grain.
const NO_GRAINS: [(&str, u64, CaptureKind); 3] = [
    ("47 00000001 00", 0, Tag),
    ("47 00000001 02", 0, Tag),
    ("54 00000004 00000002 47 00000000", 9, Tag),
];

/// A grain is no first record.
const NO_DEVICES: [(&str, u64, CaptureKind); 2] = [
    ("43484d434150320a 47 00000001 00", 8, Order),
    ("43484d434150310a 47 00000001 00", 8, Tag),
];

#[test]
fn faults_of_grains(rt: HostRuntime) -> Result<(), Fail> {
    assert_eq!(rt; wrong(rt.alloc(), SECOND_FRONT, 65, &GRAINS)?, None);
    assert_eq!(rt; wrong(rt.alloc(), FRONT, 65, &NO_GRAINS)?, None);
    assert_eq!(rt; wrong(rt.alloc(), "", 0, &NO_DEVICES)?, None);
    Ok(())
}

/// What stands behind the device, the grain that is read, and the place of the records.
const SETUPS: [(&str, Grain, u64); 3] = [
    ("", Grain::Tick, 65),
    ("47 00000001 00", Grain::Tick, 71),
    ("47 00000001 01", Grain::Frame, 71),
];

#[test]
fn grains(rt: HostRuntime) -> Result<(), Fail> {
    for (said, grain, at) in SETUPS {
        let mut bytes = hex(rt.alloc(), SECOND_FRONT)?;
        add_hex(&mut bytes, said)?;
        add_hex(&mut bytes, MID_TICK)?;
        match read_capture(rt.alloc(), &bytes) {
            Ok((capture, place)) => {
                assert!(rt; capture.format == Format::Two);
                assert!(rt; capture.setup.grain == grain);
                assert_eq!(rt; capture.items_at, at);
                assert_eq!(rt; place, bytes.len());
            }
            Err(_) => return Err(Fail::from("no capture")),
        }
    }
    Ok(())
}
