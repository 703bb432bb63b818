//! Values from outside: worked times, a table of ticks, and texts.

use crate::{
    Tai, TaiFault, add, frame_start, frame_up, moment_start, tick_of, tick_start, tick_up,
};
use io_caps::{Rate, TryCopy};
use std::test::Fail;

#[test]
fn tick_times(rt: HostRuntime) {
    let first = Tai { secs: 0, nanos: 1 };
    let later = Tai {
        secs: 1,
        nanos: 500_000_000,
    };
    let milliseconds = Rate {
        hz: 48000,
        frames: 48,
    };
    assert_eq!(rt; tick_up(first, milliseconds), 1);
    assert_eq!(rt; tick_up(later, milliseconds), 1500);
    assert_eq!(rt; tick_of(first, milliseconds), 0);
    let frames = Rate {
        hz: 44100,
        frames: 1,
    };
    let start = Tai {
        secs: 0,
        nanos: 22675,
    };
    assert_eq!(rt; tick_start(1, frames), Some(start));
    assert_eq!(rt; tick_up(start, frames), 1);
    let packets = Rate {
        hz: 44100,
        frames: 48,
    };
    assert_eq!(rt; frame_start(1, packets), Some(start));
    assert_eq!(rt; frame_up(start, packets), 1);
    assert_eq!(rt; frame_up(later, packets), 66150);
}

/// A frame of a tick begins where the same frame counted from TAI 0 does, up to the end of time.
#[test]
fn frames_of_ticks(rt: HostRuntime) {
    let rate = Rate {
        hz: 44100,
        frames: 48,
    };
    let start = Tai {
        secs: 0,
        nanos: 22675,
    };
    let second = Tai { secs: 1, nanos: 0 };
    let last = Tai {
        secs: (1 << 40) - 1,
        nanos: 999_977_324,
    };
    assert_eq!(rt; moment_start(0, 1, rate), Some(start));
    assert_eq!(rt; moment_start(1, 0, rate), tick_start(1, rate));
    assert_eq!(rt; moment_start(918, 36, rate), Some(second));
    assert_eq!(rt; moment_start(1010176308019199, 47, rate), Some(last));
    assert_eq!(rt; moment_start(1010176308019199, 48, rate), None);
    assert_eq!(rt; moment_start(u64::MAX, 47, rate), None);
}

/// A rate, the start of tick 1000003 with the tick in which it lies, the last tick that has a start
/// with its nanoseconds, and the ticks from and of 1700000000:123456789 on.
#[test]
fn table_of_ticks(rt: HostRuntime) {
    let rows: [((u32, u16), (u64, u32, u64), (u64, u32), (u64, u64)); 16] = [
        (
            (44100, 1),
            (22, 675804988, 1000002),
            (48488462784921599, 999977324),
            (74970000005445, 74970000005444),
        ),
        (
            (44100, 48),
            (1088, 438639455, 1000002),
            (1010176308019199, 998911564),
            (1561875000114, 1561875000113),
        ),
        (
            (44100, 192),
            (4353, 754557823, 1000002),
            (252544077004799, 995646258),
            (390468750029, 390468750028),
        ),
        (
            (44100, 240),
            (5442, 193197278, 1000002),
            (202035261603839, 994557823),
            (312375000023, 312375000022),
        ),
        (
            (48000, 1),
            (20, 833395833, 1000002),
            (52776558133247999, 999979166),
            (81600000005926, 81600000005925),
        ),
        (
            (48000, 48),
            (1000, 3000000, 1000003),
            (1099511627775999, 999000000),
            (1700000000124, 1700000000123),
        ),
        (
            (48000, 192),
            (4000, 12000000, 1000003),
            (274877906943999, 996000000),
            (425000000031, 425000000030),
        ),
        (
            (48000, 240),
            (5000, 15000000, 1000003),
            (219902325555199, 995000000),
            (340000000025, 340000000024),
        ),
        (
            (96000, 1),
            (10, 416697916, 1000002),
            (105553116266495999, 999989583),
            (163200000011852, 163200000011851),
        ),
        (
            (96000, 48),
            (500, 1500000, 1000003),
            (2199023255551999, 999500000),
            (3400000000247, 3400000000246),
        ),
        (
            (96000, 192),
            (2000, 6000000, 1000003),
            (549755813887999, 998000000),
            (850000000062, 850000000061),
        ),
        (
            (96000, 240),
            (2500, 7500000, 1000003),
            (439804651110399, 997500000),
            (680000000050, 680000000049),
        ),
        (
            (192000, 1),
            (5, 208348958, 1000002),
            (211106232532991999, 999994791),
            (326400000023704, 326400000023703),
        ),
        (
            (192000, 48),
            (250, 750000, 1000003),
            (4398046511103999, 999750000),
            (6800000000494, 6800000000493),
        ),
        (
            (192000, 192),
            (1000, 3000000, 1000003),
            (1099511627775999, 999000000),
            (1700000000124, 1700000000123),
        ),
        (
            (192000, 240),
            (1250, 3750000, 1000003),
            (879609302220799, 998750000),
            (1360000000099, 1360000000098),
        ),
    ];
    for ((hz, frames), (secs, nanos, of), (last, last_nanos), (now_up, now_of)) in rows {
        let rate = Rate { hz, frames };
        assert!(rt; rate.is_valid());
        assert!(rt; secs < 1 << 40 && nanos < 1_000_000_000);
        let start = Tai { secs, nanos };
        assert_eq!(rt; tick_start(1_000_003, rate), Some(start), "{hz} {frames}");
        assert_eq!(rt; tick_of(start, rate), of, "{hz} {frames}");
        assert!(rt; last < u64::MAX && last_nanos < 1_000_000_000);
        let end = Tai {
            secs: (1 << 40) - 1,
            nanos: last_nanos,
        };
        assert_eq!(rt; tick_start(last, rate), Some(end), "{hz} {frames}");
        assert_eq!(rt; tick_start(last + 1, rate), None, "{hz} {frames}");
        assert_eq!(rt; tick_start(u64::MAX, rate), None, "{hz} {frames}");
        let now = Tai {
            secs: 1_700_000_000,
            nanos: 123_456_789,
        };
        assert_eq!(rt; tick_up(now, rate), now_up, "{hz} {frames}");
        assert_eq!(rt; tick_of(now, rate), now_of, "{hz} {frames}");
    }
}

#[test]
fn sums(rt: HostRuntime) {
    let a = Tai {
        secs: 1,
        nanos: 999_999_999,
    };
    let b = Tai { secs: 2, nanos: 1 };
    assert_eq!(rt; add(a, b), Some(Tai { secs: 4, nanos: 0 }));
    let last = Tai {
        secs: (1 << 40) - 1,
        nanos: 999_999_999,
    };
    assert_eq!(rt; add(last, Tai { secs: 0, nanos: 0 }), Some(last));
    assert_eq!(rt; add(last, Tai { secs: 0, nanos: 1 }), None);
}

#[test]
fn texts(rt: HostRuntime) {
    let rows: [(&[u8], Result<Tai, TaiFault>); 17] = [
        (b"0:0", Ok(Tai { secs: 0, nanos: 0 })),
        (
            b"0007:000000000000000000000000000000000000000042",
            Ok(Tai { secs: 7, nanos: 42 }),
        ),
        (
            b"1099511627775:999999999",
            Ok(Tai {
                secs: 1_099_511_627_775,
                nanos: 999_999_999,
            }),
        ),
        (b"", Err(TaiFault::NoColon)),
        (b"12", Err(TaiFault::NoColon)),
        (b"x;0", Err(TaiFault::NoColon)),
        (b":", Err(TaiFault::NotDigits)),
        (b"1:", Err(TaiFault::NotDigits)),
        (b":1", Err(TaiFault::NotDigits)),
        (b"+1:0", Err(TaiFault::NotDigits)),
        (b"1: 0", Err(TaiFault::NotDigits)),
        (b"1:2:3", Err(TaiFault::NotDigits)),
        (b"99999999999999999999999:x", Err(TaiFault::NotDigits)),
        (b"1099511627776:1000000000", Err(TaiFault::SecsRange)),
        (b"18446744073709551616:0", Err(TaiFault::SecsRange)),
        (b"1099511627775:1000000000", Err(TaiFault::NanosRange)),
        (b"0:18446744073709551616", Err(TaiFault::NanosRange)),
    ];
    for (text, expected) in rows {
        assert_eq!(rt; Tai::read(text), expected, "{text:?}");
    }
}

#[test]
fn written_and_read_again(rt: HostRuntime) -> Result<(), Fail> {
    let rows: [(Tai, &[u8]); 3] = [
        (Tai { secs: 0, nanos: 0 }, b"at 0:0"),
        (
            Tai {
                secs: 1_700_000_000,
                nanos: 7_000,
            },
            b"at 1700000000:7000",
        ),
        (
            Tai {
                secs: 1_099_511_627_775,
                nanos: 999_999_999,
            },
            b"at 1099511627775:999999999",
        ),
    ];
    for (time, text) in rows {
        let mut out = Vec::from_slice(rt.alloc(), b"at ")?;
        let copied = time.copy()?;
        copied.write(&mut out)?;
        assert_eq!(rt; out.as_slice(), text);
        assert_eq!(rt; Tai::read(&out[3..]), Ok(time));
    }
    Ok(())
}
