//! Values from outside: worked packets and samples, and a table of bad input.

use crate::{
    Head, Packet, PartFrame, RtpFault, frames_in, get_sample, put_sample, read_packet, write_head,
};
use io_caps::Width;

#[test]
fn l16_to_l24(rt: HostRuntime) {
    let mut out = [0u8; 3];
    put_sample(&mut out, Width::L24, get_sample(&[0x12, 0x34], Width::L16));
    assert_eq!(rt; out, [0x12, 0x34, 0]);
    put_sample(&mut out, Width::L24, get_sample(&[0xff, 0xfe], Width::L16));
    assert_eq!(rt; out, [0xff, 0xfe, 0]);
    assert_eq!(rt; get_sample(&[0x80, 0], Width::L16), -8388608);
}

#[test]
fn l24_to_l16(rt: HostRuntime) {
    let mut out = [0u8; 2];
    put_sample(
        &mut out,
        Width::L16,
        get_sample(&[0xff, 0xff, 0xff], Width::L24),
    );
    assert_eq!(rt; out, [0xff, 0xff]);
    put_sample(&mut out, Width::L16, get_sample(&[0, 0, 0xff], Width::L24));
    assert_eq!(rt; out, [0, 0]);
}

#[test]
fn l24_lowest_to_l16(rt: HostRuntime) {
    let lowest = get_sample(&[0x80, 0, 0], Width::L24);
    assert_eq!(rt; lowest, -8388608);
    let mut out = [0u8; 2];
    put_sample(&mut out, Width::L16, lowest);
    assert_eq!(rt; out, [0x80, 0]);
}

#[test]
fn whole_and_part_frames(rt: HostRuntime) {
    let payload = [0u8; 12];
    assert_eq!(rt; frames_in(&payload, 2, Width::L16), Ok(3));
    assert_eq!(rt; frames_in(&payload, 2, Width::L24), Ok(2));
    assert_eq!(rt; frames_in(&payload[..0], 64, Width::L24), Ok(0));
    assert_eq!(rt; frames_in(&payload, 64, Width::L24), Err(PartFrame));
    assert_eq!(rt; frames_in(&payload[..11], 2, Width::L16), Err(PartFrame));
}

/// Two CSRCs, an extension of one word, 4 bytes of payload and 3 of padding.
const FULL: [u8; 35] = [
    0xb2, 0x60, 0, 1, 0, 0, 0, 0, 0, 0, 0, 0x0a, 0, 0, 0, 0x0b, 0, 0, 0, 0x0c, 0xbe, 0xde, 0, 1, 0,
    0, 0, 0, 0x12, 0x34, 0x56, 0x78, 0, 0, 3,
];

#[test]
fn rtp_heads(rt: HostRuntime) {
    let head = Head {
        payload_type: 96,
        sequence: 1,
        timestamp: 0,
        ssrc: 10,
    };
    let mut bytes = FULL;
    for (padding, payload) in [(3u8, &[0x12u8, 0x34, 0x56, 0x78][..]), (7, &[])] {
        bytes[34] = padding;
        let packet = Packet {
            head,
            marker: false,
            payload,
        };
        assert_eq!(rt; read_packet(&bytes), Ok(packet));
    }
    for padding in [0u8, 8] {
        bytes[34] = padding;
        assert_eq!(rt; read_packet(&bytes), Err(RtpFault::Padding));
    }
    assert_eq!(rt; read_packet(&FULL[..11]), Err(RtpFault::Short));
    assert_eq!(rt; read_packet(&FULL[..19]), Err(RtpFault::CsrcCut));
    assert_eq!(rt; read_packet(&FULL[..27]), Err(RtpFault::ExtensionCut));
}

#[test]
fn head_written_and_read_again(rt: HostRuntime) {
    let head = Head {
        payload_type: 127,
        sequence: 0x0102,
        timestamp: 0xfffffffe,
        ssrc: 0x0a0b0c0d,
    };
    let mut bytes = [0xeeu8; 15];
    write_head(&mut bytes, &head);
    assert_eq!(rt;
        bytes,
        [
            128, 127, 1, 2, 0xff, 0xff, 0xff, 0xfe, 0x0a, 0x0b, 0x0c, 0x0d, 0xee, 0xee, 0xee
        ]
    );
    let packet = Packet {
        head,
        marker: false,
        payload: &[0xee, 0xee, 0xee],
    };
    assert_eq!(rt; read_packet(&bytes), Ok(packet));
}

/// Bytes that are no packet: what each row begins with, how many bytes of the value follow, and the
/// fault.
#[test]
fn bad_input(rt: HostRuntime) {
    let rows: [(&[u8], u8, usize, RtpFault); 17] = [
        (&[], 0, 0, RtpFault::Short),
        (&[0x80, 0x60], 0xff, 9, RtpFault::Short),
        (&[0x3f], 0xff, 10, RtpFault::Short),
        (&[0x00], 0, 11, RtpFault::Version),
        (&[0x40], 0xaa, 1999, RtpFault::Version),
        (&[0xff], 0xff, 1999, RtpFault::Version),
        (&[0x7f], 0, 19, RtpFault::Version),
        (&[0x81], 0, 11, RtpFault::CsrcCut),
        (&[0x8f], 0xff, 70, RtpFault::CsrcCut),
        (&[0x90], 0, 14, RtpFault::ExtensionCut),
        (&[0x90], 0xff, 1999, RtpFault::ExtensionCut),
        (&[0x91], 0, 18, RtpFault::ExtensionCut),
        (&[0xa0], 0, 11, RtpFault::Padding),
        (&[0xa0], 0, 1999, RtpFault::Padding),
        (&[0xa0], 100, 110, RtpFault::Padding),
        (&[0xb0], 0, 15, RtpFault::Padding),
        (&[0xaf], 0xff, 71, RtpFault::Padding),
    ];
    let mut bytes = [0u8; 2000];
    for (start, value, more, fault) in rows {
        bytes.fill(value);
        for (at, byte) in start.iter().enumerate() {
            assert!(rt; at < 2000);
            bytes[at] = *byte;
        }
        let len = start.len() + more;
        assert!(rt; len <= 2000);
        assert_eq!(rt;
            read_packet(&bytes[..len]),
            Err(fault),
            "{start:?} and {more} of {value}"
        );
    }
}
