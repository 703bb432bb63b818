//! Descriptions as tables of texts: what is read of them, what is refused, and what is written.

use crate::SdpFault::{Line, Map, Media, Start};
use crate::limits::MOST_TEXT;
use crate::{MakeFault, SdpFault, Stream, Streams, device_from, read_sdp, write_sdp};
use io_caps::{Device, DeviceFault, NoMemory, Or, TryCopy, Width};
use std::alloc::Global;
use std::process::Abort;
use std::test::Fail;

/// A port, a payload type, the bytes of a sample, a rate and channels.
type Row = (u16, u8, usize, u32, u8);

/// Two streams, as of the device that most of the examples have.
const TWO: [Row; 2] = [(6004, 96, 2, 48000, 2), (6006, 97, 3, 48000, 2)];

/// The lines of the session that is written.
const SESSION: &str = "v=0\r\no=- 0 0 IN IP4 127.0.0.1\r\ns=chanmap\r\n\
    c=IN IP4 127.0.0.1\r\nt=0 0\r\n";

/// The session and an audio section in which lines can follow.
const FRONT: &str = "v=0\no=- 1 1 IN IP4 192.0.2.1\ns=-\nt=0 0\nm=audio 5004 RTP/AVP 98 10 0\n";

/// A description as an audio device of Dante writes it.
const DANTE: &str = "v=0\r\n\
    o=- 1923847562 1923847563 IN IP4 192.0.2.21\r\n\
    s=Stagebox : 32\r\n\
    i=N channels: 1 to 8\r\n\
    c=IN IP4 239.69.83.21/32\r\n\
    t=0 0\r\n\
    a=keywds:Dante\r\n\
    m=audio 5004 RTP/AVP 97\r\n\
    i=8 channels: mic 1, mic 2, mic 3, mic 4, mic 5, mic 6, mic 7, mic 8\r\n\
    a=recvonly\r\n\
    a=rtpmap:97 L24/48000/8\r\n\
    a=ptime:1\r\n\
    a=ts-refclk:ptp=IEEE1588-2008:00-00-5E-FF-FE-00-53-15:0\r\n\
    a=mediaclk:direct=2482167395\r\n";

/// One as a device of RAVENNA writes it: an address in each section, and a format that is no sample
/// of 16 or 24 bits in front of one that is.
const RAVENNA: &str = "v=0\r\n\
    o=- 17 3 IN IP4 192.0.2.31\r\n\
    s=Desk 3 out\r\n\
    t=0 0\r\n\
    a=clock-domain:PTPv2 0\r\n\
    a=ts-refclk:ptp=IEEE1588-2008:00-00-5E-FF-FE-00-53-1F:0\r\n\
    a=mediaclk:direct=0\r\n\
    \r\n\
    m=audio 5004 RTP/AVP 98\r\n\
    c=IN IP4 239.1.31.1/15\r\n\
    a=rtpmap:98 L24/48000/2\r\n\
    a=sync-time:0\r\n\
    a=framecount:48\r\n\
    a=ptime:1\r\n\
    a=source-filter: incl IN IP4 239.1.31.1 192.0.2.31\r\n\
    a=recvonly\r\n\
    m=audio 5006 RTP/AVP 99 98\r\n\
    c=IN IP4 239.1.31.2/15\r\n\
    a=rtpmap:98 L16/48000/2\r\n\
    a=rtpmap:99 AM824/48000/2\r\n\
    a=framecount:48\r\n\
    a=ptime:1\r\n\
    a=recvonly\r\n";

/// One as SMPTE ST 2110 has it: video, and audio on two legs of one group.
const ST2110: &str = "v=0\n\
    o=- 1543226715 1543226717 IN IP4 192.0.2.41\n\
    s=Camera 4\n\
    t=0 0\n\
    a=group:DUP primary secondary\n\
    m=video 20000 RTP/AVP 96\n\
    c=IN IP4 233.252.0.41/64\n\
    a=rtpmap:96 raw/90000\n\
    a=fmtp:96 sampling=YCbCr-4:2:2; width=1920; height=1080; exactframerate=50; depth=10\n\
    a=ts-refclk:ptp=IEEE1588-2008:00-00-5E-FF-FE-00-53-29:127\n\
    m=audio 20002 RTP/AVP 97\n\
    c=IN IP4 233.252.0.42/64\n\
    a=source-filter: incl IN IP4 233.252.0.42 192.0.2.41\n\
    a=rtpmap:97 L24/48000/8\n\
    a=fmtp:97 channel-order=SMPTE2110.(51,ST)\n\
    a=ptime:0.125\n\
    a=ts-refclk:ptp=IEEE1588-2008:00-00-5E-FF-FE-00-53-29:127\n\
    a=mediaclk:direct=0\n\
    a=mid:primary\n\
    m=audio 20002 RTP/AVP 97\n\
    c=IN IP4 233.252.1.42/64\n\
    a=source-filter: incl IN IP4 233.252.1.42 192.0.2.42\n\
    a=rtpmap:97 L24/48000/8\n\
    a=fmtp:97 channel-order=SMPTE2110.(51,ST)\n\
    a=ptime:0.125\n\
    a=ts-refclk:ptp=IEEE1588-2008:00-00-5E-FF-FE-00-53-29:127\n\
    a=mediaclk:direct=0\n\
    a=mid:secondary\n";

fn stream_of(row: Row) -> Stream {
    Stream {
        port: row.0,
        payload_type: row.1,
        width: if row.2 == 2 { Width::L16 } else { Width::L24 },
        hz: row.3,
        channels: row.4,
    }
}

fn row_of(stream: &Stream) -> Row {
    (
        stream.port,
        stream.payload_type,
        stream.width.bytes(),
        stream.hz,
        stream.channels,
    )
}

fn streams_of(alloc: Global, rows: &[Row]) -> Result<Streams, NoMemory> {
    let mut streams = Streams::new(alloc);
    for row in rows {
        streams.push(stream_of(*row))?;
    }
    Ok(streams)
}

/// The text of parts, one after the other.
fn join(alloc: Global, parts: &[&str]) -> Result<Vec<u8>, NoMemory> {
    let mut text = Vec::new(alloc);
    for part in parts {
        text.extend_from_slice(part.as_bytes())?;
    }
    Ok(text)
}

/// That a text is read as the streams of these rows.
fn check_streams(rt: &impl Abort, alloc: Global, text: &[u8], rows: &[Row]) {
    assert!(rt; text.len() <= MOST_TEXT);
    match read_sdp(alloc, text) {
        Ok(streams) => {
            assert_eq!(rt; streams.len(), rows.len());
            for (stream, row) in streams.as_slice().iter().zip(rows) {
                assert_eq!(rt; row_of(stream), *row);
            }
        }
        Err(Or::Fault(fault)) => assert!(rt; false, "{fault}"),
        Err(Or::NoMemory) => assert!(rt; false, "memory ran out"),
    }
}

/// That a text is refused with this fault.
fn check_fault(rt: &impl Abort, alloc: Global, text: &[u8], fault: SdpFault) {
    assert!(rt; text.len() <= MOST_TEXT);
    match read_sdp(alloc, text) {
        Err(Or::Fault(found)) => assert_eq!(rt; found, fault),
        Err(Or::NoMemory) => assert!(rt; false, "memory ran out"),
        Ok(streams) => {
            let count = streams.len();
            assert!(rt; false, "{count} streams in place of: {fault}");
        }
    }
}

/// That the description of streams at this many frames a tick has this line after each `a=rtpmap:`.
fn check_written(rt: &impl Abort, alloc: Global, frames: u16, line: &str) -> Result<(), NoMemory> {
    let streams = streams_of(alloc, &TWO)?;
    let mut text = Vec::new(alloc);
    text.extend_from_slice(b"#")?;
    match device_from(alloc, &streams, frames) {
        Ok(device) => write_sdp(&device, &mut text)?,
        Err(_) => assert!(rt; false, "no device of {frames} frames"),
    }
    let wanted = join(
        alloc,
        &[
            "#",
            SESSION,
            "m=audio 6004 RTP/AVP 96\r\na=rtpmap:96 L16/48000/2\r\n",
            line,
            "m=audio 6006 RTP/AVP 97\r\na=rtpmap:97 L24/48000/2\r\n",
            line,
        ],
    )?;
    assert!(rt; text.as_slice() == wanted.as_slice(), "{frames} frames");
    check_streams(rt, alloc, &text[1..], &TWO);
    Ok(())
}

/// The fault of a device of streams.
fn make_fault(alloc: Global, rows: &[Row], frames: u16) -> Result<Option<MakeFault>, NoMemory> {
    let streams = streams_of(alloc, rows)?;
    match device_from(alloc, &streams, frames) {
        Ok(_) => Ok(None),
        Err(Or::Fault(fault)) => Ok(Some(fault)),
        Err(Or::NoMemory) => Err(NoMemory),
    }
}

#[test]
fn sdp_written(rt: HostRuntime) -> Result<(), Fail> {
    for (frames, line) in [
        (2, ""),
        (6, "a=ptime:0.125\r\n"),
        (240, "a=ptime:5\r\n"),
        (48, "a=ptime:1\r\n"),
        (12, "a=ptime:0.25\r\n"),
        (120, "a=ptime:2.5\r\n"),
        (47, ""),
    ] {
        check_written(&rt, rt.alloc(), frames, line)?;
    }
    Ok(())
}

/// The lines of a description with one stream of eight channels.
const STAGE: [&str; 9] = [
    "v=0",
    "o=- 1 1 IN IP4 192.0.2.1",
    "s=stage",
    "t=0 0",
    "m=audio 5004 RTP/AVP 98",
    "c=IN IP4 239.0.0.1/32",
    "a=rtpmap:98 L24/48000/8",
    "a=recvonly",
    "m=video 5006 RTP/AVP 99",
];

/// The text of `STAGE` with another line in place of the seventh, and these ends.
fn stage(alloc: Global, seventh: &str, end: &str) -> Result<Vec<u8>, NoMemory> {
    let mut text = Vec::new(alloc);
    for (at, line) in STAGE.iter().enumerate() {
        let line = if at == 6 { seventh } else { *line };
        text.extend_from_slice(line.as_bytes())?;
        text.extend_from_slice(end.as_bytes())?;
    }
    Ok(text)
}

fn check_stage_device(rt: &impl Abort, device: &Device) {
    let rate = device.rate();
    assert_eq!(rt; (rate.hz, rate.frames), (48000, 48));
    assert_eq!(rt; (device.base(), device.hold()), (0, 1));
    assert_eq!(rt; (device.inputs(), device.outputs()), (1, 1));
    for input in device.input_slice() {
        assert!(rt; input.id.as_slice() == b"in1".as_slice());
        assert_eq!(rt; (input.width, input.payload_type), (Width::L24, 98));
        assert_eq!(rt; (input.channels(), input.block_size), (8, 1));
        assert!(rt; input.reordering);
        for label in input.labels.as_slice().iter().take(1) {
            assert!(rt; label.as_slice() == b"1".as_slice());
        }
    }
    for output in device.output_slice() {
        assert!(rt; output.id.as_slice() == b"out1".as_slice());
        assert_eq!(rt; (output.ssrc, output.channels()), (1, 8));
    }
}

#[test]
fn sdp_read(rt: HostRuntime) -> Result<(), Fail> {
    let alloc = rt.alloc();
    let row = (5004, 98, 3, 48000, 8);
    for end in ["\n", "\r\n"] {
        let text = stage(alloc, "a=rtpmap:98 L24/48000/8", end)?;
        check_streams(&rt, alloc, text.as_slice(), &[row]);
        let bad = stage(alloc, "a=rtpmap:98 L24/48000/x", end)?;
        check_fault(&rt, alloc, bad.as_slice(), Map(7));
    }
    check_fault(&rt, alloc, b"", Start);
    match device_from(alloc, &streams_of(alloc, &[row])?, 48) {
        Ok(device) => check_stage_device(&rt, &device),
        Err(_) => assert!(rt; false, "no device"),
    }
    let wide = make_fault(alloc, &[(5004, 98, 3, 48000, 16)], 48)?;
    assert_eq!(rt; wide, Some(MakeFault::Device(DeviceFault::Payload(0))));
    Ok(())
}

#[test]
fn devices_of_streams(rt: HostRuntime) -> Result<(), Fail> {
    let alloc = rt.alloc();
    let stereo = (5004, 96, 3, 48000, 2);
    let many = [(1, 127, 2, 192000, 255); 20];
    for (rows, frames, fault) in [
        (&TWO[..], 48, None),
        (&[], 48, Some(MakeFault::Empty)),
        (
            &[stereo, (5006, 96, 3, 44100, 2)],
            48,
            Some(MakeFault::Rates),
        ),
        (
            &[(5004, 96, 2, 8000, 1)],
            48,
            Some(MakeFault::Device(DeviceFault::Rate)),
        ),
        (&[stereo], 0, Some(MakeFault::Device(DeviceFault::Rate))),
        (&[stereo; 16], 48, None),
        (
            &[stereo; 17],
            48,
            Some(MakeFault::Device(DeviceFault::ManyInputs)),
        ),
        (&many, 1, Some(MakeFault::Device(DeviceFault::ManyInputs))),
    ] {
        assert_eq!(rt; make_fault(alloc, rows, frames)?, fault);
    }
    let two = streams_of(alloc, &TWO)?;
    assert!(rt; two.copy()?.as_slice() == two.as_slice());
    let text = format!(in alloc; "{}", MakeFault::Device(DeviceFault::ManyInputs))?;
    assert_eq!(rt; text.as_str(), "there are more than 16 inputs");
    Ok(())
}

#[test]
fn streams_of_sections(rt: HostRuntime) -> Result<(), Fail> {
    let alloc = rt.alloc();
    for (more, row) in [
        ("", (5004, 10, 2, 44100, 2)),
        ("a=rtpmap:98 L24/48000/8", (5004, 98, 3, 48000, 8)),
        (
            "a=rtpmap:98 l16/4294967295/255",
            (5004, 98, 2, 4294967295, 255),
        ),
        ("a=rtpmap:98 L24/48000\n\n", (5004, 98, 3, 48000, 1)),
        ("a=rtpmap:10 L16/96000/4\n", (5004, 10, 2, 96000, 4)),
        ("a=rtpmap:0 L24/48000/2\n", (5004, 10, 2, 44100, 2)),
        (
            "a=rtpmap:98 L24/48000/2\na=rtpmap:98 L16/96000",
            (5004, 98, 3, 48000, 2),
        ),
        (
            "a=rtpmap:98 opus/48000/2\na=rtpmap:98 L16/96000",
            (5004, 98, 2, 96000, 1),
        ),
        (
            "a=rtpmap:98  L24/x\na=rtpmap:98 L24\na=rtpmap:128 L24/x",
            (5004, 10, 2, 44100, 2),
        ),
        (
            "m=video 1 RTP/AVP 99\na=rtpmap:99 L24/x\na=rtpmap:98 L24/x",
            (5004, 10, 2, 44100, 2),
        ),
        (
            "m=audio 1 RTP/SAVP x\na=rtpmap:98 L24/x\nm=audio 1 udp 98\nm=",
            (5004, 10, 2, 44100, 2),
        ),
        (
            "m=audio 1 RTP/AVP 0\na=rtpmap:98 L24/48000\n",
            (5004, 10, 2, 44100, 2),
        ),
    ] {
        let text = join(alloc, &[FRONT, more])?;
        check_streams(&rt, alloc, text.as_slice(), &[row]);
    }
    let text = join(
        alloc,
        &[
            "\r\nv=0\na=rtpmap:96 L24/x\nm=audio 1 RTP/AVP 96\r\n",
            "m=audio 0000000002/7 RTP/AVP 0 97\na=rtpmap:96 L16/48000\na=rtpmap:97 L24/48000\r\n",
            "m=audio 65535 RTP/AVP 11 10",
        ],
    )?;
    let rows = [(2, 97, 3, 48000, 1), (65535, 11, 2, 44100, 1)];
    check_streams(&rt, alloc, text.as_slice(), &rows);
    Ok(())
}

#[test]
fn descriptions_of_makers(rt: HostRuntime) -> Result<(), Fail> {
    let desk = [(5004, 98, 3, 48000, 2), (5006, 98, 2, 48000, 2)];
    let camera = [(20002, 97, 3, 48000, 8); 2];
    check_streams(
        &rt,
        rt.alloc(),
        DANTE.as_bytes(),
        &[(5004, 97, 3, 48000, 8)],
    );
    check_streams(&rt, rt.alloc(), RAVENNA.as_bytes(), &desk);
    check_streams(&rt, rt.alloc(), ST2110.as_bytes(), &camera);
    Ok(())
}

#[test]
fn first_faults(rt: HostRuntime) -> Result<(), Fail> {
    let alloc = rt.alloc();
    for (text, fault) in [
        ("\n\r\n", Start),
        ("x", Start),
        ("\n\nm=audio\nv=0", Start),
        ("v=0 \n", Start),
        ("v=0\r", Start),
        ("v=0\r\r\n", Start),
        ("v=0\nV=0\nm=audio", Line(2)),
        ("v=0\r\n\r\n\n-\n", Line(4)),
        ("v=0\n\r", Line(2)),
        ("v=0\nm", Line(2)),
        ("v=0\nm=audio", Media(2)),
        ("v=0\nm=audio 5004 RTP/AVP", Media(2)),
        ("v=0\nm=audio 65536 RTP/AVP 96", Media(2)),
        ("v=0\nm=audio  5004 RTP/AVP 96", Media(2)),
        ("v=0\nm=audio 00000005004 RTP/AVP 96", Media(2)),
        ("v=0\nm=audio 5004 RTP/AVP 128", Media(2)),
        ("v=0\nm=audio 5004 RTP/AVP 96 \nx", Media(2)),
        ("v=0\nm=audio -1 udp 96", Media(2)),
    ] {
        check_fault(&rt, alloc, text.as_bytes(), fault);
    }
    for value in [
        "98 L24/48000/x",
        "98 l24/",
        "98 L16/0",
        "98 L16/4294967296",
        "98 L16/48000/",
        "98 L16/48000/0",
        "98 L16/48000/256",
        "98 L24/48000/2/2",
        "98 L24/ 48000",
        "127 L24/48k",
    ] {
        let text = join(alloc, &[FRONT, "a=rtpmap:", value, "\r\nx"])?;
        check_fault(&rt, alloc, text.as_slice(), Map(6));
    }
    let text = format!(in alloc; "{}", Map(6))?;
    assert_eq!(rt; text.as_str(), "line 6: the rate or the channels are none");
    Ok(())
}

/// A text of a front and a part that comes a number of times.
fn repeat(alloc: Global, front: &str, part: &str, times: usize) -> Result<Vec<u8>, NoMemory> {
    let mut text = join(alloc, &[front])?;
    for _ in 0..times {
        text.extend_from_slice(part.as_bytes())?;
    }
    Ok(text)
}

/// Texts that would take long if lines, words or sections were gone through again for each other
/// one.
#[test]
fn long_texts(rt: HostRuntime) -> Result<(), Fail> {
    let alloc = rt.alloc();
    let line = vec![in alloc; b'x'; 1 << 18]?;
    check_fault(&rt, alloc, line.as_slice(), Start);
    for part in [
        "m=audio 5004 RTP/AVP 96\n",
        "a=rtpmap:98 opus/48000/2\n",
        "\n\r\n\n\r\n\n\r\n\n\r\n",
    ] {
        let text = repeat(alloc, "v=0\nm=audio 5004 RTP/AVP 98\n", part, 5_000)?;
        check_streams(&rt, alloc, text.as_slice(), &[]);
    }
    let words = repeat(alloc, "v=0\nm=audio 5004 RTP/AVP", " 96", 20_000)?;
    check_streams(&rt, alloc, words.as_slice(), &[]);
    Ok(())
}
