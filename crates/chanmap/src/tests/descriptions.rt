//! Session descriptions.

use super::{DEVICE, MID_TICK, NO_FAULT, Outside, capture, expect, hex, push_hex, run};
use std::alloc::Global;
use std::test::Fail;

/// The lines of the session that is written.
const SESSION: &str = "v=0\r\no=- 0 0 IN IP4 127.0.0.1\r\ns=chanmap\r\n\
    c=IN IP4 127.0.0.1\r\nt=0 0\r\n";

/// The description of the outputs `x` and `y`, with this line in each section.
fn description(alloc: Global, line: &str) -> Result<Vec<u8>, Fail> {
    let mut made = Vec::new(alloc);
    for part in [
        SESSION,
        "m=audio 6004 RTP/AVP 96\r\na=rtpmap:96 L16/48000/2\r\n",
        line,
        "m=audio 6006 RTP/AVP 97\r\na=rtpmap:97 L24/48000/2\r\n",
        line,
    ] {
        made.extend_from_slice(part.as_bytes())?;
    }
    Ok(made)
}

/// A capture of the device of the other tests with this many frames a tick, and no claims.
fn with_frames(alloc: Global, frames: &str) -> Result<Vec<u8>, Fail> {
    let mut made = hex(alloc, "43484d434150310a 44 00000034 0000bb80")?;
    push_hex(&mut made, frames)?;
    push_hex(
        &mut made,
        "0000000000000000 01 01 02 01 61 02 10 60 01 01 01 78 02 10 60 00000001 ff ff00 ff00
            01 79 02 18 61 00000002 ff ff00 ff00 45 00000000",
    )?;
    Ok(made)
}

/// The lines of a description with one stream of eight channels.
const STAGE: [&str; 9] = [
    "v=0",
    "o=- 1 1 IN IP4 192.0.2.1",
    "s=stage",
    "t=0 0",
    "m=audio 5004 RTP/AVP 98",
    "c=IN IP4 239.0.0.1/32",
    "a=rtpmap:98 L24/48000/8",
    "a=recvonly",
    "m=video 5006 RTP/AVP 99",
];

/// The capture that is made of it with 48 frames a tick.
const STAGE_CAPTURE: &str = "43484d434150320a 44 00000037
    0000bb80 0030 0000000000000000 01 01 01
    03 696e31 08 18 62 01 01
    04 6f757431 08 18 62 00000001 ff 0000 0001 0002 0003 0004 0005 0006 0007
    45 00000000";

/// The text of `STAGE` with another seventh line, where each line has this end.
fn stage(alloc: Global, seventh: &str, end: &str) -> Result<Vec<u8>, Fail> {
    let mut made = Vec::new(alloc);
    for (at, line) in STAGE.iter().enumerate() {
        let line = if at == 6 { seventh } else { *line };
        made.extend_from_slice(line.as_bytes())?;
        made.extend_from_slice(end.as_bytes())?;
    }
    Ok(made)
}

#[test]
fn sdp_read(rt: HostRuntime) -> Result<(), Fail> {
    let alloc = rt.alloc();
    for (frames, end) in [("48", "\n"), ("+048", "\r\n")] {
        let text = stage(alloc, "a=rtpmap:98 L24/48000/8", end)?;
        let ran = run(alloc, &["from-sdp", frames], text, NO_FAULT)?;
        expect(&rt, &ran, 0, &hex(alloc, STAGE_CAPTURE)?, "");
    }
    for (seventh, line) in [
        ("a=rtpmap:98 L24/48000/x", "sdp refused: map 7\n"),
        ("a=rtpmap:98 L24/48000/16", "sdp refused: device\n"),
        ("A=rtpmap:98 L24/48000/8", "sdp refused: line 7\n"),
        ("m=audio 5004", "sdp refused: media 7\n"),
        ("a=rtpmap:98 opus/48000/2", "sdp refused: empty\n"),
        (
            "a=rtpmap:98 L24/48000\nm=audio 1 RTP/AVP 10",
            "sdp refused: rates\n",
        ),
    ] {
        let text = stage(alloc, seventh, "\n")?;
        let ran = run(alloc, &["from-sdp", "48"], text, NO_FAULT)?;
        expect(&rt, &ran, 10, &[], line);
    }
    let ran = run(alloc, &["from-sdp", "48"], Vec::new(alloc), NO_FAULT)?;
    expect(&rt, &ran, 10, &[], "sdp refused: start\n");
    Ok(())
}

#[test]
fn sdp_written(rt: HostRuntime) -> Result<(), Fail> {
    let alloc = rt.alloc();
    for (frames, line) in [
        ("0002", ""),
        ("0006", "a=ptime:0.125\r\n"),
        ("00f0", "a=ptime:5\r\n"),
    ] {
        let ran = run(alloc, &["sdp"], with_frames(alloc, frames)?, NO_FAULT)?;
        expect(&rt, &ran, 0, &description(alloc, line)?, "");
    }
    let ran = run(alloc, &["sdp"], capture(alloc, MID_TICK)?, NO_FAULT)?;
    expect(&rt, &ran, 0, &description(alloc, "")?, "");
    let ran = run(alloc, &["sdp"], hex(alloc, DEVICE)?, NO_FAULT)?;
    expect(&rt, &ran, 5, &[], "refused at 65: cut\n");
    let outside = Outside {
        write: Some(0),
        ..NO_FAULT
    };
    let ran = run(alloc, &["sdp"], capture(alloc, MID_TICK)?, outside)?;
    expect(&rt, &ran, 4, &[], "write fault\n");
    Ok(())
}
