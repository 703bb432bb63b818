//! Clients of the control API, by their byte streams. The responses are written out by hand, after
//! the page on HTTP.

use super::{DEVICE, NO_FAULT, expect, hex, push_hex, run};
use std::alloc::Global;
use std::test::Fail;

/// Records in hexadecimal; a piece of a client's stream; or a reply by HTTP, with its client, calls
/// and claims.
#[derive(Clone, Copy)]
enum Part {
    Records(&'static str),
    Piece(u8, &'static str),
    Reply(u8, u8, u8, &'static str),
}

const GET: &str = "GET / HTTP/1.1\r\n\r\n";

const NAMES: &str = "HTTP/1.1 200 OK\r\nContent-Type: application/json\r\nContent-Length: 11\r\n\
    Access-Control-Allow-Origin: *\r\nConnection: keep-alive\r\n\r\n[\"x-nmos/\"]";

const CLOSED: &str = "HTTP/1.1 200 OK\r\nContent-Type: application/json\r\nContent-Length: 11\r\n\
    Access-Control-Allow-Origin: *\r\nConnection: close\r\n\r\n[\"x-nmos/\"]";

const BAD: &str = "HTTP/1.1 400 Bad Request\r\nContent-Type: application/json\r\n\
    Content-Length: 47\r\nAccess-Control-Allow-Origin: *\r\nConnection: close\r\n\r\n\
    {\"code\":400,\"debug\":null,\"error\":\"bad request\"}";

const EMPTY: &str = "HTTP/1.1 200 OK\r\nContent-Type: application/json\r\nContent-Length: 2\r\n\
    Access-Control-Allow-Origin: *\r\nConnection: keep-alive\r\n\r\n{}";

/// Accepted after 2 claims, so it counts from tick 1, which starts after 41666.7 nanoseconds.
const ACTIVATED: &str = "HTTP/1.1 200 OK\r\nContent-Type: application/json\r\n\
    Content-Length: 153\r\nAccess-Control-Allow-Origin: *\r\nConnection: keep-alive\r\n\r\n\
    {\"1\":{\"action\":{\"x\":{\"0\":{\"channel_index\":1,\"input\":\"a\"}}},\
    \"activation\":{\"activation_time\":\"0:41666\",\"mode\":\"activate_immediate\",\
    \"requested_time\":null}}}";

const MAGIC: &str = "43484d524553310a";

const FIRST_TICK: &str =
    "43 0000001d 0000000000000000 00 8060 0000 00000000 00000001 0000000000000000
    43 00000021 0000000000000001 00 8061 0000 00000000 00000002 000000000000000000000000";

const SECOND_TICK: &str =
    "43 0000001d 0000000000000002 00 8060 0001 00000002 00000001 0000000000000000
    43 00000021 0000000000000003 00 8061 0001 00000002 00000002 000000000000000000000000
    45 00000000";

/// Captures, and their results.
const STREAMS: [(&[Part], &[Part]); 5] = [
    // a client that never asks the book is answered before claim 0
    (
        &[
            Part::Records("54 00000004 00000002"),
            Part::Piece(4, GET),
            Part::Records("54 00000004 00000002 45 00000000"),
        ],
        &[
            Part::Records(MAGIC),
            Part::Reply(4, 0, 0, NAMES),
            Part::Records(FIRST_TICK),
            Part::Records(SECOND_TICK),
        ],
    ),
    // a request is answered where its last piece came, which begins the next one
    (
        &[
            Part::Piece(
                0,
                "POST /x-nmos/channelmapping/v1.0/map/activations HTTP/1.1\r\nContent-Le",
            ),
            Part::Records("54 00000004 00000001"),
            Part::Piece(
                0,
                "ngth: 97\r\n\r\n{\"activation\":{\"mode\":\"activate_immediate\"},\"action\":{",
            ),
            Part::Records("54 00000004 00000001"),
            Part::Piece(
                0,
                "\"x\":{\"0\":{\"input\":\"a\",\"channel_index\":1}}}}\
                GET /x-nmos/channelmapping/v1.0/map/activations/ HTTP/1.1\n\n",
            ),
            Part::Records("54 00000004 00000002 45 00000000"),
        ],
        &[
            Part::Records(MAGIC),
            Part::Records(FIRST_TICK),
            Part::Records(
                "48 00000020 0000000000000002 00 0000000000000001 0000000000000001
                    00 01 00 01 000001",
            ),
            Part::Reply(0, 0, 2, ACTIVATED),
            Part::Reply(0, 1, 2, EMPTY),
            Part::Records(SECOND_TICK),
        ],
    ),
    // what is refused is a request, which ends the stream, and the client goes on in plain ones
    (
        &[
            Part::Records("54 00000004 00000002"),
            Part::Piece(3, "GET /\r\n\r\n"),
            Part::Piece(3, GET),
            Part::Records("41 00000002 03 05 54 00000004 00000002 45 00000000"),
        ],
        &[
            Part::Records(MAGIC),
            Part::Reply(3, 0, 0, BAD),
            Part::Records(FIRST_TICK),
            Part::Records("52 00000014 03 0000000000000000 0000000000000002 01 04 00"),
            Part::Records(SECOND_TICK),
        ],
    ),
    // after a request that closes nothing is read
    (
        &[
            Part::Piece(0, "GET / HTTP/1.0\r\n\r\nGET / HTTP/1.1\r\n\r\n"),
            Part::Piece(0, GET),
            Part::Records("45 00000000"),
        ],
        &[
            Part::Records(MAGIC),
            Part::Reply(0, 0, 0, CLOSED),
            Part::Records("45 00000000"),
        ],
    ),
    // after an accepted call the client goes on one call further, still at its claims
    (
        &[
            Part::Records("41 00000008 07 00 01 00 01 00ff00 54 00000004 00000004"),
            Part::Piece(7, GET),
            Part::Records("45 00000000"),
        ],
        &[
            Part::Records(MAGIC),
            Part::Records(
                "48 00000020 0000000000000000 07 0000000000000001 0000000000000000
                    00 01 00 01 00ff00
                    52 00000023 07 0000000000000000 0000000000000000 01 00
                    0000000000000001 0000000000000000",
            ),
            Part::Reply(7, 1, 0, NAMES),
            Part::Records(FIRST_TICK),
            Part::Records(SECOND_TICK),
        ],
    ),
];

/// Adds a record with what stands in front of a text.
fn push_record(made: &mut Vec<u8>, tag: u8, front: &[u8], text: &str) -> Result<(), Fail> {
    let front_length = u32::try_from(front.len()).ok().ok_or("a long record")?;
    let text_length = u32::try_from(text.len()).ok().ok_or("a long record")?;
    let length = front_length
        .checked_add(text_length)
        .ok_or("a long record")?;
    made.push(tag)?;
    made.extend_from_slice(&length.to_be_bytes())?;
    made.extend_from_slice(front)?;
    made.extend_from_slice(text.as_bytes())?;
    Ok(())
}

fn push_part(made: &mut Vec<u8>, part: Part) -> Result<(), Fail> {
    match part {
        Part::Records(digits) => push_hex(made, digits),
        Part::Piece(client, text) => push_record(made, b'Q', &[client], text),
        Part::Reply(client, calls, claims, text) => {
            let mut front = [0u8; 18];
            front[0] = client;
            front[8] = calls;
            front[16] = claims;
            push_record(made, b'R', &front, text)
        }
    }
}

/// The bytes of some parts after those in hexadecimal.
fn parts_behind(alloc: Global, digits: &str, parts: &[Part]) -> Result<Vec<u8>, Fail> {
    let mut made = hex(alloc, digits)?;
    for part in parts {
        push_part(&mut made, *part)?;
    }
    Ok(made)
}

#[test]
fn clients_by_streams(rt: HostRuntime) -> Result<(), Fail> {
    let alloc = rt.alloc();
    for (capture, result) in STREAMS {
        let input = parts_behind(alloc, DEVICE, capture)?;
        let ran = run(alloc, &["serial"], input, NO_FAULT)?;
        expect(&rt, &ran, 0, &parts_behind(alloc, "", result)?, "");
    }
    Ok(())
}
