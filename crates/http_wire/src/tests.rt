//! Requests in pieces, the limits of a request, and responses byte for byte.

ghost use Rattle.http_wire.specs.Response.{IsStatus};

use crate::limits::{MOST_BODY, MOST_FIELDS, MOST_HEAD};
use crate::{Extra, HttpRequest, Method, Next, Stream, write_response};
use io_caps::{NoMemory, TryCopy};
use std::alloc::Global;
use std::process::Abort;
use std::test::Fail;

/// What a controller sends to route two channels.
const POST: &str = "POST /x-nmos/channelmapping/v1.0/map/activations HTTP/1.1\r\n\
    Host: 192.0.2.10:8080\r\n\
    User-Agent: Mozilla/5.0\r\n\
    Accept: */*\r\n\
    Content-Type: application/json\r\n\
    Origin: http://192.0.2.20\r\n\
    Content-Length: 159\r\n\
    \r\n\
    {\"activation\":{\"mode\":\"activate_immediate\",\"requested_time\":null},\
    \"action\":{\"x\":{\"0\":{\"input\":null,\"channel_index\":null},\
    \"1\":{\"input\":\"a\",\"channel_index\":1}}}}";

/// How long the body of `POST` is.
const BODY_LEN: usize = 159;

/// An answer as a number: 0 is `Need`, 1 a request, 2 a request that closes, 3 `Ended`, others a
/// status.
fn number_of(next: &Next) -> u16 {
    match next {
        Next::Need => 0,
        Next::Request(request) => 1 + u16::from(request.closes),
        Next::Ended => 3,
        Next::Bad { status } => *status,
    }
}

fn join(alloc: Global, parts: &[&str]) -> Result<Vec<u8>, NoMemory> {
    let mut text = Vec::new(alloc);
    for part in parts {
        text.extend_from_slice(part.as_bytes())?;
    }
    Ok(text)
}

fn repeat(alloc: Global, part: &str, times: usize) -> Result<Vec<u8>, NoMemory> {
    let mut text = Vec::new(alloc);
    for _ in 0..times {
        text.extend_from_slice(part.as_bytes())?;
    }
    Ok(text)
}

/// The first answer to these bytes.
fn first_answer(alloc: Global, bytes: &[u8]) -> Result<Next, NoMemory> {
    let mut stream = Stream::new(alloc)?;
    stream.feed(bytes)?;
    stream.next()
}

/// The first answer to these bytes, as a number.
fn number(alloc: Global, parts: &[&str]) -> Result<u16, NoMemory> {
    let text = join(alloc, parts)?;
    Ok(number_of(&first_answer(alloc, text.as_slice())?))
}

fn check_post(rt: &impl Abort, request: &HttpRequest) {
    assert_eq!(rt; request.method, Method::Post);
    assert_eq!(rt;
        request.path.as_slice(),
        b"/x-nmos/channelmapping/v1.0/map/activations".as_slice()
    );
    assert_eq!(rt; request.body.len(), BODY_LEN);
    assert!(rt; POST.as_bytes().ends_with(request.body.as_slice()));
    assert!(rt; !request.closes);
}

/// `POST` cut before a byte: more is needed, then the request comes, and then more is needed.
fn check_cut(rt: &impl Abort, alloc: Global, cut: usize) -> Result<(), NoMemory> {
    let bytes = POST.as_bytes();
    let mut stream = Stream::new(alloc)?;
    stream.feed(&bytes[..cut.min(bytes.len())])?;
    assert_eq!(rt; number_of(&stream.next()?), 0, "at {cut}");
    stream.feed(&bytes[cut.min(bytes.len())..])?;
    match stream.next()? {
        Next::Request(request) => check_post(rt, &request),
        other => assert_eq!(rt; number_of(&other), 1, "at {cut}"),
    }
    assert_eq!(rt; number_of(&stream.next()?), 0, "at {cut}");
    Ok(())
}

#[test]
fn cut_before_each_byte(rt: HostRuntime) -> Result<(), Fail> {
    for cut in 0..POST.len() {
        check_cut(&rt, rt.alloc(), cut)?;
    }
    Ok(())
}

#[test]
fn byte_by_byte(rt: HostRuntime) -> Result<(), Fail> {
    let mut stream = Stream::new(rt.alloc())?;
    for round in 0..3 {
        for (at, byte) in POST.bytes().enumerate() {
            stream.feed(&[byte])?;
            let answer = number_of(&stream.next()?);
            assert_eq!(rt;
                answer,
                u16::from(at + 1 == POST.len()),
                "round {round} at {at}"
            );
        }
    }
    Ok(())
}

#[test]
fn http_stream_limits(rt: HostRuntime) -> Result<(), Fail> {
    let alloc = rt.alloc();
    for (fields, want) in [
        ("Content-Length: 0", 1),
        ("content-length:\t 00 \t", 1),
        ("Content-Length: 1", 0),
        ("Content-Length: 262144", 0),
        ("Content-Length: 262145", 413),
        ("Content-Length: 99999999999999999999999", 413),
        ("Content-Length: +1", 400),
        ("Content-Length: -1", 400),
        ("Content-Length: 1 1", 400),
        ("Content-Length: 1,1", 400),
        ("Content-Length: 0x1", 400),
        ("Content-Length: ", 400),
        ("Content-Length: 0\r\nCONTENT-LENGTH: 0", 400),
        ("Content-Lengths: 0", 411),
        ("Transfer-Encoding: chunked", 411),
        ("transfer-encoding:\r\nContent-Length: 262145", 411),
    ] {
        let answer = number(alloc, &["POST / HTTP/1.1\r\n", fields, "\r\n\r\n"])?;
        assert_eq!(rt; answer, want, "{fields}");
    }
    Ok(())
}

/// The answer to a head of a given number of bytes.
fn answer_to_head(alloc: Global, len: usize) -> Result<u16, NoMemory> {
    let target = repeat(alloc, "a", len.saturating_sub(18))?;
    let mut bytes = join(alloc, &["GET /"])?;
    bytes.extend_from_slice(target.as_slice())?;
    bytes.extend_from_slice(b" HTTP/1.1\r\n\r\n")?;
    Ok(number_of(&first_answer(alloc, bytes.as_slice())?))
}

/// The answer to a head of a given number of fields.
fn answer_to_fields(alloc: Global, count: usize) -> Result<u16, NoMemory> {
    let fields = repeat(alloc, "a: b\r\n", count)?;
    let mut bytes = join(alloc, &["GET / HTTP/1.1\r\n"])?;
    bytes.extend_from_slice(fields.as_slice())?;
    bytes.extend_from_slice(b"\r\n")?;
    Ok(number_of(&first_answer(alloc, bytes.as_slice())?))
}

#[test]
fn longest_heads(rt: HostRuntime) -> Result<(), Fail> {
    let alloc = rt.alloc();
    assert_eq!(rt; answer_to_head(alloc, MOST_HEAD)?, 1);
    assert_eq!(rt; answer_to_head(alloc, MOST_HEAD + 1)?, 431);
    assert_eq!(rt; answer_to_fields(alloc, MOST_FIELDS)?, 1);
    assert_eq!(rt; answer_to_fields(alloc, MOST_FIELDS + 1)?, 400);
    Ok(())
}

/// The answer to a given number of bytes that begin so, and go on with a letter.
fn answer_to_endless(alloc: Global, front: &[u8], len: usize) -> Result<u16, NoMemory> {
    let letters = repeat(alloc, "a", len.saturating_sub(front.len()))?;
    let mut bytes = Vec::from_slice(alloc, front)?;
    bytes.extend_from_slice(letters.as_slice())?;
    Ok(number_of(&first_answer(alloc, bytes.as_slice())?))
}

#[test]
fn heads_without_end(rt: HostRuntime) -> Result<(), Fail> {
    let alloc = rt.alloc();
    for (front, len, want) in [
        ("GET / HTTP/1.1\r\nA: ", 8191, 0),
        ("GET / HTTP/1.1\r\nA: ", 8192, 431),
        ("GET / HTTP/1.1\r\nA: ", 8193, 431),
        ("GET /", 8192, 431),
        ("GET / HTTP/2.0\r\nA: ", 8192, 400),
        ("GET /\r\nA: ", 8193, 400),
    ] {
        let answer = answer_to_endless(alloc, front.as_bytes(), len)?;
        assert_eq!(rt; answer, want, "{len} {front}");
    }
    Ok(())
}

#[test]
fn many_fields_without_end(rt: HostRuntime) -> Result<(), Fail> {
    let alloc = rt.alloc();
    for (fields, end, want) in [(63, "a: ", 431), (65, "a: ", 400), (65, "\r\n", 400)] {
        let mut front = join(alloc, &["GET / HTTP/1.1\r\n"])?;
        front.extend_from_slice(repeat(alloc, "a: b\r\n", fields)?.as_slice())?;
        front.extend_from_slice(end.as_bytes())?;
        let answer = answer_to_endless(alloc, front.as_slice(), 8192)?;
        assert_eq!(rt; answer, want, "{fields} {end}");
    }
    Ok(())
}

#[test]
fn longest_body(rt: HostRuntime) -> Result<(), Fail> {
    let alloc = rt.alloc();
    let body = repeat(alloc, "b", MOST_BODY - 1)?;
    let mut stream = Stream::new(alloc)?;
    stream.feed(b"PUT / HTTP/1.1\r\nContent-Length: 262144\r\n\r\n")?;
    stream.feed(body.as_slice())?;
    assert_eq!(rt; number_of(&stream.next()?), 0);
    stream.feed(b"bGET")?;
    match stream.next()?.copy()? {
        Next::Request(request) => assert_eq!(rt; request.body.len(), MOST_BODY),
        other => assert_eq!(rt; number_of(&other), 1),
    }
    Ok(())
}

/// The first answer but `Need` to bytes that come one by one, where it comes at the last of them;
/// else 4.
fn last_answer(alloc: Global, text: &str) -> Result<u16, NoMemory> {
    let mut stream = Stream::new(alloc)?;
    for (at, byte) in text.bytes().enumerate() {
        stream.feed(&[byte])?;
        let answer = number_of(&stream.next()?);
        if answer != 0 {
            return Ok(if at + 1 == text.len() { answer } else { 4 });
        }
    }
    Ok(0)
}

#[test]
fn heads_byte_by_byte(rt: HostRuntime) -> Result<(), Fail> {
    for (text, want) in [
        ("\n\r\n\nGET / HTTP/1.1\n\n", 1),
        ("GET / HTTP/1.1\r\nA:\r\nB-c: d, e\t\r\n\r\n", 1),
        ("GET / HTTP/1.1\r\nA: b\0", 400),
        ("GET / HTTP/1.1\r\nA: b\rx", 400),
        ("GET / HTTP/1.1\r\nA ", 400),
        ("GET / HTTP/1.1\r\n:", 400),
        ("GET / HTTP/2.0\r\n", 400),
        ("GET /\r\n", 400),
        ("GET / HTTP/1.1\r\nA:", 0),
        ("\r\n", 0),
    ] {
        assert_eq!(rt; last_answer(rt.alloc(), text)?, want, "{text}");
    }
    Ok(())
}

#[test]
fn last_requests(rt: HostRuntime) -> Result<(), Fail> {
    for (line, want) in [
        ("GET / HTTP/1.0\r\nConnection: keep-alive\r\n\r\n", 2),
        ("GET / HTTP/1.1\r\nconnection: CLOSE\t\r\n\r\n", 2),
        ("GET / HTTP/1.1\r\nConnection: close, x\r\n\r\n", 1),
        ("GET / HTTP/1.1\r\nConnection: keep-alive\r\n\r\n", 1),
    ] {
        assert_eq!(rt; number(rt.alloc(), &[line])?, want, "{line}");
    }
    Ok(())
}

#[test]
fn requests_in_a_row(rt: HostRuntime) -> Result<(), Fail> {
    let mut stream = Stream::new(rt.alloc())?;
    stream.feed(b"GET /a HTTP/1.1\r\n\r\nGET /b HTTP/1.1\r\n\r\n")?;
    stream.feed(b"POST /c HTTP/1.0\r\nContent-Length: 1\r\n\r\nxGET /d HTTP/1.1\r\n\r\n")?;
    for want in [1, 1, 2, 3, 3] {
        assert_eq!(rt; number_of(&stream.next()?), want);
    }
    stream.feed(POST.as_bytes())?;
    assert_eq!(rt; number_of(&stream.next()?), 3);
    let mut refused = Stream::new(rt.alloc())?;
    refused.feed(b"GET / HTTP/9\r\n\r\n")?;
    for want in [400, 3] {
        assert_eq!(rt; number_of(&refused.next()?), want);
    }
    Ok(())
}

fn check_line(rt: &impl Abort, alloc: Global, row: (&str, Method, &str)) -> Result<(), NoMemory> {
    let text = join(alloc, &[row.0, " HTTP/1.1\r\n\r\n"])?;
    match first_answer(alloc, text.as_slice())? {
        Next::Request(request) => {
            assert_eq!(rt; request.method.copy()?, row.1);
            assert_eq!(rt; request.path.as_slice(), row.2.as_bytes());
        }
        other => assert_eq!(rt; number_of(&other), 1),
    }
    Ok(())
}

#[test]
fn methods_and_paths(rt: HostRuntime) -> Result<(), Fail> {
    for row in [
        ("GET /a?b?c", Method::Get, "/a"),
        ("DELETE ?x", Method::Delete, ""),
        ("OPTIONS *", Method::Options, "*"),
        ("get //", Method::Other, "//"),
        ("PUT /\u{e9}", Method::Other, "/\u{e9}"),
    ] {
        check_line(&rt, rt.alloc(), row)?;
    }
    Ok(())
}

/// A response, after bytes that were there.
fn check_response(
    rt: &impl Abort,
    alloc: Global,
    told: (u16, Extra, bool, &str),
    want: &str,
) -> Result<(), NoMemory>
    requires { IsStatus told.0 }
{
    let mut out = join(alloc, &["before"])?;
    write_response(told.0, told.1, told.2, told.3.as_bytes(), &mut out)?;
    let want = join(alloc, &["before", want])?;
    assert_eq!(rt; out.as_slice(), want.as_slice());
    Ok(())
}

#[test]
fn responses_with_body(rt: HostRuntime) -> Result<(), Fail> {
    let alloc = rt.alloc();
    check_response(
        &rt,
        alloc,
        (200, Extra::Nothing, false, "[\"x-nmos/\"]"),
        "HTTP/1.1 200 OK\r\n\
            Content-Type: application/json\r\n\
            Content-Length: 11\r\n\
            Access-Control-Allow-Origin: *\r\n\
            Connection: keep-alive\r\n\
            \r\n\
            [\"x-nmos/\"]",
    )?;
    check_response(
        &rt,
        alloc,
        (405, Extra::AllowDelete, true, "{}"),
        "HTTP/1.1 405 Method Not Allowed\r\n\
            Content-Type: application/json\r\n\
            Content-Length: 2\r\n\
            Access-Control-Allow-Origin: *\r\n\
            Allow: GET, DELETE, OPTIONS\r\n\
            Connection: close\r\n\
            \r\n\
            {}",
    )?;
    check_response(
        &rt,
        alloc,
        (
            503,
            Extra::Nothing,
            false,
            "{\"code\":503,\"debug\":null,\"error\":\"no memory\"}",
        ),
        "HTTP/1.1 503 Service Unavailable\r\n\
            Content-Type: application/json\r\n\
            Content-Length: 45\r\n\
            Access-Control-Allow-Origin: *\r\n\
            Connection: close\r\n\
            \r\n\
            {\"code\":503,\"debug\":null,\"error\":\"no memory\"}",
    )?;
    Ok(())
}

#[test]
fn responses_without_body(rt: HostRuntime) -> Result<(), Fail> {
    let alloc = rt.alloc();
    check_response(
        &rt,
        alloc,
        (204, Extra::Nothing, false, "none"),
        "HTTP/1.1 204 No Content\r\n\
            Access-Control-Allow-Origin: *\r\n\
            Connection: keep-alive\r\n\
            \r\n",
    )?;
    check_response(
        &rt,
        alloc,
        (200, Extra::Preflight, false, "none"),
        "HTTP/1.1 200 OK\r\n\
            Content-Length: 0\r\n\
            Access-Control-Allow-Origin: *\r\n\
            Access-Control-Allow-Methods: GET, POST, DELETE, OPTIONS\r\n\
            Access-Control-Allow-Headers: Content-Type, Accept\r\n\
            Access-Control-Max-Age: 3600\r\n\
            Connection: keep-alive\r\n\
            \r\n",
    )?;
    Ok(())
}

/// Whether a response says that these methods are allowed.
fn allows(alloc: Global, extra: Extra, methods: &str) -> Result<bool, NoMemory> {
    let line = join(alloc, &["\r\nAllow: ", methods, "\r\n"])?;
    let mut out = Vec::new(alloc);
    write_response(405, extra.copy()?, false, b"", &mut out)?;
    Ok(
        out.as_slice()
            .windows(line.len().max(1))
            .any(|part| part == line.as_slice()),
    )
}

#[test]
fn allowed_methods(rt: HostRuntime) -> Result<(), Fail> {
    for (extra, methods) in [
        (Extra::AllowGet, "GET, OPTIONS"),
        (Extra::AllowPost, "GET, POST, OPTIONS"),
        (Extra::AllowDelete, "GET, DELETE, OPTIONS"),
    ] {
        assert!(rt; allows(rt.alloc(), extra, methods)?, "{methods}");
    }
    Ok(())
}

fn check_reason(rt: &impl Abort, alloc: Global, status: u16, want: &str) -> Result<(), NoMemory>
    requires { IsStatus status }
{
    let mut out = Vec::new(alloc);
    write_response(status, Extra::Nothing, false, b"", &mut out)?;
    assert!(rt; out.as_slice().starts_with(want.as_bytes()), "{want}");
    Ok(())
}

#[test]
fn reasons(rt: HostRuntime) -> Result<(), Fail> {
    let alloc = rt.alloc();
    check_reason(&rt, alloc, 202, "HTTP/1.1 202 Accepted\r\n")?;
    check_reason(&rt, alloc, 400, "HTTP/1.1 400 Bad Request\r\n")?;
    check_reason(&rt, alloc, 404, "HTTP/1.1 404 Not Found\r\n")?;
    check_reason(&rt, alloc, 411, "HTTP/1.1 411 Length Required\r\n")?;
    check_reason(&rt, alloc, 413, "HTTP/1.1 413 Content Too Large\r\n")?;
    check_reason(&rt, alloc, 423, "HTTP/1.1 423 Locked\r\n")?;
    check_reason(
        &rt,
        alloc,
        431,
        "HTTP/1.1 431 Request Header Fields Too Large\r\n",
    )?;
    check_reason(&rt, alloc, 503, "HTTP/1.1 503 Service Unavailable\r\n")?;
    Ok(())
}
