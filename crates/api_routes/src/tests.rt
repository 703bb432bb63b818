//! Requests over the one-thread book, with the responses byte for byte.

use crate::{
    Answered, Routes, ServeFault, asks, no_memory_response, refuse_stream, respond, serve_request,
};
use channel_json::device_of;
use http_wire::{HttpRequest, Method, Next, Stream};
use io_caps::{Bytes, NoMemory, Text};
use map_entry::{Grain, Setup};
use plain_book::{Desk, PlainDesk, Stamp};
use std::alloc::Global;
use std::process::Abort;
use std::test::Fail;

/// Two outputs, one input.
const DEVICE_P: &str = "{\"rate\":48000,\"frames\":2,\"hold\":1,\"inputs\":[\
    {\"id\":\"a\",\"channels\":[{\"label\":\"1\"},{\"label\":\"2\"}],\
    \"width\":16,\"payload_type\":96}],\
    \"outputs\":[\
    {\"id\":\"x\",\"channels\":[{\"label\":\"1\"},{\"label\":\"2\"}],\
    \"width\":16,\"payload_type\":96,\"ssrc\":1},\
    {\"id\":\"y\",\"channels\":[{\"label\":\"1\"},{\"label\":\"2\"}],\
    \"width\":24,\"payload_type\":97,\"ssrc\":2}]}";

/// The same with a second input, whose channels are routed in pairs and in order, and from which
/// alone `y` may be fed.
const DEVICE_A: &str = "{\"rate\":48000,\"frames\":2,\"hold\":1,\"inputs\":[\
    {\"id\":\"a\",\"channels\":[{\"label\":\"1\"},{\"label\":\"2\"}],\
    \"width\":16,\"payload_type\":96},\
    {\"id\":\"b\",\"channels\":[{\"label\":\"1\"},{\"label\":\"2\"},\
    {\"label\":\"3\"},{\"label\":\"4\"}],\
    \"width\":24,\"payload_type\":97,\"block_size\":2,\"reordering\":false}],\
    \"outputs\":[\
    {\"id\":\"x\",\"channels\":[{\"label\":\"1\"},{\"label\":\"2\"}],\
    \"width\":16,\"payload_type\":96,\"ssrc\":1},\
    {\"id\":\"y\",\"channels\":[{\"label\":\"1\"},{\"label\":\"2\"}],\
    \"width\":24,\"payload_type\":97,\
    \"ssrc\":2,\"routable_inputs\":[\"b\",null]}]}";

const VERSION: &str = "/x-nmos/channelmapping/v1.0/";

const ACTIVATIONS: &str = "map/activations";

/// A method, the path after the version's, and a body; the status and its reason, further lines of
/// the head, and the body that is wanted.
type Step = (
    Method,
    &'static str,
    &'static str,
    &'static str,
    &'static str,
    &'static str,
);

/// The setup that a text says.
fn setup(alloc: Global, text: &str) -> Result<Setup, NoMemory> {
    match device_of(alloc, text.as_bytes()) {
        Ok(setup) => Ok(setup),
        Err(_) => Err(NoMemory),
    }
}

fn request(alloc: Global, method: Method, path: &str, body: &str) -> Result<HttpRequest, NoMemory> {
    let path = Vec::from_slice(alloc, path.as_bytes())?;
    let body = Vec::from_slice(alloc, body.as_bytes())?;
    Ok(HttpRequest {
        method,
        path: Text::from_vec(path),
        body: Bytes::from_vec(body),
        closes: false,
    })
}

/// The response of a request to the book.
fn served(
    alloc: Global,
    setup: &Setup,
    desk: &mut PlainDesk,
    request: &HttpRequest,
) -> Result<(Vec<u8>, Answered), NoMemory> {
    let routes = Routes::new(alloc)?;
    let mut out = Vec::new(alloc);
    match serve_request(alloc, &routes, &setup.device, desk, 0, request, &mut out) {
        Ok(answered) => Ok((out, answered)),
        Err(ServeFault { .. }) => Err(NoMemory),
    }
}

/// A response with a body.
fn response(alloc: Global, status: &str, lines: &str, body: &str) -> Result<String, NoMemory> {
    let len = body.len();
    let text = format!(in alloc;
        "HTTP/1.1 {status}\r\nContent-Type: application/json\r\nContent-Length: {len}\r\n\
        Access-Control-Allow-Origin: *\r\n{lines}Connection: keep-alive\r\n\r\n{body}"
    )?;
    Ok(text)
}

fn check_step(
    rt: &impl Abort,
    alloc: Global,
    setup: &Setup,
    desk: &mut PlainDesk,
    step: &Step,
) -> Result<(), NoMemory> {
    let (method, path, body, status, lines, wanted) = step;
    let whole = format!(in alloc; "{VERSION}{path}")?;
    let request = request(alloc, *method, whole.as_str(), body)?;
    let (out, _) = served(alloc, setup, desk, &request)?;
    let wanted = response(alloc, status, lines, wanted)?;
    assert_eq!(rt; out.as_slice(), wanted.as_bytes(), "{path} {body}");
    Ok(())
}

/// The steps, one after another over one book.
fn check_steps(
    rt: &impl Abort,
    alloc: Global,
    device: &str,
    steps: &[Step],
) -> Result<(), NoMemory> {
    let setup = setup(alloc, device)?;
    let mut desk = PlainDesk::new(alloc, &setup)?;
    for step in steps {
        check_step(rt, alloc, &setup, &mut desk, step)?;
    }
    Ok(())
}

/// Each step over a book of its own.
fn check_each(
    rt: &impl Abort,
    alloc: Global,
    device: &str,
    steps: &[Step],
) -> Result<(), NoMemory> {
    let setup = setup(alloc, device)?;
    for step in steps {
        let mut desk = PlainDesk::new(alloc, &setup)?;
        check_step(rt, alloc, &setup, &mut desk, step)?;
    }
    Ok(())
}

const LOCKS: [Step; 5] = [
    (
        Method::Post,
        ACTIVATIONS,
        "{\"activation\":{\"mode\":\"activate_scheduled_absolute\",\
        \"requested_time\":\"0:416666\"},\
        \"action\":{\"x\":{\"0\":{\"input\":\"a\",\"channel_index\":0}}}}",
        "202 Accepted",
        "",
        "{\"1\":{\"action\":{\"x\":{\"0\":{\"channel_index\":0,\"input\":\"a\"}}},\
        \"activation\":{\"activation_time\":\"0:416666\",\
        \"mode\":\"activate_scheduled_absolute\",\"requested_time\":\"0:416666\"}}}",
    ),
    (
        Method::Post,
        ACTIVATIONS,
        "{\"activation\":{\"mode\":\"activate_immediate\"},\"action\":{\"x\":{\"0\":{}}}}",
        "423 Locked",
        "",
        "{\"code\":423,\"debug\":null,\"error\":\"output locked\"}",
    ),
    (
        Method::Post,
        ACTIVATIONS,
        "{\"activation\":{\"mode\":\"activate_immediate\"},\"action\":{\"y\":{\"0\":{}}}}",
        "200 OK",
        "",
        "{\"2\":{\"action\":{\"y\":{\"0\":{\"channel_index\":null,\"input\":null}}},\
        \"activation\":{\"activation_time\":\"0:0\",\
        \"mode\":\"activate_immediate\",\"requested_time\":null}}}",
    ),
    (
        Method::Get,
        ACTIVATIONS,
        "",
        "200 OK",
        "",
        "{\"1\":{\"action\":{\"x\":{\"0\":{\"channel_index\":0,\"input\":\"a\"}}},\
        \"activation\":{\"activation_time\":\"0:416666\",\
        \"mode\":\"activate_scheduled_absolute\",\"requested_time\":\"0:416666\"}}}",
    ),
    (
        Method::Get,
        "map/activations/1/",
        "",
        "200 OK",
        "",
        "{\"action\":{\"x\":{\"0\":{\"channel_index\":0,\"input\":\"a\"}}},\
        \"activation\":{\"activation_time\":\"0:416666\",\
        \"mode\":\"activate_scheduled_absolute\",\"requested_time\":\"0:416666\"}}",
    ),
];

#[test]
fn locked_output_over_http(rt: HostRuntime) -> Result<(), Fail> {
    check_steps(&rt, rt.alloc(), DEVICE_P, &LOCKS)?;
    Ok(())
}

const TIMES: [Step; 5] = [
    (
        Method::Post,
        ACTIVATIONS,
        "{\"activation\":{\"mode\":\"activate_scheduled_relative\",\
        \"requested_time\":\"0:1000000\"},\"action\":{\"x\":{\"1\":{}}}}",
        "202 Accepted",
        "",
        "{\"1\":{\"action\":{\"x\":{\"1\":{\"channel_index\":null,\"input\":null}}},\
        \"activation\":{\"activation_time\":\"0:1000000\",\
        \"mode\":\"activate_scheduled_relative\",\"requested_time\":\"0:1000000\"}}}",
    ),
    (
        Method::Post,
        ACTIVATIONS,
        "{\"activation\":{\"mode\":\"activate_scheduled_absolute\",\
        \"requested_time\":\"1099511627775:999999999\"},\"action\":{\"x\":{\"1\":{}}}}",
        "400 Bad Request",
        "",
        "{\"code\":400,\"debug\":null,\"error\":\"time out of range\"}",
    ),
    (
        Method::Post,
        ACTIVATIONS,
        "{\"activation\":{\"mode\":\"activate_scheduled_absolute\",\
        \"requested_time\":\"1099511627776:0\"},\"action\":{\"x\":{\"1\":{}}}}",
        "400 Bad Request",
        "",
        "{\"code\":400,\"debug\":null,\"error\":\"body shape: time\"}",
    ),
    (
        Method::Post,
        ACTIVATIONS,
        "{\"activation\":{\"mode\":\"activate_immediate\"},\"action\":{}}",
        "400 Bad Request",
        "",
        "{\"code\":400,\"debug\":null,\"error\":\"no output in action\"}",
    ),
    (
        Method::Post,
        ACTIVATIONS,
        "{\"activation\":{\"mode\":\"activate_immediate\"},\"action\":{\"x\":{\"2\":{}}}}",
        "400 Bad Request",
        "",
        "{\"code\":400,\"debug\":null,\"error\":\"output channel out of range\"}",
    ),
];

#[test]
fn times_and_shapes_over_http(rt: HostRuntime) -> Result<(), Fail> {
    check_each(&rt, rt.alloc(), DEVICE_P, &TIMES)?;
    Ok(())
}

const CAPS: [Step; 9] = [
    (
        Method::Get,
        "inputs/b/caps/",
        "",
        "200 OK",
        "",
        "{\"block_size\":2,\"reordering\":false}",
    ),
    (
        Method::Get,
        "inputs/zz/caps",
        "",
        "404 Not Found",
        "",
        "{\"code\":404,\"debug\":null,\"error\":\"unknown resource\"}",
    ),
    (
        Method::Delete,
        "map/active",
        "",
        "405 Method Not Allowed",
        "Allow: GET, OPTIONS\r\n",
        "{\"code\":405,\"debug\":null,\"error\":\"method not allowed\"}",
    ),
    (
        Method::Delete,
        "inputs/zz/caps",
        "",
        "405 Method Not Allowed",
        "Allow: GET, OPTIONS\r\n",
        "{\"code\":405,\"debug\":null,\"error\":\"method not allowed\"}",
    ),
    (
        Method::Delete,
        "map/activations",
        "",
        "405 Method Not Allowed",
        "Allow: GET, POST, OPTIONS\r\n",
        "{\"code\":405,\"debug\":null,\"error\":\"method not allowed\"}",
    ),
    (
        Method::Other,
        "map/activations/9",
        "",
        "405 Method Not Allowed",
        "Allow: GET, DELETE, OPTIONS\r\n",
        "{\"code\":405,\"debug\":null,\"error\":\"method not allowed\"}",
    ),
    (
        Method::Delete,
        "map/activations/9",
        "",
        "404 Not Found",
        "",
        "{\"code\":404,\"debug\":null,\"error\":\"no such activation\"}",
    ),
    (
        Method::Get,
        "map/activations/18446744073709551615",
        "",
        "404 Not Found",
        "",
        "{\"code\":404,\"debug\":null,\"error\":\"no such activation\"}",
    ),
    (
        Method::Delete,
        "map/activations/09",
        "",
        "404 Not Found",
        "",
        "{\"code\":404,\"debug\":null,\"error\":\"unknown resource\"}",
    ),
];

#[test]
fn caps_and_methods(rt: HostRuntime) -> Result<(), Fail> {
    check_each(&rt, rt.alloc(), DEVICE_A, &CAPS)?;
    Ok(())
}

/// Bodies that are posted to device A, with the text of the error.
const BODIES: [(&str, &str); 7] = [
    ("", "body is not JSON"),
    ("[]", "body shape: top"),
    ("{}", "body shape: activation"),
    ("{\"activation\":{}}", "body shape: mode"),
    (
        "{\"activation\":{\"mode\":\"activate_scheduled_relative\"},\"action\":{}}",
        "body shape: time",
    ),
    (
        "{\"activation\":{\"mode\":\"activate_immediate\"}}",
        "body shape: action",
    ),
    (
        "{\"activation\":{\"mode\":\"activate_scheduled_absolute\",\
        \"requested_time\":\"1099511627775:999999999\"},\"action\":{\"x\":{}}}",
        "time out of range",
    ),
];

/// Actions of an immediate activation on device A, with the text of the error.
const ACTIONS: [(&str, &str); 10] = [
    ("{\"x\":1}", "body shape: output"),
    ("{\"x\":{\"0\":1}}", "body shape: cell"),
    ("{\"z\":{}}", "unknown output"),
    (
        "{\"x\":{\"0\":{\"input\":\"z\",\"channel_index\":0}}}",
        "unknown input",
    ),
    ("{}", "no output in action"),
    ("{\"x\":{\"2\":{}}}", "output channel out of range"),
    (
        "{\"x\":{\"0\":{\"input\":\"a\",\"channel_index\":2}}}",
        "input channel out of range",
    ),
    (
        "{\"y\":{\"0\":{\"input\":\"a\",\"channel_index\":0}}}",
        "input not routable",
    ),
    (
        "{\"y\":{\"0\":{\"input\":\"b\",\"channel_index\":0}}}",
        "block not whole",
    ),
    (
        "{\"y\":{\"0\":{\"input\":\"b\",\"channel_index\":1},\
        \"1\":{\"input\":\"b\",\"channel_index\":0}}}",
        "block reordered",
    ),
];

/// A body that is posted is refused with the status 400 and this text.
fn check_error(
    rt: &impl Abort,
    alloc: Global,
    setup: &Setup,
    body: &str,
    text: &str,
) -> Result<(), NoMemory> {
    let mut desk = PlainDesk::new(alloc, setup)?;
    let path = format!(in alloc; "{VERSION}{ACTIVATIONS}")?;
    let request = request(alloc, Method::Post, path.as_str(), body)?;
    let (out, _) = served(alloc, setup, &mut desk, &request)?;
    let said = format!(in alloc; "{{\"code\":400,\"debug\":null,\"error\":\"{text}\"}}")?;
    let wanted = response(alloc, "400 Bad Request", "", said.as_str())?;
    assert_eq!(rt; out.as_slice(), wanted.as_bytes(), "{body}");
    Ok(())
}

fn check_action(
    rt: &impl Abort,
    alloc: Global,
    setup: &Setup,
    action: &str,
    text: &str,
) -> Result<(), NoMemory> {
    let body = format!(in alloc;
        "{{\"activation\":{{\"mode\":\"activate_immediate\"}},\"action\":{action}}}"
    )?;
    check_error(rt, alloc, setup, body.as_str(), text)
}

#[test]
fn refused_bodies(rt: HostRuntime) -> Result<(), Fail> {
    let setup = setup(rt.alloc(), DEVICE_A)?;
    for (body, text) in &BODIES {
        check_error(&rt, rt.alloc(), &setup, body, text)?;
    }
    Ok(())
}

#[test]
fn refused_actions(rt: HostRuntime) -> Result<(), Fail> {
    let setup = setup(rt.alloc(), DEVICE_A)?;
    for (action, text) in &ACTIONS {
        check_action(&rt, rt.alloc(), &setup, action, text)?;
    }
    Ok(())
}

/// The fixed resources of device A.
const RESOURCES: [(&str, &str); 26] = [
    ("/", "[\"x-nmos/\"]"),
    ("//", "[\"x-nmos/\"]"),
    ("/x-nmos", "[\"channelmapping/\"]"),
    ("/x-nmos/channelmapping/", "[\"v1.0/\"]"),
    (
        "/x-nmos/channelmapping/v1.0",
        "[\"inputs/\",\"outputs/\",\"map/\",\"io/\"]",
    ),
    ("/x-nmos/channelmapping/v1.0/inputs", "[\"a/\",\"b/\"]"),
    ("/x-nmos/channelmapping/v1.0/outputs", "[\"x/\",\"y/\"]"),
    (
        "/x-nmos/channelmapping/v1.0/inputs/a",
        "[\"properties/\",\"parent/\",\"channels/\",\"caps/\"]",
    ),
    (
        "/x-nmos/channelmapping/v1.0/outputs/x",
        "[\"properties/\",\"sourceid/\",\"channels/\",\"caps/\"]",
    ),
    (
        "/x-nmos/channelmapping/v1.0/inputs/b/properties",
        "{\"description\":\"\",\"name\":\"b\"}",
    ),
    (
        "/x-nmos/channelmapping/v1.0/outputs/y/properties",
        "{\"description\":\"\",\"name\":\"y\"}",
    ),
    (
        "/x-nmos/channelmapping/v1.0/inputs/a/parent",
        "{\"id\":null,\"type\":null}",
    ),
    (
        "/x-nmos/channelmapping/v1.0/inputs/a/channels",
        "[{\"label\":\"1\"},{\"label\":\"2\"}]",
    ),
    (
        "/x-nmos/channelmapping/v1.0/outputs/x/channels",
        "[{\"label\":\"1\"},{\"label\":\"2\"}]",
    ),
    (
        "/x-nmos/channelmapping/v1.0/inputs/a/caps",
        "{\"block_size\":1,\"reordering\":true}",
    ),
    ("/x-nmos/channelmapping/v1.0/outputs/x/sourceid", "null"),
    (
        "/x-nmos/channelmapping/v1.0/outputs/x/caps",
        "{\"routable_inputs\":null}",
    ),
    (
        "/x-nmos/channelmapping/v1.0/outputs/y/caps",
        "{\"routable_inputs\":[\"b\",null]}",
    ),
    (
        "/x-nmos/channelmapping/v1.0/map",
        "[\"activations/\",\"active/\"]",
    ),
    ("/x-nmos/channelmapping/v1.0/map/activations", "{}"),
    (
        "/x-nmos/channelmapping/v1.0/map/active/y",
        "{\"activation\":{\"activation_time\":null,\"mode\":null,\"requested_time\":null},\
        \"map\":{\"y\":{\"0\":{\"channel_index\":null,\"input\":null},\
        \"1\":{\"channel_index\":null,\"input\":null}}}}",
    ),
    (
        "/x-nmos/channelmapping/v1.0/map/active",
        "{\"activation\":{\"activation_time\":null,\"mode\":null,\"requested_time\":null},\
        \"map\":{\"x\":{\"0\":{\"channel_index\":null,\"input\":null},\
        \"1\":{\"channel_index\":null,\"input\":null}},\
        \"y\":{\"0\":{\"channel_index\":null,\"input\":null},\
        \"1\":{\"channel_index\":null,\"input\":null}}}}",
    ),
    ("", ""),
    ("/x-nmos/channelmapping/v1.0/inputs//caps", ""),
    ("/x-nmos/channelmapping/v1.0/inputs/a/sourceid", ""),
    ("/x-nmos/channelmapping/v1.0/map/active/a", ""),
];

/// The response to a GET: this body, or where it is empty that there is no such resource.
fn check_resource(
    rt: &impl Abort,
    alloc: Global,
    setup: &Setup,
    path: &str,
    body: &str,
) -> Result<(), NoMemory> {
    let mut desk = PlainDesk::new(alloc, setup)?;
    let request = request(alloc, Method::Get, path, "")?;
    let (out, _) = served(alloc, setup, &mut desk, &request)?;
    let wanted = if body.is_empty() {
        let none = "{\"code\":404,\"debug\":null,\"error\":\"unknown resource\"}";
        response(alloc, "404 Not Found", "", none)?
    } else {
        response(alloc, "200 OK", "", body)?
    };
    assert_eq!(rt; out.as_slice(), wanted.as_bytes(), "{path}");
    Ok(())
}

#[test]
fn resources(rt: HostRuntime) -> Result<(), Fail> {
    let setup = setup(rt.alloc(), DEVICE_A)?;
    for (path, body) in &RESOURCES {
        check_resource(&rt, rt.alloc(), &setup, path, body)?;
    }
    Ok(())
}

/// What a controller sends to route two channels.
const POST: &str = "POST /x-nmos/channelmapping/v1.0/map/activations HTTP/1.1\r\n\
    Host: 192.0.2.10:8080\r\n\
    User-Agent: Mozilla/5.0\r\n\
    Accept: */*\r\n\
    Content-Type: application/json\r\n\
    Origin: http://192.0.2.20\r\n\
    Content-Length: 159\r\n\
    \r\n\
    {\"activation\":{\"mode\":\"activate_immediate\",\"requested_time\":null},\
    \"action\":{\"x\":{\"0\":{\"input\":null,\"channel_index\":null},\
    \"1\":{\"input\":\"a\",\"channel_index\":1}}}}";

const POSTED: &str = "HTTP/1.1 200 OK\r\n\
    Content-Type: application/json\r\n\
    Content-Length: 189\r\n\
    Access-Control-Allow-Origin: *\r\n\
    Connection: keep-alive\r\n\
    \r\n\
    {\"1\":{\"action\":{\"x\":{\"0\":{\"channel_index\":null,\"input\":null},\
    \"1\":{\"channel_index\":1,\"input\":\"a\"}}},\
    \"activation\":{\"activation_time\":\"0:0\",\"mode\":\"activate_immediate\",\
    \"requested_time\":null}}}";

/// The request that these bytes are.
fn first_request(alloc: Global, bytes: &str) -> Result<HttpRequest, NoMemory> {
    let mut stream = Stream::new(alloc)?;
    stream.feed(bytes.as_bytes())?;
    match stream.next()? {
        Next::Request(request) => Ok(request),
        _ => Err(NoMemory),
    }
}

/// The response of a request to the book, and whether the book was asked.
fn check_served(
    rt: &impl Abort,
    alloc: Global,
    setup: &Setup,
    desk: &mut PlainDesk,
    request: &HttpRequest,
    wanted: (&str, Answered),
) -> Result<(), NoMemory> {
    let (out, answered) = served(alloc, setup, desk, request)?;
    assert_eq!(rt; out.as_slice(), wanted.0.as_bytes());
    assert_eq!(rt; answered, wanted.1);
    Ok(())
}

/// The same of a book that was not asked before.
fn check_first(
    rt: &impl Abort,
    alloc: Global,
    request: &HttpRequest,
    wanted: (&str, Answered),
) -> Result<(), NoMemory> {
    let setup = setup(alloc, DEVICE_P)?;
    let mut desk = PlainDesk::new(alloc, &setup)?;
    check_served(rt, alloc, &setup, &mut desk, request, wanted)
}

/// After a number of calls, before any claim.
fn behind(calls: u64) -> Answered {
    Answered::At(Stamp { calls, claims: 0 })
}

#[test]
fn post_immediate(rt: HostRuntime) -> Result<(), Fail> {
    let request = first_request(rt.alloc(), POST)?;
    check_first(&rt, rt.alloc(), &request, (POSTED, behind(0)))?;
    Ok(())
}

const PREFLIGHT: &str = "HTTP/1.1 200 OK\r\n\
    Content-Length: 0\r\n\
    Access-Control-Allow-Origin: *\r\n\
    Access-Control-Allow-Methods: GET, POST, DELETE, OPTIONS\r\n\
    Access-Control-Allow-Headers: Content-Type, Accept\r\n\
    Access-Control-Max-Age: 3600\r\n\
    Connection: close\r\n\
    \r\n";

const DELETED: &str = "HTTP/1.1 204 No Content\r\n\
    Access-Control-Allow-Origin: *\r\n\
    Connection: keep-alive\r\n\
    \r\n";

#[test]
fn preflight(rt: HostRuntime) -> Result<(), Fail> {
    let mut options = request(rt.alloc(), Method::Options, "/any", "")?;
    options.closes = true;
    check_first(&rt, rt.alloc(), &options, (PREFLIGHT, Answered::Still))?;
    Ok(())
}

fn check_deletion(
    rt: &impl Abort,
    alloc: Global,
    setup: &Setup,
    desk: &mut PlainDesk,
) -> Result<(), NoMemory> {
    let path = "/x-nmos/channelmapping/v1.0/map/activations/1";
    let delete = request(alloc, Method::Delete, path, "")?;
    check_served(rt, alloc, setup, desk, &delete, (DELETED, behind(1)))
}

#[test]
fn deletion(rt: HostRuntime) -> Result<(), Fail> {
    let setup = setup(rt.alloc(), DEVICE_P)?;
    let mut desk = PlainDesk::new(rt.alloc(), &setup)?;
    check_step(&rt, rt.alloc(), &setup, &mut desk, &LOCKS[0])?;
    check_deletion(&rt, rt.alloc(), &setup, &mut desk)?;
    Ok(())
}

/// The statuses of a stream that is refused, with the reason and the text.
const STREAMS: [(u16, &str, &str); 4] = [
    (400, "Bad Request", "bad request"),
    (411, "Length Required", "length required"),
    (413, "Content Too Large", "body too large"),
    (431, "Request Header Fields Too Large", "head too large"),
];

fn check_stream(
    rt: &impl Abort,
    alloc: Global,
    status: u16,
    reason: &str,
    text: &str,
) -> Result<(), NoMemory> {
    let mut out = Vec::new(alloc);
    match status {
        400 => refuse_stream(alloc, 400, &mut out)?,
        411 => refuse_stream(alloc, 411, &mut out)?,
        413 => refuse_stream(alloc, 413, &mut out)?,
        _ => refuse_stream(alloc, 431, &mut out)?,
    }
    let said = format!(in alloc; "{{\"code\":{status},\"debug\":null,\"error\":\"{text}\"}}")?;
    let len = said.len();
    let wanted = format!(in alloc;
        "HTTP/1.1 {status} {reason}\r\nContent-Type: application/json\r\nContent-Length: {len}\r\n\
        Access-Control-Allow-Origin: *\r\nConnection: close\r\n\r\n{said}"
    )?;
    assert_eq!(rt; out.as_slice(), wanted.as_bytes(), "{status}");
    Ok(())
}

#[test]
fn refused_streams(rt: HostRuntime) -> Result<(), Fail> {
    for (status, reason, text) in &STREAMS {
        check_stream(&rt, rt.alloc(), *status, reason, text)?;
    }
    let wanted = "HTTP/1.1 503 Service Unavailable\r\nContent-Type: application/json\r\n\
        Content-Length: 45\r\nAccess-Control-Allow-Origin: *\r\nConnection: close\r\n\r\n\
        {\"code\":503,\"debug\":null,\"error\":\"no memory\"}";
    assert_eq!(rt; no_memory_response(), wanted);
    Ok(())
}

/// Paths with a method, and whether the book is asked.
const ASKS: [(Method, &str, bool); 14] = [
    (Method::Get, "map/activations", true),
    (Method::Get, "map/activations/", true),
    (Method::Get, "map/activations//", false),
    (Method::Get, "map/activations/7", true),
    (Method::Delete, "map/activations/7", true),
    (Method::Get, "map/activations/0", false),
    (Method::Get, "map/activations/07", false),
    (Method::Get, "map/activations/+7", false),
    (Method::Get, "map/activations/18446744073709551615", true),
    (Method::Get, "map/activations/18446744073709551616", false),
    (Method::Get, "map/activations/100000000000000000000", false),
    (Method::Get, "map/active/x", true),
    (Method::Get, "map/active/z", false),
    (Method::Post, "map/activations", false),
];

/// Whether the book is asked, and that the response is the same where another is asked apart.
fn check_asks(
    rt: &impl Abort,
    alloc: Global,
    setup: &Setup,
    method: Method,
    path: &str,
    asked: bool,
) -> Result<(), NoMemory> {
    let routes = Routes::new(alloc)?;
    let mut desk = PlainDesk::new(alloc, setup)?;
    let whole = format!(in alloc; "{VERSION}{path}")?;
    let request = request(alloc, method, whole.as_str(), "{}")?;
    let would = asks(alloc, &routes, &setup.device, &request)?;
    assert_eq!(rt; would.is_some(), asked, "{path}");
    let (out, answered) = served(alloc, setup, &mut desk, &request)?;
    assert_eq!(rt; answered != Answered::Still, asked, "{path}");
    let mut other = PlainDesk::new(alloc, setup)?;
    let reply = match &would {
        Some(ask) => Some(other.ask(0, ask)?.0),
        None => None,
    };
    let mut apart = Vec::new(alloc);
    respond(
        alloc,
        &routes,
        &setup.device,
        &request,
        reply.as_ref(),
        &mut apart,
    )?;
    assert_eq!(rt; apart.as_slice(), out.as_slice(), "{path}");
    Ok(())
}

#[test]
fn when_the_book_is_asked(rt: HostRuntime) -> Result<(), Fail> {
    let setup = setup(rt.alloc(), DEVICE_P)?;
    for (method, path, asked) in &ASKS {
        check_asks(&rt, rt.alloc(), &setup, *method, path, *asked)?;
    }
    Ok(())
}

const FROM_FRAME: Step = (
    Method::Post,
    ACTIVATIONS,
    "{\"activation\":{\"mode\":\"activate_scheduled_absolute\",\
    \"requested_time\":\"0:437500\"},\
    \"action\":{\"x\":{\"0\":{\"input\":\"a\",\"channel_index\":0}}}}",
    "202 Accepted",
    "",
    "{\"1\":{\"action\":{\"x\":{\"0\":{\"channel_index\":0,\"input\":\"a\"}}},\
    \"activation\":{\"activation_time\":\"0:437500\",\
    \"mode\":\"activate_scheduled_absolute\",\"requested_time\":\"0:437500\"}}}",
);

/// Where activations count from single frames, the start of the frame is told.
#[test]
fn start_of_a_frame(rt: HostRuntime) -> Result<(), Fail> {
    let mut setup = setup(rt.alloc(), DEVICE_P)?;
    setup.grain = Grain::Frame;
    let mut desk = PlainDesk::new(rt.alloc(), &setup)?;
    check_step(&rt, rt.alloc(), &setup, &mut desk, &FROM_FRAME)?;
    Ok(())
}

#[test]
fn fault_as_text(rt: HostRuntime) -> Result<(), Fail> {
    let fault = ServeFault { asked: None };
    let text = format!(in rt.alloc(); "{fault}")?;
    assert_eq!(rt; text.as_str(), "memory ran out");
    Ok(())
}
