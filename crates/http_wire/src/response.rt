//! The responses.

ghost use Rattle.std.specs.Prelude.{◌≡◌, ◌++◌, OnOk, OnErr, length};
ghost use Rattle.exact_text.specs.Spellings.{Grows};
ghost use Rattle.http_wire.specs.Response.{reasons, phrase_in, IsStatus, has_body};
ghost use Rattle.http_wire.specs.Response.{status_line, json_lines, content_lines, extra_lines};
ghost use Rattle.http_wire.specs.Response.{connection_line, response_head, response_text};

use crate::status;
use io_caps::{NoMemory, TryCopy};
use itoa::Buffer;

/// What a response says besides its status and its body.
#[derive(Clone, Copy, Debug, PartialEq, Eq)]
pub enum Extra {
    /// Nothing.
    Nothing,
    /// What a browser may ask for, before it asks (CORS). There is no body.
    Preflight,
    /// The resource can be read.
    AllowGet,
    /// The resource can be read, and takes what is posted.
    AllowPost,
    /// The resource can be read and deleted.
    AllowDelete,
}

impl TryCopy for Extra {
    fn copy(&self) -> Result<Extra, NoMemory> {
        Ok(*self)
    }
}

/// The reason phrase of a status.
fn reason(status: u16) -> &'static str
    requires { IsStatus status }
    ensures { result.now ≡ phrase_in reasons status }
{
    match status {
        status::OK => "OK",
        status::ACCEPTED => "Accepted",
        status::NO_CONTENT => "No Content",
        status::BAD_REQUEST => "Bad Request",
        status::NOT_FOUND => "Not Found",
        status::METHOD_NOT_ALLOWED => "Method Not Allowed",
        status::LENGTH_REQUIRED => "Length Required",
        status::CONTENT_TOO_LARGE => "Content Too Large",
        status::LOCKED => "Locked",
        status::FIELDS_TOO_LARGE => "Request Header Fields Too Large",
        _ => "Service Unavailable",
    }
}

/// Whether the response has a body.
fn has_body(status: u16, extra: Extra) -> bool
    ensures { result ≡ has_body status extra }
{
    status != status::NO_CONTENT && extra != Extra::Preflight
}

#[tactic(auto, using(crate::proofs::growth), unfolding(crate::specs::Response::status_line))]
fn append_status_line(status: u16, out: &mut Vec<u8>) -> Result<(), NoMemory>
    requires { IsStatus status }
    ensures ok { OnOk result (out.new.items ≡ out.old.items ++ status_line status) }
    ensures grows { Grows out.old.items out.new.items }
{
    out.extend_from_slice(b"HTTP/1.1 ")?;
    out.extend_from_slice(Buffer::new().format(status).as_bytes())?;
    out.extend_from_slice(b" ")?;
    out.extend_from_slice(reason(status).as_bytes())?;
    out.extend_from_slice(b"\r\n")?;
    Ok(())
}

/// That the body is JSON, and how long it is.
#[tactic(auto, using(crate::proofs::growth), unfolding(crate::specs::Response::json_lines))]
fn append_json_lines(len: usize, out: &mut Vec<u8>) -> Result<(), NoMemory>
    ensures ok { OnOk result (out.new.items ≡ out.old.items ++ json_lines len) }
    ensures grows { Grows out.old.items out.new.items }
{
    out.extend_from_slice(b"Content-Type: application/json\r\nContent-Length: ")?;
    out.extend_from_slice(Buffer::new().format(len).as_bytes())?;
    out.extend_from_slice(b"\r\n")?;
    Ok(())
}

#[tactic(auto, using(crate::proofs::growth), unfolding(crate::specs::Response::content_lines))]
fn append_content(status: u16, extra: Extra, len: usize, out: &mut Vec<u8>) -> Result<(), NoMemory>
    ensures ok { OnOk result (out.new.items ≡ out.old.items ++ content_lines status extra len) }
    ensures grows { Grows out.old.items out.new.items }
{
    if has_body(status, extra) {
        append_json_lines(len, out)?;
    } else if status != status::NO_CONTENT {
        out.extend_from_slice(b"Content-Length: 0\r\n")?;
    }
    Ok(())
}

impl Extra {
    /// The lines of its fields.
    #[tactic(auto, unfolding(crate::specs::Response::extra_lines))]
    fn lines(self) -> &'static str
        ensures { result.now ≡ extra_lines self }
    {
        match self {
            Extra::Nothing => "",
            Extra::Preflight => {
                "Access-Control-Allow-Methods: GET, POST, DELETE, OPTIONS\r\n\
                Access-Control-Allow-Headers: Content-Type, Accept\r\n\
                Access-Control-Max-Age: 3600\r\n"
            }
            Extra::AllowGet => "Allow: GET, OPTIONS\r\n",
            Extra::AllowPost => "Allow: GET, POST, OPTIONS\r\n",
            Extra::AllowDelete => "Allow: GET, DELETE, OPTIONS\r\n",
        }
    }
}

/// The line that says whether the connection stays.
#[tactic(auto, unfolding(crate::specs::Response::connection_line))]
fn connection(status: u16, closes: bool) -> &'static str
    ensures { result.now ≡ connection_line status closes }
{
    if closes || status == status::SERVICE_UNAVAILABLE {
        "Connection: close\r\n"
    } else {
        "Connection: keep-alive\r\n"
    }
}

#[tactic(auto, using(crate::proofs::growth), unfolding(crate::specs::Response::response_head))]
fn append_head(
    status: u16,
    extra: Extra,
    closes: bool,
    len: usize,
    out: &mut Vec<u8>,
) -> Result<(), NoMemory>
    requires { IsStatus status }
    ensures ok { OnOk result
        (out.new.items ≡ out.old.items ++ response_head status extra closes len) }
    ensures grows { Grows out.old.items out.new.items }
{
    append_status_line(status, out)?;
    append_content(status, extra, len, out)?;
    out.extend_from_slice(b"Access-Control-Allow-Origin: *\r\n")?;
    out.extend_from_slice(extra.lines().as_bytes())?;
    out.extend_from_slice(connection(status, closes).as_bytes())?;
    out.extend_from_slice(b"\r\n")?;
    Ok(())
}

#[tactic(auto, using(crate::proofs::growth))]
fn append_response(
    status: u16,
    extra: Extra,
    closes: bool,
    body: &[u8],
    out: &mut Vec<u8>,
) -> Result<(), NoMemory>
    requires { IsStatus status }
    ensures ok { OnOk result
        (out.new.items ≡ out.old.items ++ response_text status extra closes body.now) }
    ensures grows { Grows out.old.items out.new.items }
{
    append_head(status, extra, closes, body.len(), out)?;
    if has_body(status, extra) {
        out.extend_from_slice(body)?;
    }
    Ok(())
}

/// Appends a response of a status that is one of [`crate::status`]. Its body is JSON; with the
/// status 204 and for a preflight there is none, whatever is given. The connection is told to end
/// where `closes` says so, and with the status 503. If memory runs out, `out` stays as it was.
pub fn write_response(
    status: u16,
    extra: Extra,
    closes: bool,
    body: &[u8],
    out: &mut Vec<u8>,
) -> Result<(), NoMemory>
    requires { IsStatus status }
    ensures ok { OnOk result
        (out.new.items ≡ out.old.items ++ response_text status extra closes body.now) }
    ensures err { OnErr result (out.new.items ≡ out.old.items) }
{
    let start = out.len();
    let written = append_response(status, extra, closes, body, out);
    if written.is_err() {
        out.truncate(start);
    }
    written
}
