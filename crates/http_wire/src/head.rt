//! The head of a request, at the front of the bytes that are held.

ghost use Rattle.std.specs.Prelude.{◌≡◌, ◌≤◌, ◌+◌, IfOk, IfErr, All, length, drop, take};
ghost use Rattle.httparse.specs.Spans.{IsRequestWithin, IsWithin, span_bytes};
ghost use Rattle.http_wire.specs.Head.{window};
ghost use Rattle.http_wire.specs.Request.{framing_in, path_in};
ghost use Rattle.http_wire.specs.Found.{EachHeadAt, IsOfHead, HasPath, HasHead};
ghost use Rattle.http_wire.specs.Found.{IsFront, IsRequestOf};
ghost use Rattle.http_wire.specs.declared.fields.Framing.TheVariants.{Refused};

use crate::fields::{Framing, asks_close, read_framing};
use crate::limits::{MOST_FIELDS, MOST_HEAD};
use crate::request::path_len;
use crate::{HttpRequest, Method, status};
use httparse::Status;
use httparse::spans::{EMPTY_HEADER_SPAN, HeaderSpan, RequestSpans, Span, parse_request};
use io_caps::{Bytes, NoMemory, Text};
use std::alloc::Global;

/// A whole head, by its places in the bytes that begin with it.
#[derive(Clone, Copy)]
pub struct Head {
    method: Method,
    path: Span,
    closes: bool,
    /// How many bytes the head has.
    pub(crate) len: usize,
    /// How many bytes its body has.
    pub(crate) body: usize,
}

/// What bytes begin with: no head yet, what is refused, or a head.
#[derive(Clone, Copy)]
pub enum Front {
    Awaited,
    Refused(u16),
    Found(Head),
}

/// The bytes in which a head must lie.
fn window_of(bytes: &[u8]) -> &[u8]
    ensures { result.now ≡ window bytes.now }
{
    if bytes.len() < MOST_HEAD {
        bytes
    } else {
        &bytes[..MOST_HEAD]
    }
}

/// Where the path of a target stands.
fn path_in(bytes: &[u8], target: Span) -> Span
    requires { IsWithin (length bytes.now) target }
    ensures path { span_bytes bytes.now result ≡ path_in (span_bytes bytes.now target) }
    ensures start { result.start ≡ target.start }
    ensures within { (result.start ≤ result.end) × (result.end ≤ target.end) }
{
    Span {
        start: target.start,
        end: target.start + path_len(target.of(bytes)),
    }
}

/// What a head asks for, or the status for which it is refused.
fn take_up(bytes: &[u8], spans: &[HeaderSpan], parts: RequestSpans) -> Result<Head, u16>
    requires { IsRequestWithin bytes.now spans.now parts }
    ensures len { IfOk result (λ head. head.len ≡ parts.len) }
    ensures head { IfOk result
        (λ head. EachHeadAt bytes.now spans.now parts (λ h. IsOfHead h head)) }
    ensures path { IfOk result
        (λ head. EachHeadAt bytes.now spans.now parts (λ h. HasPath bytes.now h head)) }
    ensures refused { IfErr result
        (λ s. EachHeadAt bytes.now spans.now parts (λ h. framing_in h ≡ Refused s)) }
{
    let fields = &spans[..parts.headers];
    let method = Method::of_name(parts.method.of(bytes));
    match read_framing(bytes, fields, method) {
        Framing::Refused(status) => Err(status),
        Framing::Body(body) => Ok(Head {
            method,
            path: path_in(bytes, parts.path),
            closes: parts.version == 0 || asks_close(bytes, fields),
            len: parts.len,
            body,
        }),
    }
}

/// What the bytes begin with.
pub(crate) fn read_front(bytes: &[u8]) -> Front
    ensures { IsFront bytes.now result }
{
    let window = window_of(bytes);
    let mut spans = [EMPTY_HEADER_SPAN; MOST_FIELDS];
    match parse_request(window, &mut spans) {
        Ok(Status::Complete(parts)) => match take_up(window, &spans, parts) {
            Ok(head) => Front::Found(head),
            Err(status) => Front::Refused(status),
        },
        Ok(Status::Partial) => {
            if bytes.len() < MOST_HEAD {
                Front::Awaited
            } else {
                Front::Refused(status::FIELDS_TOO_LARGE)
            }
        }
        Err(_) => Front::Refused(status::BAD_REQUEST),
    }
}

impl Head {
    /// The request of this head, and `None` while a part of its body is missing.
    pub(crate) fn read_request(
        &self,
        alloc: Global,
        bytes: &[u8],
    ) -> Result<Option<HttpRequest>, NoMemory>
        requires { HasHead bytes.now self.now }
        ensures { IfOk result (IsRequestOf bytes.now self.now) }
    {
        if bytes.len() - self.len < self.body {
            return Ok(None);
        }
        let path = Vec::from_slice(alloc, self.path.of(bytes))?;
        let body = Vec::from_slice(alloc, &bytes[self.len..self.len + self.body])?;
        Ok(Some(HttpRequest {
            method: self.method,
            path: Text::from_vec(path),
            body: Bytes::from_vec(body),
            closes: self.closes,
        }))
    }
}
