//! A request of a client.

ghost use Rattle.std.specs.Prelude.{◌≡◌, ◌≤◌, length, take};
ghost use Rattle.http_wire.specs.Request.{method_in, path_in};

use io_caps::{Bytes, NoMemory, Text, TryCopy};

/// What a request asks to be done with its resource (RFC 9110 section 9).
#[derive(Clone, Copy, Debug, PartialEq, Eq)]
pub enum Method {
    Get,
    Post,
    Delete,
    Options,
    /// Any other method, known to HTTP or not.
    Other,
}

impl Method {
    /// The method of a name, in which capital and small letters differ.
    pub(crate) fn of_name(name: &[u8]) -> Method
        ensures { result ≡ method_in name.now }
    {
        if name == b"GET".as_slice() {
            Method::Get
        } else if name == b"POST".as_slice() {
            Method::Post
        } else if name == b"DELETE".as_slice() {
            Method::Delete
        } else if name == b"OPTIONS".as_slice() {
            Method::Options
        } else {
            Method::Other
        }
    }
}

impl TryCopy for Method {
    fn copy(&self) -> Result<Method, NoMemory> {
        Ok(*self)
    }
}

/// A whole request: its method, its target up to the first `?`, its body, and whether it is the
/// last one of its connection.
#[derive(Debug, Drop)]
pub struct HttpRequest {
    pub method: Method,
    pub path: Text,
    pub body: Bytes,
    pub closes: bool,
}

impl TryCopy for HttpRequest {
    fn copy(&self) -> Result<HttpRequest, NoMemory> {
        Ok(HttpRequest {
            method: self.method,
            path: self.path.copy()?,
            body: self.body.copy()?,
            closes: self.closes,
        })
    }
}

/// How many bytes of a target stand before its first `?`.
pub(crate) fn path_len(target: &[u8]) -> usize
    ensures path { path_in target.now ≡ take result target.now }
    ensures within { result ≤ length target.now }
{
    for (len, byte) in target.iter().enumerate() {
        if *byte == b'?' {
            return len;
        }
    }
    target.len()
}
