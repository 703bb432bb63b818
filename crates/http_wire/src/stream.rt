//! The stream of a client's requests.

ghost use Rattle.std.specs.Prelude.{◌≡◌, [], IfOk, OnOk, OnErr};
ghost use Rattle.http_wire.specs.Stream.{holds, ended, fed, Steps, IsAnswered, FeedsOn, AnswersOn};

use crate::HttpRequest;
use crate::head::Front;
use crate::held::ByteQueue;
use crate::known::HeadScan;
use io_caps::{NoMemory, TryCopy};
use std::alloc::Global;
use std::marker::Model;

/// What a stream answers.
#[derive(Debug, Drop)]
pub enum Next {
    /// No request is whole: more bytes are needed.
    Need,
    /// The next request.
    Request(HttpRequest),
    /// The bytes are refused with this status, and nothing is read after them.
    Bad { status: u16 },
    /// The stream has ended: a request closed it, or its bytes were refused.
    Ended,
}

impl TryCopy for Next {
    fn copy(&self) -> Result<Next, NoMemory> {
        match self {
            Next::Need => Ok(Next::Need),
            Next::Request(request) => Ok(Next::Request(request.copy()?)),
            Next::Bad { status } => Ok(Next::Bad { status: *status }),
            Next::Ended => Ok(Next::Ended),
        }
    }
}

/// The stream of one client. Contracts see where it stands: the bytes that no answer has taken, or
/// its end.
#[derive(Drop)]
pub struct Stream {
    alloc: Global,
    held: ByteQueue,
    /// What is known of the bytes that are held.
    known: HeadScan,
    closed: bool,
}

impl Model for Stream {
    ghost use Rattle.std.specs.Prelude.{if◌then◌else◌};
    ghost use Rattle.http_wire.specs.Stream.{Stand, holds, ended};
    ghost use Rattle.http_wire.specs.Found.{IsKnown};

    ghost Value = { Stand };

    ghost view = { λ s. if s.closed then ended else holds s.held };

    ghost invariant = { λ s. IsKnown s.held s.known };
}

impl Stream {
    /// The stream of a new client.
    pub fn new(alloc: Global) -> Result<Stream, NoMemory>
        ensures holds { IfOk result (λ stream. stream ≡ holds []) }
        ensures whole { IfOk result (λ stream. IsAnswered [] [] stream) }
    {
        Ok(Stream {
            alloc,
            held: ByteQueue::new(alloc),
            known: HeadScan::NOTHING,
            closed: false,
        })
    }

    /// Takes a piece of the client's bytes, which is not kept once the stream has ended. If memory
    /// runs out, the stream stays as it was.
    pub fn feed(&mut self, piece: &[u8]) -> Result<(), NoMemory>
        ensures ok { OnOk result (self.new ≡ fed self.old piece.now) }
        ensures err { OnErr result (self.new ≡ self.old) }
        ensures whole { OnOk result (FeedsOn self.old piece.now self.new) }
    {
        if self.closed {
            return Ok(());
        }
        self.held.append(piece)
    }

    /// The next answer to the bytes. If memory runs out, the stream stays as it was, so the call
    /// can be made again.
    pub fn next(&mut self) -> Result<Next, NoMemory>
        ensures ok { IfOk result (λ next. Steps self.old next self.new) }
        ensures err { OnErr result (self.new ≡ self.old) }
        ensures whole { IfOk result (λ next. AnswersOn self.old next self.new) }
    {
        if self.closed {
            return Ok(Next::Ended);
        }
        match self.known.find_front(self.held.as_slice()) {
            Front::Awaited => Ok(Next::Need),
            Front::Refused(status) => {
                self.held.clear();
                self.known = HeadScan::NOTHING;
                self.closed = true;
                Ok(Next::Bad { status })
            }
            Front::Found(head) => match head.read_request(self.alloc, self.held.as_slice())? {
                None => Ok(Next::Need),
                Some(request) => {
                    self.held.take(head.len + head.body);
                    self.known = HeadScan::NOTHING;
                    self.closed = request.closes;
                    Ok(Next::Request(request))
                }
            },
        }
    }
}
