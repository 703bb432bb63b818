//! What is known of the bytes that are held, so that a head is not read anew for each byte.

ghost use Rattle.std.specs.Prelude.{◌≡◌, true, IfSome, IfNone};
ghost use Rattle.http_wire.specs.Found.{IsKnown, IsFront};
ghost use Rattle.http_wire.specs.Line.{AreWholeLines};
ghost use Rattle.http_wire.specs.Head.{IsOpen, has_line};

use crate::head::{Front, Head, read_front};
use crate::limits::MOST_HEAD;
use crate::line::Part;
use crate::scan::scan_line;

/// What is known of bytes. It stays so when more bytes come.
#[derive(Clone, Copy)]
pub enum HeadScan {
    /// The first `seen` bytes have no whole line; whether one has begun.
    NoLine { seen: usize, begun: bool },
    /// A line is whole.
    Lines,
    /// The first `seen` bytes are whole lines of a head and a part of one more.
    OpenLine { seen: usize, part: Part },
    /// A head is whole.
    Whole(Head),
}

/// The bytes up to the last line feed.
fn whole_lines(bytes: &[u8]) -> &[u8]
    ensures { AreWholeLines bytes.now result.now }
{
    let mut lines = bytes;
    while let Some((last, front)) = lines.split_last() {
        if *last == b'\n' {
            return lines;
        }
        lines = front;
    }
    lines
}

impl HeadScan {
    /// Nothing is known.
    pub(crate) const NOTHING: HeadScan = HeadScan::NoLine {
        seen: 0,
        begun: false,
    };

    /// What is known once more bytes came, where these cannot end a head nor make it one that
    /// cannot come; `None` where the head is to be read.
    fn go_on(self, bytes: &[u8]) -> Option<HeadScan>
        requires { IsKnown bytes.now self }
        ensures open { IfSome result (λ known. IsOpen bytes.now) }
        ensures known { IfSome result (λ known. IsKnown bytes.now known) }
        ensures none { IfNone result (has_line bytes.now ≡ true) }
    {
        match self {
            HeadScan::NoLine { seen, begun } => match scan_line(begun, &bytes[seen..]) {
                None => None,
                Some(begun) => Some(HeadScan::NoLine {
                    seen: bytes.len(),
                    begun,
                }),
            },
            HeadScan::OpenLine { seen, part } => match part.with_bytes(&bytes[seen..]) {
                None => None,
                Some(part) => Some(HeadScan::OpenLine {
                    seen: bytes.len(),
                    part,
                }),
            },
            HeadScan::Lines => None,
            HeadScan::Whole(_) => None,
        }
    }

    /// What is known of bytes that can become a head.
    fn of_open(bytes: &[u8]) -> HeadScan
        requires open { IsOpen bytes.now }
        requires line { has_line bytes.now ≡ true }
        ensures { IsKnown bytes.now result }
    {
        let lines = whole_lines(bytes);
        match Part::Start.with_bytes(&bytes[lines.len()..]) {
            None => HeadScan::Lines,
            Some(part) => HeadScan::OpenLine {
                seen: bytes.len(),
                part,
            },
        }
    }

    /// What the bytes begin with. A head is read where a line has ended, or where a byte is none of
    /// a field; other bytes are looked at once.
    pub(crate) fn find_front(&mut self, bytes: &[u8]) -> Front
        requires { IsKnown bytes.now self.old }
        ensures front { IsFront bytes.now result }
        ensures known { IsKnown bytes.now self.new }
    {
        if let HeadScan::Whole(head) = *self {
            return Front::Found(head);
        }
        let known = self.go_on(bytes);
        if bytes.len() < MOST_HEAD
            && let Some(known) = known
        {
            *self = known;
            return Front::Awaited;
        }
        let front = read_front(bytes);
        *self = match front {
            Front::Awaited => HeadScan::of_open(bytes),
            Front::Found(head) => HeadScan::Whole(head),
            Front::Refused(_) => HeadScan::NOTHING,
        };
        front
    }
}
