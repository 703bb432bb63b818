//! How a run ends otherwise than well, and how that is told.

ghost use Rattle.std.specs.Prelude.{◌≡◌, OnOk, codes};
ghost use Rattle.std.specs.List.{flat_map};
ghost use Rattle.std.specs.Io.KnownBytes.{Appends};
ghost use Rattle.chan_io.specs.Causes.{HasCause, Rose};
ghost use Rattle.chan_io.specs.Streams.{TakesPrefix};
ghost use Rattle.chanmap.specs.End.{IsToldEnd, kind_text, line_of, numbered_line, status_of};
ghost use Rattle.chanmap.specs.declared.end.End.TheVariants.{Refused, SdpRefused};

use capture_file::{CaptureFault, CaptureKind};
use chan_io::{Failed, Sink, write_whole};
use itoa::Buffer;
use sdp_audio::{MakeFault, SdpFault};

/// Why no capture is made of a session description.
#[derive(Clone, Copy, Debug, PartialEq, Eq)]
pub enum SdpRefusal {
    /// The text has this fault.
    Text(SdpFault),
    /// Of its streams no device is made.
    Streams(MakeFault),
}

/// Why a run ends otherwise than well.
#[derive(Clone, Copy, Debug, PartialEq, Eq)]
pub enum End {
    /// The words are those of no command.
    Usage,
    /// The source failed.
    ReadFault,
    /// The sink of the result failed.
    WriteFault,
    /// The input has this fault.
    Refused(CaptureFault),
    /// The input has more bytes than are read.
    TooLong,
    /// The input is a session description of which no capture is made.
    SdpRefused(SdpRefusal),
    /// Memory ran out.
    NoMemory,
}

impl End {
    /// The exit status.
    pub(crate) fn status(self) -> u8
        ensures { result ≡ status_of self }
    {
        match self {
            End::Usage => 2,
            End::ReadFault => 3,
            End::WriteFault => 4,
            End::Refused(_) => 5,
            End::TooLong => 7,
            End::SdpRefused(_) => 10,
            End::NoMemory => 12,
        }
    }
}

/// The word of a kind of fault, and the end of the line.
fn kind_text(kind: CaptureKind) -> &'static str
    ensures { result.now ≡ kind_text kind }
{
    match kind {
        CaptureKind::Magic => "magic\n",
        CaptureKind::Cut => "cut\n",
        CaptureKind::Tag => "tag\n",
        CaptureKind::Order => "order\n",
        CaptureKind::Device => "device\n",
        CaptureKind::Body => "body\n",
        CaptureKind::Work => "work\n",
        CaptureKind::Trailing => "trailing\n",
    }
}

/// Gives a sink these texts, one after the other.
#[tactic(auto, using(chan_io::proofs::Told::steps, crate::proofs::Parts::both))]
fn write_parts<X: Sink>(sink: &mut X, parts: &[&[u8]]) -> Result<(), Failed>
    ensures cause { HasCause (X.faults sink.old) (X.faults sink.new) result }
    ensures ok { OnOk result (Appends (X.taken sink.old) (X.taken sink.new)
        (flat_map (λ p. p.now) parts.now)) }
    ensures prefix { TakesPrefix (X.taken sink.old) (X.taken sink.new)
        (flat_map (λ p. p.now) parts.now) }
{
    match parts {
        [] => Ok(()),
        [part, rest @ ..] => {
            write_whole(sink, part)?;
            write_parts(sink, rest)
        }
    }
}

/// Gives a sink the line of a refusal: where the first fault is, and of which kind.
#[tactic(auto, unfolding(crate::specs::End::line_of))]
fn write_refusal<X: Sink>(sink: &mut X, fault: CaptureFault) -> Result<(), Failed>
    ensures cause { HasCause (X.faults sink.old) (X.faults sink.new) result }
    ensures ok { OnOk result (Appends (X.taken sink.old) (X.taken sink.new)
        (line_of (Refused fault))) }
    ensures prefix { TakesPrefix (X.taken sink.old) (X.taken sink.new) (line_of (Refused fault)) }
{
    let mut digits = Buffer::new();
    let place = digits.format(fault.at).as_bytes();
    let kind = kind_text(fault.kind).as_bytes();
    write_parts(sink, &[b"refused at ", place, b": ", kind])
}

/// Gives a sink a line that ends with the number of a line of the input.
#[tactic(auto, unfolding(crate::specs::End::numbered_line))]
fn write_numbered<X: Sink>(sink: &mut X, front: &[u8], number: u32) -> Result<(), Failed>
    ensures cause { HasCause (X.faults sink.old) (X.faults sink.new) result }
    ensures ok { OnOk result (Appends (X.taken sink.old) (X.taken sink.new)
        (numbered_line front.now number)) }
    ensures prefix { TakesPrefix (X.taken sink.old) (X.taken sink.new)
        (numbered_line front.now number) }
{
    let mut digits = Buffer::new();
    let number = digits.format(number).as_bytes();
    write_parts(sink, &[front, number, b"\n"])
}

/// Gives a sink the line of a session description that is refused.
#[tactic(auto, unfolding(crate::specs::End::line_of))]
fn write_sdp_refusal<X: Sink>(sink: &mut X, refusal: SdpRefusal) -> Result<(), Failed>
    ensures cause { HasCause (X.faults sink.old) (X.faults sink.new) result }
    ensures ok { OnOk result (Appends (X.taken sink.old) (X.taken sink.new)
        (line_of (SdpRefused refusal))) }
    ensures prefix { TakesPrefix (X.taken sink.old) (X.taken sink.new)
        (line_of (SdpRefused refusal)) }
{
    match refusal {
        SdpRefusal::Text(SdpFault::Start) => write_whole(sink, b"sdp refused: start\n"),
        SdpRefusal::Text(SdpFault::Line(number)) => {
            write_numbered(sink, b"sdp refused: line ", number)
        }
        SdpRefusal::Text(SdpFault::Media(number)) => {
            write_numbered(sink, b"sdp refused: media ", number)
        }
        SdpRefusal::Text(SdpFault::Map(number)) => {
            write_numbered(sink, b"sdp refused: map ", number)
        }
        SdpRefusal::Streams(MakeFault::Empty) => write_whole(sink, b"sdp refused: empty\n"),
        SdpRefusal::Streams(MakeFault::Rates) => write_whole(sink, b"sdp refused: rates\n"),
        SdpRefusal::Streams(MakeFault::Device(_)) => write_whole(sink, b"sdp refused: device\n"),
    }
}

/// Gives a sink the line of an end.
#[tactic(auto, unfolding(crate::specs::End::line_of))]
fn write_line<X: Sink>(sink: &mut X, end: End) -> Result<(), Failed>
    ensures cause { HasCause (X.faults sink.old) (X.faults sink.new) result }
    ensures ok { OnOk result (Appends (X.taken sink.old) (X.taken sink.new) (line_of end)) }
    ensures prefix { TakesPrefix (X.taken sink.old) (X.taken sink.new) (line_of end) }
{
    match end {
        End::Refused(fault) => write_refusal(sink, fault),
        End::SdpRefused(refusal) => write_sdp_refusal(sink, refusal),
        End::Usage => write_whole(sink, b"usage: chanmap serial | sdp | from-sdp\n"),
        End::ReadFault => write_whole(sink, b"read fault\n"),
        End::WriteFault => write_whole(sink, b"write fault\n"),
        End::TooLong => write_whole(sink, b"too long\n"),
        End::NoMemory => write_whole(sink, b"no memory\n"),
    }
}

/// Gives `err` the line of an end, and returns its status, also where `err` fails.
pub(crate) fn tell<X: Sink>(err: &mut X, end: End) -> u8
    ensures { IsToldEnd result (X.taken err.old) (X.taken err.new)
        (Rose (X.faults err.old) (X.faults err.new)) end }
{
    // A line that could not be written leaves the status.
    let _told = write_line(err, end);
    end.status()
}
