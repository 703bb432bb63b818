ghost use Rattle.std.specs.Prelude.{◌≡◌, ◌<◌, IfOk};

use crate::{
    Failed, MemSink, MemSource, Outgoing, Sink, Source, SourceFault, StdSink, StdSource,
    read_whole, write_whole,
};
use std::alloc::Global;
use std::io::{self, ErrorKind, Read, Write};
use std::process::Abort;
use std::test::Fail;

/// The bytes 0, 1, 2 and so on.
fn counted(alloc: Global, length: u8) -> Result<Vec<u8>, Fail> {
    let mut bytes = Vec::new(alloc);
    for byte in 0..length {
        bytes.push(byte)?;
    }
    Ok(bytes)
}

fn read_in_pieces(rt: &impl Abort, alloc: Global, piece: usize, first: usize) -> Result<(), Fail>
    requires { 0 < piece }
{
    let whole = counted(alloc, 100)?;
    let mut source = MemSource::new(whole.clone()?, piece, Vec::new(alloc));
    let mut buffer = [255u8; 16];
    assert_eq!(rt; source.read(&mut []), Ok(0));
    assert_eq!(rt; source.read(&mut buffer), Ok(first));
    assert_eq!(rt; &buffer[..first.min(16)], &whole[..first.min(100)]);
    let rest = read_whole(alloc, &mut source, 99).ok().ok_or("no rest")?;
    assert_eq!(rt; rest.as_slice(), &whole[first.min(100)..]);
    assert_eq!(rt; source.read(&mut buffer), Ok(0));
    Ok(())
}

#[test]
fn memory_in_pieces(rt: HostRuntime) -> Result<(), Fail> {
    let alloc = rt.alloc();
    read_in_pieces(&rt, alloc, 1, 1)?;
    read_in_pieces(&rt, alloc, 7, 7)?;
    read_in_pieces(&rt, alloc, 64, 16)
}

#[test]
fn failing_source(rt: HostRuntime) -> Result<(), Fail> {
    let alloc = rt.alloc();
    let whole = counted(alloc, 20)?;
    assert_eq!(rt; whole.len(), 20);
    let fails = vec![in alloc; 0, 2]?;
    let mut source = MemSource::new(whole.clone()?, 7, fails);
    let mut buffer = [0u8; 16];
    assert_eq!(rt; source.read(&mut buffer), Err(Failed));
    // the second read gives seven bytes, and the third fails
    let cut = read_whole(alloc, &mut source, 20);
    assert!(rt; matches!(cut, Err(SourceFault::Failed)));
    let rest = read_whole(alloc, &mut source, 20).ok().ok_or("no rest")?;
    assert_eq!(rt; rest.as_slice(), &whole[7..]);
    Ok(())
}

#[test]
fn limit_of_a_source(rt: HostRuntime) -> Result<(), Fail> {
    let alloc = rt.alloc();
    let whole = counted(alloc, 20)?;
    let mut source = MemSource::new(whole.clone()?, 64, Vec::new(alloc));
    let bytes = read_whole(alloc, &mut source, 20).ok().ok_or("too long")?;
    assert_eq!(rt; bytes.as_slice(), whole.as_slice());
    let mut source = MemSource::new(whole.clone()?, 64, Vec::new(alloc));
    let long = read_whole(alloc, &mut source, 18);
    assert!(rt; matches!(long, Err(SourceFault::TooLong)));
    let mut buffer = [0u8; 16];
    assert_eq!(rt; source.read(&mut buffer), Ok(1));
    assert_eq!(rt; buffer[0], 19);
    let mut empty = MemSource::new(Vec::new(alloc), 1, Vec::new(alloc));
    let nothing = read_whole(alloc, &mut empty, 0).ok().ok_or("not empty")?;
    assert!(rt; nothing.is_empty());
    Ok(())
}

#[test]
fn failing_sink(rt: HostRuntime) -> Result<(), Fail> {
    let alloc = rt.alloc();
    let fails = vec![in alloc; 1, 3]?;
    let mut sink = MemSink::new(alloc, fails);
    assert_eq!(rt; sink.write(b"RTP"), Ok(3));
    assert_eq!(rt; sink.write(b"L16"), Err(Failed));
    assert_eq!(rt; write_whole(&mut sink, b"L24"), Ok(()));
    assert_eq!(rt; write_whole(&mut sink, b"L24"), Err(Failed));
    assert_eq!(rt; sink.write(b""), Ok(0));
    assert_eq!(rt; sink.taken(), b"RTPL24".as_slice());
    Ok(())
}

#[test]
fn standard_streams(rt: HostRuntime) -> Result<(), Fail> {
    let alloc = rt.alloc();
    let whole = counted(alloc, 20)?;
    let mut source = StdSource::new(whole.as_slice());
    let mut buffer = [0u8; 6];
    assert_eq!(rt; source.read(&mut buffer), Ok(6));
    let rest = read_whole(alloc, &mut source, 14).ok().ok_or("no rest")?;
    assert_eq!(rt; rest.as_slice(), &whole[6..]);

    let mut written: Vec<u8> = Vec::new(alloc);
    let mut sink = StdSink::new(&mut written);
    assert_eq!(rt; sink.write(b"RTP"), Ok(3));
    assert_eq!(rt; write_whole(&mut sink, b"L24"), Ok(()));
    assert_eq!(rt; written.as_slice(), b"RTPL24".as_slice());
    Ok(())
}

/// A slice takes what it has room for, and then takes nothing, which is a fault.
#[test]
fn full_writer(rt: HostRuntime) {
    let mut room = [0u8; 4];
    let mut sink = StdSink::new(room.as_mut_slice());
    assert_eq!(rt; sink.write(b"RTPL24"), Ok(4));
    assert_eq!(rt; sink.write(b""), Ok(0));
    assert_eq!(rt; write_whole(&mut sink, b"24"), Err(Failed));
}

/// A stream whose first call fails, while later ones do nothing and say that all went well.
#[derive(Drop)]
struct FailsOnce {
    failed: bool,
}

impl FailsOnce {
    /// The answer of a call, where it would else be this one.
    fn answer(&mut self, count: usize) -> io::Result<usize>
        ensures { IfOk result (λ n. n ≡ count) }
    {
        if self.failed {
            return Ok(count);
        }
        self.failed = true;
        Err(io::Error::from(ErrorKind::BrokenPipe))
    }
}

impl Read for FailsOnce {
    fn read(&mut self, _buf: &mut [u8]) -> io::Result<usize> {
        self.answer(0)
    }
}

impl Write for FailsOnce {
    fn write(&mut self, piece: &[u8]) -> io::Result<usize> {
        self.answer(piece.len())
    }

    fn flush(&mut self) -> io::Result<()> {
        Ok(())
    }
}

/// An error is answered, and the stream is not tried again by itself.
#[test]
fn failing_streams(rt: HostRuntime) {
    let mut buffer = [0u8; 4];
    let mut source = StdSource::new(FailsOnce { failed: false });
    assert_eq!(rt; source.read(&mut buffer), Err(Failed));
    assert_eq!(rt; source.read(&mut buffer), Ok(0));
    let mut sink = StdSink::new(FailsOnce { failed: false });
    assert_eq!(rt; sink.write(b"RTP"), Err(Failed));
    assert_eq!(rt; sink.write(b"RTP"), Ok(3));
}

/// Puts each piece, and tells how many bytes the sink has then taken, or that it failed.
fn put_pieces(
    alloc: Global,
    fails: Vec<u64>,
    pieces: &[&[u8]],
) -> Result<Vec<Result<usize, Failed>>, Fail> {
    let mut sink = MemSink::new(alloc, fails);
    let mut out = Outgoing::new(alloc, 4)?;
    let mut counts = Vec::new(alloc);
    for piece in pieces {
        let put = out.put(&mut sink, piece);
        counts.push(put.map(|()| sink.taken().len()))?;
    }
    let rest = out.flush(&mut sink);
    counts.push(rest.map(|()| sink.taken().len()))?;
    Ok(counts)
}

/// Bytes wait while the buffer of four has room; a longer piece goes past it.
#[test]
fn gathered_pieces(rt: HostRuntime) -> Result<(), Fail> {
    let alloc = rt.alloc();
    let pieces: [&[u8]; 6] = [b"RT", b"P", b"L1", b"", b"6L24ab", b"cdef"];
    let counts = put_pieces(alloc, Vec::new(alloc), &pieces)?;
    let want = [Ok(0), Ok(0), Ok(3), Ok(3), Ok(11), Ok(11), Ok(15)];
    assert_eq!(rt; counts.as_slice(), want.as_slice());
    let counts = put_pieces(alloc, vec![in alloc; 0, 1]?, &pieces)?;
    assert_eq!(rt; counts.get(2), Some(&Err(Failed)));
    Ok(())
}
