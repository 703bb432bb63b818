//! Bytes gathered on their way to a sink, which is given many at once.

ghost use Rattle.std.specs.Prelude.{◌≡◌, ◌≤◌, ◌+◌, ◌++◌, [], ℕ, List, Option, IfOk, OnOk};
ghost use Rattle.std.specs.Prelude.{length, take, vec_len};
ghost use Rattle.chan_io.specs.Causes.{HasCause};
ghost use Rattle.chan_io.specs.Streams.{HasSent, SendsOn, TakesOn, TakesPrefix};

use crate::whole::write_whole;
use crate::{Failed, Sink};
use std::alloc::{AllocError, Global};

/// Bytes on their way to a sink: those at the front of a buffer wait to be given to it. More may be
/// written there in place, after them. A text that met a failure of the sink is not gone on with:
/// how much of what waits the sink took is not known.
#[derive(Drop)]
pub struct Outgoing {
    /// As many bytes as may wait at once.
    pub buffer: Vec<u8>,
    /// How many bytes at the front of the buffer wait.
    pub waiting: usize,
    ghost within: { waiting ≤ vec_len buffer },
}

/// Puts bytes into a buffer, from a place on.
fn put_at(buffer: &mut [u8], at: usize, bytes: &[u8])
    requires { at + length bytes.now ≤ length buffer.old }
    ensures { take (at + length bytes.now) buffer.new ≡ take at buffer.old ++ bytes.now }
{
    let (_, room) = buffer.split_at_mut(at);
    room[..bytes.len()].copy_from_slice(bytes);
}

impl Outgoing {
    ghost use Rattle.chan_io.specs.Outgoing.{waiting_bytes};

    /// A buffer of this size, in which nothing waits.
    pub fn new(alloc: Global, size: usize) -> Result<Outgoing, AllocError>
        ensures waiting { IfOk result (λ out. waiting_bytes out ≡ []) }
        ensures size { IfOk result (λ out. length out.buffer.items ≡ size) }
    {
        Ok(Outgoing {
            buffer: vec![in alloc; 0u8; size]?,
            waiting: 0,
        })
    }

    /// Gives the sink all that waits.
    pub fn flush<K: Sink>(&mut self, sink: &mut K) -> Result<(), Failed>
        ensures cause { HasCause (K.faults sink.old) (K.faults sink.new) result }
        ensures size { length self.new.buffer.items ≡ length self.old.buffer.items }
        ensures none { OnOk result (waiting_bytes self.new ≡ []) }
        ensures sent { OnOk result ((start : Option (List ℕ)) (text : List ℕ)
            → HasSent start (K.taken sink.old) (waiting_bytes self.old) text
            → HasSent start (K.taken sink.new) (waiting_bytes self.new) text) }
        ensures prefix { (start : Option (List ℕ)) (text : List ℕ)
            → HasSent start (K.taken sink.old) (waiting_bytes self.old) text
            → TakesPrefix start (K.taken sink.new) text }
    {
        write_whole(sink, &self.buffer[..self.waiting])?;
        self.waiting = 0;
        Ok(())
    }

    /// Makes room for more bytes, if the buffer has as much: gives the sink what waits only if they
    /// would find none beside it.
    pub fn make_room<K: Sink>(&mut self, sink: &mut K, count: usize) -> Result<(), Failed>
        ensures cause { HasCause (K.faults sink.old) (K.faults sink.new) result }
        ensures size { length self.new.buffer.items ≡ length self.old.buffer.items }
        ensures room { OnOk result (count ≤ length self.old.buffer.items
            → self.new.waiting + count ≤ length self.new.buffer.items) }
        ensures quiet { self.old.waiting + count ≤ length self.old.buffer.items
            → sink.new ≡ sink.old }
        ensures sent { OnOk result ((start : Option (List ℕ)) (text : List ℕ)
            → HasSent start (K.taken sink.old) (waiting_bytes self.old) text
            → HasSent start (K.taken sink.new) (waiting_bytes self.new) text) }
        ensures prefix { (start : Option (List ℕ)) (text : List ℕ)
            → HasSent start (K.taken sink.old) (waiting_bytes self.old) text
            → TakesPrefix start (K.taken sink.new) text }
    {
        if count > self.buffer.len() - self.waiting {
            self.flush(sink)?;
        }
        Ok(())
    }

    /// Appends bytes to those that wait. The sink is called only if they do not fit.
    pub fn put<K: Sink>(&mut self, sink: &mut K, bytes: &[u8]) -> Result<(), Failed>
        ensures cause { HasCause (K.faults sink.old) (K.faults sink.new) result }
        ensures size { length self.new.buffer.items ≡ length self.old.buffer.items }
        ensures quiet { self.old.waiting + length bytes.now ≤ length self.old.buffer.items
            → sink.new ≡ sink.old }
        ensures sent { OnOk result (SendsOn (K.taken sink.old) (waiting_bytes self.old)
            (K.taken sink.new) (waiting_bytes self.new) bytes.now) }
        ensures prefix { TakesOn (K.taken sink.old) (waiting_bytes self.old) (K.taken sink.new)
            bytes.now }
    {
        if bytes.len() > self.buffer.len() {
            self.flush(sink)?;
            write_whole(sink, bytes)?;
            return Ok(());
        }
        self.make_room(sink, bytes.len())?;
        put_at(&mut self.buffer, self.waiting, bytes);
        self.waiting += bytes.len();
        Ok(())
    }
}
