//! The result of a capture, given to a sink piece by piece: each packet is made in the buffer,
//! after the front of its record.

ghost use Rattle.std.specs.Prelude.{◌≡◌, ◌≤◌, ◌+◌, ◌++◌, [], ℕ, All, IfErr, IfOk, List, OnOk};
ghost use Rattle.std.specs.Prelude.{length, take};
ghost use Rattle.chan_io.specs.Causes.{HasCause, Rose};
ghost use Rattle.chan_io.specs.Outgoing.{waiting_bytes};
ghost use Rattle.chan_io.specs.Streams.{TakesOn};
ghost use Rattle.capture_file.specs.Capture.{IsCapture};
ghost use Rattle.capture_file.specs.Items.{item};
ghost use Rattle.capture_file.specs.Walk.{IfFault, IfNoMemory};
ghost use Rattle.serial_player.specs.HistoryParts.{capture_by};
ghost use Rattle.serial_player.specs.Made.{IsReady, IsRecordOf, packet_length_of};
ghost use Rattle.serial_player.specs.Written.{CanBePut, IsPrepared, IsWritten, IsWrittenInPart};
ghost use Rattle.serial_player.specs.Written.{SendsClaim, SendsClaims, TakesClaims, TakesText};
ghost use Rattle.serial_player.specs.Written.{TakesTextInPart};

use crate::claims::{AllClaims, OneClaim};
use crate::player::{HistoryParts, make_parts};
use capture_file::{
    CLAIM_HEAD_LEN, Capture, Format, Item, end_record, result_magic, write_between,
};
use chan_io::{Failed, Outgoing, Sink};
use io_caps::{Bytes, ListOf, NoMemory, Or};
use map_entry::Setup;
use std::alloc::Global;

/// The most bytes of a result that wait. The longest record of a claim is shorter.
const BUFFER_LEN: usize = 65_536;

const _: () = prove!(BUFFER_LEN == 65_536);

/// Writes the record of a claim, of a given number of bytes, into a buffer from a place on.
fn write_record_at(of: &OneClaim, found: &[bool], buffer: &mut [u8], at: usize, len: usize)
    requires ready { IsReady of.now }
    requires found { length found.now ≡ length of.now.setup.now.device.inputs }
    requires len { len ≡ CLAIM_HEAD_LEN + length found.now + packet_length_of of.now }
    requires room { at + len ≤ length buffer.old }
    ensures { (bytes : List ℕ) × IsRecordOf of.now found.now bytes
        × (take (at + len) buffer.new ≡ take at buffer.old ++ bytes) }
{
    let (_, room) = buffer.split_at_mut(at);
    of.write_record(found, &mut room[..len]);
}

/// Puts the record of a claim after the bytes that wait. `found` is for its flags.
fn put_claim<K: Sink>(
    of: &OneClaim,
    found: &mut [bool],
    out: &mut Outgoing,
    sink: &mut K,
) -> Result<(), Failed>
    requires ready { IsReady of.now }
    requires found { length found.old ≡ length of.now.setup.now.device.inputs }
    requires size { length out.old.buffer.items ≡ BUFFER_LEN }
    ensures cause { HasCause (K.faults sink.old) (K.faults sink.new) result }
    ensures found { length found.new ≡ length found.old }
    ensures size { length out.new.buffer.items ≡ length out.old.buffer.items }
    ensures sent { OnOk result (SendsClaim of.now (K.taken sink.old) (waiting_bytes out.old)
        (K.taken sink.new) (waiting_bytes out.new)) }
    ensures prefix { TakesOn (K.taken sink.old) (waiting_bytes out.old) (K.taken sink.new) [] }
{
    of.set_found(found);
    let len = CLAIM_HEAD_LEN + found.len() + of.packet_len();
    out.make_room(sink, len)?;
    write_record_at(of, found, &mut out.buffer, out.waiting, len);
    out.waiting += len;
    Ok(())
}

/// Puts the records of the first claims after the bytes that wait, each after what stands between
/// it and the claim before it. `found` is for the flags of a claim.
fn put_claims<K: Sink>(
    claims: &AllClaims,
    between: &[Bytes],
    found: &mut [bool],
    out: &mut Outgoing,
    sink: &mut K,
) -> Result<(), Failed>
    requires { CanBePut claims.now between.now found.old out.old }
    ensures cause { HasCause (K.faults sink.old) (K.faults sink.new) result }
    ensures size { length out.new.buffer.items ≡ length out.old.buffer.items }
    ensures sent { OnOk result (SendsClaims claims.now between.now (K.taken sink.old)
        (waiting_bytes out.old) (K.taken sink.new) (waiting_bytes out.new)) }
    ensures prefix { TakesClaims claims.now between.now (K.taken sink.old)
        (waiting_bytes out.old) (K.taken sink.new) }
{
    for k in 0..claims.count {
        out.put(sink, between[k].as_slice())?;
        put_claim(&claims.claim(k), found, out, sink)?;
    }
    Ok(())
}

/// Gives a sink the whole text of a result, in a format. `found` is for the flags of a claim, and nothing waits
/// in `out` before.
fn put_result<K: Sink>(
    format: Format,
    claims: &AllClaims,
    between: &[Bytes],
    found: &mut [bool],
    out: &mut Outgoing,
    sink: &mut K,
) -> Result<(), Failed>
    requires ready { CanBePut claims.now between.now found.old out.old }
    requires waiting { waiting_bytes out.old ≡ [] }
    ensures cause { HasCause (K.faults sink.old) (K.faults sink.new) result }
    ensures ok { OnOk result (TakesText format claims.now between.now (K.taken sink.old)
        (K.taken sink.new)) }
    ensures prefix { TakesTextInPart format claims.now between.now (K.taken sink.old)
        (K.taken sink.new) }
{
    out.put(sink, result_magic(format))?;
    put_claims(claims, between, found, out, sink)?;
    out.put(sink, between[claims.count].as_slice())?;
    out.put(sink, &end_record())?;
    out.flush(sink)
}

/// All that a result is written from and with: from here on no memory is taken.
#[derive(Drop)]
pub(crate) struct Prepared {
    pub(crate) parts: HistoryParts,
    pub(crate) between: ListOf<Bytes>,
    pub(crate) found: Vec<bool>,
    pub(crate) out: Outgoing,
}

/// Does what a setup's records say, whose claims fill `ticks` ticks, and takes all memory that
/// their result in a format wants.
fn prepare(
    alloc: Global,
    format: Format,
    setup: &Setup,
    items: &[Item],
    ticks: u64,
) -> Result<Prepared, NoMemory>
    requires capture { IsCapture (capture_by format setup.now items.now ticks) }
    requires fits { All item.Fits items.now }
    ensures { IfOk result (IsPrepared (capture_by format setup.now items.now ticks)) }
{
    let parts = make_parts(alloc, setup, items, ticks)?;
    let between = write_between(
        alloc,
        format,
        parts.journal.as_slice(),
        parts.replies.as_slice(),
        parts.claims + 1,
    )?;
    Ok(Prepared {
        parts,
        between,
        found: vec![in alloc; false; setup.device.inputs() as usize]?,
        out: Outgoing::new(alloc, BUFFER_LEN)?,
    })
}

/// Gives a sink the result of a setup's records in a format, whose claims fill `ticks` ticks.
fn write_items<K: Sink>(
    alloc: Global,
    format: Format,
    setup: &Setup,
    items: &[Item],
    ticks: u64,
    sink: &mut K,
) -> Result<(), Or<Failed>>
    requires capture { IsCapture (capture_by format setup.now items.now ticks) }
    requires fits { All item.Fits items.now }
    ensures done { OnOk result (IsWritten (capture_by format setup.now items.now ticks)
        (K.taken sink.old) (K.taken sink.new)) }
    ensures cause { IfErr result (λ e. IfFault e (λ f. Rose (K.faults sink.old) (K.faults
        sink.new))) }
    ensures cut_short { IfErr result (λ e. IfFault e (λ f. IsWrittenInPart
        (capture_by format setup.now items.now ticks) (K.taken sink.old) (K.taken sink.new))) }
    ensures nothing { IfErr result (λ e. IfNoMemory e (sink.new ≡ sink.old)) }
{
    let Prepared {
        parts,
        between,
        mut found,
        mut out,
    } = prepare(alloc, format, setup, items, ticks)?;
    let claims = AllClaims {
        setup,
        count: parts.claims as usize,
        entries: parts.entries.as_slice(),
        table: parts.table.as_slice(),
    };
    match put_result(
        format,
        &claims,
        between.as_slice(),
        &mut found,
        &mut out,
        sink,
    ) {
        Ok(()) => Ok(()),
        Err(failed) => Err(Or::Fault(failed)),
    }
}

/// Gives a sink the result of a capture, in the format of the capture: the text that [`write_result`](capture_file::write_result)
/// makes of its [`serial`](crate::serial) history, each packet as it is made. All memory is taken
/// before the sink is given anything: beside what a history is made of, the bytes of the records
/// between its claims, a flag for each input, and one buffer.
pub fn write_serial<K: Sink>(
    alloc: Global,
    capture: &Capture,
    sink: &mut K,
) -> Result<(), Or<Failed>>
    requires fits { All item.Fits capture.now.items }
    // The sink took the result of the serial history, of which nothing is left out, and in which no
    // activation changes a tick that has begun.
    ensures done { OnOk result (IsWritten capture.now (K.taken sink.old) (K.taken sink.new)) }
    // It failed, and took a front of that.
    ensures cause { IfErr result (λ e. IfFault e (λ f. Rose (K.faults sink.old) (K.faults
        sink.new))) }
    ensures cut_short { IfErr result (λ e. IfFault e (λ f. IsWrittenInPart capture.now
        (K.taken sink.old) (K.taken sink.new))) }
    // Memory ran out, and it was not called.
    ensures nothing { IfErr result (λ e. IfNoMemory e (sink.new ≡ sink.old)) }
{
    write_items(
        alloc,
        capture.format,
        &capture.setup,
        capture.items.as_slice(),
        capture.ticks,
        sink,
    )
}
