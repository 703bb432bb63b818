//! How the bytes of a result are read.

ghost use Rattle.std.specs.Prelude.{◌≡◌, ◌≤◌, ℕ, List, drop, length, IfOk, IfErr};
ghost use Rattle.book_words.specs.declared.history.History.{History};
ghost use Rattle.capture_file.specs.declared.entries.ResultItem.{ResultItem};
ghost use Rattle.capture_file.specs.declared.fault.CaptureKind.{CaptureKind};
ghost use Rattle.capture_file.specs.Records.{records_of};
ghost use Rattle.capture_file.specs.Result.{result_text, FitsHistory};
ghost use Rattle.capture_file.specs.ResultText.{IsResultAt, IsFile, file_of};
ghost use Rattle.capture_file.specs.ResultFault.{ResultFaultIs};
ghost use Rattle.capture_file.specs.Fault.{IsRefusal};
ghost use Rattle.capture_file.specs.Walk.{IfFault};

use crate::capture::placed;
use crate::result_judging::ResultFront;
use crate::walk::walk;
use crate::{CaptureFault, CaptureKind, Format, ResultFile, result_magic};
use exact_text::literal;
use io_caps::{Device, Or};
use std::alloc::Global;

/// The fault of a kind at a place.
fn fault_at(at: usize, kind: CaptureKind) -> CaptureFault
    ensures at { result.at ≡ at }
    ensures kind { result.kind ≡ kind }
{
    let at = at as u64;
    CaptureFault { at, kind }
}

/// The bytes from a place on.
fn bytes_from(bytes: &[u8], start: usize) -> &[u8]
    requires { start ≤ length bytes.now }
    ensures { result.now ≡ drop start bytes.now }
{
    &bytes[start..]
}

/// The records of the result from a place on, or the first fault.
fn read_records<'a>(
    alloc: Global,
    bytes: &'a [u8],
    start: usize,
    device: &Device,
    format: Format,
) -> Result<ResultFile<'a>, Or<CaptureFault>>
    requires { start ≤ length bytes.now }
    ensures found { IfOk result (λ file. IsResultAt format device.now bytes.now start file) }
    ensures fault { IfErr result (λ e. IfFault e
        (λ f. ResultFaultIs format device.now bytes.now start f.at f.kind)) }
{
    let behind = match literal(bytes_from(bytes, start), result_magic(format)) {
        Ok(behind) => behind,
        Err(_) => return Err(Or::Fault(fault_at(start, CaptureKind::Magic))),
    };
    let records = ResultFile::new(alloc);
    let front = ResultFront {
        format,
        device,
        records,
    };
    match walk(alloc, front, CaptureKind::Cut, bytes.len(), behind) {
        Ok((file, end)) if end == bytes.len() => Ok(file),
        Ok((_, end)) => Err(Or::Fault(fault_at(end, CaptureKind::Trailing))),
        Err(Or::Fault(found)) => Err(Or::Fault(placed(found))),
        Err(Or::NoMemory) => Err(Or::NoMemory),
    }
}

/// The records of a result, each with the place of its tag: of the result of this device, in this
/// format, that stands from a place on to the end of the bytes. The bytes lend packets and
/// responses. The last record, and no other, is [`ResultItem::End`](crate::ResultItem::End). Or the first
/// fault, with its place: `start` where the magic is not there, the record's where one is faulty,
/// and that of the first byte after the last record. Each comes exactly where it stands there,
/// unless memory runs out. (This project's own.)
pub fn read_result<'a>(
    alloc: Global,
    bytes: &'a [u8],
    start: usize,
    device: &Device,
    format: Format,
) -> Result<ResultFile<'a>, Or<CaptureFault>>
    requires { start ≤ length bytes.now }
    // The bytes from the place on are the text of these records.
    ensures found { IfOk result (λ file. IsResultAt format device.now bytes.now start file) }
    // Where they are a result's text, its records are read.
    ensures only { (file : List (ℕ × ResultItem))
        → IsResultAt format device.now bytes.now start file → IsFile result file }
    // A history that was written is read again as its records.
    ensures again { (h : History) → FitsHistory format device.now h
        → drop start bytes.now ≡ result_text format device.now h
        → IsFile result (file_of format device.now start (records_of h)) }
    // The fault that is answered is the first one.
    ensures fault { IfErr result (λ e. IfFault e
        (λ f. ResultFaultIs format device.now bytes.now start f.at f.kind)) }
    // Where they have a first fault, that one is answered.
    ensures exact { (at : ℕ) (kind : CaptureKind)
        → ResultFaultIs format device.now bytes.now start at kind → IsRefusal result at kind }
{
    read_records(alloc, bytes, start, device, format)
}
