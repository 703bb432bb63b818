//! A capture, and how its bytes are read.

ghost use Rattle.std.specs.Prelude.{◌≡◌, ℕ, IfOk, IfErr};
ghost use Rattle.capture_file.specs.declared.fault.CaptureKind.{CaptureKind};
ghost use Rattle.capture_file.specs.Capture.{CaptureParts, IsAnswer, IsCaptureAt};
ghost use Rattle.capture_file.specs.Fault.{FaultIs, IsRefusal};
ghost use Rattle.capture_file.specs.Walk.{IfFault};

use crate::before::CaptureFront;
use crate::opening::read_opening;
use crate::walk::{RecordFault, walk};
use crate::{CaptureFault, CaptureKind, Format, Items};
use io_caps::{NoMemory, Or, TryCopy};
use map_entry::Setup;
use std::alloc::Global;
use std::marker::Model;

/// What came and what was asked of it: a device with its base rows and its grain, which the format
/// can say, and the records in order. The claims are those of whole ticks, and the records name
/// inputs and clients that are there.
#[derive(Debug, Drop)]
pub struct Capture<'a> {
    pub format: Format,
    pub setup: Setup,
    /// The place of the first record after the device and the grain.
    pub items_at: u64,
    pub items: Items<'a>,
    /// The ticks of all claims together.
    pub ticks: u64,
}

impl<'a> Model for Capture<'a> {
    ghost use Rattle.capture_file.specs.Capture.{CaptureParts, IsCapture, capture_of, opening_of};

    ghost Value = { CaptureParts };

    ghost view = { λ c. capture_of (opening_of c.format c.setup c.items_at) c.items c.ticks };

    ghost invariant = { λ c.
        IsCapture (capture_of (opening_of c.format c.setup c.items_at) c.items c.ticks) };
}

impl<'a> TryCopy for Capture<'a> {
    fn copy(&self) -> Result<Capture<'a>, NoMemory> {
        Ok(Capture {
            format: self.format,
            setup: self.setup.copy()?,
            items_at: self.items_at,
            items: self.items.copy()?,
            ticks: self.ticks,
        })
    }
}

/// The fault that the walk found.
pub(crate) fn placed(found: RecordFault<CaptureKind>) -> CaptureFault
    ensures at { result.at ≡ found.at }
    ensures kind { result.kind ≡ found.fault }
{
    CaptureFault {
        at: found.at as u64,
        kind: found.fault,
    }
}

/// The capture at the front of bytes, or their first fault.
fn read_first<'a>(alloc: Global, bytes: &'a [u8]) -> Result<(Capture<'a>, usize), Or<CaptureFault>>
    ensures found { IfOk result (λ x. IsCaptureAt bytes.now x.0 x.1) }
    ensures fault { IfErr result (λ e. IfFault e (λ f. FaultIs bytes.now f.at f.kind)) }
{
    let (opening, behind) = read_opening(alloc, bytes)?;
    let items = Items::new(alloc);
    let start = CaptureFront { opening, items };
    match walk(alloc, start, CaptureKind::Cut, bytes.len(), behind) {
        Ok(whole) => Ok(whole),
        Err(Or::Fault(found)) => Err(Or::Fault(placed(found))),
        Err(Or::NoMemory) => Err(Or::NoMemory),
    }
}

/// The capture at the front of bytes, which lend it their packets, and the place after its last
/// record; or the first fault, with the place of its record. Each comes exactly where it stands
/// there, unless memory runs out. (This project's own.)
pub fn read_capture<'a>(
    alloc: Global,
    bytes: &'a [u8],
) -> Result<(Capture<'a>, usize), Or<CaptureFault>>
    // The bytes up to the place are a text of the capture.
    ensures found { IfOk result (λ x. IsCaptureAt bytes.now x.0 x.1) }
    // Where they begin with a capture's text, that one is read.
    ensures only { (c : CaptureParts) (at : ℕ) → IsCaptureAt bytes.now c at → IsAnswer result c at }
    // The fault that is answered is the first one.
    ensures fault { IfErr result (λ e. IfFault e (λ f. FaultIs bytes.now f.at f.kind)) }
    // Where they have a first fault, that one is answered.
    ensures exact { (at : ℕ) (kind : CaptureKind)
        → FaultIs bytes.now at kind → IsRefusal result at kind }
{
    read_first(alloc, bytes)
}
