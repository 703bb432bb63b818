//! A device with its base rows.

ghost use Rattle.std.specs.Prelude.{◌≡◌, ◌<◌, ◌↔◌, IsTrue, IfOk, IfErr, OnOk, OnErr, Some};
ghost use Rattle.std.specs.Prelude.{IsSomeAnd, slice_get, length};
ghost use Rattle.std.specs.List.{AllZip};
ghost use Rattle.map_entry.specs.Setup.{IsSetup, IsBrokenBy, AreRowsOk};
ghost use Rattle.map_entry.specs.Setup.{HasCells, HasRowFault, setup_of};
ghost use Rattle.io_caps.specs.Memory.{IsFaultAnd};

use crate::{Grain, Row, RowFault, Rows, SetupFault, check_row};
use io_caps::{Device, NoMemory, Or, Output, TryCopy};
use std::alloc::Global;
use std::marker::Model;

/// A device with a base row for each output, which has a cell for each channel and passes the
/// check.
#[derive(Debug, Drop)]
pub struct Setup {
    pub device: Device,
    pub rows: Rows,
    pub grain: Grain,
}

impl Model for Setup {
    ghost use Rattle.map_entry.specs.Setup.{SetupParts, setup_with, IsSetup};

    ghost Value = { SetupParts };

    ghost view = { λ s. setup_with s.device s.rows s.grain };

    ghost invariant = { λ s. IsSetup (setup_with s.device s.rows s.grain) };
}

impl Setup {
    /// The device with these base rows, whose activations count from ticks. It is refused by a
    /// fault exactly where they do not fit the
    /// device: `Count`, or `BaseRow` with the lowest output whose row fails the check, and the
    /// fault of [`check_row`]. A refusal drops both. No memory is taken.
    pub fn build(_alloc: Global, device: Device, rows: Rows) -> Result<Setup, Or<SetupFault>>
        ensures ok { IfOk result (λ setup. setup ≡ setup_of device rows) }
        ensures within { OnOk result (IsSetup (setup_of device rows)) }
        ensures fault { OnErr result (IsSetup (setup_of device rows) → ⊥) }
        ensures named { IfErr result (λ e. IsFaultAnd e (IsBrokenBy (setup_of device rows))) }
    {
        if !have_cells(device.output_slice(), rows.as_slice()) {
            return Err(Or::Fault(SetupFault::Count));
        }
        match check_rows(&device, &rows) {
            Ok(()) => Ok(Setup {
                device,
                rows,
                grain: Grain::Tick,
            }),
            Err((output, fault)) => Err(Or::Fault(SetupFault::BaseRow { output, fault })),
        }
    }
}

/// Whether there is a row for each output, with a cell for each channel.
fn have_cells(outputs: &[Output], rows: &[Row]) -> bool
    ensures { IsTrue result ↔ AllZip HasCells outputs.now rows.now }
{
    match outputs {
        [] => rows.is_empty(),
        [output, outputs @ ..] => match rows {
            [] => false,
            [row, rows @ ..] => row.len() == output.channels() && have_cells(outputs, rows),
        },
    }
}

/// The lowest output whose row fails the check, with the first condition that it fails.
fn check_rows(device: &Device, rows: &Rows) -> Result<(), (u8, RowFault)>
    requires { AllZip HasCells device.now.outputs rows.now }
    ensures ok { OnOk result (AreRowsOk (setup_of device.now rows.now) (length rows.now)) }
    ensures before { IfErr result (λ e. AreRowsOk (setup_of device.now rows.now) e.0) }
    ensures first { IfErr result (λ e. HasRowFault (setup_of device.now rows.now) e.0 e.1) }
{
    for output in 0..device.outputs() {
        if let Err(fault) = check_row(device, output, row_at(rows, output)) {
            return Err((output, fault));
        }
    }
    Ok(())
}

/// The row of an output that is there.
fn row_at(rows: &Rows, output: u8) -> &Row
    requires { output < length rows.now }
    ensures { slice_get rows.now output ≡ Some result.now }
{
    &rows.as_slice()[output as usize]
}

impl TryCopy for Setup {
    fn copy(&self) -> Result<Setup, NoMemory> {
        Ok(Setup {
            device: self.device.copy()?,
            rows: self.rows.copy()?,
            grain: self.grain,
        })
    }
}
