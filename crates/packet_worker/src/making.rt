//! How a packet is made of what a reader's pass sees: flags first, and then the bytes.

ghost use Rattle.std.specs.Prelude.{◌≡◌, ◌≤◌, ◌<◌, ◌+◌, ℕ, IfErr, IfOk, OnOk, length, take};
ghost use Rattle.std.specs.List.{All};
ghost use Rattle.io_caps.specs.declared.limits.TheConstants.{MOST_PAYLOAD};
ghost use Rattle.map_entry.specs.declared.claims.TheConstants.{CLAIMS_LIMIT};
ghost use Rattle.input_cells.specs.Agreement.{AreSeen};
ghost use Rattle.input_cells.specs.Faces.{Grows, IsReadOf, OnlyHears, looks_of};
ghost use Rattle.input_cells.specs.Looking.{HasTickEach, IsLate, IsOpenAt, SeesClosed, SeesFree};
ghost use Rattle.input_cells.specs.Shapes.{IsTableOf};
ghost use Rattle.packet_writer.specs.Flags.{is_named};
ghost use Rattle.packet_writer.specs.Packet.{FitOutput, output_of_claim, packet_length};
ghost use Rattle.packet_writer.specs.Packet.{tick_of_claim};
ghost use Rattle.packet_worker.specs.Bench.{IsPacketBy};

use input_cells::{InputTable, ReadPass, SeenSamples, StillOpen};
use map_entry::{Setup, claim_output};
use packet_writer::{FrameRows, mark_named, packet_len, write_claim};

/// Writes the packet of a claim into bytes of just its length, of the blocks that the pass saw.
fn write_seen<R: FrameRows>(
    setup: &Setup,
    rows: &R,
    inputs: &InputTable,
    reads: &mut ReadPass,
    found: &[bool],
    k: u64,
    tick: u64,
    out: &mut [u8],
)
    requires reads { IsReadOf inputs.now reads.old }
    requires table { (first : ℕ) × (ticks : ℕ)
        × IsTableOf setup.now.device first ticks inputs.now }
    requires seen { AreSeen inputs.now reads.old tick found.now }
    requires claim { (k < CLAIMS_LIMIT) × (tick ≡ tick_of_claim setup.now k) }
    requires rows { FitOutput setup.now.device (output_of_claim setup.now k) (R.row_of rows.now) }
    requires room { length out.old ≡ packet_length setup.now.device (output_of_claim setup.now k) }
    ensures reads { IsReadOf inputs.now reads.new }
    ensures hears { OnlyHears reads.old reads.new }
    ensures packet { IsPacketBy setup.now (R.row_of rows.now) k reads.new found.now out.new }
{
    let mut source = SeenSamples::new(inputs, reads, tick, found);
    source.agree();
    write_claim(&mut source, setup, rows, k, out);
    source.agree();
}

/// Writes the packet of a claim in front, of the blocks that the pass saw; answers its length.
fn write_front<R: FrameRows>(
    setup: &Setup,
    rows: &R,
    inputs: &InputTable,
    reads: &mut ReadPass,
    found: &[bool],
    k: u64,
    tick: u64,
    packet: &mut [u8],
) -> usize
    requires reads { IsReadOf inputs.now reads.old }
    requires table { (first : ℕ) × (ticks : ℕ)
        × IsTableOf setup.now.device first ticks inputs.now }
    requires seen { AreSeen inputs.now reads.old tick found.now }
    requires claim { (k < CLAIMS_LIMIT) × (tick ≡ tick_of_claim setup.now k) }
    requires rows { FitOutput setup.now.device (output_of_claim setup.now k) (R.row_of rows.now) }
    requires room { length packet.old ≡ 12 + MOST_PAYLOAD }
    ensures reads { IsReadOf inputs.now reads.new }
    ensures hears { OnlyHears reads.old reads.new }
    ensures len { result ≤ 12 + MOST_PAYLOAD }
    ensures room { length packet.new ≡ length packet.old }
    ensures packet { IsPacketBy setup.now (R.row_of rows.now) k reads.new found.now
        (take result packet.new) }
{
    let device = &setup.device;
    let len = packet_len(device, claim_output(device.outputs(), k));
    write_seen(
        setup,
        rows,
        inputs,
        reads,
        found,
        k,
        tick,
        &mut packet[..len],
    );
    len
}

/// Makes the packet of a claim in front, and its flags, in closed form; answers its length, or what
/// is still open.
pub(crate) fn make_closed<R: FrameRows>(
    setup: &Setup,
    rows: &R,
    inputs: &InputTable,
    reads: &mut ReadPass,
    k: u64,
    tick: u64,
    found: &mut [bool],
    packet: &mut [u8],
) -> Result<usize, StillOpen>
    requires reads { IsReadOf inputs.now reads.old }
    requires table { (first : ℕ) × (ticks : ℕ)
        × IsTableOf setup.now.device first ticks inputs.now }
    requires tick { HasTickEach inputs.now tick }
    requires claim { (k < CLAIMS_LIMIT) × (tick ≡ tick_of_claim setup.now k) }
    requires rows { FitOutput setup.now.device (output_of_claim setup.now k) (R.row_of rows.now) }
    requires flags { length found.old ≡ length setup.now.device.inputs }
    requires room { length packet.old ≡ 12 + MOST_PAYLOAD }
    ensures reads { IsReadOf inputs.now reads.new }
    ensures grows { Grows reads.old reads.new }
    ensures late { All IsLate (looks_of reads.old) → All IsLate (looks_of reads.new) }
    ensures flags { length found.new ≡ length found.old }
    ensures room { length packet.new ≡ length packet.old }
    ensures len { IfOk result (λ len. len ≤ 12 + MOST_PAYLOAD) }
    ensures sees { OnOk result (SeesClosed (length setup.now.device.inputs) tick
        (is_named setup.now.device.rate.frames (R.row_of rows.now)) reads.old reads.new found.new) }
    ensures packet { IfOk result (λ len. IsPacketBy setup.now (R.row_of rows.now) k reads.new
        found.new (take len packet.new)) }
    ensures open { IfErr result (IsOpenAt (length setup.now.device.inputs) tick
        (is_named setup.now.device.rate.frames (R.row_of rows.now)) reads.old reads.new) }
{
    mark_named(rows, setup.device.rate().frames, found);
    match reads.look_closed(inputs, tick, found) {
        Ok(()) => Ok(write_front(setup, rows, inputs, reads, found, k, tick, packet)),
        Err(open) => Err(open),
    }
}

/// Makes the packet of a claim in front, and its flags, in free form; answers its length.
pub(crate) fn make_free<R: FrameRows>(
    setup: &Setup,
    rows: &R,
    inputs: &InputTable,
    reads: &mut ReadPass,
    k: u64,
    tick: u64,
    found: &mut [bool],
    packet: &mut [u8],
) -> usize
    requires reads { IsReadOf inputs.now reads.old }
    requires table { (first : ℕ) × (ticks : ℕ)
        × IsTableOf setup.now.device first ticks inputs.now }
    requires tick { HasTickEach inputs.now tick }
    requires claim { (k < CLAIMS_LIMIT) × (tick ≡ tick_of_claim setup.now k) }
    requires rows { FitOutput setup.now.device (output_of_claim setup.now k) (R.row_of rows.now) }
    requires flags { length found.old ≡ length setup.now.device.inputs }
    requires room { length packet.old ≡ 12 + MOST_PAYLOAD }
    ensures reads { IsReadOf inputs.now reads.new }
    ensures grows { Grows reads.old reads.new }
    ensures flags { length found.new ≡ length found.old }
    ensures room { length packet.new ≡ length packet.old }
    ensures len { result ≤ 12 + MOST_PAYLOAD }
    ensures sees { SeesFree (length setup.now.device.inputs) tick
        (is_named setup.now.device.rate.frames (R.row_of rows.now)) reads.old reads.new found.new }
    ensures packet { IsPacketBy setup.now (R.row_of rows.now) k reads.new found.new
        (take result packet.new) }
{
    mark_named(rows, setup.device.rate().frames, found);
    reads.look_free(inputs, tick, found);
    write_front(setup, rows, inputs, reads, found, k, tick, packet)
}
