//! The packet of an output at a tick, and of a claim.

ghost use Rattle.std.specs.Prelude.{◌≡◌, ◌<◌, ◌≤◌, ◌+◌, ◌*◌, Bool, List, ℕ, drop, length};
ghost use Rattle.io_caps.specs.Port.{IsPayloadType};
ghost use Rattle.io_caps.specs.Rate.{bytes_per_sample};
ghost use Rattle.io_caps.specs.declared.limits.TheConstants.{MOST_CHANNELS, MOST_FRAMES};
ghost use Rattle.map_entry.specs.declared.claims.TheConstants.{CLAIMS_LIMIT};
ghost use Rattle.map_entry.specs.declared.entry.Entry.{Entry};
ghost use Rattle.rtp_pcm.specs.Pcm.{payload_of};
ghost use Rattle.packet_writer.specs.Flags.{IsFound};
ghost use Rattle.packet_writer.specs.Heard.{AreRows, HaveFrames, OfAgreed, SeesMore, TickBlocks};
ghost use Rattle.packet_writer.specs.Heard.{samples_from};
ghost use Rattle.packet_writer.specs.Packet.{Blocks, FitOutput, RowsFit, claim_rows};
ghost use Rattle.packet_writer.specs.Packet.{head_of, output_of_claim, output_packet, packet_by};
ghost use Rattle.packet_writer.specs.Packet.{packet_length, packet_on};

use crate::piece::{FrameRows, write_piece};
use crate::source::Samples;
use io_caps::{Device, Input, Output, Rate};
use map_entry::{Setup, claim_output, claim_tick};
use rtp_pcm::{HEAD_LEN, Head, write_head};

/// How many sequence numbers there are (RFC 3550 section 5.1).
const SEQUENCES: u64 = 1 << 16;

/// How many timestamps there are (RFC 3550 section 5.1).
const TIMESTAMPS: u64 = 1 << 32;

/// The bytes of each packet of an output: a head without CSRCs, and the samples of a tick.
pub fn packet_len(device: &Device, output: u8) -> usize
    requires { output < length device.now.outputs }
    ensures { result ≡ packet_length device.now output }
{
    let of = device.output(output);
    HEAD_LEN + device.rate().frames as usize * of.channels() * of.width.bytes()
}

/// Writes the samples of a tick, piece by piece, into a payload of just their length.
fn write_payload<S: Samples, R: FrameRows>(
    source: &mut S,
    rate: Rate,
    inputs: &[Input],
    output: &Output,
    rows: &R,
    out: &mut [u8],
)
    requires channels { length output.now.labels ≤ MOST_CHANNELS }
    requires rows { RowsFit inputs.now (length output.now.labels) rate.frames (R.row_of rows.now) }
    requires frames { rate.frames ≤ MOST_FRAMES }
    requires room { length out.old
        ≡ rate.frames * length output.now.labels * bytes_per_sample output.now.width }
    requires blocks { OfAgreed (S.agrees source.old) (λ b. HaveFrames inputs.now b rate.frames) }
    ensures text { OfAgreed (S.agrees source.new) (λ b. out.new ≡ payload_of output.now.width
        (samples_from inputs.now b (R.row_of rows.now) 0 rate.frames)) }
    ensures kept { SeesMore (S.agrees source.old) (S.agrees source.new) }
    ensures stays { S.stays source.old source.new }
{
    let frame_len = output.channels() * output.width.bytes();
    let mut frame = 0u16;
    while frame < rate.frames {
        let piece = rows.piece(frame, rate.frames);
        let part = &mut out[frame as usize * frame_len..piece.upto as usize * frame_len];
        write_piece(source, inputs, &piece, output.width, part);
        frame = piece.upto;
    }
}

/// The head of an output's packet of a tick.
fn head_at(rate: Rate, output: &Output, tick: u64) -> Head
    ensures { result ≡ head_of rate output.now tick }
{
    Head {
        payload_type: output.payload_type,
        sequence: (tick % SEQUENCES) as u16,
        timestamp: (tick % TIMESTAMPS * u64::from(rate.frames) % TIMESTAMPS) as u32,
        ssrc: output.ssrc,
    }
}

/// Writes the packet of an output at a tick into bytes of just its length.
fn write_output<S: Samples, R: FrameRows>(
    source: &mut S,
    rate: Rate,
    inputs: &[Input],
    output: &Output,
    rows: &R,
    tick: u64,
    out: &mut [u8],
)
    requires channels { length output.now.labels ≤ MOST_CHANNELS }
    requires payload_type { IsPayloadType output.now.payload_type }
    requires rows { RowsFit inputs.now (length output.now.labels) rate.frames (R.row_of rows.now) }
    requires frames { rate.frames ≤ MOST_FRAMES }
    requires room { length out.old
        ≡ 12 + rate.frames * length output.now.labels * bytes_per_sample output.now.width }
    requires blocks { OfAgreed (S.agrees source.old) (λ b. HaveFrames inputs.now b rate.frames) }
    ensures text { OfAgreed (S.agrees source.new) (λ b.
        out.new ≡ output_packet rate inputs.now output.now (R.row_of rows.now) b tick) }
    ensures kept { SeesMore (S.agrees source.old) (S.agrees source.new) }
    ensures stays { S.stays source.old source.new }
{
    write_payload(source, rate, inputs, output, rows, &mut out[HEAD_LEN..]);
    write_head(out, &head_at(rate, output, tick));
}

/// Writes the packet of an output at a tick, by rows and blocks of the tick, into bytes of just its
/// length.
pub fn write_packet<S: Samples, R: FrameRows>(
    source: &mut S,
    device: &Device,
    output: u8,
    rows: &R,
    tick: u64,
    out: &mut [u8],
)
    requires there { output < length device.now.outputs }
    requires rows { FitOutput device.now output (R.row_of rows.now) }
    requires room { length out.old ≡ packet_length device.now output }
    requires blocks { OfAgreed (S.agrees source.old) (λ b.
        HaveFrames device.now.inputs b device.now.rate.frames) }
    ensures text { OfAgreed (S.agrees source.new) (λ b.
        out.new ≡ packet_on device.now output (R.row_of rows.now) b tick) }
    ensures kept { SeesMore (S.agrees source.old) (S.agrees source.new) }
    ensures stays { S.stays source.old source.new }
{
    let inputs = device.input_slice();
    let of = device.output(output);
    write_output(source, device.rate(), inputs, of, rows, tick, out);
}

/// Writes the packet of claim `k`, by its rows, into bytes of just its length. It is that of all
/// lists of entries that have these rows, and of all flags and blocks of which the packet finds
/// what agrees with what was seen.
pub fn write_claim<S: Samples, R: FrameRows>(
    source: &mut S,
    setup: &Setup,
    rows: &R,
    k: u64,
    out: &mut [u8],
)
    requires claim { k < CLAIMS_LIMIT }
    requires rows { FitOutput setup.now.device (output_of_claim setup.now k) (R.row_of rows.now) }
    requires room { length out.old ≡ packet_length setup.now.device (output_of_claim setup.now k) }
    requires blocks { OfAgreed (S.agrees source.old) (λ b.
        HaveFrames setup.now.device.inputs b setup.now.device.rate.frames) }
    ensures text { OfAgreed (S.agrees source.new) (λ b.
        (entries : List Entry) (blocks : Blocks) (flags : List Bool)
        → AreRows setup.now.device.rate.frames (R.row_of rows.now) (claim_rows setup.now entries k)
        → IsFound setup.now entries k b blocks flags
        → out.new ≡ packet_by setup.now entries blocks flags k) }
    ensures kept { SeesMore (S.agrees source.old) (S.agrees source.new) }
    ensures stays { S.stays source.old source.new }
{
    let device = &setup.device;
    let outputs = device.outputs();
    let output = claim_output(outputs, k);
    let tick = claim_tick(device.base(), outputs, k);
    write_packet(source, device, output, rows, tick, out);
}
