//! What a packet shows.

ghost use Rattle.std.specs.Prelude.{◌≡◌, ◌<◌, ◌/◌, IfOk, drop, length};
ghost use Rattle.io_caps.specs.Rate.{bytes_per_sample};
ghost use Rattle.map_entry.specs.declared.claims.TheConstants.{CLAIMS_LIMIT};
ghost use Rattle.monitors.specs.Packets.{is_silent, level_of, sample_in, samples_in};
ghost use Rattle.monitors.specs.Packets.{seen_of};

use book_words::ClaimItem;
use io_caps::{Device, ListOf, NoMemory, Width};
use map_entry::{claim_output, claim_tick};
use rtp_pcm::{HEAD_LEN, get_sample};
use std::alloc::Global;

/// Samples, as signed numbers of 24 bits.
pub type Samples = ListOf<i32>;

/// What a packet shows.
#[derive(Debug, Drop)]
pub struct Seen {
    /// The number of its claim.
    pub claim: u64,
    /// Its tick.
    pub tick: u64,
    /// The number of its output.
    pub output: u8,
    /// Its samples, frame by frame and each frame in channel order.
    pub samples: Samples,
}

/// What follows the fixed part of a packet's head.
fn payload(packet: &[u8]) -> &[u8]
    ensures { result.now ≡ drop 12 packet.now }
{
    &packet[HEAD_LEN.min(packet.len())..]
}

/// The sample at a place of a payload.
fn sample_at(payload: &[u8], place: usize, width: Width) -> i32
    requires { place < length payload.now / bytes_per_sample width }
    ensures { result ≡ sample_in width payload.now place }
{
    let size = width.bytes();
    get_sample(&payload[place * size..place * size + size], width)
}

/// The samples of a payload, in order. A part of a sample at its end is left out.
fn read_samples(alloc: Global, payload: &[u8], width: Width) -> Result<Samples, NoMemory>
    ensures { IfOk result (λ samples. samples ≡ samples_in width payload.now) }
{
    let count = payload.len() / width.bytes();
    let mut samples = Vec::with_capacity(alloc, count)?;
    for place in 0..count {
        samples.push(sample_at(payload, place, width))?;
    }
    Ok(ListOf::from_vec(samples))
}

impl Seen {
    /// What the packet of a claim shows, on a device that sent it: a head without CSRCs, as
    /// chanmap writes it (RFC 3550 section 5.1), and the samples of its output's width, L16 taken
    /// times 256.
    pub fn new(alloc: Global, device: &Device, claim: &ClaimItem) -> Result<Seen, NoMemory>
        requires { claim.now.k < CLAIMS_LIMIT }
        ensures { IfOk result (λ seen. seen ≡ seen_of device.now claim.now) }
    {
        let output = claim_output(device.outputs(), claim.k);
        let width = device.output(output).width;
        Ok(Seen {
            claim: claim.k,
            tick: claim_tick(device.base(), device.outputs(), claim.k),
            output,
            samples: read_samples(alloc, payload(claim.packet.as_slice()), width)?,
        })
    }

    /// Whether all its samples are 0.
    pub fn is_silent(&self) -> bool
        ensures { result ≡ is_silent self.now }
    {
        self.samples
            .as_slice()
            .iter()
            .all(|sample| sample.unsigned_abs() == 0)
    }

    /// The greatest absolute value of its samples, and 0 where it has none.
    #[tactic(auto, using(crate::proofs::Levels::level_more))]
    pub fn level(&self) -> u32
        ensures { result ≡ level_of self.now }
    {
        let mut level = 0;
        for sample in self.samples.as_slice() {
            level = level.max(sample.unsigned_abs());
        }
        level
    }
}
