//! A whole run of a builder.

ghost use Rattle.std.specs.Prelude.{◌≡◌, ◌≤◌, ◌<◌, IfOk, OnOk, length, map};
ghost use Rattle.block_builder.specs.Blocks.{closed_of};
ghost use Rattle.block_builder.specs.Building.{FitInput, HaveShape, blocks_upto, session_blocks};
ghost use Rattle.block_builder.specs.declared.arrival.Arrival.TheVariants.{Packet};
ghost use Rattle.io_caps.specs.declared.limits.TheConstants.{SESSION_TICKS};

use crate::{Blocks, Builder};
use io_caps::{Device, NoMemory};
use std::alloc::Global;

/// Adds the blocks of all closed ticks.
fn drain(builder: &mut Builder, made: &mut Blocks) -> Result<(), NoMemory>
    requires made { made.old ≡ blocks_upto builder.old.intake builder.old.arrivals
        builder.old.given }
    requires shape { HaveShape builder.old.intake made.old }
    ensures intake { builder.new.intake ≡ builder.old.intake }
    ensures arrivals { builder.new.arrivals ≡ builder.old.arrivals }
    ensures made { OnOk result
        (made.new ≡ blocks_upto builder.new.intake builder.new.arrivals builder.new.given) }
    ensures shape { OnOk result (HaveShape builder.old.intake made.new) }
    ensures drained { OnOk result
        (closed_of builder.new.intake builder.new.arrivals ≡ builder.new.given) }
{
    while let Some((_, block)) = builder.next_closed() {
        made.push(block)?;
    }
    Ok(())
}

/// The blocks of an input that is there, for all ticks of a session from the device's first one, of
/// its packets in order of arrival. No packet is copied.
pub fn blocks_of_packets(
    alloc: Global,
    device: &Device,
    input: u8,
    ticks: u64,
    packets: &[&[u8]],
) -> Result<Blocks, NoMemory>
    requires input { input < length device.now.inputs }
    requires ticks { ticks ≤ SESSION_TICKS }
    ensures blocks { IfOk result
        (λ made. made ≡ session_blocks device.now input ticks
        (map (λ p. Packet p.now) packets.now)) }
    ensures shape { IfOk result (λ made. FitInput device.now input ticks made) }
{
    let mut builder = Builder::new(alloc, device, input, ticks)?;
    let mut made = Blocks::new(alloc);
    for packet in packets {
        builder.take(packet)?;
        drain(&mut builder, &mut made)?;
    }
    builder.finish();
    drain(&mut builder, &mut made)?;
    Ok(made)
}
