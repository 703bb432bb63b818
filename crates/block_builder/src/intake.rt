//! What rules the blocks of an input.

ghost use Rattle.std.specs.Prelude.{◌≡◌, ◌≤◌, ◌<◌, ◌-◌, ◌^◌, Some, length};
ghost use Rattle.io_caps.specs.declared.limits.TheConstants.{MOST_FRAMES, SESSION_TICKS};
ghost use Rattle.block_builder.specs.Blocks.{first_place, frame_bytes, intake_of, piece_at};
ghost use Rattle.block_builder.specs.Blocks.{tick_at, tick_place};
ghost use Rattle.block_builder.specs.Window.{IsIntake};

use io_caps::{Device, Width};

/// How many timestamps there are (RFC 3550 section 5.1).
pub const WHOLE: u64 = 1 << 32;

const _: () = prove!(WHOLE == 4294967296);

/// The place of a session's first frame: half as many.
pub const HALF: u64 = 1 << 31;

const _: () = prove!(HALF == 2147483648);

/// What rules the blocks of an input in a session.
#[derive(Clone, Copy, Debug, PartialEq, Eq)]
pub struct Intake {
    pub payload_type: u8,
    pub channels: u8,
    pub width: Width,
    /// The frames of a tick.
    pub frames: u16,
    /// The first tick.
    pub base: u64,
    /// For how many ticks it waits for late packets.
    pub hold: u8,
    /// How many ticks the session has.
    pub ticks: u64,
}

impl Intake {
    /// That of an input that is there, in a session of a given number of ticks from the device's
    /// first one.
    pub(crate) fn of(device: &Device, input: u8, ticks: u64) -> Intake
        requires input { input < length device.now.inputs }
        requires ticks { ticks ≤ SESSION_TICKS }
        ensures value { intake_of device.now input ticks ≡ Some result }
        ensures numbers { IsIntake result }
    {
        let port = device.input(input);
        Intake {
            payload_type: port.payload_type,
            channels: port.channels() as u8,
            width: port.width,
            frames: device.rate().frames,
            base: device.base(),
            hold: device.hold(),
            ticks,
        }
    }

    /// The bytes of a frame.
    pub(crate) fn frame_len(self) -> usize
        ensures { result ≡ frame_bytes self }
    {
        self.channels as usize * self.width.bytes()
    }

    /// The place of the first frame of a packet.
    pub(crate) fn first_place(self, timestamp: u32) -> u64
        ensures value { result ≡ first_place self timestamp }
        ensures within { result < 2 ^ 32 }
    {
        let origin = self.base as u128 * self.frames as u128 % WHOLE as u128;
        (timestamp as u64 + HALF + (WHOLE - origin as u64)) % WHOLE
    }

    /// The place of the first frame of a tick, which is counted from the first.
    pub(crate) fn tick_place(self, tick: u64) -> u64
        requires few { self.frames ≤ MOST_FRAMES }
        requires near { tick ≤ SESSION_TICKS }
        ensures value { result ≡ tick_place self tick }
    {
        HALF + tick * self.frames as u64
    }

    /// The tick of a place, and 0 before the first.
    pub(crate) fn tick_at(self, place: usize) -> usize
        requires some { 1 ≤ self.frames }
        ensures value { result ≡ tick_at self place }
        ensures bound { result ≤ place }
    {
        place.saturating_sub(HALF as usize) / self.frames as usize
    }

    /// The tick of the last frame of a packet, by the place of its first one.
    pub(crate) fn last_tick(self, first: u64, payload: &[u8]) -> usize
        requires numbers { IsIntake self }
        requires place { first < 2 ^ 32 }
        ensures value { result ≡ (piece_at self first payload.now).last }
        ensures bound { result < 2 ^ 64 - 1 }
    {
        let end = first as usize + payload.len() / self.frame_len();
        self.tick_at(end.saturating_sub(1))
    }
}
