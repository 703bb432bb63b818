//! Ticks, frames and times.

ghost use Rattle.std.specs.Prelude.{◌≡◌, ◌≤◌, ◌+◌, ◌*◌, ◌^◌, ◌↔◌, IfSome, IsNone};
ghost use Rattle.io_caps.specs.Rate.{IsRate};
ghost use Rattle.tai_time.specs.Time.{IsTai, nanos_of, nanos_limit, time_of};
ghost use Rattle.tai_time.specs.Tick as spec;

use crate::{NANOS_PER_SECOND, Tai};
use io_caps::Rate;

/// How long a tick is, in nanoseconds times the frames of a second.
fn tick_len(rate: Rate) -> u128
    ensures { result ≡ rate.frames * 10 ^ 9 }
{
    u128::from(rate.frames) * u128::from(NANOS_PER_SECOND)
}

/// The least tick whose exact start is at or after a time.
pub fn tick_up(time: Tai, rate: Rate) -> u64
    requires { IsRate rate }
    ensures value { result ≡ spec.tick_up rate (nanos_of time) }
    ensures least { spec.IsTickUp rate (nanos_of time) result }
{
    (time.as_nanos() * u128::from(rate.hz)).div_ceil(tick_len(rate)) as u64
}

/// The tick in which a time lies: the greatest whose exact start is at or before it.
pub fn tick_of(time: Tai, rate: Rate) -> u64
    requires { IsRate rate }
    ensures value { result ≡ spec.tick_of rate (nanos_of time) }
    ensures greatest { spec.IsTickOf rate (nanos_of time) result }
{
    (time.as_nanos() * u128::from(rate.hz) / tick_len(rate)) as u64
}

/// The start of a tick, rounded down to a nanosecond, and `None` exactly where it has 2^40 seconds
/// or more.
pub fn tick_start(tick: u64, rate: Rate) -> Option<Tai>
    requires { IsRate rate }
    ensures start { IfSome result
        (λ time. (time ≡ time_of (spec.tick_start rate tick)) × IsTai time) }
    ensures none { IsNone result ↔ (nanos_limit ≤ spec.tick_start rate tick) }
    ensures again { IfSome result (λ time. spec.tick_up rate (nanos_of time) ≡ tick) }
{
    Tai::from_nanos(u128::from(tick) * tick_len(rate) / u128::from(rate.hz))
}

/// The least frame, counted from TAI 0, whose exact start is at or after a time.
pub fn frame_up(time: Tai, rate: Rate) -> u64
    requires { IsRate rate }
    ensures value { result ≡ spec.frame_up rate (nanos_of time) }
    ensures least { spec.IsFrameUp rate (nanos_of time) result }
{
    (time.as_nanos() * u128::from(rate.hz)).div_ceil(u128::from(NANOS_PER_SECOND)) as u64
}

/// The start of a frame, rounded down to a nanosecond, and `None` exactly where it has 2^40 seconds
/// or more.
pub fn frame_start(frame: u64, rate: Rate) -> Option<Tai>
    requires { IsRate rate }
    ensures start { IfSome result
        (λ time. (time ≡ time_of (spec.frame_start rate frame)) × IsTai time) }
    ensures none { IsNone result ↔ (nanos_limit ≤ spec.frame_start rate frame) }
    ensures again { IfSome result (λ time. spec.frame_up rate (nanos_of time) ≡ frame) }
{
    Tai::from_nanos(u128::from(frame) * u128::from(NANOS_PER_SECOND) / u128::from(rate.hz))
}

/// The start of a frame of a tick, rounded down to a nanosecond, and `None` exactly where it has
/// 2^40 seconds or more. An offset past the tick's last frame is a frame of a later tick.
pub fn moment_start(tick: u64, offset: u16, rate: Rate) -> Option<Tai>
    requires { IsRate rate }
    ensures start { IfSome result
        (λ time. (time ≡ time_of (spec.moment_start rate tick offset)) × IsTai time) }
    ensures none { IsNone result ↔ (nanos_limit ≤ spec.moment_start rate tick offset) }
    ensures again { IfSome result
        (λ time. spec.frame_up rate (nanos_of time) ≡ tick * rate.frames + offset) }
    ensures begin { offset ≡ 0 → spec.moment_start rate tick offset ≡ spec.tick_start rate tick }
{
    let frame = u128::from(tick) * u128::from(rate.frames) + u128::from(offset);
    Tai::from_nanos(frame * u128::from(NANOS_PER_SECOND) / u128::from(rate.hz))
}

/// The sum of two times, and `None` exactly where it has 2^40 seconds or more.
pub fn add(a: Tai, b: Tai) -> Option<Tai>
    ensures sum { IfSome result (λ time. (time ≡ time_of (nanos_of a + nanos_of b)) × IsTai time) }
    ensures none { IsNone result ↔ (nanos_limit ≤ nanos_of a + nanos_of b) }
{
    Tai::from_nanos(a.as_nanos() + b.as_nanos())
}
