//! TAI times, and the ticks (packet times) and frames that they lie in, exact and without floating
//! point.
#![tactic(auto)]

mod tai;
#[cfg(test)]
mod tests;
mod tick;

pub use tai::{NANOS_PER_SECOND, SECS_LIMIT, Tai, TaiFault};
pub use tick::{add, frame_start, frame_up, moment_start, tick_of, tick_start, tick_up};
