//! The numbers of session descriptions, which are this project's own. Each has its number once more
//! in a proof beside it: definitions cite the names, so a number that changes is refused here.

/// The most bytes of a text that is read.
pub const MOST_TEXT: usize = 1 << 26;

const _: () = prove!(MOST_TEXT == 67_108_864);

/// The most digits of a number.
pub const MOST_DIGITS: usize = 10;

const _: () = prove!(MOST_DIGITS == 10);

/// The port to which the stream of output 0 goes.
pub const FIRST_PORT: u16 = 6004;

const _: () = prove!(FIRST_PORT == 6004);

/// The ports of each output: one for RTP, and one for RTCP, which is not sent.
pub const PORTS_EACH: u16 = 2;

const _: () = prove!(PORTS_EACH == 2);
