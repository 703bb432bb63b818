//! The limits of devices, captures and running tables, which are this project's own. Each has its
//! number once more in a proof beside it: definitions cite the names, so a number that changes is
//! refused here.

/// The most frames of a tick.
pub const MOST_FRAMES: u16 = 240;

const _: () = prove!(MOST_FRAMES == 240);

/// The most inputs of a device.
pub const MOST_INPUTS: usize = 16;

const _: () = prove!(MOST_INPUTS == 16);

/// The most outputs of a device.
pub const MOST_OUTPUTS: usize = 64;

const _: () = prove!(MOST_OUTPUTS == 64);

/// The most bytes of the id of an input or output.
pub const MOST_ID_BYTES: usize = 32;

const _: () = prove!(MOST_ID_BYTES == 32);

/// The most channels of one input or output.
pub const MOST_CHANNELS: usize = 64;

const _: () = prove!(MOST_CHANNELS == 64);

/// The most channels of all inputs together.
pub const MOST_INPUT_CHANNELS: usize = 128;

const _: () = prove!(MOST_INPUT_CHANNELS == 128);

/// The highest payload type, which has 7 bits (RFC 3550 section 5.1).
pub const MOST_PAYLOAD_TYPE: u8 = 127;

const _: () = prove!(MOST_PAYLOAD_TYPE == 127);

/// The most bytes of samples in a packet.
pub const MOST_PAYLOAD: usize = 1440;

const _: () = prove!(MOST_PAYLOAD == 1440);

/// The most ticks for which an input waits for late packets.
pub const MOST_HOLD: u8 = 64;

const _: () = prove!(MOST_HOLD == 64);

/// How many ticks from a device's first one start before the end of time.
pub const TICKS_PAST_BASE: u64 = 1 << 23;

const _: () = prove!(TICKS_PAST_BASE == 8388608);

/// The seconds from TAI 0 to the end of time.
pub const SECONDS_OF_TIME: u64 = 1 << 40;

const _: () = prove!(SECONDS_OF_TIME == 1099511627776);

/// Client numbers are below this.
pub const CLIENTS: u8 = 16;

const _: () = prove!(CLIENTS == 16);

/// The most places of a claim table: each holds a map entry.
pub const PLACES: u32 = 1024;

const _: () = prove!(PLACES == 1024);

/// The most ticks of a capture's claims.
pub const CAPTURE_TICKS: u64 = 4096;

const _: () = prove!(CAPTURE_TICKS == 4096);

/// The most ticks of a lap, which is as long as one claim table serves.
pub const LAP_TICKS: u64 = 256;

const _: () = prove!(LAP_TICKS == 256);

/// The most workers of a session.
pub const MOST_WORKERS: u8 = 32;

const _: () = prove!(MOST_WORKERS == 32);

/// The most map entries with which a claim table begins.
pub const MOST_BASE_ENTRIES: u32 = 192;

const _: () = prove!(MOST_BASE_ENTRIES == 192);

/// The most ticks of a session.
pub const SESSION_TICKS: u64 = 1 << 22;

const _: () = prove!(SESSION_TICKS == 4194304);
