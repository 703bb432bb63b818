//! The numbers by which the bytes of captures and results are told apart. (This project's own.)

/// The first bytes of a capture of format 1: `CHMCAP1` and a line feed.
pub const CAPTURE_MAGIC: &[u8] = b"CHMCAP1\n";

/// The first bytes of a capture of format 2: `CHMCAP2` and a line feed.
pub const CAPTURE_MAGIC_2: &[u8] = b"CHMCAP2\n";

/// The first bytes of a result of format 1: `CHMRES1` and a line feed.
pub const RESULT_MAGIC: &[u8] = b"CHMRES1\n";

/// The first bytes of a result of format 2: `CHMRES2` and a line feed.
pub const RESULT_MAGIC_2: &[u8] = b"CHMRES2\n";

/// `D`: a plain device, in a capture.
pub const DEVICE: u8 = 0x44;

const _: () = prove!(DEVICE == 68);

/// `J`: a device as JSON, in a capture.
pub const JSON_DEVICE: u8 = 0x4a;

const _: () = prove!(JSON_DEVICE == 74);

/// `P`: a packet of an input, in a capture.
pub const PACKET: u8 = 0x50;

const _: () = prove!(PACKET == 80);

/// `Q`: a piece of a client's stream, in a capture.
pub const PIECE: u8 = 0x51;

const _: () = prove!(PIECE == 81);

/// `A`: a plain request of a client, in a capture.
pub const ASK: u8 = 0x41;

const _: () = prove!(ASK == 65);

/// `T`: claims that are made, in a capture.
pub const WORK: u8 = 0x54;

const _: () = prove!(WORK == 84);

/// `C`: a claim with its packet, in a result.
pub const CLAIM: u8 = 0x43;

const _: () = prove!(CLAIM == 67);

/// `H`: an accepted call, in a result.
pub const CALL: u8 = 0x48;

const _: () = prove!(CALL == 72);

/// `R`: a reply, in a result.
pub const REPLY: u8 = 0x52;

const _: () = prove!(REPLY == 82);

/// `E`: the last record of a capture or a result.
pub const END: u8 = 0x45;

const _: () = prove!(END == 69);

/// `G`: the grain, in a capture of format 2.
pub const GRAIN: u8 = 0x47;

const _: () = prove!(GRAIN == 71);

/// The grain whose changes count from ticks.
pub const TICK_GRAIN: u8 = 0;

const _: () = prove!(TICK_GRAIN == 0);

/// The grain whose changes count from frames.
pub const FRAME_GRAIN: u8 = 1;

const _: () = prove!(FRAME_GRAIN == 1);

/// The bits of a sample of L16 (RFC 3551, section 4.5.11).
pub const BITS_16: u8 = 16;

const _: () = prove!(BITS_16 == 16);

/// The bits of a sample of L24 (RFC 3190, section 4).
pub const BITS_24: u8 = 24;

const _: () = prove!(BITS_24 == 24);

/// A routable list that allows everything stands as this number of members.
pub const ALL_ROUTABLE: u8 = 255;

const _: () = prove!(ALL_ROUTABLE == 255);

/// The member of a routable list that allows unrouted channels.
pub const UNROUTED_MEMBER: u8 = 254;

const _: () = prove!(UNROUTED_MEMBER == 254);

/// The input of a cell that is unrouted.
pub const UNROUTED_INPUT: u8 = 255;

const _: () = prove!(UNROUTED_INPUT == 255);

/// The op byte of an activation at once.
pub const ACTIVATE_NOW: u8 = 0;

const _: () = prove!(ACTIVATE_NOW == 0);

/// The op byte of an activation at a time.
pub const ACTIVATE_AT: u8 = 1;

const _: () = prove!(ACTIVATE_AT == 1);

/// The op byte of an activation after a time.
pub const ACTIVATE_AFTER: u8 = 2;

const _: () = prove!(ACTIVATE_AFTER == 2);

/// The op byte of a deletion.
pub const DELETE: u8 = 3;

const _: () = prove!(DELETE == 3);

/// The op byte of a reading of the active map.
pub const ACTIVE_MAP: u8 = 4;

const _: () = prove!(ACTIVE_MAP == 4);

/// The op byte of a reading of the pending activations.
pub const PENDING_LIST: u8 = 5;

const _: () = prove!(PENDING_LIST == 5);

/// The form byte of an HTTP response.
pub const HTTP_FORM: u8 = 0;

const _: () = prove!(HTTP_FORM == 0);

/// The form byte of a plain reply.
pub const PLAIN_FORM: u8 = 1;

const _: () = prove!(PLAIN_FORM == 1);

/// The code of the reply to an accepted activation at once.
pub const ACTIVATED: u8 = 0x00;

const _: () = prove!(ACTIVATED == 0);

/// The code of the reply to an accepted scheduled activation.
pub const SCHEDULED: u8 = 0x01;

const _: () = prove!(SCHEDULED == 1);

/// The code of the reply to an accepted deletion.
pub const DELETED: u8 = 0x02;

const _: () = prove!(DELETED == 2);

/// The code of the active map.
pub const ACTIVE: u8 = 0x03;

const _: () = prove!(ACTIVE == 3);

/// The code of the pending activations.
pub const PENDING: u8 = 0x04;

const _: () = prove!(PENDING == 4);

/// The code of the refusal of an action that names no output.
pub const EMPTY: u8 = 0x10;

const _: () = prove!(EMPTY == 16);

/// The code of the refusal of an output that is not there.
pub const UNKNOWN: u8 = 0x11;

const _: () = prove!(UNKNOWN == 17);

/// The code of the refusal of a channel that is not there.
pub const BAD_CHANNEL: u8 = 0x12;

const _: () = prove!(BAD_CHANNEL == 18);

/// The code of the refusal of a locked output.
pub const LOCKED: u8 = 0x13;

const _: () = prove!(LOCKED == 19);

/// The code of the refusal of a row that fails the check.
pub const ROW: u8 = 0x14;

const _: () = prove!(ROW == 20);

/// The code of the refusal of an activation past the end of time.
pub const TIME: u8 = 0x15;

const _: () = prove!(TIME == 21);

/// The code of the refusal of an id that is not pending.
pub const NOT_PENDING: u8 = 0x16;

const _: () = prove!(NOT_PENDING == 22);

/// The check of a row: each input is there.
pub const INPUT_CHECK: u8 = 1;

const _: () = prove!(INPUT_CHECK == 1);

/// The check of a row: each channel of an input is there.
pub const CHANNEL_CHECK: u8 = 2;

const _: () = prove!(CHANNEL_CHECK == 2);

/// The check of a row: each channel may be routed so.
pub const ROUTABLE_CHECK: u8 = 3;

const _: () = prove!(ROUTABLE_CHECK == 3);

/// The check of a row: each piece is a whole block.
pub const BLOCK_CHECK: u8 = 4;

const _: () = prove!(BLOCK_CHECK == 4);

/// The check of a row: each piece is in its block's order.
pub const ORDER_CHECK: u8 = 5;

const _: () = prove!(ORDER_CHECK == 5);
