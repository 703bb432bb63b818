//! The status codes that are answered (RFC 9110 section 15; RFC 4918 section 11.3 for 423;
//! RFC 6585 section 5 for 431).

/// It was done.
pub const OK: u16 = 200;

/// It was taken, and is to count later.
pub const ACCEPTED: u16 = 202;

/// It was done, and there is no body.
pub const NO_CONTENT: u16 = 204;

/// The request is not one that can be read.
pub const BAD_REQUEST: u16 = 400;

/// There is no such resource.
pub const NOT_FOUND: u16 = 404;

/// The resource does not take this method.
pub const METHOD_NOT_ALLOWED: u16 = 405;

/// The body has no length of its own.
pub const LENGTH_REQUIRED: u16 = 411;

/// The body is too long.
pub const CONTENT_TOO_LARGE: u16 = 413;

/// The output is locked.
pub const LOCKED: u16 = 423;

/// The head is too long.
pub const FIELDS_TOO_LARGE: u16 = 431;

/// Memory ran out, and the connection ends.
pub const SERVICE_UNAVAILABLE: u16 = 503;

// Definitions cite the names of those that a stream answers.
const _: () = prove!(BAD_REQUEST == 400);

const _: () = prove!(LENGTH_REQUIRED == 411);

const _: () = prove!(CONTENT_TOO_LARGE == 413);

const _: () = prove!(FIELDS_TOO_LARGE == 431);
