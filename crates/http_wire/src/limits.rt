//! The limits of a request, which are this project's own. Each has its number once more in a proof
//! beside it: definitions cite the names, so a number that changes is refused here.

/// The most bytes of a request's head, with the empty line that ends it.
pub const MOST_HEAD: usize = 8192;

const _: () = prove!(MOST_HEAD == 8192);

/// The most header fields of a request.
pub const MOST_FIELDS: usize = 64;

const _: () = prove!(MOST_FIELDS == 64);

/// The most bytes of a request's body.
pub const MOST_BODY: usize = 262_144;

const _: () = prove!(MOST_BODY == 262_144);
