//! Which packet a claim is.

ghost use Rattle.std.specs.Prelude.{◌≡◌, ◌<◌, ◌^◌};
ghost use Rattle.map_entry.specs.Tick.{claim_tick, claim_output, first_tick};

/// Numbers of claims are below this, 2^40. (This project's own.)
pub const CLAIMS_LIMIT: u64 = 1 << 40;

const _: () = prove!(CLAIMS_LIMIT == 1_099_511_627_776);

/// The output of a claim: claim k is the packet of output k mod n, with n outputs.
pub fn claim_output(outputs: u8, claim: u64) -> u8
    requires { 0 < outputs }
    ensures value { result ≡ claim_output outputs claim }
    ensures within { result < outputs }
{
    (claim % outputs as u64) as u8
}

/// The tick of a claim: k div n ticks after the base tick, for claim k with n outputs.
pub fn claim_tick(base: u64, outputs: u8, claim: u64) -> u64
    requires some { 0 < outputs }
    requires sum { claim_tick base outputs claim < 2 ^ 64 }
    ensures { result ≡ claim_tick base outputs claim }
{
    base + claim / outputs as u64
}

/// The first tick of which no packet is claimed after a number of claims: these, divided by the
/// outputs and rounded up, after the base tick.
pub fn first_tick(base: u64, outputs: u8, claims: u64) -> u64
    requires some { 0 < outputs }
    requires sum { first_tick base outputs claims < 2 ^ 64 }
    ensures { result ≡ first_tick base outputs claims }
{
    base + claims.div_ceil(outputs as u64)
}
