//! Writing at the end of what is there.

ghost use Rattle.std.specs.Prelude.{◌≡◌, ◌++◌, ◌<◌, ◌^◌, OnOk, length};
ghost use Rattle.byteorder.specs.Endian.{big_bytes};
ghost use Rattle.exact_text.specs.Spellings.{Grows, record_text};

use byteorder::{BigEndian, ByteOrder};
use std::alloc::AllocError;

/// Writes a number as 2 bytes, the highest first. If memory runs out, what was there stays, and
/// more may follow it.
#[tactic(auto, using(crate::proofs::Growth::growth))]
pub fn push16(out: &mut Vec<u8>, number: u16) -> Result<(), AllocError>
    ensures ok { OnOk result (out.new.items ≡ out.old.items ++ big_bytes 2 number) }
    ensures grows { Grows out.old.items out.new.items }
{
    let mut bytes = [0; 2];
    BigEndian::write_u16(&mut bytes, number);
    out.extend_from_slice(&bytes)
}

/// Writes a number as 4 bytes, the highest first. If memory runs out, what was there stays, and
/// more may follow it.
#[tactic(auto, using(crate::proofs::Growth::growth))]
pub fn push32(out: &mut Vec<u8>, number: u32) -> Result<(), AllocError>
    ensures ok { OnOk result (out.new.items ≡ out.old.items ++ big_bytes 4 number) }
    ensures grows { Grows out.old.items out.new.items }
{
    let mut bytes = [0; 4];
    BigEndian::write_u32(&mut bytes, number);
    out.extend_from_slice(&bytes)
}

/// Writes a number as 8 bytes, the highest first. If memory runs out, what was there stays, and
/// more may follow it.
#[tactic(auto, using(crate::proofs::Growth::growth))]
pub fn push64(out: &mut Vec<u8>, number: u64) -> Result<(), AllocError>
    ensures ok { OnOk result (out.new.items ≡ out.old.items ++ big_bytes 8 number) }
    ensures grows { Grows out.old.items out.new.items }
{
    let mut bytes = [0; 8];
    BigEndian::write_u64(&mut bytes, number);
    out.extend_from_slice(&bytes)
}

/// Writes a record: its tag, the length of its body in 4 bytes, and the body. If memory runs out,
/// what was there stays, and more may follow it.
#[tactic(auto, using(crate::proofs::Growth::growth))]
pub fn push_record(out: &mut Vec<u8>, tag: u8, body: &[u8]) -> Result<(), AllocError>
    requires { length body.now < 2 ^ 32 }
    ensures ok { OnOk result (out.new.items ≡ out.old.items ++ record_text tag body.now) }
    ensures grows { Grows out.old.items out.new.items }
{
    out.push(tag)?;
    push32(out, body.len() as u32)?;
    out.extend_from_slice(body)
}
