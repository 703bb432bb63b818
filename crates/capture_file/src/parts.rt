//! The parts of a result that stand around its packets: for one who writes a result piece by piece.

ghost use Rattle.std.specs.Prelude.{◌≡◌, ◌+◌, ◌<◌, ◌^◌, ◌∷◌, ◌++◌, IfOk, length, map};
ghost use Rattle.std.specs.List.{flat_map, range_with_len};
ghost use Rattle.byteorder.specs.Endian.{big_bytes};
ghost use Rattle.exact_text.specs.Forms.{number_text};
ghost use Rattle.capture_file.specs.Device.{flag};
ghost use Rattle.capture_file.specs.Items.{end_text};
ghost use Rattle.capture_file.specs.Parts.{AreLeft, between_bytes, claim_front};
ghost use Rattle.capture_file.specs.Tags.{claim_tag};

use crate::result::{CLAIM_NUMBER_LEN, LeftBetween, push_between};
use crate::{Format, JournalCall, ReplyItem, tags};
use byteorder::{BigEndian, ByteOrder};
use io_caps::{Bytes, ListOf, NoMemory};
use std::alloc::Global;

/// The bytes of a claim's record in front of its flags: the tag, the length and the claim's number.
pub const CLAIM_HEAD_LEN: usize = 13;

const _: () = prove!(CLAIM_HEAD_LEN == 13);

/// What stands between the claims of a result: the records of the calls and the replies at each
/// number of claims from 0 on, up to a given one. What stands at further numbers is left out. It
/// takes time in proportion to what is written and to the numbers.
pub fn write_between(
    alloc: Global,
    format: Format,
    calls: &[JournalCall],
    replies: &[ReplyItem],
    numbers: u64,
) -> Result<ListOf<Bytes>, NoMemory>
    requires { AreLeft format 0 calls.now replies.now }
    ensures { IfOk result (λ made. made
        ≡ map (λ number. between_bytes format number calls.now replies.now)
        (range_with_len 0 numbers)) }
{
    let mut made = ListOf::new(alloc);
    let mut left = LeftBetween { calls, replies };
    for number in 0..numbers {
        let mut text = Vec::new(alloc);
        left = push_between(alloc, &mut text, format, &left, number)?;
        made.push(Bytes::from_vec(text))?;
    }
    Ok(made)
}

/// Writes a flag as a byte for each input.
#[tactic(auto, unfolding(crate::specs::Device::flag))]
fn write_flags(out: &mut [u8], found: &[bool])
    requires { length out.old ≡ length found.now }
    ensures { out.new ≡ flat_map flag.text found.now }
{
    for at in 0..found.len() {
        out[at] = u8::from(found[at]);
    }
}

/// Writes the front of a claim's record up to its flags.
#[tactic(auto, unfolding(exact_text::specs::Forms::number_text))]
fn write_claim_head(out: &mut [u8], body_len: u32, k: u64)
    requires { length out.old ≡ CLAIM_HEAD_LEN }
    ensures { out.new ≡ claim_tag ∷ (big_bytes 4 body_len ++ number_text 8 k) }
{
    let (start, number) = out.split_at_mut(CLAIM_HEAD_LEN - CLAIM_NUMBER_LEN);
    let (tag, len) = start.split_at_mut(1);
    tag[0] = tags::CLAIM;
    BigEndian::write_u32(len, body_len);
    BigEndian::write_u64(number, k);
}

/// Writes the front of a claim's record: all of it but the packet, which follows it and has
/// a given number of bytes.
pub fn write_claim_front(out: &mut [u8], k: u64, found: &[bool], packet_len: usize)
    requires room { length out.old ≡ CLAIM_HEAD_LEN + length found.now }
    requires short { length found.now + packet_len + 8 < 2 ^ 32 }
    ensures { out.new ≡ claim_front k found.now packet_len }
{
    let body_len = found.len() + packet_len + CLAIM_NUMBER_LEN;
    let (head, flags) = out.split_at_mut(CLAIM_HEAD_LEN);
    write_claim_head(head, body_len as u32, k);
    write_flags(flags, found);
}

/// The last record of a result.
pub fn end_record() -> [u8; 5]
    ensures { result ≡ end_text }
{
    [tags::END, 0, 0, 0, 0]
}
