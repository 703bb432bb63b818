//! RTP packets (RFC 3550).

ghost use Rattle.std.specs.Prelude.{◌≡◌, ◌≤◌, ◌<◌, ◌+◌, ◌*◌, ◌/◌, ◌%◌, ◌==◌, ◌↔◌, IfOk};
ghost use Rattle.std.specs.Prelude.{IsOkAnd, IfSome, IfNone, IsOk, OnErr, Some, None};
ghost use Rattle.std.specs.Prelude.{Bool, false, List, ℕ, drop, length, slice_index, ⊤};
ghost use Rattle.std.specs.Result.{IsErrOf};
ghost use Rattle.rtp_pcm.specs.Packet.{IsRtp, rtp_packet};
ghost use Rattle.rtp_pcm.specs.Places.{HasAllParts, IsShort, IsOtherVersion};
ghost use Rattle.rtp_pcm.specs.Places.{IsCsrcCut, IsExtensionCut, IsWrongPadding};
ghost use Rattle.rtp_pcm.specs.Places.{IsPadded, head_in, is_marked, payload_in};
ghost use Rattle.rtp_pcm.specs.Places.{extension_length, before_padding, last_byte};
ghost use Rattle.rtp_pcm.specs.Reading.{reading_of};
ghost use Rattle.rtp_pcm.specs.declared.packet.Head.{Head};
ghost use Rattle.rtp_pcm.specs.declared.packet.RtpFault.TheVariants.{Short, Version, CsrcCut};
ghost use Rattle.rtp_pcm.specs.declared.packet.RtpFault.TheVariants.{ExtensionCut, Padding};

use byteorder::{BigEndian, ByteOrder};
use thiserror::Error;

/// The bytes of the fixed part of a head.
pub const HEAD_LEN: usize = 12;

/// The version of RTP.
const VERSION: u8 = 2;

/// What the version counts in the first byte.
const VERSION_UNIT: u8 = 64;

/// The bit of the first byte that says that there is padding.
const PADDING_BIT: u8 = 32;

/// The bit of the first byte that says that there is an extension.
const EXTENSION_BIT: u8 = 16;

/// The number of CSRCs in the first byte is below this.
const CSRC_LIMIT: u8 = 16;

/// The marker bit of the second byte. The payload type is below it.
const MARKER_BIT: u8 = 128;

/// The bytes of a CSRC, and of a word of an extension.
const WORD_LEN: usize = 4;

/// The bytes of an extension in front of its words.
const EXTENSION_HEAD_LEN: usize = 4;

/// What a head says beside its marker: payload type (7 bits), sequence number, timestamp in frames,
/// and source.
#[derive(Clone, Copy, Debug, PartialEq, Eq)]
pub struct Head {
    pub payload_type: u8,
    pub sequence: u16,
    pub timestamp: u32,
    pub ssrc: u32,
}

/// A packet that was read. The payload is a part of its bytes, without padding.
#[derive(Clone, Copy, Debug, PartialEq, Eq)]
pub struct Packet<'a> {
    pub head: Head,
    pub marker: bool,
    pub payload: &'a [u8],
}

/// Why bytes are no packet.
#[derive(Clone, Copy, Debug, PartialEq, Eq, Error)]
pub enum RtpFault {
    /// Under 12 bytes.
    #[error("the bytes end within the fixed part of the head")]
    Short,
    /// The version is not 2.
    #[error("the version is not 2")]
    Version,
    /// The bytes end within the CSRC part.
    #[error("the bytes end within the contributing sources")]
    CsrcCut,
    /// The bytes end within the extension part.
    #[error("the bytes end within the extension")]
    ExtensionCut,
    /// The padding bit is set, and the last byte after the head is missing, 0, or more than the
    /// bytes there.
    #[error("the count of padding is missing, 0, or more than the bytes there")]
    Padding,
}

/// Whether a bit of a byte is set, by what the bit counts.
fn has_bit(byte: u8, bit: u8) -> bool
    requires { 1 ≤ bit }
    ensures { result ≡ (byte / bit % 2 == 1) }
{
    byte / bit % 2 == 1
}

/// What follows the first bytes, and `None` where there are fewer.
fn behind(bytes: &[u8], len: usize) -> Option<&[u8]>
    ensures some { IfSome result
        (λ rest. (len ≤ length bytes.now) × (rest.now ≡ drop len bytes.now)) }
    ensures none { IfNone result (length bytes.now < len) }
{
    if len <= bytes.len() {
        Some(&bytes[len..])
    } else {
        None
    }
}

/// What follows an extension, and `None` where the bytes end within it.
fn behind_words(bytes: &[u8]) -> Option<&[u8]>
    ensures some { IfSome result
        (λ rest. (extension_length bytes.now ≤ length bytes.now)
        × (rest.now ≡ drop (extension_length bytes.now) bytes.now)) }
    ensures none { IfNone result (length bytes.now < extension_length bytes.now) }
{
    if bytes.len() < EXTENSION_HEAD_LEN {
        return None;
    }
    let words = usize::from(BigEndian::read_u16(&bytes[2..]));
    behind(bytes, EXTENSION_HEAD_LEN + WORD_LEN * words)
}

/// What stands before the padding that the last byte counts, and `None` where it counts none or too
/// much.
fn unpadded(bytes: &[u8]) -> Option<&[u8]>
    ensures some { IfSome result
        (λ rest. IsPadded bytes.now × (rest.now ≡ before_padding bytes.now)) }
    ensures none { IfNone result (IsPadded bytes.now → ⊥) }
{
    if bytes.is_empty() {
        return None;
    }
    let count = usize::from(bytes[bytes.len() - 1]);
    if 1 <= count && count <= bytes.len() {
        Some(&bytes[..bytes.len() - count])
    } else {
        None
    }
}

/// The fields of the fixed part.
fn read_head(bytes: &[u8]) -> Head
    requires { 12 ≤ length bytes.now }
    ensures { result ≡ head_in bytes.now }
{
    Head {
        payload_type: bytes[1] % MARKER_BIT,
        sequence: BigEndian::read_u16(&bytes[2..]),
        timestamp: BigEndian::read_u32(&bytes[4..]),
        ssrc: BigEndian::read_u32(&bytes[8..]),
    }
}

/// Reads the parts of a packet from the front.
fn walk(bytes: &[u8]) -> Result<Packet<'_>, RtpFault>
    ensures ok { IsOk result ↔ HasAllParts bytes.now }
    ensures parts { IfOk result
        (λ p. (p.head ≡ head_in bytes.now) × (p.marker ≡ is_marked bytes.now)
        × (p.payload.now ≡ payload_in bytes.now)) }
    ensures short { IsErrOf result Short ↔ IsShort bytes.now }
    ensures version { IsErrOf result Version ↔ IsOtherVersion bytes.now }
    ensures csrcs { IsErrOf result CsrcCut ↔ IsCsrcCut bytes.now }
    ensures extension { IsErrOf result ExtensionCut ↔ IsExtensionCut bytes.now }
    ensures padding { IsErrOf result Padding ↔ IsWrongPadding bytes.now }
{
    if bytes.len() < HEAD_LEN {
        return Err(RtpFault::Short);
    }
    let first = bytes[0];
    if first / VERSION_UNIT != VERSION {
        return Err(RtpFault::Version);
    }
    let csrc_end = HEAD_LEN + WORD_LEN * usize::from(first % CSRC_LIMIT);
    let Some(mut rest) = behind(bytes, csrc_end) else {
        return Err(RtpFault::CsrcCut);
    };
    if has_bit(first, EXTENSION_BIT) {
        let Some(behind) = behind_words(rest) else {
            return Err(RtpFault::ExtensionCut);
        };
        rest = behind;
    }
    if has_bit(first, PADDING_BIT) {
        let Some(before) = unpadded(rest) else {
            return Err(RtpFault::Padding);
        };
        rest = before;
    }
    Ok(Packet {
        head: read_head(bytes),
        marker: has_bit(bytes[1], MARKER_BIT),
        payload: rest,
    })
}

/// Reads a packet (RFC 3550 sections 5.1 and 5.3.1). The payload is a part of the bytes. `Ok`
/// exactly where the bytes have a reading, and each fault exactly in its case, in the order of
/// `RtpFault`.
pub fn read_packet(bytes: &[u8]) -> Result<Packet<'_>, RtpFault>
    ensures found { IfOk result (λ p. IsRtp bytes.now p.head p.marker p.payload.now) }
    ensures only { (head : Head) (marker : Bool) (payload : List ℕ)
        → IsRtp bytes.now head marker payload
        → IsOkAnd result (λ p. (p.head ≡ head) × (p.marker ≡ marker) × (p.payload.now ≡ payload)) }
    ensures reading { IfOk result
        (λ p. reading_of bytes.now
        ≡ Some (record { head = p.head; marker = p.marker; payload = p.payload.now })) }
    ensures no_reading { OnErr result (reading_of bytes.now ≡ None) }
    ensures short { IsErrOf result Short ↔ IsShort bytes.now }
    ensures version { IsErrOf result Version ↔ IsOtherVersion bytes.now }
    ensures csrcs { IsErrOf result CsrcCut ↔ IsCsrcCut bytes.now }
    ensures extension { IsErrOf result ExtensionCut ↔ IsExtensionCut bytes.now }
    ensures padding { IsErrOf result Padding ↔ IsWrongPadding bytes.now }
{
    walk(bytes)
}

/// Writes the fixed part of a packet (RFC 3550 section 5.1) into the first 12 bytes: version 2, no
/// marker, no CSRCs, no extension and no padding. What follows them, the payload, stays.
pub fn write_head(out: &mut [u8], head: &Head)
    requires room { 12 ≤ length out.old }
    requires seven_bits { head.now.payload_type < 128 }
    ensures text { out.new ≡ rtp_packet head.now (drop 12 out.old) }
    ensures packet { IsRtp out.new head.now false (drop 12 out.old) }
{
    out[0] = VERSION * VERSION_UNIT;
    out[1] = head.payload_type;
    BigEndian::write_u16(&mut out[2..], head.sequence);
    BigEndian::write_u32(&mut out[4..], head.timestamp);
    BigEndian::write_u32(&mut out[8..], head.ssrc);
}
