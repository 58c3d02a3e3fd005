ghost use Rattle.std.specs.Prelude.{◌≡◌, ℕ, ◌+◌, ◌^◌, ◌<◌, ◌≤◌, ◌↔◌, List, length, slice_index, take, drop, IfOk, Err};
ghost use Rattle.pl_frame.specs.declared.address.Mac.{Mac};
ghost use Rattle.pl_frame.specs.Ethernet.{Fields, fields, fields_of, frame_of, with_source, with_destination};

use crate::Mac;
use byteorder::{BigEndian, ByteOrder};
use thiserror::Error;

/// The bytes of the shortest frame that is carried: two addresses and a type.
pub const SHORTEST: usize = 14;

/// The bytes of the longest frame that is carried.
pub const LONGEST: usize = 65_553;

/// The type of a frame that carries ARP (RFC 826).
pub const TYPE_ARP: u16 = 0x0806;

/// The type of a frame that carries IPv4 (RFC 894).
pub const TYPE_IPV4: u16 = 0x0800;

/// The type of the fabric's own control frames (local experimental, IEEE 802).
pub const TYPE_CONTROL: u16 = 0x88b5;

/// The fields of an Ethernet II frame (IEEE 802.3, clause 3), which has no check sequence here.
#[derive(Clone, Copy, Debug, PartialEq, Eq)]
pub struct FrameView<'a> {
    pub dst: Mac,
    pub src: Mac,
    pub kind: u16,
    pub payload: &'a [u8],
}

/// Why some bytes are no frame that is carried.
#[derive(Clone, Copy, Debug, PartialEq, Eq, Error)]
pub enum FrameError {
    #[error("Short")]
    Short,
    #[error("Long")]
    Long,
}

/// The fields of a frame. The payload is lent from the bytes.
pub fn view(bytes: &[u8]) -> Result<FrameView<'_>, FrameError>
    ensures short { (result ≡ Err FrameError.Short) ↔ (length bytes.now < SHORTEST) }
    ensures long { (result ≡ Err FrameError.Long) ↔ (LONGEST < length bytes.now) }
    ensures fields { IfOk result (λ view. fields view ≡ fields_of bytes.now) }
{
    if bytes.len() < SHORTEST {
        return Err(FrameError::Short);
    }
    if bytes.len() > LONGEST {
        return Err(FrameError::Long);
    }
    Ok(FrameView {
        dst: Mac::read_at(bytes, 0),
        src: Mac::read_at(bytes, 6),
        kind: BigEndian::read_u16(&bytes[12..]),
        payload: &bytes[SHORTEST..],
    })
}

/// Writes the destination, and no other byte.
pub fn set_destination(bytes: &mut [u8], to: Mac)
    requires { SHORTEST ≤ length bytes.old }
    ensures { bytes.new ≡ with_destination bytes.old to }
{
    let (address, _) = bytes.split_at_mut(6);
    address.copy_from_slice(&to.0);
}

/// Writes the source, and no other byte.
pub fn set_source(bytes: &mut [u8], to: Mac)
    requires { SHORTEST ≤ length bytes.old }
    ensures { bytes.new ≡ with_source bytes.old to }
{
    let (_, after) = bytes.split_at_mut(6);
    let (address, _) = after.split_at_mut(6);
    address.copy_from_slice(&to.0);
}

/// A written address is the one that is read, and every other field is as it was.
pub fn written_is_read()
    ensures source { (bytes : List ℕ) (to : Mac) → 12 ≤ length bytes → length to.0 ≡ 6 →
        fields_of (with_source bytes to) ≡ record (fields_of bytes) { src = to } }
    ensures destination { (bytes : List ℕ) (to : Mac) → 12 ≤ length bytes → length to.0 ≡ 6 →
        fields_of (with_destination bytes to) ≡ record (fields_of bytes) { dst = to } }
    ensures source_length { (bytes : List ℕ) (to : Mac) → 12 ≤ length bytes → length to.0 ≡ 6 →
        length (with_source bytes to) ≡ length bytes }
    ensures destination_length { (bytes : List ℕ) (to : Mac) → 12 ≤ length bytes → length to.0 ≡ 6 →
        length (with_destination bytes to) ≡ length bytes }
{}

/// A frame that is put together of its fields has these fields, and the bytes of a frame are its
/// fields put together.
pub fn parts_are_read()
    ensures read { (f : Fields) → length f.dst.0 ≡ 6 → length f.src.0 ≡ 6 → f.kind < 2 ^ 16 →
        fields_of (frame_of f) ≡ f }
    ensures spelled { (bytes : List ℕ) → SHORTEST ≤ length bytes → ((i : ℕ) → slice_index bytes i < 256) →
        frame_of (fields_of bytes) ≡ bytes }
{}
