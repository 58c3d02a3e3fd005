ghost use Rattle.std.specs.Prelude.{◌≡◌, ◌≤◌, length};
ghost use Rattle.pl_capture.specs.Header.{is_magic, is_ethernet, is_version, order_of, header_of};

use crate::endianness::Endianness;
use crate::error::CaptureError;

/// The magic number of a file whose time stamps are of microseconds.
pub const MICROSECONDS: u32 = 0xa1b2_c3d4;

const NANOSECONDS: u32 = 0xa1b2_3c4d;

pub const HEADER_LEN: usize = 24;

fn is_known_magic(magic: u32) -> bool
    ensures { result ≡ is_magic magic }
{
    magic == MICROSECONDS || magic == NANOSECONDS
}

/// The byte order in which the file's first field is a magic number.
fn read_magic(file: &[u8]) -> Option<Endianness>
    requires { 4 ≤ length file.now }
    ensures { result ≡ order_of file.now }
{
    if is_known_magic(Endianness::Little.read_u32(file)) {
        Some(Endianness::Little)
    } else if is_known_magic(Endianness::Big.read_u32(file)) {
        Some(Endianness::Big)
    } else {
        None
    }
}

fn has_version(file: &[u8], order: Endianness) -> bool
    requires { 24 ≤ length file.now }
    ensures { result ≡ is_version file.now order }
{
    order.read_u16(&file[4..]) == 2 && order.read_u16(&file[6..]) == 4
}

fn has_link(file: &[u8], order: Endianness) -> bool
    requires { 24 ≤ length file.now }
    ensures { result ≡ is_ethernet file.now order }
{
    order.read_u32(&file[20..]) == 1
}

/// The byte order that the file's header tells, None for a file below 24 bytes.
#[tactic(auto, unfolding(crate::specs::Header::header_of))]
pub fn read_header(file: &[u8]) -> Result<Option<Endianness>, CaptureError>
    ensures { result ≡ header_of file.now }
{
    if file.len() < HEADER_LEN {
        return Ok(None);
    }
    let Some(order) = read_magic(file) else {
        return Err(CaptureError::BadMagic);
    };
    if !has_version(file, order) {
        return Err(CaptureError::BadVersion);
    }
    if !has_link(file, order) {
        return Err(CaptureError::BadLink);
    }
    Ok(Some(order))
}
