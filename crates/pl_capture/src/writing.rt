ghost use Rattle.std.specs.Prelude.{◌≡◌};
ghost use Rattle.pl_capture.specs.Spelling.{saved_header, saved_head};

use crate::header::MICROSECONDS;
use byteorder::{ByteOrder, LittleEndian};

/// The file header of a saved capture: little-endian, time stamps of microseconds, version 2.4,
/// zone and accuracy 0, snapshot length 262,144 and link type 1, Ethernet.
pub fn write_header() -> [u8; 24]
    ensures { result ≡ saved_header }
{
    let mut bytes = [0; 24];
    LittleEndian::write_u32(&mut bytes, MICROSECONDS);
    LittleEndian::write_u16(&mut bytes[4..], 2);
    LittleEndian::write_u16(&mut bytes[6..], 4);
    LittleEndian::write_u32(&mut bytes[16..], 262_144);
    LittleEndian::write_u32(&mut bytes[20..], 1);
    bytes
}

/// The head of a saved record, little-endian, of a frame that was captured whole: `len` is its
/// captured and its original length.
pub fn write_record_head(seconds: u32, micros: u32, len: u32) -> [u8; 16]
    ensures { result ≡ saved_head seconds micros len }
{
    let mut bytes = [0; 16];
    LittleEndian::write_u32(&mut bytes, seconds);
    LittleEndian::write_u32(&mut bytes[4..], micros);
    LittleEndian::write_u32(&mut bytes[8..], len);
    LittleEndian::write_u32(&mut bytes[12..], len);
    bytes
}
