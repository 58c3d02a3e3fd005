ghost use Rattle.std.specs.Prelude.{◌≡◌, ◌+◌, ◌<◌, length};
ghost use Rattle.std.specs.List.{list_all, before_first, after_first};
ghost use Rattle.pl_wiring.specs.Texts.{number_of_text, is_point, numbers_of_text, byte_of_text, hex_at, mac_bytes, mac_of_text, ip_number, ip_of_text, is_name, is_name_byte, is_taken, is_capture, is_capture_byte};

use pl_frame::{Ip4, Mac};
use std::net::Ipv4Addr;

/// A decimal number below 2^16 without leading zeros.
pub fn number(text: &str) -> Option<u16>
    ensures { result ≡ number_of_text text.now }
{
    let n = match text.parse::<u16>() {
        Ok(n) => n,
        Err(_) => return None,
    };
    let mut buffer = itoa::Buffer::new();
    if buffer.format(n) == text {
        Some(n)
    } else {
        None
    }
}

// The text before its first point and the text behind it: all and nothing where it has no point.
fn halves(text: &str) -> (&str, &str)
    ensures before { result.0.now ≡ before_first is_point text.now }
    ensures behind { result.1.now ≡ after_first is_point text.now }
{
    match text.split_once('.') {
        Some(parts) => parts,
        None => (text, ""),
    }
}

/// Two such numbers with a point between them.
pub fn numbers(text: &str) -> Option<(u16, u16)>
    ensures { result ≡ numbers_of_text text.now }
{
    let (first, second) = halves(text);
    let first = number(first)?;
    let second = number(second)?;
    Some((first, second))
}

fn byte(text: &str) -> Option<u8>
    ensures { result ≡ byte_of_text text.now }
{
    match number(text) {
        Some(n) if n < 256 => Some(n as u8),
        _ => None,
    }
}

// Two hexadecimal digits of either case.
fn hex_pair(text: &[u8], at: usize) -> Option<u8>
    requires { at + 1 < length text.now }
    ensures { result ≡ hex_at text.now at }
{
    let high = (text[at] as char).to_digit(16)?;
    let low = (text[at + 1] as char).to_digit(16)?;
    Some((16 * high + low) as u8)
}

/// The bytes of six two-digit hexadecimal numbers, of either case, joined by colons.
pub fn six_bytes(text: &[u8]) -> Option<[u8; 6]>
    ensures { result ≡ mac_bytes text.now }
{
    if text.len() != 17
        || text[2] != b':'
        || text[5] != b':'
        || text[8] != b':'
        || text[11] != b':'
        || text[14] != b':'
    {
        return None;
    }
    let b0 = hex_pair(text, 0)?;
    let b1 = hex_pair(text, 3)?;
    let b2 = hex_pair(text, 6)?;
    let b3 = hex_pair(text, 9)?;
    let b4 = hex_pair(text, 12)?;
    let b5 = hex_pair(text, 15)?;
    Some([b0, b1, b2, b3, b4, b5])
}

/// The address of one host: no group address and not all zero.
pub fn mac(text: &str) -> Option<Mac>
    ensures { result ≡ mac_of_text text.now }
{
    let bytes = six_bytes(text.as_bytes())?;
    if bytes[0] % 2 == 1 || bytes == [0; 6] {
        return None;
    }
    Some(Mac(bytes))
}

/// The number of four decimal numbers below 256, without leading zeros, joined by points; the first
/// is the most significant.
pub fn dotted(text: &str) -> Option<u32>
    ensures { result ≡ ip_number text.now }
{
    match text.parse::<Ipv4Addr>() {
        Ok(address) => Some(u32::from_be_bytes(address.octets())),
        Err(_) => None,
    }
}

/// The IPv4 address of one host: not 0.0.0.0, and its first number is below 224.
pub fn ip(text: &str) -> Option<Ip4>
    ensures { result ≡ ip_of_text text.now }
{
    match dotted(text) {
        Some(n) if 0 < n && n < 0xe000_0000 => Some(Ip4(n)),
        _ => None,
    }
}

fn name_byte(byte: u8) -> bool
    ensures { result ≡ is_name_byte byte }
{
    matches!(byte, b'a'..=b'z' | b'0'..=b'9' | b'_' | b'-')
}

fn name_bytes(text: &[u8]) -> bool
    ensures { result ≡ list_all is_name_byte text.now }
{
    text.iter().all(|byte| name_byte(*byte))
}

fn is_taken(text: &str) -> bool
    ensures { result ≡ is_taken text.now }
{
    text == "all" || text == "manager"
}

/// Whether a host may be called so.
pub fn is_name(text: &str) -> bool
    ensures { result ≡ is_name text.now }
{
    1 <= text.len() && text.len() <= 32 && name_bytes(text.as_bytes()) && !is_taken(text)
}

fn capture_byte(byte: u8) -> bool
    ensures { result ≡ is_capture_byte byte }
{
    matches!(byte, b'a'..=b'z' | b'A'..=b'Z' | b'0'..=b'9' | b'_' | b'-' | b'.')
}

fn capture_bytes(text: &[u8]) -> bool
    ensures { result ≡ list_all is_capture_byte text.now }
{
    text.iter().all(|byte| capture_byte(*byte))
}

/// Whether a capture file may be called so.
pub fn is_capture(text: &str) -> bool
    ensures { result ≡ is_capture text.now }
{
    let bytes = text.as_bytes();
    1 <= bytes.len() && bytes.len() <= 64 && capture_bytes(bytes) && bytes[0] != b'.'
}
