ghost use Rattle.std.specs.Prelude.{◌≡◌, ◌≤◌, ◌<◌, ◌^◌, IfOk};
ghost use Rattle.std.specs.Char.{is_ascii_digit};
ghost use Rattle.std.specs.List.{list_all};
ghost use Rattle.pl_script.specs.Numbers.{is_number, number_of, count_of, group_of, pmac_named};

use crate::{Count, ScriptReason};
use pl_frame::{Ip4, Mac};
use pl_pmac::{Pmac, unpack};
use pl_wiring::{dotted, six_bytes};

/// A number from `least` to `most`, of 1 to 20 digits. Leading zeros are allowed, and a sign is not; all else
/// is refused as `Number`.
pub fn number(text: &str, least: u64, most: u64) -> Result<u64, ScriptReason>
    ensures exact { result ≡ number_of least most text.now }
    ensures at_least { IfOk result (λ n. least ≤ n) }
    ensures within { IfOk result (λ n. n ≤ most) }
{
    if !is_number(text.as_bytes()) {
        return Err(ScriptReason::Number);
    }
    match text.parse::<u64>() {
        Ok(n) if least <= n && n <= most => Ok(n),
        _ => Err(ScriptReason::Number),
    }
}

fn is_number(text: &[u8]) -> bool
    ensures { result ≡ is_number text.now }
{
    1 <= text.len() && text.len() <= 20 && all_digits(text)
}

fn all_digits(text: &[u8]) -> bool
    ensures { result ≡ list_all is_ascii_digit text.now }
{
    text.iter().all(|byte| is_digit(*byte))
}

fn is_digit(byte: u8) -> bool
    ensures { result ≡ is_ascii_digit byte }
{
    matches!(byte, b'0'..=b'9')
}

/// A number of records, 1 to 1,000,000, or `all`.
#[tactic(auto, unfolding(crate::specs::Numbers::count_of))]
pub(crate) fn count(text: &str) -> Result<Count, ScriptReason>
    ensures { result ≡ count_of text.now }
{
    if text == "all" {
        return Ok(Count::All);
    }
    let n = number(text, 1, 1_000_000)?;
    Ok(Count::N(n as u32))
}

/// The address of a group, 224.0.0.0 to 239.255.255.255.
#[tactic(auto, unfolding(crate::specs::Numbers::group_of))]
pub(crate) fn group(text: &str) -> Result<Ip4, ScriptReason>
    ensures { result ≡ group_of text.now }
{
    match dotted(text) {
        Some(n) if 0xe000_0000 <= n && n <= 0xefff_ffff => Ok(Ip4(n)),
        _ => Err(ScriptReason::Number),
    }
}

/// A pseudo address, written as a MAC address.
#[tactic(auto, unfolding(crate::specs::Numbers::pmac_named))]
pub(crate) fn pmac(text: &str) -> Result<Pmac, ScriptReason>
    ensures { result ≡ pmac_named text.now }
{
    match six_bytes(text.as_bytes()) {
        Some(bytes) => Ok(unpack(Mac(bytes))),
        None => Err(ScriptReason::Number),
    }
}
