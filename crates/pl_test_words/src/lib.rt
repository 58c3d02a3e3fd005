//! The words of a scenario's lines, the lines that tell what came of them, and how scenarios follow one
//! another in a text.
#![tactic(auto)]

use pl_frame::{Ip4, Memory, SwitchId};
use pl_pmac::{Pmac, unpack};
use pl_wiring::text::{dotted, mac};
use std::alloc::{AllocError, Global};

/// Parts that are played by the lines of a scenario.
pub trait Player: Drop {
    /// Plays a scenario, and writes what comes of it, a line each.
    fn play(&self, alloc: Global, scenario: &[&str], out: &mut String) -> Result<(), Memory>;
}

/// Plays each scenario of a text. They are parted by the lines `new`.
pub fn play_each<P: Player>(
    player: &P,
    alloc: Global,
    text: &str,
    out: &mut String,
) -> Result<(), Memory> {
    let lines: Vec<&str> = text.lines().collect(alloc)?;
    for scenario in lines.as_slice().split(|line| *line == "new") {
        player.play(alloc, scenario, out)?;
    }
    Ok(())
}

/// The first word of a text, and what stands behind it.
pub fn first_word(text: &str) -> (&str, &str) {
    match text.split_once(' ') {
        Some(parts) => parts,
        None => (text, ""),
    }
}

/// Whether a line is printed as it is.
pub fn is_remark(line: &str) -> bool {
    line.starts_with('#') || line.is_empty()
}

/// Writes a line.
pub fn say(out: &mut String, line: &str) -> Result<(), Memory> {
    out.push_str(line)?;
    out.push_str("\n")
}

/// Writes a frame behind a word.
pub fn say_frame(alloc: Global, word: &str, frame: &[u8], out: &mut String) -> Result<(), Memory> {
    let digits = hex::encode(alloc, frame)?;
    let line = format!(in alloc; "{word} {digits}")?;
    say(out, line.as_str())
}

/// The bytes of a frame that is written so; none where it is written in no such way.
pub fn frame(alloc: Global, text: &str) -> Result<Option<Vec<u8>>, Memory> {
    let (digits, zeros) = match text.split_once('+') {
        Some((digits, zeros)) => (digits, zeros.parse::<u32>().unwrap_or(0)),
        None => (text, 0),
    };
    match hex::decode(alloc, digits) {
        Ok(mut bytes) => {
            for _ in 0..zeros {
                bytes.push(0)?;
            }
            Ok(Some(bytes))
        }
        Err(hex::FromHexError::OutOfMemory) => Err(AllocError),
        Err(_) => Ok(None),
    }
}

/// The address of a group, as 239.1.2.3.
pub fn group(text: &str) -> Option<Ip4> {
    let number = dotted(text)?;
    Some(Ip4(number))
}

/// The number that a switch knows itself by.
pub fn id(text: &str) -> Option<SwitchId> {
    Some(SwitchId(text.parse::<u64>().ok()?))
}

pub fn byte(text: &str) -> Option<u8> {
    text.parse::<u8>().ok()
}

pub fn number(text: &str) -> Option<u32> {
    text.parse::<u32>().ok()
}

/// A pseudo address, written as a hardware address.
pub fn pmac(text: &str) -> Option<Pmac> {
    Some(unpack(mac(text)?))
}
