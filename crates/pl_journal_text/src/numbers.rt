ghost use Rattle.std.specs.Prelude.{◌≡◌, ◌<◌, ◌≤◌, ◌^◌, decimal};
ghost use Rattle.std.specs.Char.{is_ascii_digit};
ghost use Rattle.std.specs.List.{list_all};
ghost use Rattle.pl_journal.specs.Text.{part_text};
ghost use Rattle.pl_journal_text.specs.Numerals.{is_numeral};
ghost use Rattle.pl_journal_text.specs.Reading.{Reads};
ghost use Rattle.pl_journal.specs.Ranges.{IsByte, IsCount, IsLong, IsPart};

use crate::from_text::{FromText, Word};
use pl_journal::Memory;
use pl_wiring::Wiring;
use std::alloc::Global;

impl FromText for u64 {
    ghost spelling = { λ _ n. decimal n };

    ghost fits = { λ _ n. IsLong n };

    fn from_text(_alloc: Global, _wiring: &Wiring, text: &str) -> Result<Option<u64>, Memory> {
        Ok(number(text))
    }
}

impl Word for u64 {
    ghost use Rattle.std.specs.Prelude.{decimal};
    ghost use Rattle.pl_journal_text.specs.Ink.{at_most_blank, decimal_ink, free_of};

    ghost blankless = { λ _ _ n fits. free_of 32 (decimal n) at_most_blank (decimal_ink n fits) };
}

impl FromText for u32 {
    ghost spelling = { λ _ n. decimal n };

    ghost fits = { λ _ n. IsCount n };

    fn from_text(_alloc: Global, _wiring: &Wiring, text: &str) -> Result<Option<u32>, Memory> {
        match below(text, 0x1_0000_0000) {
            None => Ok(None),
            Some(n) => Ok(Some(n as u32)),
        }
    }
}

impl FromText for u8 {
    ghost spelling = { λ _ n. decimal n };

    ghost fits = { λ _ n. IsByte n };

    fn from_text(_alloc: Global, _wiring: &Wiring, text: &str) -> Result<Option<u8>, Memory> {
        match below(text, 256) {
            None => Ok(None),
            Some(n) => Ok(Some(n as u8)),
        }
    }
}

/// A part of a place: a number, or `-` where it is not known.
impl FromText for Option<u8> {
    ghost spelling = { λ _ part. part_text part };

    ghost fits = { λ _ part. IsPart (2 ^ 8) part };

    fn from_text(
        _alloc: Global,
        _wiring: &Wiring,
        text: &str,
    ) -> Result<Option<Option<u8>>, Memory> {
        match part(text, 256) {
            None => Ok(None),
            Some(None) => Ok(Some(None)),
            Some(Some(n)) => Ok(Some(Some(n as u8))),
        }
    }
}

impl Word for Option<u8> {
    ghost use Rattle.std.specs.Prelude.{◌^◌};
    ghost use Rattle.pl_journal.specs.Text.{part_text};
    ghost use Rattle.pl_journal_text.specs.Ink.{at_most_blank, byte_within, free_of, part_ink};

    ghost blankless = { λ _ _ part fits.
        free_of 32 (part_text part) at_most_blank (part_ink (2 ^ 8) part byte_within fits) };
}

impl FromText for Option<u16> {
    ghost spelling = { λ _ part. part_text part };

    ghost fits = { λ _ part. IsPart (2 ^ 16) part };

    fn from_text(
        _alloc: Global,
        _wiring: &Wiring,
        text: &str,
    ) -> Result<Option<Option<u16>>, Memory> {
        match part(text, 65536) {
            None => Ok(None),
            Some(None) => Ok(Some(None)),
            Some(Some(n)) => Ok(Some(Some(n as u16))),
        }
    }
}

/// The number that a word is, by its one spelling.
#[tactic(auto, using(crate::proofs::NumeralLemmas::parsed, crate::proofs::NumeralLemmas::unparsed, crate::proofs::NumeralLemmas::no_other))]
fn number(word: &str) -> Option<u64>
    ensures { Reads decimal IsLong word.now result }
{
    if !is_numeral(word.as_bytes()) {
        return None;
    }
    match word.parse::<u64>() {
        Ok(n) => Some(n),
        Err(_) => None,
    }
}

/// The number that a word is, where it is below the limit.
fn below(word: &str, limit: u64) -> Option<u64>
    ensures { Reads decimal (λ n. n < limit) word.now result }
{
    let Some(n) = number(word) else {
        return None;
    };
    if n < limit { Some(n) } else { None }
}

/// A number below the limit, or none that is known.
fn part(word: &str, limit: u64) -> Option<Option<u64>>
    ensures { Reads part_text (IsPart limit) word.now result }
{
    if word == "-" {
        return Some(None);
    }
    let Some(n) = below(word, limit) else {
        return None;
    };
    Some(Some(n))
}

#[tactic(auto, unfolding(crate::specs::Numerals::is_numeral))]
fn is_numeral(text: &[u8]) -> bool
    ensures { result ≡ is_numeral text.now }
{
    1 <= text.len() && (48 < text[0] || text.len() == 1) && all_digits(text)
}

fn all_digits(text: &[u8]) -> bool
    ensures { result ≡ list_all is_ascii_digit text.now }
{
    text.iter().all(|byte| is_digit(*byte))
}

fn is_digit(byte: u8) -> bool
    ensures { result ≡ is_ascii_digit byte }
{
    matches!(byte, b'0'..=b'9')
}
