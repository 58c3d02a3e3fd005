ghost use Rattle.std.specs.Prelude.{◌≡◌, true, length};
ghost use Rattle.std.specs.Result.{result_ok};
ghost use Rattle.hex.specs.Hex.{decode_sized};
ghost use Rattle.pl_pmac.specs.Pmac.{PmacFits};
ghost use Rattle.pl_journal.specs.Text.{address_text};
ghost use Rattle.pl_journal_text.specs.Hexadecimals.{is_spread, with_colons};
ghost use Rattle.pl_journal_text.specs.Reading.{Reads};

use crate::from_text::{FromText, Word};
use crate::hexadecimals::are_lower_digits;
use hex::FromHex;
use pl_frame::Mac;
use pl_journal::Memory;
use pl_pmac::{Pmac, unpack};
use pl_wiring::Wiring;
use std::alloc::Global;

impl FromText for Pmac {
    ghost spelling = { λ _ pmac. address_text pmac };

    ghost fits = { λ _ pmac. PmacFits pmac };

    fn from_text(_alloc: Global, _wiring: &Wiring, text: &str) -> Result<Option<Pmac>, Memory> {
        Ok(address(text.as_bytes()))
    }
}

impl Word for Pmac {
    ghost use Rattle.pl_journal.specs.Text.{address_text};
    ghost use Rattle.pl_journal_text.specs.Ink.{address_ink, at_most_blank, free_of};

    ghost blankless = { λ _ _ pmac fits. free_of 32 (address_text pmac) at_most_blank (address_ink pmac) };
}

/// The address that is written so: six two-digit lower-case hexadecimal numbers joined by colons.
fn address(text: &[u8]) -> Option<Pmac>
    ensures { Reads address_text PmacFits text.now result }
{
    if !is_spread(text) {
        return None;
    }
    let plain = digits(text);
    if !are_lower_digits(&plain) {
        return None;
    }
    match decoded(&plain) {
        Some(bytes) => Some(unpack(Mac(bytes))),
        None => None,
    }
}

fn decoded(digits: &[u8]) -> Option<[u8; 6]>
    ensures { result ≡ result_ok (decode_sized digits.now 6) }
{
    <[u8; 6] as FromHex>::from_hex(digits).ok()
}

fn is_spread(text: &[u8]) -> bool
    ensures { result ≡ is_spread text.now }
{
    text.len() == 17
        && text[2] == b':'
        && text[5] == b':'
        && text[8] == b':'
        && text[11] == b':'
        && text[14] == b':'
}

// The digits between the colons.
fn digits(text: &[u8]) -> [u8; 12]
    requires { is_spread text.now ≡ true }
    ensures long { length result ≡ 12 }
    ensures spread { text.now ≡ with_colons result }
{
    [
        text[0], text[1], text[3], text[4], text[6], text[7], text[9], text[10], text[12],
        text[13], text[15], text[16],
    ]
}
