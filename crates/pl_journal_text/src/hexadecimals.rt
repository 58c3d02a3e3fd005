ghost use Rattle.std.specs.Prelude.{◌≡◌, ◌≢◌, ◌&&◌, nat_le, List, ℕ, length, IfOk, IfSome, IfNone};
ghost use Rattle.std.specs.List.{list_all};
ghost use Rattle.hex.specs.Hex.{IsBytes, encode_lower};
ghost use Rattle.pl_journal_text.specs.Hexadecimals.{is_lower_digit};
ghost use Rattle.pl_journal_text.specs.Reading.{Reads};
ghost use Rattle.pl_journal.specs.Ranges.{IsFrame};

use crate::from_text::FromText;
use hex::FromHexError;
use pl_frame::{Frame, LONGEST, SHORTEST};
use pl_journal::Memory;
use pl_wiring::Wiring;
use std::alloc::{AllocError, Global};

impl FromText for Frame {
    ghost spelling = { λ _ frame. encode_lower frame };

    ghost fits = { λ _ frame. IsFrame frame };

    fn from_text(alloc: Global, _wiring: &Wiring, text: &str) -> Result<Option<Frame>, Memory> {
        let Some(frame) = read_frame(alloc, text)? else {
            return Ok(None);
        };
        if has_length_of_frame(&frame) {
            Ok(Some(frame))
        } else {
            Ok(None)
        }
    }
}

fn has_length_of_frame(frame: &Frame) -> bool
    ensures { result ≡ (nat_le 14 (length frame.now) && nat_le (length frame.now) 65553) }
{
    let bytes = frame.bytes();
    SHORTEST <= bytes.len() && bytes.len() <= LONGEST
}

// The bytes that a word spells, however many.
fn read_frame(alloc: Global, word: &str) -> Result<Option<Frame>, Memory>
    ensures { IfOk result (Reads encode_lower IsBytes word.now) }
{
    let Some(bytes) = read_bytes(alloc, word.as_bytes())? else {
        return Ok(None);
    };
    let frame = Frame::copy(alloc, &bytes)?;
    Ok(Some(frame))
}

/// The bytes that a word spells, by their one spelling.
#[tactic(auto, using(crate::proofs::HexadecimalLemmas::spelt, crate::proofs::HexadecimalLemmas::not_upper, crate::proofs::HexadecimalLemmas::unread))]
fn read_bytes(alloc: Global, word: &[u8]) -> Result<Option<Vec<u8>>, AllocError>
    ensures found { IfOk result (λ read. IfSome read (λ bytes. word.now ≡ encode_lower bytes.items)) }
    ensures bytes { IfOk result (λ read. IfSome read (λ bytes. IsBytes bytes.items)) }
    ensures none { IfOk result (λ read. IfNone read ((bytes : List ℕ) → IsBytes bytes → word.now ≢ encode_lower bytes)) }
{
    if !are_lower_digits(word) {
        return Ok(None);
    }
    match hex::decode(alloc, word) {
        Ok(bytes) => Ok(Some(bytes)),
        Err(FromHexError::OutOfMemory) => Err(AllocError),
        Err(_) => Ok(None),
    }
}

pub(crate) fn are_lower_digits(word: &[u8]) -> bool
    ensures { result ≡ list_all is_lower_digit word.now }
{
    word.iter().all(|byte| is_lower_digit(*byte))
}

fn is_lower_digit(byte: u8) -> bool
    ensures { result ≡ is_lower_digit byte }
{
    matches!(byte, b'0'..=b'9' | b'a'..=b'f')
}
