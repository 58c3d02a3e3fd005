ghost use Rattle.std.specs.Prelude.{[], ◌∷◌, Some};
ghost use Rattle.hex.specs.Hex.{encode_lower};
ghost use Rattle.pl_journal.specs.Text.{field_text, parted, text_after_blank, texts};

use pl_frame::Mac;
use pl_wiring::Label;
use std::fmt;

/// A field of a line, in the form in which it is kept.
#[derive(Clone, Copy, Debug)]
pub enum Field<'a> {
    /// In decimal.
    Number(u64),
    /// A part of a place that is not known: `-`.
    Unknown,
    /// Six two-digit lower-case hexadecimal numbers joined by colons.
    Address(Mac),
    Switch(Label),
    Text(&'a str),
    /// Two lower-case hexadecimal digits for each byte.
    Bytes(&'a [u8]),
}

/// The words of an entry's line: the word for what befell, and the fields that are there.
#[derive(Clone, Copy, Debug)]
pub struct Words<'a> {
    pub word: &'static str,
    pub fields: [Option<Field<'a>>; 4],
}

// Two lower-case hexadecimal digits for each byte.
#[derive(Clone, Copy)]
struct Hexadecimal<'a>(&'a [u8]);

impl fmt::Display for Hexadecimal<'_> {
    ghost output = { λ hex. Some (encode_lower hex.0.now) };

    fn fmt<W: fmt::Write>(&self, f: &mut fmt::Formatter<W>) -> fmt::Result {
        for byte in self.0 {
            let pair = HexPair(*byte);
            write!(f, "{pair}")?;
        }
        Ok(())
    }
}

// A byte as two hexadecimal digits.
#[derive(Clone, Copy)]
struct HexPair(u8);

impl fmt::Display for HexPair {
    ghost output = { λ pair. Some (encode_lower (pair.0 ∷ [])) };

    fn fmt<W: fmt::Write>(&self, f: &mut fmt::Formatter<W>) -> fmt::Result {
        let byte = self.0;
        write!(f, "{byte:02x}")
    }
}

impl fmt::Display for Field<'_> {
    ghost output = { λ field. Some (field_text field) };

    fn fmt<W: fmt::Write>(&self, f: &mut fmt::Formatter<W>) -> fmt::Result {
        match self {
            Field::Number(n) => write!(f, "{n}"),
            Field::Unknown => write!(f, "-"),
            Field::Address(mac) => write!(f, "{mac}"),
            Field::Switch(label) => write!(f, "{label}"),
            Field::Text(text) => write!(f, "{text}"),
            Field::Bytes(bytes) => {
                let hex = Hexadecimal(bytes);
                write!(f, "{hex}")
            }
        }
    }
}

// A field behind a blank, or nothing.
#[derive(Clone, Copy)]
struct AfterBlank<'a>(Option<Field<'a>>);

impl fmt::Display for AfterBlank<'_> {
    ghost output = { λ field. Some (text_after_blank field.0) };

    fn fmt<W: fmt::Write>(&self, f: &mut fmt::Formatter<W>) -> fmt::Result {
        match self.0 {
            None => Ok(()),
            Some(field) => write!(f, " {field}"),
        }
    }
}

/// The words, parted by blanks.
impl fmt::Display for Words<'_> {
    ghost output = { λ words. Some (parted (texts words)) };

    fn fmt<W: fmt::Write>(&self, f: &mut fmt::Formatter<W>) -> fmt::Result {
        let word = self.word;
        write!(f, "{word}")?;
        for field in self.fields.as_slice() {
            let field = AfterBlank(*field);
            write!(f, "{field}")?;
        }
        Ok(())
    }
}
