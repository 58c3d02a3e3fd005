ghost use Rattle.std.specs.Prelude.{◌≡◌, Some};
ghost use Rattle.pl_script.specs.Reasons.{reason_text};
ghost use Rattle.pl_script.specs.declared.error.ScriptError.TheVariants.{Memory as memory};

use std::alloc::{AllocError, AllocFailed};
use std::fmt;
use thiserror::Error;

/// Why a line is refused: the first of these that holds.
#[derive(Clone, Copy, Debug, PartialEq, Eq)]
pub enum ScriptReason {
    /// The line is no UTF-8, be it in its comment.
    NotUtf8,
    /// The first word, or the word behind `expect`, begins no form of a line.
    Word,
    /// The form has another number of words.
    Count,
    /// A host, a switch or a cause is wanted, and there is none of this name.
    Name,
    /// A number or an address is wanted, and this is of another form or out of range.
    Number,
    /// The line stands behind the last that a script may have.
    TooManyLines,
}

/// The name of the variant.
impl fmt::Display for ScriptReason {
    ghost output = { λ reason. Some (reason_text reason) };

    fn fmt<W: fmt::Write>(&self, f: &mut fmt::Formatter<W>) -> fmt::Result {
        match self {
            ScriptReason::NotUtf8 => write!(f, "NotUtf8"),
            ScriptReason::Word => write!(f, "Word"),
            ScriptReason::Count => write!(f, "Count"),
            ScriptReason::Name => write!(f, "Name"),
            ScriptReason::Number => write!(f, "Number"),
            ScriptReason::TooManyLines => write!(f, "TooManyLines"),
        }
    }
}

/// Why there is no script.
#[derive(Clone, Copy, Debug, PartialEq, Eq, Error)]
pub enum ScriptError {
    /// The first line that is refused, counted from 1.
    #[error("line {0}: {1}")]
    Line(u32, ScriptReason),
    /// Memory ran out.
    #[error("out of memory")]
    Memory,
}

impl From<AllocError> for ScriptError {
    ghost from_gives = { λ _ e. e ≡ memory };

    fn from(_e: AllocError) -> ScriptError {
        ScriptError::Memory
    }
}

impl<T: Drop> From<AllocFailed<T>> for ScriptError {
    ghost from_gives = { λ _ e. e ≡ memory };

    fn from(_e: AllocFailed<T>) -> ScriptError {
        ScriptError::Memory
    }
}
