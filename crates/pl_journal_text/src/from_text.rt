ghost use Rattle.std.specs.Prelude.{◌≡◌, ◌∷◌, ◌++◌, IfOk, IfSome, IfNone};
ghost use Rattle.pl_journal_text.specs.Reading.{IsCut, IsFree, Reads};

use pl_journal::Memory;
use pl_wiring::Wiring;
use std::alloc::Global;

/// A value that has one spelling in a line.
pub(crate) trait FromText: Sized + Drop {
    ghost use Rattle.std.specs.Prelude.{List, ℕ};
    ghost use Rattle.pl_wiring.specs.Plan.{Plan};

    /// How it is spelled in the journal of a wiring.
    ghost spelling: { Plan → Self → List ℕ };

    /// Which values a line can have.
    ghost fits: { Plan → Self → Type 0 };

    /// The value that is spelled so.
    fn from_text(alloc: Global, wiring: &Wiring, text: &str) -> Result<Option<Self>, Memory>
        ensures { IfOk result (Reads (spelling wiring.now) (fits wiring.now) text.now) };
}

/// A value whose spelling has no blank, so that others can stand behind it.
pub(crate) trait Word: FromText {
    ghost use Rattle.std.specs.Prelude.{List, ℕ};
    ghost use Rattle.pl_wiring.specs.Plan.{IsPlan, Plan};

    ghost blankless: { (plan : Plan) → IsPlan plan → (x : Self) → Self.fits plan x →
        IsFree 32 (Self.spelling plan x) };
}

/// Two values with a blank between them.
impl<A: Word, B: FromText> FromText for (A, B) {
    ghost spelling = { λ plan x. A.spelling plan x.0 ++ 32 ∷ B.spelling plan x.1 };

    ghost fits = { λ plan x. A.fits plan x.0 × B.fits plan x.1 };

    fn from_text(alloc: Global, wiring: &Wiring, text: &str) -> Result<Option<(A, B)>, Memory> {
        let _k = wiring.k();
        let Some((first, rest)) = cut(text) else {
            return Ok(None);
        };
        let Some(a) = A::from_text(alloc, wiring, first)? else {
            return Ok(None);
        };
        let Some(b) = B::from_text(alloc, wiring, rest)? else {
            return Ok(None);
        };
        Ok(Some((a, b)))
    }
}

/// What stands before the first blank, and what stands behind it.
pub(crate) fn cut(text: &str) -> Option<(&str, &str)>
    ensures found { IfSome result (λ parts. IsCut text.now parts.0.now parts.1.now) }
    ensures none { IfNone result (IsFree 32 text.now) }
{
    text.split_once(' ')
}
