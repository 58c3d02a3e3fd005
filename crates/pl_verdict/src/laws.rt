ghost use Rattle.std.specs.Prelude.{◌≡◌, ◌↔◌, ℕ, All, List, [], length};
ghost use Rattle.pl_wiring.specs.Plan.{IsPlan, Plan};
ghost use Rattle.pl_journal.specs.declared.entry.Entry.{Entry};
ghost use Rattle.pl_journal.specs.Lossy.{GoodTrail, Run};
ghost use Rattle.pl_journal.specs.Ranges.{Fits};
ghost use Rattle.pl_journal.specs.Savable.{IsSavable};
ghost use Rattle.pl_journal.specs.Text.{journal_text};
ghost use Rattle.pl_verdict.specs.Verdicts.{AllFollow, FirstFails, IsBadLine, IsIllegal, IsLegal};

/// A journal is a run with good trails exactly where each entry follows those before it; then none is
/// the first that does not.
pub fn a_journal_is_legal_where_each_entry_follows()
    ensures legal { (plan : Plan) (journal : List Entry) →
        AllFollow plan [] journal ↔ (Run plan journal × GoodTrail plan journal) }
    ensures one_verdict { (plan : Plan) (past entries : List Entry) (n : ℕ) →
        FirstFails plan past entries n → AllFollow plan past entries → ⊥ }
{}

/// Of a text at most one verdict is true.
pub fn a_text_has_one_verdict()
    ensures legal { (plan : Plan) (text : List ℕ) (m n : ℕ) → IsPlan plan →
        IsLegal plan text m → IsLegal plan text n → m ≡ n }
    ensures illegal { (plan : Plan) (text : List ℕ) (m n : ℕ) → IsPlan plan →
        IsIllegal plan text m → IsIllegal plan text n → m ≡ n }
    ensures bad_line { (plan : Plan) (text : List ℕ) (m n : ℕ) → IsPlan plan →
        IsBadLine plan text m → IsBadLine plan text n → m ≡ n }
    ensures legal_or_illegal { (plan : Plan) (text : List ℕ) (m n : ℕ) → IsPlan plan →
        IsLegal plan text m → IsIllegal plan text n → ⊥ }
    ensures legal_or_bad_line { (plan : Plan) (text : List ℕ) (m n : ℕ) → IsPlan plan →
        IsLegal plan text m → IsBadLine plan text n → ⊥ }
    ensures illegal_or_bad_line { (plan : Plan) (text : List ℕ) (m n : ℕ) → IsPlan plan →
        IsIllegal plan text m → IsBadLine plan text n → ⊥ }
{}

/// The text of a journal that is a run with good trails is legal, where its entries can be saved and are
/// such as the types of their parts can hold.
pub fn a_saved_journal_is_legal()
    ensures { (plan : Plan) (journal : List Entry) → Run plan journal → GoodTrail plan journal →
        All (IsSavable plan) journal → All Fits journal →
        IsLegal plan (journal_text plan journal) (length journal) }
{}
