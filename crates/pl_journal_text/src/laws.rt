ghost use Rattle.std.specs.Prelude.{◌≡◌, ℕ, List};
ghost use Rattle.pl_wiring.specs.Plan.{IsPlan, Plan};
ghost use Rattle.pl_journal.specs.Text.{line_of};
ghost use Rattle.pl_journal.specs.declared.entry.Entry.{Entry};
ghost use Rattle.pl_journal_text.specs.Writable.{IsJournalText, IsWritable};

/// In the journals of a wiring a line is of one entry, and a text of one journal.
pub fn a_text_is_of_one_journal()
    ensures line { (plan : Plan) (a b : Entry) → IsPlan plan → IsWritable plan a → IsWritable plan b →
        line_of plan a ≡ line_of plan b → a ≡ b }
    ensures text { (plan : Plan) (text : List ℕ) (a b : List Entry) → IsPlan plan →
        IsJournalText plan text a → IsJournalText plan text b → a ≡ b }
{}
