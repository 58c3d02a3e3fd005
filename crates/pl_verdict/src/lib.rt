//! What is said of the text of a journal: that it is legal, or which entry or line is the first that is wrong.
//!
//! A `Verdict` or a `VerifyError` is what a checker answers. `specs/Verdicts.antt` says what each
//! answer means, by the lossy switch of pl_journal; a text has one of them. How a text is checked is left to
//! the crates above.
#![tactic(auto)]

pub use laws::{
    a_journal_is_legal_where_each_entry_follows, a_saved_journal_is_legal, a_text_has_one_verdict,
};
pub use verdict::{Verdict, VerifyError};

mod laws;
mod verdict;
