//! The text of a journal, read back.
//!
//! `read_line` gives the entry that is written as a line, and none exactly where no entry is
//! (`specs/Writable.antt` says which entries a line can be of). Each word has one spelling, so a line
//! is of one entry, and a text of one journal. What a journal says, and whether it may be, is left to
//! pl_journal and to the crates above.
#![tactic(auto)]

pub use laws::a_text_is_of_one_journal;
pub use line::read_line;
pub use pl_lists::Memory;

mod addresses;
mod from_text;
mod hexadecimals;
mod laws;
mod line;
mod names;
mod numbers;
mod rows;
mod verb;
