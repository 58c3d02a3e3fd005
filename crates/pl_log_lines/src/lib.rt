//! What a line of a log looks like: an entry of the journal, an event, or a line below an event, which says what a node heard, did or
//! knows; the words of each, and which lines are shown.
//!
//! A `Page` writes lines to standard output as they come: words parted by blanks, or a JSON array of them. What is told in a run,
//! and when, stands in the crates above.
#![tactic(auto)]

pub use acts::{tell_acts, tell_heard, tell_manager_acts};
pub use controls::{fixed_word, lost_control};
pub use kind::Kind;
pub use look::Look;
pub use messages::{place_words, told_row, tree_words, usable_word};
pub use page::Page;
pub use row::{
    Row, UNKNOWN, Verb, Word, Words, label, number, one, part, pod, port, switch, switch_if_known,
    text, three, two,
};
pub use told::Told;

mod acts;
mod controls;
mod kind;
mod look;
mod messages;
mod page;
mod row;
mod told;
