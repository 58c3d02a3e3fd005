//! A saved journal is checked by itself.
//!
//! `verify` reads a journal line by line and says whether its entries are a run of the lossy switch of
//! pl_journal with good trails, or which entry or line is the first that is wrong
//! (`specs/Verdicts.antt` of pl_verdict). It takes a text from any source: nothing is known of the
//! switches, hosts and managers that are said to have brought it about. What is kept of the past is in
//! pl_checker, and how a line is read in pl_journal_text.
#![tactic(auto)]

pub use pl_journal_text::read_line;
pub use pl_verdict::{Verdict, VerifyError};
pub use verifying::verify;

mod judge;
mod lines;
mod verifying;
