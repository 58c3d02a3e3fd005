//! Scripts: what happens in a run, one command a line.
//!
//! `read` gives the commands of a script file, or the first line that is refused and why
//! (`specs/Meaning.antt`). Names are those of a wiring. What a command does is left to the crates
//! above, and so is whether it can be done: a link to fail, a queue to deliver from. `read_for_bridges`
//! gives those of a script that is played on learning bridges (`specs/ForBridges.antt`).
#![tactic(auto)]

pub use command::{Command, Count, End, Who};
pub use error::{ScriptError, ScriptReason};
pub use for_bridges::read_for_bridges;
pub use lines::read;
pub use numbers::number;
pub use pl_frame::Memory;
pub use script::{Script, ScriptLine};

mod command;
mod error;
mod for_bridges;
mod forms;
mod lines;
mod names;
mod numbers;
mod script;
mod verb;
mod words;
