//! What a run is asked and what it reads: the words of the command line, the files that they name, and
//! what each answer says.
#![tactic(auto)]

pub use capture::Capture;
pub use fault::CaptureFault;
pub use folders::in_folder;
pub use loading::{Inputs, load_inputs, load_journal, load_wiring};
pub use numbers::one_more;
pub use records::{RecordedFrame, record_at, record_count};
pub use status::Status;
pub use step::StepReason;
pub use words::{Files, Generation, Items, Network, Task, task_of};

mod capture;
mod fault;
mod folders;
mod loading;
mod numbers;
mod records;
mod status;
mod step;
mod words;
