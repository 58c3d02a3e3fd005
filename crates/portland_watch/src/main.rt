//! What the switches of a fabric say while a script is played, on standard output.
#![tactic(auto)]

use pl_inputs::Status;
use pl_shelf::DiskShelf;
use pl_watch_run::watch;
use std::env;
use std::io::{self, ErrorKind};
use std::process::ExitCode;

const USAGE: &str =
    "portland: usage: watch --topology T --script S --captures DIR [--of SWITCH] [--kind KIND] [--lines FROM-TO] [--json]";

/// Ends with the status's number. A status that is not 0 is told in one line on standard error.
fn main(rt: HostRuntime) -> ExitCode {
    let status = match run(&rt) {
        Ok(status) => status,
        // A word is no UTF-8, so it is none that the program knows.
        Err(e) if e.kind() == ErrorKind::InvalidData => Status::Usage,
        Err(_) => Status::OutOfMemory,
    };
    match status {
        Status::Done => {}
        Status::Usage => {
            let _told = eprintln!(rt; "{USAGE}");
        }
        _ => {
            // Where standard error is closed, the number alone tells.
            let _told = eprintln!(rt; "{status}");
        }
    }
    ExitCode::from(status.number())
}

fn run(rt: &HostRuntime) -> io::Result<Status> {
    let alloc = rt.alloc();
    let mut texts = Vec::new(alloc);
    for word in env::args(rt)? {
        texts.push(word)?;
    }
    let mut words = Vec::new(alloc);
    for text in &texts {
        words.push(text.as_str())?;
    }
    let shelf = DiskShelf::new(alloc, rt);
    let (_shelf, status) = watch(alloc, &words, shelf);
    Ok(status)
}
