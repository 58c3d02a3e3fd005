//! The program: its words, the system's files and standard output for the one call `portland`.
#![tactic(auto)]

use pl_inputs::Status;
use pl_run::portland;
use pl_shelf::DiskShelf;
use std::env;
use std::io::{self, ErrorKind};
use std::process::ExitCode;

/// Ends with the status's number. A status that is not 0 is told in one line on standard error.
fn main(rt: HostRuntime) -> ExitCode {
    let status = match run(&rt) {
        Ok(status) => status,
        // A word is no UTF-8, so it is none that the program knows.
        Err(e) if e.kind() == ErrorKind::InvalidData => Status::Usage,
        Err(_) => Status::OutOfMemory,
    };
    if status.number() != 0 {
        // Where standard error is closed, the number alone tells.
        let _told = eprintln!(rt; "{status}");
    }
    ExitCode::from(status.number())
}

fn run(rt: &HostRuntime) -> io::Result<Status> {
    let alloc = rt.alloc();
    let mut texts = Vec::new(alloc);
    for word in env::args(rt)? {
        texts.push(word)?;
    }
    let mut words = Vec::new(alloc);
    for text in &texts {
        words.push(text.as_str())?;
    }
    let mut shelf = DiskShelf::new(alloc, rt);
    Ok(portland(alloc, &words, &mut shelf))
}
