use crate::topology::wiring;
use pl_frame::Memory;
use pl_script::{Script, ScriptError, ScriptLine, read};
use pl_test_words::{first_word, is_remark, say};
use pl_wiring::Wiring;
use std::alloc::{AllocError, Global};

// Longer scripts are only counted.
const MOST_TOLD: usize = 9;

/// Reads a wiring, and plays the lines of a script for it; where there is none, false.
pub(crate) fn play_script(
    alloc: Global,
    topology: &str,
    lines: &[&str],
    out: &mut String,
) -> Result<bool, Memory> {
    match begin(alloc, topology, out)? {
        None => Ok(false),
        Some(mut bench) => {
            bench.play_all(alloc, lines, out)?;
            Ok(true)
        }
    }
}

/// A wiring, and a script as far as it was written.
#[derive(Drop)]
struct ScriptBench {
    wiring: Wiring,
    file: Vec<u8>,
}

/// Begins an empty script for a topology; prints why there is no wiring.
fn begin(alloc: Global, topology: &str, out: &mut String) -> Result<Option<ScriptBench>, Memory> {
    match wiring(alloc, topology.as_bytes(), out)? {
        None => Ok(None),
        Some(wiring) => {
            let file = Vec::new(alloc);
            Ok(Some(ScriptBench { wiring, file }))
        }
    }
}

impl ScriptBench {
    fn play_all(&mut self, alloc: Global, lines: &[&str], out: &mut String) -> Result<(), Memory> {
        for line in lines {
            self.play(alloc, line, out)?;
        }
        Ok(())
    }

    // Plays a line, which writes on at the script or has it read.
    fn play(&mut self, alloc: Global, line: &str, out: &mut String) -> Result<(), Memory> {
        if is_remark(line) {
            return say(out, line);
        }
        let (verb, rest) = first_word(line);
        match verb {
            "write" => self.write(rest, 1),
            "times" => self.times(rest, out),
            "bytes" => self.bytes(alloc, rest, out),
            "read" => say_outcome(alloc, &self.wiring, &self.file, out),
            "second" => self.second(alloc, rest, out),
            "empty" => self.empty(),
            _ => say(out, "not understood"),
        }
    }

    // LINE: so many times.
    fn write(&mut self, line: &str, times: u32) -> Result<(), Memory> {
        for _ in 0..times {
            self.file.extend_from_slice(line.as_bytes())?;
            self.file.push(b'\n')?;
        }
        Ok(())
    }

    // TIMES LINE
    fn times(&mut self, rest: &str, out: &mut String) -> Result<(), Memory> {
        let (times, line) = first_word(rest);
        match times.parse::<u32>() {
            Ok(times) => self.write(line, times),
            Err(_) => say(out, "not understood"),
        }
    }

    // The bytes in hexadecimal, with no end of a line behind them.
    fn bytes(&mut self, alloc: Global, rest: &str, out: &mut String) -> Result<(), Memory> {
        match hex::decode(alloc, rest) {
            Ok(bytes) => self.file.extend_from_slice(&bytes),
            Err(hex::FromHexError::OutOfMemory) => Err(AllocError),
            Err(_) => say(out, "not understood"),
        }
    }

    // Reads the script that has this line alone, behind an empty one.
    fn second(&self, alloc: Global, line: &str, out: &mut String) -> Result<(), Memory> {
        let file = format!(in alloc; "\n{line}\n")?;
        say_outcome(alloc, &self.wiring, file.as_bytes(), out)
    }

    fn empty(&mut self) -> Result<(), Memory> {
        self.file.clear();
        Ok(())
    }
}

// Its commands, or its first refused line and why.
fn say_outcome(
    alloc: Global,
    wiring: &Wiring,
    file: &[u8],
    out: &mut String,
) -> Result<(), Memory> {
    match read(alloc, file, wiring) {
        Ok(script) => say_script(alloc, &script, out),
        Err(error) => say_refused(alloc, error, out),
    }
}

fn say_refused(alloc: Global, error: ScriptError, out: &mut String) -> Result<(), Memory> {
    let line = format!(in alloc; "{error}")?;
    say(out, line.as_str())
}

fn say_script(alloc: Global, script: &Script, out: &mut String) -> Result<(), Memory> {
    let len = script.len();
    let line = format!(in alloc; "read {len}")?;
    say(out, line.as_str())?;
    if len <= MOST_TOLD {
        say_lines(alloc, script, out)?;
    }
    Ok(())
}

fn say_lines(alloc: Global, script: &Script, out: &mut String) -> Result<(), Memory> {
    for line in script.lines() {
        say_line(alloc, line, out)?;
    }
    Ok(())
}

fn say_line(alloc: Global, line: &ScriptLine, out: &mut String) -> Result<(), Memory> {
    let number = line.number;
    let command = line.command;
    let line = format!(in alloc; "{number}: {command:?}")?;
    say(out, line.as_str())
}
