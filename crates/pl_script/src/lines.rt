ghost use Rattle.std.specs.Prelude.{◌≡◌, ◌≢◌, ◌<◌, ◌≤◌, [], ◌∷◌, IfOk, IfSome, IfNone, length, position};
ghost use Rattle.std.specs.Str.Lines.{strip_carriage_return};
ghost use Rattle.pl_script.specs.Reading.{LineGives};
ghost use Rattle.pl_script.specs.Texts.{lines_of, is_newline};
ghost use Rattle.pl_script.specs.Meaning.{command_in_text, command_in, line_at, line_found, script_of};

use crate::forms::command;
use crate::words::{before_comment, next_word};
use crate::{Command, Script, ScriptError, ScriptLine, ScriptReason};
use memchr::memchr;
use pl_wiring::Wiring;
use std::alloc::Global;
use std::str;

/// The most lines of a script.
const MOST_LINES: u32 = 1_000_000;

/// Reads a script.
///
/// A line ends with a newline or with the file; one carriage return at its end is no part of it. A
/// `#` begins a comment, spaces and tabs part words, and a line without words does nothing. The
/// first line that is refused is told, counted from 1 with every line, and of its faults the first
/// in the order of [`ScriptReason`]. More than 1,000,000 lines are refused at line 1,000,001, where
/// none before it is.
pub fn read(alloc: Global, file: &[u8], wiring: &Wiring) -> Result<Script, ScriptError>
    ensures exact { LineGives result (script_of wiring.now file.now) }
{
    let mut script = Script::new(alloc);
    let mut number = 0;
    let mut rest = file;
    while let Some((line, behind)) = next_line(rest) {
        number += 1;
        if let Some(command) = numbered(wiring, number, line)? {
            script.push(ScriptLine { number, command })?;
        }
        rest = behind;
    }
    Ok(script)
}

// The first line of a file and what stands behind it.
fn next_line(file: &[u8]) -> Option<(&[u8], &[u8])>
    ensures found { IfSome result (λ parts. lines_of file.now ≡ parts.0.now ∷ lines_of parts.1.now) }
    ensures shorter { IfSome result (λ parts. length parts.1.now < length file.now) }
    ensures none { IfNone result (lines_of file.now ≡ []) }
{
    if file.is_empty() {
        return None;
    }
    match first_newline(file) {
        Some(end) => Some((&file[..end], &file[end + 1..])),
        None => Some((file, &file[file.len()..])),
    }
}

fn first_newline(file: &[u8]) -> Option<usize>
    ensures { result ≡ position is_newline file.now }
{
    memchr(b'\n', file)
}

// The command of a line, or why it is refused at its number.
#[tactic(auto, unfolding(crate::specs::Meaning::line_at))]
fn numbered(wiring: &Wiring, number: u32, line: &[u8]) -> Result<Option<Command>, ScriptError>
    ensures exact { line_found number result ≡ line_at wiring.now number line.now }
    ensures few { IfOk result (λ _. number ≤ 1000000) }
{
    if number > MOST_LINES {
        return Err(ScriptError::Line(number, ScriptReason::TooManyLines));
    }
    match line_command(wiring, line) {
        Ok(command) => Ok(command),
        Err(reason) => Err(ScriptError::Line(number, reason)),
    }
}

// The command of a line, if it has one.
#[tactic(auto, unfolding(crate::specs::Meaning::command_in))]
fn line_command(wiring: &Wiring, line: &[u8]) -> Result<Option<Command>, ScriptReason>
    ensures { result ≡ command_in wiring.now line.now }
{
    match str::from_utf8(without_carriage_return(line)) {
        Ok(text) => text_command(wiring, text),
        Err(_) => Err(ScriptReason::NotUtf8),
    }
}

fn without_carriage_return(line: &[u8]) -> &[u8]
    ensures { result.now ≡ strip_carriage_return line.now }
{
    if !line.is_empty() && line[line.len() - 1] == b'\r' {
        &line[..line.len() - 1]
    } else {
        line
    }
}

fn text_command(wiring: &Wiring, text: &str) -> Result<Option<Command>, ScriptReason>
    ensures { result ≡ command_in_text wiring.now text.now }
{
    let Some((word, rest)) = next_word(before_comment(text)) else {
        return Ok(None);
    };
    let command = command(wiring, word, rest)?;
    Ok(Some(command))
}
