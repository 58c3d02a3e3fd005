ghost use Rattle.std.specs.Prelude.{◌≡◌, ◌++◌, IfOk, OnOk, string_bytes};
ghost use Rattle.std.specs.List.{flat_map};
ghost use Rattle.pl_generator.specs.ScriptText.{closing_lines, script_lines, send_line};

use crate::drawing::DrawnFrame;
use pl_shelf::Memory;
use std::alloc::Global;

/// The text of the script that starts the hosts, sends the frames, and then makes steps that are
/// drawn from a number on.
pub(crate) fn script_text(
    alloc: Global,
    frames: &[DrawnFrame],
    number: u64,
    steps: u32,
) -> Result<String, Memory>
    ensures { IfOk result (λ text. string_bytes text ≡ script_lines frames.now number steps) }
{
    let mut text = String::from_str(alloc, "start all\nsettle 64\n")?;
    add_sends(alloc, &mut text, frames)?;
    add_closing(alloc, &mut text, number, steps)?;
    Ok(text)
}

// A line for each frame.
fn add_sends(alloc: Global, text: &mut String, frames: &[DrawnFrame]) -> Result<(), Memory>
    ensures { OnOk result (string_bytes text.new
        ≡ string_bytes text.old ++ flat_map send_line frames.now) }
{
    for frame in frames {
        add_send(alloc, text, frame)?;
    }
    Ok(())
}

fn add_send(alloc: Global, text: &mut String, frame: &DrawnFrame) -> Result<(), Memory>
    ensures { OnOk result (string_bytes text.new ≡ string_bytes text.old ++ send_line frame.now) }
{
    let source = frame.source;
    let line = format!(in alloc; "send h{source}\n")?;
    text.push_str(&line)
}

fn add_closing(alloc: Global, text: &mut String, number: u64, steps: u32) -> Result<(), Memory>
    ensures { OnOk result (string_bytes text.new
        ≡ string_bytes text.old ++ closing_lines number steps) }
{
    let draws = format!(in alloc; "random {number} {steps}\n")?;
    text.push_str(&draws)?;
    text.push_str("settle 64\nretry all\nsettle 64\n")
}
