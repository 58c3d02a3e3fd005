ghost use Rattle.std.specs.Prelude.{◌≡◌, Ok};
ghost use Rattle.pl_script.specs.Reading.{LineGives};
ghost use Rattle.pl_script.specs.ForBridges.{bridge_script_of, for_bridges, lines_for_bridges};

use crate::lines::read;
use crate::{Command, Script, ScriptError, ScriptLine, ScriptReason};
use pl_wiring::Wiring;
use std::alloc::Global;

/// Reads a script that is to be played on learning bridges. Of a script that `read` accepts the first line
/// with `repair`, `random`, `restart`, `expect address` or `expect settled` is refused as a word that begins no
/// line.
#[tactic(auto, unfolding(crate::specs::ForBridges::bridge_script_of))]
pub fn read_for_bridges(alloc: Global, file: &[u8], wiring: &Wiring) -> Result<Script, ScriptError>
    ensures exact { LineGives result (bridge_script_of wiring.now file.now) }
{
    match read(alloc, file, wiring) {
        Ok(script) => all_for_bridges(alloc, script.lines()),
        Err(e) => Err(e),
    }
}

// What these lines ask of bridges, or the first that asks what they do not have.
fn all_for_bridges(alloc: Global, lines: &[ScriptLine]) -> Result<Script, ScriptError>
    ensures exact { LineGives result (lines_for_bridges lines.now) }
{
    let mut script = Script::new(alloc);
    for line in lines {
        let Some(command) = for_bridges(line.command) else {
            return Err(ScriptError::Line(line.number, ScriptReason::Word));
        };
        script.push(ScriptLine {
            number: line.number,
            command,
        })?;
    }
    Ok(script)
}

// What a command asks of bridges, where they have it.
fn for_bridges(command: Command) -> Option<Command>
    ensures { result ≡ for_bridges command }
{
    match command {
        Command::Repair(_, _)
        | Command::Random(_, _)
        | Command::Restart
        | Command::ExpectAddress(_, _)
        | Command::ExpectSettled => None,
        Command::Settle(sweeps) => Some(Command::Drain(sweeps)),
        other => Some(other),
    }
}
