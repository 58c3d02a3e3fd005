ghost use Rattle.std.specs.Prelude.{◌≡◌, ◌==◌, [], ◌∷◌, ◌++◌, length, slice_get, OnOk, OnErr, option_copied};

use crate::{Command, Memory};
use std::alloc::Global;
use std::marker::Model;

/// A line with a command. Lines are counted from 1, whatever stands in them.
#[derive(Clone, Copy, Debug, PartialEq, Eq)]
pub struct ScriptLine {
    pub number: u32,
    pub command: Command,
}

/// The commands of a script in the order of their lines.
#[derive(Debug, Drop)]
pub struct Script {
    lines: Vec<ScriptLine>,
}

impl Model for Script {
    ghost use Rattle.std.specs.Prelude.{List};
    ghost use Rattle.pl_script.specs.declared.script.ScriptLine.{ScriptLine};

    ghost Value = { List ScriptLine };

    ghost view = { λ script. script.lines.items };
}

impl Script {
    pub(crate) fn new(alloc: Global) -> Script
        ensures { result ≡ [] }
    {
        Script {
            lines: Vec::new(alloc),
        }
    }

    pub(crate) fn push(&mut self, line: ScriptLine) -> Result<(), Memory>
        ensures ok { OnOk result (self.new ≡ self.old ++ line ∷ []) }
        ensures err { OnErr result (self.new ≡ self.old) }
    {
        self.lines.push(line)?;
        Ok(())
    }

    pub fn lines(&self) -> &[ScriptLine]
        ensures { result.now ≡ self.now }
    {
        self.lines.as_slice()
    }

    pub fn len(&self) -> usize
        ensures { result ≡ length self.now }
    {
        self.lines.len()
    }

    pub fn is_empty(&self) -> bool
        ensures { result ≡ (length self.now == 0) }
    {
        self.lines.is_empty()
    }

    /// The command at an index, counted from 0; none past the last.
    pub fn get(&self, n: usize) -> Option<&ScriptLine>
        ensures { option_copied result ≡ slice_get self.now n }
    {
        self.lines.get(n)
    }
}
