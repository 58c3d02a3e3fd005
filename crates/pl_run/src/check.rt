ghost use Rattle.pl_output.specs.Room.{HaveRoom};
ghost use Rattle.pl_playing.specs.Plays.{answer_of};
ghost use Rattle.pl_playing.specs.Prepared.{NamesNoFault};
ghost use Rattle.pl_run.specs.Checks.{AnswersCheck, EndsCheck, line_of};
ghost use Rattle.pl_run.specs.Prepared.{IsPreparedCheck};

use pl_inputs::{Status, load_wiring};
use pl_output::{print, wiring_line};
use pl_shelf::Shelf;
use pl_wiring::{Name, Wiring};
use std::alloc::Global;

/// Reads a topology, and prints the line of its wiring.
pub(crate) fn check<S: Shelf>(alloc: Global, topology: &str, shelf: &mut S) -> Result<(), Status>
    ensures answers { AnswersCheck
        (S.moment shelf.old) (S.moment shelf.new)
        topology.now (answer_of result) }
    ensures prepared { IsPreparedCheck (S.capacity shelf.old) (S.moment shelf.old).held topology.now → NamesNoFault (answer_of result) }
{
    let wiring = load_wiring(alloc, shelf, topology)?;
    print_wiring(alloc, &wiring, shelf)
}

fn print_wiring<S: Shelf>(alloc: Global, wiring: &Wiring, shelf: &mut S) -> Result<(), Status>
    ensures ends { EndsCheck
        (S.moment shelf.old) (S.moment shelf.new)
        wiring.now (answer_of result) }
    ensures prepared { HaveRoom (S.capacity shelf.old) (S.moment shelf.old).held (line_of wiring.now) → NamesNoFault (answer_of result) }
{
    let line = wiring_line(alloc, wiring)?;
    let output = Name::copy(alloc, "-")?;
    match print(shelf, output, &line) {
        Ok(()) => Ok(()),
        Err(name) => Err(Status::WriteFault(name)),
    }
}
