ghost use Rattle.std.specs.Prelude.{◌≡◌, ◌≤◌, length, string_bytes, IfOk, IfErr};
ghost use Rattle.pl_inputs.specs.Inputs.{journal_limit};
ghost use Rattle.pl_output.specs.Room.{HaveRoom};
ghost use Rattle.pl_playing.specs.Outcomes.{EndsSaving};
ghost use Rattle.pl_playing.specs.Plays.{answer_of};
ghost use Rattle.pl_playing.specs.Prepared.{NamesNoFault};
ghost use Rattle.pl_verdict.specs.Verdicts.{IsLegal};
ghost use Rattle.pl_run.specs.Prepared.{HasRoomForLegal, IsPreparedJournal, IsPreparedVerify};
ghost use Rattle.pl_run.specs.Verified.{AnswersJournal, AnswersVerify, EndsVerify, IsFaulty, legal_line, told_of};

use pl_inputs::{Status, load_journal, load_wiring};
use pl_output::print;
use pl_shelf::Shelf;
use pl_verdict::{Verdict, VerifyError};
use pl_wiring::{Name, Wiring};
use std::alloc::{AllocError, Global};

/// Reads a topology and then a saved journal of it, and prints how many entries it has, where it is legal.
pub(crate) fn verify<S: Shelf>(
    alloc: Global,
    topology: &str,
    journal: &str,
    shelf: &mut S,
) -> Result<(), Status>
    ensures answers { AnswersVerify
        (S.moment shelf.old) (S.moment shelf.new)
        topology.now journal.now (answer_of result) }
    ensures prepared { IsPreparedVerify (S.capacity shelf.old) (S.moment shelf.old).held topology.now journal.now → NamesNoFault (answer_of result) }
{
    let wiring = load_wiring(alloc, shelf, topology)?;
    let _k = wiring.k();
    verify_journal(alloc, &wiring, journal, shelf)
}

fn verify_journal<S: Shelf>(
    alloc: Global,
    wiring: &Wiring,
    journal: &str,
    shelf: &mut S,
) -> Result<(), Status>
    ensures answers { AnswersJournal
        (S.moment shelf.old) (S.moment shelf.new)
        wiring.now journal.now (answer_of result) }
    ensures prepared { IsPreparedJournal (S.capacity shelf.old) (S.moment shelf.old).held wiring.now journal.now → NamesNoFault (answer_of result) }
{
    let text = load_journal(alloc, shelf, journal)?;
    tell(alloc, wiring, text.bytes(), shelf)
}

// What is found of a journal's text.
fn tell<S: Shelf>(alloc: Global, wiring: &Wiring, text: &[u8], shelf: &mut S) -> Result<(), Status>
    requires { length text.now ≤ journal_limit }
    ensures ends { EndsVerify
        (S.moment shelf.old) (S.moment shelf.new)
        wiring.now text.now (answer_of result) }
    ensures prepared { HasRoomForLegal (S.capacity shelf.old) (S.moment shelf.old).held wiring.now text.now → NamesNoFault (answer_of result) }
{
    let entries = legal_entries(alloc, wiring, text)?;
    print_legal(alloc, entries, shelf)
}

// How many entries a legal journal has.
fn legal_entries(alloc: Global, wiring: &Wiring, text: &[u8]) -> Result<u64, Status>
    requires { length text.now ≤ journal_limit }
    ensures ok { IfOk result (λ n. IsLegal wiring.now text.now n) }
    ensures err { IfErr result (λ e. IsFaulty wiring.now text.now e) }
{
    match pl_verify::verify(alloc, wiring, text) {
        Ok(Verdict::Legal(entries)) => Ok(entries),
        Ok(Verdict::Illegal(entry)) => Err(Status::NotLegal(entry as u32)),
        Err(VerifyError::BadLine(line)) => Err(Status::BadJournal(line as u32)),
        Err(VerifyError::Memory) => Err(Status::OutOfMemory),
    }
}

fn print_legal<S: Shelf>(alloc: Global, entries: u64, shelf: &mut S) -> Result<(), Status>
    ensures ends { EndsSaving
        (S.moment shelf.old) (S.moment shelf.new)
        (told_of entries) (answer_of result) }
    ensures prepared { HaveRoom (S.capacity shelf.old) (S.moment shelf.old).held (told_of entries) → NamesNoFault (answer_of result) }
{
    let line = legal_line(alloc, entries)?;
    let output = Name::copy(alloc, "-")?;
    match print(shelf, output, &line) {
        Ok(()) => Ok(()),
        Err(name) => Err(Status::WriteFault(name)),
    }
}

fn legal_line(alloc: Global, entries: u64) -> Result<String, AllocError>
    ensures { IfOk result (λ line. string_bytes line ≡ legal_line entries) }
{
    let line = format!(in alloc; "legal {entries}\n")?;
    Ok(line)
}
