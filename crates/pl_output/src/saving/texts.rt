ghost use Rattle.std.specs.Prelude.{◌≡◌, [], IfOk, codes, string_bytes};
ghost use Rattle.pl_output.specs.Receipts.{journal_name};
ghost use Rattle.pl_output.specs.Texts.{AreTexts};

use crate::printing::Piece;
use crate::saving::inbox::Inbox;
use crate::saving::receiving::receive;
use pl_frame::Memory;
use pl_inputs::in_folder;
use pl_journal::Journal;
use pl_wiring::{Name, Wiring};
use std::alloc::Global;

/// All that is saved of a run, with the names, made before the first of them is created.
#[derive(Drop)]
pub struct Texts {
    /// The captures, in the order of the hosts.
    pub inboxes: Vec<Inbox>,
    /// The name of the journal, whose text is printed as it is saved.
    pub journal: Name,
    /// The name of standard output, for the summary.
    pub output: Name,
    pub summary: String,
    pub piece: Piece,
}

impl Texts {
    /// The texts of a journal, which go into the folder `out`, and a summary.
    pub fn new(
        alloc: Global,
        out: &str,
        wiring: &Wiring,
        journal: &Journal,
        summary: String,
        piece: Piece,
    ) -> Result<Texts, Memory>
        ensures are { IfOk result (λ texts. AreTexts out.now wiring.now journal.now texts) }
        ensures summary { IfOk result (λ texts. string_bytes texts.summary ≡ string_bytes summary) }
    {
        Ok(Texts {
            inboxes: receive(alloc, out, wiring.hosts(), journal)?,
            journal: journal_name(alloc, out)?,
            output: Name::copy(alloc, "-")?,
            summary,
            piece,
        })
    }
}

fn journal_name(alloc: Global, out: &str) -> Result<Name, Memory>
    ensures { IfOk result (λ name. name ≡ journal_name out.now) }
{
    in_folder(alloc, out, "journal.txt")
}
