ghost use Rattle.std.specs.Prelude.{◌≡◌, ◌∷◌, ℕ, [], drop, None, Option, Some, decimal};
ghost use Rattle.pl_layouts.specs.Control.{sender_of};
ghost use Rattle.pl_log_lines.specs.Controls.{answer_words, control_line, direction_word, fixed_word, ldm_words, proposal_words, said_line, vote_words};
ghost use Rattle.pl_log_lines.specs.Rows.{below_of, word_text, words_text};

use crate::kind::Kind;
use crate::row::{
    Row, UNKNOWN, Verb, Word, Words, number, one, part, pod, port, switch, switch_if_known, text,
    three,
};
use pl_frame::{SHORTEST, SwitchId};
use pl_ldp::read_control;
use pl_node::{Control, Ldm, Proposal, Vote};
use pl_world_parts::WiringIndex;

/// A control frame that is heard: by whom it was sent, and what it says.
pub(crate) fn heard_control(index: &WiringIndex, frame: &[u8]) -> Row<'static>
    ensures { (node : Option ℕ) → below_of node result ≡ control_line index.now node Verb.Heard None frame.now }
{
    control_row(index, Verb::Heard, frame)
}

/// A control frame that is lost.
pub fn lost_control(index: &WiringIndex, frame: &[u8]) -> Row<'static>
    ensures { (node : Option ℕ) → below_of node result ≡ control_line index.now node Verb.Lost None frame.now }
{
    control_row(index, Verb::Lost, frame)
}

fn control_row(index: &WiringIndex, verb: Verb, frame: &[u8]) -> Row<'static>
    ensures { (node : Option ℕ) → below_of node result ≡ control_line index.now node verb None frame.now }
{
    match read_control(payload(frame)) {
        Err(_) => unread_row(verb, UNKNOWN),
        Ok(control) => said_row(index, verb, switch(index, sender(&control)), &control),
    }
}

/// A control frame that leaves by a port, which stands before what it says.
pub(crate) fn sent_control(index: &WiringIndex, by: u8, frame: &[u8]) -> Row<'static>
    ensures { (node : Option ℕ) → below_of node result ≡ control_line index.now node Verb.Sends (Some (decimal by)) frame.now }
{
    match read_control(payload(frame)) {
        Err(_) => unread_row(Verb::Sends, port(by)),
        Ok(control) => said_row(index, Verb::Sends, port(by), &control),
    }
}

// What stands behind a frame's header.
#[tactic(auto, using(crate::proofs::Words::nothing_behind))]
fn payload(frame: &[u8]) -> &[u8]
    ensures { result.now ≡ drop 14 frame.now }
{
    if frame.len() < SHORTEST {
        return &[];
    }
    frame.split_at(SHORTEST).1
}

fn sender(control: &Control) -> SwitchId
    ensures { result ≡ sender_of control.now }
{
    match control {
        Control::Ldm(id, _) => *id,
        Control::Proposal(id, _) => *id,
        Control::Vote(id, _) => *id,
    }
}

// One that cannot be read.
fn unread_row(verb: Verb, first: Word<'static>) -> Row<'static>
    ensures { (node : Option ℕ) → below_of node result ≡ record { node = node; verb = verb; kind = Kind.Unread; words = word_text first.entry ∷ [] } }
{
    Row {
        verb,
        kind: Kind::Unread,
        words: one(first),
    }
}

fn said_row(
    index: &WiringIndex,
    verb: Verb,
    first: Word<'static>,
    control: &Control,
) -> Row<'static>
    ensures { (node : Option ℕ) → below_of node result ≡ said_line index.now node verb (word_text first.entry) control.now }
{
    match control {
        Control::Ldm(_, ldm) => Row {
            verb,
            kind: Kind::Ldm,
            words: ldm_words(index, first, ldm),
        },
        Control::Proposal(_, proposal) => Row {
            verb,
            kind: Kind::Proposal,
            words: proposal_words(first, proposal),
        },
        Control::Vote(_, vote) => Row {
            verb,
            kind: Kind::Vote,
            words: vote_words(index, first, vote),
        },
    }
}

// Level, position and pod, direction and echo.
fn ldm_words(index: &WiringIndex, first: Word<'static>, ldm: &Ldm) -> Words<'static>
    ensures { words_text result ≡ word_text first.entry ∷ ldm_words index.now ldm.now }
{
    [
        Some(first),
        Some(part(ldm.place.level)),
        Some(part(ldm.place.position)),
        Some(pod(ldm.place.pod)),
        Some(direction(ldm.direction)),
        Some(switch_if_known(index, ldm.echo)),
        None,
    ]
}

fn direction(direction: u8) -> Word<'static>
    ensures { word_text result ≡ direction_word direction }
{
    if direction == 1 {
        return text("up");
    }
    if direction == 2 {
        return text("down");
    }
    UNKNOWN
}

fn proposal_words(first: Word<'static>, proposal: &Proposal) -> Words<'static>
    ensures { words_text result ≡ word_text first.entry ∷ proposal_words proposal.now }
{
    three(
        first,
        number(u64::from(proposal.attempt)),
        number(u64::from(proposal.position)),
    )
}

// A refusal names who holds the position, and whether that is fixed.
fn vote_words(index: &WiringIndex, first: Word<'static>, vote: &Vote) -> Words<'static>
    ensures { words_text result ≡ word_text first.entry ∷ vote_words index.now vote.now }
{
    let attempt = number(u64::from(vote.attempt));
    let position = number(u64::from(vote.position));
    if vote.granted {
        let granted = Some(text("granted"));
        return [
            Some(first),
            Some(attempt),
            Some(position),
            granted,
            None,
            None,
            None,
        ];
    }
    [
        Some(first),
        Some(attempt),
        Some(position),
        Some(text("refused")),
        Some(switch_if_known(index, vote.holder)),
        Some(fixed_word(vote.fixed)),
        None,
    ]
}

pub fn fixed_word(fixed: bool) -> Word<'static>
    ensures { word_text result ≡ fixed_word fixed }
{
    if fixed { text("fixed") } else { text("open") }
}
