ghost use Rattle.std.specs.Prelude.{◌≡◌, ◌∷◌, ℕ, [], Option, map, option_map};
ghost use Rattle.pl_world_parts.specs.OneStep.{input_from};
ghost use Rattle.pl_log_lines.specs.Acts.{act_line, does_line, frame_line, heard_lines, manager_act_line};
ghost use Rattle.pl_log_lines.specs.Rows.{below_of, words_text};
ghost use Rattle.pl_log_lines.specs.Telling.{Tells};

use crate::controls::{heard_control, sent_control};
use crate::kind::Kind;
use crate::messages::{says_row, told_row};
use crate::page::Page;
use crate::row::{NO_WORDS, Row, Verb, Words, mac, number, one, pmac, port, switch, text, two};
use crate::told::Told;
use pl_node::{Act, ManagerAct, ManagerOutbox, Outbox};
use pl_shelf::Shelf;
use pl_world_parts::{Incoming, WiringIndex};

/// What a switch hears; a tick is nothing but the event itself.
pub fn tell_heard<D: Shelf + Drop>(
    page: &mut Page<D>,
    told: &mut Told<'_>,
    index: &WiringIndex,
    incoming: Incoming<'_>,
    id: Option<u64>,
)
    ensures { Tells page.old page.new told.old told.new (heard_lines index.now (option_map (λ s. s.0) told.old.node) (input_from incoming.entry) id) }
{
    match incoming {
        Incoming::Tick => {}
        Incoming::Frame(_, frame) => page.tell(told, &frame_row(index, frame, id)),
        Incoming::Message(says) => page.tell(told, &says_row(index, Verb::Heard, None, says)),
    }
}

// A data frame by its number, and what a control frame says.
fn frame_row(index: &WiringIndex, frame: &[u8], id: Option<u64>) -> Row<'static>
    ensures { (node : Option ℕ) → below_of node result ≡ frame_line index.now node frame.now id }
{
    match id {
        Some(id) => row(Verb::Heard, Kind::Frame, one(number(id))),
        None => heard_control(index, frame),
    }
}

/// What a switch does, in order.
pub fn tell_acts<D: Shelf + Drop>(
    page: &mut Page<D>,
    told: &mut Told<'_>,
    index: &WiringIndex,
    acts: &mut Outbox,
)
    ensures { Tells page.old page.new told.old told.new (map (act_line index.now (option_map (λ s. s.0) told.old.node)) acts.old) }
{
    while let Some(act) = acts.take_first() {
        page.tell(told, &act_row(index, &act));
    }
}

fn act_row(index: &WiringIndex, act: &Act) -> Row<'static>
    ensures { (node : Option ℕ) → below_of node result ≡ act_line index.now node act.now }
{
    match act {
        Act::Control(by, frame) => sent_control(index, *by, frame.bytes()),
        Act::Tell(told) => told_row(index, Verb::Tells, told),
        Act::Grant {
            pmac: granted,
            amac,
        } => does(Kind::Grant, two(pmac(*granted), mac(*amac))),
        Act::Free(granted) => does(Kind::Free, one(pmac(*granted))),
        Act::Make(_) => does(Kind::Make, NO_WORDS),
        Act::Redirect { old, new } => does(Kind::Redirect, two(pmac(*old), pmac(*new))),
        Act::Pass(by, _) => does(Kind::Pass, one(port(*by))),
        Act::Take => does(Kind::Take, NO_WORDS),
        Act::Drop(cause) => does(Kind::Drop, one(text(cause.name()))),
    }
}

/// What the manager does, in order.
pub fn tell_manager_acts<D: Shelf + Drop>(
    page: &mut Page<D>,
    told: &mut Told<'_>,
    index: &WiringIndex,
    acts: &mut ManagerOutbox,
)
    ensures { Tells page.old page.new told.old told.new (map (manager_act_line index.now (option_map (λ s. s.0) told.old.node)) acts.old) }
{
    while let Some(act) = acts.take_first() {
        tell_manager_act(page, told, index, &act);
    }
}

// What it says speaks of the switch that it says it to.
fn tell_manager_act<D: Shelf + Drop>(
    page: &mut Page<D>,
    told: &mut Told<'_>,
    index: &WiringIndex,
    act: &ManagerAct,
)
    ensures { Tells page.old page.new told.old told.new (manager_act_line index.now (option_map (λ s. s.0) told.old.node) act.now ∷ []) }
{
    match act {
        ManagerAct::Say(to, says) => {
            let row = says_row(index, Verb::Says, Some(switch(index, *to)), says);
            page.tell_of(told, index.switch_with(*to), &row);
        }
        ManagerAct::Number(granted, n) => {
            let words = two(pmac(*granted), number(*n));
            page.tell(told, &does(Kind::Number, words));
        }
    }
}

fn does(kind: Kind, words: Words<'static>) -> Row<'static>
    ensures { (node : Option ℕ) → below_of node result ≡ does_line node kind (words_text words.entry) }
{
    row(Verb::Does, kind, words)
}

pub(crate) fn row<'a>(verb: Verb, kind: Kind, words: Words<'a>) -> Row<'a>
    ensures { (node : Option ℕ) → below_of node result ≡ record { node = node; verb = verb; kind = kind; words = words_text words.entry } }
{
    Row { verb, kind, words }
}
