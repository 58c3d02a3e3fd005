ghost use Rattle.std.specs.Prelude.{◌≡◌, ◌<◌, ◌/◌, ◌∷◌, [], ℕ, Option, OnOk, decimal, map};
ghost use Rattle.std.specs.List.{flat_map, range_with_len};
ghost use Rattle.std.specs.Option.{option_copied};
ghost use Rattle.pl_node.specs.PortRecords.{ports_of_switch};
ghost use Rattle.pl_watch.specs.News.{attempt_news, attempt_words, avoid_line, avoid_news, avoid_words, below_line_of, below_lines, granted_news, groups_in, heard_news, hold_news, hold_words, knowing, left_over, neighbour_words, news, part_ends, part_news, place_news, port_news, port_words, same_silence, silent_news, tree_news};
ghost use Rattle.pl_log_lines.specs.Rows.{below_of, id_word, words_text};
ghost use Rattle.pl_log_lines.specs.Telling.{Tells, node_in};

use crate::same::{is_same_attempt, is_same_hold, is_same_part, is_same_port};
use pl_frame::{Memory, SwitchId};
use pl_log_lines::{
    Kind, Page, Row, Told, UNKNOWN, Verb, Words, fixed_word, number, one, part, place_words, pod,
    port, switch, switch_if_known, text, three, tree_words, two, usable_word,
};
use pl_node::{AvoidList, Neighbour, PortRecord, SwitchFacts, TreePart, is_same_place};
use pl_shelf::Shelf;
use pl_world_parts::WiringIndex;

// Groups are numbers of 32 bits.
const GROUP_LIMIT: u64 = 4_294_967_296;

/// A switch before and after a step.
#[derive(Drop)]
pub(crate) struct Change<'a, S: SwitchFacts> {
    pub before: &'a S,
    pub after: &'a S,
}

impl<S: SwitchFacts> Change<'_, S> {
    /// What it knows now that it did not before: its place, its ports, its votes, what to avoid and its trees.
    pub fn tell<D: Shelf + Drop>(
        &self,
        page: &mut Page<D>,
        told: &mut Told<'_>,
        index: &WiringIndex,
    ) -> Result<(), Memory>
        requires { (S.view self.now.before.now).k ≡ (S.view self.now.after.now).k }
        ensures { OnOk result (Tells page.old page.new told.old told.new
            (news index.now (node_in told.old) (S.view self.now.before.now) (S.view self.now.after.now))) }
    {
        self.tell_place(page, told);
        self.tell_ports(page, told, index);
        self.tell_attempt(page, told);
        self.tell_granted(page, told);
        self.tell_holds(page, told, index);
        self.tell_avoid(page, told, index)?;
        self.tell_trees(page, told, index);
        Ok(())
    }

    #[tactic(auto, using(crate::proofs::Learning::tells_same, crate::proofs::Learning::tells_line))]
    fn tell_place<D: Shelf + Drop>(&self, page: &mut Page<D>, told: &mut Told<'_>)
        ensures { Tells page.old page.new told.old told.new
            (place_news (node_in told.old) (S.view self.now.before.now) (S.view self.now.after.now)) }
    {
        let place = self.after.place();
        if is_same_place(self.before.place(), place) {
            return;
        }
        page.tell(told, &knows(Kind::Place, place_words(place)));
    }

    #[tactic(auto, using(crate::proofs::Learning::tells_at))]
    fn tell_ports<D: Shelf + Drop>(
        &self,
        page: &mut Page<D>,
        told: &mut Told<'_>,
        index: &WiringIndex,
    )
        requires { (S.view self.now.before.now).k ≡ (S.view self.now.after.now).k }
        ensures { Tells page.old page.new told.old told.new
            (flat_map (port_news index.now (node_in told.old) (S.view self.now.before.now) (S.view self.now.after.now))
            (ports_of_switch (S.view self.now.after.now).k)) }
    {
        for at in 0..self.after.k() {
            self.tell_port(page, told, index, at);
        }
    }

    // Who is at a port, as far as another is heard there than before; or how long it has been silent, from two
    // ticks on, and that it is no more.
    #[tactic(auto, using(crate::proofs::Learning::tells_more))]
    fn tell_port<D: Shelf + Drop>(
        &self,
        page: &mut Page<D>,
        told: &mut Told<'_>,
        index: &WiringIndex,
        at: u8,
    )
        requires before { at < (S.view self.now.before.now).k }
        requires after { at < (S.view self.now.after.now).k }
        ensures { Tells page.old page.new told.old told.new
            (port_news index.now (node_in told.old) (S.view self.now.before.now) (S.view self.now.after.now) at) }
    {
        let before = self.before.port(at);
        let after = self.after.port(at);
        self.tell_heard(page, told, index, at, &before, &after);
        tell_silent(page, told, at, before.silent, after.silent);
    }

    #[tactic(auto, using(crate::proofs::Learning::tells_same, crate::proofs::Learning::tells_line))]
    fn tell_heard<D: Shelf + Drop>(
        &self,
        page: &mut Page<D>,
        told: &mut Told<'_>,
        index: &WiringIndex,
        at: u8,
        before: &PortRecord,
        after: &PortRecord,
    )
        ensures { Tells page.old page.new told.old told.new
            (heard_news index.now (node_in told.old) (S.view self.now.after.now).id at before.now after.now) }
    {
        if is_same_port(*before, *after) {
            return;
        }
        let words = port_words(index, self.after.id(), at, after);
        page.tell(told, &knows(Kind::Port, words));
    }

    #[tactic(auto, using(crate::proofs::Learning::tells_same, crate::proofs::Learning::tells_line))]
    fn tell_attempt<D: Shelf + Drop>(&self, page: &mut Page<D>, told: &mut Told<'_>)
        ensures { Tells page.old page.new told.old told.new
            (attempt_news (node_in told.old) (S.view self.now.before.now) (S.view self.now.after.now)) }
    {
        let attempt = self.after.attempt();
        if is_same_attempt(self.before.attempt(), attempt) {
            return;
        }
        page.tell(told, &knows(Kind::Attempt, attempt_words(attempt)));
    }

    // By which ports the present attempt was granted.
    #[tactic(auto, using(crate::proofs::Learning::tells_at))]
    fn tell_granted<D: Shelf + Drop>(&self, page: &mut Page<D>, told: &mut Told<'_>)
        requires { (S.view self.now.before.now).k ≡ (S.view self.now.after.now).k }
        ensures { Tells page.old page.new told.old told.new
            (flat_map (granted_news (node_in told.old) (S.view self.now.before.now) (S.view self.now.after.now))
            (ports_of_switch (S.view self.now.after.now).k)) }
    {
        for at in 0..self.after.k() {
            self.tell_grant(page, told, at);
        }
    }

    #[tactic(auto, using(crate::proofs::Learning::tells_same, crate::proofs::Learning::tells_line))]
    fn tell_grant<D: Shelf + Drop>(&self, page: &mut Page<D>, told: &mut Told<'_>, at: u8)
        requires before { at < (S.view self.now.before.now).k }
        requires after { at < (S.view self.now.after.now).k }
        ensures { Tells page.old page.new told.old told.new
            (granted_news (node_in told.old) (S.view self.now.before.now) (S.view self.now.after.now) at) }
    {
        if !self.after.granted(at) || self.before.granted(at) {
            return;
        }
        page.tell(told, &knows(Kind::Granted, one(port(at))));
    }

    // For whom positions are held.
    #[tactic(auto, using(crate::proofs::Learning::tells_at))]
    fn tell_holds<D: Shelf + Drop>(
        &self,
        page: &mut Page<D>,
        told: &mut Told<'_>,
        index: &WiringIndex,
    )
        requires { (S.view self.now.before.now).k ≡ (S.view self.now.after.now).k }
        ensures { Tells page.old page.new told.old told.new
            (flat_map (hold_news index.now (node_in told.old) (S.view self.now.before.now) (S.view self.now.after.now))
            (range_with_len 0 ((S.view self.now.after.now).k / 2))) }
    {
        for position in 0..self.after.k() / 2 {
            self.tell_hold(page, told, index, position);
        }
    }

    #[tactic(auto, using(crate::proofs::Learning::tells_same, crate::proofs::Learning::tells_line))]
    fn tell_hold<D: Shelf + Drop>(
        &self,
        page: &mut Page<D>,
        told: &mut Told<'_>,
        index: &WiringIndex,
        position: u8,
    )
        requires before { position < (S.view self.now.before.now).k / 2 }
        requires after { position < (S.view self.now.after.now).k / 2 }
        ensures { Tells page.old page.new told.old told.new
            (hold_news index.now (node_in told.old) (S.view self.now.before.now) (S.view self.now.after.now) position) }
    {
        let hold = self.after.hold(position);
        if is_same_hold(self.before.hold(position), hold) {
            return;
        }
        let words = hold_words(index, position, hold);
        page.tell(told, &knows(Kind::Hold, words));
    }

    // What is to be avoided now that was not before, and the other way round.
    #[tactic(auto, using(crate::proofs::Learning::tells_more))]
    fn tell_avoid<D: Shelf + Drop>(
        &self,
        page: &mut Page<D>,
        told: &mut Told<'_>,
        index: &WiringIndex,
    ) -> Result<(), Memory>
        ensures { OnOk result (Tells page.old page.new told.old told.new
            (avoid_news index.now (node_in told.old) (S.view self.now.before.now) (S.view self.now.after.now))) }
    {
        let before = self.before.avoid_list();
        let after = self.after.avoid_list();
        if after.is(before) {
            return Ok(());
        }
        tell_left_over(page, told, index, "+", after, before)?;
        tell_left_over(page, told, index, "-", before, after)?;
        Ok(())
    }

    #[tactic(auto, using(crate::proofs::Learning::tells_more))]
    fn tell_trees<D: Shelf + Drop>(
        &self,
        page: &mut Page<D>,
        told: &mut Told<'_>,
        index: &WiringIndex,
    )
        ensures { Tells page.old page.new told.old told.new
            (tree_news index.now (node_in told.old) (S.view self.now.before.now) (S.view self.now.after.now)) }
    {
        self.tell_parts(page, told, index);
        self.tell_ends(page, told, index);
    }

    #[tactic(auto, using(crate::proofs::Learning::tells_taken, crate::proofs::Learning::tells_all))]
    fn tell_parts<D: Shelf + Drop>(
        &self,
        page: &mut Page<D>,
        told: &mut Told<'_>,
        index: &WiringIndex,
    )
        ensures { Tells page.old page.new told.old told.new
            (flat_map (part_news index.now (node_in told.old) (S.view self.now.before.now) (S.view self.now.after.now))
            (groups_in (S.view self.now.after.now))) }
    {
        for n in 0..GROUP_LIMIT {
            let Some(group) = self.after.group(n as usize) else {
                return;
            };
            self.tell_part(page, told, index, group);
        }
    }

    #[tactic(auto, using(crate::proofs::Learning::tells_taken, crate::proofs::Learning::tells_all))]
    fn tell_ends<D: Shelf + Drop>(
        &self,
        page: &mut Page<D>,
        told: &mut Told<'_>,
        index: &WiringIndex,
    )
        ensures { Tells page.old page.new told.old told.new
            (flat_map (part_ends index.now (node_in told.old) (S.view self.now.before.now) (S.view self.now.after.now))
            (groups_in (S.view self.now.before.now))) }
    {
        for n in 0..GROUP_LIMIT {
            let Some(group) = self.before.group(n as usize) else {
                return;
            };
            self.tell_end(page, told, index, group);
        }
    }

    // A part of a tree that is new, or another one than before, with each neighbour below.
    #[tactic(auto, using(crate::proofs::Learning::tells_same, crate::proofs::Learning::tells_other))]
    fn tell_part<D: Shelf + Drop>(
        &self,
        page: &mut Page<D>,
        told: &mut Told<'_>,
        index: &WiringIndex,
        group: u32,
    )
        ensures { Tells page.old page.new told.old told.new
            (part_news index.now (node_in told.old) (S.view self.now.before.now) (S.view self.now.after.now) group) }
    {
        let part = self.after.part(group);
        if is_same_part(self.before.part(group), part) {
            return;
        }
        let words = tree_words(index, None, group, part);
        page.tell(told, &knows(Kind::Tree, words));
        tell_below(page, told, index, group, part);
    }

    // One that it had, and has no more.
    #[tactic(auto, using(crate::proofs::Learning::tells_same, crate::proofs::Learning::tells_line))]
    fn tell_end<D: Shelf + Drop>(
        &self,
        page: &mut Page<D>,
        told: &mut Told<'_>,
        index: &WiringIndex,
        group: u32,
    )
        ensures { Tells page.old page.new told.old told.new
            (part_ends index.now (node_in told.old) (S.view self.now.before.now) (S.view self.now.after.now) group) }
    {
        if self.after.part(group).is_some() {
            return;
        }
        let words = tree_words(index, None, group, None);
        page.tell(told, &knows(Kind::Tree, words));
    }
}

fn knows<'a>(kind: Kind, words: Words<'a>) -> Row<'a>
    ensures { (node : Option ℕ) → below_of node result ≡ knowing node kind (words_text words.entry) }
{
    Row {
        verb: Verb::Knows,
        kind,
        words,
    }
}

// The port, who is there, its place, what it heard last itself, and whether the link is usable.
fn port_words(index: &WiringIndex, me: SwitchId, at: u8, port_record: &PortRecord) -> Words<'static>
    ensures { words_text result ≡ port_words index.now me at port_record.now }
{
    match port_record.heard {
        None => two(port(at), text("host")),
        Some(neighbour) => neighbour_words(index, at, &neighbour, port_record.is_usable(me)),
    }
}

fn neighbour_words(
    index: &WiringIndex,
    at: u8,
    neighbour: &Neighbour,
    usable: bool,
) -> Words<'static>
    ensures { words_text result ≡ neighbour_words index.now at neighbour.now usable }
{
    let place = neighbour.place;
    [
        Some(port(at)),
        Some(switch(index, neighbour.id)),
        Some(part(place.level)),
        Some(part(place.position)),
        Some(pod(place.pod)),
        Some(switch_if_known(index, neighbour.echo)),
        Some(usable_word(usable)),
    ]
}

fn attempt_words(attempt: Option<(u32, u8)>) -> Words<'static>
    ensures { words_text result ≡ attempt_words attempt }
{
    match attempt {
        None => one(UNKNOWN),
        Some((attempt, position)) => two(number(u64::from(attempt)), port(position)),
    }
}

fn hold_words(index: &WiringIndex, position: u8, hold: Option<(SwitchId, bool)>) -> Words<'static>
    ensures { words_text result ≡ hold_words index.now position hold }
{
    match hold {
        None => two(port(position), UNKNOWN),
        Some((edge, fixed)) => three(port(position), switch(index, edge), fixed_word(fixed)),
    }
}

fn avoid_words(
    index: &WiringIndex,
    sign: &'static str,
    entry: &(SwitchId, u16, u8),
) -> Words<'static>
    ensures { words_text result ≡ avoid_words index.now sign.now entry.now }
{
    [
        Some(text(sign)),
        Some(switch(index, entry.0)),
        Some(number(u64::from(entry.1))),
        Some(port(entry.2)),
        None,
        None,
        None,
    ]
}

// How long a port has been silent, from two ticks on, and that it is no more.
#[tactic(auto, using(crate::proofs::Learning::tells_same, crate::proofs::Learning::tells_line))]
fn tell_silent<D: Shelf + Drop>(
    page: &mut Page<D>,
    told: &mut Told<'_>,
    at: u8,
    before: u8,
    after: u8,
)
    ensures { Tells page.old page.new told.old told.new (silent_news (node_in told.old) at before after) }
{
    if is_same_silence(before, after) {
        return;
    }
    page.tell(told, &knows(Kind::Silent, two(port(at), port(after))));
}

fn is_same_silence(before: u8, after: u8) -> bool
    ensures { result ≡ same_silence before after }
{
    before == after || (before < 2 && after < 2)
}

// The entries of a list that another has not.
#[tactic(auto, using(crate::proofs::LeftOver::rest_is))]
fn tell_left_over<D: Shelf + Drop>(
    page: &mut Page<D>,
    told: &mut Told<'_>,
    index: &WiringIndex,
    sign: &'static str,
    list: &AvoidList,
    other: &AvoidList,
) -> Result<(), Memory>
    ensures { OnOk result (Tells page.old page.new told.old told.new (left_over index.now (node_in told.old) sign.now list.now other.now)) }
{
    let rest = list.without(other)?;
    tell_entries(page, told, index, sign, rest.as_slice());
    Ok(())
}

#[tactic(auto, using(crate::proofs::Learning::tells_mapped, crate::proofs::Learning::tells_all_mapped))]
fn tell_entries<D: Shelf + Drop>(
    page: &mut Page<D>,
    told: &mut Told<'_>,
    index: &WiringIndex,
    sign: &'static str,
    entries: &[(SwitchId, u16, u8)],
)
    ensures { Tells page.old page.new told.old told.new (map (avoid_line index.now (node_in told.old) sign.now) entries.now) }
{
    for entry in entries {
        page.tell(told, &knows(Kind::Avoid, avoid_words(index, sign, entry)));
    }
}

// The neighbours below, where there is a part.
fn tell_below<D: Shelf + Drop>(
    page: &mut Page<D>,
    told: &mut Told<'_>,
    index: &WiringIndex,
    group: u32,
    part: Option<&TreePart>,
)
    ensures { Tells page.old page.new told.old told.new (below_lines index.now (node_in told.old) group (option_copied part.entry)) }
{
    match part {
        None => {}
        Some(part) => tell_ids(page, told, index, group, part.down.as_slice()),
    }
}

#[tactic(auto, using(crate::proofs::Learning::tells_mapped, crate::proofs::Learning::tells_all_mapped))]
fn tell_ids<D: Shelf + Drop>(
    page: &mut Page<D>,
    told: &mut Told<'_>,
    index: &WiringIndex,
    group: u32,
    ids: &[SwitchId],
)
    ensures { Tells page.old page.new told.old told.new (map (below_line_of index.now (node_in told.old) group) ids.now) }
{
    for id in ids {
        page.tell(told, &knows(Kind::Below, below_words(index, group, *id)));
    }
}

fn below_words(index: &WiringIndex, group: u32, id: SwitchId) -> Words<'static>
    ensures { words_text result ≡ decimal group ∷ id_word index.now id ∷ [] }
{
    two(number(u64::from(group)), switch(index, id))
}
