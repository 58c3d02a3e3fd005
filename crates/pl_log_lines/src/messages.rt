ghost use Rattle.std.specs.Prelude.{◌≡◌, ◌++◌, ◌∷◌, ℕ, [], Option, option_to_list, map};
ghost use Rattle.std.specs.Option.{option_copied};
ghost use Rattle.pl_journal.specs.Text.{place_texts};
ghost use Rattle.pl_log_lines.specs.Messages.{any_word, says_kind, says_line, says_words, told_kind, told_line, told_words, tree_words, usable_word};
ghost use Rattle.pl_log_lines.specs.Rows.{below_of, word_text, words_text};

use crate::kind::Kind;
use crate::row::{
    NO_WORDS, Row, Verb, Word, Words, behind, ip, mac, number, one, part, pmac, pod, switch,
    switch_if_known, text, three, two,
};
use pl_node::{Place, ToManager, ToSwitch, TreePart};
use pl_world_parts::WiringIndex;

/// What the manager is told.
pub fn told_row(index: &WiringIndex, verb: Verb, told: &ToManager) -> Row<'static>
    ensures { (node : Option ℕ) → below_of node result ≡ told_line index.now node verb told.now }
{
    Row {
        verb,
        kind: told_kind(told),
        words: told_words(index, told),
    }
}

fn told_kind(told: &ToManager) -> Kind
    ensures { result ≡ told_kind told.now }
{
    match told {
        ToManager::Place(_) => Kind::Place,
        ToManager::Link { .. } => Kind::Link,
        ToManager::PodWanted => Kind::PodWanted,
        ToManager::Learned { .. } => Kind::Learned,
        ToManager::Aged { .. } => Kind::Aged,
        ToManager::Begin(_) => Kind::Begin,
        ToManager::End(_) => Kind::End,
        ToManager::Trapped { .. } => Kind::Trapped,
        ToManager::Query { .. } => Kind::Query,
        ToManager::Members { .. } => Kind::Members,
    }
}

fn told_words(index: &WiringIndex, told: &ToManager) -> Words<'static>
    ensures { words_text result ≡ told_words index.now told.now }
{
    match told {
        ToManager::Place(place) => place_words(*place),
        ToManager::Link { neighbour, usable } => {
            two(switch(index, *neighbour), usable_word(*usable))
        }
        ToManager::PodWanted => NO_WORDS,
        ToManager::Learned {
            pmac: granted,
            amac,
            ip: address,
        } => three(pmac(*granted), mac(*amac), ip(*address)),
        ToManager::Aged {
            pmac: granted,
            number: trap,
        } => two(pmac(*granted), number(*trap)),
        ToManager::Begin(epoch) => one(number(u64::from(*epoch))),
        ToManager::End(epoch) => one(number(u64::from(*epoch))),
        ToManager::Trapped {
            old,
            new,
            number: trap,
        } => three(pmac(*old), pmac(*new), number(*trap)),
        ToManager::Query {
            asker,
            asker_ip,
            ip: wanted,
        } => three(Word::Ip(*wanted), pmac(*asker), Word::Ip(*asker_ip)),
        ToManager::Members { group, any } => two(number(u64::from(*group)), any_word(*any)),
    }
}

/// Level, position and pod.
pub fn place_words(place: Place) -> Words<'static>
    ensures { words_text result ≡ place_texts place }
{
    three(part(place.level), part(place.position), pod(place.pod))
}

fn any_word(any: bool) -> Word<'static>
    ensures { word_text result ≡ any_word any }
{
    if any { text("some") } else { text("none") }
}

pub fn usable_word(usable: bool) -> Word<'static>
    ensures { word_text result ≡ usable_word usable }
{
    if usable {
        text("usable")
    } else {
        text("unusable")
    }
}

/// What the manager says; `to` is the switch, where that is not known from the event.
pub(crate) fn says_row(
    index: &WiringIndex,
    verb: Verb,
    to: Option<Word<'static>>,
    says: &ToSwitch,
) -> Row<'static>
    ensures { (node : Option ℕ) → below_of node result ≡ says_line index.now node verb (map word_text (option_to_list to.entry)) says.now }
{
    Row {
        verb,
        kind: says_kind(says),
        words: says_words(index, to, says),
    }
}

fn says_kind(says: &ToSwitch) -> Kind
    ensures { result ≡ says_kind says.now }
{
    match says {
        ToSwitch::Pod(_) => Kind::Pod,
        ToSwitch::Answer { .. } => Kind::Answer,
        ToSwitch::Flood { .. } => Kind::Flood,
        ToSwitch::Avoid(_) => Kind::Avoid,
        ToSwitch::Invalidate { .. } => Kind::Invalidate,
        ToSwitch::Release(_) => Kind::Release,
        ToSwitch::Hello(_) => Kind::Hello,
        ToSwitch::Tree { .. } => Kind::Tree,
    }
}

fn says_words(index: &WiringIndex, to: Option<Word<'static>>, says: &ToSwitch) -> Words<'static>
    ensures { words_text result ≡ map word_text (option_to_list to.entry) ++ says_words index.now says.now }
{
    match says {
        ToSwitch::Pod(pod) => behind_one(to, number(u64::from(*pod))),
        ToSwitch::Answer {
            asker,
            asker_ip,
            ip: wanted,
            pmac: found,
        } => behind(
            to,
            Some(Word::Ip(*wanted)),
            Some(pmac(*found)),
            Some(pmac(*asker)),
            Some(Word::Ip(*asker_ip)),
        ),
        ToSwitch::Flood {
            asker,
            asker_ip,
            ip: wanted,
        } => behind(
            to,
            Some(Word::Ip(*wanted)),
            Some(pmac(*asker)),
            Some(Word::Ip(*asker_ip)),
            None,
        ),
        ToSwitch::Avoid(_) => behind(to, None, None, None, None),
        ToSwitch::Invalidate {
            old,
            new,
            number: registered,
            ip: address,
        } => behind(
            to,
            Some(pmac(*old)),
            Some(pmac(*new)),
            Some(number(*registered)),
            Some(ip(*address)),
        ),
        ToSwitch::Release(granted) => behind_one(to, pmac(*granted)),
        ToSwitch::Hello(epoch) => behind_one(to, number(u64::from(*epoch))),
        ToSwitch::Tree { group, part } => tree_words(index, to, *group, part.as_ref()),
    }
}

fn behind_one<'a>(first: Option<Word<'a>>, word: Word<'a>) -> Words<'a>
    ensures { words_text result ≡ map word_text (option_to_list first.entry) ++ word_text word.entry ∷ [] }
{
    behind(first, Some(word), None, None, None)
}

/// The group, the neighbour above, and how many are below; none where the switch has no part.
pub fn tree_words(
    index: &WiringIndex,
    to: Option<Word<'static>>,
    group: u32,
    part: Option<&TreePart>,
) -> Words<'static>
    ensures { words_text result ≡ map word_text (option_to_list to.entry) ++ tree_words index.now group (option_copied part.entry) }
{
    let group = number(u64::from(group));
    match part {
        None => behind_one(to, group),
        Some(part) => behind(
            to,
            Some(group),
            Some(switch_if_known(index, part.up)),
            Some(number(part.down.len() as u64)),
            None,
        ),
    }
}
