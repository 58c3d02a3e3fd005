ghost use Rattle.std.specs.Prelude.{◌≡◌, ◌<◌, [], ◌∷◌, ◌++◌, decimal, map, option_to_list};
ghost use Rattle.pl_frame.specs.Address.{mac_text};
ghost use Rattle.pl_journal.specs.Text.{address_text, part_text, switch_text};
ghost use Rattle.pl_wiring.specs.Labels.{switch_count};
ghost use Rattle.pl_log_lines.specs.Rows.{id_word, ip_word, known_id_word, verb_text, word_text, words_text};

use crate::kind::Kind;
use pl_frame::{Ip4, Mac, SwitchId};
use pl_journal::Field;
use pl_pmac::{Pmac, pack};
use pl_wiring::SwitchNo;
use pl_world_parts::WiringIndex;

/// What a line below an event begins with.
#[derive(Clone, Copy, Debug, PartialEq, Eq)]
pub enum Verb {
    /// A node hears.
    Heard,
    /// A control frame leaves a switch by a port.
    Sends,
    /// A switch tells the manager.
    Tells,
    /// The manager says to a switch.
    Says,
    /// A node does anything else.
    Does,
    /// A switch knows what it did not know before.
    Knows,
    /// A control frame is lost.
    Lost,
}

impl Verb {
    pub fn text(&self) -> &'static str
        ensures { result.now ≡ verb_text self.now }
    {
        match self {
            Verb::Heard => "heard",
            Verb::Sends => "sends",
            Verb::Tells => "tells",
            Verb::Says => "says",
            Verb::Does => "does",
            Verb::Knows => "knows",
            Verb::Lost => "lost",
        }
    }
}

/// A word of a line, in the form in which it is kept.
#[derive(Clone, Copy, Debug)]
pub enum Word<'a> {
    Field(Field<'a>),
    /// In dotted decimal.
    Ip(Ip4),
}

/// The words of a line that are there, at most seven.
pub type Words<'a> = [Option<Word<'a>>; 7];

/// A line below an event.
#[derive(Clone, Copy, Debug)]
pub struct Row<'a> {
    pub verb: Verb,
    pub kind: Kind,
    pub words: Words<'a>,
}

pub(crate) const NO_WORDS: Words<'static> = [None; 7];

pub fn one<'a>(a: Word<'a>) -> Words<'a>
    ensures { words_text result ≡ word_text a.entry ∷ [] }
{
    [Some(a), None, None, None, None, None, None]
}

pub fn two<'a>(a: Word<'a>, b: Word<'a>) -> Words<'a>
    ensures { words_text result ≡ word_text a.entry ∷ word_text b.entry ∷ [] }
{
    [Some(a), Some(b), None, None, None, None, None]
}

pub fn three<'a>(a: Word<'a>, b: Word<'a>, c: Word<'a>) -> Words<'a>
    ensures { words_text result ≡ word_text a.entry ∷ word_text b.entry ∷ word_text c.entry ∷ [] }
{
    [Some(a), Some(b), Some(c), None, None, None, None]
}

/// Up to four words, behind one that is not always there.
#[tactic(auto, using(crate::proofs::Words::behind_first))]
pub(crate) fn behind<'a>(
    first: Option<Word<'a>>,
    a: Option<Word<'a>>,
    b: Option<Word<'a>>,
    c: Option<Word<'a>>,
    d: Option<Word<'a>>,
) -> Words<'a>
    ensures { words_text result ≡ map word_text (option_to_list first.entry) ++ words_text (a.entry ∷ b.entry ∷ c.entry ∷ d.entry ∷ []) }
{
    [first, a, b, c, d, None, None]
}

pub fn number(n: u64) -> Word<'static>
    ensures { word_text result ≡ decimal n }
{
    Word::Field(Field::Number(n))
}

pub fn port(port: u8) -> Word<'static>
    ensures { word_text result ≡ decimal port }
{
    number(u64::from(port))
}

pub fn text<'a>(text: &'a str) -> Word<'a>
    ensures { word_text result ≡ text.now }
{
    Word::Field(Field::Text(text))
}

// What is not known, or not there.
pub const UNKNOWN: Word<'static> = Word::Field(Field::Unknown);

/// A level or a position.
pub fn part(part: Option<u8>) -> Word<'static>
    ensures { word_text result ≡ part_text part }
{
    match part {
        None => UNKNOWN,
        Some(n) => port(n),
    }
}

pub fn pod(pod: Option<u16>) -> Word<'static>
    ensures { word_text result ≡ part_text pod }
{
    match pod {
        None => UNKNOWN,
        Some(n) => number(u64::from(n)),
    }
}

pub(crate) fn pmac(pmac: Pmac) -> Word<'static>
    ensures { word_text result ≡ address_text pmac }
{
    mac(pack(pmac))
}

pub(crate) fn mac(mac: Mac) -> Word<'static>
    ensures { word_text result ≡ mac_text mac }
{
    Word::Field(Field::Address(mac))
}

pub(crate) fn ip(ip: Option<Ip4>) -> Word<'static>
    ensures { word_text result ≡ ip_word ip }
{
    match ip {
        None => UNKNOWN,
        Some(ip) => Word::Ip(ip),
    }
}

pub fn label(index: &WiringIndex, s: SwitchNo) -> Word<'static>
    requires { s.0 < switch_count index.now.k }
    ensures { word_text result ≡ switch_text index.now s.0 }
{
    Word::Field(Field::Switch(index.wiring().label(s)))
}

/// A switch by its label; where the wiring has none of that id, by the id.
#[tactic(auto, using(crate::proofs::Words::labelled, crate::proofs::Words::numbered))]
pub fn switch(index: &WiringIndex, id: SwitchId) -> Word<'static>
    ensures { word_text result ≡ id_word index.now id }
{
    // A wiring has a label for each switch.
    let _k = index.wiring().k();
    match index.switch_with(id) {
        None => number(id.0),
        Some(s) => label(index, s),
    }
}

pub fn switch_if_known(index: &WiringIndex, id: Option<SwitchId>) -> Word<'static>
    ensures { word_text result ≡ known_id_word index.now id }
{
    match id {
        None => UNKNOWN,
        Some(id) => switch(index, id),
    }
}
