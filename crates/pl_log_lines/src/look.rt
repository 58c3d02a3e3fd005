ghost use Rattle.std.specs.Prelude.{◌≡◌, ◌&&◌, option_map};
ghost use Rattle.pl_log_lines.specs.Looks.{is_kind, is_node, is_of, is_within, shows_entry, shows_event, switch_of};

use crate::kind::Kind;
use pl_journal::Entry;
use pl_wiring::SwitchNo;

/// Which lines of a log are shown, and in which form.
#[derive(Clone, Copy, Debug)]
pub struct Look {
    /// Those of one switch alone.
    pub of: Option<SwitchNo>,
    /// Those of one kind alone.
    pub kind: Option<Kind>,
    /// Those of these lines of the script, both with them.
    pub first: u32,
    pub last: u32,
    /// An array of its words for each line.
    pub json: bool,
}

impl Look {
    /// Whether what happens in a line of the script is shown.
    pub(crate) fn is_within(&self, line: u32) -> bool
        ensures { result ≡ is_within self.now line }
    {
        self.first <= line && line <= self.last
    }

    /// Whether what a node does is shown.
    pub(crate) fn is_of(&self, node: Option<SwitchNo>) -> bool
        ensures { result ≡ is_of self.now (option_map (λ s. s.0) node) }
    {
        match self.of {
            None => true,
            Some(of) => is_node(node, of),
        }
    }

    fn is_kind(&self, kind: Kind) -> bool
        ensures { result ≡ is_kind self.now kind }
    {
        match self.kind {
            None => true,
            Some(wanted) => wanted.text() == kind.text(),
        }
    }

    /// Whether a line below an event is shown, which speaks of a node.
    pub(crate) fn shows(&self, node: Option<SwitchNo>, kind: Kind) -> bool
        ensures { result ≡ (is_of self.now (option_map (λ s. s.0) node) && is_kind self.now kind) }
    {
        self.is_of(node) && self.is_kind(kind)
    }

    /// Whether an event is shown even where no line below it is.
    pub(crate) fn shows_event(&self, node: Option<SwitchNo>) -> bool
        ensures { result ≡ shows_event self.now (option_map (λ s. s.0) node) }
    {
        self.kind.is_none() && self.is_of(node)
    }

    /// Whether an entry of the journal is shown, which stands there in a line of the script.
    pub fn is_entry_shown(&self, line: u32, entry: &Entry) -> bool
        ensures { result ≡ (is_within self.now line && shows_entry self.now entry.now) }
    {
        self.is_within(line) && self.shows_entry(entry)
    }

    // Lines of the script always; else what speaks of no other switch, unless one kind alone is shown.
    fn shows_entry(&self, entry: &Entry) -> bool
        ensures { result ≡ shows_entry self.now entry.now }
    {
        match entry {
            Entry::Line(_) => true,
            Entry::Settled(_) => true,
            Entry::Unsettled(_) => true,
            _ => self.kind.is_none() && self.is_of(switch_of(entry)),
        }
    }
}

// The switch of which an entry speaks.
fn switch_of(entry: &Entry) -> Option<SwitchNo>
    ensures { option_map (λ s. s.0) result ≡ switch_of entry.now }
{
    match entry {
        Entry::Made(_, s, _) => Some(*s),
        Entry::Crossed(_, s) => Some(*s),
        Entry::Taken(_, s) => Some(*s),
        Entry::Granted(_, _, s, _) => Some(*s),
        Entry::Placed(s, _) => Some(*s),
        Entry::LinkDown(s, _) => Some(*s),
        Entry::LinkUp(s, _) => Some(*s),
        Entry::Moved(_, s, _) => Some(*s),
        _ => None,
    }
}

fn is_node(node: Option<SwitchNo>, of: SwitchNo) -> bool
    ensures { result ≡ is_node (option_map (λ s. s.0) node) of.0 }
{
    match node {
        None => false,
        Some(node) => node.0 == of.0,
    }
}
