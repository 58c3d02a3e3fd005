ghost use Rattle.std.specs.Prelude.{◌≡◌, ◌&&◌, [], ◌∷◌, option_map, true};
ghost use Rattle.pl_log_lines.specs.Looks.{is_kind, is_of, is_within};
ghost use Rattle.pl_log_lines.specs.Pages.{Prints};
ghost use Rattle.pl_log_lines.specs.Rows.{below_of};
ghost use Rattle.pl_log_lines.specs.Telling.{Tells, TellsEvent, head_text, is_event_shown};

use crate::kind::Kind;
use crate::look::Look;
use crate::page::Page;
use crate::row::{Row, Word};
use pl_shelf::Shelf;
use pl_wiring::SwitchNo;

/// An event as it is printed: its own line stands above the first line below it that is shown.
#[derive(Drop)]
pub struct Told<'a> {
    pub look: Look,
    pub step: u64,
    pub line: u32,
    pub node: Option<SwitchNo>,
    pub words: [Option<Word<'a>>; 5],
    pub is_printed: bool,
}

impl Told<'_> {
    // Whether a line below the event is shown, which speaks of a node.
    fn shows(&self, node: Option<SwitchNo>, kind: Kind) -> bool
        ensures { result ≡ (is_within self.now.look self.now.line && (is_of self.now.look (option_map (λ s. s.0) node) && is_kind self.now.look kind)) }
    {
        self.look.is_within(self.line) && self.look.shows(node, kind)
    }

    // Whether the event is shown even where no line below it is.
    fn is_event_shown(&self) -> bool
        ensures { result ≡ is_event_shown self.now }
    {
        self.look.is_within(self.line) && self.look.shows_event(self.node)
    }
}

impl<D: Shelf + Drop> Page<D> {
    /// The line of the event, unless it stands there already.
    pub(crate) fn tell_event(&mut self, told: &mut Told<'_>)
        ensures prints { Prints self.old self.new (head_text self.old.json told.old told.old.is_printed) }
        ensures told { told.new ≡ record told.old { is_printed = true } }
    {
        if told.is_printed {
            return;
        }
        self.print_event(told.step, told.words.as_slice());
        told.is_printed = true;
    }

    /// The line of the event, where it is shown even where no line below it is.
    pub fn begin_event(&mut self, told: &mut Told<'_>)
        ensures { TellsEvent self.old self.new told.old told.new }
    {
        if !told.is_event_shown() {
            return;
        }
        self.tell_event(told);
    }

    /// A line below the event, which speaks of a node.
    pub(crate) fn tell_of(&mut self, told: &mut Told<'_>, node: Option<SwitchNo>, row: &Row<'_>)
        ensures { Tells self.old self.new told.old told.new (below_of (option_map (λ s. s.0) node) row.now ∷ []) }
    {
        if !told.shows(node, row.kind) {
            return;
        }
        self.tell_event(told);
        self.print_row(row);
    }

    /// A line below the event, which speaks of the event's own node.
    pub fn tell(&mut self, told: &mut Told<'_>, row: &Row<'_>)
        ensures { Tells self.old self.new told.old told.new (below_of (option_map (λ s. s.0) told.old.node) row.now ∷ []) }
    {
        let node = told.node;
        self.tell_of(told, node, row);
    }
}
