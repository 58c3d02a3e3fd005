ghost use Rattle.std.specs.Prelude.{◌≡◌, ◌≢◌, ◌∷◌, ◌<◌, IfSome, IfNone, slice_index};
ghost use Rattle.pl_wiring.specs.SwitchNames.{switch_named};
ghost use Rattle.pl_wiring.specs.Labels.{IsArity, IsLabel, label_of, label_text, switch_count};
ghost use Rattle.pl_wiring.specs.Texts.{IsWritableLabel, label_of_text};
ghost use Rattle.pl_wiring.specs.declared.label.Label.{Label};

use crate::order::{is_label, switch_at};
use crate::text::numbers;
use crate::{Label, SwitchNo, Wiring};

impl Label {
    /// The label that is written so, whatever the size of the tree.
    pub fn read(text: &str) -> Option<Label>
        ensures exact { result ≡ label_of_text text.now }
        ensures found { IfSome result (λ label. text.now ≡ label_text label) }
        ensures none { IfNone result ((label : Label) → IsWritableLabel label → text.now ≢ label_text label) }
    {
        read_label(text)
    }
}

impl Wiring {
    /// The switch whose label is written so.
    pub fn switch_named(&self, text: &str) -> Option<SwitchNo>
        ensures exact { result ≡ switch_named self.now.k text.now }
        ensures found { IfSome result (λ switch. (switch.0 < switch_count self.now.k) × (text.now ≡ label_text (label_of self.now.k switch.0))) }
        ensures none { IfNone result ((label : Label) → IsLabel self.now.k label → text.now ≢ label_text label) }
    {
        switch_named(self.k(), text)
    }
}

fn read_label(text: &str) -> Option<Label>
    ensures { result ≡ label_of_text text.now }
{
    let (letter, rest) = letter(text)?;
    let (first, second) = numbers(rest)?;
    match letter {
        'e' if second < 256 => Some(Label::Edge(first, second as u8)),
        'a' if second < 256 => Some(Label::Aggregation(first, second as u8)),
        'c' if first < 256 && second < 256 => Some(Label::Core(first as u8, second as u8)),
        _ => None,
    }
}

// The letter of a kind of switches and the text behind it.
fn letter(text: &str) -> Option<(char, &str)>
    ensures found { IfSome result (λ parts. text.now ≡ parts.0 ∷ parts.1.now) }
    ensures none { IfNone result ((slice_index text.now 0 ≢ 101) × (slice_index text.now 0 ≢ 97) × (slice_index text.now 0 ≢ 99)) }
{
    if let Some(rest) = text.strip_prefix('e') {
        return Some(('e', rest));
    }
    if let Some(rest) = text.strip_prefix('a') {
        return Some(('a', rest));
    }
    match text.strip_prefix('c') {
        Some(rest) => Some(('c', rest)),
        None => None,
    }
}

/// The switch of this label, where the tree has one.
#[tactic(auto, using(crate::proofs::EntryLemmas::is_label_from), unfolding(crate::specs::SwitchNames::switch_named))]
pub fn switch_named(k: u8, text: &str) -> Option<SwitchNo>
    requires { IsArity k }
    ensures { result ≡ switch_named k text.now }
{
    let label = Label::read(text)?;
    if is_label(k, label) {
        Some(switch_at(k, label))
    } else {
        None
    }
}
