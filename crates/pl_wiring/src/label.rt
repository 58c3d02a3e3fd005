ghost use Rattle.std.specs.Prelude.{Some};
ghost use Rattle.pl_wiring.specs.Labels.{label_text};

use std::fmt;

/// A switch by its number in label order, from 0.
#[derive(Clone, Copy, Debug, Default, PartialEq, Eq, PartialOrd, Ord, Hash)]
pub struct SwitchNo(pub u32);

/// What a switch is called: an edge or aggregation switch by its pod and its number there, a core
/// switch by its group and its number there.
#[derive(Clone, Copy, Debug, PartialEq, Eq, PartialOrd, Ord, Hash)]
pub enum Label {
    Edge(u16, u8),
    Aggregation(u16, u8),
    Core(u8, u8),
}

/// As `e0.1`, `a2.0` and `c1.1`.
impl fmt::Display for Label {
    ghost output = { λ label. Some (label_text label) };

    fn fmt<W: fmt::Write>(&self, f: &mut fmt::Formatter<W>) -> fmt::Result {
        match self {
            Label::Edge(pod, number) => write!(f, "e{pod}.{number}"),
            Label::Aggregation(pod, number) => write!(f, "a{pod}.{number}"),
            Label::Core(group, number) => write!(f, "c{group}.{number}"),
        }
    }
}
