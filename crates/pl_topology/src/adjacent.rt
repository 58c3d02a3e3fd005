ghost use Rattle.std.specs.Prelude.{◌≡◌, ◌<◌, All};
ghost use Rattle.pl_topology.specs.Checks.{are_adjacent, is_below, joins_the_tree};
ghost use Rattle.pl_topology.specs.Entries.{NamesSwitches};
ghost use Rattle.pl_wiring.specs.Labels.{IsArity, switch_count};
ghost use Rattle.pl_topology.specs.Refusal.{each};

use crate::TopologyError;
use crate::entries::LinkEntry;
use pl_wiring::{Label, SwitchNo, label_at};

// Whether the first switch has a link up to the second.
fn is_below(lower: Label, upper: Label) -> bool
    ensures { result ≡ is_below lower upper }
{
    match (lower, upper) {
        (Label::Edge(pod, _), Label::Aggregation(other, _)) => pod == other,
        (Label::Aggregation(_, number), Label::Core(group, _)) => number == group,
        _ => false,
    }
}

/// Whether the tree has a link between two switches.
pub(crate) fn are_adjacent(k: u8, a: SwitchNo, b: SwitchNo) -> bool
    requires arity { IsArity k }
    requires a_in_range { a.0 < switch_count k }
    requires b_in_range { b.0 < switch_count k }
    ensures { result ≡ are_adjacent k a b }
{
    let a = label_at(k, a);
    let b = label_at(k, b);
    is_below(a, b) || is_below(b, a)
}

/// The first table of a link that the tree does not have.
#[tactic(auto, unfolding(crate::specs::Checks::joins_the_tree))]
pub(crate) fn join_the_tree(k: u8, entries: &[LinkEntry]) -> Result<(), TopologyError>
    requires arity { IsArity k }
    requires in_range { All (NamesSwitches k) entries.now }
    ensures { result ≡ each (joins_the_tree k) entries.now }
{
    for entry in entries {
        if !are_adjacent(k, entry.a, entry.b) {
            return Err(TopologyError::NotFatTree(label_at(k, entry.a), label_at(k, entry.b)));
        }
    }
    Ok(())
}
