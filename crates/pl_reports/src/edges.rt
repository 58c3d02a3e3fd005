ghost use Rattle.std.specs.Prelude.{◌≡◌, if◌then◌else◌, IfOk, OnOk, is_some, not};
ghost use Rattle.std.specs.BTreeSet.{insert_key};
ghost use Rattle.std.specs.List.{filter};
ghost use Rattle.std.specs.List.Sorted.{IsStrictlySortedBy};
ghost use Rattle.pl_frame.specs.declared.address.SwitchId.{SwitchId};
ghost use Rattle.pl_layouts.specs.Equality.{same_switch};
ghost use Rattle.pl_node.specs.ManagerViews.{edge_at, id_cmp};
ghost use Rattle.pl_reports.specs.Kept.{with_edge};

use crate::living::add_if;
use pl_frame::SwitchId;
use pl_node::{Memory, Place, SwitchList};
use std::alloc::Global;

/// Puts a switch that told its place among the placed edge switches, or takes it out.
pub(crate) fn keep_edge(
    edges: &mut SwitchList,
    alloc: Global,
    switch: SwitchId,
    place: Place,
) -> Result<(), Memory>
    ensures { OnOk result (edges.new ≡ with_edge edges.old switch (is_some (edge_at switch place))) }
{
    if is_edge(place) {
        edges.insert(switch)
    } else {
        remove(edges, alloc, switch)
    }
}

fn is_edge(place: Place) -> bool
    ensures { (s : SwitchId) → result ≡ is_some (edge_at s place) }
{
    place.level == Some(0) && place.position.is_some() && place.pod.is_some()
}

fn remove(edges: &mut SwitchList, alloc: Global, switch: SwitchId) -> Result<(), Memory>
    ensures { OnOk result (edges.new ≡ filter (λ t. not (same_switch t switch)) edges.old) }
{
    if edges.contains(&switch) {
        *edges = without(alloc, edges.as_slice(), switch)?;
    }
    Ok(())
}

// The same switches, but for one.
fn without(alloc: Global, switches: &[SwitchId], switch: SwitchId) -> Result<SwitchList, Memory>
    requires { IsStrictlySortedBy id_cmp switches.now }
    ensures { IfOk result (λ list. list ≡ filter (λ t. not (same_switch t switch)) switches.now) }
{
    let mut list = SwitchList::new(alloc);
    for other in switches {
        let passes = *other != switch;
        add_if(&mut list, *other, passes)?;
    }
    Ok(list)
}
