ghost use Rattle.std.specs.Prelude.{◌≡◌, ◌&&◌, IfOk, OnOk, if◌then◌else◌};
ghost use Rattle.std.specs.BTreeSet.{insert_key};
ghost use Rattle.std.specs.List.{filter};
ghost use Rattle.std.specs.List.Sorted.{IsStrictlySortedBy};
ghost use Rattle.pl_node.specs.ManagerViews.{id_cmp};
ghost use Rattle.pl_reports.specs.Kept.{is_living, usable_in};

use pl_frame::SwitchId;
use pl_node::{Memory, SwitchList};
use std::alloc::Global;
use std::collections::BTreeMap;

/// Whether a switch can use its link to a neighbour.
pub(crate) type Links = BTreeMap<(SwitchId, SwitchId), bool>;

/// Whether a switch told that its link to a neighbour is usable.
pub(crate) fn is_usable(links: &Links, switch: SwitchId, neighbour: SwitchId) -> bool
    ensures { result ≡ usable_in links.now.entries switch neighbour }
{
    match links.get(&(switch, neighbour)) {
        Some(usable) => *usable,
        None => false,
    }
}

// Whether both ends told so.
fn is_living(links: &Links, a: SwitchId, b: SwitchId) -> bool
    ensures { result ≡ is_living links.now.entries a b }
{
    is_usable(links, a, b) && is_usable(links, b, a)
}

/// Those neighbours of a switch that are over links that are alive.
pub(crate) fn living_of(
    alloc: Global,
    links: &Links,
    switch: SwitchId,
    neighbours: &[SwitchId],
) -> Result<SwitchList, Memory>
    requires { IsStrictlySortedBy id_cmp neighbours.now }
    ensures { IfOk result (λ list. list ≡ filter (is_living links.now.entries switch) neighbours.now) }
{
    let mut list = SwitchList::new(alloc);
    for neighbour in neighbours {
        let passes = is_living(links, switch, *neighbour);
        add_if(&mut list, *neighbour, passes)?;
    }
    Ok(list)
}

/// Puts a switch into a list where it passes.
pub(crate) fn add_if(list: &mut SwitchList, switch: SwitchId, passes: bool) -> Result<(), Memory>
    ensures { OnOk result (list.new ≡ (if passes then insert_key id_cmp list.old switch else list.old)) }
{
    if passes {
        list.insert(switch)?;
    }
    Ok(())
}
