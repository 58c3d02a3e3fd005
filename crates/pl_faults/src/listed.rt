ghost use Rattle.std.specs.Prelude.{◌≡◌, ◌∷◌, [], IfOk, OnOk, fold, if◌then◌else◌};
ghost use Rattle.pl_reports.specs.Kept.{near_of};
ghost use Rattle.pl_node.specs.AvoidLists.{is_level_above};
ghost use Rattle.pl_node.specs.ManagerViews.{id_cmp, place_of};
ghost use Rattle.std.specs.BTreeSet.{insert_key};
ghost use Rattle.pl_reports.specs.Kept.{with_neighbour};
ghost use Rattle.pl_faults.specs.Listed.{with_all, with_below, with_beside, with_lower, with_told};
ghost use Rattle.pl_frame.specs.declared.address.SwitchId.{SwitchId};

use crate::making::is_level_above;
use pl_frame::SwitchId;
use pl_node::{Memory, SwitchList};
use pl_reports::Reports;
use std::alloc::Global;
use std::collections::BTreeMap;

/// For each switch those that told of a link to it.
pub(crate) type Hearers = BTreeMap<SwitchId, SwitchList>;

/// Puts switches into a list.
pub(crate) fn put_all(list: &mut SwitchList, more: &[SwitchId]) -> Result<(), Memory>
    ensures { OnOk result (list.new ≡ with_all list.old more.now) }
{
    for switch in more {
        list.insert(*switch)?;
    }
    Ok(())
}

/// A list with all to which these switches have links that are alive.
pub(crate) fn beside(
    alloc: Global,
    reports: &Reports,
    list: &SwitchList,
    switches: &[SwitchId],
) -> Result<SwitchList, Memory>
    ensures { IfOk result (λ all. all ≡ fold (with_beside reports.now) list.now switches.now) }
{
    let mut all = list.copied(alloc)?;
    for switch in switches {
        put_all(&mut all, reports.alive_neighbours(*switch))?;
    }
    Ok(all)
}

/// The two ends of a link.
pub(crate) fn ends_of(
    alloc: Global,
    switch: SwitchId,
    neighbour: SwitchId,
) -> Result<SwitchList, Memory>
    ensures { IfOk result (λ ends. ends ≡ insert_key id_cmp (switch ∷ []) neighbour) }
{
    let mut ends = SwitchList::new(alloc);
    ends.insert(switch)?;
    ends.insert(neighbour)?;
    Ok(ends)
}

/// A switch, and all to which it has links that are alive.
pub(crate) fn around(
    alloc: Global,
    reports: &Reports,
    switch: SwitchId,
) -> Result<SwitchList, Memory>
    ensures { IfOk result (λ list. list ≡ with_beside reports.now (switch ∷ []) switch) }
{
    let mut list = SwitchList::new(alloc);
    list.insert(switch)?;
    put_all(&mut list, reports.alive_neighbours(switch))?;
    Ok(list)
}

/// A switch tells of a link.
pub(crate) fn hear(
    hearers: &mut Hearers,
    alloc: Global,
    switch: SwitchId,
    neighbour: SwitchId,
) -> Result<(), Memory>
    ensures { OnOk result ((t : SwitchId) →
        near_of hearers.new.entries t ≡ with_neighbour hearers.old.entries neighbour switch t) }
{
    match hearers.get_mut(&neighbour) {
        Some(list) => list.insert(switch),
        None => {
            let mut list = SwitchList::new(alloc);
            list.insert(switch)?;
            hearers.insert(neighbour, list)?;
            Ok(())
        }
    }
}

/// A switch, and all that told of a link to it.
pub(crate) fn with_hearers(
    alloc: Global,
    reports: &Reports,
    hearers: &Hearers,
    switch: SwitchId,
) -> Result<SwitchList, Memory>
    ensures { IfOk result (λ list. list ≡ fold (with_told reports.now) (switch ∷ []) (near_of hearers.now.entries switch)) }
{
    let mut list = SwitchList::new(alloc);
    list.insert(switch)?;
    for hearer in hearers_of(hearers, switch) {
        put_told(&mut list, reports, *hearer)?;
    }
    Ok(list)
}

// Puts in a switch if it told something.
fn put_told(list: &mut SwitchList, reports: &Reports, switch: SwitchId) -> Result<(), Memory>
    ensures { OnOk result (list.new ≡ with_told reports.now list.old switch) }
{
    if reports.has_told(switch) {
        list.insert(switch)?;
    }
    Ok(())
}

/// Puts in all that are below one of these and told of a link to it.
pub(crate) fn put_all_below(
    list: &mut SwitchList,
    reports: &Reports,
    hearers: &Hearers,
    turned: &[SwitchId],
) -> Result<(), Memory>
    ensures { OnOk result (list.new ≡ fold (with_below reports.now hearers.now.entries) list.old turned.now) }
{
    for above in turned {
        put_below(list, reports, hearers_of(hearers, *above), *above)?;
    }
    Ok(())
}

fn hearers_of(hearers: &Hearers, switch: SwitchId) -> &[SwitchId]
    ensures { result.now ≡ near_of hearers.now.entries switch }
{
    match hearers.get(&switch) {
        Some(list) => list.as_slice(),
        None => &[],
    }
}

fn put_below(
    list: &mut SwitchList,
    reports: &Reports,
    hearers: &[SwitchId],
    above: SwitchId,
) -> Result<(), Memory>
    ensures { OnOk result (list.new ≡ fold (with_lower reports.now above) list.old hearers.now) }
{
    let high = reports.place_of(above).level;
    for switch in hearers {
        put_lower(list, reports, *switch, high)?;
    }
    Ok(())
}

// Puts in a switch if this level is one above its own.
fn put_lower(
    list: &mut SwitchList,
    reports: &Reports,
    switch: SwitchId,
    high: Option<u8>,
) -> Result<(), Memory>
    ensures { OnOk result (list.new
        ≡ (if is_level_above (place_of reports.now switch).level high then insert_key id_cmp list.old switch else list.old)) }
{
    if is_level_above(reports.place_of(switch).level, high) {
        list.insert(switch)?;
    }
    Ok(())
}
