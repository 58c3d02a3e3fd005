ghost use Rattle.std.specs.Prelude.{IfOk};
ghost use Rattle.pl_journal_text.specs.Fields.{AreEndsOf, IsOfVerb, ends_text, fields_text};
ghost use Rattle.pl_journal_text.specs.Reading.{Reads};

use crate::from_text::FromText;
use crate::verb::Verb;
use pl_frame::Frame;
use pl_journal::{Cause, Entry, Memory, Skip};
use pl_layouts::Place;
use pl_pmac::Pmac;
use pl_wiring::{HostNo, SwitchNo, Wiring};
use std::alloc::Global;

/// The fields behind `line`.
pub(crate) fn line(alloc: Global, wiring: &Wiring, fields: &str) -> Result<Option<Entry>, Memory>
    ensures { IfOk result (Reads (fields_text wiring.now) (IsOfVerb wiring.now Verb.Line) fields.now) }
{
    let read = u32::from_text(alloc, wiring, fields)?;
    match read {
        None => Ok(None),
        Some(n) => Ok(Some(Entry::Line(n))),
    }
}

/// The fields behind `sent`.
pub(crate) fn sent(alloc: Global, wiring: &Wiring, fields: &str) -> Result<Option<Entry>, Memory>
    ensures { IfOk result (Reads (fields_text wiring.now) (IsOfVerb wiring.now Verb.Sent) fields.now) }
{
    let read = <(u64, (HostNo, Frame)) as FromText>::from_text(alloc, wiring, fields)?;
    match read {
        None => Ok(None),
        Some((id, (host, frame))) => Ok(Some(Entry::Sent(id, host, frame))),
    }
}

/// The fields behind `skipped`.
pub(crate) fn skipped(alloc: Global, wiring: &Wiring, fields: &str) -> Result<Option<Entry>, Memory>
    ensures { IfOk result (Reads (fields_text wiring.now) (IsOfVerb wiring.now Verb.Skipped) fields.now) }
{
    let read = <(HostNo, Skip) as FromText>::from_text(alloc, wiring, fields)?;
    match read {
        None => Ok(None),
        Some((host, skip)) => Ok(Some(Entry::Skipped(host, skip))),
    }
}

/// The fields behind `made`.
pub(crate) fn made(alloc: Global, wiring: &Wiring, fields: &str) -> Result<Option<Entry>, Memory>
    ensures { IfOk result (Reads (fields_text wiring.now) (IsOfVerb wiring.now Verb.Made) fields.now) }
{
    let read = <(u64, (SwitchNo, Frame)) as FromText>::from_text(alloc, wiring, fields)?;
    match read {
        None => Ok(None),
        Some((id, (switch, frame))) => Ok(Some(Entry::Made(id, switch, frame))),
    }
}

/// The fields behind `crossed`.
pub(crate) fn crossed(alloc: Global, wiring: &Wiring, fields: &str) -> Result<Option<Entry>, Memory>
    ensures { IfOk result (Reads (fields_text wiring.now) (IsOfVerb wiring.now Verb.Crossed) fields.now) }
{
    let read = <(u64, SwitchNo) as FromText>::from_text(alloc, wiring, fields)?;
    match read {
        None => Ok(None),
        Some((id, switch)) => Ok(Some(Entry::Crossed(id, switch))),
    }
}

/// The fields behind `redirected`.
pub(crate) fn redirected(
    alloc: Global,
    wiring: &Wiring,
    fields: &str,
) -> Result<Option<Entry>, Memory>
    ensures { IfOk result (Reads (fields_text wiring.now) (IsOfVerb wiring.now Verb.Redirected) fields.now) }
{
    let read = <(u64, (Pmac, Pmac)) as FromText>::from_text(alloc, wiring, fields)?;
    match read {
        None => Ok(None),
        Some((id, (old, new))) => Ok(Some(Entry::Redirected(id, old, new))),
    }
}

/// The fields behind `copied`.
pub(crate) fn copied(alloc: Global, wiring: &Wiring, fields: &str) -> Result<Option<Entry>, Memory>
    ensures { IfOk result (Reads (fields_text wiring.now) (IsOfVerb wiring.now Verb.Copied) fields.now) }
{
    let read = <(u64, u64) as FromText>::from_text(alloc, wiring, fields)?;
    match read {
        None => Ok(None),
        Some((id, copy)) => Ok(Some(Entry::Copied(id, copy))),
    }
}

/// The fields behind `arrived`.
pub(crate) fn arrived(alloc: Global, wiring: &Wiring, fields: &str) -> Result<Option<Entry>, Memory>
    ensures { IfOk result (Reads (fields_text wiring.now) (IsOfVerb wiring.now Verb.Arrived) fields.now) }
{
    let read = <(u64, (HostNo, Frame)) as FromText>::from_text(alloc, wiring, fields)?;
    match read {
        None => Ok(None),
        Some((id, (host, frame))) => Ok(Some(Entry::Arrived(id, host, frame))),
    }
}

/// The fields behind `taken`.
pub(crate) fn taken(alloc: Global, wiring: &Wiring, fields: &str) -> Result<Option<Entry>, Memory>
    ensures { IfOk result (Reads (fields_text wiring.now) (IsOfVerb wiring.now Verb.Taken) fields.now) }
{
    let read = <(u64, SwitchNo) as FromText>::from_text(alloc, wiring, fields)?;
    match read {
        None => Ok(None),
        Some((id, switch)) => Ok(Some(Entry::Taken(id, switch))),
    }
}

/// The fields behind `dropped`.
pub(crate) fn dropped(alloc: Global, wiring: &Wiring, fields: &str) -> Result<Option<Entry>, Memory>
    ensures { IfOk result (Reads (fields_text wiring.now) (IsOfVerb wiring.now Verb.Dropped) fields.now) }
{
    let read = <(u64, Cause) as FromText>::from_text(alloc, wiring, fields)?;
    match read {
        None => Ok(None),
        Some((id, cause)) => Ok(Some(Entry::Dropped(id, cause))),
    }
}

/// The fields behind `granted`.
pub(crate) fn granted(alloc: Global, wiring: &Wiring, fields: &str) -> Result<Option<Entry>, Memory>
    ensures { IfOk result (Reads (fields_text wiring.now) (IsOfVerb wiring.now Verb.Granted) fields.now) }
{
    let read = <(Pmac, (HostNo, (SwitchNo, u8))) as FromText>::from_text(alloc, wiring, fields)?;
    match read {
        None => Ok(None),
        Some((pmac, (host, (edge, port)))) => Ok(Some(Entry::Granted(pmac, host, edge, port))),
    }
}

/// The fields behind `registered`.
pub(crate) fn registered(
    alloc: Global,
    wiring: &Wiring,
    fields: &str,
) -> Result<Option<Entry>, Memory>
    ensures { IfOk result (Reads (fields_text wiring.now) (IsOfVerb wiring.now Verb.Registered) fields.now) }
{
    let read = <(Pmac, u64) as FromText>::from_text(alloc, wiring, fields)?;
    match read {
        None => Ok(None),
        Some((pmac, n)) => Ok(Some(Entry::Registered(pmac, n))),
    }
}

/// The fields behind `freed`.
pub(crate) fn freed(alloc: Global, wiring: &Wiring, fields: &str) -> Result<Option<Entry>, Memory>
    ensures { IfOk result (Reads (fields_text wiring.now) (IsOfVerb wiring.now Verb.Freed) fields.now) }
{
    let read = Pmac::from_text(alloc, wiring, fields)?;
    match read {
        None => Ok(None),
        Some(pmac) => Ok(Some(Entry::Freed(pmac))),
    }
}

/// The fields behind `moved`.
pub(crate) fn moved(alloc: Global, wiring: &Wiring, fields: &str) -> Result<Option<Entry>, Memory>
    ensures { IfOk result (Reads (fields_text wiring.now) (IsOfVerb wiring.now Verb.Moved) fields.now) }
{
    let read = <(HostNo, (SwitchNo, u8)) as FromText>::from_text(alloc, wiring, fields)?;
    match read {
        None => Ok(None),
        Some((host, (edge, port))) => Ok(Some(Entry::Moved(host, edge, port))),
    }
}

/// The fields behind `restarted`.
pub(crate) fn restarted(
    alloc: Global,
    wiring: &Wiring,
    fields: &str,
) -> Result<Option<Entry>, Memory>
    ensures { IfOk result (Reads (fields_text wiring.now) (IsOfVerb wiring.now Verb.Restarted) fields.now) }
{
    let read = u32::from_text(alloc, wiring, fields)?;
    match read {
        None => Ok(None),
        Some(number) => Ok(Some(Entry::Restarted(number))),
    }
}

/// The fields behind `settled`.
pub(crate) fn settled(alloc: Global, wiring: &Wiring, fields: &str) -> Result<Option<Entry>, Memory>
    ensures { IfOk result (Reads (fields_text wiring.now) (IsOfVerb wiring.now Verb.Settled) fields.now) }
{
    let read = u32::from_text(alloc, wiring, fields)?;
    match read {
        None => Ok(None),
        Some(rounds) => Ok(Some(Entry::Settled(rounds))),
    }
}

/// The fields behind `unsettled`.
pub(crate) fn unsettled(
    alloc: Global,
    wiring: &Wiring,
    fields: &str,
) -> Result<Option<Entry>, Memory>
    ensures { IfOk result (Reads (fields_text wiring.now) (IsOfVerb wiring.now Verb.Unsettled) fields.now) }
{
    let read = u64::from_text(alloc, wiring, fields)?;
    match read {
        None => Ok(None),
        Some(pending) => Ok(Some(Entry::Unsettled(pending))),
    }
}

/// The fields behind `placed`.
pub(crate) fn placed(alloc: Global, wiring: &Wiring, fields: &str) -> Result<Option<Entry>, Memory>
    ensures { IfOk result (Reads (fields_text wiring.now) (IsOfVerb wiring.now Verb.Placed) fields.now) }
{
    let read = <(SwitchNo, (Option<u8>, (Option<u8>, Option<u16>))) as FromText>::from_text(
        alloc, wiring, fields,
    )?;
    match read {
        None => Ok(None),
        Some((switch, (level, (position, pod)))) => {
            let place = Place {
                level,
                position,
                pod,
            };
            Ok(Some(Entry::Placed(switch, place)))
        }
    }
}

/// The fields behind `linkdown`.
pub(crate) fn link_down(
    alloc: Global,
    wiring: &Wiring,
    fields: &str,
) -> Result<Option<Entry>, Memory>
    ensures { IfOk result (Reads (fields_text wiring.now) (IsOfVerb wiring.now Verb.LinkDown) fields.now) }
{
    let read = ends(alloc, wiring, fields)?;
    match read {
        None => Ok(None),
        Some((a, b)) => Ok(Some(Entry::LinkDown(a, b))),
    }
}

/// The fields behind `linkup`.
pub(crate) fn link_up(alloc: Global, wiring: &Wiring, fields: &str) -> Result<Option<Entry>, Memory>
    ensures { IfOk result (Reads (fields_text wiring.now) (IsOfVerb wiring.now Verb.LinkUp) fields.now) }
{
    let read = ends(alloc, wiring, fields)?;
    match read {
        None => Ok(None),
        Some((a, b)) => Ok(Some(Entry::LinkUp(a, b))),
    }
}

// Two switches, the first in label order first.
fn ends(
    alloc: Global,
    wiring: &Wiring,
    fields: &str,
) -> Result<Option<(SwitchNo, SwitchNo)>, Memory>
    ensures { IfOk result (Reads (ends_text wiring.now) (AreEndsOf wiring.now) fields.now) }
{
    let _k = wiring.k();
    let read = <(SwitchNo, SwitchNo) as FromText>::from_text(alloc, wiring, fields)?;
    match read {
        None => Ok(None),
        Some((a, b)) => {
            if a.0 < b.0 {
                Ok(Some((a, b)))
            } else {
                Ok(None)
            }
        }
    }
}
