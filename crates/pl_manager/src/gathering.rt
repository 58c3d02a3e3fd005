//! What the manager does with a word while reports are missing, and when the last of them ends.
ghost use Rattle.std.specs.Prelude.{◌≡◌, OnOk};
ghost use Rattle.pl_manager.specs.Manager.{CanGather, EndsSo, TellsSo};

use crate::known::Known;
use pl_frame::SwitchId;
use pl_gatherer::Gatherer;
use pl_node::{ManagerOutbox, Memory, ToManager};

/// A word that is neither the beginning nor the end of a report: while a report is missing it is kept.
pub(crate) fn hear_word(
    known: &mut Known,
    gatherer: &mut Gatherer,
    switch: SwitchId,
    word: &ToManager,
    out: &mut ManagerOutbox,
) -> Result<(), Memory>
    requires { CanGather known.old gatherer.old switch }
    ensures told { OnOk result (TellsSo known.old gatherer.old switch word.now known.new gatherer.new out.old out.new) }
    ensures k { known.new.k ≡ known.old.k }
    ensures many { gatherer.new.many ≡ gatherer.old.many }
{
    if gatherer.is_whole() {
        known.hear(gatherer.epoch(), switch, word, out)
    } else {
        gatherer.keep(switch, *word)
    }
}

/// A report ends. Where it was the last one all that was kept is treated.
pub(crate) fn end_report(
    known: &mut Known,
    gatherer: &mut Gatherer,
    switch: SwitchId,
    epoch: u32,
    out: &mut ManagerOutbox,
) -> Result<(), Memory>
    requires { CanGather known.old gatherer.old switch }
    ensures ended { OnOk result (EndsSo known.old gatherer.old switch epoch known.new gatherer.new out.old out.new) }
    ensures k { known.new.k ≡ known.old.k }
    ensures many { gatherer.new.many ≡ gatherer.old.many }
{
    let ends = gatherer.end(switch, epoch)?;
    if !ends {
        return Ok(());
    }
    if !gatherer.is_whole() {
        return Ok(());
    }
    let kept = gatherer.take_kept();
    known.hear_all(gatherer.epoch(), &kept, out)
}
