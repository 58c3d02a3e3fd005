ghost use Rattle.std.specs.Prelude.{◌≡◌, ◌∷◌, ◌++◌, OnOk, Some, map};
ghost use Rattle.std.specs.Option.{option_copied};
ghost use Rattle.pl_schedule.specs.Coming.{coming_of};
ghost use Rattle.pl_log_lines.specs.Acts.{act_line, heard_lines, manager_act_line};
ghost use Rattle.pl_watch.specs.Logs.{lost_of};
ghost use Rattle.pl_log_lines.specs.Messages.{told_line};
ghost use Rattle.pl_watch.specs.News.{news};
ghost use Rattle.pl_log_lines.specs.Telling.{Tells, node_in};

use crate::news::Change;
use pl_frame::Memory;
use pl_log_lines::{
    Page, Told, Verb, lost_control, tell_acts, tell_heard, tell_manager_acts, told_row,
};
use pl_node::{ManagerOutbox, Outbox, SwitchFacts, ToManager};
use pl_schedule::Coming;
use pl_shelf::Shelf;
use pl_world::Item;
use pl_world_parts::WiringIndex;

/// What a switch hears, what it knows then that it did not before, and what it does.
pub(crate) fn tell_of_switch<S: SwitchFacts, D: Shelf + Drop>(
    page: &mut Page<D>,
    told: &mut Told<'_>,
    index: &WiringIndex,
    coming: &Coming<'_>,
    change: &Change<'_, S>,
    acts: &mut Outbox,
) -> Result<(), Memory>
    requires { (S.view change.now.before.now).k ≡ (S.view change.now.after.now).k }
    ensures { OnOk result (Tells page.old page.new told.old told.new
        (heard_lines index.now (node_in told.old) (coming_of coming.now).input (coming_of coming.now).frame
        ++ news index.now (node_in told.old) (S.view change.now.before.now) (S.view change.now.after.now)
        ++ map (act_line index.now (node_in told.old)) acts.old)) }
{
    tell_heard(page, told, index, coming.incoming, coming.frame);
    change.tell(page, told, index)?;
    tell_acts(page, told, index, acts);
    Ok(())
}

/// What the manager hears, and what it does.
pub(crate) fn tell_of_manager<D: Shelf + Drop>(
    page: &mut Page<D>,
    told: &mut Told<'_>,
    index: &WiringIndex,
    says: &ToManager,
    acts: &mut ManagerOutbox,
)
    ensures { Tells page.old page.new told.old told.new
        (told_line index.now (node_in told.old) Verb.Heard says.now ∷ map (manager_act_line index.now (node_in told.old)) acts.old) }
{
    page.tell(told, &told_row(index, Verb::Heard, says));
    tell_manager_acts(page, told, index, acts);
}

/// A control frame that no switch hears, if one comes first in a queue.
pub(crate) fn tell_unheard<D: Shelf + Drop>(
    page: &mut Page<D>,
    told: &mut Told<'_>,
    index: &WiringIndex,
    first: Option<&Item>,
)
    ensures { Tells page.old page.new told.old told.new (lost_of index.now (node_in told.old) (option_copied first.entry)) }
{
    if let Some(item) = first {
        tell_lost_item(page, told, index, item);
    }
}

fn tell_lost_item<D: Shelf + Drop>(
    page: &mut Page<D>,
    told: &mut Told<'_>,
    index: &WiringIndex,
    item: &Item,
)
    ensures { Tells page.old page.new told.old told.new (lost_of index.now (node_in told.old) (Some item.now)) }
{
    if let Item::Control(frame) = item {
        page.tell(told, &lost_control(index, frame.bytes()));
    }
}
