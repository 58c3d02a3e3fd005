ghost use Rattle.std.specs.Prelude.{◌≡◌, ℕ, ◌≤◌, IsOk, OnOk, length};
ghost use Rattle.pl_steps.specs.Taken.{IsTaken};
ghost use Rattle.pl_switch_rule.specs.Reporting.{hears_hello};
ghost use Rattle.pl_tables.specs.Leads.{lead_at, no_lead, AreOfLeads, TablesFollow};

use crate::PrefixTables;
use crate::following::follow;
use crate::lead::{Lead, no_leads};
use crate::lists::change_list;
use pl_node::{AvoidList, Memory, Outbox, SwitchFacts};
use pl_switch_state::SwitchState;

/// The tables follow what a call has changed at the ports. After want of memory, in the call or here, the
/// switch has lost its place, and the tables are empty.
pub(crate) fn keep_up(
    done: Result<(), Memory>,
    state: &mut SwitchState,
    leads: &mut [Lead; 24],
    tables: &mut PrefixTables,
) -> Result<(), Memory>
    requires few { state.old.k ≤ 24 }
    requires many { length leads.old ≡ 24 }
    requires tabled { AreOfLeads leads.old state.old.avoid tables.old }
    requires past { (port : ℕ) → state.old.k ≤ port → lead_at leads.old port ≡ no_lead }
    ensures done { OnOk result (IsOk done) }
    ensures same { OnOk result (state.new ≡ state.old) }
    ensures follows { TablesFollow state.new leads.new tables.new }
    ensures id { state.new.id ≡ state.old.id }
    ensures k { state.new.k ≡ state.old.k }
{
    match follow_if(done, state, leads, tables) {
        Ok(()) => Ok(()),
        Err(memory) => {
            forget(state, leads, tables);
            Err(memory)
        }
    }
}

// The tables follow a call that had memory.
fn follow_if(
    done: Result<(), Memory>,
    state: &SwitchState,
    leads: &mut [Lead; 24],
    tables: &mut PrefixTables,
) -> Result<(), Memory>
    requires many { length leads.old ≡ 24 }
    requires tabled { AreOfLeads leads.old state.now.avoid tables.old }
    requires past { (port : ℕ) → state.now.k ≤ port → lead_at leads.old port ≡ no_lead }
    ensures done { OnOk result (IsOk done) }
    ensures follows { OnOk result (TablesFollow state.now leads.new tables.new) }
{
    match done {
        Ok(()) => follow(state, leads, tables),
        Err(memory) => Err(memory),
    }
}

// A switch without a place has no tables.
fn forget(state: &mut SwitchState, leads: &mut [Lead; 24], tables: &mut PrefixTables)
    requires { state.old.k ≤ 24 }
    ensures follows { TablesFollow state.new leads.new tables.new }
    ensures id { state.new.id ≡ state.old.id }
    ensures k { state.new.k ≡ state.old.k }
{
    state.forget_place();
    *leads = no_leads();
    *tables = PrefixTables::empty(state.alloc());
}

/// The avoid list is replaced, and the rows of the ports up follow it. After want of memory the switch has
/// lost its place, and the tables are empty.
pub(crate) fn take_list(
    state: &mut SwitchState,
    leads: &mut [Lead; 24],
    tables: &mut PrefixTables,
    list: &AvoidList,
) -> Result<(), Memory>
    requires { TablesFollow state.old leads.old tables.old }
    ensures avoid { OnOk result (state.new ≡ record state.old { avoid = list.now }) }
    ensures follows { TablesFollow state.new leads.new tables.new }
    ensures id { state.new.id ≡ state.old.id }
    ensures k { state.new.k ≡ state.old.k }
{
    match change_both(state, leads, tables, list) {
        Ok(()) => Ok(()),
        Err(memory) => {
            forget(state, leads, tables);
            Err(memory)
        }
    }
}

/// A fabric manager begins anew: the rows of the ports up forget what to avoid, and then the switch tells its
/// report.
pub(crate) fn greet(
    state: &mut SwitchState,
    leads: &mut [Lead; 24],
    tables: &mut PrefixTables,
    epoch: u32,
    out: &mut Outbox,
) -> Result<(), Memory>
    requires { TablesFollow state.old leads.old tables.old }
    ensures taken { OnOk result (IsTaken (hears_hello state.old epoch) state.new out.old out.new) }
    ensures follows { TablesFollow state.new leads.new tables.new }
    ensures id { state.new.id ≡ state.old.id }
    ensures k { state.new.k ≡ state.old.k }
{
    let none = AvoidList::new(state.alloc());
    take_list(state, leads, tables, &none)?;
    state.hear_hello(epoch, out)
}

// The rows follow, and then the list is replaced.
fn change_both(
    state: &mut SwitchState,
    leads: &[Lead; 24],
    tables: &mut PrefixTables,
    list: &AvoidList,
) -> Result<(), Memory>
    requires { TablesFollow state.old leads.now tables.old }
    ensures avoid { OnOk result (state.new ≡ record state.old { avoid = list.now }) }
    ensures follows { OnOk result (TablesFollow state.new leads.now tables.new) }
    ensures id { state.new.id ≡ state.old.id }
    ensures k { state.new.k ≡ state.old.k }
{
    change_list(&mut tables.avoided, leads, state.avoid_list(), list)?;
    state.hear_avoid_list(list)
}
