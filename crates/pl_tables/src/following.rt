ghost use Rattle.std.specs.Prelude.{◌≡◌, ℕ, ◌<◌, ◌≤◌, true, OnOk, length, slice_set};
ghost use Rattle.pl_node.specs.PortRecords.{port_of};
ghost use Rattle.pl_layouts.specs.Placement.{is_known};
ghost use Rattle.pl_tables.specs.Leads.{avoids_by, lead_at, lead_of, no_lead, AreOfLeads, ChangesRows, TablesFollow, Moves, MovesLead};

use crate::filling::{set_avoided, set_down, with_port};
use crate::lead::{Lead, lead_of};
use crate::{PortRows, PrefixTables};
use pl_frame::SwitchId;
use pl_lists::Memory;
use pl_node::{AvoidList, SwitchFacts};

/// What is known of each port leads to its part of the tables: those of the ports that lead elsewhere than
/// before are changed, and no others.
pub(crate) fn follow<F: SwitchFacts>(
    facts: &F,
    leads: &mut [Lead; 24],
    tables: &mut PrefixTables,
) -> Result<(), Memory>
    requires many { length leads.old ≡ 24 }
    requires tabled { AreOfLeads leads.old (F.view facts.now).avoid tables.old }
    requires past { (port : ℕ) → (F.view facts.now).k ≤ port → lead_at leads.old port ≡ no_lead }
    ensures { OnOk result (TablesFollow (F.view facts.now) leads.new tables.new) }
{
    for port in 0..facts.k() {
        follow_port(facts, port, leads, tables)?;
    }
    Ok(())
}

// The same for one port.
fn follow_port<F: SwitchFacts>(
    facts: &F,
    port: u8,
    leads: &mut [Lead; 24],
    tables: &mut PrefixTables,
) -> Result<(), Memory>
    requires port { port < (F.view facts.now).k }
    requires within { port < 24 }
    ensures leads { OnOk result (leads.new ≡ slice_set leads.old port (lead_of (F.view facts.now).place.level (F.view facts.now).id (port_of (F.view facts.now) port))) }
    ensures tables { OnOk result (AreOfLeads leads.old (F.view facts.now).avoid tables.old → AreOfLeads leads.new (F.view facts.now).avoid tables.new) }
{
    let now = lead_of(facts.place().level, facts.id(), facts.port(port));
    let was = leads[usize::from(port)];
    leads[usize::from(port)] = now;
    change_lead(tables, facts.avoid_list(), port, was, now)
}

// The lead of a port changes.
fn change_lead(
    tables: &mut PrefixTables,
    list: &AvoidList,
    port: u8,
    was: Lead,
    now: Lead,
) -> Result<(), Memory>
    requires { port < 32 }
    ensures { OnOk result (Moves tables.old tables.new list.now port was now) }
{
    if is_same(was, now) {
        return Ok(());
    }
    move_lead(tables, list, port, was, now)
}

fn is_same(was: Lead, now: Lead) -> bool
    ensures { result ≡ true → was ≡ now }
{
    was == now
}

// The port goes out of the rows where it was, and into those where it is.
fn move_lead(
    tables: &mut PrefixTables,
    list: &AvoidList,
    port: u8,
    was: Lead,
    now: Lead,
) -> Result<(), Memory>
    requires { port < 32 }
    ensures { OnOk result (MovesLead tables.old tables.new list.now port was now) }
{
    tables.up = with_port(tables.up, port, now.up.is_some());
    change_avoided(&mut tables.avoided, list, port, was.up, now.up)?;
    change_down(&mut tables.down, port, was.down, now.down)
}

fn change_avoided(
    rows: &mut PortRows,
    list: &AvoidList,
    port: u8,
    was: Option<SwitchId>,
    now: Option<SwitchId>,
) -> Result<(), Memory>
    requires { port < 32 }
    ensures { OnOk result (ChangesRows rows.old rows.new port (avoids_by list.now was) (avoids_by list.now now)) }
{
    set_avoided(rows, list, was, port, false)?;
    set_avoided(rows, list, now, port, true)
}

fn change_down(
    rows: &mut PortRows,
    port: u8,
    was: Option<u32>,
    now: Option<u32>,
) -> Result<(), Memory>
    requires { port < 32 }
    ensures { OnOk result (ChangesRows rows.old rows.new port (is_known was) (is_known now)) }
{
    set_down(rows, was, port, false)?;
    set_down(rows, now, port, true)
}
