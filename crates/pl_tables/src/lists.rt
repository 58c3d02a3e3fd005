ghost use Rattle.std.specs.Prelude.{◌≡◌, ◌&&◌, not, ◌<◌, OnOk, length};
ghost use Rattle.pl_tables.specs.Leads.{avoids_by, is_entry_for, lead_at, AreAvoided, SetsEach, SetsWhere};

use crate::PortRows;
use crate::filling::set_entry;
use crate::lead::Lead;
use pl_frame::SwitchId;
use pl_lists::{Memory, Rising};
use pl_node::AvoidList;

/// The rows of the ports up follow a new avoid list: what it no longer has is cleared, what it has anew is
/// set, and no other row is touched.
pub(crate) fn change_list(
    rows: &mut PortRows,
    leads: &[Lead; 24],
    old: &AvoidList,
    new: &AvoidList,
) -> Result<(), Memory>
    requires { length leads.now ≡ 24 }
    ensures { OnOk result (AreAvoided rows.old leads.now old.now → AreAvoided rows.new leads.now new.now) }
{
    set_beyond(rows, leads, old, new, false)?;
    set_beyond(rows, leads, new, old, true)
}

// Sets or clears the entries that one list has and the other has not.
fn set_beyond(
    rows: &mut PortRows,
    leads: &[Lead; 24],
    list: &AvoidList,
    other: &AvoidList,
    is_in: bool,
) -> Result<(), Memory>
    requires { length leads.now ≡ 24 }
    ensures { OnOk result (SetsEach rows.old rows.new is_in (λ key q. avoids_by list.now (lead_at leads.now q).up key && not (avoids_by other.now (lead_at leads.now q).up key))) }
{
    let beyond = list.without(other)?;
    set_all(rows, leads, &beyond, is_in)
}

// The same for all of these entries.
fn set_all(
    rows: &mut PortRows,
    leads: &[Lead; 24],
    entries: &Rising<(SwitchId, u16, u8)>,
    is_in: bool,
) -> Result<(), Memory>
    requires { length leads.now ≡ 24 }
    ensures { OnOk result (SetsEach rows.old rows.new is_in (λ key q. avoids_by entries.now (lead_at leads.now q).up key)) }
{
    for entry in entries.as_slice() {
        set_at_ports(rows, leads, *entry, is_in)?;
    }
    Ok(())
}

// Sets or clears each port to the neighbour of an entry under its key.
fn set_at_ports(
    rows: &mut PortRows,
    leads: &[Lead; 24],
    entry: (SwitchId, u16, u8),
    is_in: bool,
) -> Result<(), Memory>
    requires { length leads.now ≡ 24 }
    ensures { OnOk result (SetsEach rows.old rows.new is_in (λ key q. is_entry_for (lead_at leads.now q).up key entry)) }
{
    for port in 0..24u8 {
        set_at_port(rows, leads[usize::from(port)].up, entry, port, is_in)?;
    }
    Ok(())
}

// The same for one port, by the neighbour up, if there is one.
fn set_at_port(
    rows: &mut PortRows,
    neighbour: Option<SwitchId>,
    entry: (SwitchId, u16, u8),
    port: u8,
    is_in: bool,
) -> Result<(), Memory>
    requires { port < 32 }
    ensures { OnOk result (SetsWhere rows.old rows.new port is_in (λ key. is_entry_for neighbour key entry)) }
{
    match neighbour {
        Some(neighbour) => set_entry(rows, entry, neighbour, port, is_in),
        None => Ok(()),
    }
}
