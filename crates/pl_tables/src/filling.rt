ghost use Rattle.std.specs.Prelude.{◌≡◌, ℕ, ◌+◌, ◌*◌, ◌<◌, ◌==◌, if◌then◌else◌, OnOk, Some};
ghost use Rattle.pl_layouts.specs.Placement.{is_known};
ghost use Rattle.pl_lists.specs.Ports.{ports_of};
ghost use Rattle.pl_tables.specs.Leads.{avoids_by, has, is_entry_of, SetsWhere};

use crate::PortRows;
use pl_frame::SwitchId;
use pl_lists::{Memory, PortSet, Rising};
use pl_node::AvoidList;

/// Sets or clears a port under the keys of all entries of an avoid list for a neighbour, if there is one.
pub(crate) fn set_avoided(
    rows: &mut PortRows,
    list: &AvoidList,
    neighbour: Option<SwitchId>,
    port: u8,
    is_in: bool,
) -> Result<(), Memory>
    requires { port < 32 }
    ensures { OnOk result (SetsWhere rows.old rows.new port is_in (avoids_by list.now neighbour)) }
{
    match neighbour {
        Some(neighbour) => set_entries(rows, list, neighbour, port, is_in),
        None => Ok(()),
    }
}

fn set_entries(
    rows: &mut PortRows,
    list: &AvoidList,
    neighbour: SwitchId,
    port: u8,
    is_in: bool,
) -> Result<(), Memory>
    requires { port < 32 }
    ensures { OnOk result (SetsWhere rows.old rows.new port is_in (avoids_by list.now (Some neighbour))) }
{
    let entries = list.entries()?;
    set_each(rows, &entries, neighbour, port, is_in)
}

fn set_each(
    rows: &mut PortRows,
    entries: &Rising<(SwitchId, u16, u8)>,
    neighbour: SwitchId,
    port: u8,
    is_in: bool,
) -> Result<(), Memory>
    requires { port < 32 }
    ensures { OnOk result (SetsWhere rows.old rows.new port is_in (avoids_by entries.now (Some neighbour))) }
{
    for entry in entries.as_slice() {
        set_entry(rows, *entry, neighbour, port, is_in)?;
    }
    Ok(())
}

/// The same for one entry, which may be for another neighbour.
pub(crate) fn set_entry(
    rows: &mut PortRows,
    entry: (SwitchId, u16, u8),
    neighbour: SwitchId,
    port: u8,
    is_in: bool,
) -> Result<(), Memory>
    requires { port < 32 }
    ensures { OnOk result (SetsWhere rows.old rows.new port is_in (λ key. is_entry_of neighbour key entry)) }
{
    if entry.0 != neighbour {
        return Ok(());
    }
    set_port(rows, address_key(entry.1, entry.2), port, is_in)
}

/// The key of a pod and a position.
pub(crate) fn address_key(pod: u16, position: u8) -> u32
    ensures key { result ≡ pod * 256 + position }
    ensures low { position < 256 }
{
    u32::from(pod) * 256 + u32::from(position)
}

/// Sets or clears a port under a key, if there is one.
pub(crate) fn set_down(
    rows: &mut PortRows,
    key: Option<u32>,
    port: u8,
    is_in: bool,
) -> Result<(), Memory>
    requires { port < 32 }
    ensures { OnOk result (SetsWhere rows.old rows.new port is_in (is_known key)) }
{
    match key {
        Some(key) => set_port(rows, key, port, is_in),
        None => Ok(()),
    }
}

// Sets or clears a port under one key.
fn set_port(rows: &mut PortRows, key: u32, port: u8, is_in: bool) -> Result<(), Memory>
    requires { port < 32 }
    ensures { OnOk result (SetsWhere rows.old rows.new port is_in (λ k. key == k)) }
{
    let ports = with_port(rows.ports(key), port, is_in);
    rows.put(key, ports)
}

/// A set of ports with a port or without it.
pub(crate) fn with_port(ports: PortSet, port: u8, is_in: bool) -> PortSet
    requires { port < 32 }
    ensures { (q : ℕ) → has (ports_of result) q ≡ (if port == q then is_in else has (ports_of ports) q) }
{
    let mut ports = ports;
    if is_in {
        ports.insert(port);
    } else {
        ports.remove(port);
    }
    ports
}
