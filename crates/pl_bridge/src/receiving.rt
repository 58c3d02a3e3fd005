ghost use Rattle.std.specs.Prelude.{◌≡◌, ◌<◌, ◌≤◌, ◌++◌, ℕ, length, OnOk};
ghost use Rattle.pl_frame.specs.Ethernet.{destination_of, source_of};
ghost use Rattle.pl_layouts.specs.Memberships.{is_group};
ghost use Rattle.pl_bridge_rule.specs.BridgeRule.{goes_on, learns_source, port_among};

use crate::BridgeTable;
use crate::flooding::go_on;
use pl_frame::Mac;
use pl_node::{Memory, Outbox};
use std::alloc::Global;

/// A data frame comes at a port: its source is learnt, and then it goes on.
pub(crate) fn bridge(
    table: &mut BridgeTable,
    alloc: Global,
    k: u8,
    port: u8,
    frame: &[u8],
    out: &mut Outbox,
) -> Result<(), Memory>
    requires k { k ≤ 24 }
    requires port { port < 24 }
    requires long { 14 ≤ length frame.now }
    ensures table { OnOk result (table.new ≡ learns_source port frame.now table.old) }
    ensures acts { OnOk result (out.new ≡ out.old ++ goes_on k port frame.now (port_among k (learns_source port frame.now table.old) (destination_of frame.now))) }
{
    learn_source(table, port, frame)?;
    go_on(
        alloc,
        k,
        port,
        frame,
        table.port_among(k, destination_of(frame)),
        out,
    )
}

// Groups are at no port.
fn learn_source(table: &mut BridgeTable, port: u8, frame: &[u8]) -> Result<(), Memory>
    requires port { port < 24 }
    requires long { 14 ≤ length frame.now }
    ensures { OnOk result (table.new ≡ learns_source port frame.now table.old) }
{
    let source = source_of(frame);
    if is_group(source) {
        return Ok(());
    }
    table.learn(port, source)
}

fn source_of(frame: &[u8]) -> Mac
    requires { 14 ≤ length frame.now }
    ensures { result ≡ source_of frame.now }
{
    Mac::read_at(frame, 6)
}

fn destination_of(frame: &[u8]) -> Mac
    requires { 14 ≤ length frame.now }
    ensures { result ≡ destination_of frame.now }
{
    Mac::read_at(frame, 0)
}

fn is_group(mac: Mac) -> bool
    ensures { result ≡ is_group mac }
{
    mac.is_group()
}
