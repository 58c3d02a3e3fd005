ghost use Rattle.std.specs.Prelude.{◌≡◌, ◌<◌, ◌≤◌, true, length, OnOk};
ghost use Rattle.pl_node.specs.PortRecords.{is_open_to_hosts, port_of};
ghost use Rattle.pl_edge.specs.Begun.{left_to_do};
ghost use Rattle.pl_layouts.specs.Placement.{is_known};
ghost use Rattle.pl_steps.specs.Taken.{IsTaken};
ghost use Rattle.pl_data_rows.specs.Rows.{learns_and_takes_in};
ghost use Rattle.pl_switch_rule.specs.DropCauses.{has_no_hosts};
ghost use Rattle.pl_switch_rule.specs.Intake.{comes_from_host, takes_in};
ghost use Rattle.pl_switch_rule.specs.SwitchRule.{by_flow};

use crate::KeepsRecords;
use crate::home::arrives_home;
use pl_edge::EdgeAct;
use pl_forward::{forward, forward_to_group};
use pl_frame::Frame;
use pl_node::{Act, Cause, Memory, Outbox, SwitchFacts};
use pl_switch_rule::Came;

/// A frame of a host comes: a host is found at its port, its source is learnt, and then it is taken in. An
/// aggregation or core switch has no hosts.
pub(crate) fn comes_from_host<S: KeepsRecords>(
    switch: &mut S,
    port: u8,
    frame: &[u8],
    out: &mut Outbox,
) -> Result<(), Memory>
    requires port { port < (S.view switch.old).k }
    requires open { is_open_to_hosts (port_of (S.view switch.old) port) ≡ true }
    requires long { 14 ≤ length frame.now }
    requires short { length frame.now ≤ 65553 }
    ensures taken { OnOk result (IsTaken (comes_from_host by_flow (S.view switch.old) port frame.now) (S.view switch.new) out.old out.new) }
    ensures id { (S.view switch.new).id ≡ (S.view switch.old).id }
    ensures k { (S.view switch.new).k ≡ (S.view switch.old).k }
{
    if has_no_hosts(switch) {
        out.push(Act::Drop(Cause::NotPlaced))?;
        return Ok(());
    }
    let copy = Frame::copy(switch.alloc(), frame)?;
    switch.find_host(port, out)?;
    learn_and_take_in(switch, port, copy, out)?;
    Ok(())
}

fn has_no_hosts<S: KeepsRecords>(switch: &S) -> bool
    ensures { result ≡ has_no_hosts (S.view switch.now) }
{
    matches!(switch.place().level, Some(1 | 2))
}

// An edge switch learns the source of a frame, and takes it in unless the source has no address.
fn learn_and_take_in<S: KeepsRecords>(
    switch: &mut S,
    port: u8,
    frame: Frame,
    out: &mut Outbox,
) -> Result<(), Memory>
    requires edge { is_known (S.view switch.old).place.level 0 ≡ true }
    requires port { port < (S.view switch.old).k }
    requires long { 14 ≤ length frame }
    requires short { length frame ≤ 65553 }
    ensures taken { OnOk result (IsTaken (learns_and_takes_in by_flow port frame (S.view switch.old)) (S.view switch.new) out.old out.new) }
    ensures id { (S.view switch.new).id ≡ (S.view switch.old).id }
    ensures k { (S.view switch.new).k ≡ (S.view switch.old).k }
{
    if !switch.learn(port, &frame, out)? {
        out.push(Act::Drop(Cause::Spent))?;
        return Ok(());
    }
    take_in(switch, port, frame, out)?;
    Ok(())
}

// A frame whose source was learnt is taken, dropped or sent on.
fn take_in<S: KeepsRecords>(
    switch: &mut S,
    port: u8,
    mut frame: Frame,
    out: &mut Outbox,
) -> Result<(), Memory>
    requires edge { is_known (S.view switch.old).place.level 0 ≡ true }
    requires port { port < (S.view switch.old).k }
    requires long { 14 ≤ length frame }
    requires short { length frame ≤ 65553 }
    ensures taken { OnOk result (IsTaken (takes_in by_flow port frame (S.view switch.old)) (S.view switch.new) out.old out.new) }
    ensures id { (S.view switch.new).id ≡ (S.view switch.old).id }
    ensures k { (S.view switch.new).k ≡ (S.view switch.old).k }
{
    let act = switch.ingress(port, &mut frame, out)?;
    go_on(switch, act, frame, out)?;
    Ok(())
}

// What is left to do with a frame of a host.
fn go_on<S: KeepsRecords>(
    switch: &S,
    act: EdgeAct,
    frame: Frame,
    out: &mut Outbox,
) -> Result<(), Memory>
    requires edge { is_known (S.view switch.now).place.level 0 ≡ true }
    requires long { 14 ≤ length frame }
    ensures { OnOk result (IsTaken (left_to_do by_flow act frame (S.view switch.now)) (S.view switch.now) out.old out.new) }
{
    match act {
        EdgeAct::Upward(_) => forward(switch, Some(Came::FromHost), frame, out),
        EdgeAct::ToHost(_) => arrives_home(switch, frame, out),
        EdgeAct::Group(_) => {
            let from_host = Some(Came::FromHost);
            forward_to_group(switch, switch.alloc(), from_host, frame.bytes(), out)
        }
        EdgeAct::Taken => out.push(Act::Take),
        EdgeAct::Drop(cause) => out.push(Act::Drop(cause)),
    }
}
