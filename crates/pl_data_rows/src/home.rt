ghost use Rattle.std.specs.Prelude.{◌≡◌, ◌≤◌, true, length, OnOk};
ghost use Rattle.pl_delivery.specs.Sending.{left_to_do, makes_any};
ghost use Rattle.pl_layouts.specs.Placement.{is_known};
ghost use Rattle.pl_steps.specs.Taken.{IsTaken};
ghost use Rattle.pl_data_rows.specs.Rest.{IsLong, IsLongIfAny};
ghost use Rattle.pl_switch_rule.specs.Delivering.{arrives_home, comes_home, makes};
ghost use Rattle.pl_switch_rule.specs.SwitchRule.{by_flow};

use crate::KeepsRecords;
use pl_edge::Sent;
use pl_forward::forward;
use pl_frame::Frame;
use pl_node::{Memory, Outbox};
use pl_switch_rule::Came;

/// A frame for the pod and the position of this edge switch goes out to its host, or along the traps that
/// stand for its address; then its sender is told where it met one.
pub(crate) fn arrives_home<S: KeepsRecords>(
    switch: &S,
    frame: Frame,
    out: &mut Outbox,
) -> Result<(), Memory>
    requires long { 14 ≤ length frame }
    requires edge { is_known (S.view switch.now).place.level 0 ≡ true }
    ensures { OnOk result (IsTaken (arrives_home by_flow (S.view switch.now) frame) (S.view switch.now) out.old out.new) }
{
    let reply = switch.edge().reply(frame.bytes())?;
    come_home(switch, frame, out)?;
    make_any(switch, reply, out)?;
    Ok(())
}

// The frame itself.
fn come_home<S: KeepsRecords>(switch: &S, frame: Frame, out: &mut Outbox) -> Result<(), Memory>
    requires long { 14 ≤ length frame }
    requires edge { is_known (S.view switch.now).place.level 0 ≡ true }
    ensures { OnOk result (IsTaken (comes_home by_flow (S.view switch.now) frame) (S.view switch.now) out.old out.new) }
{
    let sent = switch.edge().egress(frame, out)?;
    send_on(switch, sent, out)?;
    Ok(())
}

/// A frame that this edge switch makes begins here.
pub(crate) fn makes<S: KeepsRecords>(
    switch: &S,
    frame: Frame,
    out: &mut Outbox,
) -> Result<(), Memory>
    requires long { 14 ≤ length frame }
    requires edge { is_known (S.view switch.now).place.level 0 ≡ true }
    ensures { OnOk result (IsTaken (makes by_flow frame (S.view switch.now)) (S.view switch.now) out.old out.new) }
{
    let sent = switch.edge().begin(frame, out)?;
    send_on(switch, sent, out)?;
    Ok(())
}

fn make_any<S: KeepsRecords>(
    switch: &S,
    frame: Option<Frame>,
    out: &mut Outbox,
) -> Result<(), Memory>
    requires long { IsLongIfAny frame }
    requires edge { is_known (S.view switch.now).place.level 0 ≡ true }
    ensures { OnOk result (IsTaken (makes_any by_flow frame (S.view switch.now)) (S.view switch.now) out.old out.new) }
{
    match frame {
        Some(frame) => makes(switch, frame, out),
        None => Ok(()),
    }
}

// A frame that is for another edge switch is forwarded.
fn send_on<S: KeepsRecords>(switch: &S, sent: Sent, out: &mut Outbox) -> Result<(), Memory>
    requires { IsLong sent }
    ensures { OnOk result (IsTaken (left_to_do by_flow sent (S.view switch.now)) (S.view switch.now) out.old out.new) }
{
    match sent {
        Sent::Here => Ok(()),
        Sent::Upward(frame) => forward(switch, Some(Came::FromHost), frame, out),
    }
}
