ghost use Rattle.std.specs.Prelude.{◌≡◌, ◌<◌, ◌≤◌, ◌||◌, not, length, is_none, OnOk};
ghost use Rattle.pl_node.specs.PortRecords.{place_at};
ghost use Rattle.pl_layouts.specs.Placement.{is_placed};
ghost use Rattle.pl_steps.specs.Taken.{IsTaken};
ghost use Rattle.pl_data_rows.specs.Rows.{passes_on};
ghost use Rattle.pl_switch_rule.specs.SwitchRule.{by_flow, comes_from_switch};

use crate::KeepsRecords;
use crate::home::arrives_home;
use crate::reading::{destination, is_for_group};
use pl_forward::{came_by, forward, forward_to_group, is_local};
use pl_frame::Frame;
use pl_node::{Act, Cause, Memory, Outbox, SwitchFacts};

/// A frame of a neighbour is passed on by a switch that is placed and knows the neighbour's level.
pub(crate) fn comes_from_switch<S: KeepsRecords>(
    switch: &S,
    port: u8,
    frame: &[u8],
    out: &mut Outbox,
) -> Result<(), Memory>
    requires port { port < (S.view switch.now).k }
    requires long { 14 ≤ length frame.now }
    ensures { OnOk result (IsTaken (comes_from_switch by_flow (S.view switch.now) port frame.now) (S.view switch.now) out.old out.new) }
{
    if has_no_way(switch, port) {
        out.push(Act::Drop(Cause::NotPlaced))?;
        return Ok(());
    }
    if is_for_group(frame) {
        let came = came_by(switch, port);
        forward_to_group(switch, switch.alloc(), came, frame, out)?;
        return Ok(());
    }
    let copy = Frame::copy(switch.alloc(), frame)?;
    pass_on(switch, port, copy, out)?;
    Ok(())
}

// Whether a frame of the neighbour at a port goes nowhere: the switch is not placed, or the neighbour's
// level is not known.
fn has_no_way<S: KeepsRecords>(switch: &S, port: u8) -> bool
    requires { port < (S.view switch.now).k }
    ensures { result ≡ (not (is_placed (S.view switch.now).place) || is_none (place_at (S.view switch.now) port).level) }
{
    if !switch.place().is_placed() {
        return true;
    }
    match switch.port(port).heard {
        Some(neighbour) => neighbour.place.level.is_none(),
        None => true,
    }
}

// A frame for one host: it arrived at its edge switch, or goes on.
fn pass_on<S: KeepsRecords>(
    switch: &S,
    port: u8,
    frame: Frame,
    out: &mut Outbox,
) -> Result<(), Memory>
    requires port { port < (S.view switch.now).k }
    requires long { 14 ≤ length frame }
    ensures { OnOk result (IsTaken (passes_on by_flow (S.view switch.now) port frame) (S.view switch.now) out.old out.new) }
{
    if is_local(switch, destination(frame.bytes())) {
        arrives_home(switch, frame, out)
    } else {
        let came = came_by(switch, port);
        forward(switch, came, frame, out)
    }
}
