ghost use Rattle.std.specs.Prelude.{◌≡◌, ◌<◌, ◌≤◌, length, OnOk};
ghost use Rattle.pl_node.specs.Accounting.{IsComing};
ghost use Rattle.pl_node.specs.SwitchInputs.SwitchInput.{Comes};
ghost use Rattle.pl_steps.specs.Taken.{IsTaken};
ghost use Rattle.pl_switch_rule.specs.SwitchRule.{by_flow, data_comes, switch_step};

use crate::KeepsRecords;
use crate::host_frames::comes_from_host;
use crate::neighbour_frames::comes_from_switch;
use pl_layouts::frames::is_control;
use pl_node::{Memory, Outbox, SwitchFacts};

/// A frame comes at a port: a control frame, or one of a host or of a neighbour.
pub fn comes<S: KeepsRecords>(
    switch: &mut S,
    port: u8,
    frame: &[u8],
    out: &mut Outbox,
) -> Result<(), Memory>
    requires { IsComing (S.view switch.old).k port frame.now }
    ensures taken { OnOk result (IsTaken (switch_step by_flow (S.view switch.old) (Comes port frame.now)) (S.view switch.new) out.old out.new) }
    ensures id { (S.view switch.new).id ≡ (S.view switch.old).id }
    ensures k { (S.view switch.new).k ≡ (S.view switch.old).k }
{
    if is_control(frame) {
        switch.control_comes(port, frame, out)
    } else {
        data_comes(switch, port, frame, out)
    }
}

// A data frame is of a host where a host is at the port, or nothing was heard there yet.
fn data_comes<S: KeepsRecords>(
    switch: &mut S,
    port: u8,
    frame: &[u8],
    out: &mut Outbox,
) -> Result<(), Memory>
    requires port { port < (S.view switch.old).k }
    requires long { 14 ≤ length frame.now }
    requires short { length frame.now ≤ 65553 }
    ensures taken { OnOk result (IsTaken (data_comes by_flow (S.view switch.old) port frame.now) (S.view switch.new) out.old out.new) }
    ensures id { (S.view switch.new).id ≡ (S.view switch.old).id }
    ensures k { (S.view switch.new).k ≡ (S.view switch.old).k }
{
    if switch.port(port).is_open_to_hosts() {
        comes_from_host(switch, port, frame, out)
    } else {
        comes_from_switch(switch, port, frame, out)
    }
}
