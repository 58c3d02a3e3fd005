ghost use Rattle.std.specs.Prelude.{◌≡◌, None, Ok};
ghost use Rattle.pl_layouts.specs.declared.control.Control.{Control};
ghost use Rattle.pl_layouts.specs.Control.{control_frame};
ghost use Rattle.pl_ldp.specs.Writable.{IsWritableControl};
ghost use Rattle.pl_switch_rule.specs.SwitchRule.{Loose};
ghost use Rattle.pl_world.specs.declared.event.Event.{Event};
ghost use Rattle.pl_world.specs.Flying.{IsCounted};
ghost use Rattle.pl_world.specs.Refusals.{refusal};
ghost use Rattle.pl_world.specs.Runs.{InEveryRun};
ghost use Rattle.pl_world.specs.WorldRule.{WorldStep};
ghost use Rattle.pl_world.specs.Worlds.{WorldView};
ghost use Rattle.pl_law_control_plane.specs.ControlPlanes.{control_plane, message_in};
ghost use Rattle.pl_law_control_plane.specs.HostsAtEdges.{HostsAtEdges};
ghost use Rattle.pl_law_control_plane.specs.Ids.{HasIds};
ghost use Rattle.pl_law_control_plane.specs.Restarts.{OnPlane};

use pl_node::{HostLogic, ManagerLogic};

/// A message that can be told is read in its control frame as it was written.
pub fn a_written_message_is_read()
    ensures { (message : Control) → IsWritableControl message → message_in (control_frame message) ≡ Ok message }
{}

/// Each step of a world is one of its control plane: items leave queues of frames, or one switch or the manager
/// steps by its rule, and what it sends is put behind the queues; or the manager begins anew, and then all that
/// waited between it and the switches is gone.
pub fn each_step_is_one_of_the_control_plane<M: ManagerLogic, H: HostLogic>()
    ensures { (old : WorldView) (event : Event) (new : WorldView) → IsCounted old → HostsAtEdges old → refusal old event ≡ None →
        WorldStep Loose M.rule H.rule old event new → OnPlane Loose M.rule (control_plane old) (control_plane new) }
{}

/// Hosts stand at ports of edge switches that have no link, after each step.
pub fn each_step_keeps_hosts_at_edges<M: ManagerLogic, H: HostLogic>()
    ensures { (old : WorldView) (event : Event) (new : WorldView) → IsCounted old → HostsAtEdges old → refusal old event ≡ None →
        WorldStep Loose M.rule H.rule old event new → HostsAtEdges new }
{}

/// So they do at each moment of each run from the beginning.
pub fn hosts_stand_at_edges_in_every_run<M: ManagerLogic, H: HostLogic>()
    ensures { InEveryRun Loose M.rule H.rule HostsAtEdges }
{}

/// And each switch has the id that the wiring gives it.
pub fn switches_keep_their_ids_in_every_run<M: ManagerLogic, H: HostLogic>()
    ensures { InEveryRun Loose M.rule H.rule (λ new. HasIds (control_plane new)) }
{}
