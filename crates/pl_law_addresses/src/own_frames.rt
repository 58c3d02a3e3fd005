ghost use Rattle.pl_world.specs.declared.event.Event.{Event};
ghost use Rattle.pl_world.specs.Flying.{IsCounted};
ghost use Rattle.pl_world.specs.Runs.{InEveryRun};
ghost use Rattle.pl_world.specs.WorldRule.{WorldStep};
ghost use Rattle.pl_world.specs.Worlds.{WorldView};
ghost use Rattle.pl_law_addresses.specs.OwnFrames.{HostsAreOwn};

use pl_node::{HostLogic, ManagerLogic, SwitchLogic};

/// A step leaves each host with frames of its own alone, held or in its queue, whatever the rules of
/// switches and the manager are.
pub fn each_step_keeps_frames_with_their_hosts<S: SwitchLogic, M: ManagerLogic, H: HostLogic>()
    ensures { (old : WorldView) (event : Event) (new : WorldView) → IsCounted old →
        WorldStep S.rule M.rule H.rule old event new → HostsAreOwn old → HostsAreOwn new }
{}

/// So in every run what waits in the queue of a host has that host's addresses as its sender.
pub fn hosts_send_frames_of_their_own<S: SwitchLogic, M: ManagerLogic, H: HostLogic>()
    ensures { InEveryRun S.rule M.rule H.rule HostsAreOwn }
{}
