ghost use Rattle.std.specs.Prelude.{◌≡◌, None};
ghost use Rattle.pl_host_rule.specs.HostRule.{host_rule};
ghost use Rattle.pl_switch_rule.specs.SwitchRule.{Loose};
ghost use Rattle.pl_world.specs.declared.event.Event.{Event};
ghost use Rattle.pl_world.specs.Flying.{IsCounted};
ghost use Rattle.pl_world.specs.Runs.{InEveryRun};
ghost use Rattle.pl_world.specs.WorldRule.{WorldStep};
ghost use Rattle.pl_world.specs.Worlds.{WorldView};
ghost use Rattle.pl_law_members.specs.Joined.{AreMembers, HaveJoined, HostsKeepTheirGroups};

use pl_host_rule::LawfulHost;
use pl_node::{HostLogic, ManagerLogic};

/// A host keeps a frame of a routed group only where it has joined the group.
pub fn hosts_keep_frames_of_their_groups_alone<H: LawfulHost>()
    ensures rule { HostsKeepTheirGroups host_rule }
    ensures core { HostsKeepTheirGroups H.rule }
{}

/// Each step keeps it that each host has joined what its own frames said, by the journal.
pub fn each_step_keeps_what_hosts_have_joined<M: ManagerLogic, H: HostLogic>()
    ensures { (old : WorldView) (event : Event) (new : WorldView) → IsCounted old → WorldStep Loose M.rule H.rule old event new →
        HaveJoined old → HaveJoined new }
{}

/// So it is in every run.
pub fn hosts_have_joined_what_their_frames_said_in_every_run<M: ManagerLogic, H: HostLogic>()
    ensures { InEveryRun Loose M.rule H.rule HaveJoined }
{}

/// And in every run a host that keeps a frame of a group is a member of it, by what its own frames said.
pub fn hosts_that_keep_a_frame_of_a_group_are_members_in_every_run<M: ManagerLogic, H: LawfulHost>()
    ensures { InEveryRun Loose M.rule H.rule (AreMembers H.rule) }
{}
