ghost use Rattle.std.specs.Prelude.{◌≡◌, All, List, None};
ghost use Rattle.pl_wiring.specs.Plan.{Plan};
ghost use Rattle.pl_journal.specs.Savable.{IsSavable};
ghost use Rattle.pl_world.specs.declared.event.Event.{Event};
ghost use Rattle.pl_world.specs.declared.limits.Limits.{Limits};
ghost use Rattle.pl_world.specs.Booting.{CanBegin, booted};
ghost use Rattle.pl_world.specs.Flying.{IsCounted};
ghost use Rattle.pl_world.specs.Refusals.{refusal};
ghost use Rattle.pl_world.specs.Runs.{Moment, WorldRun};
ghost use Rattle.pl_world.specs.WorldRule.{WorldStep};
ghost use Rattle.pl_world.specs.Worlds.{WorldView};

use pl_node::{HostLogic, ManagerLogic, SwitchLogic};

/// A step whose world has its frames in order writes only entries that can be saved: each host and each
/// switch that they name is one of the wiring, and a frame that is sent, made or that arrives is as long as a
/// frame may be.
pub fn each_step_writes_entries_that_can_be_saved<S: SwitchLogic, M: ManagerLogic, H: HostLogic>()
    ensures { (old : WorldView) (event : Event) (new : WorldView) → IsCounted old → refusal old event ≡ None →
        WorldStep S.rule M.rule H.rule old event new → All (IsSavable old.plan) old.journal → All (IsSavable old.plan) new.journal }
{}

/// So each entry of the journal of a run from the beginning can be saved, whatever the rules of switches,
/// manager and hosts are, as long as switches account for their frames and hosts send data frames.
pub fn every_entry_can_be_saved<S: SwitchLogic, M: ManagerLogic, H: HostLogic>()
    ensures { (plan : Plan) (limits : Limits) (moments : List Moment) (new : WorldView) → CanBegin plan →
        WorldRun S.rule M.rule H.rule (booted plan limits) moments new → All (IsSavable plan) new.journal }
{}

/// Through the whole run the wiring stays the one that it began with.
pub fn each_run_keeps_the_wiring<S: SwitchLogic, M: ManagerLogic, H: HostLogic>()
    ensures { (plan : Plan) (limits : Limits) (moments : List Moment) (new : WorldView) → CanBegin plan →
        WorldRun S.rule M.rule H.rule (booted plan limits) moments new → new.plan ≡ plan }
{}
