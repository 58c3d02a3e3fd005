ghost use Rattle.std.specs.Prelude.{◌≡◌, ◌++◌, Some, slice_get};
ghost use Rattle.pl_node.specs.SwitchViews.{SwitchView};
ghost use Rattle.pl_switch_rule.specs.CauseOf.{cause_of, cause_of_made};
ghost use Rattle.pl_world.specs.declared.event.Event.{Event};
ghost use Rattle.pl_world.specs.Drops.{Coming, coming, drops_in, made_in, written};
ghost use Rattle.pl_world.specs.Flying.{IsCounted};
ghost use Rattle.pl_world.specs.WorldRule.{WorldStep};
ghost use Rattle.pl_world.specs.Worlds.{WorldView};
ghost use Rattle.pl_law_runs.specs.NamedDrops.{all_for, by_rule, one_or_none};

use pl_node::{HostLogic, ManagerLogic};
use pl_switch_rule::LooseSwitch;

/// Where something comes at a switch, the step drops just these frames, but for those on failed links: the one
/// that came, for the first cause that holds by what the switch knew, if one does, and the one that the switch
/// makes, for its own.
pub fn a_switch_drops_frames_for_the_first_cause<S: LooseSwitch, M: ManagerLogic, H: HostLogic>()
    ensures { (old : WorldView) (happens : Event) (new : WorldView) (c : Coming) (v : SwitchView) → IsCounted old →
        WorldStep S.rule M.rule H.rule old happens new → coming old happens ≡ Some c → slice_get old.switches c.switch ≡ Some v →
        by_rule (drops_in (written old new)) ≡
        all_for (one_or_none c.frame) (cause_of v c.input) ++ all_for (made_in (written old new)) (cause_of_made v c.input) }
{}
