ghost use Rattle.pl_world.specs.Runs.{InEveryRun};
ghost use Rattle.pl_law_ledger.specs.Ledgers.{WhereNumbersSuffice};
ghost use Rattle.pl_law_theorem.specs.OneSwitch.{IsOneSwitch, SureFramesArrive};

use crate::invariant::lawful_logic_keeps_the_invariant;
use pl_host_rule::LawfulHost;
use pl_law_arrival::{a_sure_frame_has_no_other_end, a_sure_frame_that_ends_has_arrived};
use pl_law_invariant::lawful_logic_grants_no_address_while_anything_stands_for_it;
use pl_law_runs::{a_switch_drops_frames_for_the_first_cause, each_run_keeps_the_wiring};
use pl_manager_rule::LawfulManager;
use pl_switch_rule::LooseSwitch;

/// In each run of lawful logic each frame that was sure until it ended has arrived, and has no other end.
pub fn sure_frames_arrive<S: LooseSwitch, M: LawfulManager, H: LawfulHost>()
    ensures { InEveryRun S.rule M.rule H.rule (SureFramesArrive S.rule M.rule H.rule) }
{
    a_sure_frame_that_ends_has_arrived::<S, M, H>();
    a_sure_frame_has_no_other_end::<S, M, H>();
    each_run_keeps_the_wiring::<S, M, H>();
}

/// Whatever the wiring, the events and the ports that switches choose among their candidates, and however often the
/// fabric manager begins anew: at each moment of each run from the beginning a fabric of lawful logic is one lossy
/// switch, as long as no more steps are made than the manager has numbers for addresses.
pub fn lawful_logic_is_one_switch<S: LooseSwitch, M: LawfulManager, H: LawfulHost>()
    ensures { InEveryRun S.rule M.rule H.rule (WhereNumbersSuffice (IsOneSwitch S.rule M.rule H.rule)) }
{
    lawful_logic_keeps_the_invariant::<S, M, H>();
    sure_frames_arrive::<S, M, H>();
    lawful_logic_grants_no_address_while_anything_stands_for_it::<S, M, H>();
    a_switch_drops_frames_for_the_first_cause::<S, M, H>();
    each_run_keeps_the_wiring::<S, M, H>();
}
