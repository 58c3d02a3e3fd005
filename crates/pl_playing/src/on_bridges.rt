ghost use Rattle.std.specs.Prelude.{IfErr, IfOk};
ghost use Rattle.std.specs.List.{AllByRecursion};
ghost use Rattle.pl_inputs.specs.Loaded.{inputs_of};
ghost use Rattle.pl_script.specs.ForBridges.{LineRepairsNoLink};
ghost use Rattle.pl_playing.specs.Networks.{on_bridges};
ghost use Rattle.pl_playing.specs.Plays.{IsPlayedTo, IsUnplayed, played_over};

use crate::played::play_script;
use pl_bridge_rule::LearningBridge;
use pl_inputs::{Capture, Inputs, Network, Status};
use pl_law_bridge::{
    a_frame_goes_the_way_that_is_learnt, a_line_of_crossings_is_a_path_of_the_tree,
    frames_arrive_as_they_were_sent, no_switch_is_crossed_twice, one_copy_arrives_at_each_port,
    one_copy_goes_out_of_each_port, the_first_world_keeps_to_the_tree,
};
use pl_law_runs::{each_run_keeps_the_wiring, every_entry_can_be_saved};
use pl_node::{HostLogic, ManagerLogic};
use pl_player::Player;
use pl_script_rule::{
    a_script_on_the_tree_is_a_run, a_script_on_the_tree_keeps_to_it,
    hosts_on_the_tree_do_what_is_asked,
};
use pl_stage::Nobody;
use std::alloc::Global;

/// Plays the script of what was read on learning bridges. What came of it is a run of them, so that it can be saved.
pub(crate) fn play_on_bridges<S: LearningBridge, M: ManagerLogic, H: HostLogic>(
    alloc: Global,
    inputs: Inputs,
) -> Result<(Player<S, M, H, Nobody>, Vec<Capture>), Status>
    requires { AllByRecursion LineRepairsNoLink (inputs_of inputs).lines }
    ensures ok { IfOk result (λ played. IsPlayedTo (on_bridges S.rule M.rule H.rule) (inputs_of inputs) (played_over played.0 played.1.items)) }
    ensures err { IfErr result (λ e. IsUnplayed (on_bridges S.rule M.rule H.rule).leads (inputs_of inputs) e) }
{
    a_script_on_the_tree_is_a_run::<S, M, H>();
    hosts_on_the_tree_do_what_is_asked::<S, M, H>();
    a_script_on_the_tree_keeps_to_it::<S, M, H>();
    every_entry_can_be_saved::<S, M, H>();
    each_run_keeps_the_wiring::<S, M, H>();
    no_switch_is_crossed_twice();
    a_line_of_crossings_is_a_path_of_the_tree();
    one_copy_arrives_at_each_port();
    frames_arrive_as_they_were_sent();
    a_frame_goes_the_way_that_is_learnt::<M, H>();
    one_copy_goes_out_of_each_port::<M, H>();
    the_first_world_keeps_to_the_tree();
    // The laws are of plans, and the wiring's is one.
    let _hosts = inputs.wiring.hosts();
    play_script(alloc, Network::Bridges, inputs)
}
