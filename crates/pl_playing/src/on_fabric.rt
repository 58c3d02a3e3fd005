ghost use Rattle.std.specs.Prelude.{IfErr, IfOk};
ghost use Rattle.pl_inputs.specs.Loaded.{inputs_of};
ghost use Rattle.pl_playing.specs.Networks.{on_fabric, PlaysTo};
ghost use Rattle.pl_playing.specs.Plays.{IsPlayedTo, IsUnplayed, played_over};

use crate::played::play_script;
use pl_host_rule::LawfulHost;
use pl_inputs::{Capture, Inputs, Network, Status};
use pl_law_runs::{each_run_keeps_the_wiring, every_entry_can_be_saved};
use pl_law_theorem::lawful_logic_is_one_switch;
use pl_manager_rule::LawfulManager;
use pl_player::Player;
use pl_script_rule::{a_script_is_a_run, hosts_do_what_is_asked};
use pl_stage::Nobody;
use pl_switch_rule::LooseSwitch;
use std::alloc::Global;

/// Plays the script of what was read on a fabric. What came of it is a run of the fabric, so that it can be saved.
pub(crate) fn play_on_fabric<S: LooseSwitch, M: LawfulManager, H: LawfulHost>(
    alloc: Global,
    inputs: Inputs,
) -> Result<(Player<S, M, H, Nobody>, Vec<Capture>), Status>
    ensures ok { IfOk result (λ played. IsPlayedTo (on_fabric S.rule M.rule H.rule) (inputs_of inputs) (played_over played.0 played.1.items)) }
    ensures err { IfErr result (λ e. IsUnplayed (on_fabric S.rule M.rule H.rule).leads (inputs_of inputs) e) }
{
    a_script_is_a_run::<S, M, H>();
    hosts_do_what_is_asked::<S, M, H>();
    every_entry_can_be_saved::<S, M, H>();
    each_run_keeps_the_wiring::<S, M, H>();
    lawful_logic_is_one_switch::<S, M, H>();
    // The laws are of plans, and the wiring's is one.
    let _hosts = inputs.wiring.hosts();
    play_script(alloc, Network::Fabric, inputs)
}
