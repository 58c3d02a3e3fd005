ghost use Rattle.std.specs.Prelude.{◌≡◌, length};
ghost use Rattle.pl_inputs.specs.Loaded.{inputs_of};
ghost use Rattle.pl_output.specs.Room.{HaveRoom};
ghost use Rattle.pl_playing.specs.Networks.{on_fabric};
ghost use Rattle.pl_playing.specs.Outcomes.{Comes, EndsSaving, nothing_of, printed_of};
ghost use Rattle.pl_playing.specs.Plays.{answer_of, played_over, printed_by};
ghost use Rattle.pl_playing.specs.Prepared.{HasRoomFor, NamesNoFault};

use crate::on_fabric::play_on_fabric;
use crate::played::{is_settled, summary_of};
use pl_host_rule::LawfulHost;
use pl_inputs::{Capture, Inputs, Status};
use pl_manager_rule::LawfulManager;
use pl_node::{HostLogic, ManagerLogic, SwitchLogic};
use pl_output::print;
use pl_player::Player;
use pl_shelf::Shelf;
use pl_stage::Nobody;
use pl_switch_rule::LooseSwitch;
use pl_wiring::Name;
use std::alloc::Global;

/// Plays the script of what was read to its end on a fabric, and prints the summary of what came of it.
pub fn play_and_print<S: LooseSwitch, M: LawfulManager, H: LawfulHost, D: Shelf>(
    alloc: Global,
    inputs: Inputs,
    shelf: &mut D,
) -> Result<(), Status>
    ensures comes { Comes (on_fabric S.rule M.rule H.rule)
        (D.moment shelf.old) (D.moment shelf.new)
        (inputs_of inputs) (nothing_of (on_fabric S.rule M.rule H.rule) (inputs_of inputs))
        (printed_of (on_fabric S.rule M.rule H.rule) (inputs_of inputs)) (answer_of result) }
    ensures prepared { HasRoomFor (on_fabric S.rule M.rule H.rule) (D.capacity shelf.old) (D.moment shelf.old).held (inputs_of inputs)
        (printed_of (on_fabric S.rule M.rule H.rule) (inputs_of inputs)) → NamesNoFault (answer_of result) }
{
    let (fabric, captures) = play_on_fabric::<S, M, H>(alloc, inputs)?;
    let settled = is_settled(&fabric);
    print_played(alloc, &fabric, &captures, settled, shelf)
}

// Prints the summary of a script that was played; `is_settled` says whether the network is settled now.
fn print_played<S: SwitchLogic, M: ManagerLogic, H: HostLogic, D: Shelf>(
    alloc: Global,
    network: &Player<S, M, H, Nobody>,
    captures: &[Capture],
    is_settled: bool,
    shelf: &mut D,
) -> Result<(), Status>
    requires { length captures.now ≡ length network.now.world.plan.hosts }
    ensures ends { EndsSaving
        (D.moment shelf.old) (D.moment shelf.new)
        (printed_by (played_over network.now captures.now) is_settled) (answer_of result) }
    ensures prepared { HaveRoom (D.capacity shelf.old) (D.moment shelf.old).held (printed_by (played_over network.now captures.now) is_settled) →
        NamesNoFault (answer_of result) }
{
    let summary = summary_of(alloc, network, captures, is_settled)?;
    let output = Name::copy(alloc, "-")?;
    match print(shelf, output, &summary) {
        Ok(()) => Ok(()),
        Err(name) => Err(Status::WriteFault(name)),
    }
}
