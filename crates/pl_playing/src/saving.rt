ghost use Rattle.std.specs.Prelude.{◌≡◌, [], All, IfOk, length, string_bytes};
ghost use Rattle.std.specs.List.{AllByRecursion};
ghost use Rattle.pl_inputs.specs.declared.status.Status.TheVariants.{Done};
ghost use Rattle.pl_inputs.specs.Loaded.{inputs_of};
ghost use Rattle.pl_journal.specs.Ranges.{Fits};
ghost use Rattle.pl_journal.specs.Savable.{IsSavable};
ghost use Rattle.pl_output.specs.Room.{HaveRoom};
ghost use Rattle.pl_output.specs.Texts.{AreTexts};
ghost use Rattle.pl_script.specs.ForBridges.{LineRepairsNoLink};
ghost use Rattle.pl_playing.specs.Networks.{on_bridges, on_fabric};
ghost use Rattle.pl_playing.specs.Outcomes.{Comes, EndsSaving, fits_of, texts_of};
ghost use Rattle.pl_playing.specs.Plays.{answer_of, played_over, summary_by, texts_by};
ghost use Rattle.pl_playing.specs.Prepared.{HasRoomFor, NamesNoFault};

use crate::on_bridges::play_on_bridges;
use crate::on_fabric::play_on_fabric;
use crate::played::{is_drained, is_settled, summary_of};
use pl_bridge_rule::LearningBridge;
use pl_frame::Memory;
use pl_host_rule::LawfulHost;
use pl_inputs::{Capture, Inputs, Status};
use pl_manager_rule::LawfulManager;
use pl_node::{HostLogic, ManagerLogic, SwitchLogic};
use pl_output::{Piece, Texts, save_all};
use pl_player::Player;
use pl_shelf::Shelf;
use pl_stage::Nobody;
use pl_switch_rule::LooseSwitch;
use std::alloc::Global;

/// Plays the script of what was read to its end on a fabric, and saves what came of it in this folder.
pub fn play_and_save<S: LooseSwitch, M: LawfulManager, H: LawfulHost, D: Shelf>(
    alloc: Global,
    out: &str,
    inputs: Inputs,
    shelf: &mut D,
) -> Result<(), Status>
    ensures comes { Comes (on_fabric S.rule M.rule H.rule)
        (D.moment shelf.old) (D.moment shelf.new)
        (inputs_of inputs) (fits_of (on_fabric S.rule M.rule H.rule) (inputs_of inputs))
        (texts_of (on_fabric S.rule M.rule H.rule) out.now (inputs_of inputs)) (answer_of result) }
    ensures prepared { HasRoomFor (on_fabric S.rule M.rule H.rule) (D.capacity shelf.old) (D.moment shelf.old).held (inputs_of inputs)
        (texts_of (on_fabric S.rule M.rule H.rule) out.now (inputs_of inputs)) → NamesNoFault (answer_of result) }
{
    let (fabric, captures) = play_on_fabric::<S, M, H>(alloc, inputs)?;
    let settled = is_settled(&fabric);
    save_played(alloc, out, &fabric, &captures, settled, shelf)
}

/// The same on learning bridges, which are settled where no queue has items.
pub fn bridge_and_save<S: LearningBridge, M: ManagerLogic, H: HostLogic, D: Shelf>(
    alloc: Global,
    out: &str,
    inputs: Inputs,
    shelf: &mut D,
) -> Result<(), Status>
    requires { AllByRecursion LineRepairsNoLink (inputs_of inputs).lines }
    ensures comes { Comes (on_bridges S.rule M.rule H.rule)
        (D.moment shelf.old) (D.moment shelf.new)
        (inputs_of inputs) (fits_of (on_bridges S.rule M.rule H.rule) (inputs_of inputs))
        (texts_of (on_bridges S.rule M.rule H.rule) out.now (inputs_of inputs)) (answer_of result) }
    ensures prepared { HasRoomFor (on_bridges S.rule M.rule H.rule) (D.capacity shelf.old) (D.moment shelf.old).held (inputs_of inputs)
        (texts_of (on_bridges S.rule M.rule H.rule) out.now (inputs_of inputs)) → NamesNoFault (answer_of result) }
{
    let (bridges, captures) = play_on_bridges::<S, M, H>(alloc, inputs)?;
    let settled = is_drained(&bridges);
    save_played(alloc, out, &bridges, &captures, settled, shelf)
}

// Saves what came of a script that was played; `is_settled` says whether the network is settled now.
fn save_played<S: SwitchLogic, M: ManagerLogic, H: HostLogic, D: Shelf>(
    alloc: Global,
    out: &str,
    network: &Player<S, M, H, Nobody>,
    captures: &[Capture],
    is_settled: bool,
    shelf: &mut D,
) -> Result<(), Status>
    requires savable { All (IsSavable network.now.world.plan) network.now.world.journal }
    requires many { length captures.now ≡ length network.now.world.plan.hosts }
    ensures ends { EndsSaving
        (D.moment shelf.old) (D.moment shelf.new)
        (texts_by out.now (played_over network.now captures.now) is_settled) (answer_of result) }
    ensures fits { answer_of result ≡ Done → All Fits network.now.world.journal }
    ensures prepared { HaveRoom (D.capacity shelf.old) (D.moment shelf.old).held (texts_by out.now (played_over network.now captures.now) is_settled) →
        NamesNoFault (answer_of result) }
{
    let world = network.world();
    let texts = texts_of(alloc, out, network, captures, is_settled)?;
    match save_all(shelf, world.wiring(), world.journal(), texts) {
        Ok(()) => Ok(()),
        Err(name) => Err(Status::WriteFault(name)),
    }
}

// All that is saved of a run, with its names.
fn texts_of<S: SwitchLogic, M: ManagerLogic, H: HostLogic>(
    alloc: Global,
    out: &str,
    network: &Player<S, M, H, Nobody>,
    captures: &[Capture],
    is_settled: bool,
) -> Result<Texts, Memory>
    requires { length captures.now ≡ length network.now.world.plan.hosts }
    ensures are { IfOk result (λ texts. AreTexts out.now network.now.world.plan network.now.world.journal texts) }
    ensures summary { IfOk result (λ texts. string_bytes texts.summary ≡ summary_by (played_over network.now captures.now) is_settled) }
{
    let world = network.world();
    let summary = summary_of(alloc, network, captures, is_settled)?;
    let piece = Piece::new(alloc)?;
    Texts::new(alloc, out, world.wiring(), world.journal(), summary, piece)
}
