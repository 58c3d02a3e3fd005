ghost use Rattle.std.specs.Prelude.{◌≡◌};
ghost use Rattle.std.specs.List.{AllByRecursion};
ghost use Rattle.pl_inputs.specs.Loaded.{inputs_of};
ghost use Rattle.pl_inputs.specs.Met.{asked};
ghost use Rattle.pl_playing.specs.Plays.{answer_of};
ghost use Rattle.pl_playing.specs.Prepared.{NamesNoFault};
ghost use Rattle.pl_script.specs.ForBridges.{LineRepairsNoLink};
ghost use Rattle.pl_run.specs.Answers.{Answers};
ghost use Rattle.pl_run.specs.Fabric.{Comes, HasRoomFor, fits_of, texts_of};
ghost use Rattle.pl_run.specs.Prepared.{IsPreparedRun};

use pl_bridge::{BridgeSwitch, QuietManager};
use pl_host::Host;
use pl_inputs::{Files, Inputs, Network, Status, load_inputs};
use pl_manager::Manager;
use pl_playing::{bridge_and_save, play_and_save};
use pl_shelf::Shelf;
use pl_tables::TableSwitch;
use std::alloc::Global;

/// Reads what the words name, plays the script to its end, and saves what came of it.
pub(crate) fn run<S: Shelf>(alloc: Global, files: &Files<'_>, shelf: &mut S) -> Result<(), Status>
    ensures answers { Answers
        (S.moment shelf.old) (S.moment shelf.new)
        (asked files.now) (answer_of result) }
    ensures prepared { IsPreparedRun (S.capacity shelf.old) (S.moment shelf.old).held (asked files.now) → NamesNoFault (answer_of result) }
{
    let inputs = load_inputs(alloc, shelf, files)?;
    play_on(alloc, files.network, files.out, inputs, shelf)
}

// Plays the script of what was read on this network, and saves what came of it.
fn play_on<S: Shelf>(
    alloc: Global,
    network: Network,
    out: &str,
    inputs: Inputs,
    shelf: &mut S,
) -> Result<(), Status>
    requires { network ≡ Network.Bridges → AllByRecursion LineRepairsNoLink (inputs_of inputs).lines }
    ensures comes { Comes network
        (S.moment shelf.old) (S.moment shelf.new)
        (inputs_of inputs) (fits_of network (inputs_of inputs)) (texts_of network out.now (inputs_of inputs)) (answer_of result) }
    ensures prepared { HasRoomFor network (S.capacity shelf.old) (S.moment shelf.old).held (inputs_of inputs) (texts_of network out.now (inputs_of inputs)) →
        NamesNoFault (answer_of result) }
{
    match network {
        Network::Fabric => play_and_save::<TableSwitch, Manager, Host, S>(
            alloc, out, inputs, shelf,
        ),
        Network::Bridges => bridge_and_save::<BridgeSwitch, QuietManager, Host, S>(
            alloc, out, inputs, shelf,
        ),
    }
}
