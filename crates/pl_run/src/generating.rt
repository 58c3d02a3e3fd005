ghost use Rattle.std.specs.Prelude.{◌≡◌, IfErr, IfOk};
ghost use Rattle.pl_inputs.specs.Loaded.{inputs_of};
ghost use Rattle.pl_inputs.specs.Met.{MayBeMade, asked};
ghost use Rattle.pl_playing.specs.Plays.{answer_of};
ghost use Rattle.pl_playing.specs.Prepared.{NamesNoFault};
ghost use Rattle.pl_run.specs.Generated.{AnswersGenerated, IsUngenerated, ReadsGenerated, generated_files, without_read_fault};
ghost use Rattle.pl_run.specs.Prepared.{IsPreparedGenerated};

use pl_generator::generate;
use pl_host::Host;
use pl_inputs::{Files, Generation, Inputs, Network, Status, load_inputs};
use pl_manager::Manager;
use pl_playing::play_and_print;
use pl_shelf::Shelf;
use pl_tables::TableSwitch;
use std::alloc::Global;

// The files of a generated run by their names; nothing is saved of it.
fn generated_files() -> Files<'static>
    ensures { asked result ≡ generated_files }
{
    Files {
        network: Network::Fabric,
        topology: "topology.toml",
        script: "script",
        captures: "captures",
        out: "",
    }
}

/// Makes a topology, a script and captures, plays them as a run does, and prints the summary.
pub(crate) fn generate_and_run<S: Shelf>(
    alloc: Global,
    generation: Generation,
    shelf: &mut S,
) -> Result<(), Status>
    requires { MayBeMade generation }
    ensures answers { AnswersGenerated
        (S.moment shelf.old) (S.moment shelf.new)
        generation.k generation.number generation.frames (answer_of result) }
    ensures prepared { IsPreparedGenerated (S.capacity shelf.old) (S.moment shelf.old).held generation → NamesNoFault (answer_of result) }
{
    let inputs = generated_inputs(alloc, generation)?;
    play_and_print::<TableSwitch, Manager, Host, S>(alloc, inputs, shelf)
}

// What is read of the generated files.
fn generated_inputs(alloc: Global, generation: Generation) -> Result<Inputs, Status>
    requires { MayBeMade generation }
    ensures ok { IfOk result (λ i. ReadsGenerated generation (inputs_of i)) }
    ensures err { IfErr result (λ e. IsUngenerated generation e) }
{
    let mut files = generate(alloc, generation.k, generation.number, generation.frames)?;
    match load_inputs(alloc, &mut files, &generated_files()) {
        Ok(inputs) => Ok(inputs),
        Err(status) => Err(without_read_fault(status)),
    }
}

fn without_read_fault(status: Status) -> Status
    ensures { result ≡ without_read_fault status }
{
    match status {
        Status::ReadFault(_) => Status::OutOfMemory,
        other => other,
    }
}
