ghost use Rattle.std.specs.Prelude.{◌≡◌, IfOk, IfErr, Ok};
ghost use Rattle.pl_shelf.specs.Held.{Same};
ghost use Rattle.pl_topology.specs.Meaning.{topology_of};
ghost use Rattle.pl_script.specs.Reading.{LineGives};
ghost use Rattle.pl_inputs.specs.Inputs.{HasLines, HasPlan, IsLoaded, journal_limit, script_for};
ghost use Rattle.pl_inputs.specs.Refusals.{IsRefusedPlan, IsRefusedScript};
ghost use Rattle.pl_inputs.specs.Loads.{IsUnloaded, IsUnplanned, IsUnpromised, IsUnscripted, Reads};

use crate::loading::named::load_named;
use crate::status::Status;
use crate::words::Network;
use pl_script::{Script, ScriptError, read_for_bridges};
use pl_shelf::{Bytes, Shelf};
use pl_topology::TopologyError;
use pl_wiring::{Name, Wiring};
use std::alloc::Global;

const TEXT_LIMIT: u64 = 16 << 20;

const JOURNAL_LIMIT: u64 = 1 << 30;

/// Reads the topology's file of this name, at most 16 MiB. Nothing that is held changes.
///
/// `ReadFault` and `TooLong` name the file, and `BadTopology` has the first thing that is wrong with it.
pub fn load_wiring<S: Shelf>(alloc: Global, shelf: &mut S, name: &str) -> Result<Wiring, Status>
    ensures ok { IfOk result (λ wiring. HasPlan (S.moment shelf.old).held name.now wiring) }
    ensures err { IfErr result (λ e. IsUnplanned (S.moment shelf.old).held name.now e) }
    ensures same { Same (S.moment shelf.old).held (S.moment shelf.new).held }
    ensures reads { Reads result (S.moment shelf.old).read_faults (S.moment shelf.new).read_faults }
    ensures writes { (S.moment shelf.new).write_faults ≡ (S.moment shelf.old).write_faults }
    ensures capacity { S.capacity shelf.new ≡ S.capacity shelf.old }
    ensures unpromised { IfErr result (λ e. IsUnpromised (S.capacity shelf.new) (S.moment shelf.new).held e) }
{
    let name = Name::copy(alloc, name)?;
    let file = load_named(alloc, shelf, name, TEXT_LIMIT)?;
    wiring_in(alloc, file.bytes())
}

/// Reads the saved journal's file of this name, at most 1 GiB. Nothing that is held changes.
///
/// `ReadFault` and `TooLong` name the file.
pub fn load_journal<S: Shelf>(alloc: Global, shelf: &mut S, name: &str) -> Result<Bytes, Status>
    ensures ok { IfOk result (λ file. IsLoaded (S.moment shelf.old).held name.now journal_limit file) }
    ensures err { IfErr result (λ e. IsUnloaded (S.moment shelf.old).held name.now journal_limit e) }
    ensures same { Same (S.moment shelf.old).held (S.moment shelf.new).held }
    ensures reads { Reads result (S.moment shelf.old).read_faults (S.moment shelf.new).read_faults }
    ensures writes { (S.moment shelf.new).write_faults ≡ (S.moment shelf.old).write_faults }
    ensures capacity { S.capacity shelf.new ≡ S.capacity shelf.old }
    ensures unpromised { IfErr result (λ e. IsUnpromised (S.capacity shelf.new) (S.moment shelf.new).held e) }
{
    let name = Name::copy(alloc, name)?;
    load_named(alloc, shelf, name, JOURNAL_LIMIT)
}

/// The lines of a script's file, for the network that it is played on.
pub(crate) fn load_script<S: Shelf>(
    alloc: Global,
    shelf: &mut S,
    network: Network,
    name: &str,
    wiring: &Wiring,
) -> Result<Script, Status>
    ensures ok { IfOk result (λ script. HasLines (S.moment shelf.old).held network name.now wiring.now script) }
    ensures err { IfErr result (λ e. IsUnscripted (S.moment shelf.old).held network name.now wiring.now e) }
    ensures same { Same (S.moment shelf.old).held (S.moment shelf.new).held }
    ensures reads { Reads result (S.moment shelf.old).read_faults (S.moment shelf.new).read_faults }
    ensures writes { (S.moment shelf.new).write_faults ≡ (S.moment shelf.old).write_faults }
    ensures capacity { S.capacity shelf.new ≡ S.capacity shelf.old }
    ensures unpromised { IfErr result (λ e. IsUnpromised (S.capacity shelf.new) (S.moment shelf.new).held e) }
{
    let name = Name::copy(alloc, name)?;
    let file = load_named(alloc, shelf, name, TEXT_LIMIT)?;
    script_in(alloc, network, file.bytes(), wiring)
}

fn wiring_in(alloc: Global, file: &[u8]) -> Result<Wiring, Status>
    ensures ok { IfOk result (λ wiring. topology_of file.now ≡ Ok wiring) }
    ensures err { IfErr result (λ e. IsRefusedPlan file.now e) }
{
    match pl_topology::read(alloc, file) {
        Ok(wiring) => Ok(wiring),
        Err(TopologyError::Memory) => Err(Status::OutOfMemory),
        Err(e) => Err(Status::BadTopology(e)),
    }
}

fn script_in(
    alloc: Global,
    network: Network,
    file: &[u8],
    wiring: &Wiring,
) -> Result<Script, Status>
    ensures ok { IfOk result (λ script. script_for network wiring.now file.now ≡ Ok script) }
    ensures err { IfErr result (λ e. IsRefusedScript network wiring.now file.now e) }
{
    match read_for(alloc, network, file, wiring) {
        Ok(script) => Ok(script),
        Err(ScriptError::Line(n, reason)) => Err(Status::BadScript(n, reason)),
        Err(ScriptError::Memory) => Err(Status::OutOfMemory),
    }
}

fn read_for(
    alloc: Global,
    network: Network,
    file: &[u8],
    wiring: &Wiring,
) -> Result<Script, ScriptError>
    ensures exact { LineGives result (script_for network wiring.now file.now) }
{
    match network {
        Network::Fabric => pl_script::read(alloc, file, wiring),
        Network::Bridges => read_for_bridges(alloc, file, wiring),
    }
}
