ghost use Rattle.std.specs.Prelude.{◌≡◌, IfOk, IfErr};
ghost use Rattle.pl_shelf.specs.Held.{Same};
ghost use Rattle.pl_inputs.specs.Inputs.{AreRead};
ghost use Rattle.pl_inputs.specs.Loaded.{inputs_of};
ghost use Rattle.pl_inputs.specs.Loads.{IsUnpromised, Reads};
ghost use Rattle.pl_inputs.specs.Met.{asked};
ghost use Rattle.pl_inputs.specs.Unread.{IsUnread};

use crate::status::Status;
use crate::words::Files;
use captures::load_captures;
pub use inputs::Inputs;
use pl_shelf::Shelf;
use std::alloc::Global;
use texts::load_script;
pub use texts::{load_journal, load_wiring};

mod captures;
mod inputs;
mod named;
mod reader;
mod texts;
mod walk;

/// Reads the topology, then the script, and then the capture of each host that names one.
pub fn load_inputs<S: Shelf>(
    alloc: Global,
    shelf: &mut S,
    files: &Files<'_>,
) -> Result<Inputs, Status>
    ensures ok { IfOk result (λ i. AreRead (S.moment shelf.old).held (asked files.now) (inputs_of i)) }
    ensures err { IfErr result (λ e. IsUnread (S.moment shelf.old).held (asked files.now) e) }
    ensures same { Same (S.moment shelf.old).held (S.moment shelf.new).held }
    ensures reads { Reads result (S.moment shelf.old).read_faults (S.moment shelf.new).read_faults }
    ensures writes { (S.moment shelf.new).write_faults ≡ (S.moment shelf.old).write_faults }
    ensures capacity { S.capacity shelf.new ≡ S.capacity shelf.old }
    ensures unpromised { IfErr result (λ e. IsUnpromised (S.capacity shelf.new) (S.moment shelf.new).held e) }
{
    let wiring = load_wiring(alloc, shelf, files.topology)?;
    let script = load_script(alloc, shelf, files.network, files.script, &wiring)?;
    let captures = load_captures(alloc, shelf, files.captures, &wiring)?;
    Ok(Inputs {
        wiring,
        script,
        captures,
    })
}
