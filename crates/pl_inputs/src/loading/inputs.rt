ghost use Rattle.std.specs.Prelude.{◌≡◌, length};

use crate::capture::Capture;
use pl_script::Script;
use pl_wiring::Wiring;

/// What a run has read. The captures stand in the order of the hosts.
#[derive(Debug, Drop)]
pub struct Inputs {
    pub wiring: Wiring,
    pub script: Script,
    pub captures: Vec<Capture>,
    ghost many: { length captures.items ≡ length wiring.hosts },
}
