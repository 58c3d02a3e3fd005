ghost use Rattle.std.specs.Prelude.{◌≡◌, Some};
ghost use Rattle.pl_inputs.specs.Status.{step_reason_text};

use std::fmt;

/// Why a step was refused.
#[derive(Clone, Copy, Debug, PartialEq, Eq)]
pub enum StepReason {
    /// There is no such queue, no such link, or no such port for hosts.
    NoSuch,
    /// Another host stands there.
    Occupied,
    /// The link is failed already, or live already, or the host stands there already.
    AlreadySo,
    /// The queue is empty, or the host has no further record.
    NothingThere,
}

/// The name of the variant.
impl fmt::Display for StepReason {
    ghost output = { λ reason. Some (step_reason_text reason) };

    fn fmt<W: fmt::Write>(&self, f: &mut fmt::Formatter<W>) -> fmt::Result {
        match self {
            StepReason::NoSuch => write!(f, "NoSuch"),
            StepReason::Occupied => write!(f, "Occupied"),
            StepReason::AlreadySo => write!(f, "AlreadySo"),
            StepReason::NothingThere => write!(f, "NothingThere"),
        }
    }
}
