ghost use Rattle.std.specs.Prelude.{◌≡◌};
ghost use Rattle.pl_world.specs.declared.error.StepError.TheVariants.{Memory as Wanting};
ghost use Rattle.pl_script_rule.specs.declared.stop.Stop.TheVariants.{Refused};

use pl_frame::Memory;
use pl_world::StepError;

/// Why a line of a script was not done to its end.
#[derive(Clone, Copy, Debug, PartialEq, Eq)]
pub enum Stop {
    /// A step of it was refused, or it asked for a record past a host's last.
    Refused(StepError),
    /// What it expects is not so.
    ExpectFailed,
}

impl From<StepError> for Stop {
    ghost from_gives = { λ e stop. stop ≡ Refused e };

    fn from(e: StepError) -> Stop {
        Stop::Refused(e)
    }
}

impl From<Memory> for Stop {
    ghost from_gives = { λ _ stop. stop ≡ Refused Wanting };

    fn from(_e: Memory) -> Stop {
        Stop::Refused(StepError::Memory)
    }
}
