ghost use Rattle.pl_switch_rule.proofs.Exports.{exact_is_loose, exact_steps_are_accounted};
ghost use Rattle.pl_switch_rule.specs.SwitchRule.{Exact};

use crate::ReferenceSwitch;
use pl_data_rows::{comes, hear_manager};
use pl_frame::SwitchId;
use pl_node::{Memory, Outbox, SwitchLogic, ToSwitch};
use pl_switch_rule::{LawfulSwitch, LooseSwitch};
use pl_switch_state::SwitchState;
use std::alloc::Global;

impl LawfulSwitch for ReferenceSwitch {
    ghost lawful = { (λ old input new acts step. step, λ old input new acts step. step) };
}

impl LooseSwitch for ReferenceSwitch {
    ghost obeys = { exact_is_loose };
}

impl SwitchLogic for ReferenceSwitch {
    ghost rule = { Exact };

    ghost accounts = { exact_steps_are_accounted };

    fn boot(alloc: Global, id: SwitchId, k: u8) -> Result<ReferenceSwitch, Memory> {
        Ok(ReferenceSwitch {
            state: SwitchState::boot(alloc, id, k)?,
        })
    }

    fn receive(&mut self, port: u8, frame: &[u8], out: &mut Outbox) -> Result<(), Memory> {
        comes(self, port, frame, out)
    }

    fn tick(&mut self, out: &mut Outbox) -> Result<(), Memory> {
        self.state.tick(out)
    }

    fn manager_says(&mut self, says: &ToSwitch, out: &mut Outbox) -> Result<(), Memory> {
        hear_manager(self, says, out)
    }
}
