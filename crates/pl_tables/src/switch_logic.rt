ghost use Rattle.pl_switch_rule.proofs.Exports.{exact_is_loose, exact_steps_are_accounted};
ghost use Rattle.pl_switch_rule.specs.SwitchRule.{Exact};

use crate::keeping::keep_up;
use crate::lead::no_leads;
use crate::{PrefixTables, TableSwitch};
use pl_data_rows::{comes, hear_manager};
use pl_frame::SwitchId;
use pl_node::{Memory, Outbox, SwitchLogic, ToSwitch};
use pl_switch_rule::{LawfulSwitch, LooseSwitch};
use pl_switch_state::SwitchState;
use std::alloc::Global;

impl LawfulSwitch for TableSwitch {
    ghost lawful = { (λ old input new acts step. step, λ old input new acts step. step) };
}

impl LooseSwitch for TableSwitch {
    ghost obeys = { exact_is_loose };
}

impl SwitchLogic for TableSwitch {
    ghost rule = { Exact };

    ghost accounts = { exact_steps_are_accounted };

    fn boot(alloc: Global, id: SwitchId, k: u8) -> Result<TableSwitch, Memory> {
        Ok(TableSwitch {
            state: SwitchState::boot(alloc, id, k)?,
            leads: no_leads(),
            tables: PrefixTables::empty(alloc),
        })
    }

    fn receive(&mut self, port: u8, frame: &[u8], out: &mut Outbox) -> Result<(), Memory> {
        comes(self, port, frame, out)
    }

    fn tick(&mut self, out: &mut Outbox) -> Result<(), Memory> {
        let done = self.state.tick(out);
        keep_up(done, &mut self.state, &mut self.leads, &mut self.tables)
    }

    fn manager_says(&mut self, says: &ToSwitch, out: &mut Outbox) -> Result<(), Memory> {
        hear_manager(self, says, out)
    }
}
