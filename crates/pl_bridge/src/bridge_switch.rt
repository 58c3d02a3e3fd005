ghost use Rattle.pl_bridge_rule.specs.BridgeRule.{Bridges};
ghost use Rattle.pl_bridge_rule.proofs.Exports.{accounts};

use crate::BridgeTable;
use crate::receiving::bridge;
use pl_bridge_rule::LearningBridge;
use pl_frame::SwitchId;
use pl_layouts::Place;
use pl_layouts::frames::is_control;
use pl_node::{
    AvoidList, Memory, Outbox, PortRecord, SwitchFacts, SwitchLogic, ToSwitch, TreePart,
};
use pl_switch_state::SwitchState;
use std::alloc::Global;

/// A learning bridge. What it knows besides its table is what a switch knows at boot.
#[derive(Drop)]
pub struct BridgeSwitch {
    booted: SwitchState,
    table: BridgeTable,
}

impl SwitchFacts for BridgeSwitch {
    ghost view = { λ bridge. record bridge.booted { members = bridge.table } };

    fn id(&self) -> SwitchId {
        self.booted.id()
    }

    fn k(&self) -> u8 {
        self.booted.k()
    }

    fn place(&self) -> Place {
        self.booted.place()
    }

    fn port(&self, port: u8) -> PortRecord {
        self.booted.port(port)
    }

    fn avoids(&self, neighbour: SwitchId, pod: u16, position: u8) -> bool {
        self.booted.avoids(neighbour, pod, position)
    }

    fn avoid_list(&self) -> &AvoidList {
        self.booted.avoid_list()
    }

    fn announces(&self, port: u8, frame: &[u8]) -> bool {
        self.booted.announces(port, frame)
    }

    fn attempt(&self) -> Option<(u32, u8)> {
        self.booted.attempt()
    }

    fn granted(&self, port: u8) -> bool {
        self.booted.granted(port)
    }

    fn hold(&self, position: u8) -> Option<(SwitchId, bool)> {
        self.booted.hold(position)
    }

    fn part(&self, group: u32) -> Option<&TreePart> {
        self.booted.part(group)
    }

    fn group(&self, n: usize) -> Option<u32> {
        self.booted.group(n)
    }

    fn epoch(&self) -> u32 {
        self.booted.epoch()
    }
}

impl LearningBridge for BridgeSwitch {
    ghost bridges = { λ old input new acts step. step };
}

impl SwitchLogic for BridgeSwitch {
    ghost rule = { Bridges };

    ghost accounts = { accounts };

    fn boot(alloc: Global, id: SwitchId, k: u8) -> Result<BridgeSwitch, Memory> {
        Ok(BridgeSwitch {
            booted: SwitchState::boot(alloc, id, k)?,
            table: BridgeTable::new(alloc),
        })
    }

    fn receive(&mut self, port: u8, frame: &[u8], out: &mut Outbox) -> Result<(), Memory> {
        if is_control(frame) {
            return Ok(());
        }
        let k = self.booted.k();
        bridge(&mut self.table, self.booted.alloc(), k, port, frame, out)
    }

    fn tick(&mut self, _out: &mut Outbox) -> Result<(), Memory> {
        Ok(())
    }

    fn manager_says(&mut self, _says: &ToSwitch, _out: &mut Outbox) -> Result<(), Memory> {
        Ok(())
    }
}
