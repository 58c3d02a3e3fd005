ghost use Rattle.std.specs.Prelude.{◌≡◌, OnOk};
ghost use Rattle.pl_node.specs.ManagerFacts.{switch_count};
ghost use Rattle.pl_node.specs.SwitchFacts.{IsTreeSize};
ghost use Rattle.pl_manager_rule.specs.WholeRule.{whole_rule};
ghost use Rattle.pl_manager_rule.proofs.Exports.{whole_answers};
ghost use Rattle.pl_gathering.specs.Gathering.{restarted};
ghost use Rattle.pl_manager.specs.Manager.{is_its_rule, manager_view, nothing_known};

use crate::gathering::{end_report, hear_word};
use crate::known::Known;
use crate::manager::Manager;
use pl_frame::{Ip4, Mac, SwitchId};
use pl_gatherer::Gatherer;
use pl_manager_rule::LawfulManager;
use pl_node::{AvoidList, ManagerLogic, ManagerOutbox, Memory, Place, ToManager, TreePart};
use pl_pmac::Pmac;
use std::alloc::Global;

impl LawfulManager for Manager {
    ghost lawful = { is_its_rule };
}

impl ManagerLogic for Manager {
    ghost view = { manager_view };

    ghost rule = { whole_rule };

    ghost answers = { whole_answers };

    fn boot(alloc: Global, k: u8) -> Result<Manager, Memory> {
        let known = Known::new(alloc, k, 0)?;
        Ok(Manager {
            known,
            gatherer: Gatherer::new(alloc, switches_of(k)),
        })
    }

    fn restart(&mut self, alloc: Global, epoch: u32) -> Result<(), Memory> {
        begin_anew(&mut self.known, &mut self.gatherer, alloc, epoch)
    }

    fn hears(
        &mut self,
        switch: SwitchId,
        says: &ToManager,
        out: &mut ManagerOutbox,
    ) -> Result<(), Memory> {
        match *says {
            ToManager::Begin(epoch) => self.gatherer.begin(switch, epoch),
            ToManager::End(epoch) => end_report(
                &mut self.known,
                &mut self.gatherer,
                switch,
                epoch,
                out,
            ),
            _ => hear_word(&mut self.known, &mut self.gatherer, switch, says, out),
        }
    }

    fn epoch(&self) -> u32 {
        self.gatherer.epoch()
    }

    fn reported(&self) -> usize {
        self.gatherer.reported()
    }

    fn lookup(&self, ip: Ip4) -> Option<Pmac> {
        self.known.registry.lookup(ip)
    }

    fn newest(&self, amac: Mac) -> Option<(Pmac, u64)> {
        self.known.registry.newest(amac)
    }

    fn place_of(&self, switch: SwitchId) -> Place {
        self.known.routing.reports().place_of(switch)
    }

    fn told(&self, switch: SwitchId, neighbour: SwitchId) -> bool {
        self.known.routing.reports().told(switch, neighbour)
    }

    fn avoid_list(&self, switch: SwitchId) -> &AvoidList {
        self.known.routing.avoid_list(switch)
    }

    fn group(&self, n: usize) -> Option<u32> {
        self.known.routing.group(n)
    }

    fn part_is(&self, switch: SwitchId, group: u32, part: Option<&TreePart>) -> bool {
        self.known.routing.part_is(switch, group, part)
    }
}

// So many switches a tree has.
fn switches_of(k: u8) -> usize
    requires { IsTreeSize k }
    ensures { result ≡ switch_count k }
{
    let k = usize::from(k);
    5 * k * k / 4
}

fn begin_anew(
    known: &mut Known,
    gatherer: &mut Gatherer,
    alloc: Global,
    epoch: u32,
) -> Result<(), Memory>
    ensures known { OnOk result (nothing_known known.new known.old.k epoch) }
    ensures gatherer { OnOk result (gatherer.new ≡ restarted tt epoch gatherer.old) }
    ensures k { known.new.k ≡ known.old.k }
    ensures many { gatherer.new.many ≡ gatherer.old.many }
{
    *known = Known::new(alloc, known.k, epoch)?;
    gatherer.restart(epoch);
    Ok(())
}
