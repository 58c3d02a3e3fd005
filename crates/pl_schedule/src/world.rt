ghost use Rattle.std.specs.Prelude.{◌≡◌, ◌<◌, ◌+◌, [], IfOk, OnErr, OnOk};
ghost use Rattle.pl_wiring.specs.Labels.{switch_count};
ghost use Rattle.pl_world.specs.Changes.{all_noted, begun_by, host_of, is_failed_at, noted, said_to_switch, sent_if_live, told_manager};
ghost use Rattle.pl_world.specs.SwitchActs.{granted};

use pl_frame::{Mac, Memory, SwitchId};
use pl_journal::{Entry, Journal};
use pl_lists::Queue;
use pl_node::{HostLogic, ManagerLogic, SwitchLogic, ToManager, ToSwitch};
use pl_pmac::Pmac;
use pl_queue_array::{CountedQueues, Queues};
use pl_wiring::{LinkStates, Peer, SwitchNo, Wiring};
use pl_world::{Item, Limits};
use pl_world_parts::{
    Attachments, Switches, WaitingToManager, WaitingToSwitch, WiringIndex, WorldJournal,
};
use std::alloc::{AllocError, Global};
use std::marker::Model;

/// The switches, hosts and manager of a fabric, the queues between them, and the journal of all that
/// befell its frames. Contracts see it as a `WorldView` (`specs/Worlds.antt`).
#[derive(Drop)]
pub struct World<S: SwitchLogic, M: ManagerLogic, H: HostLogic> {
    alloc: Global,
    wiring_index: WiringIndex,
    links: LinkStates,
    attachments: Attachments,
    heard: Vec<Option<u32>>,
    switches: Switches<S>,
    manager: M,
    hosts: Vec<H>,
    from_hosts: Queues<Item>,
    to_manager: CountedQueues<WaitingToManager>,
    from_manager: CountedQueues<WaitingToSwitch>,
    world_journal: WorldJournal,
    begun: u64,
    steps: u64,
    limits: Limits,
}

impl<S: SwitchLogic, M: ManagerLogic, H: HostLogic> Model for World<S, M, H> {
    ghost use Rattle.std.specs.Prelude.{map};
    ghost use Rattle.pl_world.specs.Flying.{IsFormed};
    ghost use Rattle.pl_world.specs.Worlds.{WorldView};

    ghost Value = { WorldView };

    ghost view = { λ w. record {
      plan = w.wiring_index;
      links = w.links;
      attachments = w.attachments;
      heard = w.heard.items;
      switches = w.switches.switches;
      manager = M.view w.manager;
      hosts = map H.view w.hosts.items;
      from_hosts = w.from_hosts;
      out = w.switches.out;
      to_manager = w.to_manager;
      from_manager = w.from_manager;
      journal = w.world_journal;
      begun = w.begun;
      steps = w.steps;
      limits = w.limits;
    } };

    ghost invariant = { λ w. IsFormed (view w) };
}

impl<S: SwitchLogic, M: ManagerLogic, H: HostLogic> World<S, M, H> {
    pub fn journal(&self) -> &Journal
        ensures { result.now ≡ self.now.journal }
    {
        self.world_journal.journal()
    }

    pub fn steps(&self) -> u64
        ensures { result ≡ self.now.steps }
    {
        self.steps
    }

    pub fn wiring(&self) -> &Wiring
        ensures { result.now ≡ self.now.plan }
    {
        self.wiring_index.wiring()
    }

    pub fn links(&self) -> &LinkStates
        ensures { result.now ≡ self.now.links }
    {
        &self.links
    }

    fn note(&mut self, entry: Entry) -> Result<(), Memory>
        ensures ok { OnOk result (self.new ≡ noted self.old entry) }
        ensures err { OnErr result (self.new ≡ self.old) }
    {
        self.world_journal.write(entry)
    }

    // Whether the port has a link, and that is failed.
    fn is_failed_at(&self, s: SwitchNo, port: u8) -> bool
        requires switch { s.0 < switch_count self.now.plan.k }
        requires port { port < self.now.plan.k }
        ensures { result ≡ is_failed_at self.now s.0 port }
    {
        match self.wiring_index.wiring().peer(s, port) {
            Peer::HostPort => false,
            Peer::Switch(..) => !self.links.live(s, port),
        }
    }

    fn send_out(&mut self, s: SwitchNo, port: u8, item: Item) -> Result<(), Memory>
        requires switch { s.0 < switch_count self.old.plan.k }
        requires port { port < self.old.plan.k }
        ensures { OnOk result (self.new ≡ sent_if_live self.old s.0 port item) }
    {
        if self.is_failed_at(s, port) {
            return Ok(());
        }
        self.switches.put(s.0 as usize, port, item)
    }

    fn tell(&mut self, s: SwitchNo, told: ToManager) -> Result<(), Memory>
        requires { s.0 < switch_count self.old.plan.k }
        ensures { OnOk result (self.new ≡ told_manager self.old s.0 told) }
    {
        self.to_manager
            .put(s.0 as usize, WaitingToManager::new(told))
    }

    fn say(&mut self, to: SwitchId, says: ToSwitch) -> Result<(), Memory>
        ensures { OnOk result (self.new ≡ said_to_switch self.old to says) }
    {
        match self.wiring_index.switch_with(to) {
            None => Ok(()),
            Some(s) => self
                .from_manager
                .put(s.0 as usize, WaitingToSwitch::new(says)),
        }
    }

    // An address is granted, which the journal says where a host has that hardware address.
    fn grant(&mut self, s: SwitchNo, pmac: Pmac, amac: Mac) -> Result<(), Memory>
        ensures { OnOk result (self.new ≡ granted self.old s.0 pmac (host_of self.old.plan amac)) }
    {
        match self.wiring_index.host_with(amac) {
            None => Ok(()),
            Some(h) => self.note(Entry::Granted(pmac, h, s, pmac.port)),
        }
    }

    // The number of the next frame.
    fn next_number(&self) -> Result<u64, Memory>
        ensures { IfOk result (λ n. n ≡ self.now.begun + 1) }
    {
        self.begun.checked_add(1).ok_or(AllocError)
    }

    // A frame begins under the next number.
    fn begin(&mut self, number: u64, entry: Entry) -> Result<(), Memory>
        requires { number ≡ self.old.begun + 1 }
        ensures { OnOk result (self.new ≡ begun_by self.old entry) }
    {
        self.world_journal.write(entry)?;
        self.begun = number;
        Ok(())
    }

    fn note_all(&mut self, entries: &mut Queue<Entry>) -> Result<(), Memory>
        ensures { OnOk result ((self.new ≡ all_noted self.old entries.old) × (entries.new ≡ [])) }
    {
        while let Some(entry) = entries.take_first() {
            self.note(entry)?;
        }
        Ok(())
    }
}

mod acts;
pub(crate) mod boot;
pub(crate) mod coming;
mod deliver;
mod failures;
mod happen;
mod look;
mod order;
mod refusing;
mod restart;
mod step;
mod steps;
