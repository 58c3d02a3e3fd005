ghost use Rattle.std.specs.Prelude.{◌≡◌, [], if◌then◌else◌, map, IfOk, OnErr, OnOk, length};
ghost use Rattle.pl_gathering.specs.Gathering.{hears_begin, is_among, is_whole, keeps_word, restarted, with_ended};
ghost use Rattle.pl_gatherer.specs.Gatherers.{at_first, ends_now, heard_of};

use crate::Kept;
use indexmap::IndexSet;
use pl_frame::SwitchId;
use pl_node::{Memory, ToManager};
use std::alloc::Global;
use std::marker::Model;

/// How often a manager began anew, the switches whose report of this epoch it heard begin, and end, and what it
/// keeps. Contracts see each list of switches with the newest first, and the words in the order of hearing.
#[derive(Debug, Drop)]
pub struct Gatherer {
    alloc: Global,
    // So many switches the tree has.
    many: usize,
    epoch: u32,
    begun: IndexSet<SwitchId>,
    ended: IndexSet<SwitchId>,
    kept: Vec<Kept>,
}

impl Model for Gatherer {
    ghost use Rattle.pl_gatherer.specs.Gatherers.{Gathering, gathering};

    ghost Value = { Gathering };

    ghost view = { λ g. gathering g.many g.epoch g.begun.keys g.ended.keys g.kept.items };
}

impl Gatherer {
    /// That of a manager which never began anew, of a tree of so many switches.
    pub fn new(alloc: Global, many: usize) -> Gatherer
        ensures { result ≡ at_first many }
    {
        Gatherer {
            alloc,
            many,
            epoch: 0,
            begun: IndexSet::new(alloc),
            ended: IndexSet::new(alloc),
            kept: Vec::new(alloc),
        }
    }

    /// The manager begins anew, for this epoch.
    pub fn restart(&mut self, epoch: u32)
        ensures { self.new ≡ restarted tt epoch self.old }
    {
        self.epoch = epoch;
        self.begun.clear();
        self.ended.clear();
        self.kept.clear();
    }

    /// How often it began anew.
    pub fn epoch(&self) -> u32
        ensures { result ≡ self.now.epoch }
    {
        self.epoch
    }

    /// How many reports of this epoch have ended.
    pub fn reported(&self) -> usize
        ensures { result ≡ length self.now.ended }
    {
        self.ended.len()
    }

    /// Whether no report is missing: words are treated as they come.
    pub fn is_whole(&self) -> bool
        ensures { result ≡ is_whole self.now }
    {
        self.epoch == 0 || self.many <= self.ended.len()
    }

    /// A report begins. One of another epoch, a second one, and one of which none is missing change nothing.
    pub fn begin(&mut self, switch: SwitchId, epoch: u32) -> Result<(), Memory>
        ensures begun { OnOk result (self.new ≡ hears_begin self.old switch epoch) }
        ensures err { OnErr result (self.new ≡ self.old) }
    {
        if self.is_whole() || epoch != self.epoch || self.has_begun(switch) {
            return Ok(());
        }
        self.begun.insert(switch)?;
        Ok(())
    }

    /// A report ends. The answer is whether one did: one that did not begin, or has ended, does not end.
    pub fn end(&mut self, switch: SwitchId, epoch: u32) -> Result<bool, Memory>
        ensures told { IfOk result (λ ends. ends ≡ ends_now self.old switch epoch) }
        ensures ended { OnOk result (self.new ≡ (if ends_now self.old switch epoch then with_ended switch self.old else self.old)) }
        ensures err { OnErr result (self.new ≡ self.old) }
    {
        if !self.ends_now(switch, epoch) {
            return Ok(false);
        }
        self.ended.insert(switch)?;
        Ok(true)
    }

    fn ends_now(&self, switch: SwitchId, epoch: u32) -> bool
        ensures { result ≡ ends_now self.now switch epoch }
    {
        !self.is_whole() && epoch == self.epoch && self.has_begun(switch) && !self.has_ended(switch)
    }

    /// A word that comes while a report is missing is kept, where that of its switch has begun.
    pub fn keep(&mut self, switch: SwitchId, word: ToManager) -> Result<(), Memory>
        ensures kept { OnOk result (self.new ≡ keeps_word self.old switch word) }
        ensures err { OnErr result (self.new ≡ self.old) }
    {
        if self.has_begun(switch) {
            self.kept.push(Kept { switch, word })?;
        }
        Ok(())
    }

    /// Hands out what is kept, and keeps none of it.
    pub fn take_kept(&mut self) -> Vec<Kept>
        ensures all { map heard_of result.items ≡ self.old.kept }
        ensures none { self.new ≡ record self.old { kept = [] } }
    {
        let none = Vec::new(self.alloc);
        std::mem::replace(&mut self.kept, none)
    }

    fn has_begun(&self, switch: SwitchId) -> bool
        ensures { result ≡ is_among switch self.now.begun }
    {
        self.begun.contains(&switch)
    }

    fn has_ended(&self, switch: SwitchId) -> bool
        ensures { result ≡ is_among switch self.now.ended }
    {
        self.ended.contains(&switch)
    }
}
