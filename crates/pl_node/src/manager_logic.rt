ghost use Rattle.std.specs.Prelude.{◌≡◌, ◌↔◌, IfOk, OnOk, IsTrue, length};
ghost use Rattle.std.specs.Option.{option_copied};
ghost use Rattle.pl_node.specs.AvoidLists.{avoid_list};
ghost use Rattle.pl_node.specs.Gains.{Gains};
ghost use Rattle.pl_node.specs.ManagerFacts.{CanHear, group_at, newest_and_number};
ghost use Rattle.pl_node.specs.ManagerDuties.{AnswersDuly, ManagerRule};
ghost use Rattle.pl_node.specs.ManagerViews.{ManagerView, booted_manager, is_told_usable, lookup, place_of, restarted_manager};
ghost use Rattle.pl_node.specs.SwitchFacts.{IsTreeSize};
ghost use Rattle.pl_node.specs.Trees.{tree_part};

use crate::{AvoidList, ManagerOutbox, Memory, ToManager, TreePart};
use pl_frame::{Ip4, Mac, SwitchId};
use pl_layouts::Place;
use pl_pmac::Pmac;
use std::alloc::Global;

/// The software of the fabric manager. After want of memory neither the manager nor the outbox is used
/// again. Only `boot`, `restart` and `hears` take memory.
pub trait ManagerLogic: Drop {
    ghost view: { Self → ManagerView };

    ghost rule: { ManagerRule };

    /// A manager that was told nothing and has learnt nothing, of a fabric of switches of k ports, an even
    /// number from 4 to 24.
    fn boot(alloc: Global, k: u8) -> Result<Self, Memory>
        requires { IsTreeSize k }
        ensures { IfOk result (λ logic. view logic ≡ booted_manager k) };

    /// It begins anew, for the time of this number: it was told nothing, and hears the report of each switch
    /// before it treats a word.
    fn restart(&mut self, alloc: Global, epoch: u32) -> Result<(), Memory>
        ensures anew { OnOk result (view self.new ≡ restarted_manager (view self.old).k epoch) }
        ensures k { (view self.new).k ≡ (view self.old).k };

    /// A message of a switch comes. Its acts are put behind those that are in the outbox.
    fn hears(
        &mut self,
        switch: SwitchId,
        says: &ToManager,
        out: &mut ManagerOutbox,
    ) -> Result<(), Memory>
        requires { CanHear (view self.old) switch }
        ensures step { OnOk result (Gains out.old out.new (rule (view self.old) switch says.now (view self.new))) }
        ensures k { (view self.new).k ≡ (view self.old).k };

    /// How often it began anew.
    fn epoch(&self) -> u32
        ensures { result ≡ (view self.now).epoch };

    /// How many switches' reports have ended since it began anew.
    fn reported(&self) -> usize
        ensures { result ≡ length (view self.now).ended };

    /// The newest pseudo address of the host that has an IPv4 address; none where that was never learnt or was released.
    fn lookup(&self, ip: Ip4) -> Option<Pmac>
        ensures { result ≡ lookup (view self.now).learnt ip };

    /// The newest pseudo address of a host and its registration number; none where none was learnt.
    fn newest(&self, amac: Mac) -> Option<(Pmac, u64)>
        ensures { result ≡ newest_and_number (view self.now).learnt amac };

    /// The place that a switch told last; all of it unknown where it told none.
    fn place_of(&self, switch: SwitchId) -> Place
        ensures { result ≡ place_of (view self.now).told switch };

    /// Whether a switch told last that its link to this neighbour is usable.
    fn told(&self, switch: SwitchId, neighbour: SwitchId) -> bool
        ensures { result ≡ is_told_usable (view self.now).told switch neighbour };

    fn avoid_list(&self, switch: SwitchId) -> &AvoidList
        ensures { result.now ≡ avoid_list (view self.now).told switch };

    /// Group number n, rising, of floods and the groups of which members were told; none past the last.
    fn group(&self, n: usize) -> Option<u32>
        ensures { result ≡ group_at (view self.now) n };

    /// Whether that is the switch's part of a group's tree.
    fn part_is(&self, switch: SwitchId, group: u32, part: Option<&TreePart>) -> bool
        ensures { IsTrue result ↔ (option_copied part.entry ≡ tree_part (view self.now).told (view self.now).members group switch) };

    ghost answers: { AnswersDuly rule };
}
