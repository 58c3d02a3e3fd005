ghost use Rattle.std.specs.Prelude.{◌≡◌, ◌<◌, Contains, OnOk};
ghost use Rattle.pl_wiring.specs.Labels.{switch_count};
ghost use Rattle.pl_world.specs.LinksAndMoves.{link_failed, link_repaired, with_link};

use crate::world::World;
use pl_frame::Memory;
use pl_journal::{Cause, Entry};
use pl_node::{HostLogic, ManagerLogic, SwitchLogic};
use pl_wiring::Link;
use pl_world_parts::set_live;

impl<S: SwitchLogic, M: ManagerLogic, H: HostLogic> World<S, M, H> {
    // A link fails. What waits at its ends goes no further.
    pub(crate) fn fail(&mut self, link: Link) -> Result<(), Memory>
        requires { Contains self.old.plan.links link }
        ensures { OnOk result (self.new ≡ link_failed self.old link) }
    {
        self.turn(link, false);
        self.note(Entry::LinkDown(link.lower, link.upper))?;
        self.empty_out(link.lower, link.lower_port, Cause::LinkDown)?;
        self.empty_out(link.upper, link.upper_port, Cause::LinkDown)
    }

    pub(crate) fn repair(&mut self, link: Link) -> Result<(), Memory>
        requires { Contains self.old.plan.links link }
        ensures { OnOk result (self.new ≡ link_repaired self.old link) }
    {
        self.turn(link, true);
        self.note(Entry::LinkUp(link.lower, link.upper))
    }

    // A link becomes live or failed.
    fn turn(&mut self, link: Link, live: bool)
        requires { Contains self.old.plan.links link }
        ensures turned { self.new ≡ record self.old { links = with_link self.old.links link live } }
        ensures lower { link.lower.0 < switch_count self.old.plan.k }
        ensures lower_port { link.lower_port < self.old.plan.k }
        ensures upper { link.upper.0 < switch_count self.old.plan.k }
        ensures upper_port { link.upper_port < self.old.plan.k }
    {
        set_live(&mut self.links, self.wiring_index.wiring(), link, live);
    }
}
