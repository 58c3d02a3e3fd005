ghost use Rattle.std.specs.Prelude.{◌≡◌, None, OnOk};
ghost use Rattle.pl_journal.specs.declared.entry.Entry.{Entry};
ghost use Rattle.pl_world.specs.Changes.{noted};
ghost use Rattle.pl_world.specs.Ready.{CanStep};
ghost use Rattle.pl_world.specs.Refusals.{refusal};
ghost use Rattle.pl_world.specs.Runs.{IsMark};
ghost use Rattle.pl_world.specs.WorldRule.{WorldStep};
ghost use Rattle.pl_world.specs.Worlds.{WorldView};

use pl_frame::Memory;
use pl_node::{HostLogic, ManagerLogic, SwitchLogic};
use pl_schedule::World;
use pl_world::Event;

/// Who is shown each step of a world just before it is made. After want of memory it is not used again.
pub trait Watcher<S: SwitchLogic, M: ManagerLogic, H: HostLogic>: Drop {
    /// It has seen all that led to this world.
    ghost has_seen: { Self → WorldView → Type 0 };

    /// This event happens next.
    fn sees(&mut self, world: &World<S, M, H>, event: &Event) -> Result<(), Memory>
        requires orderly { CanStep world.now }
        requires allowed { refusal world.now event.now ≡ None }
        requires seen { has_seen self.old world.now }
        ensures { OnOk result ((new : WorldView) → WorldStep S.rule M.rule H.rule world.now event.now new → has_seen self.new new) };

    // What a script writes of itself stands in the journal of the world, and nobody is asked about it.
    ghost marks: { (watcher : Self) (old : WorldView) (entry : Entry) → IsMark entry → has_seen watcher old → has_seen watcher (noted old entry) };
}

/// Nobody watches, and that takes no time.
#[derive(Clone, Copy, Debug, Drop)]
pub struct Nobody;

impl<S: SwitchLogic, M: ManagerLogic, H: HostLogic> Watcher<S, M, H> for Nobody {
    ghost has_seen = { λ _ _. Unit {0} };

    fn sees(&mut self, _world: &World<S, M, H>, _event: &Event) -> Result<(), Memory> {
        Ok(())
    }

    ghost marks = { λ _ _ _ _ seen. seen };
}
