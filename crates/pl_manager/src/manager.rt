ghost use Rattle.std.specs.Prelude.{◌≡◌};
ghost use Rattle.pl_node.specs.ManagerFacts.{switch_count};
ghost use Rattle.pl_node.specs.SwitchFacts.{IsTreeSize};

use crate::known::Known;
use pl_gatherer::Gatherer;

/// The fabric manager. What it knows is what its rule says; pods, addresses and lists are looked up, and no
/// tree is made anew for a word that changes none.
#[derive(Drop)]
pub struct Manager {
    pub(crate) known: Known,
    pub(crate) gatherer: Gatherer,
    ghost size: { IsTreeSize known.k },
    ghost many: { gatherer.many ≡ switch_count known.k },
}
