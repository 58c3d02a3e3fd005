ghost use Rattle.std.specs.Prelude.{◌≡◌};
ghost use Rattle.pl_world.specs.Pending.{is_control_item};

use crate::item::Item;
use pl_queues::Counted;

// A control frame counts, since it alone may be stale.
impl Counted for Item {
    ghost counts = { is_control_item };

    fn counts(&self) -> bool {
        match self {
            Item::Control(_) => true,
            Item::Data(..) => false,
        }
    }
}
