use crate::spoken_frame::SpokenFrame;
use pl_journal::Entry;
use pl_lists::Queue;

/// Beside the world, amid the acts of a switch: of which frame they speak by now, and the ends that are
/// written behind the last copy.
#[derive(Debug, Drop)]
pub struct ActsProgress {
    pub speech: SpokenFrame,
    pub late: Queue<Entry>,
}
