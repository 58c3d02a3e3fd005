use crate::Entry;
use pl_lists::Items;

/// The entries of a run, the oldest first.
pub type Journal = Items<Entry>;
