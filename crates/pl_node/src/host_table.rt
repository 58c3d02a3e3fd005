use pl_arp::Me;
use pl_lists::Items;

/// The hosts of a run, the first one first.
pub type HostTable = Items<Me>;
