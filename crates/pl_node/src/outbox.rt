use crate::{Act, HostAct, ManagerAct};
use pl_lists::Queue;

/// What a switch did in its steps and has not yet come about, the oldest first.
pub type Outbox = Queue<Act>;

/// The same of the fabric manager.
pub type ManagerOutbox = Queue<ManagerAct>;

/// The same of a host.
pub type HostOutbox = Queue<HostAct>;
