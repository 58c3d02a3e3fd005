use pl_frame::SwitchId;
use pl_lists::Rising;

/// Ids of switches, rising.
pub type SwitchList = Rising<SwitchId>;
