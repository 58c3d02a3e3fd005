use pl_frame::SwitchId;
use pl_node::ToManager;

/// A word that is kept, and the switch that told it.
#[derive(Clone, Copy, Debug)]
pub struct Kept {
    pub switch: SwitchId,
    pub word: ToManager,
}
