use pl_frame::SwitchId;

/// A switch that asked for the number of a pod, and the number that it was given.
#[derive(Clone, Copy, Debug)]
pub struct PodGiven {
    pub switch: SwitchId,
    pub pod: u16,
}
