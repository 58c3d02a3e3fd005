use pl_node::{Place, SwitchList};

/// What a switch told last of itself: its place, the neighbours that it told of, and those of them over links
/// that are alive.
#[derive(Debug, Drop)]
pub struct SwitchReport {
    pub place: Place,
    pub neighbours: SwitchList,
    pub alive: SwitchList,
}
