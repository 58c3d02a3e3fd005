use pl_layouts::Place;
use pl_lists::PortSet;

/// What a switch has told the fabric manager of itself: its place, and which of its ports are usable.
#[derive(Clone, Copy, Debug, PartialEq, Eq)]
pub struct Standing {
    pub place: Place,
    pub usable: PortSet,
}
