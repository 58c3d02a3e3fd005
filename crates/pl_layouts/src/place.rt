ghost use Rattle.std.specs.Prelude.{◌≡◌};
ghost use Rattle.pl_layouts.specs.Placement.{is_placed};

/// Where a switch stands, as far as it is known: its level (0 edge, 1 aggregation, 2 core), its position
/// among the edge switches of its pod, and its pod.
#[derive(Clone, Copy, Debug, PartialEq, Eq)]
pub struct Place {
    pub level: Option<u8>,
    pub position: Option<u8>,
    pub pod: Option<u16>,
}

impl Place {
    /// Whether a switch here can forward frames: a core switch, an aggregation switch that knows its pod,
    /// or an edge switch that knows its position and its pod.
    pub fn is_placed(&self) -> bool
        ensures { result ≡ is_placed self.now }
    {
        match self.level {
            Some(0) => self.position.is_some() && self.pod.is_some(),
            Some(1) => self.pod.is_some(),
            Some(2) => true,
            _ => false,
        }
    }
}
