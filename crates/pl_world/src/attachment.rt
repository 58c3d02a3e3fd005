use pl_wiring::SwitchNo;

/// The port of an edge switch where a host stands.
#[derive(Clone, Copy, Debug, PartialEq, Eq, Hash)]
pub struct AttachmentPoint {
    pub edge: SwitchNo,
    pub port: u8,
}
