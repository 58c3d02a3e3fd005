ghost use Rattle.std.specs.Prelude.{◌≡◌};
ghost use Rattle.pl_node.specs.PortRecords.{aged, is_open_to_hosts, is_usable_record};

use pl_frame::SwitchId;
use pl_layouts::Place;

/// What a switch last heard at a port: who is there, its place, and the id that it last heard there
/// itself, its echo.
#[derive(Clone, Copy, Debug, PartialEq, Eq)]
pub struct Neighbour {
    pub id: SwitchId,
    pub place: Place,
    pub echo: Option<SwitchId>,
}

/// What a switch knows of a port: whether a host is there, the neighbour last heard, and the number of
/// its own ticks since, which stops at 3.
#[derive(Clone, Copy, Debug, PartialEq, Eq)]
pub struct PortRecord {
    pub host: bool,
    pub heard: Option<Neighbour>,
    pub silent: u8,
}

impl PortRecord {
    /// Whether the last message here, at most two ticks ago, says that this switch was heard.
    pub fn is_usable(&self, me: SwitchId) -> bool
        ensures { result ≡ is_usable_record me self.now }
    {
        match self.heard {
            Some(neighbour) => self.silent < 3 && neighbour.echo == Some(me),
            None => false,
        }
    }

    /// Whether a frame that comes here is a host's: a host is here, or nothing was heard here yet.
    pub fn is_open_to_hosts(&self) -> bool
        ensures { result ≡ is_open_to_hosts self.now }
    {
        self.host || self.heard.is_none()
    }

    /// The record after a tick of the switch.
    pub fn aged(&self) -> PortRecord
        ensures { result ≡ aged self.now }
    {
        let silent = self.silent;
        if self.heard.is_some() && silent < 3 {
            PortRecord {
                silent: silent + 1,
                ..*self
            }
        } else {
            *self
        }
    }
}
