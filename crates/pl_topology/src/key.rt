ghost use Rattle.std.specs.Prelude.{◌≡◌, Some};
ghost use Rattle.pl_topology.specs.Keys.{key_text};

use std::fmt;

/// A key of a topology file that a refusal names.
#[derive(Clone, Copy, Debug, PartialEq, Eq)]
pub enum Key {
    Switch,
    Link,
    Host,
    Label,
    Id,
    A,
    PortA,
    B,
    PortB,
    Name,
    Mac,
    Ip,
    Edge,
    Port,
    Capture,
}

impl Key {
    /// The key as a file spells it.
    pub fn text(&self) -> &'static str
        ensures { result.now ≡ key_text self.now }
    {
        match self {
            Key::Switch => "switch",
            Key::Link => "link",
            Key::Host => "host",
            Key::Label => "label",
            Key::Id => "id",
            Key::A => "a",
            Key::PortA => "port_a",
            Key::B => "b",
            Key::PortB => "port_b",
            Key::Name => "name",
            Key::Mac => "mac",
            Key::Ip => "ip",
            Key::Edge => "edge",
            Key::Port => "port",
            Key::Capture => "capture",
        }
    }
}

impl fmt::Display for Key {
    ghost output = { λ key. Some (key_text key) };

    fn fmt<W: fmt::Write>(&self, f: &mut fmt::Formatter<W>) -> fmt::Result {
        let text = self.text();
        write!(f, "{text}")
    }
}
