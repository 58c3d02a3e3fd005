ghost use Rattle.std.specs.Prelude.{◌≡◌, ◌<◌};
ghost use Rattle.pl_wiring.specs.Labels.{IsArity};
ghost use Rattle.pl_generator.specs.Hosts.{edge_of, host_count, ip_of, mac_of, port_of};

use pl_frame::{Ip4, Mac};
use pl_wiring::Label;

/// The IPv4 address before that of the first host.
const NETWORK: u32 = 0x0a01_0000;

/// How many hosts there are: one at each host port.
pub(crate) fn host_count(k: u8) -> u16
    requires { IsArity k }
    ensures { result ≡ host_count k }
{
    let k = u16::from(k);
    k * k * k / 4
}

pub(crate) fn mac_of(host: u16) -> Mac
    ensures { result ≡ mac_of host }
{
    let [high, low] = host.to_be_bytes();
    Mac([2, 0, 0, 0, high, low])
}

pub(crate) fn ip_of(host: u16) -> Ip4
    ensures { result ≡ ip_of host }
{
    Ip4(NETWORK + (u32::from(host) + 1))
}

/// The edge switch at which a host stands.
pub(crate) fn edge_of(k: u8, host: u16) -> Label
    requires arity { IsArity k }
    requires in_range { host < host_count k }
    ensures { result ≡ edge_of k host }
{
    let half = k / 2;
    let edge = host / u16::from(half);
    Label::Edge(edge / u16::from(half), (edge % u16::from(half)) as u8)
}

/// The port at which it stands there.
pub(crate) fn port_of(k: u8, host: u16) -> u8
    requires { IsArity k }
    ensures { result ≡ port_of k host }
{
    (host % u16::from(k / 2)) as u8
}
