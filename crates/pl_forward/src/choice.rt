ghost use Rattle.std.specs.Prelude.{◌≡◌, ◌≤◌, ◌↔◌, ◌%◌, [], None, length, slice_get};
ghost use Rattle.pl_lists.specs.Ports.{ports_of};
ghost use Rattle.pl_switch_rule.specs.SwitchRule.{by_flow};

use pl_flow::flow_hash;
use pl_lists::PortSet;

/// Port number `hash modulo count` of a set, by rising port.
pub fn choose(ports: PortSet, hash: u32) -> Option<u8>
    ensures port { result ≡ slice_get (ports_of ports) (hash % length (ports_of ports)) }
    ensures none { (result ≡ None) ↔ (ports_of ports ≡ []) }
{
    let count = ports.len();
    if count == 0 {
        return None;
    }
    ports.nth(hash as usize % count)
}

/// The port of a set that the flow of a frame names. Where there is no choice, the flow is not looked at.
pub fn choose_by_flow(ports: PortSet, frame: &[u8]) -> Option<u8>
    requires { 14 ≤ length frame.now }
    ensures { result ≡ by_flow (ports_of ports) frame.now }
{
    if ports.len() <= 1 {
        return ports.nth(0);
    }
    choose(ports, flow_hash(frame))
}
