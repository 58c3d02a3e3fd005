ghost use Rattle.std.specs.Prelude.{◌≡◌, ◌<◌, ◌≤◌, if◌then◌else◌};
ghost use Rattle.std.specs.BTreeSet.{insert_key};
ghost use Rattle.std.specs.List.{filter};
ghost use Rattle.std.specs.Ordering.{nat_cmp};
ghost use Rattle.pl_node.specs.PortRecords.{ports_of_switch};
ghost use Rattle.pl_lists.specs.Ports.{ports_of};
ghost use Rattle.pl_switch_rule.specs.GroupForwarding.{at_most_one};

use pl_lists::PortSet;

/// A test of the ports of a switch.
pub(crate) trait PortTest {
    ghost use Rattle.std.specs.Prelude.{ℕ, Bool};

    /// The number of ports that it can test.
    ghost ports: { Self → ℕ };

    ghost passes: { Self → ℕ → Bool };

    fn test(&self, port: u8) -> bool
        requires { port < ports self.now }
        ensures { result ≡ passes self.now port };
}

/// The ports that pass, of k.
pub(crate) fn ports_that_pass<T: PortTest>(test: &T, k: u8) -> PortSet
    requires all { k ≤ T.ports test.now }
    requires within { k ≤ 32 }
    ensures { ports_of result ≡ filter (T.passes test.now) (ports_of_switch k) }
{
    let mut ports = PortSet::empty();
    for port in 0..k {
        let passes = test.test(port);
        ports = insert_if(ports, port, passes);
    }
    ports
}

/// The first port that passes, of k, if there is one.
pub(crate) fn first_that_passes<T: PortTest>(test: &T, k: u8) -> PortSet
    requires all { k ≤ T.ports test.now }
    requires within { k ≤ 32 }
    ensures { ports_of result ≡ at_most_one (filter (T.passes test.now) (ports_of_switch k)) }
{
    for port in 0..k {
        if test.test(port) {
            return insert_if(PortSet::empty(), port, true);
        }
    }
    PortSet::empty()
}

// The set with a port, where it is to be in.
fn insert_if(ports: PortSet, port: u8, is_in: bool) -> PortSet
    requires { port < 32 }
    ensures { ports_of result ≡ (if is_in then insert_key nat_cmp (ports_of ports) port else ports_of ports) }
{
    if !is_in {
        return ports;
    }
    let mut ports = ports;
    ports.insert(port);
    ports
}
