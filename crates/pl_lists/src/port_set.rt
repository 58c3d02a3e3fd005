ghost use Rattle.std.specs.Prelude.{◌≡◌, ◌==◌, ◌<◌, [], length, not};
ghost use Rattle.std.specs.BTreeSet.{insert_key};
ghost use Rattle.std.specs.List.{filter, list_any, slice_get};
ghost use Rattle.std.specs.Ordering.{nat_cmp};
ghost use Rattle.pl_lists.specs.Ports.{has_port, ports_of};

/// A set of ports below 32. Contracts see the ports in it, rising.
#[derive(Clone, Copy, Debug, PartialEq, Eq)]
pub struct PortSet(pub u32);

impl PortSet {
    pub fn empty() -> PortSet
        ensures { ports_of result ≡ [] }
    {
        PortSet(0)
    }

    pub fn contains(&self, port: u8) -> bool
        requires { port < 32 }
        ensures { result ≡ list_any (λ p. p == port) (ports_of self.now) }
    {
        self.has(port)
    }

    pub fn insert(&mut self, port: u8)
        requires { port < 32 }
        ensures { ports_of self.new ≡ insert_key nat_cmp (ports_of self.old) port }
    {
        self.0 |= 1 << port;
    }

    pub fn remove(&mut self, port: u8)
        requires { port < 32 }
        ensures { ports_of self.new ≡ filter (λ p. not (p == port)) (ports_of self.old) }
    {
        self.0 &= !(1 << port);
    }

    pub fn len(&self) -> usize
        ensures { result ≡ length (ports_of self.now) }
    {
        let mut count = 0;
        for port in 0..32 {
            if self.has(port) {
                count += 1;
            }
        }
        count
    }

    /// Port number `n`, counted from 0 by rising port; none past the last.
    pub fn nth(&self, n: usize) -> Option<u8>
        ensures { result ≡ slice_get (ports_of self.now) n }
    {
        let mut left = n;
        for port in 0..32 {
            if self.has(port) {
                if left == 0 {
                    return Some(port);
                }
                left -= 1;
            }
        }
        None
    }

    // Whether the bit of a port is set.
    fn has(&self, port: u8) -> bool
        requires { port < 32 }
        ensures { result ≡ has_port self.now port }
    {
        (self.0 >> port) & 1 == 1
    }
}
