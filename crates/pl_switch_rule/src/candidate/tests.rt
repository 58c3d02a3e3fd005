ghost use Rattle.std.specs.Prelude.{◌≡◌, []};
ghost use Rattle.pl_switch_rule.specs.HostsAlone.{hosts_alone};

use super::*;
use pl_frame::SwitchId;
use pl_layouts::Place;
use pl_node::{AvoidList, PortRecord, TreePart};
use std::test::Fail;

// Switch 5, of four ports, with a host at each.
#[derive(Drop)]
struct HostsAlone {
    avoid: AvoidList,
    ghost nothing: { avoid ≡ [] },
}

impl SwitchFacts for HostsAlone {
    ghost view = { λ switch. hosts_alone };

    fn id(&self) -> SwitchId {
        SwitchId(5)
    }

    fn k(&self) -> u8 {
        4
    }

    fn place(&self) -> Place {
        Place {
            level: None,
            position: None,
            pod: None,
        }
    }

    fn port(&self, _port: u8) -> PortRecord {
        PortRecord {
            host: true,
            heard: None,
            silent: 0,
        }
    }

    fn avoids(&self, _neighbour: SwitchId, _pod: u16, _position: u8) -> bool {
        false
    }

    fn avoid_list(&self) -> &AvoidList {
        &self.avoid
    }

    fn announces(&self, _port: u8, _frame: &[u8]) -> bool {
        false
    }

    fn attempt(&self) -> Option<(u32, u8)> {
        None
    }

    fn granted(&self, _port: u8) -> bool {
        false
    }

    fn hold(&self, _position: u8) -> Option<(SwitchId, bool)> {
        None
    }

    fn part(&self, _group: u32) -> Option<&TreePart> {
        None
    }

    fn group(&self, _n: usize) -> Option<u32> {
        None
    }

    fn epoch(&self) -> u32 {
        0
    }
}

#[test]
fn a_switch_with_hosts_alone_has_no_candidates(rt: HostRuntime) -> Result<(), Fail> {
    let switch = HostsAlone {
        avoid: AvoidList::new(rt.alloc()),
    };
    let to = Pmac {
        pod: 1,
        position: 0,
        port: 0,
        vmid: 1,
    };
    assert!(rt; !is_candidate(&switch, to, Came::FromHost, 2));
    Ok(())
}
