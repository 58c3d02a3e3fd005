use pl_arp::{Arp, Cache, Me, REPLY, REQUEST};
use pl_frame::{Ip4, Mac};
use std::test::Fail;

const A: Mac = Mac([2, 0, 0, 0, 0, 10]);

const B: Mac = Mac([2, 0, 0, 0, 0, 11]);

const IP_A: Ip4 = Ip4(0x0a00_0001);

const IP_B: Ip4 = Ip4(0x0a00_0002);

const IP_OTHER: Ip4 = Ip4(0x0a00_0009);

fn of_a(op: u16, sha: Mac, tpa: Ip4) -> Arp {
    Arp {
        op,
        sha,
        spa: IP_A,
        tha: Mac([0; 6]),
        tpa,
    }
}

#[test]
fn host_b_receives_as_rfc_826_says(rt: HostRuntime) -> Result<(), Fail> {
    let me = Me { mac: B, ip: IP_B };
    let mut cache = Cache::new(rt.alloc());
    let unknown = cache.receive(me, &of_a(REQUEST, A, IP_OTHER))?;
    assert_eq!(rt; (unknown, cache.get(IP_A)), (None, None));
    let answer = cache.receive(me, &of_a(REQUEST, A, IP_B))?;
    let reply = Arp {
        op: 2,
        sha: B,
        spa: IP_B,
        tha: A,
        tpa: IP_A,
    };
    assert_eq!(rt; (answer, cache.get(IP_A)), (Some(reply), Some(A)));
    let moved = cache.receive(me, &of_a(REQUEST, B, IP_OTHER))?;
    assert_eq!(rt; (moved, cache.get(IP_A)), (None, Some(B)));
    Ok(())
}

#[test]
fn a_reply_adds_the_pair_and_is_not_answered(rt: HostRuntime) -> Result<(), Fail> {
    let me = Me { mac: B, ip: IP_B };
    let mut cache = Cache::new(rt.alloc());
    let answer = cache.receive(me, &of_a(REPLY, A, IP_B))?;
    assert_eq!(rt; (answer, cache.get(IP_A)), (None, Some(A)));
    Ok(())
}
