use pl_frame::Mac;
use pl_pmac::{Pmac, pack, unpack};
use std::test::Fail;

#[test]
fn an_address_is_packed_most_significant_first(rt: HostRuntime) -> Result<(), Fail> {
    let host = Pmac {
        pod: 2,
        position: 1,
        port: 0,
        vmid: 1,
    };
    assert_eq!(rt; pack(host), Mac([0, 2, 1, 0, 0, 1]));
    assert_eq!(rt; host.to_string(rt.alloc())?.as_str(), "00:02:01:00:00:01");
    let all = unpack(Mac::BROADCAST);
    assert_eq!(rt;
        (all.pod, all.position, all.port, all.vmid),
        (65535, 255, 255, 65535)
    );
    assert_eq!(rt; pack(all), Mac::BROADCAST);
    Ok(())
}
