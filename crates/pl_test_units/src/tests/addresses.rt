use pl_frame::{Ip4, Mac};
use std::test::Fail;

#[test]
fn addresses_are_printed_in_their_usual_forms(rt: HostRuntime) -> Result<(), Fail> {
    let mac = Mac([0x02, 0, 0xa0, 0x0f, 0xff, 0x9b]);
    assert_eq!(rt; mac.to_string(rt.alloc())?.as_str(), "02:00:a0:0f:ff:9b");
    assert_eq!(rt;
        Ip4(0x0a00_0001).to_string(rt.alloc())?.as_str(),
        "10.0.0.1"
    );
    assert_eq!(rt;
        Ip4(u32::MAX).to_string(rt.alloc())?.as_str(),
        "255.255.255.255"
    );
    Ok(())
}
