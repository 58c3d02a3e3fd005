use pl_arp::Me;
use pl_frame::{Ip4, Mac};
use pl_lists::Items;
use pl_node::{HostLogic, HostOutbox};
use pl_test_sample::OneFrame;
use std::test::Fail;

const ME: Me = Me {
    mac: Mac([2, 0, 0, 0, 0, 10]),
    ip: Ip4(0x0a00_0001),
};

#[test]
fn a_host_sends_one_frame_at_its_start(rt: HostRuntime) -> Result<(), Fail> {
    let mut host = OneFrame::boot(rt.alloc(), ME, &Items::new(rt.alloc()))?;
    let mut out = HostOutbox::new(rt.alloc());
    host.start(&mut out)?;
    if out.len() == 1 {
        Ok(())
    } else {
        Err(Fail::from("it sent another number of frames"))
    }
}
