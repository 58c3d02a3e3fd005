use pl_arp::{Arp, ArpError, REQUEST, read, write};
use pl_frame::{Ip4, Mac};
use std::test::Fail;

// 02:00:00:00:00:0a asks for its own address 10.0.0.1.
const ASKED: [u8; 28] = [
    0, 1, 8, 0, 6, 4, 0, 1, 2, 0, 0, 0, 0, 10, 10, 0, 0, 1, 0, 0, 0, 0, 0, 0, 10, 0, 0, 1,
];

#[test]
fn the_layout_is_that_of_rfc_826(rt: HostRuntime) -> Result<(), Fail> {
    let arp = Arp {
        op: REQUEST,
        sha: Mac([2, 0, 0, 0, 0, 10]),
        spa: Ip4(0x0a00_0001),
        tha: Mac([0; 6]),
        tpa: Ip4(0x0a00_0001),
    };
    assert_eq!(rt; write(&arp).as_slice(), ASKED.as_slice());
    let mut padded = [0xaa; 46];
    padded[..28].copy_from_slice(&ASKED);
    assert_eq!(rt; read(&padded), Ok(arp));
    assert_eq!(rt; read(&ASKED[..27]), Err(ArpError::Cut));
    for field in 0..6 {
        let mut other = ASKED;
        other[field] = 7;
        assert_eq!(rt; read(&other), Err(ArpError::OtherKind), "at {field}");
    }
    Ok(())
}
