use pl_arp::Me;
use pl_frame::{Ip4, Mac};
use pl_multicast::{Change, FLOOD, group_of, read_igmp, write_igmp};
use std::alloc::Global;
use std::test::Fail;

// 02:00:00:00:00:0a, 10.0.0.1
const HOST_A: Me = Me {
    mac: Mac([2, 0, 0, 0, 0, 0x0a]),
    ip: Ip4(0x0a00_0001),
};

// The report of that host for 239.1.2.3.
const REPORT: [u8; 46] = [
    1, 0, 0x5e, 1, 2, 3, 2, 0, 0, 0, 0, 0x0a, 8, 0, 0x46, 0, 0, 0x20, 0, 0, 0, 0, 1, 2, 0x29, 0xd3,
    0x0a, 0, 0, 1, 0xef, 1, 2, 3, 0x94, 4, 0, 0, 0x16, 0, 0xf8, 0xfa, 0xef, 1, 2, 3,
];

// A version 3 report behind an IPv4 header of 20 bytes, with eight group records.
const REPORT_3: [u8; 134] = [
    1, 0, 0x5e, 0, 0, 0x16, 2, 0, 0, 0, 0, 0x0a, 8, 0, // to 224.0.0.22
    0x45, 0, 0, 120, 0, 0, 0, 0, 1, 2, 0, 0, 10, 0, 0, 1, 224, 0, 0, 22, // IPv4
    0x22, 0, 0, 0, 0, 0, 0, 8, // 8 records
    2, 0, 0, 0, 239, 1, 2, 3, // joins 239.1.2.3
    4, 1, 0, 2, 239, 1, 2, 4, 10, 0, 0, 2, 10, 0, 0, 3, 9, 9, 9, 9, // has sources
    3, 2, 0, 0, 239, 1, 2, 5, 9, 9, 9, 9, 9, 9, 9, 9, // leaves 239.1.2.5, with two more words
    4, 0, 0, 0, 224, 0, 0, 251, // is not routed
    6, 0, 0, 0, 239, 1, 2, 7, // blocks no old sources
    3, 0, 0, 1, 239, 1, 2, 8, 10, 0, 0, 2, // includes one source
    4, 0, 0, 0, 240, 1, 2, 9, // is no group
    4, 0, 0, 0, 239, 1, 2, 6, // joins 239.1.2.6
    0, 0, 0, 0, // padding
];

// The changes that a frame tells.
fn told(alloc: Global, frame: &[u8]) -> Result<Vec<Change>, Fail> {
    let view = pl_frame::view(frame)?;
    match read_igmp(&view) {
        Some(changes) => Ok(changes.collect(alloc)?),
        None => Ok(Vec::new(alloc)),
    }
}

#[test]
fn a_group_goes_by_the_low_23_bits_of_its_address(rt: HostRuntime) {
    for (dst, want) in [
        ([0x01, 0x00, 0x5e, 1, 2, 3], Some(66_051)),
        ([0x01, 0x00, 0x5e, 0, 1, 0], Some(256)),
        ([0x01, 0x00, 0x5e, 0, 0, 0xff], Some(FLOOD)),
        ([0x01, 0x00, 0x5e, 0x7f, 0xff, 0xff], Some(8_388_607)),
        ([0x01, 0x00, 0x5e, 0x80, 1, 0], Some(FLOOD)),
        ([0x03, 0x00, 0x5e, 1, 2, 3], Some(FLOOD)),
        ([0xff, 0xff, 0xff, 0xff, 0xff, 0xff], Some(8_388_608)),
        ([0x00, 0x00, 0x00, 0x00, 0x00, 0x01], None),
    ] {
        assert_eq!(rt; group_of(Mac(dst)), want, "at {dst:?}");
    }
}

#[test]
fn host_a_joins_and_leaves_239_1_2_3(rt: HostRuntime) -> Result<(), Fail> {
    let group = Ip4(0xef01_0203);
    let leave = [
        1, 0, 0x5e, 0, 0, 2, 2, 0, 0, 0, 0, 0x0a, 8, 0, 0x46, 0, 0, 0x20, 0, 0, 0, 0, 1, 2, 0x3a,
        0xd5, 0x0a, 0, 0, 1, 0xe0, 0, 0, 2, 0x94, 4, 0, 0, 0x17, 0, 0xf7, 0xfa, 0xef, 1, 2, 3,
    ];
    for (join, want) in [(true, REPORT), (false, leave)] {
        let change = Change { group, join };
        let frame = write_igmp(HOST_A, change);
        assert_eq!(rt; frame.as_slice(), want.as_slice());
        assert_eq!(rt; told(rt.alloc(), &frame)?.as_slice(), [change].as_slice());
    }
    Ok(())
}

#[test]
fn a_version_3_report_tells_the_changes_of_its_whole_records(rt: HostRuntime) -> Result<(), Fail> {
    let changes = [
        (0xef01_0203, true),
        (0xef01_0205, false),
        (0xef01_0206, true),
    ];
    let changes = changes.map(|(group, join)| Change {
        group: Ip4(group),
        join,
    });
    for len in 14..=REPORT_3.len() {
        let whole = match len {
            ..50 => 0,
            50..86 => 1,
            86..130 => 2,
            _ => 3,
        };
        let told = told(rt.alloc(), &REPORT_3[..len])?;
        assert_eq!(rt; told.as_slice(), &changes[..whole], "of {len} bytes");
    }
    let mut none = REPORT_3;
    none[41] = 0;
    assert_eq!(rt; told(rt.alloc(), &none)?.len(), 0);
    none[41] = 1;
    assert_eq!(rt; told(rt.alloc(), &none)?.as_slice(), &changes[..1]);
    Ok(())
}

#[test]
fn only_a_membership_message_in_ipv4_is_read(rt: HostRuntime) -> Result<(), Fail> {
    for (at, byte) in [
        (13, 6), // another type
        (14, 0x66), // version 6
        (14, 0x44), // a header of 16 bytes
        (14, 0x4f), // a header of 60 bytes
        (23, 17), // another protocol
        (38, 0x11), // a query
        (38, 0x12), // a version 1 report
    ] {
        let mut frame = REPORT;
        frame[at] = byte;
        assert!(rt;
            read_igmp(&pl_frame::view(&frame)?).is_none(),
            "{byte} at {at}"
        );
    }
    for len in 14..REPORT.len() {
        assert!(rt;
            read_igmp(&pl_frame::view(&REPORT[..len])?).is_none(),
            "of {len} bytes"
        );
    }
    Ok(())
}
