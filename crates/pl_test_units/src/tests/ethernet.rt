use pl_frame::{Frame, FrameError, Mac, TYPE_ARP, set_destination, set_source, view};
use std::test::Fail;

// The request of 02:00:00:00:00:0a for its own address 10.0.0.1 (RFC 826).
const REQUEST: [u8; 42] = [
    0xff, 0xff, 0xff, 0xff, 0xff, 0xff, 0x02, 0, 0, 0, 0, 0x0a, 0x08, 0x06, 0, 1, 8, 0, 6, 4, 0, 1,
    0x02, 0, 0, 0, 0, 0x0a, 10, 0, 0, 1, 0, 0, 0, 0, 0, 0, 10, 0, 0, 1,
];

#[test]
fn the_fields_stand_where_ieee_802_3_puts_them(rt: HostRuntime) -> Result<(), Fail> {
    let view = view(&REQUEST)?;
    assert_eq!(rt; view.dst, Mac::BROADCAST);
    assert_eq!(rt; view.src, Mac([2, 0, 0, 0, 0, 10]));
    assert_eq!(rt; view.kind, TYPE_ARP);
    assert_eq!(rt; view.payload.len(), 28);
    assert!(rt; view.dst.is_group());
    assert!(rt; !view.src.is_group());
    Ok(())
}

#[test]
fn frames_of_14_to_65553_bytes_are_carried(rt: HostRuntime) -> Result<(), Fail> {
    let bytes = vec![in rt.alloc(); 7u8; 65_554]?;
    for (len, want) in [
        (0, Some(FrameError::Short)),
        (13, Some(FrameError::Short)),
        (14, None),
        (65_553, None),
        (65_554, Some(FrameError::Long)),
    ] {
        assert!(rt; len <= bytes.len());
        assert_eq!(rt; view(&bytes[..len]).err(), want, "at {len}");
    }
    Ok(())
}

#[test]
fn a_frame_is_written_in_place(rt: HostRuntime) -> Result<(), Fail> {
    let mut frame = Frame::copy(rt.alloc(), &REQUEST)?;
    set_destination(frame.bytes_mut(), Mac([0, 1, 2, 3, 4, 5]));
    set_source(frame.bytes_mut(), Mac([6, 7, 8, 9, 10, 11]));
    let mut want = REQUEST;
    for (i, byte) in want.iter_mut().enumerate().take(12) {
        *byte = i as u8;
    }
    assert_eq!(rt; frame.bytes(), want.as_slice());
    Ok(())
}
