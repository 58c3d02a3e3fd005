use pl_pcapng::{Sections, is_pcapng};
use std::test::Fail;

const SECTION: [u8; 28] = [
    0x0a, 0x0d, 0x0d, 0x0a, 28, 0, 0, 0, 0x4d, 0x3c, 0x2b, 0x1a, 1, 0, 0, 0, 255, 255, 255, 255,
    255, 255, 255, 255, 28, 0, 0, 0,
];

const ETHERNET: [u8; 20] = [1, 0, 0, 0, 20, 0, 0, 0, 1, 0, 0, 0, 0, 0, 4, 0, 20, 0, 0, 0];

const PACKET: [u8; 36] = [
    6, 0, 0, 0, 36, 0, 0, 0, 0, 0, 0, 0, 0, 0, 0, 0, 0, 0, 0, 0, 3, 0, 0, 0, 60, 0, 0, 0, 7, 8, 9,
    0, 36, 0, 0, 0,
];

#[test]
fn with_memory_a_record_and_a_tail_are_read(rt: HostRuntime) -> Result<(), Fail> {
    let mut file = Vec::from_slice(rt.alloc(), &SECTION)?;
    file.extend_from_slice(&ETHERNET)?;
    file.extend_from_slice(&PACKET)?;
    file.extend_from_slice(&[6, 0])?;
    if !is_pcapng(&file) {
        return Err(Fail::from("no section header"));
    }
    let mut cursor = Sections::begin(rt.alloc(), &file)?;
    let Some(captured) = cursor.next(&file)? else {
        return Err(Fail::from("no record"));
    };
    if (captured.at, captured.start, captured.len, captured.original) != (48, 76, 3, 60) {
        return Err(Fail::from("another record"));
    }
    if cursor.next(&file)?.is_some() || cursor.tail(&file) != 2 {
        return Err(Fail::from("another end"));
    }
    Ok(())
}
