use pl_generator::{MemoryShelf, generate};
use std::test::Fail;

// Four ports, and two frames that are drawn from 1: from h12 to h4, and from h9 to h11.
const SCRIPT: &[u8] = b"start all
settle 64
send h12
send h9
random 7062582979898595269 20
settle 64
retry all
settle 64
";

const LAST_HOST: &[u8] = b"
[[host]]
name = \"h15\"
mac = \"02:00:00:00:00:0f\"
ip = \"10.1.0.16\"
edge = \"e3.1\"
port = 1
capture = \"h15.pcap\"
";

// Little-endian, microseconds, version 2.4, snapshot length 262,144, Ethernet.
const HEADER: &[u8] = b"\xd4\xc3\xb2\xa1\x02\0\x04\0\0\0\0\0\0\0\0\0\0\0\x04\0\x01\0\0\0";

// The capture of h9: its header, a record's head at second 1, and the frame.
const FROM_NINE: &[u8] = b"\xd4\xc3\xb2\xa1\x02\0\x04\0\0\0\0\0\0\0\0\0\0\0\x04\0\x01\0\0\0\
    \x01\0\0\0\0\0\0\0\x3c\0\0\0\x3c\0\0\0\
    \x02\0\0\0\0\x0b\x02\0\0\0\0\x09\x88\xb6\0\0\0\x01\
    \0\0\0\0\0\0\0\0\0\0\0\0\0\0\0\0\0\0\0\0\0\
    \0\0\0\0\0\0\0\0\0\0\0\0\0\0\0\0\0\0\0\0\0";

fn holds(shelf: &MemoryShelf, name: &str, bytes: &[u8]) -> bool {
    shelf.content(name) == Some(bytes)
}

fn ends_in(shelf: &MemoryShelf, name: &str, bytes: &[u8]) -> bool {
    match shelf.content(name) {
        Some(content) => content.ends_with(bytes),
        None => false,
    }
}

#[test]
fn two_frames_are_sent_and_recorded_by_their_sources(rt: HostRuntime) -> Result<(), Fail> {
    let shelf = generate(rt.alloc(), 4, 1, 2)?;
    assert!(rt; ends_in(&shelf, "topology.toml", LAST_HOST));
    assert!(rt; holds(&shelf, "script", SCRIPT));
    assert!(rt; holds(&shelf, "captures/h9.pcap", FROM_NINE));
    assert!(rt; holds(&shelf, "captures/h11.pcap", HEADER));
    Ok(())
}
