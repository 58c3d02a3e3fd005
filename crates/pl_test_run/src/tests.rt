use pl_inputs::Status;
use pl_run::portland;
use pl_shelf::MemoryShelf;
use std::alloc::{AllocError, Global};
use std::test::Fail;

mod failing;
mod too_long;

const HOST_A: &[u8] = b"[[host]]
name = \"a\"
mac = \"02:00:00:00:00:0a\"
ip = \"10.0.0.1\"
edge = \"e0.0\"
port = 0
";

const HOST_B: &[u8] = b"[[host]]
name = \"b\"
mac = \"02:00:00:00:00:0b\"
ip = \"10.0.0.2\"
edge = \"e0.0\"
port = 1
";

const SCRIPT: &[u8] = b"start all\nsettle 64\nsend a\nsettle 64\n";

// The addresses of the hosts.
const OWN_A: &[u8] = b"\x02\0\0\0\0\x0a";

const OWN_B: &[u8] = b"\x02\0\0\0\0\x0b";

// Little-endian, microseconds, version 2.4, snapshot length 262,144, Ethernet.
const HEADER: &[u8] = b"\xd4\xc3\xb2\xa1\x02\0\x04\0\0\0\0\0\0\0\0\0\0\0\x04\0\x01\0\0\0";

// The names that a run of hosts a and b saves, in order.
const SAVED: [&str; 4] = ["out/a.pcap", "out/b.pcap", "out/journal.txt", "-"];

fn joined(alloc: Global, parts: &[&[u8]]) -> Result<Vec<u8>, AllocError> {
    let mut all = Vec::new(alloc);
    for part in parts {
        all.extend_from_slice(part)?;
    }
    Ok(all)
}

// The capture of one frame of 60 bytes from a to b.
fn capture(alloc: Global) -> Result<Vec<u8>, AllocError> {
    let lengths = b"\x3c\0\0\0\x3c\0\0\0";
    joined(
        alloc,
        &[
            HEADER,
            &[0; 8],
            lengths,
            OWN_B,
            OWN_A,
            b"\x88\xb6",
            &[0; 46],
        ],
    )
}

// A shelf that has the files of the first path, and room for what it saves.
fn first_path(alloc: Global) -> Result<MemoryShelf, Fail> {
    let a_captures = b"capture = \"a-in.pcap\"\n";
    let topology = joined(alloc, &[b"k = 4\n", HOST_A, a_captures, HOST_B])?;
    let mut shelf = MemoryShelf::new(alloc, 64);
    shelf.hold("t", &topology)?;
    shelf.hold("s", SCRIPT)?;
    shelf.hold("in/a-in.pcap", &capture(alloc)?)?;
    for name in SAVED {
        shelf.allow(name, 10_000)?;
    }
    Ok(shelf)
}

fn play(alloc: Global, shelf: &mut MemoryShelf) -> Status {
    let words = [
        "portland",
        "run",
        "--topology=t",
        "--script=s",
        "--captures=in",
        "--out=out",
    ];
    portland(alloc, &words, shelf)
}

// What a name has that nothing was saved to.
fn untouched(name: &str) -> Option<&'static [u8]> {
    if name == "-" { Some(&[]) } else { None }
}
