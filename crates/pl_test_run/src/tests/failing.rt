use super::{HEADER, HOST_A, HOST_B, first_path, joined, play, untouched};
use pl_inputs::Status;
use pl_shelf::MemoryShelf;
use std::alloc::Global;
use std::test::Fail;

const HOST_C: &[u8] = b"[[host]]
name = \"c\"
mac = \"02:00:00:00:00:0c\"
ip = \"10.0.0.3\"
edge = \"e0.0\"
port = 2
";

// The names of a run in the order of its calls: three are read, and then four saved.
const NAMES: [&str; 7] = [
    "t",
    "s",
    "in/a-in.pcap",
    "out/a.pcap",
    "out/b.pcap",
    "out/journal.txt",
    "-",
];

// The index of the name at which a call failed.
fn port_index(alloc: Global, status: &Status) -> Result<usize, Fail> {
    let line = format!(in alloc; "{status}")?;
    for (index, name) in NAMES.iter().enumerate() {
        let does = if index < 3 { "read" } else { "write" };
        if line == format!(in alloc; "portland: cannot {does} {name}")? {
            return Ok(index);
        }
    }
    Err(Fail::from("no fault"))
}

fn is_absent_or_cut(found: Option<&[u8]>, whole: Option<&[u8]>) -> bool {
    match (found, whole) {
        (None, _) => true,
        (Some(found), Some(whole)) => found.len() < whole.len() && whole.starts_with(found),
        _ => false,
    }
}

// Whether the names before the index are whole, the one at it is absent or cut off, and those behind
// it are as they were.
fn is_broken_off(shelf: &MemoryShelf, whole: &MemoryShelf, broken: usize) -> bool {
    for (index, name) in NAMES.iter().enumerate().skip(3) {
        let (found, text) = (shelf.content(name), whole.content(name));
        let stands = if index < broken {
            found == text
        } else if index == broken {
            is_absent_or_cut(found, text)
        } else {
            found == untouched(name)
        };
        if !stands {
            return false;
        }
    }
    true
}

#[test]
fn each_call_that_fails_is_told_by_its_name(rt: HostRuntime) -> Result<(), Fail> {
    let alloc = rt.alloc();
    let mut whole = first_path(alloc)?;
    assert!(rt; matches!(play(alloc, &mut whole), Status::Done));
    let mut last = 0;
    for call in 1..=whole.calls() {
        let mut shelf = first_path(alloc)?;
        shelf.fail_at(call)?;
        let index = port_index(alloc, &play(alloc, &mut shelf))?;
        assert!(rt; last <= index && index - last <= 1, "at call {call}");
        assert!(rt; is_broken_off(&shelf, &whole, index), "at call {call}");
        last = index;
    }
    assert_eq!(rt; last, 6);
    Ok(())
}

// The topology is read in two calls and the script in one, and each header takes a creation and two
// writes.
#[test]
fn a_header_is_cut_off_at_its_second_write(rt: HostRuntime) -> Result<(), Fail> {
    let alloc = rt.alloc();
    let mut shelf = MemoryShelf::new(alloc, 16);
    shelf.hold("t", &joined(alloc, &[b"k = 6\n", HOST_A, HOST_B, HOST_C])?)?;
    shelf.hold("s", b"")?;
    for name in [
        "out/a.pcap",
        "out/b.pcap",
        "out/c.pcap",
        "out/journal.txt",
        "-",
    ] {
        shelf.allow(name, 10_000)?;
    }
    shelf.fail_at(12)?;
    let status = play(alloc, &mut shelf);
    let line = format!(in alloc; "{status}")?;
    assert_eq!(rt; line.as_str(), "portland: cannot write out/c.pcap");
    assert!(rt; shelf.content("out/a.pcap") == Some(HEADER));
    assert!(rt; shelf.content("out/b.pcap") == Some(HEADER));
    assert!(rt; shelf.content("out/c.pcap") == Some(&HEADER[..16]));
    assert!(rt; shelf.content("out/journal.txt") == None);
    assert!(rt; shelf.content("-") == untouched("-"));
    Ok(())
}
