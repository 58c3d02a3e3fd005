use super::{SAVED, first_path, play, untouched};
use std::test::Fail;

#[test]
fn a_script_of_more_than_16_mib_is_too_long(rt: HostRuntime) -> Result<(), Fail> {
    let alloc = rt.alloc();
    let mut shelf = first_path(alloc)?;
    let long = vec![in alloc; b'\n'; (16 << 20) + 1]?;
    shelf.hold("s", &long)?;
    let status = play(alloc, &mut shelf);
    let line = format!(in alloc; "{status}")?;
    assert_eq!(rt; line.as_str(), "portland: too long: s");
    let untouched = SAVED
        .iter()
        .all(|name| shelf.content(name) == untouched(name));
    assert!(rt; untouched);
    Ok(())
}
