use pl_lists::PortSet;
use std::test::Fail;

#[test]
fn ports_are_counted_from_the_lowest(rt: HostRuntime) -> Result<(), Fail> {
    let mut ports = PortSet::empty();
    ports.insert(5);
    ports.insert(2);
    ports.insert(31);
    ports.remove(5);
    assert_eq!(rt; ports, PortSet(0x8000_0004));
    assert_eq!(rt; ports.len(), 2);
    assert_eq!(rt; ports.nth(1), Some(31));
    assert!(rt; ports.contains(2));
    Ok(())
}
