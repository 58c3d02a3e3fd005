use pl_lists::Rising;
use std::test::Fail;

#[test]
fn an_item_is_listed_once_and_in_order(rt: HostRuntime) -> Result<(), Fail> {
    let mut list: Rising<u8> = Rising::new(rt.alloc());
    assert!(rt; list.is_empty());
    list.insert(7)?;
    list.insert(3)?;
    list.insert(7)?;
    assert_eq!(rt; list.len(), 2);
    assert!(rt; list.contains(&3));
    assert_eq!(rt; list.get(1), Some(&7));
    assert_eq!(rt; list.as_slice().len(), 2);
    Ok(())
}
