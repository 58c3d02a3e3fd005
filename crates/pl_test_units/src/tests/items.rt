use pl_lists::Items;
use std::test::Fail;

#[test]
fn items_stand_in_the_order_in_which_they_came(rt: HostRuntime) -> Result<(), Fail> {
    let mut items: Items<u8> = Items::new(rt.alloc());
    assert!(rt; items.is_empty());
    items.push(5)?;
    items.push(3)?;
    assert_eq!(rt; items.len(), 2);
    assert_eq!(rt; items.get(1), Some(&3));
    assert_eq!(rt; items.as_slice().len(), 2);
    Ok(())
}
