use pl_lists::Queue;
use std::test::Fail;

#[test]
fn the_item_that_came_first_is_taken_first(rt: HostRuntime) -> Result<(), Fail> {
    let mut queue: Queue<u8> = Queue::new(rt.alloc());
    assert!(rt; queue.is_empty());
    queue.push(3)?;
    queue.push(5)?;
    assert_eq!(rt; queue.len(), 2);
    assert_eq!(rt; queue.get(1), Some(&5));
    assert_eq!(rt; queue.take_first(), Some(3));
    assert_eq!(rt; queue.take_first(), Some(5));
    assert_eq!(rt; queue.take_first(), None);
    queue.push(7)?;
    queue.clear();
    assert!(rt; queue.is_empty());
    Ok(())
}
