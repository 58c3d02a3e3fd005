ghost use Rattle.std.specs.Prelude.{◌<◌, length};

use pl_queue_array::{BitSet, CountedQueues};
use pl_queues::Counted;
use std::test::Fail;

#[derive(Drop)]
struct Flag(bool);

impl Counted for Flag {
    ghost counts = { λ flag. flag.0 };

    fn counts(&self) -> bool {
        self.0
    }
}

// Two flags wait, of which the first one counts, and it is taken.
fn take_one_of_two(queue_array: &mut CountedQueues<Flag>) -> Result<(), Fail>
    requires { 2 < length queue_array.old }
{
    queue_array.put(2, Flag(true))?;
    queue_array.put(2, Flag(false))?;
    match queue_array.take(2) {
        Some(Flag(true)) => Ok(()),
        _ => Err(Fail::from("the first flag was not taken")),
    }
}

#[test]
fn a_queue_array_counts_items_of_a_type_of_ones_own(rt: HostRuntime) -> Result<(), Fail> {
    let mut queue_array = CountedQueues::new(rt.alloc(), 3)?;
    take_one_of_two(&mut queue_array)?;
    if queue_array.counted() == 0 {
        Ok(())
    } else {
        Err(Fail::from("what was taken is counted yet"))
    }
}

#[test]
fn more_indices_than_memory_has_bits_are_refused(rt: HostRuntime) -> Result<(), Fail> {
    match BitSet::new(rt.alloc(), usize::MAX) {
        Ok(_) => Err(Fail::from("there is memory for a mark of each index")),
        Err(_) => Ok(()),
    }
}
