ghost use Rattle.std.specs.Prelude.{IfSome};
ghost use Rattle.pl_node.specs.SwitchFacts.{CanBoot, IsTreeSize};

use pl_frame::SwitchId;
use pl_test_words::{byte, first_word, id};

/// An id and a number of ports.
pub(crate) fn switch(text: &str) -> Option<(SwitchId, u8)>
    ensures { IfSome result (λ switch. CanBoot switch.0 switch.1) }
{
    let (first, second) = first_word(text);
    let id = id(first)?;
    let k = tree_size(second)?;
    if id.0 == 0 || id.0 >= 1 << 48 {
        return None;
    }
    Some((id, k))
}

/// An even number of ports from 4 to 24.
pub(crate) fn tree_size(text: &str) -> Option<u8>
    ensures { IfSome result IsTreeSize }
{
    let k = byte(text)?;
    if k < 4 || k > 24 || k % 2 != 0 {
        return None;
    }
    Some(k)
}
