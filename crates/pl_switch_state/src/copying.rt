ghost use Rattle.std.specs.Prelude.{◌≡◌, IfOk};

use pl_node::{Memory, TreePart};
use std::alloc::Global;

/// The same part of a tree.
pub(crate) fn copy_part(alloc: Global, part: &TreePart) -> Result<TreePart, Memory>
    ensures { IfOk result (λ copy. copy ≡ part.now) }
{
    let down = part.down.copied(alloc)?;
    Ok(TreePart { up: part.up, down })
}
