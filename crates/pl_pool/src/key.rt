/// The key of an item in a pool. It stands for that item until the item leaves, and may then be given again.
#[derive(Clone, Copy, Debug, PartialEq, Eq, Drop)]
pub struct Key {
    pub slot: usize,
}
