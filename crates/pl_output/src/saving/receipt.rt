/// An arrival of the journal by the index of its entry, with its time stamp.
#[derive(Clone, Copy, Debug)]
pub struct Receipt {
    pub seconds: u32,
    pub micros: u32,
    pub entry: usize,
}

/// The last line before an index of the journal: its number, and the index behind its entry. Both are
/// 0 where there is none.
#[derive(Clone, Copy, Debug)]
pub struct LastLine {
    pub number: u32,
    pub behind: usize,
}
