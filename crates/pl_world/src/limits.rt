/// How long a run may become.
#[derive(Clone, Copy, Debug, PartialEq, Eq)]
pub struct Limits {
    /// Steps.
    pub steps: u64,
    /// Entries of the journal.
    pub entries: u64,
    /// Bytes of the frames in the journal.
    pub bytes: u64,
}
