use thiserror::Error;

/// Why a step is not made.
#[derive(Clone, Copy, Debug, Drop, Error, PartialEq, Eq)]
pub enum StepError {
    #[error("as many steps were made as may be")]
    StepsSpent,
    #[error("the journal is as long as it may be")]
    JournalFull,
    #[error("the wiring has no such queue, link, port, switch or host")]
    NoSuch,
    #[error("another host stands there")]
    Occupied,
    #[error("it is so already")]
    AlreadySo,
    #[error("the queue is empty")]
    NothingThere,
    #[error("out of memory")]
    Memory,
}
