use thiserror::Error;

/// Why a text gave no schedule.
#[derive(Clone, Copy, Debug, PartialEq, Eq, Error)]
pub enum ScheduleFault {
    /// The number of the first line outside the grammar, from 1.
    #[error("bad line {0}")]
    BadLine(u64),
    /// Want of memory.
    #[error("not enough memory")]
    Memory,
}
