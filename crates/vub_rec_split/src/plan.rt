//! What a start finds, and what its steps answer.
use vub_base::{RegionFault, Tag};
use vub_infl_split::SplitStore;
use vub_steps::Plan;

/// What a step of a recovery was.
#[derive(Clone, Copy, Debug, PartialEq, Eq)]
pub enum Recovered {
    /// It made a store, that of the row with this tag.
    Stored(Tag),
    /// No store is left.
    Done,
    /// The shared memory failed.
    Failed,
    /// The first step found that the region can't be read.
    Damaged(RegionFault),
}

/// What a step has to do.
#[derive(Clone, Copy, Debug, PartialEq, Eq)]
pub(crate) enum Found {
    /// A store of a plan.
    Store(Plan, SplitStore),
    /// No store is left.
    Nothing,
    /// The region can't be read.
    Damaged(RegionFault),
}
