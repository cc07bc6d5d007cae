//! The step table of a queue: the steps of each phase in their order, the store of each, and which
//! turn is ready.
#![tactic(auto)]

mod readiness;
mod steps;
#[cfg(test)]
mod tests;

pub use readiness::{Choice, Standing, Turn, is_ready};
pub use steps::{Phase, Plan, Step, after_running, next_running};
