//! The recovery of a split queue's in-flight region (vhost-user, "Inflight I/O tracking"): the checks
//! of a start, and its stores one after another.
#![tactic(auto)]

pub mod laws;
mod plan;
mod recovery;
#[cfg(test)]
mod tests;

pub use plan::Recovered;
pub use recovery::SplitRecovery;
pub use vub_steps::Plan;
