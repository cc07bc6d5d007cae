//! The device's side of one queue: each turn makes one step.
#![tactic(auto)]

mod queue;
#[cfg(test)]
mod tests;

pub use queue::{Queue, Stepped, Stop};
pub use vub_steps::{Choice, Turn};
