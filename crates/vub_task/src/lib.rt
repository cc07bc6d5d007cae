//! A request at work: one step at a time (VIRTIO 1.2, 5.2.6).
#![tactic(auto)]

mod task;

pub use task::{Task, TaskStep};
