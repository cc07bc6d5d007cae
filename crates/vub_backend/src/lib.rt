//! A life of the device: the queues that it has attached.
#![tactic(auto)]

mod backend;
#[cfg(test)]
mod tests;

pub use backend::{Backend, MOST_QUEUES};
