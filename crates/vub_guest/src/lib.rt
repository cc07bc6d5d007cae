//! The driver of a split virtqueue, which places its requests in guest memory, one store a step
//! (VIRTIO 1.2, 2.7.13 and 2.7.14), and where it places them.
#![tactic(auto)]

mod guest;
pub mod laws;
pub mod layout;
#[cfg(test)]
mod tests;

pub use guest::{Collected, Guest, GuestStep};
