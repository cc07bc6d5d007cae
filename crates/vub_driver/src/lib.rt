//! The driver of a split virtqueue as a replay plays it: where it places a request in guest
//! memory, and its stores in their order (VIRTIO 1.2, 2.7.13).
#![tactic(auto)]

mod descriptors;
#[cfg(test)]
mod tests;

pub use descriptors::{descriptors_needed, has_data};
