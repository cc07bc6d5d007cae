//! The words of a split virtqueue in shared memory (VIRTIO 1.2, 2.7): a call for each load and
//! each store that the device makes of its rings.
#![tactic(auto)]

pub mod laws;
pub mod layout;
mod split;

pub use split::SplitRing;
