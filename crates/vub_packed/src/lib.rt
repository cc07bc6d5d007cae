//! The words of a packed virtqueue in shared memory (VIRTIO 1.2, 2.8): a call for each load and each
//! store that the device makes of its slots, and positions on it.
#![tactic(auto)]

pub mod laws;
mod packed;
#[cfg(test)]
mod tests;

pub use packed::{PackedDesc, PackedRing};
pub use vub_base::{Position, is_available, is_used};
