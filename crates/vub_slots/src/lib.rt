//! The slots of a packed virtqueue between driver and device (VIRTIO 1.2, 2.8), counted on without
//! end: where their words stand, what waits in them and what is seen of them, and what holds of them
//! between any two stores.
#![tactic(auto)]

pub mod laws;
