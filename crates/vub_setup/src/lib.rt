//! What a queue is made from: where its rings and its part of the in-flight region lie, and where it
//! begins (VIRTIO 1.2, 2.7 and 2.8; vhost-user, "Inflight I/O tracking").
#![tactic(auto)]

mod setup;

pub use setup::{QueueSetup, Rings, region_size};
pub use vub_infl_packed::PackedRegion;
pub use vub_infl_split::SplitRegion;
