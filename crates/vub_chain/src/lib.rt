//! Chains of descriptors, as the device walks them in either format (VIRTIO 1.2, 2.7.5 and 2.8.6).
#![tactic(auto)]

pub mod laws;
mod spans;
#[cfg(test)]
mod tests;
mod walk;

pub use spans::{Span, Spans};
pub use walk::{Desc, walk_list, walk_split};
