//! The descriptors of a request in the table of a split ring (VIRTIO 1.2, 2.7.5).
#![tactic(auto)]

mod chain;

pub use chain::{Desc, Parts, Sectors, Span, Unread, lies_in, read_chain};
