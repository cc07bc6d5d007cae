//! The bytes of a list of spans, joined in their order: how many they are, the part of them that lies
//! together, and loads of any of them. Of a chain's spans these are the bytes that a request hands over or
//! that an answer goes to (VIRTIO 1.2, 5.2.6).
#![tactic(auto)]

mod pieces;
#[cfg(test)]
mod tests;

pub use pieces::{Piece, gather, piece_at, total_len};
