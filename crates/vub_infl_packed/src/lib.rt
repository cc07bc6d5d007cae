//! The in-flight region of a packed queue (vhost-user, "Inflight I/O tracking"): calls for its header
//! and its entries, one for each store, and what the whole region says.
#![tactic(auto)]

pub mod laws;
pub mod layout;
mod reading;
mod region;
mod store;
#[cfg(test)]
mod tests;
mod unchecked;
mod walks;

pub use region::{PackedEntry, PackedHeader, PackedRegion};
pub use store::PackedStore;
pub use vub_base::{Position, Reading};
