//! The in-flight region of a split queue (vhost-user, "Inflight I/O tracking"): a call for each word
//! of it that is loaded, one for each store, and what the whole region says.
#![tactic(auto)]

pub mod laws;
pub mod layout;
mod reading;
mod region;
#[cfg(test)]
mod tests;
mod unchecked;

pub use region::{SplitRegion, SplitStore};
pub use vub_base::Reading;
