//! Shared memory: spaces of bytes that several processes load and store, by aligned words that are
//! whole.
#![tactic(auto)]

mod fault;
mod held;
mod kept;
mod mem_shared;
mod shared;
mod spaces;
#[cfg(test)]
mod tests;
mod trail;
mod trail_shared;
mod watched_shared;
mod words;

pub use fault::SharedFault;
pub use mem_shared::MemShared;
pub use shared::Shared;
pub use trail_shared::TrailShared;
pub use watched_shared::WatchedShared;
pub use words::{load_u8, load_u16, load_u32, load_u64};
