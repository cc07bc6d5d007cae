//! The world of a schedule: guest memory with its driver, the device and its disk, and the records
//! of what happens between them.
#![tactic(auto)]

mod bell;
mod device;
mod driver_side;
mod indexes;
mod machine;
mod notes;
mod outstanding;
mod regions;
#[cfg(test)]
mod tests;
mod turns;
mod world;

pub use world::World;
