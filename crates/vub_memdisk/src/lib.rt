//! A disk in memory.
#![tactic(auto)]

mod mem_disk;
#[cfg(test)]
mod tests;

pub use mem_disk::MemDisk;
