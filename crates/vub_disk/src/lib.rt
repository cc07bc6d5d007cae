//! Disks of sectors of 512 bytes.
#![tactic(auto)]

mod disk;
mod no_disk;

pub use disk::Disk;
pub use no_disk::NoDisk;
