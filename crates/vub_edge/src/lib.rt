//! The outside as the operating system gives it: the traits of the outside over files and streams
//! of std. Of their content std tells nothing, so these forms tell none; of a file, a reader or a
//! writer whose content is told, they read and write just what they are asked for.
#![tactic(auto)]

mod counting;
mod file_bell;
mod file_disk;
mod file_shared;
mod file_space;
mod opening;
mod placed_file;
mod spaces;
mod streams;
#[cfg(test)]
mod tests;

pub use file_bell::FileBell;
pub use file_disk::FileDisk;
pub use file_shared::FileShared;
pub use placed_file::PlacedFile;
pub use streams::{FileSink, FileSource};
