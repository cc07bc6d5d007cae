//! Whole runs, worked out by hand and tried on the definitions.
#![tactic(auto)]

mod rows;

pub use rows::{attaching, one_read, one_write};
