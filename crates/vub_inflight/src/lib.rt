//! Entries of an in-flight region of either format, their links and their counters (vhost-user, "Inflight I/O tracking").
#![tactic(auto)]

mod counters;
mod marks;

pub use counters::bad_counter;
pub use marks::{MOST_ENTRIES, Marks, is_bad};
