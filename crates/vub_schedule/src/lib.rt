//! Schedules, and their text both ways.
#![tactic(auto)]

mod fault;
mod laws;
mod parsing;
mod reading;
#[cfg(test)]
mod tests;
mod types;
pub mod writing;

pub use fault::ScheduleFault;
pub use laws::{one_first_bad_line, one_text_one_schedule};
pub use parsing::parse_schedule;
pub use types::{Event, Events, Schedule};
pub use writing::write_schedule;
