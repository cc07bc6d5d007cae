//! Memory that is reserved for the items of an event before it changes anything.
#![tactic(auto)]

mod room;
mod spare;

pub use room::Room;
pub use spare::{MOST_LISTS, Spare};
