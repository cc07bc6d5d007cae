//! The block device as its driver may see it: entries of its history and which of them are allowed.
#![tactic(auto)]

mod crash;
mod entry;
mod laws;
mod legal;
mod meaning;
mod past;

pub use entry::{AnswerList, Answered, Asked, Entry, NumberList, SectorList, SectorValue};
pub use laws::{each_front_is_legal, published_once};
pub use legal::{is_allowed, is_legal};
pub use meaning::refusal;

#[cfg(test)]
mod tests;
