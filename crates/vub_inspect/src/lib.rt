//! What the bytes of one in-flight region say.
#![tactic(auto)]

mod inspect;
#[cfg(test)]
mod tests;

pub use inspect::{Inspected, inspect_split};
