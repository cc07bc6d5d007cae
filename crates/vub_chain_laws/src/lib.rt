//! Laws of chains over the driver's layout: what a walk finds in the chains that the driver makes.
#![tactic(auto)]

pub mod laws;
