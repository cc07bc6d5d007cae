//! Where the device's side of a queue stands at the moments of a run: definitions and what they give.
#![tactic(auto)]
