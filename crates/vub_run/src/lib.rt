//! What it means that records are a run of a schedule: definitions alone.
#![tactic(auto)]
