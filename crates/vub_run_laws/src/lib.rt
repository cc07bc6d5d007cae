//! Laws of all runs.
#![tactic(auto)]

mod laws;

pub use laws::{
    every_answer_is_spared, every_drain_ends, every_drain_serves, every_driver_store_is_lawful,
    every_entry_is_whole, every_open_request_is_meant, every_outstanding_chain_stands,
    every_run_is_legal, every_schedule_runs,
};
