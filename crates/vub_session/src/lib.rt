//! A session of vhost-user: what each message of the front end does to its state, what it answers and
//! what it refuses (QEMU's "Vhost-user Protocol").
#![tactic(auto)]

mod finding;
mod handled;
pub mod laws;
mod lookup;
mod names;
mod ready;
mod rows;
mod session;
mod state;
mod table;
#[cfg(test)]
mod tests;

pub use handled::{Handled, Refusal, SessionFault};
pub use names::Names;
pub use session::Session;
pub use state::{Addresses, KeptRegion, MAX_QUEUE_SIZE, MAX_QUEUES, Ring, State, Terms};
