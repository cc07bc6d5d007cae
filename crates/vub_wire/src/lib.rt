//! Messages of vhost-user, both ways, and a cutter that finds them in any chunking of a stream
//! (QEMU's "Vhost-user Protocol", "Message Specification"). Numbers stand lowest byte first.
#![tactic(auto)]

mod cutter;
mod fault;
mod flags;
pub mod laws;
mod messages;
pub mod numbers;
mod reading;
mod replies;
mod requests;
#[cfg(test)]
mod tests;
mod writing;

pub use cutter::Cutter;
pub use fault::WireFault;
pub use flags::HeaderFlags;
pub use messages::{Config, Header, Inflight, Message, Reply, ReplyBody};
pub use reading::read_message;
pub use replies::{read_reply, write_reply};
pub use writing::{number_of, write_message};
