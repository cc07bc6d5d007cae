//! What every crate of the backend speaks of: the outside as sources, sinks and bells with counts
//! of faults, fields of numbers in bytes, and the types that headers, requests and records are
//! made of.
#![tactic(auto)]

mod bell;
mod bytes;
mod faults;
mod fields;
mod header;
mod mem_bell;
mod mem_sink;
mod mem_source;
mod pending;
mod position;
mod reading;
mod request;
mod ring_fault;
mod sink;
mod source;
pub mod standard;
mod store;
#[cfg(test)]
mod tests;

pub use bell::Bell;
pub use bytes::Bytes;
pub use faults::{Failed, Memory};
pub use fields::{get_u16, get_u32, get_u64, put_u16, put_u32, put_u64};
pub use header::{CacheMode, Format, Header1};
pub use mem_bell::MemBell;
pub use mem_sink::MemSink;
pub use mem_source::MemSource;
pub use pending::{Pending, PendingList};
pub use position::{Position, is_available, is_used};
pub use reading::{Reading, RegionFault};
pub use request::{Ask, Part, Shape};
pub use ring_fault::{ChainFault, RingFault};
pub use sink::Sink;
pub use source::Source;
pub use store::{Area, Space, Tag};
