//! What the bytes of a block request mean, and what the device tells of itself: its features and its
//! config space (VIRTIO 1.2, 5.2).
#![tactic(auto)]

mod config;
mod features;
mod request;
mod request_type;
#[cfg(test)]
mod tests;

pub use config::{CONFIG_SIZE, DeviceConfig, MAX_PART_SECTORS, MAX_PARTS, config_space};
pub use features::{Features, ProtocolFeatures, offered_features, offered_protocol_features};
pub use request::{DeviceMode, FRONT_SIZE, HEADER_SIZE, PART_SIZE, Request, STATUS_SIZE, parse};
