//! The numbers of the message specification, and the sizes that follow from them.

/// The numbers of the front end's requests ("Front-end message types").
pub const GET_FEATURES: u32 = 1;

pub const SET_FEATURES: u32 = 2;

pub const SET_OWNER: u32 = 3;

pub const SET_MEM_TABLE: u32 = 5;

pub const SET_VRING_NUM: u32 = 8;

pub const SET_VRING_ADDR: u32 = 9;

pub const SET_VRING_BASE: u32 = 10;

pub const GET_VRING_BASE: u32 = 11;

pub const SET_VRING_KICK: u32 = 12;

pub const SET_VRING_CALL: u32 = 13;

pub const SET_VRING_ERR: u32 = 14;

pub const GET_PROTOCOL_FEATURES: u32 = 15;

pub const SET_PROTOCOL_FEATURES: u32 = 16;

pub const GET_QUEUE_NUM: u32 = 17;

pub const SET_VRING_ENABLE: u32 = 18;

pub const GET_CONFIG: u32 = 24;

pub const SET_CONFIG: u32 = 25;

pub const GET_INFLIGHT_FD: u32 = 31;

pub const SET_INFLIGHT_FD: u32 = 32;

/// The version of the protocol ("Header").
pub const VERSION: u32 = 1;

/// The flags of a reply: the version and the bit of a reply.
pub const REPLY_FLAGS: u32 = 5;

/// The bytes of a header.
pub const HEADER_SIZE: usize = 12;

/// The most bytes of a payload that is accepted.
pub const MAX_PAYLOAD_SIZE: u32 = 4096;

/// The most bytes of a message: a header and a payload.
pub const MAX_MESSAGE_SIZE: usize = HEADER_SIZE + MAX_PAYLOAD_SIZE as usize;

/// The bytes of a payload of one number, or of a queue's index and another number.
pub const NUMBER_SIZE: usize = 8;

/// The bytes of a ring's addresses.
pub const VRING_ADDR_SIZE: usize = 40;

/// The bytes of a memory table before its regions.
pub const TABLE_HEADER_SIZE: usize = 8;

/// The bytes of a region in a memory table.
pub const REGION_SIZE: usize = 32;

/// The most regions that a memory table carries.
pub const MAX_REGIONS: usize = 127;

/// The bytes of a payload for config space before its content.
pub const CONFIG_HEADER_SIZE: usize = 12;

/// The bytes of config space ("VHOST_USER_MAX_CONFIG_SIZE").
pub const MAX_CONFIG_SIZE: usize = 256;

/// The bytes of an in-flight payload, in its short form and in its long one.
pub const INFLIGHT_SIZE: usize = 20;

pub const LONG_INFLIGHT_SIZE: usize = 24;

/// The most bytes that a cutter holds: two of the longest messages.
pub const CUTTER_CAPACITY: usize = 2 * MAX_MESSAGE_SIZE;
