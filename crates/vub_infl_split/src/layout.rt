//! Where the words of a split queue's region stand, in bytes from its start (vhost-user, "Inflight
//! I/O tracking", `QueueRegionSplit` and `DescStateSplit`).

/// The features, 8 bytes, none of which has a meaning yet.
pub const FEATURES: u64 = 0;
/// The version, 2 bytes.
pub const VERSION: u64 = 8;
/// The number of descriptors, 2 bytes.
pub const DESC_NUM: u64 = 10;
/// The head of the last batch that was linked, 2 bytes.
pub const LAST_BATCH_HEAD: u64 = 12;
/// used.idx as it was noted last, 2 bytes.
pub const USED_IDX: u64 = 14;
/// The first entry.
pub const DESC: u64 = 16;

/// The bytes of an entry.
pub const DESC_SIZE: u64 = 16;
/// Whether the descriptor is in flight, in its entry, 1 byte.
pub const DESC_INFLIGHT: u64 = 0;
/// The next descriptor of its batch, in its entry, 2 bytes.
pub const DESC_NEXT: u64 = 6;
/// The counter, in its entry, 8 bytes.
pub const DESC_COUNTER: u64 = 8;
