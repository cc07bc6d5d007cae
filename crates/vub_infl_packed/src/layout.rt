//! Where the words of a packed queue's region stand, in bytes from its start (vhost-user, "Inflight
//! I/O tracking", `QueueRegionPacked` and `DescStatePacked`).

/// The features, 8 bytes, none of which has a meaning yet.
pub const FEATURES: u64 = 0;
/// The version, 2 bytes.
pub const VERSION: u64 = 8;
/// The number of descriptors, 2 bytes.
pub const DESC_NUM: u64 = 10;
/// The head of the free list, 2 bytes.
pub const FREE_HEAD: u64 = 12;
/// The head of the free list before the fetch or the batch under way, 2 bytes.
pub const OLD_FREE_HEAD: u64 = 14;
/// The index of the used position, 2 bytes.
pub const USED_IDX: u64 = 16;
/// The index of the used position before the batch under way, 2 bytes.
pub const OLD_USED_IDX: u64 = 18;
/// The wrap counter of the used position, 1 byte.
pub const USED_WRAP_COUNTER: u64 = 20;
/// The wrap counter of the used position before the batch under way, 1 byte.
pub const OLD_USED_WRAP_COUNTER: u64 = 21;
/// The first entry. 10 bytes before it are padding.
pub const ENTRIES: u64 = 32;

/// The bytes of an entry.
pub const ENTRY_SIZE: u64 = 32;
/// Whether the entry is in flight, 1 byte of it.
pub const ENTRY_INFLIGHT: u64 = 0;
/// The next entry of the free list or of its chain, 2 bytes of it.
pub const ENTRY_NEXT: u64 = 2;
/// The last entry of its chain, 2 bytes of it.
pub const ENTRY_LAST: u64 = 4;
/// How many entries its chain has, 2 bytes of it.
pub const ENTRY_NUM: u64 = 6;
/// The counter, 8 bytes of it.
pub const ENTRY_COUNTER: u64 = 8;
/// The id of its descriptor, 2 bytes of it.
pub const ENTRY_ID: u64 = 16;
/// The flags of its descriptor, 2 bytes of it.
pub const ENTRY_FLAGS: u64 = 18;
/// The length of its descriptor, 4 bytes of it.
pub const ENTRY_LEN: u64 = 20;
/// The guest address of its descriptor, 8 bytes of it.
pub const ENTRY_ADDR: u64 = 24;
