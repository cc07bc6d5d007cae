//! Where the words of a split virtqueue stand, in bytes from the start of their part.

/// The bytes of a descriptor in the descriptor table (VIRTIO 1.2, 2.7.5).
pub const DESC_SIZE: usize = 16;
/// The address of its buffer, in a descriptor.
pub const DESC_ADDR: usize = 0;
/// The length of its buffer, in a descriptor.
pub const DESC_LEN: usize = 8;
/// The flags of a descriptor.
pub const DESC_FLAGS: usize = 12;
/// The index of the descriptor that follows, in a descriptor.
pub const DESC_NEXT: usize = 14;

/// The word avail.idx, in the avail ring (2.7.6).
pub const AVAIL_IDX: u64 = 2;
/// The first entry of the avail ring.
pub const AVAIL_RING: u64 = 4;
/// The bytes of an entry of the avail ring.
pub const AVAIL_ENTRY_SIZE: u64 = 2;

/// The word used.idx, in the used ring (2.7.8).
pub const USED_IDX: u64 = 2;
/// The first element of the used ring.
pub const USED_RING: u64 = 4;
/// The bytes of an element of the used ring: its id, and behind it its length.
pub const USED_ELEMENT_SIZE: u64 = 8;
/// The length of an element of the used ring, in the element.
pub const USED_ELEMENT_LEN: u64 = 4;
