/// Why an in-flight region can't be read: the first of these that applies, in this order.
#[derive(Clone, Copy, Debug, PartialEq, Eq)]
pub enum RegionFault {
    /// The version, which is neither 0 nor 1.
    BadVersion(u16),
    /// The region was never made, and the queue can't start from this base. Split: it isn't
    /// used.idx. Packed: its avail half isn't its used half, or its index isn't below the queue
    /// size.
    BadBase(u32),
    /// The number of descriptors, which isn't the queue size.
    BadCount(u16),
    /// Split: how far used.idx is ahead of the region's used index, more than the queue size.
    /// Packed: a used index that isn't below the queue size, a wrap counter above 1, or the index of
    /// a used position that isn't 0 to queue size slots past the old one.
    BadUsed(u16),
    /// Packed: the first link of the free list that is above the queue size, at which the list would
    /// end, or that was met before.
    BadFree(u16),
    /// Split: the first link of the last batch that isn't below the queue size or was met before.
    /// Packed: a head whose chain has no entries, a link of a chain that isn't below the queue size,
    /// is free or was met before, or a `last` at which its chain doesn't end.
    BadLink(u16),
    /// Packed: how many entries the chains of the open heads have together, which isn't how many
    /// aren't free.
    BadSum(u32),
    /// The lowest open entry whose counter is 2^64 - 1, so that no counter is left.
    LastCounter(u16),
    /// Two open entries of one counter: the lowest that shares it with one above, and the lowest of
    /// those above.
    SameCounter(u16, u16),
}

/// What an in-flight region says.
#[derive(Clone, Copy, Debug, PartialEq, Eq)]
pub enum Reading {
    /// The region was never made.
    Uninitialised,
    /// It was made, and the open entries were read.
    Entries,
    /// It can't be read.
    Damaged(RegionFault),
}
