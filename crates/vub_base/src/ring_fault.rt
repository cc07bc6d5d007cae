/// Why a chain of descriptors can't be followed (VIRTIO 1.2, 2.7.5).
#[derive(Clone, Copy, Debug, PartialEq, Eq)]
pub enum ChainFault {
    /// More descriptors than the queue has.
    Loop,
    /// A `next` past the table.
    BadIndex(u16),
    /// A readable descriptor after a writable one, at this position.
    BadOrder(u16),
    /// An address whose range isn't mapped.
    Unmapped(u64),
    /// An indirect descriptor that isn't allowed, at this position.
    BadIndirect(u16),
    /// A fault of shared memory.
    Failed,
}

/// Which rule of the ring the driver broke.
#[derive(Clone, Copy, Debug, PartialEq, Eq)]
pub enum RingFault {
    /// avail.idx is so far ahead, more than the queue's size.
    Jump(u16),
    /// A head past the descriptor table.
    BadHead(u16),
    /// A head that is open already.
    Twice(u16),
    /// No room for the chain at this slot.
    NoRoom(u16),
    /// A chain that can't be followed.
    Chain(ChainFault),
    /// A chain of this head without a byte for the status.
    NoStatus(u16),
}
