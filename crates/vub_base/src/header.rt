/// How the virtqueues lie in memory (VIRTIO 1.2, 2.7 and 2.8).
#[derive(Clone, Copy, Debug, PartialEq, Eq)]
pub enum Format {
    Split,
    Packed,
}

/// How the device treats writes.
#[derive(Clone, Copy, Debug, PartialEq, Eq)]
pub enum CacheMode {
    /// Writes may be cached until a flush, which is negotiated.
    Back,
    /// Each write is stable once it is answered; no flush is negotiated.
    Through,
    /// The device is read-only.
    ReadOnly,
}

/// The first line of a schedule.
#[derive(Clone, Copy, Debug, PartialEq, Eq)]
pub struct Header1 {
    pub format: Format,
    /// The number of queues, 1 to 4.
    pub queues: u16,
    /// The size of each queue: 2, 4, 8, 16, 32 or 64.
    pub size: u16,
    /// The capacity in sectors of 512 bytes, 1 to 4096.
    pub capacity: u64,
    /// The index at which split rings begin; 0 for packed ones.
    pub base: u16,
    pub mode: CacheMode,
}
