//! The numbers of the standard, each under its name there (VIRTIO 1.2).

/// The bytes of a sector (5.2.4).
pub const SECTOR_SIZE: usize = 512;

/// The bytes of a request's header: its type, four reserved bytes, and its first sector (5.2.6).
pub const REQUEST_HEADER_SIZE: usize = 16;
/// Where the type of a request stands in its header.
pub const REQUEST_TYPE: usize = 0;
/// Where the first sector of a request stands in its header.
pub const REQUEST_SECTOR: usize = 8;

/// The bytes that an id request reads (5.2.6).
pub const VIRTIO_BLK_ID_BYTES: usize = 20;

/// A request that reads sectors (5.2.6).
pub const VIRTIO_BLK_T_IN: u32 = 0;
/// A request that writes sectors.
pub const VIRTIO_BLK_T_OUT: u32 = 1;
/// A request that makes all that was written stable.
pub const VIRTIO_BLK_T_FLUSH: u32 = 4;
/// A request that reads the name of the device.
pub const VIRTIO_BLK_T_GET_ID: u32 = 8;
/// A request that gives up sectors.
pub const VIRTIO_BLK_T_DISCARD: u32 = 11;
/// A request that writes zeros.
pub const VIRTIO_BLK_T_WRITE_ZEROES: u32 = 13;

/// The flag of a part of a zeroing that lets the device unmap its sectors (5.2.6).
pub const VIRTIO_BLK_WRITE_ZEROES_FLAG_UNMAP: u32 = 1;

/// The status of success (5.2.6).
pub const VIRTIO_BLK_S_OK: u8 = 0;
/// The status of an error of the device or of the driver.
pub const VIRTIO_BLK_S_IOERR: u8 = 1;
/// The status of a request that the device doesn't support.
pub const VIRTIO_BLK_S_UNSUPP: u8 = 2;

/// Another descriptor follows this one (2.7.5).
pub const VIRTQ_DESC_F_NEXT: u16 = 1;
/// The device may write the buffer of this descriptor, else read it.
pub const VIRTQ_DESC_F_WRITE: u16 = 2;
/// The buffer of this descriptor is a table of descriptors (2.7.5.3).
pub const VIRTQ_DESC_F_INDIRECT: u16 = 4;
/// The bit of a slot's flags that the driver sets to its wrap counter (2.8.1).
pub const VIRTQ_DESC_F_AVAIL: u16 = 1 << 7;
/// The bit of a slot's flags that the device sets to its wrap counter.
pub const VIRTQ_DESC_F_USED: u16 = 1 << 15;

/// The number of the feature by which config.seg_max is valid (5.2.3).
pub const VIRTIO_BLK_F_SEG_MAX: u32 = 2;
/// The number of the feature of a read-only device.
pub const VIRTIO_BLK_F_RO: u32 = 5;
/// The number of the feature by which config.blk_size is valid.
pub const VIRTIO_BLK_F_BLK_SIZE: u32 = 6;
/// The number of the feature of a flush.
pub const VIRTIO_BLK_F_FLUSH: u32 = 9;
/// The number of the feature of several queues, config.num_queues of them.
pub const VIRTIO_BLK_F_MQ: u32 = 12;
/// The number of the feature of a discard.
pub const VIRTIO_BLK_F_DISCARD: u32 = 13;
/// The number of the feature of a zeroing.
pub const VIRTIO_BLK_F_WRITE_ZEROES: u32 = 14;

/// The number of the feature by which descriptors may name tables (6).
pub const VIRTIO_F_INDIRECT_DESC: u32 = 28;
/// The number of the feature of version 1 of the standard.
pub const VIRTIO_F_VERSION_1: u32 = 32;
/// The number of the feature of packed virtqueues.
pub const VIRTIO_F_RING_PACKED: u32 = 34;
