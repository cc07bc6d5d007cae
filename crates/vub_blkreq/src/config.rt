//! The config space of the device (VIRTIO 1.2, 5.2.4).
ghost use Rattle.std.specs.Prelude.{◌≡◌};
ghost use Rattle.std.specs.List.{AllByRecursion};
ghost use Rattle.vub_blkreq.specs.Config.{config_bytes, config_fields, Holds};

use vub_base::standard::SECTOR_SIZE;
use vub_base::{put_u16, put_u32, put_u64};

/// The most parts of a discard or of a zeroing.
pub const MAX_PARTS: u32 = 4;

/// The most sectors of a part of a discard or of a zeroing.
pub const MAX_PART_SECTORS: u32 = 65_536;

/// The bytes of the config space.
pub const CONFIG_SIZE: usize = 256;

/// The most segments of data that a request may have.
const SEG_MAX: u32 = 126;

/// The device caches writes.
const WRITEBACK: u8 = 1;

/// The sectors to which the parts of a discard should be aligned.
const DISCARD_SECTOR_ALIGNMENT: u32 = 1;

/// Where the fields begin.
mod offset {
    pub const CAPACITY: usize = 0;

    pub const SEG_MAX: usize = 12;

    pub const BLK_SIZE: usize = 20;

    pub const WRITEBACK: usize = 32;

    pub const NUM_QUEUES: usize = 34;

    pub const MAX_DISCARD_SECTORS: usize = 36;

    pub const MAX_DISCARD_SEG: usize = 40;

    pub const DISCARD_SECTOR_ALIGNMENT: usize = 44;

    pub const MAX_WRITE_ZEROES_SECTORS: usize = 48;

    pub const MAX_WRITE_ZEROES_SEG: usize = 52;
}

/// What a device is told to be.
#[derive(Clone, Copy, Debug, PartialEq, Eq)]
pub struct DeviceConfig {
    /// In sectors of 512 bytes.
    pub capacity: u64,
    pub read_only: bool,
    /// The number of queues, 1 to 16.
    pub queues: u16,
}

/// The config space, as the driver reads it: `capacity` and `queues` of this device, the limits that
/// `parse` keeps to, and zero in each byte of no field. Takes no memory.
pub fn config_space(config: &DeviceConfig) -> [u8; CONFIG_SIZE]
    ensures bytes { result ≡ config_bytes config.now }

    // Each field reads back, so none lies in another.
    ensures fields { AllByRecursion (Holds result) (config_fields config.now) }
{
    let DeviceConfig {
        capacity,
        queues,
        ..
    } = *config;
    let mut space = [0u8; CONFIG_SIZE];
    put_u64(&mut space, offset::CAPACITY, capacity);
    put_u32(&mut space, offset::SEG_MAX, SEG_MAX);
    put_u32(&mut space, offset::BLK_SIZE, SECTOR_SIZE as u32);
    space[offset::WRITEBACK] = WRITEBACK;
    put_u16(&mut space, offset::NUM_QUEUES, queues);
    put_u32(&mut space, offset::MAX_DISCARD_SECTORS, MAX_PART_SECTORS);
    put_u32(&mut space, offset::MAX_DISCARD_SEG, MAX_PARTS);
    put_u32(
        &mut space,
        offset::DISCARD_SECTOR_ALIGNMENT,
        DISCARD_SECTOR_ALIGNMENT,
    );
    put_u32(
        &mut space,
        offset::MAX_WRITE_ZEROES_SECTORS,
        MAX_PART_SECTORS,
    );
    put_u32(&mut space, offset::MAX_WRITE_ZEROES_SEG, MAX_PARTS);
    space
}
