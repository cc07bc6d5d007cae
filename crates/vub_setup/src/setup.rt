ghost use Rattle.std.specs.Prelude.{◌≡◌, ◌<◌, ◌^◌};
ghost use Rattle.vub_setup.specs.Setups as setups;

use vub_infl_packed::{PackedRegion, layout as packed_layout};
use vub_infl_split::{SplitRegion, layout as split_layout};
use vub_packed::PackedRing;
use vub_split::SplitRing;

/// The rings of a queue, with its region. Both have the same size.
#[derive(Clone, Copy, Debug, PartialEq, Eq)]
pub enum Rings {
    Split(SplitRing, SplitRegion),
    Packed(PackedRing, PackedRegion),
}

/// What a queue is made from.
#[derive(Clone, Copy, Debug, PartialEq, Eq)]
pub struct QueueSetup {
    /// The index of the queue.
    pub index: u16,
    pub rings: Rings,
    /// Where the device goes on: the avail index of a split ring; of a packed one the avail index and
    /// its wrap counter in bits 0 to 15, and the used index with its own in bits 16 to 31.
    pub base: u32,
    /// Whether descriptors may name tables.
    pub indirect: bool,
    /// Whether the driver is told of what was published.
    pub bell: bool,
}

/// The bytes of the region of a queue with `size` descriptors.
pub fn region_size(packed: bool, size: u16) -> u64
    ensures is { result ≡ setups.region_size packed size }
    ensures fits { result < 2 ^ 32 }
{
    let entries = u64::from(size);
    if packed {
        packed_layout::ENTRIES + packed_layout::ENTRY_SIZE * entries
    } else {
        split_layout::DESC + split_layout::DESC_SIZE * entries
    }
}
