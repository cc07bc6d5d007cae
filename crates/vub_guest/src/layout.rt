//! Where things lie in guest memory. Queue q has the area of 1 MiB from q MiB on: its descriptor
//! table, its avail ring, its used ring, and a buffer of 8 KiB for each descriptor.
ghost use Rattle.std.specs.Prelude.{◌≡◌, ◌<◌, ◌+◌, ◌*◌, ◌^◌};

use vub_base::Space;
use vub_split::SplitRing;

/// The bytes of one queue's area.
pub const AREA: u64 = 0x10_0000;
/// The avail ring, from the start of the area.
pub const AVAIL: u64 = 0x1000;
/// The used ring, from the start of the area.
pub const USED: u64 = 0x2000;
/// The buffers, from the start of the area.
pub const BUFFERS: u64 = 0x1_0000;
/// The bytes of one buffer.
pub const BUFFER: u64 = 0x2000;
/// The status byte, from the start of its buffer. The header of 16 bytes stands before it.
pub const STATUS: u64 = 16;
/// The sectors, from the start of their buffer.
pub const SECTORS: u64 = 0x1000;

/// Where the area of a queue begins.
pub fn area_of(queue: u16) -> u64
    ensures { result ≡ AREA * queue }
{
    AREA * u64::from(queue)
}

/// Where the buffer of a head begins, in an area.
pub fn buffer_of(area: u64, head: u16) -> u64
    requires { area < 2 ^ 40 }
    ensures { result ≡ area + (BUFFERS + BUFFER * head) }
{
    area + (BUFFERS + BUFFER * u64::from(head))
}

/// The ring of a queue.
pub fn ring_of(space: Space, queue: u16, size: u16) -> SplitRing
    ensures { result ≡ record { desc = (space, AREA * queue); avail = (space, AREA * queue + AVAIL); used = (space, AREA * queue + USED); size = size } }
{
    let area = area_of(queue);
    SplitRing {
        desc: (space, area),
        avail: (space, area + AVAIL),
        used: (space, area + USED),
        size,
    }
}
