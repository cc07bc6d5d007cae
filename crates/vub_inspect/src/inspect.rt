ghost use Rattle.std.specs.Prelude.{◌≡◌, ◌≤◌, length, IfOk};
ghost use Rattle.vub_shared.specs.Bytes.{cleared};
ghost use Rattle.vub_shared.specs.Watched.{bytes_in, sizes_in, count_in, stores_in, IsUnfailed};
ghost use Rattle.vub_infl_split.specs.Readings.{split_reading, split_entries};
ghost use Rattle.vub_infl_split.specs.Region.{region_size};
ghost use Rattle.vub_inspect.specs.RegionBytes.{memory_of, words_in};

use std::alloc::Global;
use vub_base::{Memory, PendingList, Reading, Space};
use vub_infl_split::SplitRegion;
use vub_shared::{Shared, SharedFault, WatchedShared};

/// What a region says.
#[derive(Drop)]
pub struct Inspected {
    pub reading: Reading,
    /// The open entries in rising order of their counters, exactly where the reading is `Entries`;
    /// else none.
    pub entries: PendingList,
}

// The first space of a memory, of so many bytes.
fn add_space(memory: &mut WatchedShared, size: u64) -> Result<Space, Memory>
    requires first { count_in memory.old ≡ 0 }
    requires unfailed { IsUnfailed memory.old }
    ensures number { IfOk result (λ s. s.number ≡ 0) }
    ensures size { IfOk result (λ s. sizes_in memory.new s.number ≡ size) }
    ensures bytes { IfOk result (λ s. bytes_in memory.new ≡ cleared 0 (bytes_in memory.old)) }
    ensures stores { IfOk result (λ s. stores_in memory.new ≡ stores_in memory.old) }
    ensures unfailed { IfOk result (λ s. IsUnfailed memory.new) }
{
    match memory.create("region", size) {
        Ok(space) => Ok(space),
        Err(SharedFault::Memory) => Err(Memory),
        Err(SharedFault::Failed | SharedFault::NoSuch) => unreachable!(),
    }
}

// A memory with these bytes in its first space.
fn memory_with(alloc: Global, bytes: &[u8]) -> Result<(WatchedShared, Space), Memory>
    ensures number { IfOk result (λ m. m.1.number ≡ 0) }
    ensures size { IfOk result (λ m. sizes_in m.0 0 ≡ length bytes.now) }
    ensures bytes { IfOk result (λ m. bytes_in m.0 ≡ memory_of bytes.now) }
    ensures unfailed { IfOk result (λ m. IsUnfailed m.0) }
    ensures few { IfOk result (λ m. length (stores_in m.0) ≤ 1) }
{
    let mut memory = WatchedShared::new(alloc)?;
    let space = add_space(&mut memory, bytes.len() as u64)?;
    if memory.store_run(space, 0, bytes).is_err() {
        unreachable!();
    }
    Ok((memory, space))
}

/// What the region of a split queue of `size` descriptors says where used.idx is `ring_used`, by its
/// bytes alone (vhost-user, "Inflight I/O tracking").
///
/// The answer is that of a start, but for the base, which isn't compared with used.idx where the
/// region was never made. Refused, nothing is left.
pub fn inspect_split(
    alloc: Global,
    size: u16,
    ring_used: u16,
    bytes: &[u8],
) -> Result<Inspected, Memory>
    requires few { size ≤ 1024 }
    requires whole { length bytes.now ≡ region_size size }
    ensures reads { IfOk result (λ x. x.reading ≡ split_reading size ring_used (words_in size bytes.now)) }
    ensures open { IfOk result (λ x. x.entries.items ≡ split_entries size ring_used (words_in size bytes.now)) }
{
    let mut entries = PendingList::new(alloc, usize::from(size))?;
    let (mut memory, space) = memory_with(alloc, bytes)?;
    let region = SplitRegion {
        space,
        place: 0,
        size,
    };
    match region.reading(&mut memory, ring_used, &mut entries) {
        Ok(reading) => Ok(Inspected { reading, entries }),
        Err(_) => unreachable!(),
    }
}
