//! avail.idx and used.idx of every queue of a world in which nothing has happened.
ghost use Rattle.std.specs.Prelude.{◌≡◌, ◌≤◌, ◌+◌, ℕ};
ghost use Rattle.byteorder.specs.Endian.{little_bytes};
ghost use Rattle.vub_driver.specs.Layout.{guest_space, area_place};
ghost use Rattle.vub_run.specs.Memory.{opened, opening_memory};
ghost use Rattle.vub_shared.specs.Stores.{after_store, one_store};
ghost use Rattle.vub_shared.specs.Watched.{bytes_in, sizes_in, IsUnfailed};

use vub_base::{Header1, Space};
use vub_guest::layout::ring_of;
use vub_shared::{Shared, WatchedShared};
use vub_split::layout::{AVAIL_IDX, USED_IDX};

/// Stores a word in a memory of which no call has failed.
fn store_word(memory: &mut WatchedShared, space: Space, place: u64, word: u16)
    requires place { place + 2 ≤ sizes_in memory.old space.number }
    requires unfailed { IsUnfailed memory.old }
    ensures bytes { bytes_in memory.new ≡ after_store (one_store space.number place (little_bytes 2 word)) (bytes_in memory.old) }
    ensures sizes { (s : ℕ) → sizes_in memory.new s ≡ sizes_in memory.old s }
    ensures unfailed { IsUnfailed memory.new }
{
    memory.restart();
    if memory.store2(space, place, word).is_err() {
        unreachable!();
    }
}

/// Stores the header's base as avail.idx and used.idx of each queue, in a memory of zero bytes.
pub fn set_indexes(memory: &mut WatchedShared, space: Space, header: &Header1)
    requires space { space.number ≡ guest_space }
    requires room { area_place header.now.queues ≤ sizes_in memory.old guest_space }
    requires zero { (s p : ℕ) → bytes_in memory.old s p ≡ 0 }
    requires unfailed { IsUnfailed memory.old }
    ensures bytes { bytes_in memory.new ≡ opening_memory header.now }
    ensures sizes { (s : ℕ) → sizes_in memory.new s ≡ sizes_in memory.old s }
    ensures unfailed { IsUnfailed memory.new }
{
    for queue in 0..header.queues {
        let ring = ring_of(space, queue, header.size);
        store_word(memory, space, ring.avail.1 + AVAIL_IDX, header.base);
        store_word(memory, space, ring.used.1 + USED_IDX, header.base);
    }
}
