//! The words of a split virtqueue (VIRTIO 1.2, 2.7).
ghost use Rattle.std.specs.Prelude.{◌≡◌, IfOk};
ghost use Rattle.byteorder.specs.Endian.{little_bytes};
ghost use Rattle.vub_base.specs.Causes.{HasCause};
ghost use Rattle.vub_base.specs.Told.{WhereTold};
ghost use Rattle.vub_shared.specs.Stores.{one_store};
ghost use Rattle.vub_shared.specs.Frames.{OnlyLoads, MakesStore};

use crate::layout::{
    AVAIL_ENTRY_SIZE, AVAIL_IDX, AVAIL_RING, USED_ELEMENT_LEN, USED_ELEMENT_SIZE, USED_IDX,
    USED_RING,
};
use vub_base::{Failed, Space};
use vub_shared::{Shared, load_u16};

/// Where a split ring lies: its three parts by space and place in bytes, and its size, a power of
/// two up to 1024.
#[derive(Clone, Copy, Debug, PartialEq, Eq)]
pub struct SplitRing {
    /// The descriptor table.
    pub desc: (Space, u64),
    /// The avail ring, which the driver writes.
    pub avail: (Space, u64),
    /// The used ring, which the device writes.
    pub used: (Space, u64),
    pub size: u16,
}

impl SplitRing {
    ghost use Rattle.vub_split.specs.Split.{RingLies, avail_idx_word, head_word, used_idx_word, used_idx_place, used_id_place, used_len_place};

    /// The word avail.idx: the index at which the driver places its next head.
    pub fn avail_idx<M: Shared>(&self, mem: &mut M) -> Result<u16, Failed>
        requires { RingLies (M.sizes mem.old) self.now }
        ensures loaded { IfOk result (λ v. WhereTold (M.told mem.old) (λ m. v ≡ avail_idx_word self.now m)) }
        ensures only_loads { OnlyLoads M.told M.trail M.names M.handed M.sizes mem.old mem.new }
        ensures cause { HasCause (M.faults mem.old) (M.faults mem.new) result }
    {
        load_u16(mem, self.avail.0, self.avail.1 + AVAIL_IDX)
    }

    /// The head in the avail ring at an index, which is taken modulo the size.
    pub fn head_at<M: Shared>(&self, mem: &mut M, index: u16) -> Result<u16, Failed>
        requires { RingLies (M.sizes mem.old) self.now }
        ensures loaded { IfOk result (λ v. WhereTold (M.told mem.old) (λ m. v ≡ head_word self.now m index)) }
        ensures only_loads { OnlyLoads M.told M.trail M.names M.handed M.sizes mem.old mem.new }
        ensures cause { HasCause (M.faults mem.old) (M.faults mem.new) result }
    {
        let entry = u64::from(index % self.size);
        load_u16(
            mem,
            self.avail.0,
            self.avail.1 + (AVAIL_RING + AVAIL_ENTRY_SIZE * entry),
        )
    }

    /// The word used.idx: the index at which the device places its next element.
    pub fn used_idx<M: Shared>(&self, mem: &mut M) -> Result<u16, Failed>
        requires { RingLies (M.sizes mem.old) self.now }
        ensures loaded { IfOk result (λ v. WhereTold (M.told mem.old) (λ m. v ≡ used_idx_word self.now m)) }
        ensures only_loads { OnlyLoads M.told M.trail M.names M.handed M.sizes mem.old mem.new }
        ensures cause { HasCause (M.faults mem.old) (M.faults mem.new) result }
    {
        load_u16(mem, self.used.0, self.used.1 + USED_IDX)
    }

    /// Stores the id of the used element of an index, which is taken modulo the size.
    pub fn write_used_id<M: Shared>(&self, mem: &mut M, index: u16, id: u32) -> Result<(), Failed>
        requires { RingLies (M.sizes mem.old) self.now }
        ensures makes_store { MakesStore M.told M.trail M.names M.handed M.sizes mem.old mem.new result (one_store self.now.used.0.number (used_id_place self.now index) (little_bytes 4 id)) }
        ensures cause { HasCause (M.faults mem.old) (M.faults mem.new) result }
    {
        let element = u64::from(index % self.size);
        mem.store4(
            self.used.0,
            self.used.1 + (USED_RING + USED_ELEMENT_SIZE * element),
            id,
        )
    }

    /// Stores the length of the used element of an index, which is taken modulo the size.
    pub fn write_used_len<M: Shared>(&self, mem: &mut M, index: u16, len: u32) -> Result<(), Failed>
        requires { RingLies (M.sizes mem.old) self.now }
        ensures makes_store { MakesStore M.told M.trail M.names M.handed M.sizes mem.old mem.new result (one_store self.now.used.0.number (used_len_place self.now index) (little_bytes 4 len)) }
        ensures cause { HasCause (M.faults mem.old) (M.faults mem.new) result }
    {
        let element = u64::from(index % self.size);
        mem.store4(
            self.used.0,
            self.used.1 + (USED_RING + USED_ELEMENT_LEN + USED_ELEMENT_SIZE * element),
            len,
        )
    }

    /// Stores the word used.idx.
    pub fn publish_idx<M: Shared>(&self, mem: &mut M, index: u16) -> Result<(), Failed>
        requires { RingLies (M.sizes mem.old) self.now }
        ensures makes_store { MakesStore M.told M.trail M.names M.handed M.sizes mem.old mem.new result (one_store self.now.used.0.number (used_idx_place self.now) (little_bytes 2 index)) }
        ensures cause { HasCause (M.faults mem.old) (M.faults mem.new) result }
    {
        mem.store2(self.used.0, self.used.1 + USED_IDX, index)
    }
}
