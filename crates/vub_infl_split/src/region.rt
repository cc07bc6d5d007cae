//! The words of a split queue's region.
ghost use Rattle.std.specs.Prelude.{◌≡◌, ◌<◌, ◌+◌, ◌*◌, IfOk};
ghost use Rattle.vub_base.specs.Causes.{HasCause};
ghost use Rattle.vub_base.specs.Told.{WhereTold};
ghost use Rattle.vub_shared.specs.Frames.{OnlyLoads, MakesStore};
ghost use Rattle.vub_infl_split.specs.Stores.{header_word};

use crate::layout::{
    DESC, DESC_COUNTER, DESC_INFLIGHT, DESC_NEXT, DESC_NUM, DESC_SIZE, FEATURES, LAST_BATCH_HEAD,
    USED_IDX, VERSION,
};
use vub_base::{Failed, Space, Tag};
use vub_shared::{Shared, load_u8, load_u16, load_u64};

/// Where the region of a split queue lies: its space and place in bytes, a multiple of 8, and how many
/// descriptors it has entries for.
#[derive(Clone, Copy, Debug, PartialEq, Eq)]
pub struct SplitRegion {
    pub space: Space,
    pub place: u64,
    pub size: u16,
}

/// A store into a region, one for each row of the step table that has one there. In SI2, SR1, SF1,
/// SF2, SP3 and SP6 the first number is the index of an entry; every other number is a value that
/// is stored.
#[derive(Clone, Copy, Debug, PartialEq, Eq)]
pub enum SplitStore {
    /// The features of a new region: 0.
    SI1,
    /// An entry of a new region isn't in flight.
    SI2(u16),
    /// A new region is made: version 1, its number of descriptors, no batch, and used_idx.
    SI3(u16),
    /// A recovery clears an entry of the last batch.
    SR1(u16),
    /// A recovery notes used_idx.
    SR2(u16),
    /// A fetch gives an entry its counter.
    SF1(u16, u64),
    /// A fetch puts an entry in flight.
    SF2(u16),
    /// A publication links an entry to the next one of its batch.
    SP3(u16, u16),
    /// A publication makes an entry last_batch_head.
    SP4(u16),
    /// A publication clears an entry of its batch.
    SP6(u16),
    /// A publication notes used_idx.
    SP7(u16),
}

impl SplitStore {
    ghost use Rattle.vub_infl_split.specs.Stores.{tag_of};

    /// The tag of its row.
    pub fn tag(self) -> Tag
        ensures { result ≡ tag_of self }
    {
        match self {
            SplitStore::SI1 => Tag::SI1,
            SplitStore::SI2(_) => Tag::SI2,
            SplitStore::SI3(_) => Tag::SI3,
            SplitStore::SR1(_) => Tag::SR1,
            SplitStore::SR2(_) => Tag::SR2,
            SplitStore::SF1(..) => Tag::SF1,
            SplitStore::SF2(_) => Tag::SF2,
            SplitStore::SP3(..) => Tag::SP3,
            SplitStore::SP4(_) => Tag::SP4,
            SplitStore::SP6(_) => Tag::SP6,
            SplitStore::SP7(_) => Tag::SP7,
        }
    }
}

impl SplitRegion {
    ghost use Rattle.vub_infl_split.specs.Region.{RegionLies, words_of};
    ghost use Rattle.vub_infl_split.specs.Stores.{store_of, NamesEntry};

    /// The version: 0 where the region was never made, 1 where it was.
    pub fn version<M: Shared>(&self, mem: &mut M) -> Result<u16, Failed>
        requires { RegionLies (M.sizes mem.old) self.now }
        ensures loaded { IfOk result (λ v. WhereTold (M.told mem.old) (λ m. v ≡ (words_of self.now m).version)) }
        ensures only_loads { OnlyLoads M.told M.trail M.names M.handed M.sizes mem.old mem.new }
        ensures cause { HasCause (M.faults mem.old) (M.faults mem.new) result }
    {
        load_u16(mem, self.space, self.place + VERSION)
    }

    /// The number of descriptors, as the region has it.
    pub fn desc_num<M: Shared>(&self, mem: &mut M) -> Result<u16, Failed>
        requires { RegionLies (M.sizes mem.old) self.now }
        ensures loaded { IfOk result (λ v. WhereTold (M.told mem.old) (λ m. v ≡ (words_of self.now m).desc_num)) }
        ensures only_loads { OnlyLoads M.told M.trail M.names M.handed M.sizes mem.old mem.new }
        ensures cause { HasCause (M.faults mem.old) (M.faults mem.new) result }
    {
        load_u16(mem, self.space, self.place + DESC_NUM)
    }

    /// The head of the last batch: the entry that was linked last.
    pub fn last_batch_head<M: Shared>(&self, mem: &mut M) -> Result<u16, Failed>
        requires { RegionLies (M.sizes mem.old) self.now }
        ensures loaded { IfOk result (λ v. WhereTold (M.told mem.old) (λ m. v ≡ (words_of self.now m).last_batch_head)) }
        ensures only_loads { OnlyLoads M.told M.trail M.names M.handed M.sizes mem.old mem.new }
        ensures cause { HasCause (M.faults mem.old) (M.faults mem.new) result }
    {
        load_u16(mem, self.space, self.place + LAST_BATCH_HEAD)
    }

    /// used.idx as it was noted last.
    pub fn used_idx<M: Shared>(&self, mem: &mut M) -> Result<u16, Failed>
        requires { RegionLies (M.sizes mem.old) self.now }
        ensures loaded { IfOk result (λ v. WhereTold (M.told mem.old) (λ m. v ≡ (words_of self.now m).used_idx)) }
        ensures only_loads { OnlyLoads M.told M.trail M.names M.handed M.sizes mem.old mem.new }
        ensures cause { HasCause (M.faults mem.old) (M.faults mem.new) result }
    {
        load_u16(mem, self.space, self.place + USED_IDX)
    }

    /// The entry that follows this one in its batch.
    pub fn next_of<M: Shared>(&self, mem: &mut M, index: u16) -> Result<u16, Failed>
        requires lies { RegionLies (M.sizes mem.old) self.now }
        requires within { index < self.now.size }
        ensures loaded { IfOk result (λ v. WhereTold (M.told mem.old) (λ m. v ≡ (words_of self.now m).next index)) }
        ensures only_loads { OnlyLoads M.told M.trail M.names M.handed M.sizes mem.old mem.new }
        ensures cause { HasCause (M.faults mem.old) (M.faults mem.new) result }
    {
        load_u16(mem, self.space, self.place + (entry(index) + DESC_NEXT))
    }

    /// Whether an entry is in flight: it is where this isn't 0.
    pub fn inflight_of<M: Shared>(&self, mem: &mut M, index: u16) -> Result<u8, Failed>
        requires lies { RegionLies (M.sizes mem.old) self.now }
        requires within { index < self.now.size }
        ensures loaded { IfOk result (λ v. WhereTold (M.told mem.old) (λ m. v ≡ (words_of self.now m).inflight index)) }
        ensures only_loads { OnlyLoads M.told M.trail M.names M.handed M.sizes mem.old mem.new }
        ensures cause { HasCause (M.faults mem.old) (M.faults mem.new) result }
    {
        load_u8(mem, self.space, self.place + (entry(index) + DESC_INFLIGHT))
    }

    /// The counter of an entry.
    pub fn counter_of<M: Shared>(&self, mem: &mut M, index: u16) -> Result<u64, Failed>
        requires lies { RegionLies (M.sizes mem.old) self.now }
        requires within { index < self.now.size }
        ensures loaded { IfOk result (λ v. WhereTold (M.told mem.old) (λ m. v ≡ (words_of self.now m).counter index)) }
        ensures only_loads { OnlyLoads M.told M.trail M.names M.handed M.sizes mem.old mem.new }
        ensures cause { HasCause (M.faults mem.old) (M.faults mem.new) result }
    {
        load_u64(mem, self.space, self.place + (entry(index) + DESC_COUNTER))
    }

    /// Makes the one store of a row.
    pub fn store<M: Shared>(&self, mem: &mut M, step: SplitStore) -> Result<(), Failed>
        requires lies { RegionLies (M.sizes mem.old) self.now }
        requires within { NamesEntry self.now.size step }
        ensures makes_store { MakesStore M.told M.trail M.names M.handed M.sizes mem.old mem.new result (store_of self.now step) }
        ensures cause { HasCause (M.faults mem.old) (M.faults mem.new) result }
    {
        match step {
            SplitStore::SI1 => mem.store8(self.space, self.place + FEATURES, 0),
            SplitStore::SI2(index) | SplitStore::SR1(index) | SplitStore::SP6(index) => {
                mem.store1(self.space, self.place + (entry(index) + DESC_INFLIGHT), 0)
            }
            SplitStore::SI3(used_idx) => {
                mem.store8(
                    self.space,
                    self.place + VERSION,
                    header_word(self.size, used_idx),
                )
            }
            SplitStore::SR2(used_idx) | SplitStore::SP7(used_idx) => {
                mem.store2(self.space, self.place + USED_IDX, used_idx)
            }
            SplitStore::SF1(index, counter) => {
                mem.store8(
                    self.space,
                    self.place + (entry(index) + DESC_COUNTER),
                    counter,
                )
            }
            SplitStore::SF2(index) => {
                mem.store1(self.space, self.place + (entry(index) + DESC_INFLIGHT), 1)
            }
            SplitStore::SP3(index, next) => {
                mem.store2(self.space, self.place + (entry(index) + DESC_NEXT), next)
            }
            SplitStore::SP4(head) => mem.store2(self.space, self.place + LAST_BATCH_HEAD, head),
        }
    }
}

/// Where an entry begins, in bytes from the start of its region.
fn entry(index: u16) -> u64
    ensures { result ≡ 16 + 16 * index }
{
    DESC + DESC_SIZE * u64::from(index)
}

/// Version 1, the number of descriptors, no batch, and used_idx, as one number.
fn header_word(size: u16, used_idx: u16) -> u64
    ensures { result ≡ header_word size used_idx }
{
    let (version, last_batch_head) = (1, 0);
    version + 65536 * (u64::from(size) + 65536 * (last_batch_head + 65536 * u64::from(used_idx)))
}
