//! The words of a packed queue's region.
ghost use Rattle.std.specs.Prelude.{◌≡◌, ◌<◌, ◌+◌, ◌*◌, ◌^◌, IfOk};
ghost use Rattle.vub_base.specs.Causes.{HasCause};
ghost use Rattle.vub_base.specs.Told.{WhereTold};
ghost use Rattle.vub_shared.specs.Frames.{OnlyLoads};

use crate::layout::{
    DESC_NUM, ENTRIES, ENTRY_ADDR, ENTRY_COUNTER, ENTRY_FLAGS, ENTRY_ID, ENTRY_INFLIGHT,
    ENTRY_LAST, ENTRY_LEN, ENTRY_NEXT, ENTRY_NUM, ENTRY_SIZE, FREE_HEAD, OLD_FREE_HEAD,
    OLD_USED_IDX, OLD_USED_WRAP_COUNTER, USED_IDX, USED_WRAP_COUNTER, VERSION,
};
use vub_base::{Failed, Position, Space, get_u16, get_u32, get_u64};
use vub_shared::Shared;

/// Where the region of a packed queue lies: its space and place in bytes, a multiple of 8, and how many
/// descriptors it has entries for.
#[derive(Clone, Copy, Debug, PartialEq, Eq)]
pub struct PackedRegion {
    pub space: Space,
    pub place: u64,
    pub size: u16,
}

/// The words of a region before its entries. A wrap counter is true where its byte isn't 0.
#[derive(Clone, Copy, Debug, PartialEq, Eq)]
pub struct PackedHeader {
    /// 0 where the region was never made, 1 where it was.
    pub version: u16,
    /// The number of descriptors.
    pub desc_num: u16,
    /// The head of the free list; the list ends at the number of descriptors.
    pub free_head: u16,
    /// The head of the free list before the fetch or the batch under way.
    pub old_free_head: u16,
    /// The used position.
    pub used: Position,
    /// The used position before the batch under way.
    pub old_used: Position,
}

/// An entry of a region: the state of a descriptor.
#[derive(Clone, Copy, Debug, PartialEq, Eq)]
pub struct PackedEntry {
    /// The head of a chain is in flight where this isn't 0.
    pub inflight: u8,
    /// The next entry of the free list or of the chain.
    pub next: u16,
    /// Of a head: the last entry of its chain.
    pub last: u16,
    /// Of a head: how many entries its chain has.
    pub num: u16,
    /// Of a head: the counter of its acceptance.
    pub counter: u64,
    /// The id of the buffer.
    pub id: u16,
    /// The flags of the descriptor.
    pub flags: u16,
    /// The length of the buffer in bytes.
    pub len: u32,
    /// The guest address of the buffer.
    pub addr: u64,
}

impl PackedRegion {
    ghost use Rattle.vub_infl_packed.specs.Region.{RegionLies, words_of, header_of, entry_of, in_entry};

    /// The words before the entries, by one load.
    pub fn header<M: Shared>(&self, mem: &mut M) -> Result<PackedHeader, Failed>
        requires { RegionLies (M.sizes mem.old) self.now }
        ensures loaded { IfOk result (λ h. WhereTold (M.told mem.old) (λ m. h ≡ header_of (words_of self.now m))) }
        ensures only_loads { OnlyLoads M.told M.trail M.names M.handed M.sizes mem.old mem.new }
        ensures cause { HasCause (M.faults mem.old) (M.faults mem.new) result }
    {
        let mut bytes = [0u8; ENTRIES as usize];
        mem.load(self.space, self.place, &mut bytes)?;
        Ok(PackedHeader {
            version: get_u16(&bytes, VERSION as usize),
            desc_num: get_u16(&bytes, DESC_NUM as usize),
            free_head: get_u16(&bytes, FREE_HEAD as usize),
            old_free_head: get_u16(&bytes, OLD_FREE_HEAD as usize),
            used: Position {
                index: get_u16(&bytes, USED_IDX as usize),
                wrap: bytes[USED_WRAP_COUNTER as usize] != 0,
            },
            old_used: Position {
                index: get_u16(&bytes, OLD_USED_IDX as usize),
                wrap: bytes[OLD_USED_WRAP_COUNTER as usize] != 0,
            },
        })
    }

    /// The bytes of both wrap counters: that of the used position, and that of the old one.
    pub(crate) fn wrap_counters<M: Shared>(&self, mem: &mut M) -> Result<(u8, u8), Failed>
        requires { RegionLies (M.sizes mem.old) self.now }
        ensures used { IfOk result (λ b. WhereTold (M.told mem.old) (λ m. b.0 ≡ (words_of self.now m).used_wrap_counter)) }
        ensures old { IfOk result (λ b. WhereTold (M.told mem.old) (λ m. b.1 ≡ (words_of self.now m).old_used_wrap_counter)) }
        ensures only_loads { OnlyLoads M.told M.trail M.names M.handed M.sizes mem.old mem.new }
        ensures cause { HasCause (M.faults mem.old) (M.faults mem.new) result }
    {
        let mut bytes = [0u8; 2];
        mem.load(self.space, self.place + USED_WRAP_COUNTER, &mut bytes)?;
        Ok((bytes[0], bytes[1]))
    }

    /// An entry, by one load.
    pub fn entry<M: Shared>(&self, mem: &mut M, index: u16) -> Result<PackedEntry, Failed>
        requires lies { RegionLies (M.sizes mem.old) self.now }
        requires within { index < self.now.size }
        ensures loaded { IfOk result (λ e. WhereTold (M.told mem.old) (λ m. e ≡ entry_of (words_of self.now m) index)) }
        ensures only_loads { OnlyLoads M.told M.trail M.names M.handed M.sizes mem.old mem.new }
        ensures cause { HasCause (M.faults mem.old) (M.faults mem.new) result }
    {
        let mut bytes = [0u8; ENTRY_SIZE as usize];
        mem.load(self.space, self.entry_place(index, 0), &mut bytes)?;
        Ok(PackedEntry {
            inflight: bytes[ENTRY_INFLIGHT as usize],
            next: get_u16(&bytes, ENTRY_NEXT as usize),
            last: get_u16(&bytes, ENTRY_LAST as usize),
            num: get_u16(&bytes, ENTRY_NUM as usize),
            counter: get_u64(&bytes, ENTRY_COUNTER as usize),
            id: get_u16(&bytes, ENTRY_ID as usize),
            flags: get_u16(&bytes, ENTRY_FLAGS as usize),
            len: get_u32(&bytes, ENTRY_LEN as usize),
            addr: get_u64(&bytes, ENTRY_ADDR as usize),
        })
    }

    /// The place `at` bytes into an entry.
    pub(crate) fn entry_place(&self, index: u16, at: u64) -> u64
        requires { self.now.place + (32 + 32 * index + at) < 2 ^ 64 }
        ensures { result ≡ in_entry self.now index at }
    {
        self.place + (ENTRIES + ENTRY_SIZE * u64::from(index) + at)
    }
}
