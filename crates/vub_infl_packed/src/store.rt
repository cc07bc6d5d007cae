//! The stores into a packed queue's region.
ghost use Rattle.std.specs.Prelude.{◌≡◌, ◌<◌};
ghost use Rattle.vub_base.specs.Causes.{HasCause};
ghost use Rattle.vub_shared.specs.Frames.{MakesStore};
ghost use Rattle.vub_infl_packed.specs.Stores as stores;

use crate::PackedRegion;
use crate::layout::{
    ENTRY_ADDR, ENTRY_COUNTER, ENTRY_ID, ENTRY_INFLIGHT, ENTRY_LAST, ENTRY_NEXT, ENTRY_NUM,
    FEATURES, FREE_HEAD, OLD_FREE_HEAD, USED_IDX, VERSION,
};
use vub_base::{Failed, Position, Tag};
use vub_shared::Shared;

/// A store into a region, one for each row of the step table that has one there. In PI2, PI3, PR6, PF1
/// to PF7, PP1 and PP7 the first number is the index of an entry; every other number is a value that is
/// stored. A row with one position stores it both as the used position and as the old one.
#[derive(Clone, Copy, Debug, PartialEq, Eq)]
pub enum PackedStore {
    /// The features of a new region: 0.
    PI1,
    /// An entry of a new region isn't in flight.
    PI2(u16),
    /// An entry of a new region is followed by the next index.
    PI3(u16),
    /// Both positions of a new region.
    PI4(Position),
    /// A new region is made: version 1, its number of descriptors, and the free list from entry 0 on.
    PI5,
    /// A recovery that commits a batch notes the free head.
    PR1(u16),
    /// A recovery that commits a batch notes the used position.
    PR2(Position),
    /// A recovery that rolls a batch back takes up the old used position again.
    PR4(Position),
    /// A recovery takes up the old free head again.
    PR5(u16),
    /// A recovery clears an entry of the free list.
    PR6(u16),
    /// A fetch begins the chain of a head: it has no entry.
    PF1(u16),
    /// A fetch gives a head its counter.
    PF2(u16, u64),
    /// A fetch puts a head in flight.
    PF3(u16),
    /// A fetch names the last entry of a head's chain.
    PF4(u16, u16),
    /// A fetch counts the entries of a head's chain.
    PF5(u16, u16),
    /// A fetch keeps the address of a descriptor.
    PF6(u16, u64),
    /// A fetch keeps id, flags and length of a descriptor.
    PF7(u16, u16, u16, u32),
    /// A fetch takes an entry off the free list.
    PF8(u16),
    /// A fetch notes the free head.
    PF9(u16),
    /// A publication links the last entry of a chain to the free list.
    PP1(u16, u16),
    /// A publication makes the head of a chain the free head.
    PP2(u16),
    /// A publication moves the used position, first, and keeps the old one, second.
    PP3(Position, Position),
    /// A publication clears a head of its batch.
    PP7(u16),
    /// A publication notes the free head.
    PP8(u16),
    /// A publication notes the used position.
    PP9(Position),
}

impl PackedStore {
    ghost use Rattle.vub_infl_packed.specs.Stores.{tag_of};

    /// The tag of its row.
    pub fn tag(self) -> Tag
        ensures { result ≡ tag_of self }
    {
        match self {
            PackedStore::PI1 => Tag::PI1,
            PackedStore::PI2(_) => Tag::PI2,
            PackedStore::PI3(_) => Tag::PI3,
            PackedStore::PI4(_) => Tag::PI4,
            PackedStore::PI5 => Tag::PI5,
            PackedStore::PR1(_) => Tag::PR1,
            PackedStore::PR2(_) => Tag::PR2,
            PackedStore::PR4(_) => Tag::PR4,
            PackedStore::PR5(_) => Tag::PR5,
            PackedStore::PR6(_) => Tag::PR6,
            PackedStore::PF1(_) => Tag::PF1,
            PackedStore::PF2(..) => Tag::PF2,
            PackedStore::PF3(_) => Tag::PF3,
            PackedStore::PF4(..) => Tag::PF4,
            PackedStore::PF5(..) => Tag::PF5,
            PackedStore::PF6(..) => Tag::PF6,
            PackedStore::PF7(..) => Tag::PF7,
            PackedStore::PF8(_) => Tag::PF8,
            PackedStore::PF9(_) => Tag::PF9,
            PackedStore::PP1(..) => Tag::PP1,
            PackedStore::PP2(_) => Tag::PP2,
            PackedStore::PP3(..) => Tag::PP3,
            PackedStore::PP7(_) => Tag::PP7,
            PackedStore::PP8(_) => Tag::PP8,
            PackedStore::PP9(_) => Tag::PP9,
        }
    }
}

impl PackedRegion {
    ghost use Rattle.vub_infl_packed.specs.Region.{RegionLies};
    ghost use Rattle.vub_infl_packed.specs.Stores.{store_of, NamesEntry};

    /// Makes the one store of a row.
    pub fn store<M: Shared>(&self, mem: &mut M, step: PackedStore) -> Result<(), Failed>
        requires lies { RegionLies (M.sizes mem.old) self.now }
        requires within { NamesEntry self.now.size step }
        ensures makes_store { MakesStore M.told M.trail M.names M.handed M.sizes mem.old mem.new result (store_of self.now step) }
        ensures cause { HasCause (M.faults mem.old) (M.faults mem.new) result }
    {
        let space = self.space;
        match step {
            PackedStore::PI1 => mem.store8(space, self.place + FEATURES, 0),
            PackedStore::PI2(index) | PackedStore::PR6(index) | PackedStore::PP7(index) => {
                mem.store1(space, self.entry_place(index, ENTRY_INFLIGHT), 0)
            }
            PackedStore::PF3(index) => mem.store1(
                space,
                self.entry_place(index, ENTRY_INFLIGHT),
                1,
            ),
            PackedStore::PI3(index) => {
                mem.store2(space, self.entry_place(index, ENTRY_NEXT), index + 1)
            }
            PackedStore::PP1(index, next) => {
                mem.store2(space, self.entry_place(index, ENTRY_NEXT), next)
            }
            PackedStore::PI4(at)
            | PackedStore::PR2(at)
            | PackedStore::PR4(at)
            | PackedStore::PP9(at) => {
                mem.store8(space, self.place + USED_IDX, used_word(at, at))
            }
            PackedStore::PP3(used, old) => {
                mem.store8(space, self.place + USED_IDX, used_word(used, old))
            }
            PackedStore::PI5 => mem.store8(space, self.place + VERSION, header_word(self.size)),
            PackedStore::PR1(head) | PackedStore::PF9(head) | PackedStore::PP8(head) => {
                mem.store2(space, self.place + OLD_FREE_HEAD, head)
            }
            PackedStore::PR5(head) | PackedStore::PF8(head) | PackedStore::PP2(head) => {
                mem.store2(space, self.place + FREE_HEAD, head)
            }
            PackedStore::PF1(index) => mem.store2(space, self.entry_place(index, ENTRY_NUM), 0),
            PackedStore::PF5(index, num) => {
                mem.store2(space, self.entry_place(index, ENTRY_NUM), num)
            }
            PackedStore::PF2(index, counter) => {
                mem.store8(space, self.entry_place(index, ENTRY_COUNTER), counter)
            }
            PackedStore::PF4(index, last) => {
                mem.store2(space, self.entry_place(index, ENTRY_LAST), last)
            }
            PackedStore::PF6(index, addr) => {
                mem.store8(space, self.entry_place(index, ENTRY_ADDR), addr)
            }
            PackedStore::PF7(index, id, flags, len) => {
                mem.store8(
                    space,
                    self.entry_place(index, ENTRY_ID),
                    desc_word(id, flags, len),
                )
            }
        }
    }
}

/// Version 1, the number of descriptors, and both free heads 0, as one number.
fn header_word(size: u16) -> u64
    ensures { result ≡ stores.header_word size }
{
    let version = 1;
    version + 65536 * u64::from(size)
}

/// The used position and the old one, as one number.
fn used_word(used: Position, old: Position) -> u64
    ensures { result ≡ stores.used_word used old }
{
    let wrap_counters = u64::from(used.wrap) + 256 * u64::from(old.wrap);
    u64::from(used.index) + 65536 * (u64::from(old.index) + 65536 * wrap_counters)
}

/// Id, flags and length of a descriptor, as one number.
fn desc_word(id: u16, flags: u16, len: u32) -> u64
    ensures { result ≡ stores.desc_word id flags len }
{
    u64::from(id) + 65536 * (u64::from(flags) + 65536 * u64::from(len))
}
