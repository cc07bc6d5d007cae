//! What a packed queue's region says: its open heads, or why it can't be read.
ghost use Rattle.std.specs.Prelude.{◌≡◌, ◌≢◌, ◌<◌, ◌≤◌, [], None, Ok, nat_le, IfOk, OnOk};
ghost use Rattle.vub_base.specs.Causes.{HasCause};
ghost use Rattle.vub_base.specs.Told.{WhereTold};
ghost use Rattle.vub_base.specs.declared.reading.Reading.TheVariants.{Entries};
ghost use Rattle.vub_shared.specs.Frames.{OnlyLoads};
ghost use Rattle.vub_inflight.specs.Entries.{AreEntries};
ghost use Rattle.vub_infl_packed.specs.Readings as readings;
ghost use Rattle.vub_infl_packed.specs.Readings.{packed_reading, packed_entries, distance};
ghost use Rattle.vub_infl_packed.specs.Region.{RegionLies, RegionWords, words_of, header_of};

use crate::walks::{FreeList, entries_in_chains, gather, walk_chains, walk_free_list};
use crate::{PackedHeader, PackedRegion};
use vub_base::{Failed, PendingList, Position, Reading, RegionFault, is_available};
use vub_inflight::{MOST_ENTRIES, bad_counter};
use vub_shared::Shared;

impl PackedHeader {
    ghost use Rattle.vub_infl_packed.specs.Readings.{is_committed, chosen_head};

    /// Whether a batch is published and not yet noted, where the slot at the old used position has
    /// these flags: both positions differ, and the slot isn't available there.
    pub fn is_committed(&self, slot_flags: u16) -> bool
        ensures { (w : RegionWords) → self.now ≡ header_of w → result ≡ is_committed slot_flags w }
    {
        self.used != self.old_used && !is_available(slot_flags, self.old_used.wrap)
    }

    /// The head of the free list that counts: the new one once a batch is published, the old one until
    /// then.
    pub fn chosen_head(&self, slot_flags: u16) -> u16
        ensures { (w : RegionWords) → self.now ≡ header_of w → result ≡ chosen_head slot_flags w }
    {
        if self.is_committed(slot_flags) {
            self.free_head
        } else {
            self.old_free_head
        }
    }
}

impl PackedRegion {
    /// What the region says where the slot at the old used position has these flags. `into` gets the
    /// open heads in rising order of their counters, exactly where the answer is `Entries`; else it is
    /// empty.
    pub fn reading<M: Shared>(
        &self,
        mem: &mut M,
        slot_flags: u16,
        into: &mut PendingList,
    ) -> Result<Reading, Failed>
        requires lies { RegionLies (M.sizes mem.old) self.now }
        requires few { self.now.size ≤ 1024 }
        requires room { self.now.size ≤ into.old.room }
        ensures reads { IfOk result (λ x. WhereTold (M.told mem.old) (λ m. x ≡ packed_reading self.now.size slot_flags (words_of self.now m))) }
        ensures open { IfOk result (λ x. WhereTold (M.told mem.old) (λ m. into.new.items ≡ packed_entries self.now.size slot_flags (words_of self.now m))) }
        ensures empty { result ≢ Ok Entries → into.new.items ≡ [] }
        ensures entries { AreEntries self.now.size into.new.items }
        ensures same_room { into.new.room ≡ into.old.room }
        ensures only_loads { OnlyLoads M.told M.trail M.names M.handed M.sizes mem.old mem.new }
        ensures cause { HasCause (M.faults mem.old) (M.faults mem.new) result }
    {
        into.clear();
        let reading = read(self, mem, slot_flags, into);
        if !matches!(reading, Ok(Reading::Entries)) {
            into.clear();
        }
        reading
    }
}

/// The reading, with the open heads by counter where it is `Entries`.
fn read<M: Shared>(
    region: &PackedRegion,
    mem: &mut M,
    slot_flags: u16,
    into: &mut PendingList,
) -> Result<Reading, Failed>
    requires lies { RegionLies (M.sizes mem.old) region.now }
    requires few { region.now.size ≤ 1024 }
    requires room { region.now.size ≤ into.old.room }
    requires empty { into.old.items ≡ [] }
    ensures reads { IfOk result (λ x. WhereTold (M.told mem.old) (λ m. x ≡ packed_reading region.now.size slot_flags (words_of region.now m))) }
    ensures open { IfOk result (λ x. x ≡ Entries → WhereTold (M.told mem.old) (λ m. into.new.items ≡ readings.open_entries region.now.size slot_flags (words_of region.now m))) }
    ensures entries { IfOk result (λ x. x ≡ Entries → AreEntries region.now.size into.new.items) }
    ensures same_room { into.new.room ≡ into.old.room }
    ensures only_loads { OnlyLoads M.told M.trail M.names M.handed M.sizes mem.old mem.new }
    ensures cause { HasCause (M.faults mem.old) (M.faults mem.new) result }
{
    let header = region.header(mem)?;
    if header.version == 0 {
        return Ok(Reading::Uninitialised);
    }
    let wrap_counters = region.wrap_counters(mem)?;
    if let Some(cause) = header_fault(&header, wrap_counters, region.size) {
        return Ok(Reading::Damaged(cause));
    }
    let cause = entries_fault(region, mem, header.chosen_head(slot_flags), into)?;
    Ok(cause.map_or(Reading::Entries, Reading::Damaged))
}

/// Why the words before the entries of a region can't be read.
fn header_fault(header: &PackedHeader, wrap_counters: (u8, u8), size: u16) -> Option<RegionFault>
    ensures { (w : RegionWords) → header.now ≡ header_of w → wrap_counters.0 ≡ w.used_wrap_counter → wrap_counters.1 ≡ w.old_used_wrap_counter → result ≡ readings.header_fault size w }
{
    if header.version != 1 {
        return Some(RegionFault::BadVersion(header.version));
    }
    if header.desc_num != size {
        return Some(RegionFault::BadCount(header.desc_num));
    }
    bad_used(header, wrap_counters, size).map(RegionFault::BadUsed)
}

/// The first index of a position that is none of a slot, the first wrap counter that is neither 0 nor
/// 1, or the used index where its position isn't 0 to `size` slots past the old one.
fn bad_used(header: &PackedHeader, wrap_counters: (u8, u8), size: u16) -> Option<u16>
    ensures { (w : RegionWords) → header.now ≡ header_of w → wrap_counters.0 ≡ w.used_wrap_counter → wrap_counters.1 ≡ w.old_used_wrap_counter → result ≡ readings.bad_used size w }
{
    if header.used.index >= size {
        return Some(header.used.index);
    }
    if header.old_used.index >= size {
        return Some(header.old_used.index);
    }
    if wrap_counters.0 > 1 {
        return Some(u16::from(wrap_counters.0));
    }
    if wrap_counters.1 > 1 {
        return Some(u16::from(wrap_counters.1));
    }
    if is_advance(header.old_used, header.used, size) {
        None
    } else {
        Some(header.used.index)
    }
}

/// Whether one position is 0 to `size` slots past another.
fn is_advance(old: Position, new: Position, size: u16) -> bool
    requires old { old.index < size }
    requires new { new.index < size }
    ensures { result ≡ nat_le (distance size old new) size }
{
    if new.wrap == old.wrap {
        old.index <= new.index
    } else {
        new.index <= old.index
    }
}

/// Why the entries of a region can't be read where this is the free head, or its open heads by counter.
fn entries_fault<M: Shared>(
    region: &PackedRegion,
    mem: &mut M,
    free_head: u16,
    into: &mut PendingList,
) -> Result<Option<RegionFault>, Failed>
    requires lies { RegionLies (M.sizes mem.old) region.now }
    requires few { region.now.size ≤ 1024 }
    requires room { region.now.size ≤ into.old.room }
    requires empty { into.old.items ≡ [] }
    ensures fault { IfOk result (λ x. WhereTold (M.told mem.old) (λ m. x ≡ readings.entries_fault region.now.size (words_of region.now m) free_head)) }
    ensures open { IfOk result (λ x. x ≡ None → WhereTold (M.told mem.old) (λ m. into.new.items ≡ readings.open_but region.now.size (readings.free_from region.now.size (words_of region.now m) free_head) (words_of region.now m))) }
    ensures entries { IfOk result (λ x. x ≡ None → AreEntries region.now.size into.new.items) }
    ensures same_room { into.new.room ≡ into.old.room }
    ensures only_loads { OnlyLoads M.told M.trail M.names M.handed M.sizes mem.old mem.new }
    ensures cause { HasCause (M.faults mem.old) (M.faults mem.new) result }
{
    let mut met = [false; MOST_ENTRIES];
    let free = match walk_free_list(region, mem, free_head, &mut met)? {
        FreeList::Entries(count) => count,
        FreeList::Bad(link) => return Ok(Some(RegionFault::BadFree(link))),
    };
    gather(region, mem, &met, into)?;
    if let Some(link) = walk_chains(region, mem, into.items(), &mut met)? {
        return Ok(Some(RegionFault::BadLink(link)));
    }
    let sum = entries_in_chains(into.items());
    if sum != u32::from(region.size - free) {
        return Ok(Some(RegionFault::BadSum(sum)));
    }
    Ok(bad_counter(into))
}
