//! What a split queue's region says: its open entries, or why it can't be read.
ghost use Rattle.std.specs.Prelude.{◌≡◌, ◌≢◌, ◌<◌, ◌≤◌, ◌+◌, ◌++◌, ◌∷◌, [], ℕ, List, None, Ok, length, not, ◌==◌, ◌&&◌, false, if◌then◌else◌, IfOk, OnOk};
ghost use Rattle.std.proofs.Common.{get_or};
ghost use Rattle.vub_base.specs.Causes.{HasCause};
ghost use Rattle.vub_base.specs.Told.{WhereTold};
ghost use Rattle.vub_base.specs.declared.reading.Reading.TheVariants.{Entries};
ghost use Rattle.vub_shared.specs.Frames.{OnlyLoads};
ghost use Rattle.vub_inflight.specs.Entries.{by_index, entry_at, in_flight_but, AreEntries};
ghost use Rattle.vub_inflight.specs.Links.{links, first_bad, AreMarked};
ghost use Rattle.vub_infl_split.specs.Readings as readings;
ghost use Rattle.vub_infl_split.specs.Readings.{split_reading, split_entries, one_each};
ghost use Rattle.vub_infl_split.specs.Region.{RegionLies, words_of};

use crate::SplitRegion;
use vub_base::{Failed, Pending, PendingList, Reading, RegionFault};
use vub_inflight::{MOST_ENTRIES, Marks, bad_counter, is_bad};
use vub_shared::Shared;

impl SplitRegion {
    /// What the region says where used.idx is `ring_used`. `into` gets the open entries in rising order
    /// of their counters, exactly where the answer is `Entries`; else it is empty.
    pub fn reading<M: Shared>(
        &self,
        mem: &mut M,
        ring_used: u16,
        into: &mut PendingList,
    ) -> Result<Reading, Failed>
        requires lies { RegionLies (M.sizes mem.old) self.now }
        requires few { self.now.size ≤ 1024 }
        requires room { self.now.size ≤ into.old.room }
        ensures reads { IfOk result (λ x. WhereTold (M.told mem.old) (λ m. x ≡ split_reading self.now.size ring_used (words_of self.now m))) }
        ensures open { IfOk result (λ x. WhereTold (M.told mem.old) (λ m. into.new.items ≡ split_entries self.now.size ring_used (words_of self.now m))) }
        ensures empty { result ≢ Ok Entries → into.new.items ≡ [] }
        ensures entries { AreEntries self.now.size into.new.items }
        ensures same_room { into.new.room ≡ into.old.room }
        ensures only_loads { OnlyLoads M.told M.trail M.names M.handed M.sizes mem.old mem.new }
        ensures cause { HasCause (M.faults mem.old) (M.faults mem.new) result }
    {
        into.clear();
        let reading = read(self, mem, ring_used, into);
        if !matches!(reading, Ok(Reading::Entries)) {
            into.clear();
        }
        reading
    }
}

/// The reading, with the open entries by counter where it is `Entries`.
fn read<M: Shared>(
    region: &SplitRegion,
    mem: &mut M,
    ring_used: u16,
    into: &mut PendingList,
) -> Result<Reading, Failed>
    requires lies { RegionLies (M.sizes mem.old) region.now }
    requires few { region.now.size ≤ 1024 }
    requires room { region.now.size ≤ into.old.room }
    requires empty { into.old.items ≡ [] }
    ensures reads { IfOk result (λ x. WhereTold (M.told mem.old) (λ m. x ≡ split_reading region.now.size ring_used (words_of region.now m))) }
    ensures open { IfOk result (λ x. x ≡ Entries → WhereTold (M.told mem.old) (λ m. into.new.items ≡ readings.open_entries region.now.size ring_used (words_of region.now m))) }
    ensures entries { IfOk result (λ x. x ≡ Entries → AreEntries region.now.size into.new.items) }
    ensures same_room { into.new.room ≡ into.old.room }
    ensures only_loads { OnlyLoads M.told M.trail M.names M.handed M.sizes mem.old mem.new }
    ensures cause { HasCause (M.faults mem.old) (M.faults mem.new) result }
{
    let version = region.version(mem)?;
    if version == 0 {
        return Ok(Reading::Uninitialised);
    }
    if version != 1 {
        return Ok(Reading::Damaged(RegionFault::BadVersion(version)));
    }
    let cause = fault(region, mem, ring_used, into)?;
    Ok(cause.map_or(Reading::Entries, Reading::Damaged))
}

/// Why a region of version 1 can't be read, or its open entries by counter.
fn fault<M: Shared>(
    region: &SplitRegion,
    mem: &mut M,
    ring_used: u16,
    into: &mut PendingList,
) -> Result<Option<RegionFault>, Failed>
    requires lies { RegionLies (M.sizes mem.old) region.now }
    requires few { region.now.size ≤ 1024 }
    requires room { region.now.size ≤ into.old.room }
    requires empty { into.old.items ≡ [] }
    ensures fault { IfOk result (λ x. WhereTold (M.told mem.old) (λ m. (words_of region.now m).version ≡ 1 → x ≡ readings.made_fault region.now.size ring_used (words_of region.now m))) }
    ensures open { IfOk result (λ x. x ≡ None → WhereTold (M.told mem.old) (λ m. into.new.items ≡ readings.open_entries region.now.size ring_used (words_of region.now m))) }
    ensures entries { IfOk result (λ x. x ≡ None → AreEntries region.now.size into.new.items) }
    ensures same_room { into.new.room ≡ into.old.room }
    ensures only_loads { OnlyLoads M.told M.trail M.names M.handed M.sizes mem.old mem.new }
    ensures cause { HasCause (M.faults mem.old) (M.faults mem.new) result }
{
    let count = region.desc_num(mem)?;
    if count != region.size {
        return Ok(Some(RegionFault::BadCount(count)));
    }
    let used_idx = region.used_idx(mem)?;
    let batch = ring_used.wrapping_sub(used_idx);
    if batch > region.size {
        return Ok(Some(RegionFault::BadUsed(batch)));
    }
    let mut counted = [false; MOST_ENTRIES];
    let bad = walk_links(region, mem, batch, &mut counted)?;
    if let Some(link) = bad {
        return Ok(Some(RegionFault::BadLink(link)));
    }
    gather(region, mem, &counted, into)?;
    Ok(bad_counter(into))
}

/// The first of so many links of the last batch that is no entry or was met before. Where there is
/// none, `met` has marks for them all.
fn walk_links<M: Shared>(
    region: &SplitRegion,
    mem: &mut M,
    count: u16,
    met: &mut Marks,
) -> Result<Option<u16>, Failed>
    requires lies { RegionLies (M.sizes mem.old) region.now }
    requires few { region.now.size ≤ 1024 }
    requires unmarked { AreMarked met.old [] }
    ensures bad { IfOk result (λ bad. WhereTold (M.told mem.old) (λ m. bad ≡ first_bad region.now.size [] (links (words_of region.now m).next count (words_of region.now m).last_batch_head))) }
    ensures met { IfOk result (λ bad. bad ≡ None → WhereTold (M.told mem.old) (λ m. AreMarked met.new (links (words_of region.now m).next count (words_of region.now m).last_batch_head))) }
    ensures only_loads { OnlyLoads M.told M.trail M.names M.handed M.sizes mem.old mem.new }
    ensures cause { HasCause (M.faults mem.old) (M.faults mem.new) result }
{
    let mut link = region.last_batch_head(mem)?;
    for _ in 0..count {
        if is_bad(link, region.size, met) {
            return Ok(Some(link));
        }
        met[usize::from(link)] = true;
        link = region.next_of(mem, link)?;
    }
    Ok(None)
}

/// The entries in flight that aren't counted, in order of index.
pub(crate) fn gather<M: Shared>(
    region: &SplitRegion,
    mem: &mut M,
    counted: &Marks,
    into: &mut PendingList,
) -> Result<(), Failed>
    requires lies { RegionLies (M.sizes mem.old) region.now }
    requires few { region.now.size ≤ 1024 }
    requires room { region.now.size ≤ into.old.room }
    requires empty { into.old.items ≡ [] }
    ensures gathered { IfOk result (λ t. WhereTold (M.told mem.old) (λ m. (batch : List ℕ) → AreMarked counted.now batch → into.new.items ≡ by_index (words_of region.now m).counter one_each (in_flight_but batch (words_of region.now m).inflight) region.now.size)) }
    ensures entries { OnOk result (AreEntries region.now.size into.new.items) }
    ensures same_room { into.new.room ≡ into.old.room }
    ensures only_loads { OnlyLoads M.told M.trail M.names M.handed M.sizes mem.old mem.new }
    ensures cause { HasCause (M.faults mem.old) (M.faults mem.new) result }
{
    for index in 0..region.size {
        add_if_open(region, mem, index, counted, into)?;
    }
    Ok(())
}

/// Adds an entry if it is in flight and not counted.
fn add_if_open<M: Shared>(
    region: &SplitRegion,
    mem: &mut M,
    index: u16,
    counted: &Marks,
    into: &mut PendingList,
) -> Result<(), Failed>
    requires lies { RegionLies (M.sizes mem.old) region.now }
    requires few { region.now.size ≤ 1024 }
    requires within { index < region.now.size }
    requires room { length into.old.items < into.old.room }
    ensures added { IfOk result (λ t. WhereTold (M.told mem.old) (λ m. into.new.items ≡ into.old.items
        ++ (if not ((words_of region.now m).inflight index == 0) && not (get_or counted.now index false) then entry_at (words_of region.now m).counter one_each index ∷ [] else []))) }
    ensures entries { AreEntries index into.old.items → AreEntries (index + 1) into.new.items }
    ensures same_room { into.new.room ≡ into.old.room }
    ensures only_loads { OnlyLoads M.told M.trail M.names M.handed M.sizes mem.old mem.new }
    ensures cause { HasCause (M.faults mem.old) (M.faults mem.new) result }
{
    let inflight = region.inflight_of(mem, index)?;
    if inflight == 0 || counted[usize::from(index)] {
        return Ok(());
    }
    let counter = region.counter_of(mem, index)?;
    into.push(Pending {
        head: index,
        counter,
        num: 1,
    });
    Ok(())
}
