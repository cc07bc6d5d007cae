//! The open entries of a region that may be damaged.
ghost use Rattle.std.specs.Prelude.{◌≡◌, ◌≤◌, [], IfOk, OnOk};
ghost use Rattle.vub_base.specs.Causes.{HasCause};
ghost use Rattle.vub_base.specs.Told.{WhereTold};
ghost use Rattle.vub_shared.specs.Frames.{OnlyLoads};
ghost use Rattle.vub_inflight.specs.Entries.{AreEntries};
ghost use Rattle.vub_inflight.specs.Links.{links_within, AreMarked};
ghost use Rattle.vub_infl_split.specs.Readings.{unchecked_entries};
ghost use Rattle.vub_infl_split.specs.Region.{RegionLies, words_of};

use crate::SplitRegion;
use crate::reading::gather;
use vub_base::{Failed, PendingList};
use vub_inflight::{MOST_ENTRIES, Marks};
use vub_shared::Shared;

impl SplitRegion {
    /// The open entries in rising order of their counters where used.idx is `ring_used`, with no check:
    /// those in flight outside the last batch, which ends before a link that is no entry, and has no
    /// more entries than there are. After a failure the list has any entries.
    pub fn unchecked_entries<M: Shared>(
        &self,
        mem: &mut M,
        ring_used: u16,
        into: &mut PendingList,
    ) -> Result<(), Failed>
        requires lies { RegionLies (M.sizes mem.old) self.now }
        requires few { self.now.size ≤ 1024 }
        requires room { self.now.size ≤ into.old.room }
        ensures open { IfOk result (λ t. WhereTold (M.told mem.old) (λ m. into.new.items ≡ unchecked_entries self.now.size ring_used (words_of self.now m))) }
        ensures entries { OnOk result (AreEntries self.now.size into.new.items) }
        ensures same_room { into.new.room ≡ into.old.room }
        ensures only_loads { OnlyLoads M.told M.trail M.names M.handed M.sizes mem.old mem.new }
        ensures cause { HasCause (M.faults mem.old) (M.faults mem.new) result }
    {
        into.clear();
        let used_idx = self.used_idx(mem)?;
        let count = ring_used.wrapping_sub(used_idx).min(self.size);
        let mut batch = [false; MOST_ENTRIES];
        mark_batch(self, mem, count, &mut batch)?;
        gather(self, mem, &batch, into)?;
        into.sort();
        Ok(())
    }
}

/// Marks so many entries of the last batch, or those before a link that is no entry.
fn mark_batch<M: Shared>(
    region: &SplitRegion,
    mem: &mut M,
    count: u16,
    marks: &mut Marks,
) -> Result<(), Failed>
    requires lies { RegionLies (M.sizes mem.old) region.now }
    requires few { region.now.size ≤ 1024 }
    requires unmarked { AreMarked marks.old [] }
    ensures marked { IfOk result (λ t. WhereTold (M.told mem.old) (λ m. AreMarked marks.new (links_within region.now.size (words_of region.now m).next count (words_of region.now m).last_batch_head))) }
    ensures only_loads { OnlyLoads M.told M.trail M.names M.handed M.sizes mem.old mem.new }
    ensures cause { HasCause (M.faults mem.old) (M.faults mem.new) result }
{
    let mut link = region.last_batch_head(mem)?;
    for _ in 0..count {
        if link >= region.size {
            return Ok(());
        }
        marks[usize::from(link)] = true;
        link = region.next_of(mem, link)?;
    }
    Ok(())
}
