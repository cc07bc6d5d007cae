//! The open heads of a region that may be damaged.
ghost use Rattle.std.specs.Prelude.{◌≡◌, ◌≤◌, IfOk, OnOk};
ghost use Rattle.vub_base.specs.Causes.{HasCause};
ghost use Rattle.vub_base.specs.Told.{WhereTold};
ghost use Rattle.vub_shared.specs.Frames.{OnlyLoads};
ghost use Rattle.vub_inflight.specs.Entries.{AreEntries};
ghost use Rattle.vub_infl_packed.specs.Readings.{open_entries};
ghost use Rattle.vub_infl_packed.specs.Region.{RegionLies, words_of};

use crate::PackedRegion;
use crate::walks::{gather, mark_free_list};
use vub_base::{Failed, PendingList};
use vub_inflight::MOST_ENTRIES;
use vub_shared::Shared;

impl PackedRegion {
    /// The open heads in rising order of their counters where the slot at the old used position has
    /// these flags, with no check: those in flight outside the free list, which ends before a link that
    /// is no entry, and has no more entries than there are. After a failure the list has any entries.
    pub fn unchecked_entries<M: Shared>(
        &self,
        mem: &mut M,
        slot_flags: u16,
        into: &mut PendingList,
    ) -> Result<(), Failed>
        requires lies { RegionLies (M.sizes mem.old) self.now }
        requires few { self.now.size ≤ 1024 }
        requires room { self.now.size ≤ into.old.room }
        ensures open { IfOk result (λ t. WhereTold (M.told mem.old) (λ m. into.new.items ≡ open_entries self.now.size slot_flags (words_of self.now m))) }
        ensures entries { OnOk result (AreEntries self.now.size into.new.items) }
        ensures same_room { into.new.room ≡ into.old.room }
        ensures only_loads { OnlyLoads M.told M.trail M.names M.handed M.sizes mem.old mem.new }
        ensures cause { HasCause (M.faults mem.old) (M.faults mem.new) result }
    {
        into.clear();
        let header = self.header(mem)?;
        let mut free = [false; MOST_ENTRIES];
        mark_free_list(self, mem, header.chosen_head(slot_flags), &mut free)?;
        gather(self, mem, &free, into)?;
        into.sort();
        Ok(())
    }
}
