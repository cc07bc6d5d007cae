//! Walks along the links of a packed queue's region.
ghost use Rattle.std.specs.Prelude.{◌≡◌, ◌<◌, ◌≤◌, ◌+◌, ◌++◌, ◌∷◌, [], ℕ, List, None, length, not, ◌==◌, ◌&&◌, false, if◌then◌else◌, IfOk, OnOk};
ghost use Rattle.std.proofs.Common.{get_or};
ghost use Rattle.std.specs.List.{AllByRecursion};
ghost use Rattle.vub_base.specs.Causes.{HasCause};
ghost use Rattle.vub_base.specs.Told.{WhereTold};
ghost use Rattle.vub_base.specs.declared.pending.Pending.{Pending};
ghost use Rattle.vub_shared.specs.Frames.{OnlyLoads};
ghost use Rattle.vub_inflight.specs.Entries.{entry_at, AreEntries};
ghost use Rattle.vub_inflight.specs.Links.{AreMarked};
ghost use Rattle.vub_infl_packed.specs.Readings.{free_from, open_by_index, bad_free, chain, bad_chain, bad_chains, chain_entries};
ghost use Rattle.vub_infl_packed.specs.Region.{RegionLies, words_of};
ghost use Rattle.vub_infl_packed.specs.Walks.{IsFreeList, HasFew};

use crate::PackedRegion;
use vub_base::{Failed, Pending, PendingList};
use vub_inflight::{Marks, is_bad};
use vub_shared::Shared;

/// What the links of a free list are.
#[derive(Clone, Copy, Debug, PartialEq, Eq)]
pub(crate) enum FreeList {
    /// So many entries.
    Entries(u16),
    /// This one is the first that is above the number of entries, or was met before.
    Bad(u16),
}

/// The free list from a head on. Where its links are entries, `met` has marks for them all.
pub(crate) fn walk_free_list<M: Shared>(
    region: &PackedRegion,
    mem: &mut M,
    head: u16,
    met: &mut Marks,
) -> Result<FreeList, Failed>
    requires lies { RegionLies (M.sizes mem.old) region.now }
    requires few { region.now.size ≤ 1024 }
    requires unmarked { AreMarked met.old [] }
    ensures list { IfOk result (λ x. WhereTold (M.told mem.old) (λ m. IsFreeList region.now.size (words_of region.now m) head met.new x)) }
    ensures few { IfOk result (λ x. HasFew region.now.size x) }
    ensures only_loads { OnlyLoads M.told M.trail M.names M.handed M.sizes mem.old mem.new }
    ensures cause { HasCause (M.faults mem.old) (M.faults mem.new) result }
{
    let mut link = head;
    for count in 0..region.size {
        if link == region.size {
            return Ok(FreeList::Entries(count));
        }
        if is_bad(link, region.size, met) {
            return Ok(FreeList::Bad(link));
        }
        met[usize::from(link)] = true;
        link = region.entry(mem, link)?.next;
    }
    if link == region.size {
        Ok(FreeList::Entries(region.size))
    } else {
        Ok(FreeList::Bad(link))
    }
}

/// Marks the entries of the free list from a head on: those before the first link that is no entry,
/// and no more than there are.
pub(crate) fn mark_free_list<M: Shared>(
    region: &PackedRegion,
    mem: &mut M,
    head: u16,
    marks: &mut Marks,
) -> Result<(), Failed>
    requires lies { RegionLies (M.sizes mem.old) region.now }
    requires few { region.now.size ≤ 1024 }
    requires unmarked { AreMarked marks.old [] }
    ensures marked { IfOk result (λ t. WhereTold (M.told mem.old) (λ m. AreMarked marks.new (free_from region.now.size (words_of region.now m) head))) }
    ensures only_loads { OnlyLoads M.told M.trail M.names M.handed M.sizes mem.old mem.new }
    ensures cause { HasCause (M.faults mem.old) (M.faults mem.new) result }
{
    let mut link = head;
    for _ in 0..region.size {
        if link >= region.size {
            return Ok(());
        }
        marks[usize::from(link)] = true;
        link = region.entry(mem, link)?.next;
    }
    Ok(())
}

/// The heads in flight that aren't free, in order of index.
pub(crate) fn gather<M: Shared>(
    region: &PackedRegion,
    mem: &mut M,
    free: &Marks,
    into: &mut PendingList,
) -> Result<(), Failed>
    requires lies { RegionLies (M.sizes mem.old) region.now }
    requires few { region.now.size ≤ 1024 }
    requires room { region.now.size ≤ into.old.room }
    requires empty { into.old.items ≡ [] }
    ensures gathered { IfOk result (λ t. WhereTold (M.told mem.old) (λ m. (list : List ℕ) → AreMarked free.now list → into.new.items ≡ open_by_index region.now.size list (words_of region.now m))) }
    ensures entries { OnOk result (AreEntries region.now.size into.new.items) }
    ensures same_room { into.new.room ≡ into.old.room }
    ensures only_loads { OnlyLoads M.told M.trail M.names M.handed M.sizes mem.old mem.new }
    ensures cause { HasCause (M.faults mem.old) (M.faults mem.new) result }
{
    for index in 0..region.size {
        add_if_open(region, mem, index, free, into)?;
    }
    Ok(())
}

/// Adds an entry if it is in flight and not free.
fn add_if_open<M: Shared>(
    region: &PackedRegion,
    mem: &mut M,
    index: u16,
    free: &Marks,
    into: &mut PendingList,
) -> Result<(), Failed>
    requires lies { RegionLies (M.sizes mem.old) region.now }
    requires few { region.now.size ≤ 1024 }
    requires within { index < region.now.size }
    requires room { length into.old.items < into.old.room }
    ensures added { IfOk result (λ t. WhereTold (M.told mem.old) (λ m. into.new.items ≡ into.old.items
        ++ (if not ((words_of region.now m).inflight index == 0) && not (get_or free.now index false) then entry_at (words_of region.now m).counter (words_of region.now m).num index ∷ [] else []))) }
    ensures entries { AreEntries index into.old.items → AreEntries (index + 1) into.new.items }
    ensures same_room { into.new.room ≡ into.old.room }
    ensures only_loads { OnlyLoads M.told M.trail M.names M.handed M.sizes mem.old mem.new }
    ensures cause { HasCause (M.faults mem.old) (M.faults mem.new) result }
{
    let entry = region.entry(mem, index)?;
    if entry.inflight == 0 || free[usize::from(index)] {
        return Ok(());
    }
    into.push(Pending {
        head: index,
        counter: entry.counter,
        num: entry.num,
    });
    Ok(())
}

/// The first fault of the chains of these heads, one after another, where `met` has marks for the free
/// list: a head without entries, a link that is no entry or was met before, or a `last` at which its
/// chain doesn't end.
pub(crate) fn walk_chains<M: Shared>(
    region: &PackedRegion,
    mem: &mut M,
    heads: &[Pending],
    met: &mut Marks,
) -> Result<Option<u16>, Failed>
    requires lies { RegionLies (M.sizes mem.old) region.now }
    requires few { region.now.size ≤ 1024 }
    requires below { AllByRecursion (λ (e : Pending). e.head < region.now.size) heads.now }
    ensures bad { IfOk result (λ bad. WhereTold (M.told mem.old) (λ m. (list : List ℕ) → AreMarked met.old list → bad ≡ bad_chains region.now.size (words_of region.now m) list heads.now)) }
    ensures only_loads { OnlyLoads M.told M.trail M.names M.handed M.sizes mem.old mem.new }
    ensures cause { HasCause (M.faults mem.old) (M.faults mem.new) result }
{
    for head in heads {
        let bad = walk_chain(region, mem, head, met)?;
        if bad.is_some() {
            return Ok(bad);
        }
    }
    Ok(None)
}

/// The fault of a head's chain. Where there is none, its entries are marked.
fn walk_chain<M: Shared>(
    region: &PackedRegion,
    mem: &mut M,
    head: &Pending,
    met: &mut Marks,
) -> Result<Option<u16>, Failed>
    requires lies { RegionLies (M.sizes mem.old) region.now }
    requires few { region.now.size ≤ 1024 }
    requires below { head.now.head < region.now.size }
    ensures bad { IfOk result (λ bad. WhereTold (M.told mem.old) (λ m. (list : List ℕ) → AreMarked met.old list → bad ≡ bad_chain region.now.size (words_of region.now m) list head.now)) }
    ensures met { IfOk result (λ bad. bad ≡ None → WhereTold (M.told mem.old) (λ m. (list : List ℕ) → AreMarked met.old list → AreMarked met.new (list ++ chain (words_of region.now m) head.now))) }
    ensures only_loads { OnlyLoads M.told M.trail M.names M.handed M.sizes mem.old mem.new }
    ensures cause { HasCause (M.faults mem.old) (M.faults mem.new) result }
{
    if head.num == 0 {
        return Ok(Some(head.head));
    }
    let (mut reached, mut link) = (head.head, head.head);
    for _ in 0..head.num {
        if is_bad(link, region.size, met) {
            return Ok(Some(link));
        }
        met[usize::from(link)] = true;
        reached = link;
        link = region.entry(mem, link)?.next;
    }
    let last = region.entry(mem, head.head)?.last;
    Ok((reached != last).then_some(last))
}

/// How many entries the chains of these heads have together.
pub(crate) fn entries_in_chains(heads: &[Pending]) -> u32
    requires { length heads.now ≤ 1024 }
    ensures { result ≡ chain_entries heads.now }
{
    let mut sum = 0;
    for head in heads {
        sum += u32::from(head.num);
    }
    sum
}
