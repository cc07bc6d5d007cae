ghost use Rattle.vub_infl_packed.specs.Stores.{NamesEntry};

use crate::{PackedEntry, PackedRegion, PackedStore};
use std::test::Fail;
use vub_base::{Pending, PendingList, Position, Reading, RegionFault};
use vub_shared::{MemShared, Shared};

const PLACE: u64 = 8;

const BYTES: usize = 160;

// The region of a queue of 4 descriptors. Head 0 has one entry, head 2 has entries 2 and 1, and entry 3
// is free. Both used positions are slot 1 in a lap of wrap counter 1.
const REGION: [u8; BYTES] = [
    // features; version, desc_num, free_head, old_free_head
    0, 0, 0, 0, 0, 0, 0, 0, 1, 0, 4, 0, 3, 0, 3, 0, //
    // used_idx, old_used_idx, both wrap counters; padding
    1, 0, 1, 0, 1, 1, 0, 0, 0, 0, 0, 0, 0, 0, 0, 0, //
    // of each entry: inflight, padding, next, last, num, counter; id, flags, len, addr
    1, 0, 9, 0, 0, 0, 1, 0, 5, 0, 0, 0, 0, 0, 0, 0, //
    0, 0, 0, 0, 0, 0, 0, 0, 0, 0, 0, 0, 0, 0, 0, 0, //
    0, 0, 7, 0, 0, 0, 0, 0, 0, 0, 0, 0, 0, 0, 0, 0, //
    0, 0, 0, 0, 0, 0, 0, 0, 0, 0, 0, 0, 0, 0, 0, 0, //
    255, 0, 1, 0, 1, 0, 2, 0, 9, 0, 0, 0, 0, 0, 0, 1, //
    2, 1, 4, 3, 8, 7, 6, 5, 16, 15, 14, 13, 12, 11, 10, 9, //
    0, 0, 4, 0, 0, 0, 0, 0, 0, 0, 0, 0, 0, 0, 0, 0, //
    0, 0, 0, 0, 0, 0, 0, 0, 0, 0, 0, 0, 0, 0, 0, 0, //
];

// The flags of a slot that is available, and of one that is used, where the wrap counter is 1.
const AVAILABLE: u16 = 0x80;

const USED: u16 = 0x8082;

// Where a region of 4 entries lies, behind other bytes of its space.
fn four_entries(memory: &mut MemShared) -> Result<PackedRegion, Fail> {
    let space = memory.create("i", PLACE + 160).map_err(|_| "created")?;
    Ok(PackedRegion {
        space,
        place: PLACE,
        size: 4,
    })
}

fn read(
    memory: &mut MemShared,
    region: &PackedRegion,
    bytes: &[u8],
    flags: u16,
    into: &mut PendingList,
) -> Option<Reading> {
    if bytes.len() != BYTES
        || memory.size(region.space) != PLACE + 160
        || region.place != PLACE
        || region.size != 4
        || into.room() < 4
    {
        return None;
    }
    memory.store_run(region.space, PLACE, bytes).ok()?;
    region.reading(memory, flags, into).ok()
}

#[test]
fn a_region_laid_out_by_hand(rt: HostRuntime) -> Result<(), Fail> {
    let alloc = rt.alloc();
    let mut memory = MemShared::new(alloc, Vec::new(alloc));
    let region = four_entries(&mut memory)?;
    let mut list = PendingList::new(alloc, 4).map_err(|_| "list")?;
    let zero = Pending {
        head: 0,
        counter: 5,
        num: 1,
    };
    let two = Pending {
        head: 2,
        counter: 0x0100_0000_0000_0009,
        num: 2,
    };
    // the chain of head 2 is free, with entry 3 behind it; the used position is 2 slots on, or a lap
    let shown = [(12, 2), (66, 3), (16, 3), (20, 1)];
    let lap = [(12, 2), (66, 3), (16, 1), (20, 0)];
    let rows = [
        ([(12, 3), (16, 1), (20, 1), (0, 0)], USED, true),
        (shown, AVAILABLE, true),
        (shown, USED, false),
        (lap, AVAILABLE, true),
        (lap, USED, false),
    ];
    for (changes, flags, open) in rows {
        let mut bytes = REGION;
        for (at, byte) in changes {
            bytes[at] = byte;
        }
        let reading = read(&mut memory, &region, &bytes, flags, &mut list);
        assert_eq!(rt; reading, Some(Reading::Entries), "{flags}");
        assert_eq!(rt; list.items().first(), Some(&zero), "{flags}");
        let second = if open { Some(&two) } else { None };
        assert_eq!(rt; list.items().get(1), second, "{flags}");
        assert!(rt; list.items().len() <= 2, "{flags}");
    }
    Ok(())
}

#[test]
fn the_first_cause_of_damage(rt: HostRuntime) -> Result<(), Fail> {
    let alloc = rt.alloc();
    let mut memory = MemShared::new(alloc, Vec::new(alloc));
    let region = four_entries(&mut memory)?;
    let mut list = PendingList::new(alloc, 4).map_err(|_| "list")?;
    // bytes that are changed and their values, and what the region says
    let damaged = Reading::Damaged;
    let rows = [
        ([(8, 0), (10, 5)], Reading::Uninitialised),
        ([(9, 1), (10, 5)], damaged(RegionFault::BadVersion(257))),
        ([(10, 5), (16, 4)], damaged(RegionFault::BadCount(5))),
        ([(16, 4), (18, 5)], damaged(RegionFault::BadUsed(4))),
        ([(18, 5), (20, 2)], damaged(RegionFault::BadUsed(5))),
        ([(20, 2), (21, 3)], damaged(RegionFault::BadUsed(2))),
        ([(21, 3), (14, 5)], damaged(RegionFault::BadUsed(3))),
        ([(16, 0), (14, 5)], damaged(RegionFault::BadUsed(0))),
        ([(14, 5), (38, 0)], damaged(RegionFault::BadFree(5))),
        ([(130, 3), (38, 0)], damaged(RegionFault::BadFree(3))),
        ([(38, 0), (36, 3)], damaged(RegionFault::BadLink(0))),
        ([(98, 3), (100, 3)], damaged(RegionFault::BadLink(3))),
        ([(98, 2), (102, 1)], damaged(RegionFault::BadLink(1))),
        ([(102, 1), (100, 2)], damaged(RegionFault::BadSum(2))),
        (
            [(104, 5), (111, 0)],
            damaged(RegionFault::SameCounter(0, 2)),
        ),
    ];
    for (changes, expected) in rows {
        let mut bytes = REGION;
        for (at, byte) in changes {
            bytes[at] = byte;
        }
        let reading = read(&mut memory, &region, &bytes, USED, &mut list);
        assert_eq!(rt; reading, Some(expected));
        assert!(rt; list.items().is_empty());
    }
    // the last counter comes before one that two share
    let mut bytes = REGION;
    bytes[40..48].fill(255);
    bytes[104..112].fill(255);
    let reading = read(&mut memory, &region, &bytes, USED, &mut list);
    assert_eq!(rt; reading, Some(damaged(RegionFault::LastCounter(0))));
    Ok(())
}

#[test]
fn header_and_entry_by_hand(rt: HostRuntime) -> Result<(), Fail> {
    let alloc = rt.alloc();
    let mut memory = MemShared::new(alloc, Vec::new(alloc));
    let region = four_entries(&mut memory)?;
    let mut list = PendingList::new(alloc, 4).map_err(|_| "list")?;
    let mut bytes = REGION;
    bytes[18] = 3;
    bytes[20] = 0;
    bytes[21] = 7;
    assert!(rt; read(&mut memory, &region, &bytes, USED, &mut list).is_some());
    if memory.size(region.space) != PLACE + 160 || region.place != PLACE || region.size != 4 {
        return Err("place".into());
    }
    let header = region.header(&mut memory).map_err(|_| "header")?;
    assert_eq!(rt; (header.version, header.desc_num), (1, 4));
    assert_eq!(rt; (header.free_head, header.old_free_head), (3, 3));
    let (used, old_used) = (header.used, header.old_used);
    assert_eq!(rt;
        (used.index, used.wrap, old_used.index, old_used.wrap),
        (1, false, 3, true)
    );
    let entry = region.entry(&mut memory, 2).map_err(|_| "entry")?;
    let expected = PackedEntry {
        inflight: 255,
        next: 1,
        last: 1,
        num: 2,
        counter: 0x0100_0000_0000_0009,
        id: 0x0102,
        flags: 0x0304,
        len: 0x0506_0708,
        addr: 0x090a_0b0c_0d0e_0f10,
    };
    assert_eq!(rt; entry, expected);
    Ok(())
}

// Whether the store changes these bytes of a region and no other of its space.
fn changes(
    memory: &mut MemShared,
    region: &PackedRegion,
    step: PackedStore,
    at: usize,
    bytes: &[u8],
) -> bool
    requires { NamesEntry 4 step }
{
    if memory.size(region.space) != PLACE + 160
        || region.place != PLACE
        || region.size != 4
        || at > BYTES
    {
        return false;
    }
    let filled = memory.store_run(region.space, 0, &[0xaa; 168]);
    let stored = region.store(memory, step);
    let start = 8 + at;
    let image = memory.image(region.space);
    let same = image.iter().enumerate().all(|(i, byte)| {
        let new = if i < start {
            None
        } else {
            bytes.get(i - start)
        };
        new.unwrap_or(&0xaa) == byte
    });
    filled.is_ok() && stored.is_ok() && same && image.len() == 168
}

#[test]
fn each_store_by_hand(rt: HostRuntime) -> Result<(), Fail> {
    let alloc = rt.alloc();
    let mut memory = MemShared::new(alloc, Vec::new(alloc));
    let region = four_entries(&mut memory)?;
    let m = &mut memory;
    let r = &region;
    let at = Position {
        index: 0x0102,
        wrap: true,
    };
    let old = Position {
        index: 0x0304,
        wrap: false,
    };
    let both = [2, 1, 2, 1, 1, 1, 0, 0];
    let eight = 0x0102_0304_0506_0708;
    let low_first = [8, 7, 6, 5, 4, 3, 2, 1];
    assert!(rt; changes(m, r, PackedStore::PI1, 0, &[0; 8]));
    assert!(rt; changes(m, r, PackedStore::PI2(2), 96, &[0]));
    assert!(rt; changes(m, r, PackedStore::PI3(3), 130, &[4, 0]));
    assert!(rt; changes(m, r, PackedStore::PI4(at), 16, &both));
    assert!(rt; changes(m, r, PackedStore::PI5, 8, &[1, 0, 4, 0, 0, 0, 0, 0]));
    assert!(rt; changes(m, r, PackedStore::PR1(0x0506), 14, &[6, 5]));
    assert!(rt; changes(m, r, PackedStore::PR2(at), 16, &both));
    assert!(rt; changes(m, r, PackedStore::PR4(at), 16, &both));
    assert!(rt; changes(m, r, PackedStore::PR5(0x0506), 12, &[6, 5]));
    assert!(rt; changes(m, r, PackedStore::PR6(1), 64, &[0]));
    assert!(rt; changes(m, r, PackedStore::PF1(0), 38, &[0, 0]));
    assert!(rt; changes(m, r, PackedStore::PF2(0, eight), 40, &low_first));
    assert!(rt; changes(m, r, PackedStore::PF3(3), 128, &[1]));
    assert!(rt; changes(m, r, PackedStore::PF4(1, 0x0506), 68, &[6, 5]));
    assert!(rt; changes(m, r, PackedStore::PF5(1, 0x0506), 70, &[6, 5]));
    assert!(rt; changes(m, r, PackedStore::PF6(1, eight), 88, &low_first));
    let desc = PackedStore::PF7(1, 0x0708, 0x0506, 0x0102_0304);
    assert!(rt; changes(m, r, desc, 80, &low_first));
    assert!(rt; changes(m, r, PackedStore::PF8(0x0506), 12, &[6, 5]));
    assert!(rt; changes(m, r, PackedStore::PF9(0x0506), 14, &[6, 5]));
    assert!(rt; changes(m, r, PackedStore::PP1(2, 0x0506), 98, &[6, 5]));
    assert!(rt; changes(m, r, PackedStore::PP2(0x0506), 12, &[6, 5]));
    assert!(rt;
        changes(
            m,
            r,
            PackedStore::PP3(at, old),
            16,
            &[2, 1, 4, 3, 1, 0, 0, 0]
        )
    );
    assert!(rt; changes(m, r, PackedStore::PP7(2), 96, &[0]));
    assert!(rt; changes(m, r, PackedStore::PP8(0x0506), 14, &[6, 5]));
    assert!(rt; changes(m, r, PackedStore::PP9(at), 16, &both));
    Ok(())
}

// Makes an entry of a new region.
fn made(memory: &mut MemShared, region: &PackedRegion, index: u16) -> bool {
    if memory.size(region.space) < 2080
        || region.place != 0
        || region.size > 64
        || index >= region.size
    {
        return false;
    }
    let cleared = region.store(memory, PackedStore::PI2(index));
    let linked = region.store(memory, PackedStore::PI3(index));
    cleared.is_ok() && linked.is_ok()
}

// Makes the header of a new region and fetches one descriptor into its first entry; what it says then.
fn fetched(
    memory: &mut MemShared,
    region: &PackedRegion,
    into: &mut PendingList,
) -> Option<Reading> {
    if memory.size(region.space) < 2080
        || region.place != 0
        || region.size > 64
        || region.size == 0
        || into.room() < 64
    {
        return None;
    }
    region.store(memory, PackedStore::PI5).ok()?;
    region.store(memory, PackedStore::PF2(0, 7)).ok()?;
    region.store(memory, PackedStore::PF3(0)).ok()?;
    region.store(memory, PackedStore::PF4(0, 0)).ok()?;
    region.store(memory, PackedStore::PF5(0, 1)).ok()?;
    region.store(memory, PackedStore::PF8(1)).ok()?;
    region.store(memory, PackedStore::PF9(1)).ok()?;
    region.reading(memory, AVAILABLE, into).ok()
}

#[test]
fn regions_of_several_sizes(rt: HostRuntime) -> Result<(), Fail> {
    let alloc = rt.alloc();
    let mut memory = MemShared::new(alloc, Vec::new(alloc));
    let mut list = PendingList::new(alloc, 64).map_err(|_| "list")?;
    for size in [1, 2, 3, 64] {
        let space = memory.create("i", 2080).map_err(|_| "created")?;
        let region = PackedRegion {
            space,
            place: 0,
            size,
        };
        for index in 0..size {
            assert!(rt; made(&mut memory, &region, index), "{index}");
        }
        let reading = fetched(&mut memory, &region, &mut list);
        assert_eq!(rt; reading, Some(Reading::Entries), "{size}");
        let first = Pending {
            head: 0,
            counter: 7,
            num: 1,
        };
        assert_eq!(rt; list.items(), &[first][..], "{size}");
    }
    Ok(())
}

// A region of one entry whose positions are a lap apart: the head is open until its slot is used.
#[test]
fn positions_that_differ_in_wrap_alone(rt: HostRuntime) -> Result<(), Fail> {
    let alloc = rt.alloc();
    let mut memory = MemShared::new(alloc, Vec::new(alloc));
    let mut list = PendingList::new(alloc, 1).map_err(|_| "list")?;
    let space = memory.create("i", 64).map_err(|_| "created")?;
    let region = PackedRegion {
        space,
        place: 0,
        size: 1,
    };
    let mut bytes = [0; 64];
    bytes[8..22].copy_from_slice(&[1, 0, 1, 0, 0, 0, 1, 0, 0, 0, 0, 0, 0, 1]);
    bytes[32..41].copy_from_slice(&[1, 0, 1, 0, 0, 0, 1, 0, 7]);
    let stored = memory.store_run(space, 0, &bytes);
    assert!(rt; stored.is_ok());
    for (flags, open) in [(128, 1), (32898, 0)] {
        if memory.size(space) != 64 || list.room() < 1 {
            return Err("room".into());
        }
        let reading = region.reading(&mut memory, flags, &mut list);
        assert_eq!(rt; reading, Ok(Reading::Entries), "{flags}");
        assert_eq!(rt; list.items().len(), open, "{flags}");
    }
    Ok(())
}
