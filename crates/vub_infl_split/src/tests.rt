ghost use Rattle.vub_infl_split.specs.Stores.{NamesEntry};

use crate::{SplitRegion, SplitStore};
use std::test::Fail;
use vub_base::{Pending, PendingList, Reading, RegionFault};
use vub_shared::{MemShared, Shared};

const PLACE: u64 = 8;

const BYTES: usize = 80;

// The region of a queue of 4 descriptors. Entry 2 was linked last, behind entry 3, and used_idx is 6.
const REGION: [u8; BYTES] = [
    // features; version, desc_num, last_batch_head, used_idx
    0, 0, 0, 0, 0, 0, 0, 0, 1, 0, 4, 0, 2, 0, 6, 0, //
    // of each entry: inflight, 5 bytes of padding, next; counter
    1, 0, 0, 0, 0, 0, 0, 0, 9, 0, 0, 0, 0, 0, 0, 0, //
    0, 0, 0, 0, 0, 0, 0, 0, 9, 0, 0, 0, 0, 0, 0, 0, //
    1, 0, 0, 0, 0, 0, 3, 0, 3, 0, 0, 0, 0, 0, 0, 0, //
    255, 0, 0, 0, 0, 0, 0, 0, 5, 0, 0, 0, 0, 0, 0, 1, //
];

// Where a region of 4 entries lies, behind other bytes of its space.
fn four_entries(memory: &mut MemShared) -> Result<SplitRegion, Fail> {
    let space = memory.create("i", PLACE + 80).map_err(|_| "created")?;
    Ok(SplitRegion {
        space,
        place: PLACE,
        size: 4,
    })
}

fn read(
    memory: &mut MemShared,
    region: &SplitRegion,
    bytes: &[u8],
    used: u16,
    into: &mut PendingList,
) -> Option<Reading> {
    if bytes.len() != BYTES
        || memory.size(region.space) != PLACE + 80
        || region.place != PLACE
        || region.size != 4
        || into.room() < 4
    {
        return None;
    }
    memory.store_run(region.space, PLACE, bytes).ok()?;
    region.reading(memory, used, into).ok()
}

#[test]
fn a_region_laid_out_by_hand(rt: HostRuntime) -> Result<(), Fail> {
    let alloc = rt.alloc();
    let mut memory = MemShared::new(alloc, Vec::new(alloc));
    let region = four_entries(&mut memory)?;
    let mut list = PendingList::new(alloc, 4).map_err(|_| "list")?;
    // used.idx, and the heads and counters of what is open
    let none = (0, 0);
    let rows = [
        (6, [(2, 3), (0, 9), (3, 0x0100_0000_0000_0005)]),
        (7, [(0, 9), (3, 0x0100_0000_0000_0005), none]),
        (8, [(0, 9), none, none]),
    ];
    for (used, entries) in rows {
        let reading = read(&mut memory, &region, &REGION, used, &mut list);
        assert_eq!(rt; reading, Some(Reading::Entries), "{used}");
        for (item, (head, counter)) in list.items().iter().zip(entries) {
            let entry = Pending {
                head,
                counter,
                num: 1,
            };
            assert_eq!(rt; *item, entry, "{used}");
        }
        let open = entries.iter().filter(|entry| **entry != none).count();
        assert_eq!(rt; list.items().len(), open, "{used}");
    }
    Ok(())
}

#[test]
fn the_first_cause_of_damage(rt: HostRuntime) -> Result<(), Fail> {
    let alloc = rt.alloc();
    let mut memory = MemShared::new(alloc, Vec::new(alloc));
    let region = four_entries(&mut memory)?;
    let mut list = PendingList::new(alloc, 4).map_err(|_| "list")?;
    // used.idx, bytes that are changed and their values, and what the region says
    let damaged = Reading::Damaged;
    let rows = [
        (7, [(8, 0), (10, 5)], Reading::Uninitialised),
        (7, [(9, 1), (10, 5)], damaged(RegionFault::BadVersion(257))),
        (11, [(10, 5), (12, 4)], damaged(RegionFault::BadCount(5))),
        (11, [(12, 4), (0, 0)], damaged(RegionFault::BadUsed(5))),
        (5, [(12, 4), (0, 0)], damaged(RegionFault::BadUsed(65535))),
        (7, [(12, 4), (0, 1)], damaged(RegionFault::BadLink(4))),
        (8, [(54, 2), (40, 3)], damaged(RegionFault::BadLink(2))),
        (
            6,
            [(56, 9), (0, 1)],
            damaged(RegionFault::SameCounter(0, 2)),
        ),
        (
            6,
            [(32, 1), (56, 9)],
            damaged(RegionFault::SameCounter(0, 1)),
        ),
    ];
    for (used, changes, expected) in rows {
        let mut bytes = REGION;
        for (at, byte) in changes {
            bytes[at] = byte;
        }
        let reading = read(&mut memory, &region, &bytes, used, &mut list);
        assert_eq!(rt; reading, Some(expected), "{used}");
        assert!(rt; list.items().is_empty(), "{used}");
    }
    // the last counter comes before one that two share
    let mut bytes = REGION;
    bytes[24..32].fill(255);
    bytes[56..64].fill(255);
    let reading = read(&mut memory, &region, &bytes, 6, &mut list);
    assert_eq!(rt; reading, Some(damaged(RegionFault::LastCounter(0))));
    Ok(())
}

// Whether the store changes these bytes of a region and no other of its space.
fn changes(
    memory: &mut MemShared,
    region: &SplitRegion,
    step: SplitStore,
    at: usize,
    bytes: &[u8],
) -> bool
    requires { NamesEntry 4 step }
{
    if memory.size(region.space) != PLACE + 80
        || region.place != PLACE
        || region.size != 4
        || at > BYTES
    {
        return false;
    }
    let filled = memory.store_run(region.space, 0, &[0xaa; 88]);
    let stored = region.store(memory, step);
    let start = 8 + at;
    let image = memory.image(region.space);
    let same = image.iter().enumerate().all(|(i, byte)| {
        let new = if i < start {
            None
        } else {
            bytes.get(i - start)
        };
        new.unwrap_or(&0xaa) == byte
    });
    filled.is_ok() && stored.is_ok() && same && image.len() == 88
}

#[test]
fn each_store_by_hand(rt: HostRuntime) -> Result<(), Fail> {
    let alloc = rt.alloc();
    let mut memory = MemShared::new(alloc, Vec::new(alloc));
    let region = four_entries(&mut memory)?;
    let m = &mut memory;
    let r = &region;
    assert!(rt; changes(m, r, SplitStore::SI1, 0, &[0; 8]));
    assert!(rt; changes(m, r, SplitStore::SI2(2), 48, &[0]));
    assert!(rt; changes(m, r, SplitStore::SI3(0x0102), 8, &[1, 0, 4, 0, 0, 0, 2, 1]));
    assert!(rt; changes(m, r, SplitStore::SR1(3), 64, &[0]));
    assert!(rt; changes(m, r, SplitStore::SR2(0x0304), 14, &[4, 3]));
    assert!(rt;
        changes(
            m,
            r,
            SplitStore::SF1(1, 0x0102_0304_0506_0708),
            40,
            &[8, 7, 6, 5, 4, 3, 2, 1]
        )
    );
    assert!(rt; changes(m, r, SplitStore::SF2(0), 16, &[1]));
    assert!(rt; changes(m, r, SplitStore::SP3(2, 0x0506), 54, &[6, 5]));
    assert!(rt; changes(m, r, SplitStore::SP4(0x0708), 12, &[8, 7]));
    assert!(rt; changes(m, r, SplitStore::SP6(1), 32, &[0]));
    assert!(rt; changes(m, r, SplitStore::SP7(0x090a), 14, &[10, 9]));
    Ok(())
}
