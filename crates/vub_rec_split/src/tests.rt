ghost use Rattle.std.specs.Prelude.{◌≡◌, ◌≤◌, IfSome};
ghost use Rattle.vub_rec_split.specs.Starts.{StartLies};

use crate::{Recovered, SplitRecovery};
use std::test::Fail;
use vub_base::{Pending, PendingList, RegionFault, Space, Tag};
use vub_infl_split::SplitRegion;
use vub_shared::{MemShared, Shared};
use vub_split::SplitRing;

const REGION_BYTES: u64 = 80;

const RING_BYTES: u64 = 256;

const USED: u64 = 128;

// The region of a queue of 4 descriptors. Entry 2 was linked last, behind entry 3, and used_idx is 6.
const BATCH: [u8; 80] = [
    // features; version, desc_num, last_batch_head, used_idx
    0, 0, 0, 0, 0, 0, 0, 0, 1, 0, 4, 0, 2, 0, 6, 0, //
    // of each entry: inflight, 5 bytes of padding, next; counter
    1, 0, 0, 0, 0, 0, 0, 0, 9, 0, 0, 0, 0, 0, 0, 0, //
    0, 0, 0, 0, 0, 0, 0, 0, 9, 0, 0, 0, 0, 0, 0, 0, //
    1, 0, 0, 0, 0, 0, 3, 0, 3, 0, 0, 0, 0, 0, 0, 0, //
    255, 0, 0, 0, 0, 0, 0, 0, 5, 0, 0, 0, 0, 0, 0, 1, //
];

// The recovery of a queue of 4 descriptors, whose region has these bytes.
fn recovery<M: Shared>(
    memory: &mut M,
    region: Space,
    ring: Space,
    bytes: &[u8],
    used: u16,
    base: u32,
) -> Option<SplitRecovery>
    ensures lies { IfSome result (λ r. StartLies (M.sizes memory.new) r) }
    ensures size { IfSome result (λ r. r.region.size ≡ 4) }
{
    if bytes.len() != 80 || memory.size(region) != REGION_BYTES || memory.size(ring) != RING_BYTES {
        return None;
    }
    memory.store_run(region, 0, bytes).ok()?;
    memory.store2(ring, USED + 2, used).ok()?;
    let ring = SplitRing {
        desc: (ring, 0),
        avail: (ring, 64),
        used: (ring, USED),
        size: 4,
    };
    let region = SplitRegion {
        space: region,
        place: 0,
        size: 4,
    };
    Some(SplitRecovery::new(ring, region, base))
}

// A step of it.
fn step<M: Shared>(
    recovery: &mut SplitRecovery,
    memory: &mut M,
    list: &mut PendingList,
) -> Recovered
    requires lies { StartLies (M.sizes memory.old) recovery.old }
    requires size { recovery.old.region.size ≡ 4 }
    requires room { 4 ≤ list.old.room }
    ensures lies { StartLies (M.sizes memory.new) recovery.new }
    ensures size { recovery.new.region.size ≡ 4 }
    ensures room { list.new.room ≡ list.old.room }
{
    recovery.step(memory, list)
}

#[test]
fn a_new_region_is_made(rt: HostRuntime) -> Result<(), Fail> {
    let alloc = rt.alloc();
    let mut memory = MemShared::new(alloc, Vec::new(alloc));
    let region = memory.create("i", REGION_BYTES).map_err(|_| "region")?;
    let ring = memory.create("m", RING_BYTES).map_err(|_| "ring")?;
    let mut list = PendingList::new(alloc, 4).map_err(|_| "list")?;
    let mut bytes = [7u8; 80];
    bytes[8..10].fill(0);
    let mut starts = recovery(&mut memory, region, ring, &bytes, 300, 300).ok_or("recovery")?;
    let stored = Recovered::Stored;
    assert_eq!(rt; step(&mut starts, &mut memory, &mut list), stored(Tag::SI1));
    assert_eq!(rt; step(&mut starts, &mut memory, &mut list), stored(Tag::SI2));
    assert_eq!(rt; step(&mut starts, &mut memory, &mut list), stored(Tag::SI2));
    assert_eq!(rt; step(&mut starts, &mut memory, &mut list), stored(Tag::SI2));
    assert_eq!(rt; step(&mut starts, &mut memory, &mut list), stored(Tag::SI2));
    assert_eq!(rt; step(&mut starts, &mut memory, &mut list), stored(Tag::SI3));
    assert_eq!(rt; step(&mut starts, &mut memory, &mut list), Recovered::Done);
    assert_eq!(rt; step(&mut starts, &mut memory, &mut list), Recovered::Done);
    assert!(rt; list.items().is_empty());
    // version 1, 4 descriptors, no batch, used_idx 300; no entry is in flight
    bytes[..8].fill(0);
    bytes[8..16].copy_from_slice(&[1, 0, 4, 0, 0, 0, 44, 1]);
    bytes[16] = 0;
    bytes[32] = 0;
    bytes[48] = 0;
    bytes[64] = 0;
    assert_eq!(rt; memory.image(region), bytes.as_slice());
    Ok(())
}

#[test]
fn a_recovery_that_is_cut_off_begins_again(rt: HostRuntime) -> Result<(), Fail> {
    let alloc = rt.alloc();
    let mut memory = MemShared::new(alloc, Vec::new(alloc));
    let region = memory.create("i", REGION_BYTES).map_err(|_| "region")?;
    let ring = memory.create("m", RING_BYTES).map_err(|_| "ring")?;
    let mut list = PendingList::new(alloc, 4).map_err(|_| "list")?;
    let stored = Recovered::Stored;
    let mut first = recovery(&mut memory, region, ring, &BATCH, 8, 0).ok_or("first")?;
    assert_eq!(rt; step(&mut first, &mut memory, &mut list), stored(Tag::SR1));
    // the entry that was linked last isn't in flight
    let mut bytes = BATCH;
    bytes[48] = 0;
    assert_eq!(rt; memory.image(region), bytes.as_slice());
    let mut second = recovery(&mut memory, region, ring, &bytes, 8, 0).ok_or("second")?;
    assert_eq!(rt; step(&mut second, &mut memory, &mut list), stored(Tag::SR1));
    assert_eq!(rt; step(&mut second, &mut memory, &mut list), stored(Tag::SR1));
    assert_eq!(rt; step(&mut second, &mut memory, &mut list), stored(Tag::SR2));
    assert_eq!(rt; step(&mut second, &mut memory, &mut list), Recovered::Done);
    let open = Pending {
        head: 0,
        counter: 9,
        num: 1,
    };
    assert_eq!(rt; list.items(), [open].as_slice());
    // neither is the one behind it, and used_idx is 8
    bytes[64] = 0;
    bytes[14] = 8;
    assert_eq!(rt; memory.image(region), bytes.as_slice());
    Ok(())
}

#[test]
fn a_damaged_region_is_left(rt: HostRuntime) -> Result<(), Fail> {
    let alloc = rt.alloc();
    let mut memory = MemShared::new(alloc, Vec::new(alloc));
    let region = memory.create("i", REGION_BYTES).map_err(|_| "region")?;
    let ring = memory.create("m", RING_BYTES).map_err(|_| "ring")?;
    let mut list = PendingList::new(alloc, 4).map_err(|_| "list")?;
    let damaged = Recovered::Damaged;
    let mut bytes = BATCH;
    bytes[8] = 0;
    let mut new = recovery(&mut memory, region, ring, &bytes, 6, 65542).ok_or("new")?;
    assert_eq!(rt;
        step(&mut new, &mut memory, &mut list),
        damaged(RegionFault::BadBase(65542))
    );
    assert_eq!(rt; memory.image(region), bytes.as_slice());
    bytes = BATCH;
    bytes[54] = 4;
    let mut made = recovery(&mut memory, region, ring, &bytes, 8, 0).ok_or("made")?;
    assert_eq!(rt;
        step(&mut made, &mut memory, &mut list),
        damaged(RegionFault::BadLink(4))
    );
    assert_eq!(rt; memory.image(region), bytes.as_slice());
    assert!(rt; list.items().is_empty());
    Ok(())
}
