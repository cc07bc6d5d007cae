ghost use Rattle.std.specs.Prelude.{◌≡◌, IfSome};
ghost use Rattle.vub_queue.specs.QueueState.{QueueLies, state_of};

use crate::{Choice, Queue, Stepped};
use std::alloc::Global;
use std::test::Fail;
use vub_base::{Bell, MemBell, Space, Tag};
use vub_disk::NoDisk;
use vub_infl_split::SplitRegion;
use vub_setup::{QueueSetup, Rings};
use vub_shared::{MemShared, Shared};
use vub_split::SplitRing;

const REGION_BYTES: u64 = 80;

const RING_BYTES: u64 = 256;

const AVAIL: u64 = 64;

const USED: u64 = 128;

// A flush whose chain begins with descriptor 2: its header at 192, and its status at 208.
const CHAIN: [u8; 32] = [
    // of each descriptor: place, length, flags (1 goes on, 2 is written by the device), next
    192, 0, 0, 0, 0, 0, 0, 0, 16, 0, 0, 0, 1, 0, 3, 0, //
    208, 0, 0, 0, 0, 0, 0, 0, 1, 0, 0, 0, 2, 0, 0, 0, //
];

// A queue of 4 descriptors whose rings begin at index 7, in which that request waits.
fn waiting_queue<M: Shared>(
    alloc: Global,
    memory: &mut M,
    region: Space,
    ring: Space,
) -> Option<Queue>
    ensures lies { IfSome result (λ q. QueueLies (M.sizes memory.new) 0 (state_of q)) }
{
    if memory.size(region) != REGION_BYTES || memory.size(ring) != RING_BYTES {
        return None;
    }
    memory.store_run(ring, 32, &CHAIN).ok()?;
    memory.store1(ring, 192, 4).ok()?;
    memory.store2(ring, AVAIL + 2, 8).ok()?;
    memory.store2(ring, AVAIL + 10, 2).ok()?;
    memory.store2(ring, USED + 2, 7).ok()?;
    let setup = QueueSetup {
        index: 0,
        rings: Rings::Split(
            SplitRing {
                desc: (ring, 0),
                avail: (ring, AVAIL),
                used: (ring, USED),
                size: 4,
            },
            SplitRegion {
                space: region,
                place: 0,
                size: 4,
            },
        ),
        base: 7,
        indirect: false,
        bell: true,
    };
    let Ok(queue) = Queue::new(alloc, &setup) else {
        return None;
    };
    Some(queue)
}

// The turn of it that comes first.
fn turn<M: Shared>(queue: &mut Queue, memory: &mut M, bell: &mut MemBell) -> Stepped
    requires lies { QueueLies (M.sizes memory.old) 0 (state_of queue.old) }
    ensures lies { QueueLies (M.sizes memory.new) 0 (state_of queue.new) }
{
    queue.turn(Choice::Any, memory, &mut NoDisk, bell)
}

#[test]
fn a_request_is_fetched_in_two_steps_and_published_in_eight(rt: HostRuntime) -> Result<(), Fail> {
    let alloc = rt.alloc();
    let mut memory = MemShared::new(alloc, Vec::new(alloc));
    let region = memory.create("i", REGION_BYTES).map_err(|_| "region")?;
    let ring = memory.create("m", RING_BYTES).map_err(|_| "ring")?;
    let mut bell = MemBell::new(alloc, 8, Vec::new(alloc)).map_err(|_| "bell")?;
    bell.attach(0, "b").map_err(|_| "attached")?;
    let mut queue = waiting_queue(alloc, &mut memory, region, ring).ok_or("queue")?;
    let stored = Stepped::Stored;
    // its start over a new region makes six stores, rings the bell, and starts the queue
    turn(&mut queue, &mut memory, &mut bell);
    turn(&mut queue, &mut memory, &mut bell);
    turn(&mut queue, &mut memory, &mut bell);
    turn(&mut queue, &mut memory, &mut bell);
    turn(&mut queue, &mut memory, &mut bell);
    turn(&mut queue, &mut memory, &mut bell);
    assert_eq!(rt; turn(&mut queue, &mut memory, &mut bell), Stepped::Belled);
    assert_eq!(rt; turn(&mut queue, &mut memory, &mut bell), Stepped::Started);
    assert_eq!(rt; turn(&mut queue, &mut memory, &mut bell), stored(Tag::SF1));
    assert_eq!(rt;
        turn(&mut queue, &mut memory, &mut bell),
        Stepped::Accepted(2)
    );
    // version 1, 4 descriptors, no batch, used_idx 7; entry 2 is in flight
    let mut bytes = [0u8; 80];
    bytes[8..16].copy_from_slice(&[1, 0, 4, 0, 0, 0, 7, 0]);
    bytes[48] = 1;
    assert_eq!(rt; memory.image(region), bytes.as_slice());
    assert_eq!(rt;
        turn(&mut queue, &mut memory, &mut bell),
        Stepped::Synced(2)
    );
    assert_eq!(rt;
        turn(&mut queue, &mut memory, &mut bell),
        Stepped::Completed(2)
    );
    assert_eq!(rt; turn(&mut queue, &mut memory, &mut bell), stored(Tag::SP1));
    assert_eq!(rt; turn(&mut queue, &mut memory, &mut bell), stored(Tag::SP2));
    assert_eq!(rt; turn(&mut queue, &mut memory, &mut bell), stored(Tag::SP3));
    assert_eq!(rt; turn(&mut queue, &mut memory, &mut bell), stored(Tag::SP4));
    assert_eq!(rt;
        turn(&mut queue, &mut memory, &mut bell),
        Stepped::Published
    );
    assert_eq!(rt; turn(&mut queue, &mut memory, &mut bell), stored(Tag::SP6));
    assert_eq!(rt; turn(&mut queue, &mut memory, &mut bell), stored(Tag::SP7));
    assert_eq!(rt; turn(&mut queue, &mut memory, &mut bell), Stepped::Belled);
    assert_eq!(rt; turn(&mut queue, &mut memory, &mut bell), Stepped::Idle);
    // entry 2 was linked last and isn't in flight; used_idx is 8
    bytes[12..16].copy_from_slice(&[2, 0, 8, 0]);
    bytes[48] = 0;
    assert_eq!(rt; memory.image(region), bytes.as_slice());
    assert_eq!(rt; bell.rung(), [0, 0].as_slice());
    Ok(())
}
