ghost use Rattle.std.specs.Prelude.{◌≡◌, IfSome};
ghost use Rattle.vub_backend.specs.Backends.{queues_of, EachLies};

use crate::Backend;
use std::alloc::Global;
use std::test::Fail;
use vub_base::{Bell, MemBell, Space, Tag};
use vub_disk::NoDisk;
use vub_infl_split::SplitRegion;
use vub_queue::{Choice, Stepped};
use vub_setup::{QueueSetup, Rings};
use vub_shared::{MemShared, Shared};
use vub_split::SplitRing;

const REGION_BYTES: u64 = 80;

const RING_BYTES: u64 = 256;

// A life with two queues, of which queue 1 is attached: it has 4 descriptors.
fn life<M: Shared>(alloc: Global, memory: &M, region: Space, ring: Space) -> Option<Backend>
    ensures lies { IfSome result (λ b. EachLies (M.sizes memory.now) 0 (queues_of b)) }
{
    if memory.size(region) != REGION_BYTES || memory.size(ring) != RING_BYTES {
        return None;
    }
    let setup = QueueSetup {
        index: 1,
        rings: Rings::Split(
            SplitRing {
                desc: (ring, 0),
                avail: (ring, 64),
                used: (ring, 128),
                size: 4,
            },
            SplitRegion {
                space: region,
                place: 0,
                size: 4,
            },
        ),
        base: 0,
        indirect: false,
        bell: true,
    };
    let Ok(mut backend) = Backend::new(alloc, 2) else {
        return None;
    };
    let Ok(()) = backend.attach(&setup) else {
        return None;
    };
    Some(backend)
}

#[test]
fn a_step_is_one_of_its_queue(rt: HostRuntime) -> Result<(), Fail> {
    let alloc = rt.alloc();
    let mut memory = MemShared::new(alloc, Vec::new(alloc));
    let region = memory.create("i", REGION_BYTES).map_err(|_| "region")?;
    let ring = memory.create("m", RING_BYTES).map_err(|_| "ring")?;
    let mut bell = MemBell::new(alloc, 8, Vec::new(alloc)).map_err(|_| "bell")?;
    bell.attach(1, "b").map_err(|_| "attached")?;
    let mut backend = life(alloc, &memory, region, ring).ok_or("life")?;
    assert!(rt; !backend.attached(0) && backend.attached(1) && !backend.attached(2));
    assert!(rt; backend.queue(0).is_none() && backend.queue(1).is_some());
    let none = backend.step(0, Choice::Any, &mut memory, &mut NoDisk, &mut bell);
    assert_eq!(rt; none, Stepped::Idle);
    let first = backend.step(1, Choice::Any, &mut memory, &mut NoDisk, &mut bell);
    assert_eq!(rt; first, Stepped::Stored(Tag::SI1));
    assert_eq!(rt; backend.drain(0, &mut memory, &mut NoDisk, &mut bell), 0);
    // The start goes on: an SI2 for each of the 4 descriptors, SI3, its bell and its end. No request waits.
    assert_eq!(rt; backend.drain(1, &mut memory, &mut NoDisk, &mut bell), 7);
    backend.kill();
    Ok(())
}
