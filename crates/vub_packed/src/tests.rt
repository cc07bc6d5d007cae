use crate::{PackedDesc, PackedRing, Position, is_available, is_used};
use std::test::Fail;
use vub_shared::{MemShared, Shared};

const SLOT: u64 = 16;

#[test]
fn positions_move_on(rt: HostRuntime) {
    // size, index and wrap counter, slots to move on, index and wrap counter there
    let rows = [
        (1, 0, true, 0, 0, true),
        (1, 0, true, 1, 0, false),
        (2, 1, true, 1, 0, false),
        (2, 1, false, 2, 1, true),
        (3, 1, true, 1, 2, true),
        (3, 2, true, 2, 1, false),
        (1024, 1023, false, 1, 0, true),
        (1024, 1, true, 1024, 1, false),
    ];
    for (size, index, wrap, by, to, wrap_there) in rows {
        let there = Position {
            index: to,
            wrap: wrap_there,
        };
        if by <= size {
            assert_eq!(rt;
                Position { index, wrap }.advance(by, size),
                there,
                "by {by} of {size}"
            );
        }
    }
}

#[test]
fn two_bits_say_whose_a_slot_is(rt: HostRuntime) {
    for (flags, available, used) in [
        (0, None, Some(false)),
        (0x80, Some(true), None),
        (0x8000, Some(false), None),
        (0x8080, None, Some(true)),
        (0x7f7f, None, Some(false)),
        (0x7fff, Some(true), None),
    ] {
        for wrap in [false, true] {
            assert_eq!(rt;
                is_available(flags, wrap),
                available == Some(wrap),
                "{flags}"
            );
            assert_eq!(rt; is_used(flags, wrap), used == Some(wrap), "{flags}");
        }
    }
}

// Stores length, id and flags of the last slot of a ring that begins with the second slot of its
// space, makes it available again, and loads it.
fn restored_last(memory: &mut MemShared, ring: &PackedRing, wrap: bool) -> Option<PackedDesc> {
    let size = u64::from(ring.size);
    if size < 1
        || size > 1024
        || ring.ring.1 != SLOT
        || memory.size(ring.ring.0) != SLOT + SLOT * size
    {
        return None;
    }
    let last = ring.size - 1;
    ring.write_slot_len(memory, last, 0x0403_0201).ok()?;
    ring.write_slot_id(memory, last, 0x0605).ok()?;
    ring.write_slot_flags(memory, last, 0x8082).ok()?;
    ring.restore_slot(memory, last, wrap).ok()?;
    ring.slot_at(memory, last).ok()
}

#[test]
fn slots_of_any_number(rt: HostRuntime) -> Result<(), Fail> {
    let alloc = rt.alloc();
    for (size, wrap, flags) in [
        (1, true, 0x0082),
        (2, false, 0x8002),
        (3, true, 0x0082),
        (1024, false, 0x8002),
    ] {
        let mut memory = MemShared::new(alloc, Vec::new(alloc));
        let space = memory
            .create("m", SLOT + SLOT * u64::from(size))
            .map_err(|_| "created")?;
        let ring = PackedRing {
            ring: (space, SLOT),
            size,
        };
        let slot = PackedDesc {
            addr: 0,
            len: 0x0403_0201,
            id: 0x0605,
            flags,
        };
        assert_eq!(rt;
            restored_last(&mut memory, &ring, wrap),
            Some(slot),
            "{size}"
        );
        let image = memory.image(space);
        let before = image.iter().take_while(|byte| **byte == 0).count();
        assert_eq!(rt; before + 8, image.len(), "{size}");
    }
    Ok(())
}
