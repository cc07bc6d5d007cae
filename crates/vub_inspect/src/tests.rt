use crate::inspect_split;
use std::test::Fail;
use vub_base::{Reading, RegionFault};

const BYTES: usize = 80;

// The region of a queue of 4 descriptors: the number of descriptors, last_batch_head, used_idx, and of
// each entry whether it is in flight and its counter.
fn region(words: [u8; 3], entries: [(u8, u8); 4]) -> [u8; BYTES] {
    let [desc_num, last_batch_head, used_idx] = words;
    let [(a, ca), (b, cb), (c, cc), (d, cd)] = entries;
    let mut bytes = [0u8; BYTES];
    bytes[8] = 1;
    bytes[10] = desc_num;
    bytes[12] = last_batch_head;
    bytes[14] = used_idx;
    bytes[16] = a;
    bytes[24] = ca;
    bytes[32] = b;
    bytes[40] = cb;
    bytes[48] = c;
    bytes[56] = cc;
    bytes[64] = d;
    bytes[72] = cd;
    bytes
}

#[test]
fn regions_by_hand(rt: HostRuntime) -> Result<(), Fail> {
    let none = [(0, 0); 4];
    let equal = [(1, 5), (0, 0), (1, 5), (0, 0)];
    let batch = region([4, 2, 0], [(1, 0), (0, 0), (1, 1), (0, 0)]);
    // The bytes, used.idx, the reading, and head and counter of what is open.
    let rows: [([u8; BYTES], u16, Reading, [Option<(u16, u64)>; 2]); 5] = [
        (
            region([8, 0, 0], none),
            0,
            Reading::Damaged(RegionFault::BadCount(8)),
            [None, None],
        ),
        (
            region([4, 0, 0], equal),
            0,
            Reading::Damaged(RegionFault::SameCounter(0, 2)),
            [None, None],
        ),
        (batch, 2, Reading::Entries, [None, None]),
        (batch, 0, Reading::Entries, [Some((0, 0)), Some((2, 1))]),
        ([0; BYTES], 0, Reading::Uninitialised, [None, None]),
    ];
    for (bytes, ring_used, reading, open) in rows {
        let inspected = inspect_split(rt.alloc(), 4, ring_used, bytes.as_slice()).map_err(
            |_| "memory",
        )?;
        assert_eq!(rt; inspected.reading, reading);
        let mut items = inspected.entries.items().iter();
        for wanted in open {
            let item = items.next().map(|item| (item.head, item.counter));
            assert_eq!(rt; item, wanted);
        }
        assert!(rt; items.next().is_none());
    }
    Ok(())
}
