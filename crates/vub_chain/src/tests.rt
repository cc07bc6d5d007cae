ghost use Rattle.std.specs.Prelude.{◌≡◌, length};

use crate::{Desc, Span, Spans, walk_list, walk_split};
use std::alloc::Global;
use std::test::Fail;
use vub_base::{ChainFault, put_u16, put_u32, put_u64};
use vub_memtable::{Mapped, MemTable, Region};
use vub_shared::{MemShared, Shared};

const N: u16 = 1;

const W: u16 = 2;

const I: u16 = 4;

// Flags that mean nothing to a walk.
const OTHER: u16 = 0x8080;

const SIZE: u16 = 4;

// Guest memory has 2,048 bytes from this address on; the ring's table stands at its start, and the
// one that descriptors name at 1,024.
const MEMORY: usize = 0x800;

const B: u64 = 0x10000;

const TABLE: u64 = B + 0x400;

// The places of the readable spans and of the writable ones with their lengths, or the fault.
type Wanted = Result<(&'static [(u64, u32)], &'static [(u64, u32)]), ChainFault>;

// Descriptors by address, length, flags and next: a ring's or a list's, and a table's.
#[derive(Clone, Copy)]
struct Case {
    first: &'static [(u64, u32, u16, u16)],
    table: &'static [(u64, u32, u16, u16)],
    indirect: bool,
    wanted: Wanted,
}

const fn plain_case(first: &'static [(u64, u32, u16, u16)], wanted: Wanted) -> Case {
    Case {
        first,
        table: &[],
        indirect: true,
        wanted,
    }
}

const fn table_case(
    first: &'static [(u64, u32, u16, u16)],
    table: &'static [(u64, u32, u16, u16)],
    wanted: Wanted,
) -> Case {
    Case {
        first,
        table,
        indirect: true,
        wanted,
    }
}

fn split_cases() -> [Case; 27] {
    [
        // header, data, status; then exactly as many positions as the ring has
        plain_case(
            &[
                (B + 0x500, 16, N, 1),
                (B + 0x600, 64, N | W, 3),
                (0, 0, 0, 0),
                (B + 0x510, 1, W | OTHER, 9),
            ],
            Ok((&[(0x500, 16)], &[(0x600, 64), (0x510, 1)])),
        ),
        plain_case(
            &[
                (B, 1, N, 2),
                (B + 1, 2, W, 0),
                (B + 2, 3, N, 3),
                (B + 3, 4, N, 1),
            ],
            Ok((&[(0, 1), (2, 3), (3, 4)], &[(1, 2)])),
        ),
        // one that follows itself
        plain_case(&[(B, 1, N, 0)], Err(ChainFault::Loop)),
        // a next past the table
        plain_case(&[(B, 1, N, 4)], Err(ChainFault::BadIndex(4))),
        plain_case(&[(B, 1, N, 65535)], Err(ChainFault::BadIndex(65535))),
        // a length of 0 in each place, mapped or not
        plain_case(
            &[(0, 0, N, 1), (B + 1, 2, N, 2), (B + 2, 1, W, 0)],
            Ok((&[(1, 2)], &[(2, 1)])),
        ),
        plain_case(
            &[(B, 1, N, 1), (0, 0, N, 2), (B + 2, 1, W, 0)],
            Ok((&[(0, 1)], &[(2, 1)])),
        ),
        plain_case(
            &[(B, 1, N, 1), (B + 1, 2, N, 2), (0, 0, W, 0)],
            Ok((&[(0, 1), (1, 2)], &[])),
        ),
        // a readable one after a writable one, also where that has length 0
        plain_case(
            &[(B, 1, N | W, 1), (B, 1, 0, 0)],
            Err(ChainFault::BadOrder(1)),
        ),
        plain_case(
            &[(B, 0, N | W, 1), (B, 0, 0, 0)],
            Err(ChainFault::BadOrder(1)),
        ),
        // the order comes before the range, and the range before the next
        plain_case(
            &[(B, 1, N | W, 1), (0, 1, N, 9)],
            Err(ChainFault::BadOrder(1)),
        ),
        plain_case(
            &[(B + 0x7ff, 2, N, 9)],
            Err(ChainFault::Unmapped(B + 0x7ff)),
        ),
        plain_case(&[(B + 0x7ff, 1, 0, 9)], Ok((&[(0x7ff, 1)], &[]))),
        plain_case(&[(0, 1, 0, 0)], Err(ChainFault::Unmapped(0))),
        // a table; its WRITE flag is ignored
        table_case(
            &[(TABLE, 48, I, 0)],
            &[
                (B + 0x500, 16, N, 2),
                (B + 0x510, 1, W, 0),
                (B + 0x600, 64, N, 1),
            ],
            Ok((&[(0x500, 16), (0x600, 64)], &[(0x510, 1)])),
        ),
        table_case(
            &[(TABLE, 16, I | W | OTHER, 0)],
            &[(B + 0x500, 16, 0, 0)],
            Ok((&[(0x500, 16)], &[])),
        ),
        // a table after a descriptor, which counts as no position
        table_case(
            &[(B, 1, N, 1), (B + 1, 1, N, 2), (TABLE, 32, I, 0)],
            &[(B + 2, 1, N | W, 1), (B + 3, 1, W, 0)],
            Ok((&[(0, 1), (1, 1)], &[(2, 1), (3, 1)])),
        ),
        table_case(
            &[(B, 1, N | W, 1), (TABLE, 16, I, 0)],
            &[(B + 2, 1, 0, 0)],
            Err(ChainFault::BadOrder(1)),
        ),
        // more entries than the ring has places
        table_case(
            &[(TABLE, 80, I, 0)],
            &[
                (B, 1, N, 1),
                (B, 1, N, 2),
                (B, 1, N, 3),
                (B, 1, N, 4),
                (B, 1, 0, 0),
            ],
            Err(ChainFault::Loop),
        ),
        // a next past the named table
        table_case(
            &[(TABLE, 16, I, 0)],
            &[(B, 1, N, 1)],
            Err(ChainFault::BadIndex(1)),
        ),
        // a table within a table
        table_case(
            &[(TABLE, 32, I, 0)],
            &[(B, 1, N, 1), (TABLE, 16, I, 0)],
            Err(ChainFault::BadIndirect(1)),
        ),
        // one that goes on, of no length, of another length, and without the feature
        table_case(
            &[(B, 1, N, 1), (TABLE, 16, I | N, 2)],
            &[(B, 1, 0, 0)],
            Err(ChainFault::BadIndirect(1)),
        ),
        plain_case(&[(TABLE, 0, I, 0)], Err(ChainFault::BadIndirect(0))),
        plain_case(&[(TABLE, 17, I, 0)], Err(ChainFault::BadIndirect(0))),
        Case {
            first: &[(0, 16, I, 0)],
            table: &[],
            indirect: false,
            wanted: Err(ChainFault::BadIndirect(0)),
        },
        // a table that isn't mapped as a whole
        plain_case(
            &[(B + 0x7f0, 32, I, 0)],
            Err(ChainFault::Unmapped(B + 0x7f0)),
        ),
        // the position comes before the table in it
        table_case(
            &[(B, 1, N, 1), (B, 1, N, 2), (B, 1, N, 3), (TABLE, 32, I, 0)],
            &[(B, 1, N, 1), (TABLE, 16, I, 0)],
            Err(ChainFault::Loop),
        ),
    ]
}

fn list_cases() -> [Case; 18] {
    [
        plain_case(&[], Ok((&[], &[]))),
        // other flags than WRITE and INDIRECT are ignored, and so is what the last one names next
        plain_case(
            &[
                (B + 0x500, 16, N | OTHER, 7),
                (B + 0x600, 64, N | W, 7),
                (B + 0x510, 1, W, 7),
            ],
            Ok((&[(0x500, 16)], &[(0x600, 64), (0x510, 1)])),
        ),
        plain_case(
            &[
                (B, 1, 0, 0),
                (B + 1, 1, 0, 0),
                (B + 2, 1, 0, 0),
                (B + 3, 1, W, 0),
            ],
            Ok((&[(0, 1), (1, 1), (2, 1)], &[(3, 1)])),
        ),
        plain_case(
            &[
                (B, 1, 0, 0),
                (B, 1, 0, 0),
                (B, 1, 0, 0),
                (B, 1, 0, 0),
                (0, 9, I, 0),
            ],
            Err(ChainFault::Loop),
        ),
        plain_case(
            &[
                (0, 0, 0, 0),
                (B + 1, 2, 0, 0),
                (0, 0, 0, 0),
                (B + 2, 1, W, 0),
            ],
            Ok((&[(1, 2)], &[(2, 1)])),
        ),
        plain_case(&[(B, 0, W, 0), (0, 1, 0, 0)], Err(ChainFault::BadOrder(1))),
        plain_case(
            &[(B, 1, 0, 0), (B + 0x7ff, 2, W, 0)],
            Err(ChainFault::Unmapped(B + 0x7ff)),
        ),
        // entries of a table in their order, whatever their other flags
        table_case(
            &[(TABLE, 48, I | W, 0)],
            &[
                (B + 0x500, 16, 0, 9),
                (B + 0x600, 64, N | OTHER, 9),
                (B + 0x510, 1, W, 9),
            ],
            Ok((&[(0x500, 16), (0x600, 64)], &[(0x510, 1)])),
        ),
        table_case(
            &[(TABLE, 80, I, 0)],
            &[
                (B, 1, 0, 0),
                (B, 1, 0, 0),
                (B, 1, 0, 0),
                (B, 1, 0, 0),
                (B, 1, 0, 0),
            ],
            Err(ChainFault::Loop),
        ),
        table_case(
            &[(TABLE, 64, I, 0)],
            &[(B, 1, 0, 0), (B, 1, 0, 0), (B, 1, 0, 0), (B + 1, 1, 0, 0)],
            Ok((&[(0, 1), (0, 1), (0, 1), (1, 1)], &[])),
        ),
        table_case(
            &[(TABLE, 32, I, 0)],
            &[(B, 1, 0, 0), (TABLE, 16, I, 0)],
            Err(ChainFault::BadIndirect(1)),
        ),
        table_case(
            &[(TABLE, 32, I, 0)],
            &[(B, 1, W, 0), (B, 1, 0, 0)],
            Err(ChainFault::BadOrder(1)),
        ),
        table_case(
            &[(TABLE, 16, I, 0)],
            &[(0, 1, 0, 0)],
            Err(ChainFault::Unmapped(0)),
        ),
        // a table beside others, one that goes on, of another length, without the feature, not mapped
        plain_case(
            &[(TABLE, 16, I, 0), (B, 1, 0, 0)],
            Err(ChainFault::BadIndirect(0)),
        ),
        plain_case(&[(TABLE, 16, I | N, 0)], Err(ChainFault::BadIndirect(0))),
        plain_case(&[(TABLE, 24, I, 0)], Err(ChainFault::BadIndirect(0))),
        Case {
            first: &[(TABLE, 16, I, 0)],
            table: &[],
            indirect: false,
            wanted: Err(ChainFault::BadIndirect(0)),
        },
        plain_case(
            &[(B + 0x7f8, 16, I, 0)],
            Err(ChainFault::Unmapped(B + 0x7f8)),
        ),
    ]
}

// Writes descriptors of a split ring, or of a packed one, whose flags stand last.
fn put_all(bytes: &mut [u8], place: usize, packed: bool, descs: &[(u64, u32, u16, u16)])
    ensures { length bytes.new ≡ length bytes.old }
{
    let mut at = place;
    for &(addr, len, flags, next) in descs {
        if at < MEMORY && at + 16 <= bytes.len() {
            put_u64(bytes, at, addr);
            put_u32(bytes, at + 8, len);
            put_u16(bytes, at + 12, if packed { next } else { flags });
            put_u16(bytes, at + 14, if packed { flags } else { next });
            at += 16;
        }
    }
}

fn lists(spans: &[Span], wanted: &[(u64, u32)]) -> bool {
    spans.len() == wanted.len()
        && spans.iter().zip(wanted).all(|(span, place)| span.space.number == 0
            && span.place == place.0
            && span.len == place.1)
}

// Whether the walk answers as the case wants it.
fn walks(alloc: Global, case: &Case, packed: bool) -> Result<bool, Fail> {
    let mut bytes = [0u8; MEMORY];
    if !packed {
        put_all(&mut bytes, 0, false, case.first);
    }
    put_all(&mut bytes, 0x400, packed, case.table);
    let mut memory = MemShared::new(alloc, Vec::new(alloc));
    let space = memory.create("m", 0x800).map_err(|_| "created")?;
    memory.store_run(space, 0, &bytes).map_err(|_| "stored")?;
    let mut table = MemTable::new();
    let region = Region {
        guest: B,
        size: 0x800,
        user: 0,
        offset: 0,
    };
    table
        .set(&[Mapped {
            region,
            space,
            space_size: 0x800,
        }])
        .map_err(|_| "mapped")?;
    let mut spans = Spans::new(alloc, usize::from(SIZE)).map_err(|_| "room")?;
    let result = if packed {
        let mut list = Vec::new(alloc);
        for &(addr, len, flags, next) in case.first {
            list.push(Desc {
                addr,
                len,
                flags,
                next,
            })
            .map_err(|_| "room")?;
        }
        walk_list(&mut memory, &table, &list, SIZE, case.indirect, &mut spans)
    } else {
        walk_split(
            &mut memory,
            &table,
            (space, 0),
            SIZE,
            0,
            case.indirect,
            &mut spans,
        )
    };
    Ok(match (result, case.wanted) {
        (Ok(()), Ok((readable, writable))) => lists(spans.readable(), readable)
            && lists(spans.writable(), writable),
        (Err(fault), Err(wanted)) => fault == wanted,
        _ => false,
    })
}

#[test]
fn chains_of_a_ring_are_walked(rt: HostRuntime) -> Result<(), Fail> {
    let alloc = rt.alloc();
    for (number, case) in split_cases().iter().enumerate() {
        assert_eq!(rt; (number, walks(alloc, case, false)?), (number, true));
    }
    Ok(())
}

#[test]
fn lists_are_walked(rt: HostRuntime) -> Result<(), Fail> {
    let alloc = rt.alloc();
    for (number, case) in list_cases().iter().enumerate() {
        assert_eq!(rt; (number, walks(alloc, case, true)?), (number, true));
    }
    Ok(())
}

#[test]
fn a_fault_of_memory_is_answered(rt: HostRuntime) -> Result<(), Fail> {
    let alloc = rt.alloc();
    let mut fails = Vec::new(alloc);
    fails.push(0).map_err(|_| "room")?;
    let mut memory = MemShared::new(alloc, fails);
    let space = memory.create("m", 0x800).map_err(|_| "created")?;
    let table = MemTable::new();
    let mut spans = Spans::new(alloc, usize::from(SIZE)).map_err(|_| "room")?;
    let result = walk_split(&mut memory, &table, (space, 0), SIZE, 0, true, &mut spans);
    assert_eq!(rt; result, Err(ChainFault::Failed));
    Ok(())
}
