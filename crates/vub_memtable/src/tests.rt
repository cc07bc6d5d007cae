use crate::{Mapped, MemTable, Region, TableFault};
use std::test::Fail;
use vub_base::Space;

// Where the front end's addresses begin.
const USER: u64 = 0x7f00_0000_0000;

const LAST: u64 = u64::MAX;

fn mapped(guest: u64, size: u64, user: u64, offset: u64) -> Mapped {
    Mapped {
        region: Region {
            guest,
            size,
            user,
            offset,
        },
        space: Space { number: 0 },
        space_size: 0x4000,
    }
}

// Two regions that touch, one of size 0 within the first, and one that ends at 2^64.
fn regions() -> [Mapped; 4] {
    let mut high = mapped(0xffff_ffff_ffff_f000, 0x1000, 0xffff_ffff_ffff_f000, 8);
    high.space = Space { number: 1 };
    high.space_size = 0x1008;
    [
        mapped(0x1000, 0x2000, USER, 0),
        mapped(0x3000, 0x1000, USER + 0x2000, 0x3000),
        mapped(0x1800, 0, USER + 0x800, 0x4000),
        high,
    ]
}

const GUEST_RANGES: [(u64, u64, Option<(u16, u64)>); 18] = [
    (0x0fff, 1, None),
    (0x0fff, 2, None),
    (0x1000, 1, Some((0, 0))),
    (0x1000, 0x2000, Some((0, 0))),
    (0x1000, 0x2001, None),
    (0x1800, 1, Some((0, 0x800))),
    (0x2fff, 1, Some((0, 0x1fff))),
    (0x2fff, 2, None),
    (0x3000, 1, Some((0, 0x3000))),
    (0x3fff, 1, Some((0, 0x3fff))),
    (0x3fff, 2, None),
    (0x4000, 1, None),
    (0x3000, LAST, None),
    (0xffff_ffff_ffff_efff, 1, None),
    (0xffff_ffff_ffff_f000, 0x1000, Some((1, 8))),
    (LAST, 1, Some((1, 0x1007))),
    (LAST, 2, None),
    (LAST, LAST, None),
];

const USER_RANGES: [(u64, u64, Option<(u16, u64)>); 9] = [
    (USER - 1, 1, None),
    (USER, 0x2000, Some((0, 0))),
    (USER + 0x1fff, 1, Some((0, 0x1fff))),
    (USER + 0x1fff, 2, None),
    (USER + 0x2000, 0x1000, Some((0, 0x3000))),
    (USER + 0x3000, 1, None),
    (0x1000, 1, None),
    (LAST, 1, Some((1, 0x1007))),
    (LAST, 2, None),
];

fn answer(address: u64, place: Option<(u16, u64)>) -> Result<(Space, u64), TableFault> {
    match place {
        Some((number, place)) => Ok((Space { number }, place)),
        None => Err(TableFault::Unmapped(address)),
    }
}

#[test]
fn ranges_are_translated(rt: HostRuntime) -> Result<(), Fail> {
    let mut table = MemTable::new();
    assert_eq!(rt; table.guest_to_space(0, 1), Err(TableFault::Unmapped(0)));
    assert_eq!(rt; table.set(&regions()), Ok(()));
    for (address, len, place) in GUEST_RANGES {
        if len >= 1 {
            assert_eq!(rt; table.guest_to_space(address, len), answer(address, place));
        }
    }
    for (address, len, place) in USER_RANGES {
        if len >= 1 {
            assert_eq!(rt; table.user_to_space(address, len), answer(address, place));
        }
    }
    Ok(())
}

// Each is refused, and leaves the table as it was.
#[test]
fn tables_are_refused(rt: HostRuntime) -> Result<(), Fail> {
    let past = mapped(0, 0x4001, 0, 0);
    let cases: [(&[Mapped], TableFault); 9] = [
        // the count comes before overlaps, and these before an end
        (&[past; 9], TableFault::TooMany),
        (&[past; 8], TableFault::Overlap(0, 1)),
        // the least first region, then the least second
        (
            &[
                mapped(0, 0x10, 0, 0),
                mapped(0x20, 0x10, 0x20, 0),
                mapped(0x2f, 0x10, 0x40, 0),
                mapped(0x0f, 1, 0x60, 0),
                mapped(0, 1, 0x80, 0),
            ],
            TableFault::Overlap(0, 3),
        ),
        // an address of the front end alone
        (
            &[mapped(0, 0x10, 0, 0), mapped(0x10, 0x10, 0x0f, 0)],
            TableFault::Overlap(0, 1),
        ),
        // the last address of all
        (
            &[mapped(LAST, 1, 0, 0), mapped(LAST - 1, 2, 0x10, 0)],
            TableFault::Overlap(0, 1),
        ),
        // one past the space, the first of two
        (
            &[mapped(0, 1, 0, 0x3fff), mapped(1, 1, 1, 0x4000), past_at(2)],
            TableFault::PastEnd(1),
        ),
        // sums don't wrap at 2^64
        (
            &[mapped(0, 1, 0, 0), mapped(LAST, 2, 0x10, 0)],
            TableFault::PastEnd(1),
        ),
        (
            &[mapped(0, 1, 0, 0), mapped(0x10, 2, LAST, 0)],
            TableFault::PastEnd(1),
        ),
        (&[mapped(0, 2, 0, LAST)], TableFault::PastEnd(0)),
    ];
    let mut table = MemTable::new();
    assert_eq!(rt; table.set(&regions()), Ok(()));
    for (regions, fault) in cases {
        assert_eq!(rt; table.set(regions), Err(fault));
        assert_eq!(rt;
            table.guest_to_space(0x3000, 0x1000),
            Ok((Space { number: 0 }, 0x3000))
        );
    }
    Ok(())
}

fn past_at(at: u64) -> Mapped {
    mapped(at, 1, at, 0x4000)
}

// Eight regions are a table, and none are; what is set takes the place of what was.
#[test]
fn tables_are_set(rt: HostRuntime) -> Result<(), Fail> {
    let mut table = MemTable::new();
    let eight: [Mapped; 8] = [
        mapped(0, 1, 0, 0),
        mapped(1, 1, 1, 1),
        mapped(2, 1, 2, 2),
        mapped(3, 1, 3, 3),
        mapped(4, 1, 4, 4),
        mapped(5, 1, 5, 5),
        mapped(6, 1, 6, 6),
        mapped(7, 1, 7, 7),
    ];
    assert_eq!(rt; table.set(&eight), Ok(()));
    assert_eq!(rt; table.guest_to_space(7, 1), Ok((Space { number: 0 }, 7)));
    assert_eq!(rt; table.set(&[]), Ok(()));
    assert_eq!(rt; table.guest_to_space(7, 1), Err(TableFault::Unmapped(7)));
    Ok(())
}
