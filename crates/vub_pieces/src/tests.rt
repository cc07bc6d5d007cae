ghost use Rattle.std.specs.Prelude.{◌≡◌, ◌<◌, ◌≤◌, ℕ, All};
ghost use Rattle.vub_chain.specs.Spans.{LiesIn};
ghost use Rattle.vub_pieces.specs.Pieces.{bytes_in};

use crate::{gather, piece_at, total_len};
use std::test::Fail;
use vub_base::{Failed, Space};
use vub_chain::Span;
use vub_shared::{MemShared, Shared};

const SIZE: u64 = 64;

// The bytes from 10 to 12, and those from 20 to 24.
fn spans_in(space: Space) -> [Span; 2]
    ensures bytes { bytes_in result ≡ 8 }
    ensures lies { (sizes : ℕ → ℕ) → 25 ≤ sizes space.number → All (LiesIn sizes) result }
{
    [
        Span {
            space,
            place: 10,
            len: 3,
        },
        Span {
            space,
            place: 20,
            len: 5,
        },
    ]
}

// Six of them from number 1 on, in a memory that has 10 to 14 from 10 on and 20 to 24 from 20 on; None where
// its space has another size.
fn gathered<M: Shared>(memory: &mut M, space: Space) -> Option<Result<[u8; 6], Failed>> {
    if memory.size(space) != SIZE {
        return None;
    }
    memory.store_run(space, 10, &[10, 11, 12, 13, 14]).ok()?;
    memory.store_run(space, 20, &[20, 21, 22, 23, 24]).ok()?;
    let mut bytes = [0; 6];
    Some(gather(memory, &spans_in(space), 1, &mut bytes).map(|()| bytes))
}

#[test]
fn joined_bytes_are_loaded(rt: HostRuntime) -> Result<(), Fail> {
    let alloc = rt.alloc();
    let mut memory = MemShared::new(alloc, Vec::new(alloc));
    let space = memory.create("m", SIZE).map_err(|_| "created")?;
    let wanted = Some(Ok([11, 12, 20, 21, 22, 23]));
    assert_eq!(rt; gathered(&mut memory, space), wanted);
    assert_eq!(rt; total_len(&spans_in(space)), 8);
    Ok(())
}

#[test]
fn a_failed_load_is_answered(rt: HostRuntime) -> Result<(), Fail> {
    let alloc = rt.alloc();
    let mut fails = Vec::new(alloc);
    fails.push(3).map_err(|_| "room")?;
    let mut memory = MemShared::new(alloc, fails);
    let space = memory.create("m", SIZE).map_err(|_| "created")?;
    assert_eq!(rt; gathered(&mut memory, space), Some(Err(Failed)));
    Ok(())
}

// Place and length of the piece from number `skip` on; None where the space has another size.
fn piece_from<M: Shared>(memory: &M, space: Space, skip: u64, most: u64) -> Option<(u64, u64)>
    requires { skip < 8 }
{
    if memory.size(space) != SIZE {
        return None;
    }
    let piece = piece_at(memory, &spans_in(space), skip, most);
    Some((piece.place, piece.len))
}

#[test]
fn a_piece_lies_together(rt: HostRuntime) -> Result<(), Fail> {
    let alloc = rt.alloc();
    let mut memory = MemShared::new(alloc, Vec::new(alloc));
    let space = memory.create("m", SIZE).map_err(|_| "created")?;
    assert_eq!(rt; piece_from(&memory, space, 1, 9), Some((11, 2)));
    assert_eq!(rt; piece_from(&memory, space, 4, 2), Some((21, 2)));
    Ok(())
}
