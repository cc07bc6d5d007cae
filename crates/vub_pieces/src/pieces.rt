ghost use Rattle.std.specs.Prelude.{◌≡◌, ◌<◌, ◌≤◌, ◌+◌, ◌*◌, ◌^◌, All, length, OnOk};
ghost use Rattle.vub_base.specs.Causes.{HasCause};
ghost use Rattle.vub_base.specs.Told.{WhereTold};
ghost use Rattle.vub_shared.specs.Frames.{OnlyLoads};
ghost use Rattle.vub_chain.specs.Spans.{LiesIn};
ghost use Rattle.vub_pieces.specs.Pieces.{bytes_in, gathered, piece_at};

use vub_base::{Failed, Space};
use vub_chain::Span;
use vub_shared::Shared;

/// Bytes that lie together in one space: where they begin, and how many they are.
#[derive(Clone, Copy, Debug, PartialEq, Eq)]
pub struct Piece {
    pub space: Space,
    pub place: u64,
    pub len: u64,
}

/// How many bytes a span has.
fn len_of(span: &Span) -> u64
    ensures is { result ≡ span.now.len }
    ensures fits { result < 2 ^ 32 }
{
    let len = span.len;
    u64::from(len)
}

/// How many bytes these spans have together.
pub fn total_len(spans: &[Span]) -> u64
    requires { length spans.now ≤ 65536 }
    ensures is { result ≡ bytes_in spans.now }
    ensures fits { result ≤ length spans.now * 2 ^ 32 }
{
    let mut total = 0;
    let mut rest = spans;
    while let [first, later @ ..] = rest {
        total += len_of(first);
        rest = later;
    }
    total
}

/// The bytes of these spans from number `skip` on that lie together, at most `most`. Numbers count from 0.
pub fn piece_at<M: Shared>(mem: &M, spans: &[Span], skip: u64, most: u64) -> Piece
    requires lies { All (LiesIn (M.sizes mem.now)) spans.now }
    requires below { skip < bytes_in spans.now }
    ensures is { result ≡ piece_at spans.now skip most }
    ensures lies { result.place + result.len ≤ M.sizes mem.now result.space.number }
    ensures most { result.len ≤ most }
    ensures some { 0 < most → 0 < result.len }
{
    let mut before = skip;
    let mut rest = spans;
    while let [first, later @ ..] = rest {
        let len = len_of(first);
        if before < len {
            return Piece {
                space: first.space,
                place: first.place + before,
                len: most.min(len - before),
            };
        }
        before -= len;
        rest = later;
    }
    unreachable!()
}

/// Fills `into` with the bytes of these spans from number `skip` on. What it holds after a load that failed is
/// open.
pub fn gather<M: Shared>(
    mem: &mut M,
    spans: &[Span],
    skip: u64,
    into: &mut [u8],
) -> Result<(), Failed>
    requires lies { All (LiesIn (M.sizes mem.old)) spans.now }
    requires enough { skip + length into.old ≤ bytes_in spans.now }
    ensures gathers { OnOk result (WhereTold (M.told mem.old) (λ m. into.new ≡ gathered m spans.now skip (length into.old))) }
    ensures only_loads { OnlyLoads M.told M.trail M.names M.handed M.sizes mem.old mem.new }
    ensures cause { HasCause (M.faults mem.old) (M.faults mem.new) result }
{
    match spans {
        [] => Ok(()),
        [first, rest @ ..] => {
            let len = len_of(first);
            if len <= skip {
                return gather(mem, rest, skip - len, into);
            }
            let left = len - skip;
            if into.len() as u64 <= left {
                return mem.load(first.space, first.place + skip, into);
            }
            let (front, back) = into.split_at_mut(left as usize);
            mem.load(first.space, first.place + skip, front)?;
            gather(mem, rest, 0, back)
        }
    }
}
