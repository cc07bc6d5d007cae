//! The descriptors of a request, as the device reads them from a split ring (VIRTIO 1.2, 2.7.5).
ghost use Rattle.std.specs.Prelude.{◌≡◌, ◌<◌, ◌≤◌, ◌+◌, ◌*◌, ℕ, true, IfOk, Ok, Option, Some, None, option_map};
ghost use Rattle.vub_base.specs.Causes.{HasCause};
ghost use Rattle.vub_base.specs.Told.{WhereTold};
ghost use Rattle.vub_shared.specs.Frames.{OnlyLoads};
ghost use Rattle.vub_split.specs.Split.{RingLies};
ghost use Rattle.vub_driver.specs.Requests.{Piece};
ghost use Rattle.vub_device.specs.declared.entry.Asked.{Asked};
ghost use Rattle.vub_driver.specs.GuestChain.{Links};
ghost use Rattle.vub_direct_chain.specs.ChainState.{MeansRequest, Reads, desc_in, desc_of, parts_of, read_outcome, span_at, NextIn, TailIn, SpanIn, Meaning, PartsLie};
ghost use Rattle.vub_shared.specs.Bytes.{Bytes};

use vub_base::standard::{VIRTQ_DESC_F_NEXT, VIRTQ_DESC_F_WRITE};
use vub_base::{ChainFault, Failed, RingFault, Space, get_u16, get_u32, get_u64};
use vub_shared::Shared;
use vub_split::SplitRing;
use vub_split::layout::{DESC_ADDR, DESC_FLAGS, DESC_LEN, DESC_NEXT, DESC_SIZE};

/// One descriptor of the table.
#[derive(Clone, Copy, Debug, PartialEq, Eq)]
pub struct Desc {
    /// The guest address of the buffer.
    pub addr: u64,
    /// The bytes of the buffer.
    pub len: u32,
    pub flags: u16,
    pub next: u16,
}

/// A part of guest memory, in bytes.
#[derive(Clone, Copy, Debug, PartialEq, Eq)]
pub struct Span {
    pub space: Space,
    pub place: u64,
    pub len: u32,
}

/// The parts of a request: its header, its sectors if it has any, and its status byte.
#[derive(Clone, Copy, Debug, PartialEq, Eq)]
pub struct Parts {
    pub header: Span,
    pub sectors: Option<Sectors>,
    pub status: Span,
}

/// The sectors of a request, and whether the device writes them.
#[derive(Clone, Copy, Debug, PartialEq, Eq)]
pub struct Sectors {
    pub span: Span,
    pub writable: bool,
}

/// Why a chain wasn't read.
#[derive(Clone, Copy, Debug, PartialEq, Eq)]
pub enum Unread {
    Failed,
    Broken(RingFault),
}

/// Whether a span lies in its space.
pub fn lies_in<M: Shared>(mem: &M, span: &Span) -> bool
    ensures lies { span.now.place + span.now.len ≤ M.sizes mem.now span.now.space.number → result ≡ true }
    ensures within { result ≡ true → span.now.place + span.now.len ≤ M.sizes mem.now span.now.space.number }
{
    let size = mem.size(span.space);
    span.place <= size && u64::from(span.len) <= size - span.place
}

/// The descriptor of an index.
fn descriptor_at<M: Shared>(ring: &SplitRing, mem: &mut M, index: u16) -> Result<Desc, Failed>
    requires lies { RingLies (M.sizes mem.old) ring.now }
    requires fits { index < ring.now.size }
    ensures loaded { IfOk result (λ d. WhereTold (M.told mem.old) (λ m. d ≡ desc_in ring.now m index)) }
    ensures only_loads { OnlyLoads M.told M.trail M.names M.handed M.sizes mem.old mem.new }
    ensures cause { HasCause (M.faults mem.old) (M.faults mem.new) result }
{
    let mut bytes = [0u8; DESC_SIZE];
    mem.load(
        ring.desc.0,
        ring.desc.1 + DESC_SIZE as u64 * u64::from(index),
        &mut bytes,
    )?;
    Ok(Desc {
        addr: get_u64(&bytes, DESC_ADDR),
        len: get_u32(&bytes, DESC_LEN),
        flags: get_u16(&bytes, DESC_FLAGS),
        next: get_u16(&bytes, DESC_NEXT),
    })
}

/// The descriptor after this one, if it has one.
fn next_of<M: Shared>(ring: &SplitRing, mem: &mut M, desc: &Desc) -> Result<Option<Desc>, Unread>
    requires { RingLies (M.sizes mem.old) ring.now }
    ensures ends { (p : Piece) → desc.now ≡ desc_of p None → result ≡ Ok None }
    ensures next { WhereTold (M.told mem.old) (λ m. NextIn ring.now m desc.now result) }
    ensures follows { (p : Piece) (next : ℕ) → desc.now ≡ desc_of p (Some next) → next < ring.now.size → WhereTold (M.told mem.old) (λ m. Reads result (Some (desc_in ring.now m next))) }
    ensures only_loads { OnlyLoads M.told M.trail M.names M.handed M.sizes mem.old mem.new }
    ensures cause { HasCause (M.faults mem.old) (M.faults mem.new) (read_outcome result) }
{
    if desc.flags & VIRTQ_DESC_F_NEXT == 0 {
        return Ok(None);
    }
    if desc.next >= ring.size {
        return Err(Unread::Broken(RingFault::Chain(ChainFault::BadIndex(desc.next))));
    }
    match descriptor_at(ring, mem, desc.next) {
        Ok(next) => Ok(Some(next)),
        Err(Failed) => Err(Unread::Failed),
    }
}

/// The buffer of a descriptor, which lies in the space of the table.
fn span_of<M: Shared>(ring: &SplitRing, mem: &M, desc: &Desc) -> Result<Span, Unread>
    ensures cause { read_outcome result ≡ Ok tt }
    ensures exact { SpanIn (M.sizes mem.now) ring.now desc.now result }
    ensures span { desc.now.addr + desc.now.len ≤ M.sizes mem.now ring.now.desc.0.number → result ≡ Ok (span_at ring.now desc.now.addr desc.now.len) }
{
    let span = Span {
        space: ring.desc.0,
        place: desc.addr,
        len: desc.len,
    };
    if lies_in(mem, &span) {
        Ok(span)
    } else {
        Err(Unread::Broken(RingFault::Chain(ChainFault::Unmapped(desc.addr))))
    }
}

/// The descriptors behind the head: sectors and status, or the status alone. A chain of more is
/// refused.
fn tail_of<M: Shared>(
    ring: &SplitRing,
    mem: &mut M,
    head: u16,
    first: &Desc,
) -> Result<(Option<Desc>, Desc), Unread>
    requires { RingLies (M.sizes mem.old) ring.now }
    ensures exact { (sizes : ℕ → ℕ) → WhereTold (M.told mem.old) (λ m. first.now ≡ desc_in ring.now m head → TailIn sizes ring.now m head result) }
    ensures tail { (l : Links) (buffer : ℕ) (request : Asked) → WhereTold (M.told mem.old) (λ m. MeansRequest (M.sizes mem.old) ring.now m l buffer request → first.now ≡ desc_in ring.now m l.head → Reads result (option_map (desc_in ring.now m) l.body, desc_in ring.now m l.status)) }
    ensures only_loads { OnlyLoads M.told M.trail M.names M.handed M.sizes mem.old mem.new }
    ensures cause { HasCause (M.faults mem.old) (M.faults mem.new) (read_outcome result) }
{
    let Some(second) = next_of(ring, mem, first)? else {
        return Err(Unread::Broken(RingFault::NoStatus(head)));
    };
    let Some(third) = next_of(ring, mem, &second)? else {
        return Ok((None, second));
    };
    if third.flags & VIRTQ_DESC_F_NEXT != 0 {
        return Err(Unread::Broken(RingFault::NoRoom(head)));
    }
    Ok((Some(second), third))
}

/// The parts of the request whose chain begins at a head: a header, at most one descriptor of
/// sectors, and a status, each in the space of the table. Else the first rule that the chain breaks:
/// `BadIndex` of a next one past the table, `NoRoom` of the head where a fourth descriptor follows,
/// `NoStatus` of the head where it has no writable byte at its end, `Unmapped` of the address of a
/// buffer that ends past the space.
pub fn read_chain<M: Shared>(ring: &SplitRing, mem: &mut M, head: u16) -> Result<Parts, Unread>
    requires lies { RingLies (M.sizes mem.old) ring.now }
    requires fits { head < ring.now.size }
    ensures means { WhereTold (M.told mem.old) (λ m. Meaning (M.sizes mem.old) ring.now m head result) }
    ensures lie { IfOk result (λ p. PartsLie (M.sizes mem.old) p) }
    ensures read { (l : Links) (buffer : ℕ) (request : Asked) → WhereTold (M.told mem.old) (λ m. MeansRequest (M.sizes mem.old) ring.now m l buffer request → l.head ≡ head → Reads result (parts_of ring.now buffer request)) }
    ensures only_loads { OnlyLoads M.told M.trail M.names M.handed M.sizes mem.old mem.new }
    ensures cause { HasCause (M.faults mem.old) (M.faults mem.new) (read_outcome result) }
{
    let first = match descriptor_at(ring, mem, head) {
        Ok(first) => first,
        Err(Failed) => return Err(Unread::Failed),
    };
    let (second, last) = tail_of(ring, mem, head, &first)?;
    if last.flags & VIRTQ_DESC_F_WRITE == 0 || last.len == 0 {
        return Err(Unread::Broken(RingFault::NoStatus(head)));
    }
    let header = span_of(ring, mem, &first)?;
    let sectors = match second {
        None => None,
        Some(second) => Some(Sectors {
            span: span_of(ring, mem, &second)?,
            writable: second.flags & VIRTQ_DESC_F_WRITE != 0,
        }),
    };
    let status = span_of(ring, mem, &last)?;
    Ok(Parts {
        header,
        sectors,
        status,
    })
}
