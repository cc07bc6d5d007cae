ghost use Rattle.std.specs.Prelude.{◌≡◌, ◌<◌, ◌≤◌, ◌+◌, ◌-◌, ◌*◌, ℕ, Bool, All, length, IfOk, OnOk};
ghost use Rattle.vub_base.specs.Causes.{HasCause};
ghost use Rattle.vub_base.specs.Told.{WhereTold};
ghost use Rattle.vub_shared.specs.Frames.{OnlyLoads};
ghost use Rattle.vub_memtable.specs.Regions.{IsHeld};
ghost use Rattle.vub_chain.specs.Chains.{Walks, failure, list_chain, split_chain};
ghost use Rattle.vub_chain.specs.Descs.{goes_on, is_table, is_writable, linked_desc, listed_desc, listed_from};
ghost use Rattle.vub_chain.specs.Spans.{KeepsLying, SpansLie};
ghost use Rattle.vub_chain.specs.Steps.{Adds, Answers, HasRoom, NamesTable, chain_in, in_ring, in_table, list_walk, of_list, of_table, plain, split_walk};

use crate::spans::{Span, Spans};
use vub_base::standard::{VIRTQ_DESC_F_INDIRECT, VIRTQ_DESC_F_NEXT, VIRTQ_DESC_F_WRITE};
use vub_base::{ChainFault, Failed, Space, get_u16, get_u32, get_u64};
use vub_memtable::{MemTable, TableFault};
use vub_shared::Shared;

/// The bytes of a descriptor in a table.
const DESC_BYTES: u32 = 16;

/// A descriptor (VIRTIO 1.2, 2.7.5 and 2.8.6).
#[derive(Clone, Copy, Debug, PartialEq, Eq)]
pub struct Desc {
    /// The guest address of the buffer.
    pub addr: u64,
    /// The bytes of the buffer.
    pub len: u32,
    /// NEXT, WRITE and INDIRECT; other bits are ignored.
    pub flags: u16,
    /// Where NEXT is set, the index of the next one in the same table. A list has no use for it.
    pub next: u16,
}

/// Where so many descriptors stand one after another.
#[derive(Clone, Copy, Debug)]
struct Source {
    space: Space,
    place: u64,
    count: u32,
}

impl Desc {
    #[tactic(auto, using(crate::proofs::DescLemmas::tested_next))]
    fn goes_on(&self) -> bool
        ensures { result ≡ goes_on self.now }
    {
        self.flags & VIRTQ_DESC_F_NEXT != 0
    }

    #[tactic(auto, using(crate::proofs::DescLemmas::tested_write))]
    fn is_writable(&self) -> bool
        ensures { result ≡ is_writable self.now }
    {
        self.flags & VIRTQ_DESC_F_WRITE != 0
    }

    #[tactic(auto, using(crate::proofs::DescLemmas::tested_indirect))]
    fn is_table(&self) -> bool
        ensures { result ≡ is_table self.now }
    {
        self.flags & VIRTQ_DESC_F_INDIRECT != 0
    }
}

/// A descriptor that is linked by its last field.
fn linked_desc<M: Shared>(mem: &mut M, source: Source, index: u32) -> Result<Desc, Failed>
    requires lies { source.place + 16 * source.count ≤ M.sizes mem.old source.space.number }
    requires below { index < source.count }
    ensures loaded { IfOk result (λ d. WhereTold (M.told mem.old) (λ m. d ≡ linked_desc m (record { space = source.space.number; place = source.place; count = source.count }) index)) }
    ensures only_loads { OnlyLoads M.told M.trail M.names M.handed M.sizes mem.old mem.new }
    ensures cause { HasCause (M.faults mem.old) (M.faults mem.new) result }
{
    let mut bytes = [0u8; 16];
    mem.load(
        source.space,
        source.place + 16 * u64::from(index),
        &mut bytes,
    )?;
    Ok(Desc {
        addr: get_u64(&bytes, 0),
        len: get_u32(&bytes, 8),
        flags: get_u16(&bytes, 12),
        next: get_u16(&bytes, 14),
    })
}

/// Adds the span of a descriptor that names bytes, and answers whether a writable one has come.
fn plain(
    table: &MemTable,
    position: u16,
    desc: &Desc,
    turned: bool,
    into: &mut Spans,
) -> Result<bool, ChainFault>
    requires { HasRoom into.old 1 }
    ensures adds { Adds result into.new (plain table.now position desc.now (chain_in turned into.old)) }
    ensures room { into.new.room ≡ into.old.room }
    ensures readable { length into.new.readable ≤ length into.old.readable + 1 }
    ensures writable { length into.new.writable ≤ length into.old.writable + 1 }
    ensures lying { KeepsLying table.now into.old into.new }
{
    let writable = desc.is_writable();
    if !writable && turned {
        return Err(ChainFault::BadOrder(position));
    }
    if desc.len == 0 {
        return Ok(turned || writable);
    }
    let (space, place) = match table.guest_to_space(desc.addr, u64::from(desc.len)) {
        Ok(found) => found,
        Err(_) => return Err(ChainFault::Unmapped(desc.addr)),
    };
    let span = Span {
        space,
        place,
        len: desc.len,
    };
    if writable {
        into.push_writable(span);
        Ok(true)
    } else {
        into.push_readable(span);
        Ok(turned)
    }
}

/// Walks the entries of a table from one on, so many positions being left.
fn in_table<M: Shared>(
    mem: &mut M,
    table: &MemTable,
    size: u16,
    source: Source,
    left: u16,
    index: u32,
    turned: bool,
    into: &mut Spans,
) -> Result<(), ChainFault>
    requires lies { source.place + 16 * source.count ≤ M.sizes mem.old source.space.number }
    requires below { index < source.count }
    requires fits { left ≤ size }
    requires room { HasRoom into.old left }
    ensures walks { (indirect : Bool) → WhereTold (M.told mem.old) (λ m. Answers result into.new (in_table (record { table = table.now; size = size; indirect = indirect }) m (record { space = source.space.number; place = source.place; count = source.count }) left index (chain_in turned into.old))) }
    ensures room { into.new.room ≡ into.old.room }
    ensures lying { KeepsLying table.now into.old into.new }
    ensures only_loads { OnlyLoads M.told M.trail M.names M.handed M.sizes mem.old mem.new }
    ensures cause { HasCause (M.faults mem.old) (M.faults mem.new) (failure result) }
{
    if left == 0 {
        return Err(ChainFault::Loop);
    }
    let position = size - left;
    let desc = match linked_desc(mem, source, index) {
        Ok(desc) => desc,
        Err(Failed) => return Err(ChainFault::Failed),
    };
    if desc.is_table() {
        return Err(ChainFault::BadIndirect(position));
    }
    let turned = match plain(table, position, &desc, turned, into) {
        Ok(turned) => turned,
        Err(fault) => return Err(fault),
    };
    if !desc.goes_on() {
        return Ok(());
    }
    let next = u32::from(desc.next);
    if next >= source.count {
        return Err(ChainFault::BadIndex(desc.next));
    }
    in_table(mem, table, size, source, left - 1, next, turned, into)
}

/// Where the table of a descriptor stands that names one at this position.
fn table_of(
    table: &MemTable,
    indirect: bool,
    alone: bool,
    position: u16,
    desc: &Desc,
) -> Result<Source, ChainFault>
    ensures names { NamesTable result table.now indirect alone position desc.now }
    ensures some { IfOk result (λ t. 0 < t.count) }
    ensures lies { IfOk result (λ t. (sizes : ℕ → ℕ) → All (IsHeld sizes) table.now → t.place + 16 * t.count ≤ sizes t.space.number) }
{
    let len = desc.len;
    if !indirect || desc.goes_on() || !alone || len == 0 || len % DESC_BYTES != 0 {
        return Err(ChainFault::BadIndirect(position));
    }
    match table.guest_to_space(desc.addr, u64::from(len)) {
        Ok((space, place)) => Ok(Source {
            space,
            place,
            count: len / DESC_BYTES,
        }),
        Err(_) => Err(ChainFault::Unmapped(desc.addr)),
    }
}

/// Walks the descriptors of a ring's table from one on, so many positions being left.
#[tactic(auto, using(crate::proofs::RingLemmas::ring_plain_fault, crate::proofs::RingLemmas::ring_bad_next, crate::proofs::RingLemmas::ring_table_fault, crate::proofs::RingLemmas::ring_table))]
fn in_ring<M: Shared>(
    mem: &mut M,
    table: &MemTable,
    size: u16,
    indirect: bool,
    source: Source,
    left: u16,
    index: u32,
    turned: bool,
    into: &mut Spans,
) -> Result<(), ChainFault>
    requires held { All (IsHeld (M.sizes mem.old)) table.now }
    requires lies { source.place + 16 * source.count ≤ M.sizes mem.old source.space.number }
    requires below { index < source.count }
    requires fits { left ≤ size }
    requires room { HasRoom into.old left }
    ensures walks { WhereTold (M.told mem.old) (λ m. Answers result into.new (in_ring (record { table = table.now; size = size; indirect = indirect }) m (record { space = source.space.number; place = source.place; count = source.count }) left index (chain_in turned into.old))) }
    ensures room { into.new.room ≡ into.old.room }
    ensures lying { KeepsLying table.now into.old into.new }
    ensures only_loads { OnlyLoads M.told M.trail M.names M.handed M.sizes mem.old mem.new }
    ensures cause { HasCause (M.faults mem.old) (M.faults mem.new) (failure result) }
{
    if left == 0 {
        return Err(ChainFault::Loop);
    }
    let position = size - left;
    let desc = match linked_desc(mem, source, index) {
        Ok(desc) => desc,
        Err(Failed) => return Err(ChainFault::Failed),
    };
    if desc.is_table() {
        let entries = match table_of(table, indirect, true, position, &desc) {
            Ok(entries) => entries,
            Err(fault) => return Err(fault),
        };
        return in_table(mem, table, size, entries, left, 0, turned, into);
    }
    let turned = match plain(table, position, &desc, turned, into) {
        Ok(turned) => turned,
        Err(fault) => return Err(fault),
    };
    if !desc.goes_on() {
        return Ok(());
    }
    let next = u32::from(desc.next);
    if next >= source.count {
        return Err(ChainFault::BadIndex(desc.next));
    }
    in_ring(
        mem,
        table,
        size,
        indirect,
        source,
        left - 1,
        next,
        turned,
        into,
    )
}

/// A descriptor of a table of the packed format, which names no next one.
fn listed_desc<M: Shared>(mem: &mut M, source: Source, index: u32) -> Result<Desc, Failed>
    requires lies { source.place + 16 * source.count ≤ M.sizes mem.old source.space.number }
    requires below { index < source.count }
    ensures loaded { IfOk result (λ d. WhereTold (M.told mem.old) (λ m. d ≡ listed_desc m (record { space = source.space.number; place = source.place; count = source.count }) index)) }
    ensures only_loads { OnlyLoads M.told M.trail M.names M.handed M.sizes mem.old mem.new }
    ensures cause { HasCause (M.faults mem.old) (M.faults mem.new) result }
{
    let mut bytes = [0u8; 16];
    mem.load(
        source.space,
        source.place + 16 * u64::from(index),
        &mut bytes,
    )?;
    Ok(Desc {
        addr: get_u64(&bytes, 0),
        len: get_u32(&bytes, 8),
        flags: get_u16(&bytes, 14),
        next: 0,
    })
}

/// Walks the entries of a table of the packed format in their order, from one on.
#[tactic(auto, using(crate::proofs::ListLemmas::listed_more, crate::proofs::ListLemmas::listed_none))]
fn of_table<M: Shared>(
    mem: &mut M,
    table: &MemTable,
    size: u16,
    source: Source,
    index: u32,
    position: u16,
    turned: bool,
    into: &mut Spans,
) -> Result<(), ChainFault>
    requires lies { source.place + 16 * source.count ≤ M.sizes mem.old source.space.number }
    requires upto { index ≤ source.count }
    requires fits { position ≤ size }
    requires room { HasRoom into.old (size - position) }
    ensures walks { (indirect : Bool) → WhereTold (M.told mem.old) (λ m. Answers result into.new (of_table (record { table = table.now; size = size; indirect = indirect }) position (listed_from m (record { space = source.space.number; place = source.place; count = source.count }) (source.count - index) index) (chain_in turned into.old))) }
    ensures room { into.new.room ≡ into.old.room }
    ensures lying { KeepsLying table.now into.old into.new }
    ensures only_loads { OnlyLoads M.told M.trail M.names M.handed M.sizes mem.old mem.new }
    ensures cause { HasCause (M.faults mem.old) (M.faults mem.new) (failure result) }
{
    if index == source.count {
        return Ok(());
    }
    if position == size {
        return Err(ChainFault::Loop);
    }
    let desc = match listed_desc(mem, source, index) {
        Ok(desc) => desc,
        Err(Failed) => return Err(ChainFault::Failed),
    };
    if desc.is_table() {
        return Err(ChainFault::BadIndirect(position));
    }
    let turned = match plain(table, position, &desc, turned, into) {
        Ok(turned) => turned,
        Err(fault) => return Err(fault),
    };
    of_table(
        mem,
        table,
        size,
        source,
        index + 1,
        position + 1,
        turned,
        into,
    )
}

/// Walks the descriptors of a list in their order, of which only one that stands alone may name a
/// table.
#[tactic(auto, using(crate::proofs::ListLemmas::named_fault, crate::proofs::ListLemmas::named_table))]
fn of_list<M: Shared>(
    mem: &mut M,
    table: &MemTable,
    size: u16,
    indirect: bool,
    alone: bool,
    list: &[Desc],
    position: u16,
    turned: bool,
    into: &mut Spans,
) -> Result<(), ChainFault>
    requires held { All (IsHeld (M.sizes mem.old)) table.now }
    requires fits { position ≤ size }
    requires room { HasRoom into.old (size - position) }
    ensures walks { WhereTold (M.told mem.old) (λ m. Answers result into.new (of_list (record { table = table.now; size = size; indirect = indirect }) m alone position list.now (chain_in turned into.old))) }
    ensures room { into.new.room ≡ into.old.room }
    ensures lying { KeepsLying table.now into.old into.new }
    ensures only_loads { OnlyLoads M.told M.trail M.names M.handed M.sizes mem.old mem.new }
    ensures cause { HasCause (M.faults mem.old) (M.faults mem.new) (failure result) }
{
    match list {
        [] => Ok(()),
        [first, rest @ ..] => {
            if position == size {
                return Err(ChainFault::Loop);
            }
            if first.is_table() {
                let entries = match table_of(table, indirect, alone, position, first) {
                    Ok(entries) => entries,
                    Err(fault) => return Err(fault),
                };
                return of_table(mem, table, size, entries, 0, position, turned, into);
            }
            let turned = match plain(table, position, first, turned, into) {
                Ok(turned) => turned,
                Err(fault) => return Err(fault),
            };
            of_list(
                mem,
                table,
                size,
                indirect,
                false,
                rest,
                position + 1,
                turned,
                into,
            )
        }
    }
}

/// Walks the chain that begins at `head` of the descriptor table at `place`, which has `size`
/// descriptors (VIRTIO 1.2, 2.7.5). On Ok the spans are those of the chain, the readable and the
/// writable ones in its order; else the fault is that of the first descriptor that breaks a rule, and
/// what `into` holds is open. `indirect` says whether descriptors may name tables (2.7.5.3); the
/// entries of one are linked from its first on. A chain has at most `size` positions, the entries of
/// a table included. Takes no memory and stores nothing.
pub fn walk_split<M: Shared>(
    mem: &mut M,
    table: &MemTable,
    place: (Space, u64),
    size: u16,
    head: u16,
    indirect: bool,
    into: &mut Spans,
) -> Result<(), ChainFault>
    requires below { head < size }
    requires lies { place.1 + 16 * size ≤ M.sizes mem.old place.0.number }
    requires held { All (IsHeld (M.sizes mem.old)) table.now }
    requires room { size ≤ into.old.room }
    ensures walks { WhereTold (M.told mem.old) (λ m. Walks (record { table = table.now; size = size; indirect = indirect }) result into.new (split_chain (record { table = table.now; size = size; indirect = indirect }) m place.0.number place.1 head)) }
    ensures lie { OnOk result (SpansLie (M.sizes mem.old) into.new) }
    ensures room { into.new.room ≡ into.old.room }
    ensures only_loads { OnlyLoads M.told M.trail M.names M.handed M.sizes mem.old mem.new }
    ensures cause { HasCause (M.faults mem.old) (M.faults mem.new) (failure result) }
{
    into.clear();
    let source = Source {
        space: place.0,
        place: place.1,
        count: u32::from(size),
    };
    in_ring(
        mem,
        table,
        size,
        indirect,
        source,
        size,
        u32::from(head),
        false,
        into,
    )
}

/// Walks the descriptors of a list in their order, as a packed buffer has them (VIRTIO 1.2, 2.8.6).
/// Only one that stands alone may name a table, whose entries follow one another (2.8.7). The rest
/// is as of `walk_split`.
#[tactic(auto, using(crate::proofs::ListLemmas::single_is))]
pub fn walk_list<M: Shared>(
    mem: &mut M,
    table: &MemTable,
    list: &[Desc],
    size: u16,
    indirect: bool,
    into: &mut Spans,
) -> Result<(), ChainFault>
    requires held { All (IsHeld (M.sizes mem.old)) table.now }
    requires room { size ≤ into.old.room }
    ensures walks { WhereTold (M.told mem.old) (λ m. Walks (record { table = table.now; size = size; indirect = indirect }) result into.new (list_chain (record { table = table.now; size = size; indirect = indirect }) m list.now)) }
    ensures lie { OnOk result (SpansLie (M.sizes mem.old) into.new) }
    ensures room { into.new.room ≡ into.old.room }
    ensures only_loads { OnlyLoads M.told M.trail M.names M.handed M.sizes mem.old mem.new }
    ensures cause { HasCause (M.faults mem.old) (M.faults mem.new) (failure result) }
{
    into.clear();
    let alone = list.len() == 1;
    of_list(mem, table, size, indirect, alone, list, 0, false, into)
}
