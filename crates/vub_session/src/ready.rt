//! When a ring is ready, and where it lies.
ghost use Rattle.std.specs.Prelude.{◌≡◌, ◌≤◌, ◌<◌, ℕ, ◌+◌, ◌%◌, ◌^◌, true, All, IfSome};
ghost use Rattle.vub_memtable.specs.Regions.{IsHeld};
ghost use Rattle.vub_session.specs.Bounds.{IsBounded, RegionBounded, SizeBounded};
ghost use Rattle.vub_session.specs.Lies.{PartsLie, RegionSized};
ghost use Rattle.vub_session.specs.Ready as ready;
ghost use Rattle.vub_session.specs.State.{is_packed};
ghost use Rattle.vub_setup.specs.Setups.{RingsLie};

use crate::state::{Addresses, KeptRegion, MAX_QUEUES, Ring, Terms};
use vub_base::Space;
use vub_blkreq::{Features, ProtocolFeatures};
use vub_memtable::MemTable;
use vub_packed::PackedRing;
use vub_setup::{PackedRegion, Rings, SplitRegion, region_size};
use vub_split::SplitRing;

/// The bytes of a descriptor, whose table or ring lies at a multiple of them.
const DESCRIPTOR_SIZE: u64 = 16;

/// The bytes of the driver area and of the device area of a packed ring, which lie at multiples of them.
const EVENT_SIZE: u64 = 4;

/// The bytes of an avail ring and of a used ring beside their entries: flags and index.
const RING_HEADER_SIZE: u64 = 4;

const AVAIL_ENTRY_SIZE: u64 = 2;

const USED_ELEMENT_SIZE: u64 = 8;

const AVAIL_ALIGNMENT: u64 = 2;

const USED_ALIGNMENT: u64 = 4;

/// A number that the powers of two up to it divide, and no other number.
const POWERS_OF_TWO: u32 = 65_536;

/// Where the parts of a ring lie, by space and place in bytes.
#[derive(Clone, Copy, Debug)]
pub(crate) struct Parts {
    pub desc: (Space, u64),
    pub avail: (Space, u64),
    pub used: (Space, u64),
}

fn is_power_of_two(size: u16) -> bool
    ensures { result ≡ ready.is_power_of_two size }
{
    0 < size && POWERS_OF_TWO % u32::from(size) == 0
}

/// The place of so many bytes from an address of the front end on, where they are mapped and it is a
/// multiple of `alignment`.
#[tactic(auto, unfolding(crate::specs::Ready::extent_place))]
fn extent_place(table: &MemTable, address: u64, len: u64, alignment: u64) -> Option<(Space, u64)>
    requires some { 1 ≤ len }
    requires aligned { 1 ≤ alignment }
    ensures is { result ≡ ready.extent_place table.now address len alignment }
    ensures lies { IfSome result (λ x. (sizes : ℕ → ℕ) → All (IsHeld sizes) table.now → x.1 + len ≤ sizes x.0.number) }
    ensures aligned { IfSome result (λ x. x.1 % alignment ≡ 0) }
{
    let (space, place) = table.user_to_space(address, len).ok()?;
    if place % alignment == 0 {
        Some((space, place))
    } else {
        None
    }
}

fn avail_size(packed: bool, size: u16) -> u64
    ensures is { result ≡ ready.avail_size packed size }
    ensures some { 1 ≤ result }
{
    if packed {
        EVENT_SIZE
    } else {
        RING_HEADER_SIZE + AVAIL_ENTRY_SIZE * u64::from(size)
    }
}

fn used_size(packed: bool, size: u16) -> u64
    ensures is { result ≡ ready.used_size packed size }
    ensures some { 1 ≤ result }
{
    if packed {
        EVENT_SIZE
    } else {
        RING_HEADER_SIZE + USED_ELEMENT_SIZE * u64::from(size)
    }
}

/// The three parts of a ring, where each is mapped and aligned.
#[tactic(auto, unfolding(crate::specs::Ready::parts_of))]
fn parts_of(packed: bool, table: &MemTable, addresses: &Addresses, size: u16) -> Option<Parts>
    requires { 1 ≤ size }
    ensures is { result ≡ ready.parts_of packed table.now addresses.now size }
    ensures lie { IfSome result (λ parts. (sizes : ℕ → ℕ) → All (IsHeld sizes) table.now → PartsLie sizes packed size parts) }
{
    let avail_alignment = if packed { EVENT_SIZE } else { AVAIL_ALIGNMENT };
    let desc_size = DESCRIPTOR_SIZE * u64::from(size);
    let desc = extent_place(table, addresses.desc, desc_size, DESCRIPTOR_SIZE)?;
    let avail = extent_place(
        table,
        addresses.avail,
        avail_size(packed, size),
        avail_alignment,
    )?;
    let used = extent_place(
        table,
        addresses.used,
        used_size(packed, size),
        USED_ALIGNMENT,
    )?;
    Some(Parts { desc, avail, used })
}

impl KeptRegion {
    /// Whether the region counts the queue, and a ring of this size fits it.
    #[tactic(auto, unfolding(crate::specs::Ready::sizes_fit))]
    fn fits(&self, packed: bool, index: u16, size: u16) -> bool
        ensures { result ≡ ready.sizes_fit packed index self.now size }
    {
        index < self.queues && size <= self.queue_size && (packed || is_power_of_two(size))
    }

    /// Whether the queue's part ends within the region.
    #[tactic(auto, unfolding(crate::specs::Ready::holds_queue))]
    fn holds_queue(&self, packed: bool, index: u16) -> bool
        ensures { result ≡ ready.holds_queue packed index self.now }
    {
        (u64::from(index) + 1) * region_size(packed, self.queue_size) <= self.size
    }

    /// Where the queue's part begins.
    #[tactic(auto, unfolding(crate::specs::Ready::queue_place, crate::specs::Ready::holds_queue))]
    fn queue_place(&self, packed: bool, index: u16) -> u64
        requires fits { self.now.offset + self.now.size < 2 ^ 64 }
        requires held { ready.holds_queue packed index self.now ≡ true }
        ensures { result ≡ ready.queue_place packed index self.now }
    {
        self.offset + u64::from(index) * region_size(packed, self.queue_size)
    }
}

impl Ring {
    /// Whether addresses, base and kick are given.
    fn is_given(&self) -> bool
        ensures { result ≡ ready.is_given self.now }
    {
        self.addresses.is_some() && self.base.is_some() && self.has_kick
    }
}

/// The rings of these parts and of a region.
fn rings_at(packed: bool, size: u16, parts: Parts, space: Space, place: u64) -> Rings
    ensures { result ≡ ready.rings_at packed size parts space place }
{
    if packed {
        let ring = PackedRing {
            ring: parts.desc,
            size,
        };
        Rings::Packed(ring, PackedRegion { space, place, size })
    } else {
        let ring = SplitRing {
            desc: parts.desc,
            avail: parts.avail,
            used: parts.used,
            size,
        };
        Rings::Split(ring, SplitRegion { space, place, size })
    }
}

impl Terms {
    /// Whether the region counts the queue, and the size of its ring fits it.
    fn fits_region(&self, index: u16, ring: &Ring) -> bool
        ensures { result ≡ ready.region_fits (is_packed self.now) index self.now.region ring.now.size }
    {
        let Some(region) = self.region else {
            return false;
        };
        let Some(size) = ring.size else {
            return false;
        };
        region.fits(self.is_packed(), index, size)
    }

    /// Whether a ring has all that makes it ready but that it is enabled.
    #[tactic(auto, unfolding(crate::specs::Ready::can_run))]
    fn can_run(&self, index: u16, ring: &Ring) -> bool
        ensures { result ≡ ready.can_run self.now index ring.now }
    {
        self.has_feature(Features::VERSION_1)
            && self.has_protocol_feature(ProtocolFeatures::INFLIGHT_SHMFD)
            && self.has_table
            && ring.is_given()
            && self.fits_region(index, ring)
    }

    /// Whether a ring is ready.
    #[tactic(auto, unfolding(crate::specs::Ready::is_ready))]
    pub(crate) fn is_ready(&self, index: u16, ring: &Ring) -> bool
        ensures { result ≡ ready.is_ready self.now index ring.now }
    {
        self.can_run(index, ring)
            && (ring.is_enabled || !self.has_feature(Features::PROTOCOL_FEATURES))
    }

    /// Where a ring and its part of the in-flight region lie, if all of it does.
    #[tactic(auto, unfolding(crate::specs::Ready::rings_of))]
    pub(crate) fn rings_of(&self, table: &MemTable, index: u16, ring: &Ring) -> Option<Rings>
        requires size { SizeBounded ring.now.size }
        requires region { (queues : ℕ) × RegionBounded queues self.now.region }
        ensures is { result ≡ ready.rings_of self.now table.now index ring.now }
        ensures lie { IfSome result (λ rings. (sizes : ℕ → ℕ) → All (IsHeld sizes) table.now → RegionSized sizes self.now.region → ready.region_fits (is_packed self.now) index self.now.region ring.now.size ≡ true → RingsLie sizes rings) }
    {
        let packed = self.is_packed();
        let region = self.region?;
        let size = ring.size?;
        let addresses = ring.addresses?;
        let parts = parts_of(packed, table, &addresses, size)?;
        if !region.holds_queue(packed, index) {
            return None;
        }
        let place = region.queue_place(packed, index);
        Some(rings_at(packed, size, parts, region.space, place))
    }

    /// Whether a ring would be ready and can't run.
    #[tactic(auto, unfolding(crate::specs::Ready::is_bad))]
    fn is_bad(&self, table: &MemTable, index: u16) -> bool
        requires bounded { (queues : ℕ) × IsBounded queues self.now }
        requires below { index < MAX_QUEUES }
        ensures { result ≡ ready.is_bad self.now table.now index }
    {
        let ring = self.rings[usize::from(index)];
        self.is_ready(index, &ring) && self.rings_of(table, index, &ring).is_none()
    }

    /// The first ring of so many that would be ready and can't run.
    #[tactic(auto, using(crate::proofs::ReadyLemmas::least_next, crate::proofs::ReadyLemmas::least_found))]
    pub(crate) fn bad_ring(&self, table: &MemTable, queues: u16) -> Option<u16>
        requires bounded { (queues : ℕ) × IsBounded queues self.now }
        requires few { queues ≤ MAX_QUEUES }
        ensures { result ≡ ready.bad_ring self.now table.now queues }
    {
        for index in 0..queues {
            if self.is_bad(table, index) {
                return Some(index);
            }
        }
        None
    }

    /// The same with each ring attached that is ready.
    #[tactic(auto, unfolding(crate::specs::Ready::attach))]
    pub(crate) fn attach(&self) -> Terms
        ensures { result ≡ ready.attach self.now }
    {
        let mut rings = self.rings;
        for index in 0..MAX_QUEUES {
            let ring = self.rings[index];
            let is_attached = ring.is_attached || self.is_ready(index as u16, &ring);
            rings[index] = Ring {
                is_attached,
                ..ring
            };
        }
        Terms { rings, ..*self }
    }
}
