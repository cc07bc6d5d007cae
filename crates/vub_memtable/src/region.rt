ghost use Rattle.std.specs.Prelude.{◌≡◌, ◌<◌, ◌≤◌, ◌+◌, ◌^◌};
ghost use Rattle.vub_memtable.specs.Regions.{is_within, ranges_meet, regions_meet, ends_past, holds_guest, holds_user};

use vub_base::Space;

/// One more than the last address of the guest or of the front end that there can be.
const ADDRESSES: u128 = 1 << 64;

/// A region of guest memory as the front end names it.
#[derive(Clone, Copy, Debug, Default, PartialEq, Eq)]
pub struct Region {
    /// The first of its addresses in the guest.
    pub guest: u64,
    /// How many bytes it has. A region of size 0 holds no address.
    pub size: u64,
    /// The first of its addresses in the front end.
    pub user: u64,
    /// The place of its first byte in its space.
    pub offset: u64,
}

/// A region with its space and that space's size in bytes.
#[derive(Clone, Copy, Debug, PartialEq, Eq)]
pub struct Mapped {
    pub region: Region,
    pub space: Space,
    pub space_size: u64,
}

impl Default for Mapped {
    fn default() -> Mapped {
        Mapped {
            region: Region::default(),
            space: Space { number: 0 },
            space_size: 0,
        }
    }
}

/// The number after the last one of a range.
fn end_of(start: u64, size: u64) -> u128
    ensures is { result ≡ start + size }
    ensures fits { result < 2 ^ 65 }
{
    u128::from(start) + u128::from(size)
}

/// Whether the `len` numbers from `address` on are among the `size` ones from `start` on.
fn is_within(start: u64, size: u64, address: u64, len: u64) -> bool
    ensures { result ≡ is_within start size address len }
{
    start <= address && end_of(address, len) <= end_of(start, size)
}

/// Whether two ranges have a number in common.
fn ranges_meet(start: u64, size: u64, other: u64, other_size: u64) -> bool
    ensures { result ≡ ranges_meet start size other other_size }
{
    let from = if start < other { other } else { start };
    u128::from(from) < end_of(start, size) && u128::from(from) < end_of(other, other_size)
}

impl Mapped {
    /// Whether the region holds all of a range of the guest's addresses.
    pub(crate) fn holds_guest(&self, address: u64, len: u64) -> bool
        ensures { result ≡ holds_guest self.now address len }
    {
        is_within(self.region.guest, self.region.size, address, len)
    }

    /// Whether the region holds all of a range of the front end's addresses.
    pub(crate) fn holds_user(&self, address: u64, len: u64) -> bool
        ensures { result ≡ holds_user self.now address len }
    {
        is_within(self.region.user, self.region.size, address, len)
    }

    /// The space and the place of the byte that is so many bytes past the region's first.
    pub(crate) fn place_of(&self, past: u64) -> (Space, u64)
        requires { self.now.region.offset + past ≤ self.now.space_size }
        ensures { result ≡ (self.now.space, self.now.region.offset + past) }
    {
        (self.space, self.region.offset + past)
    }

    /// Whether two regions share an address of the guest or of the front end.
    pub(crate) fn meets(&self, other: &Mapped) -> bool
        ensures { result ≡ regions_meet self.now other.now }
    {
        let size = self.region.size;
        let other_size = other.region.size;
        ranges_meet(self.region.guest, size, other.region.guest, other_size)
            || ranges_meet(self.region.user, size, other.region.user, other_size)
    }

    /// Whether the region ends past its space, or its addresses past 2^64.
    pub(crate) fn ends_past(&self) -> bool
        ensures { result ≡ ends_past self.now }
    {
        let size = self.region.size;
        end_of(self.region.offset, size) > u128::from(self.space_size)
            || end_of(self.region.guest, size) > ADDRESSES
            || end_of(self.region.user, size) > ADDRESSES
    }
}
