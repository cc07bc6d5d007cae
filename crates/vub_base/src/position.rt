//! Positions on a packed ring, and the two bits of a slot's flags that say whose it is.
ghost use Rattle.std.specs.Prelude.{◌≡◌, ◌<◌, ◌≤◌, ℕ, ◌+◌};
ghost use Rattle.vub_base.specs.Positions as positions;

use crate::standard::{VIRTQ_DESC_F_AVAIL, VIRTQ_DESC_F_USED};

/// A place on a packed ring: the index of a slot, and the ring wrap counter there, which is 1 in
/// the first lap and is inverted where a lap begins (VIRTIO 1.2, 2.8.1).
#[derive(Clone, Copy, Debug, PartialEq, Eq)]
pub struct Position {
    /// The index of the slot, below the size of the ring.
    pub index: u16,
    /// The wrap counter, true for 1.
    pub wrap: bool,
}

impl Position {
    ghost use Rattle.vub_base.specs.Positions.{advanced, position_of};

    /// The position `by` slots on, at most a lap, in a ring of `size` slots.
    pub fn advance(self, by: u16, size: u16) -> Position
        requires { by ≤ size }
        ensures moved { result ≡ advanced size self by }
        ensures counted { (p : ℕ) → 0 < size → self ≡ position_of size p → result ≡ position_of size (p + by) }
    {
        let next = u32::from(self.index) + u32::from(by);
        let end = u32::from(size);
        if next < end {
            Position {
                index: next as u16,
                wrap: self.wrap,
            }
        } else {
            Position {
                index: (next - end) as u16,
                wrap: !self.wrap,
            }
        }
    }
}

/// Whether a slot with these flags is available where the wrap counter is `wrap`: AVAIL is equal to
/// it, and USED isn't. Looks at these two bits alone.
#[tactic(auto, using(crate::proofs::PositionLemmas::avail_is, crate::proofs::PositionLemmas::used_is))]
pub fn is_available(flags: u16, wrap: bool) -> bool
    ensures { result ≡ positions.is_available flags wrap }
{
    let avail = flags & VIRTQ_DESC_F_AVAIL != 0;
    let used = flags & VIRTQ_DESC_F_USED != 0;
    avail == wrap && used != wrap
}

/// Whether a slot with these flags is used where the wrap counter is `wrap`: AVAIL and USED are
/// both equal to it. Looks at these two bits alone.
#[tactic(auto, using(crate::proofs::PositionLemmas::avail_is, crate::proofs::PositionLemmas::used_is))]
pub fn is_used(flags: u16, wrap: bool) -> bool
    ensures { result ≡ positions.is_used flags wrap }
{
    let avail = flags & VIRTQ_DESC_F_AVAIL != 0;
    let used = flags & VIRTQ_DESC_F_USED != 0;
    avail == wrap && used == wrap
}
