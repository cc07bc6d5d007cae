//! Laws of the driver's stores: what a step leaves of what waits in its ring, and of what is seen of
//! it. What the stores are, `Guest::step` says.
ghost use Rattle.std.specs.Prelude.{◌≡◌, ◌<◌, ◌≤◌, ◌++◌, ◌∷◌, [], ℕ, length, Some, IfSome};
ghost use Rattle.vub_shared.specs.Bytes.{Bytes};
ghost use Rattle.vub_shared.specs.Stores.{after_store};
ghost use Rattle.vub_ring.specs.Ring.{avail_idx, head_at, waiting, seen};
ghost use Rattle.vub_driver.specs.Drivers.{Waiting};
ghost use Rattle.vub_split.specs.Words.{IsRingSize, RingFits};
ghost use Rattle.vub_guest.specs.declared.guest.Guest.{Guest};
ghost use Rattle.vub_guest.specs.GuestState.{ring_in, driver_in, next_store};

/// Of a request that waits one to eight stores are left.
pub fn one_to_eight_are_left()
    ensures some { (g : Guest) (w : Waiting) → (driver_in g).waiting ≡ Some w → 0 < length w.left }
    ensures few { (g : Guest) (w : Waiting) → (driver_in g).waiting ≡ Some w → length w.left ≤ 8 }
{}

/// The last store of a request adds its head at the end of what waits from a position on, since the
/// store before it put the head there; each other store leaves what waits. All leave what is seen.
pub fn last_store_offers()
    ensures rings { (g : Guest) → RingFits (ring_in g) }
    ensures earlier { (g : Guest) (w : Waiting) (m : Bytes) (from : ℕ) → (driver_in g).waiting ≡ Some w → 1 < length w.left → IsRingSize (ring_in g).size
        → avail_idx (ring_in g) m ≡ (driver_in g).avail_idx → length (waiting (ring_in g) m from) < (ring_in g).size
        → IfSome (next_store (driver_in g).waiting) (λ st. waiting (ring_in g) (after_store st m) from ≡ waiting (ring_in g) m from) }
    ensures entry { (g : Guest) (w : Waiting) (m : Bytes) → (driver_in g).waiting ≡ Some w → length w.left ≡ 2
        → IfSome (next_store (driver_in g).waiting) (λ st. head_at (ring_in g) (after_store st m) (driver_in g).avail_idx ≡ w.head) }
    ensures last { (g : Guest) (w : Waiting) (m : Bytes) (from : ℕ) → (driver_in g).waiting ≡ Some w → length w.left ≡ 1
        → avail_idx (ring_in g) m ≡ (driver_in g).avail_idx → head_at (ring_in g) m (driver_in g).avail_idx ≡ w.head → length (waiting (ring_in g) m from) < 65535
        → IfSome (next_store (driver_in g).waiting) (λ st. waiting (ring_in g) (after_store st m) from ≡ waiting (ring_in g) m from ++ w.head ∷ []) }
    ensures seen { (g : Guest) (w : Waiting) (m : Bytes) (from : ℕ) → (driver_in g).waiting ≡ Some w
        → IfSome (next_store (driver_in g).waiting) (λ st. seen (ring_in g) (after_store st m) from ≡ seen (ring_in g) m from) }
{}
