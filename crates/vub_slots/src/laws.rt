//! Laws of positions, of flags, and of the slots by running number: what each store of a lawful
//! driver and of the device leaves of them, and that what stands is what waits and what is seen.
ghost use Rattle.std.specs.Prelude.{◌≡◌, ◌≢◌, ◌≤◌, ◌<◌, ℕ, ◌+◌, ◌%◌, Bool, true, false, not, List, ◌∷◌, ◌++◌};
ghost use Rattle.vub_base.specs.declared.position.Position.{Position};
ghost use Rattle.vub_base.specs.Positions.{is_available, is_used, wrap_at, position_of, number_at, advanced};
ghost use Rattle.vub_slots.specs.Flags.{available_flags, used_flags, restored_flags, SameOthers};
ghost use Rattle.vub_slots.specs.Slots.{SlotWords, with_at, is_of_lap, IsAvailable, Element, slots_of, pairs_of, IsSized, Shows, elements_from, Buffer, buffers_from};
ghost use Rattle.vub_slots.specs.Stands.{DriverSlots, Stand, IsSlots};
ghost use Rattle.vub_slots.specs.Stands.Stand.{Hidden, Shown};
ghost use Rattle.vub_slots.specs.DriverStores.{DriverStore, words_after, driver_after, offered_after, IsLawful};

/// Positions count like running numbers of slots: that of a number moved on is the position moved
/// on, each position has a number, and numbers up to a lap apart have different positions. One lap
/// on is the same slot with the other wrap counter, and two laps on is the same position.
pub fn positions_are_numbers()
    ensures advanced { (n p by : ℕ) → 0 < n → by ≤ n → advanced n (position_of n p) by ≡ position_of n (p + by) }
    ensures number { (n : ℕ) (at : Position) → at.index < n → position_of n (number_at n at) ≡ at }
    ensures apart { (n p by : ℕ) → 0 < n → 0 < by → by ≤ n → position_of n (p + by) ≢ position_of n p }
    ensures lap { (n p : ℕ) → 0 < n → ((p + n) % n ≡ p % n) × (wrap_at n (p + n) ≡ not (wrap_at n p)) }
    ensures two_laps { (n p : ℕ) → 0 < n → position_of n (p + (n + n)) ≡ position_of n p }
{}

/// The flags that driver and device store say whose the slot is. Restored flags are those of an
/// available slot, and each other bit is as it was.
pub fn flags_say_whose_a_slot_is()
    ensures available { (wrap : Bool) → is_available (available_flags wrap) wrap ≡ true }
    ensures used { (wrap : Bool) → is_used (used_flags wrap) wrap ≡ true }
    ensures restored { (flags : ℕ) (wrap : Bool) → is_available (restored_flags flags wrap) wrap ≡ true }
    ensures others { (flags : ℕ) (wrap : Bool) → SameOthers (restored_flags flags wrap) flags }
    ensures not_both { (flags : ℕ) (wrap : Bool) → is_available flags wrap ≡ true → is_used flags wrap ≡ false }
{}

/// What holds of the slots holds again after each store of a lawful driver, and after it took what
/// is shown first.
pub fn lawful_stores_keep_the_slots()
    ensures { (n : ℕ) (driver : DriverSlots) (u v a : ℕ) (w : SlotWords) (used old_used : Position) (stand : Stand) (store : DriverStore)
        → IsLawful n driver a w store → IsSlots n driver driver.collected u v a w used old_used stand
        → IsSlots n (driver_after driver store) (driver_after driver store).collected u v (offered_after driver a store) (words_after n driver a store w) used old_used stand }
{}

/// What holds of the slots holds again after each store of the device. Length and id of a slot of
/// open requests, the flags of an element behind the first and of a slot that is made available
/// again leave the batch hidden. The flags of the first element show it: its elements follow those
/// that are shown.
pub fn device_stores_keep_the_slots()
    ensures len { (n : ℕ) (driver : DriverSlots) (d u v a : ℕ) (w : SlotWords) (used old_used : Position) (stand : Stand) (q len : ℕ)
        → u ≤ q → q < v → IsSlots n driver d u v a w used old_used stand
        → IsSlots n driver d u v a (record w { len = with_at w.len (q % n) len }) used old_used stand }
    ensures id { (n : ℕ) (driver : DriverSlots) (d u v a : ℕ) (w : SlotWords) (used old_used : Position) (stand : Stand) (q id : ℕ)
        → u ≤ q → q < v → IsSlots n driver d u v a w used old_used stand
        → IsSlots n driver d u v a (record w { id = with_at w.id (q % n) id }) used old_used stand }
    ensures carried { (n : ℕ) (driver : DriverSlots) (d u v a : ℕ) (w : SlotWords) (used old_used : Position) (batch q flags : ℕ)
        → u < q → q < u + batch → is_of_lap n flags q ≡ true → IsSlots n driver d u v a w used old_used (Hidden batch)
        → IsSlots n driver d u v a (record w { flags = with_at w.flags (q % n) flags }) used old_used (Hidden batch) }
    ensures restored { (n : ℕ) (driver : DriverSlots) (d u v a : ℕ) (w : SlotWords) (used old_used : Position) (batch q flags : ℕ)
        → u ≤ q → q < u + batch → is_available flags (wrap_at n q) ≡ true → IsSlots n driver d u v a w used old_used (Hidden batch)
        → IsSlots n driver d u v a (record w { flags = with_at w.flags (q % n) flags }) used old_used (Hidden batch) }
    ensures shown { (n : ℕ) (driver : DriverSlots) (d u v a : ℕ) (w : SlotWords) (used old_used : Position) (batch flags : ℕ) (elements : List Element)
        → 0 < batch → slots_of elements ≡ batch → is_used flags (wrap_at n u) ≡ true
        → Shows n (record w { flags = with_at w.flags (u % n) flags }) u elements → IsSlots n driver d u v a w used old_used (Hidden batch)
        → IsSlots n (record driver { shown = driver.shown ++ elements }) d (u + batch) v a (record w { flags = with_at w.flags (u % n) flags }) used old_used (Shown batch) }
{}

/// What holds of the slots holds again as the used position moves over a batch, as it is noted once
/// the batch is shown, as it goes back where every slot of the batch is available again, and as the
/// first buffer that waits is accepted.
pub fn positions_move_over_the_slots()
    ensures moved { (n : ℕ) (driver : DriverSlots) (d u v a : ℕ) (w : SlotWords) (used moved old_used : Position) (batch : ℕ)
        → u + batch ≤ v → moved ≡ position_of n (u + batch) → IsSlots n driver d u v a w used old_used (Hidden 0)
        → IsSlots n driver d u v a w moved old_used (Hidden batch) }
    ensures noted { (n : ℕ) (driver : DriverSlots) (d u v a : ℕ) (w : SlotWords) (used old_used : Position) (batch : ℕ)
        → IsSlots n driver d u v a w used old_used (Shown batch) → IsSlots n driver d u v a w used used (Hidden 0) }
    ensures back { (n : ℕ) (driver : DriverSlots) (d u v a : ℕ) (w : SlotWords) (used old_used : Position) (batch : ℕ)
        → ((p : ℕ) → u ≤ p → p < u + batch → IsAvailable n w.flags p) → IsSlots n driver d u v a w used old_used (Hidden batch)
        → IsSlots n driver d u v a w old_used old_used (Hidden 0) }
    ensures accepted { (n : ℕ) (driver : DriverSlots) (d u v a : ℕ) (w : SlotWords) (used old_used : Position) (first : Buffer) (others : List Buffer)
        → driver.waiting ≡ first ∷ others → IsSlots n driver d u v a w used old_used (Hidden 0)
        → IsSlots n (record driver { waiting = others }) d u (v + first.slots) a w used old_used (Hidden 0) }
{}

/// Where that holds, the driver sees exactly the elements that are shown, and what waits is exactly
/// the buffers that are offered and not accepted.
pub fn what_stands_is_seen()
    ensures seen { (n : ℕ) (driver : DriverSlots) (u v a : ℕ) (w : SlotWords) (used old_used : Position) (stand : Stand) (sizes : ℕ → ℕ)
        → driver.known ≡ true → IsSized sizes driver.shown → IsSlots n driver driver.collected u v a w used old_used stand
        → elements_from n sizes w n driver.collected ≡ pairs_of driver.shown }
    ensures waiting { (n : ℕ) (driver : DriverSlots) (d u v a : ℕ) (w : SlotWords) (used old_used : Position) (stand : Stand)
        → IsSlots n driver d u v a w used old_used stand → buffers_from n w n v ≡ driver.waiting }
{}
