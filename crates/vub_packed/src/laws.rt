//! Laws of a ring's slots: what each store leaves of their words, and with them of what waits and of
//! what is seen.
ghost use Rattle.std.specs.Prelude.{◌≡◌, ◌<◌, ◌≤◌, ◌^◌, ℕ, ◌+◌, ◌%◌, List, [], ◌∷◌, ◌++◌, false, true};
ghost use Rattle.vub_base.specs.Positions.{is_used, wrap_at};
ghost use Rattle.vub_shared.specs.Bytes.{Bytes};
ghost use Rattle.vub_shared.specs.Stores.{Store, after_store};
ghost use Rattle.vub_slots.specs.Slots.{with_at, is_of_lap, Element, pairs_of};
ghost use Rattle.vub_slots.specs.Ring.{DescriptorRing, words_of, OffRing, buffer_at, waiting, waiting_end, seen, seen_end};
ghost use Rattle.vub_slots.specs.Stores.{len_store, id_store, flags_store, details_store, slot_store, FitsSlot};
ghost use Rattle.vub_packed.specs.Offers.{TakesSlots, offered, IsOffer, published, IsBatch};
ghost use Rattle.vub_packed.specs.declared.packed.PackedRing.{PackedRing};
ghost use Rattle.vub_packed.specs.declared.packed.PackedDesc.{PackedDesc};
ghost use Rattle.vub_packed.specs.Packed.{ring_of_packed, slot_in};

/// Each store into a slot changes the words that it stores and no other; a store elsewhere changes
/// none.
pub fn stores_change_one_word()
    ensures len { (r : DescriptorRing) (m : Bytes) (index len : ℕ) → index < r.size → len < 2 ^ 32
        → words_of r (after_store (len_store r index len) m) ≡ record (words_of r m) { len = with_at (words_of r m).len index len } }
    ensures id { (r : DescriptorRing) (m : Bytes) (index id : ℕ) → index < r.size → id < 2 ^ 16
        → words_of r (after_store (id_store r index id) m) ≡ record (words_of r m) { id = with_at (words_of r m).id index id } }
    ensures flags { (r : DescriptorRing) (m : Bytes) (index flags : ℕ) → index < r.size → flags < 2 ^ 16
        → words_of r (after_store (flags_store r index flags) m) ≡ record (words_of r m) { flags = with_at (words_of r m).flags index flags } }
    ensures details { (r : DescriptorRing) (m : Bytes) (index addr len id : ℕ) → index < r.size → FitsSlot addr len id 0
        → words_of r (after_store (details_store r index addr len id) m) ≡ record (words_of r m) {
          addr = with_at (words_of r m).addr index addr;
          len = with_at (words_of r m).len index len;
          id = with_at (words_of r m).id index id;
        } }
    ensures slot { (r : DescriptorRing) (m : Bytes) (index addr len id flags : ℕ) → index < r.size → FitsSlot addr len id flags
        → words_of r (after_store (slot_store r index addr len id flags) m) ≡ record {
          addr = with_at (words_of r m).addr index addr;
          len = with_at (words_of r m).len index len;
          id = with_at (words_of r m).id index id;
          flags = with_at (words_of r m).flags index flags;
        } }
    ensures elsewhere { (r : DescriptorRing) (m : Bytes) (st : Store) → OffRing r st → words_of r (after_store st m) ≡ words_of r m }
{}

/// The driver's store of the flags of the first slot that doesn't wait adds the buffer that begins
/// there at the end of what waits from a position on. Its stores of that slot without its flags and
/// of slots further on, each store of the device in a slot before, and a store that touches no byte
/// of the ring leave it.
pub fn offers_wait_in_order()
    ensures flags { (r : DescriptorRing) (m : Bytes) (from flags : ℕ) → IsOffer r m from flags
        → waiting r (offered r m from flags) from ≡ waiting r m from ++ buffer_at r (offered r m from flags) (waiting_end r m from) ∷ [] }
    ensures details { (r : DescriptorRing) (m : Bytes) (from p addr len id : ℕ) → waiting_end r m from ≤ p → p < from + r.size
        → waiting r (after_store (details_store r (p % r.size) addr len id) m) from ≡ waiting r m from }
    ensures slot { (r : DescriptorRing) (m : Bytes) (from p addr len id flags : ℕ) → waiting_end r m from < p → p < from + r.size
        → waiting r (after_store (slot_store r (p % r.size) addr len id flags) m) from ≡ waiting r m from }
    ensures used_len { (r : DescriptorRing) (m : Bytes) (from p len : ℕ) → p < from → waiting_end r m from ≤ p + r.size
        → waiting r (after_store (len_store r (p % r.size) len) m) from ≡ waiting r m from }
    ensures used_id { (r : DescriptorRing) (m : Bytes) (from p id : ℕ) → p < from → waiting_end r m from ≤ p + r.size
        → waiting r (after_store (id_store r (p % r.size) id) m) from ≡ waiting r m from }
    ensures used_flags { (r : DescriptorRing) (m : Bytes) (from p flags : ℕ) → p < from → waiting_end r m from ≤ p + r.size
        → flags < 2 ^ 16 → is_of_lap r.size flags p ≡ true
        → waiting r (after_store (flags_store r (p % r.size) flags) m) from ≡ waiting r m from }
    ensures elsewhere { (r : DescriptorRing) (m : Bytes) (st : Store) (from : ℕ) → OffRing r st → waiting r (after_store st m) from ≡ waiting r m from }
{}

/// The device's store of the flags of the first element adds exactly the batch that stands behind it
/// at the end of what is seen from a position on. The stores of elements that aren't seen yet, of
/// slots that are made available again, each store of the driver, and a store that touches no byte
/// of the ring leave it.
pub fn batches_are_seen_in_order()
    ensures flags { (sizes : ℕ → ℕ) (r : DescriptorRing) (m : Bytes) (from flags : ℕ) (batch : List Element) → TakesSlots sizes → IsBatch sizes r m from flags batch
        → seen sizes r (published sizes r m from flags) from ≡ seen sizes r m from ++ pairs_of batch }
    ensures len { (sizes : ℕ → ℕ) (r : DescriptorRing) (m : Bytes) (from p len : ℕ) → TakesSlots sizes → seen_end sizes r m from ≤ p → p < from + r.size
        → seen sizes r (after_store (len_store r (p % r.size) len) m) from ≡ seen sizes r m from }
    ensures id { (sizes : ℕ → ℕ) (r : DescriptorRing) (m : Bytes) (from p id : ℕ) → TakesSlots sizes → seen_end sizes r m from ≤ p → p < from + r.size
        → seen sizes r (after_store (id_store r (p % r.size) id) m) from ≡ seen sizes r m from }
    ensures other_flags { (sizes : ℕ → ℕ) (r : DescriptorRing) (m : Bytes) (from p flags : ℕ) → TakesSlots sizes → seen_end sizes r m from ≤ p → p < from + r.size
        → flags < 2 ^ 16 → (p ≡ seen_end sizes r m from → is_used flags (wrap_at r.size p) ≡ false)
        → seen sizes r (after_store (flags_store r (p % r.size) flags) m) from ≡ seen sizes r m from }
    ensures details { (sizes : ℕ → ℕ) (r : DescriptorRing) (m : Bytes) (from p addr len id : ℕ) → TakesSlots sizes → seen_end sizes r m from ≤ p → p < from + r.size
        → seen sizes r (after_store (details_store r (p % r.size) addr len id) m) from ≡ seen sizes r m from }
    ensures slot { (sizes : ℕ → ℕ) (r : DescriptorRing) (m : Bytes) (from p addr len id flags : ℕ) → TakesSlots sizes → seen_end sizes r m from ≤ p → p < from + r.size
        → flags < 2 ^ 16 → (p ≡ seen_end sizes r m from → is_used flags (wrap_at r.size p) ≡ false)
        → seen sizes r (after_store (slot_store r (p % r.size) addr len id flags) m) from ≡ seen sizes r m from }
    ensures elsewhere { (sizes : ℕ → ℕ) (r : DescriptorRing) (m : Bytes) (st : Store) (from : ℕ) → OffRing r st
        → seen sizes r (after_store st m) from ≡ seen sizes r m from }
{}

/// A packed ring is a descriptor ring: the slot of an index has the words of that index.
pub fn a_packed_ring_is_a_descriptor_ring()
    ensures { (r : PackedRing) (m : Bytes) (index : ℕ) → index < r.size
        → ((slot_in r m index).addr ≡ (words_of (ring_of_packed r) m).addr index) × ((slot_in r m index).len ≡ (words_of (ring_of_packed r) m).len index)
        × ((slot_in r m index).id ≡ (words_of (ring_of_packed r) m).id index) × ((slot_in r m index).flags ≡ (words_of (ring_of_packed r) m).flags index) }
{}
