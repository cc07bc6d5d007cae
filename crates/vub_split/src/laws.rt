//! Laws of a ring's words: what each store leaves of them, and with them of what waits and of what
//! is seen.
ghost use Rattle.std.specs.Prelude.{◌≡◌, ◌<◌, ◌≤◌, ◌+◌, ◌%◌, ◌++◌, ◌∷◌, [], ℕ, List, length, get_or};
ghost use Rattle.byteorder.specs.Endian.{little_bytes};
ghost use Rattle.vub_shared.specs.Bytes.{Bytes};
ghost use Rattle.vub_shared.specs.Stores.{Store, one_store, after_store};
ghost use Rattle.vub_ring.specs.Ring.{Ring, ahead, avail_idx, head_at, used_idx, element_at, waiting, seen};
ghost use Rattle.vub_split.specs.declared.split.SplitRing.{SplitRing};
ghost use Rattle.vub_split.specs.Split as split;
ghost use Rattle.vub_split.specs.Split.{RingLies, ring_of_split};
ghost use Rattle.vub_split.specs.Stores.{avail_idx_store, avail_entry_store, used_idx_store, used_id_store, used_len_store};
ghost use Rattle.vub_split.specs.Words.{IsRingSize, RingFits, OffAvail, OffUsed, words_of, with_entry};

/// Each store into the rings changes its own word and no other; a store elsewhere changes none.
pub fn stores_change_one_word()
    ensures avail_idx { (r : Ring) (m : Bytes) (index : ℕ) → RingFits r → index < 65536
        → words_of r (after_store (avail_idx_store r index) m) ≡ record (words_of r m) { avail = index } }
    ensures avail_entry { (r : Ring) (m : Bytes) (index head : ℕ) → RingFits r → head < 65536
        → words_of r (after_store (avail_entry_store r index head) m) ≡ record (words_of r m) { heads = with_entry r index head (head_at r m) } }
    ensures used_idx { (r : Ring) (m : Bytes) (index : ℕ) → RingFits r → index < 65536
        → words_of r (after_store (used_idx_store r index) m) ≡ record (words_of r m) { used = index } }
    ensures used_id { (r : Ring) (m : Bytes) (index id : ℕ) → RingFits r → id < 4294967296
        → words_of r (after_store (used_id_store r index id) m) ≡ record (words_of r m) { elements = with_entry r index (id, (element_at r m index).1) (element_at r m) } }
    ensures used_len { (r : Ring) (m : Bytes) (index len : ℕ) → RingFits r → len < 4294967296
        → words_of r (after_store (used_len_store r index len) m) ≡ record (words_of r m) { elements = with_entry r index ((element_at r m index).0, len) (element_at r m) } }
    ensures elsewhere { (r : Ring) (m : Bytes) (st : Store) → RingFits r → OffAvail r st → OffUsed r st → words_of r (after_store st m) ≡ words_of r m }
{}

/// The driver's store of avail.idx adds the head in its entry at the end of what waits from a
/// position on. The store of that entry before it, each store of the device, and a store that
/// touches no byte of the avail ring leave it.
pub fn offers_wait_in_order()
    ensures index { (r : Ring) (m : Bytes) (from : ℕ) → length (waiting r m from) < 65535
        → waiting r (after_store (avail_idx_store r ((avail_idx r m + 1) % 65536)) m) from ≡ waiting r m from ++ head_at r m (avail_idx r m) ∷ [] }
    ensures entry { (r : Ring) (m : Bytes) (from head : ℕ) → IsRingSize r.size → length (waiting r m from) < r.size
        → waiting r (after_store (avail_entry_store r (avail_idx r m) head) m) from ≡ waiting r m from }
    ensures offer { (r : Ring) (m : Bytes) (from head : ℕ) → IsRingSize r.size → length (waiting r m from) < r.size → head < 65536
        → waiting r (after_store (avail_idx_store r ((avail_idx r m + 1) % 65536)) (after_store (avail_entry_store r (avail_idx r m) head) m)) from ≡ waiting r m from ++ head ∷ [] }
    ensures used_idx { (r : Ring) (m : Bytes) (from index : ℕ) → RingFits r → waiting r (after_store (used_idx_store r index) m) from ≡ waiting r m from }
    ensures used_id { (r : Ring) (m : Bytes) (from index id : ℕ) → RingFits r → waiting r (after_store (used_id_store r index id) m) from ≡ waiting r m from }
    ensures used_len { (r : Ring) (m : Bytes) (from index len : ℕ) → RingFits r → waiting r (after_store (used_len_store r index len) m) from ≡ waiting r m from }
    ensures elsewhere { (r : Ring) (m : Bytes) (st : Store) (from : ℕ) → 0 < r.size → OffAvail r st → waiting r (after_store st m) from ≡ waiting r m from }
{}

/// The device's store of used.idx adds exactly the batch that stands in the next elements at the
/// end of what is seen from a position on. The stores of elements that aren't seen yet, each store
/// of the driver, and a store that touches no byte of the used ring leave it.
pub fn batches_are_seen_in_order()
    ensures index { (r : Ring) (m : Bytes) (from : ℕ) (batch : List (ℕ × ℕ)) → length (seen r m from) + length batch < 65536
        → ((i : ℕ) → i < length batch → element_at r m (used_idx r m + i) ≡ get_or batch i (0, 0))
        → seen r (after_store (used_idx_store r ((used_idx r m + length batch) % 65536)) m) from ≡ seen r m from ++ batch }
    ensures id { (r : Ring) (m : Bytes) (from index id : ℕ) → IsRingSize r.size → length (seen r m from) ≤ ahead index from → ahead index from < r.size
        → seen r (after_store (used_id_store r index id) m) from ≡ seen r m from }
    ensures len { (r : Ring) (m : Bytes) (from index len : ℕ) → IsRingSize r.size → length (seen r m from) ≤ ahead index from → ahead index from < r.size
        → seen r (after_store (used_len_store r index len) m) from ≡ seen r m from }
    ensures avail_idx { (r : Ring) (m : Bytes) (from index : ℕ) → RingFits r → seen r (after_store (avail_idx_store r index) m) from ≡ seen r m from }
    ensures avail_entry { (r : Ring) (m : Bytes) (from index head : ℕ) → RingFits r → seen r (after_store (avail_entry_store r index head) m) from ≡ seen r m from }
    ensures elsewhere { (r : Ring) (m : Bytes) (st : Store) (from : ℕ) → 0 < r.size → OffUsed r st → seen r (after_store st m) from ≡ seen r m from }
{}

/// A split ring is a ring: its words are the ring's, and the device's stores are those of the laws
/// above.
pub fn a_split_ring_is_a_ring()
    ensures avail_idx { (r : SplitRing) (m : Bytes) → split.avail_idx_word r m ≡ avail_idx (ring_of_split r) m }
    ensures head { (sizes : ℕ → ℕ) (r : SplitRing) (m : Bytes) (index : ℕ) → RingLies sizes r → split.head_word r m index ≡ head_at (ring_of_split r) m index }
    ensures used_idx { (r : SplitRing) (m : Bytes) → split.used_idx_word r m ≡ used_idx (ring_of_split r) m }
    ensures used_idx_store { (r : SplitRing) (index : ℕ) → one_store r.used.0.number (split.used_idx_place r) (little_bytes 2 index) ≡ used_idx_store (ring_of_split r) index }
    ensures used_id_store { (sizes : ℕ → ℕ) (r : SplitRing) (index id : ℕ) → RingLies sizes r
        → one_store r.used.0.number (split.used_id_place r index) (little_bytes 4 id) ≡ used_id_store (ring_of_split r) index id }
    ensures used_len_store { (sizes : ℕ → ℕ) (r : SplitRing) (index len : ℕ) → RingLies sizes r
        → one_store r.used.0.number (split.used_len_place r index) (little_bytes 4 len) ≡ used_len_store (ring_of_split r) index len }
{}
