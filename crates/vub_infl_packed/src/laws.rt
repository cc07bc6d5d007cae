//! Laws of a region: what each store leaves of its words, what its positions say, and which heads it
//! lists.
ghost use Rattle.std.specs.Prelude.{◌≡◌, ◌<◌, ◌≤◌, ℕ, ◌&&◌, nat_lt, true};
ghost use Rattle.vub_base.specs.Positions.{advanced};
ghost use Rattle.vub_base.specs.declared.position.Position.{Position};
ghost use Rattle.vub_base.specs.declared.reading.Reading.TheVariants.{Entries};
ghost use Rattle.vub_shared.specs.Bytes.{Bytes};
ghost use Rattle.vub_shared.specs.Stores.{Store, after_store};
ghost use Rattle.vub_device.specs.Past.{is_among};
ghost use Rattle.vub_inflight.specs.Entries.{in_flight_but, heads_of, CountersRise};
ghost use Rattle.vub_infl_packed.specs.declared.region.PackedRegion.{PackedRegion};
ghost use Rattle.vub_infl_packed.specs.declared.store.PackedStore.{PackedStore};
ghost use Rattle.vub_infl_packed.specs.Readings.{distance, free_list, packed_reading, packed_entries};
ghost use Rattle.vub_infl_packed.specs.Region.{RegionWords, words_of, OffRegion};
ghost use Rattle.vub_infl_packed.specs.Stores.{store_of, NamesEntry, ValueFits, words_after};

/// The store of each row changes the words that it names, and no other; a store that touches no byte
/// of the region changes none.
pub fn each_store_changes_its_words()
    ensures row { (r : PackedRegion) (step : PackedStore) (m : Bytes) → r.size < 65536 → NamesEntry r.size step → ValueFits step
        → words_of r (after_store (store_of r step) m) ≡ words_after r.size step (words_of r m) }
    ensures elsewhere { (r : PackedRegion) (m : Bytes) (st : Store) → OffRegion r st → words_of r (after_store st m) ≡ words_of r m }
{}

/// A position is 0 to n slots past another exactly where it is the other one advanced by so many slots.
pub fn positions_are_so_many_slots_apart()
    ensures advanced { (n : ℕ) (old : Position) (by : ℕ) → old.index < n → by ≤ n → distance n old (advanced n old by) ≡ by }
    ensures distance { (n : ℕ) (old new : Position) → old.index < n → new.index < n → distance n old new ≤ n → advanced n old (distance n old new) ≡ new }
{}

/// A region that is read lists the heads in flight outside the free list that counts, each once, in
/// rising order of their counters.
pub fn the_open_heads_are_listed()
    ensures heads { (n flags : ℕ) (w : RegionWords) (i : ℕ) → packed_reading n flags w ≡ Entries
        → is_among (heads_of (packed_entries n flags w)) i ≡ (nat_lt i n && in_flight_but (free_list n flags w) w.inflight i) }
    ensures rising { (r : PackedRegion) (m : Bytes) (flags : ℕ) → ((s p : ℕ) → m s p < 256) → packed_reading r.size flags (words_of r m) ≡ Entries
        → CountersRise (packed_entries r.size flags (words_of r m)) }
{}
