//! Laws of a region: what each store leaves of its words and of its open entries.
ghost use Rattle.std.specs.Prelude.{◌≡◌, ◌<◌, ◌+◌, ◌%◌, ◌++◌, ◌∷◌, [], ℕ, List, true, false};
ghost use Rattle.vub_base.specs.declared.reading.Reading.TheVariants.{Entries};
ghost use Rattle.vub_shared.specs.Bytes.{Bytes};
ghost use Rattle.vub_shared.specs.Stores.{Store, after_store};
ghost use Rattle.vub_device.specs.Past.{is_among};
ghost use Rattle.vub_inflight.specs.Entries.{entry_at, without_heads, heads_of};
ghost use Rattle.vub_inflight.specs.Links.{links};
ghost use Rattle.vub_infl_split.specs.declared.region.SplitRegion.{SplitRegion};
ghost use Rattle.vub_infl_split.specs.declared.region.SplitStore.{SplitStore};
ghost use Rattle.vub_infl_split.specs.declared.region.SplitStore.TheVariants.{SF1, SF2, SP3, SP4, SP6, SP7};
ghost use Rattle.vub_infl_split.specs.Readings.{counted, is_open, one_each, open_entries, split_reading, split_entries, unchecked_entries};
ghost use Rattle.vub_infl_split.specs.Region.{RegionWords, words_of, OffRegion};
ghost use Rattle.vub_infl_split.specs.Sound.{Sound};
ghost use Rattle.vub_infl_split.specs.Stores.{store_of, NamesEntry, ValueFits, words_after};

/// The store of each row changes the words that it names, and no other; a store that touches no byte
/// of the region changes none.
pub fn each_store_changes_its_words()
    ensures row { (r : SplitRegion) (step : SplitStore) (m : Bytes) → r.size < 65536 → NamesEntry r.size step → ValueFits step
        → words_of r (after_store (store_of r step) m) ≡ words_after r.size step (words_of r m) }
    ensures elsewhere { (r : SplitRegion) (m : Bytes) (st : Store) → OffRegion r st → words_of r (after_store st m) ≡ words_of r m }
{}

/// What the stores of a queue leave of the open entries, in the order of their counters. A fetch adds
/// its entry at the end, used.idx takes the linked batch out, and every other store leaves them.
pub fn stores_keep_the_open_entries()
    ensures count { (n used : ℕ) (w : RegionWords) (i counter : ℕ) → is_open used w i ≡ false → open_entries n used (words_after n (SF1 i counter) w) ≡ open_entries n used w }
    ensures accept { (n used : ℕ) (w : RegionWords) (i : ℕ) → i < n → w.used_idx ≡ used → used < 65536 → w.inflight i ≡ 0
        → ((j : ℕ) → j < n → is_open used w j ≡ true → w.counter j < w.counter i)
        → open_entries n used (words_after n (SF2 i) w) ≡ open_entries n used w ++ entry_at w.counter one_each i ∷ [] }
    ensures link { (n used : ℕ) (w : RegionWords) (i next : ℕ) → w.used_idx ≡ used → used < 65536 → open_entries n used (words_after n (SP3 i next) w) ≡ open_entries n used w }
    ensures last_batch_head { (n used : ℕ) (w : RegionWords) (head : ℕ) → w.used_idx ≡ used → used < 65536 → open_entries n used (words_after n (SP4 head) w) ≡ open_entries n used w }
    ensures show { (n used : ℕ) (w : RegionWords) (batch : ℕ) → w.used_idx ≡ used → used < 65536 → batch < 65536
        → open_entries n ((used + batch) % 65536) w ≡ without_heads (links w.next batch w.last_batch_head) (open_entries n used w) }
    ensures clear { (n used : ℕ) (w : RegionWords) (i : ℕ) → is_among (counted used w) i ≡ true → open_entries n used (words_after n (SP6 i) w) ≡ open_entries n used w }
    ensures note { (n used : ℕ) (w : RegionWords) → used < 65536 → ((i : ℕ) → is_among (counted used w) i ≡ true → w.inflight i ≡ 0)
        → open_entries n used (words_after n (SP7 used) w) ≡ open_entries n used w }
{}

/// A region is read as its entries exactly where it is sound: without damage, and with its heads in the
/// order of their counters.
pub fn a_sound_region_is_read()
    ensures sound { (r : SplitRegion) (m : Bytes) (used : ℕ) → ((s p : ℕ) → m s p < 256) → split_reading r.size used (words_of r m) ≡ Entries
        → Sound r.size used (heads_of (split_entries r.size used (words_of r m))) (words_of r m) }
    ensures reads { (n used : ℕ) (heads : List ℕ) (w : RegionWords) → Sound n used heads w → split_reading n used w ≡ Entries }
    ensures heads { (n used : ℕ) (heads : List ℕ) (w : RegionWords) → Sound n used heads w → heads_of (split_entries n used w) ≡ heads }
    ensures unchecked { (n used : ℕ) (heads : List ℕ) (w : RegionWords) → Sound n used heads w → unchecked_entries n used w ≡ open_entries n used w }
{}
