//! Laws of the in-flight region of a packed queue and of its slots, by their words: each store of a
//! start and of a life leaves them as its next one asks, with the heads that are open.
ghost use Rattle.std.specs.Prelude.{◌≡◌, ◌≢◌, ◌≤◌, ◌<◌, ◌+◌, ◌++◌, ◌∷◌, ℕ, List, [], length, drop, reverse, filter, not, slice_index};
ghost use Rattle.vub_base.specs.Positions.{advanced};
ghost use Rattle.vub_base.specs.declared.position.Position.{Position};
ghost use Rattle.vub_device.specs.Past.{is_among};
ghost use Rattle.vub_slots.specs.Flags.{restored_flags, used_flags};
ghost use Rattle.vub_slots.specs.Slots.{SlotWords, Buffer, with_at};
ghost use Rattle.vub_slots.specs.Stands.{DriverSlots, Stand};
ghost use Rattle.vub_slots.specs.Stands.Stand.{Hidden};
ghost use Rattle.vub_infl_packed.specs.declared.store.PackedStore.TheVariants.{PI1, PI2, PI3, PI4, PI5, PR1, PR2, PR4, PR5, PR6, PF1, PF2, PF3, PF4, PF5, PF6, PF7, PF8, PF9, PP1, PP2, PP3, PP7, PP8, PP9};
ghost use Rattle.vub_infl_packed.specs.Readings.{open_entries};
ghost use Rattle.vub_infl_packed.specs.Region.{RegionWords, used, old_used};
ghost use Rattle.vub_infl_packed.specs.Stores.{words_after};
ghost use Rattle.vub_inflight.specs.Entries.{next_counter};
ghost use Rattle.vub_packed_facts.specs.Batches.{BatchStep, elements_of, head_at, place_at, stand_of_batch, InBatch};
ghost use Rattle.vub_packed_facts.specs.Batches.BatchStep.{Linked, AtPP2, AtPP4, AtPP5, AtPP6, Cleared, AtPP9};
ghost use Rattle.vub_packed_facts.specs.Chains.{chains, total};
ghost use Rattle.vub_packed_facts.specs.Found.{IsBatch};
ghost use Rattle.vub_packed_facts.specs.Left.{flags_at_old, IsLeft};
ghost use Rattle.vub_packed_facts.specs.Lives.{FetchStep, InFetch, IsAtRest};
ghost use Rattle.vub_packed_facts.specs.Lives.FetchStep.{AtPF1, AtPF2, AtPF3, Takes, AtPF5, AtPF6, AtPF7, AtPF8};
ghost use Rattle.vub_packed_facts.specs.News.{IsUnmade, Making, InNew, counting};
ghost use Rattle.vub_packed_facts.specs.News.Making.{Features, Frees, Links, Makes};
ghost use Rattle.vub_packed_facts.specs.Starts.{Stage, first_stage, stand_of, InRecovery, IsRecovered};
ghost use Rattle.vub_packed_facts.specs.Starts.Stage.{Commits, Notes, RollsBack, Agrees, Clears};

/// A start over a region that was made begins with what a life left. Each store of it leaves region and
/// slots to the next one, with the same free list and the same open heads, and a start that is cut off
/// anywhere leaves what a life can find. So one that is cut off as it commits ends as a commit, and one
/// that is cut off as it rolls back ends as a roll back.
pub fn a_start_keeps_the_open_heads()
    ensures begins { (n : ℕ) (driver : DriverSlots) (w : RegionWords) (s : SlotWords) (free heads : List ℕ) (stand : Stand) → IsLeft n driver w s free heads stand → InRecovery n driver w s free heads (first_stage n w s) }
    ensures commits { (n : ℕ) (driver : DriverSlots) (w : RegionWords) (s : SlotWords) (free heads : List ℕ) (slots : ℕ) → InRecovery n driver w s free heads (Commits slots)
        → InRecovery n driver (words_after n (PR1 w.free_head) w) s free heads (Notes slots) }
    ensures notes { (n : ℕ) (driver : DriverSlots) (w : RegionWords) (s : SlotWords) (free heads : List ℕ) (slots : ℕ) → InRecovery n driver w s free heads (Notes slots)
        → InRecovery n driver (words_after n (PR2 (used w)) w) s free heads (Clears w.free_head 0) }
    ensures rolls_back { (n : ℕ) (driver : DriverSlots) (w : RegionWords) (s : SlotWords) (free heads : List ℕ) (slots done flags : ℕ) → done < slots → InRecovery n driver w s free heads (RollsBack slots done)
        → InRecovery n driver w (record s { flags = with_at s.flags (advanced n (old_used w) done).index (restored_flags flags (advanced n (old_used w) done).wrap) }) free heads (RollsBack slots (done + 1)) }
    ensures rolled_back { (n : ℕ) (driver : DriverSlots) (w : RegionWords) (s : SlotWords) (free heads : List ℕ) (slots : ℕ) → InRecovery n driver w s free heads (RollsBack slots slots)
        → InRecovery n driver (words_after n (PR4 (old_used w)) w) s free heads Agrees }
    ensures agrees { (n : ℕ) (driver : DriverSlots) (w : RegionWords) (s : SlotWords) (free heads : List ℕ) → InRecovery n driver w s free heads Agrees
        → InRecovery n driver (words_after n (PR5 w.old_free_head) w) s free heads (Clears w.old_free_head 0) }
    ensures clears { (n : ℕ) (driver : DriverSlots) (w : RegionWords) (s : SlotWords) (free heads : List ℕ) (entry done : ℕ) → done < length free → InRecovery n driver w s free heads (Clears entry done)
        → InRecovery n driver (words_after n (PR6 entry) w) s free heads (Clears (w.next entry) (done + 1)) }
    ensures last_clear { (n : ℕ) (driver : DriverSlots) (w : RegionWords) (s : SlotWords) (free heads : List ℕ) (entry done : ℕ) → InRecovery n driver w s free heads (Clears entry done)
        → (entry ≡ n → done ≡ length free) × (entry ≢ n → done < length free) }
    ensures recovered { (n : ℕ) (driver : DriverSlots) (w : RegionWords) (s : SlotWords) (free heads : List ℕ) (entry : ℕ) → InRecovery n driver w s free heads (Clears entry (length free)) → IsRecovered n driver w s free heads }
    ensures cut_off { (n : ℕ) (driver : DriverSlots) (w : RegionWords) (s : SlotWords) (free heads : List ℕ) (stage : Stage) → InRecovery n driver w s free heads stage → IsLeft n driver w s free heads (stand_of stage) }
{}

/// A start makes a region that was never made, store by store. Until its last store nothing is kept
/// there, so a start that is cut off begins anew; that store leaves no request open.
pub fn a_start_makes_a_region()
    ensures begins { (n : ℕ) (driver : DriverSlots) (w : RegionWords) (s : SlotWords) (base : Position) → IsUnmade n driver w s base → InNew n driver w s base Features }
    ensures features { (n : ℕ) (driver : DriverSlots) (w : RegionWords) (s : SlotWords) (base : Position) → InNew n driver w s base Features → InNew n driver (words_after n PI1 w) s base (Frees 0) }
    ensures frees { (n : ℕ) (driver : DriverSlots) (w : RegionWords) (s : SlotWords) (base : Position) (entry : ℕ) → entry < n → InNew n driver w s base (Frees entry) → InNew n driver (words_after n (PI2 entry) w) s base (Links entry) }
    ensures links { (n : ℕ) (driver : DriverSlots) (w : RegionWords) (s : SlotWords) (base : Position) (entry : ℕ) → InNew n driver w s base (Links entry) → InNew n driver (words_after n (PI3 entry) w) s base (Frees (entry + 1)) }
    ensures placed { (n : ℕ) (driver : DriverSlots) (w : RegionWords) (s : SlotWords) (base : Position) → InNew n driver w s base (Frees n) → InNew n driver (words_after n (PI4 base) w) s base Makes }
    ensures made { (n : ℕ) (driver : DriverSlots) (w : RegionWords) (s : SlotWords) (base : Position) → InNew n driver w s base Makes → IsRecovered n driver (words_after n PI5 w) s (counting 0 n) [] }
    ensures cut_off { (n : ℕ) (driver : DriverSlots) (w : RegionWords) (s : SlotWords) (base : Position) (stage : Making) → InNew n driver w s base stage → IsUnmade n driver w s base }
{}

/// A life begins where a start ended, with a counter above those of the open heads. For the buffer that
/// waits first there are always entries enough, and each store of its fetch leaves region and slots to
/// the next one. Its head joins the open ones with the last store, and no other changes them.
pub fn a_fetch_keeps_the_open_heads()
    ensures life { (n : ℕ) (driver : DriverSlots) (w : RegionWords) (s : SlotWords) (free heads : List ℕ) → IsRecovered n driver w s free heads → IsAtRest n driver (next_counter (open_entries n (flags_at_old w s) w)) w s free heads }
    ensures begins { (n : ℕ) (driver : DriverSlots) (counter : ℕ) (buffer : Buffer) (w : RegionWords) (s : SlotWords) (free heads : List ℕ) → driver.waiting ≡ buffer ∷ drop 1 driver.waiting → IsAtRest n driver counter w s free heads
        → InFetch n driver buffer counter w s free heads (AtPF1 w.old_free_head) }
    ensures pf1 { (n : ℕ) (driver : DriverSlots) (buffer : Buffer) (counter : ℕ) (w : RegionWords) (s : SlotWords) (free heads : List ℕ) (head : ℕ) → InFetch n driver buffer counter w s free heads (AtPF1 head)
        → InFetch n driver buffer counter (words_after n (PF1 head) w) s free heads (AtPF2 head) }
    ensures pf2 { (n : ℕ) (driver : DriverSlots) (buffer : Buffer) (counter : ℕ) (w : RegionWords) (s : SlotWords) (free heads : List ℕ) (head : ℕ) → InFetch n driver buffer counter w s free heads (AtPF2 head)
        → InFetch n driver buffer (counter + 1) (words_after n (PF2 head counter) w) s free heads (AtPF3 head) }
    ensures pf3 { (n : ℕ) (driver : DriverSlots) (buffer : Buffer) (counter : ℕ) (w : RegionWords) (s : SlotWords) (free heads : List ℕ) (head : ℕ) → InFetch n driver buffer counter w s free heads (AtPF3 head)
        → InFetch n driver buffer counter (words_after n (PF3 head) w) s free heads (Takes head 0) }
    ensures pf4 { (n : ℕ) (driver : DriverSlots) (buffer : Buffer) (counter : ℕ) (w : RegionWords) (s : SlotWords) (free heads : List ℕ) (head taken : ℕ) → taken + 1 ≡ buffer.slots → InFetch n driver buffer counter w s free heads (Takes head taken)
        → InFetch n driver buffer counter (words_after n (PF4 head w.free_head) w) s free heads (AtPF5 head taken) }
    ensures no_pf4 { (n : ℕ) (driver : DriverSlots) (buffer : Buffer) (counter : ℕ) (w : RegionWords) (s : SlotWords) (free heads : List ℕ) (head taken : ℕ) → taken + 1 < buffer.slots → InFetch n driver buffer counter w s free heads (Takes head taken)
        → InFetch n driver buffer counter w s free heads (AtPF5 head taken) }
    ensures pf5 { (n : ℕ) (driver : DriverSlots) (buffer : Buffer) (counter : ℕ) (w : RegionWords) (s : SlotWords) (free heads : List ℕ) (head taken : ℕ) → InFetch n driver buffer counter w s free heads (AtPF5 head taken)
        → InFetch n driver buffer counter (words_after n (PF5 head (taken + 1)) w) s free heads (AtPF6 head taken) }
    ensures pf6 { (n : ℕ) (driver : DriverSlots) (buffer : Buffer) (counter : ℕ) (w : RegionWords) (s : SlotWords) (free heads : List ℕ) (head taken addr : ℕ) → InFetch n driver buffer counter w s free heads (AtPF6 head taken)
        → InFetch n driver buffer counter (words_after n (PF6 w.free_head addr) w) s free heads (AtPF7 head taken) }
    ensures pf7 { (n : ℕ) (driver : DriverSlots) (buffer : Buffer) (counter : ℕ) (w : RegionWords) (s : SlotWords) (free heads : List ℕ) (head taken flags len : ℕ) → InFetch n driver buffer counter w s free heads (AtPF7 head taken)
        → InFetch n driver buffer counter (words_after n (PF7 w.free_head buffer.id flags len) w) s free heads (AtPF8 head taken) }
    ensures pf8 { (n : ℕ) (driver : DriverSlots) (buffer : Buffer) (counter : ℕ) (w : RegionWords) (s : SlotWords) (free heads : List ℕ) (head taken : ℕ) → InFetch n driver buffer counter w s free heads (AtPF8 head taken)
        → InFetch n driver buffer counter (words_after n (PF8 (w.next w.free_head)) w) s free heads (Takes head (taken + 1)) }
    ensures accept { (n : ℕ) (driver : DriverSlots) (buffer : Buffer) (counter : ℕ) (w : RegionWords) (s : SlotWords) (free heads : List ℕ) (head : ℕ) → counter ≤ 18446744073709551615 → InFetch n driver buffer counter w s free heads (Takes head buffer.slots)
        → IsAtRest n (record driver { waiting = drop 1 driver.waiting }) counter (words_after n (PF9 w.free_head) w) s (drop buffer.slots free) (heads ++ head ∷ []) }
    ensures cut_off { (n : ℕ) (driver : DriverSlots) (buffer : Buffer) (counter : ℕ) (w : RegionWords) (s : SlotWords) (free heads : List ℕ) (step : FetchStep) → InFetch n driver buffer counter w s free heads step → IsLeft n driver w s free heads (Hidden 0) }
    ensures cut_at_rest { (n : ℕ) (driver : DriverSlots) (counter : ℕ) (w : RegionWords) (s : SlotWords) (free heads : List ℕ) → IsAtRest n driver counter w s free heads → IsLeft n driver w s free heads (Hidden 0) }
{}

/// Each store of a publication leaves region and slots to the next one. The flags of the first element
/// take the heads of the batch out of the open ones and show its elements to the driver; no other store
/// changes either.
pub fn a_publication_keeps_the_open_heads()
    ensures begins { (n : ℕ) (driver : DriverSlots) (counter : ℕ) (w : RegionWords) (s : SlotWords) (free heads batch : List ℕ) (lens : ℕ → ℕ) → IsBatch batch heads → IsAtRest n driver counter w s free heads
        → InBatch n driver counter w s free heads batch lens (Linked 0) }
    ensures pp1 { (n : ℕ) (driver : DriverSlots) (counter : ℕ) (w : RegionWords) (s : SlotWords) (free heads batch : List ℕ) (lens : ℕ → ℕ) (done : ℕ) → done < length batch → InBatch n driver counter w s free heads batch lens (Linked done)
        → InBatch n driver counter (words_after n (PP1 (w.last (slice_index batch done)) w.free_head) w) s free heads batch lens (AtPP2 done) }
    ensures pp2 { (n : ℕ) (driver : DriverSlots) (counter : ℕ) (w : RegionWords) (s : SlotWords) (free heads batch : List ℕ) (lens : ℕ → ℕ) (done : ℕ) → InBatch n driver counter w s free heads batch lens (AtPP2 done)
        → InBatch n driver counter (words_after n (PP2 (slice_index batch done)) w) s free heads batch lens (Linked (done + 1)) }
    ensures pp3 { (n : ℕ) (driver : DriverSlots) (counter : ℕ) (w : RegionWords) (s : SlotWords) (free heads batch : List ℕ) (lens : ℕ → ℕ) → InBatch n driver counter w s free heads batch lens (Linked (length batch))
        → InBatch n driver counter (words_after n (PP3 (advanced n (used w) (total w.num batch)) (old_used w)) w) s free heads batch lens (AtPP4 0) }
    ensures pp4 { (n : ℕ) (driver : DriverSlots) (counter : ℕ) (w : RegionWords) (s : SlotWords) (free heads batch : List ℕ) (lens : ℕ → ℕ) (shown : ℕ) → InBatch n driver counter w s free heads batch lens (AtPP4 shown)
        → InBatch n driver counter w (record s { len = with_at s.len (place_at n w batch shown).index (lens (head_at batch shown)) }) free heads batch lens (AtPP5 shown) }
    ensures pp5 { (n : ℕ) (driver : DriverSlots) (counter : ℕ) (w : RegionWords) (s : SlotWords) (free heads batch : List ℕ) (lens : ℕ → ℕ) (shown : ℕ) → InBatch n driver counter w s free heads batch lens (AtPP5 shown)
        → InBatch n driver counter w (record s { id = with_at s.id (place_at n w batch shown).index (w.id (w.last (head_at batch shown))) }) free heads batch lens (AtPP6 shown) }
    ensures pp6 { (n : ℕ) (driver : DriverSlots) (counter : ℕ) (w : RegionWords) (s : SlotWords) (free heads batch : List ℕ) (lens : ℕ → ℕ) (shown : ℕ) → shown + 1 < length batch → InBatch n driver counter w s free heads batch lens (AtPP6 shown)
        → InBatch n driver counter w (record s { flags = with_at s.flags (place_at n w batch shown).index (used_flags (place_at n w batch shown).wrap) }) free heads batch lens (AtPP4 (shown + 1)) }
    ensures publish { (n : ℕ) (driver : DriverSlots) (counter : ℕ) (w : RegionWords) (s : SlotWords) (free heads batch : List ℕ) (lens : ℕ → ℕ) (shown : ℕ) → shown + 1 ≡ length batch → InBatch n driver counter w s free heads batch lens (AtPP6 shown)
        → InBatch n (record driver { shown = driver.shown ++ elements_of w lens batch }) counter w (record s { flags = with_at s.flags (place_at n w batch shown).index (used_flags (place_at n w batch shown).wrap) })
        (chains w.next w.num (reverse batch) ++ free) (filter (λ (h : ℕ). not (is_among batch h)) heads) batch lens (Cleared 0) }
    ensures pp7 { (n : ℕ) (driver : DriverSlots) (counter : ℕ) (w : RegionWords) (s : SlotWords) (free heads batch : List ℕ) (lens : ℕ → ℕ) (done : ℕ) → done < length batch → InBatch n driver counter w s free heads batch lens (Cleared done)
        → InBatch n driver counter (words_after n (PP7 (slice_index batch done)) w) s free heads batch lens (Cleared (done + 1)) }
    ensures pp8 { (n : ℕ) (driver : DriverSlots) (counter : ℕ) (w : RegionWords) (s : SlotWords) (free heads batch : List ℕ) (lens : ℕ → ℕ) → InBatch n driver counter w s free heads batch lens (Cleared (length batch))
        → InBatch n driver counter (words_after n (PP8 w.free_head) w) s free heads batch lens AtPP9 }
    ensures pp9 { (n : ℕ) (driver : DriverSlots) (counter : ℕ) (w : RegionWords) (s : SlotWords) (free heads batch : List ℕ) (lens : ℕ → ℕ) → InBatch n driver counter w s free heads batch lens AtPP9
        → IsAtRest n driver counter (words_after n (PP9 (used w)) w) s free heads }
    ensures cut_off { (n : ℕ) (driver : DriverSlots) (counter : ℕ) (w : RegionWords) (s : SlotWords) (free heads batch : List ℕ) (lens : ℕ → ℕ) (step : BatchStep) → InBatch n driver counter w s free heads batch lens step
        → IsLeft n driver w s free heads (stand_of_batch (total w.num batch) step) }
{}
