//! Laws of the in-flight region of a split queue, wherever it lies: each store leaves it as its phase
//! asks, with the heads of the requests that are open then.
ghost use Rattle.std.specs.Prelude.{◌≡◌, ◌≢◌, ◌<◌, ◌⊎◌, ◌+◌, ◌*◌, ◌%◌, ◌++◌, ◌∷◌, [], ℕ, List, length, filter, not, slice_index, None, true, false};
ghost use Rattle.vub_shared.specs.Bytes.{Bytes};
ghost use Rattle.vub_shared.specs.Stores.{Store, after_store};
ghost use Rattle.vub_device.specs.Past.{is_among};
ghost use Rattle.vub_device.specs.Places.{are_distinct};
ghost use Rattle.vub_steps.specs.declared.steps.Phase.{Phase};
ghost use Rattle.vub_steps.specs.declared.steps.Phase.TheVariants as phases;
ghost use Rattle.vub_steps.specs.declared.steps.Plan.{Plan};
ghost use Rattle.vub_steps.specs.Plans.{plan_of};
ghost use Rattle.vub_inflight.specs.Entries.{heads_of, next_counter};
ghost use Rattle.vub_inflight.specs.Links.{link_at};
ghost use Rattle.vub_infl_split.specs.declared.region.SplitRegion.{SplitRegion};
ghost use Rattle.vub_infl_split.specs.declared.region.SplitStore.TheVariants.{SI1, SI2, SI3, SR1, SR2, SF1, SF2, SP3, SP4, SP6, SP7};
ghost use Rattle.vub_infl_split.specs.Readings.{made_fault, open_entries, split_entries};
ghost use Rattle.vub_infl_split.specs.Region.{words_of, OffRegion};
ghost use Rattle.vub_infl_split.specs.Stores.{store_of};
ghost use Rattle.vub_region_facts.specs.Starts.{Left, InNew, InSettling, IsSettled, InStart};
ghost use Rattle.vub_region_facts.specs.Phases.{index_step, note_step, IsBatch, InLife, NotStarted};

/// A start begins with what a life can find. Each store of it leaves the region to the next one, for
/// the same open requests, and a start that is cut off anywhere leaves what a life can find.
pub fn a_start_keeps_the_open_requests()
    ensures begins { (r : SplitRegion) (used : ℕ) (heads : List ℕ) (base : ℕ) (m : Bytes) → used < 65536 → Left r.size used heads base (words_of r m) → InStart r.size used heads base (plan_of used (words_of r m)) 0 (words_of r m) }
    ensures features { (r : SplitRegion) (used : ℕ) (heads : List ℕ) (base : ℕ) (m : Bytes) → r.size < 65536 → InNew r.size used heads base 0 (words_of r m)
        → InNew r.size used heads base 1 (words_of r (after_store (store_of r SI1) m)) }
    ensures entry { (r : SplitRegion) (used : ℕ) (heads : List ℕ) (base i : ℕ) (m : Bytes) → r.size < 65536 → i < r.size → InNew r.size used heads base (i + 1) (words_of r m)
        → InNew r.size used heads base (i + 2) (words_of r (after_store (store_of r (SI2 i)) m)) }
    ensures header { (r : SplitRegion) (used : ℕ) (heads : List ℕ) (base : ℕ) (m : Bytes) → r.size < 65536 → used < 65536 → InNew r.size used heads base (r.size + 1) (words_of r m)
        → IsSettled r.size used heads (words_of r (after_store (store_of r (SI3 used)) m)) }
    ensures clear { (r : SplitRegion) (used : ℕ) (heads : List ℕ) (count done : ℕ) (m : Bytes) → r.size < 65536 → done < count → InSettling r.size used heads count done (words_of r m)
        → InSettling r.size used heads count (done + 1) (words_of r (after_store (store_of r (SR1 (link_at (words_of r m).next done (words_of r m).last_batch_head))) m)) }
    ensures note { (r : SplitRegion) (used : ℕ) (heads : List ℕ) (count : ℕ) (m : Bytes) → r.size < 65536 → used < 65536 → InSettling r.size used heads count count (words_of r m)
        → IsSettled r.size used heads (words_of r (after_store (store_of r (SR2 used)) m)) }
    ensures elsewhere { (r : SplitRegion) (used : ℕ) (heads : List ℕ) (base : ℕ) (plan : Plan) (phase : Phase) (m : Bytes) (st : Store) → OffRegion r st → NotStarted r.size used heads base plan phase (words_of r m)
        → NotStarted r.size used heads base plan phase (words_of r (after_store st m)) }
    ensures cut_off { (r : SplitRegion) (used : ℕ) (heads : List ℕ) (base : ℕ) (plan : Plan) (phase : Phase) (m : Bytes) → NotStarted r.size used heads base plan phase (words_of r m) → Left r.size used heads base (words_of r m) }
{}

/// Each store of a fetch and of a publication leaves the region to the next one. The head that is
/// fetched joins the open ones at SF2, those of a batch leave them at SP5, and no other store changes
/// them. A life that ends anywhere leaves what the next one can find.
pub fn a_life_keeps_the_open_requests()
    ensures begins { (r : SplitRegion) (used head : ℕ) (heads batch : List ℕ) (m : Bytes) → IsSettled r.size used heads (words_of r m)
        → InLife r.size used head (next_counter (open_entries r.size used (words_of r m))) heads batch phases.Rest (words_of r m) }
    ensures counter { (r : SplitRegion) (used head counter : ℕ) (heads batch : List ℕ) (m : Bytes) → r.size < 65536 → used < 65536 → head < r.size → is_among heads head ≡ false → counter < 18446744073709551615
        → InLife r.size used head counter heads batch (phases.Fetch 0) (words_of r m)
        → InLife r.size used head (counter + 1) heads batch (phases.Fetch 1) (words_of r (after_store (store_of r (SF1 head counter)) m)) }
    ensures accept { (r : SplitRegion) (used head next counter : ℕ) (heads batch : List ℕ) (m : Bytes) → r.size < 65536 → used < 65536 → InLife r.size used head counter heads batch (phases.Fetch 1) (words_of r m)
        → InLife r.size used next counter (heads ++ head ∷ []) batch phases.Rest (words_of r (after_store (store_of r (SF2 head)) m)) }
    ensures element { (r : SplitRegion) (used head counter : ℕ) (heads batch : List ℕ) (e done : ℕ) (m : Bytes) (st : Store) → e < length batch → (done ≡ 4 * e) ⊎ (done ≡ 4 * e + 1) → OffRegion r st
        → InLife r.size used head counter heads batch (phases.Publish done) (words_of r m)
        → InLife r.size used head counter heads batch (phases.Publish (done + 1)) (words_of r (after_store st m)) }
    ensures link { (r : SplitRegion) (used head counter : ℕ) (heads batch : List ℕ) (e : ℕ) (m : Bytes) → r.size < 65536 → used < 65536 → e < length batch → IsBatch r.size batch
        → InLife r.size used head counter heads batch (phases.Publish (4 * e + 2)) (words_of r m)
        → InLife r.size used head counter heads batch (phases.Publish (4 * e + 3)) (words_of r (after_store (store_of r (SP3 (slice_index batch e) (words_of r m).last_batch_head)) m)) }
    ensures last_batch_head { (r : SplitRegion) (used head counter : ℕ) (heads batch : List ℕ) (e : ℕ) (m : Bytes) → r.size < 65536 → used < 65536 → e < length batch → IsBatch r.size batch
        → InLife r.size used head counter heads batch (phases.Publish (4 * e + 3)) (words_of r m)
        → InLife r.size used head counter heads batch (phases.Publish (4 * e + 4)) (words_of r (after_store (store_of r (SP4 (slice_index batch e))) m)) }
    ensures used_idx { (r : SplitRegion) (used head next counter : ℕ) (heads batch : List ℕ) (m : Bytes) (st : Store) → r.size < 65536 → used < 65536 → IsBatch r.size batch → OffRegion r st
        → InLife r.size used head counter heads batch (phases.Publish (index_step batch)) (words_of r m)
        → InLife r.size ((used + length batch) % 65536) next counter (filter (λ (h : ℕ). not (is_among batch h)) heads) batch (phases.Publish (index_step batch + 1)) (words_of r (after_store st m)) }
    ensures clear { (r : SplitRegion) (used head counter : ℕ) (heads batch : List ℕ) (e : ℕ) (m : Bytes) → r.size < 65536 → e < length batch → IsBatch r.size batch
        → InLife r.size used head counter heads batch (phases.Publish (index_step batch + 1 + e)) (words_of r m)
        → InLife r.size used head counter heads batch (phases.Publish (index_step batch + 1 + (e + 1))) (words_of r (after_store (store_of r (SP6 (slice_index batch e))) m)) }
    ensures note { (r : SplitRegion) (used head counter : ℕ) (heads batch : List ℕ) (m : Bytes) → r.size < 65536 → used < 65536 → InLife r.size used head counter heads batch (phases.Publish (note_step batch)) (words_of r m)
        → InLife r.size used head counter heads batch (phases.Publish (note_step batch + 1)) (words_of r (after_store (store_of r (SP7 used)) m)) }
    ensures elsewhere { (r : SplitRegion) (used head counter : ℕ) (heads batch : List ℕ) (phase : Phase) (m : Bytes) (st : Store) → OffRegion r st → InLife r.size used head counter heads batch phase (words_of r m)
        → InLife r.size used head counter heads batch phase (words_of r (after_store st m)) }
    ensures ends { (r : SplitRegion) (used head counter base : ℕ) (heads batch : List ℕ) (phase : Phase) (m : Bytes) → InLife r.size used head counter heads batch phase (words_of r m) → Left r.size used heads base (words_of r m) }
{}

/// What a life leaves is read as its open requests, in the order of their acceptance, and without
/// damage: distinct entries that are in flight. Where the checks of a start find nothing, the region
/// is such a one.
pub fn what_a_life_leaves_is_read()
    ensures reads { (r : SplitRegion) (used : ℕ) (heads : List ℕ) (base : ℕ) (m : Bytes) → Left r.size used heads base (words_of r m) → heads_of (split_entries r.size used (words_of r m)) ≡ heads }
    ensures distinct { (r : SplitRegion) (used : ℕ) (heads : List ℕ) (base : ℕ) (m : Bytes) → Left r.size used heads base (words_of r m) → are_distinct heads ≡ true }
    ensures in_flight { (r : SplitRegion) (used : ℕ) (heads : List ℕ) (base h : ℕ) (m : Bytes) → Left r.size used heads base (words_of r m) → is_among heads h ≡ true → (h < r.size) × ((words_of r m).inflight h ≢ 0) }
    ensures undamaged { (r : SplitRegion) (used : ℕ) (heads : List ℕ) (base : ℕ) (m : Bytes) → Left r.size used heads base (words_of r m) → (words_of r m).version ≢ 0 → made_fault r.size used (words_of r m) ≡ None }
    ensures at_base { (r : SplitRegion) (used : ℕ) (heads : List ℕ) (base : ℕ) (m : Bytes) → Left r.size used heads base (words_of r m) → (words_of r m).version ≡ 0 → base ≡ used }
    ensures checked { (r : SplitRegion) (used base : ℕ) (m : Bytes) → ((s p : ℕ) → m s p < 256) → ((words_of r m).version ≡ 0 → base ≡ used) → ((words_of r m).version ≢ 0 → made_fault r.size used (words_of r m) ≡ None)
        → Left r.size used (heads_of (split_entries r.size used (words_of r m))) base (words_of r m) }
{}
