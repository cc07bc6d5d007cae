//! Laws of all runs.
ghost use Rattle.std.specs.Prelude.{◌≡◌, ◌≢◌, ◌<◌, ℕ, ◌+◌, true, false, List, [], length, get_or, slice_index};
ghost use Rattle.std.specs.List.{AllByRecursion};
ghost use Rattle.vub_base.specs.declared.header.Header1.{Header1};
ghost use Rattle.vub_base.specs.declared.reading.Reading.TheVariants.{Damaged};
ghost use Rattle.vub_base.specs.declared.reading.RegionFault.{RegionFault};
ghost use Rattle.vub_driver.specs.Layout.{ring_of};
ghost use Rattle.vub_driver.specs.TableChain.{chain_in};
ghost use Rattle.vub_device.specs.Legal.{Legal};
ghost use Rattle.vub_device.specs.Past.{asked, accepted, offers, published, is_among, open_numbers};
ghost use Rattle.vub_schedule.specs.declared.types.Event.{Event};
ghost use Rattle.vub_schedule.specs.declared.types.Schedule.{Schedule};
ghost use Rattle.vub_schedule.specs.Spelling.{IsSchedule};
ghost use Rattle.vub_report.specs.declared.items.Item.{Item};
ghost use Rattle.vub_report.specs.declared.items.Record.{Record};
ghost use Rattle.vub_split.specs.declared.split.SplitRing.{SplitRing};
ghost use Rattle.vub_direct_chain.specs.ChainState.{IsRingOf, Meant};
ghost use Rattle.vub_run.specs.Moments.{Moment};
ghost use Rattle.vub_run.specs.Run.{Run, Stands, Plays};
ghost use Rattle.vub_run.specs.Tracking.{TracksAlways, reading_of};
ghost use Rattle.vub_report.specs.Entries.{IsEntry};
ghost use Rattle.vub_report.specs.Histories.{history_of};
ghost use Rattle.vub_run.specs.Lawful.{IsOutstanding, EveryStoreIsLawful};
ghost use Rattle.vub_run.specs.LegalRuns.{EveryDrainServes};
ghost use Rattle.vub_run.specs.Spared.{EveryAnswerIsSpared};
ghost use Rattle.vub_steps.specs.Readiness.{last_counter};

/// The history of every run of a schedule is legal: the device answers each request at most once,
/// and rightly. Memory tracks it after each item, a store taken together with the offer, the
/// acceptance or the publication that it makes.
pub fn every_run_is_legal()
    ensures legal { (s : Schedule) (records : List Record) → IsSchedule s → Run s records → Legal s.header.capacity s.header.mode (history_of records) }
    ensures tracked { (s : Schedule) (records : List Record) → IsSchedule s → Run s records → TracksAlways s.header records }
{}

/// Where a run leads, whatever was killed on the way, no in-flight region is damaged: the start of a
/// next life finds nothing wrong with it.
pub fn no_region_is_damaged()
    ensures { (h : Header1) (es : List Event) (rs : List Record) (m : Moment) (q : ℕ) (fault : RegionFault) → q < h.queues → Stands h es rs m → reading_of h q m.scene ≢ Damaged fault }
{}

/// The entries of every run of a schedule are of those that there are: no read or write is of no
/// sector, and none of a part of one.
pub fn every_entry_is_whole()
    ensures { (s : Schedule) (records : List Record) → IsSchedule s → Run s records → AllByRecursion IsEntry (history_of records) }
{}

/// Each store of a driver in every run of a schedule is lawful where it is made, by the history and
/// the memory before it: never of what the device may use, of a used ring, of another queue or of
/// requests in flight.
pub fn every_driver_store_is_lawful()
    ensures { (s : Schedule) (records : List Record) → IsSchedule s → Run s records → EveryStoreIsLawful s.header records }
{}

/// In every run of a schedule, each store that isn't a driver's leaves the buffer of every request
/// that is published and not collected as it was, in each queue.
pub fn every_answer_is_spared()
    ensures { (s : Schedule) (records : List Record) → IsSchedule s → Run s records → EveryAnswerIsSpared s.header records }
{}

/// Where a run leads, the descriptors that history keeps of a request that is offered and not
/// collected, as memory told them at the offer, are still the chain that stands in memory.
pub fn every_outstanding_chain_stands()
    ensures { (h : Header1) (es : List Event) (rs : List Record) (m : Moment) (q k : ℕ) → q < h.queues → Stands h es rs m → IsOutstanding q m.scene k
        → get_or (m.scene.descriptors q) k [] ≡ chain_in (ring_of q h.size) m.scene.memory (slice_index (m.scene.heads q) k) }
{}

/// In every run of a schedule of fewer events than there are counters a drain of an attached queue
/// serves it: after its record no request of the queue is open, and every offer is accepted. The
/// records tell whether it is attached.
pub fn every_drain_serves()
    ensures { (s : Schedule) (records : List Record) → IsSchedule s → Run s records → length s.events < last_counter → EveryDrainServes records }
{}

/// Every schedule of the grammar has a run, so that the law above says something of each.
pub fn every_schedule_runs()
    ensures { (s : Schedule) → IsSchedule s → (records : List Record) × Run s records }
{}

/// After a drain of an attached queue no request is open, and every offer is accepted, where fewer
/// events came before than there are counters.
pub fn every_drain_ends()
    ensures published { (h : Header1) (es : List Event) (rs : List Record) (m next : Moment) (items : List Item) (q : ℕ) → q < h.queues → Stands h es rs m → length es + 1 < last_counter → (m.lanes q).attached ≡ true
        → Plays h m (Event.Drain q) items next → open_numbers next.scene.past q ≡ [] }
    ensures accepted { (h : Header1) (es : List Event) (rs : List Record) (m next : Moment) (items : List Item) (q : ℕ) → q < h.queues → Stands h es rs m → length es + 1 < last_counter → (m.lanes q).attached ≡ true
        → Plays h m (Event.Drain q) items next → accepted next.scene.past q ≡ offers next.scene.past q }
{}

/// Where a run leads, guest memory means each request that is offered and not published, under the
/// head that its offer showed.
pub fn every_open_request_is_meant()
    ensures { (h : Header1) (es : List Event) (rs : List Record) (m : Moment) (sizes : ℕ → ℕ) (r : SplitRing) (q k : ℕ) → q < h.queues → Stands h es rs m → IsRingOf q sizes r h.size
        → k < length (m.scene.heads q) → is_among (published m.scene.past q) k ≡ false → Meant q sizes r m.scene.memory (slice_index (m.scene.heads q) k) (asked m.scene.past q k) }
{}
