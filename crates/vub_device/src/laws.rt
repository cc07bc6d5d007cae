//! Laws of every legal history.
ghost use Rattle.std.specs.Prelude.{ℕ, ◌≤◌, List, [], ◌∷◌, ◌++◌, reverse};
ghost use Rattle.vub_base.specs.declared.header.CacheMode.{CacheMode};
ghost use Rattle.vub_base.specs.declared.header.CacheMode.TheVariants.{Through};
ghost use Rattle.vub_device.specs.Durable.{AnswersWrite, AnswersFlush, WritesSector, NoPower, Outlives};
ghost use Rattle.vub_device.specs.Legal.{Legal, after};
ghost use Rattle.vub_device.specs.Past.{IsDistinct, offers, published};
ghost use Rattle.vub_device.specs.declared.entry.Answered.{Answered};
ghost use Rattle.vub_device.specs.declared.entry.Entry.{Entry};
ghost use Rattle.vub_device.specs.declared.entry.Entry.TheVariants.{Publish, Power};
ghost use Rattle.vub_device.specs.declared.entry.SectorValue.{SectorValue};

/// No request of a queue is published twice between two power stops.
pub fn published_once()
    ensures { (capacity : ℕ) (mode : CacheMode) (history : List Entry) (queue : ℕ)
        → Legal capacity mode history
        → IsDistinct (published (reverse history) queue) }
{}

/// Each front of a legal history is legal.
pub fn each_front_is_legal()
    ensures { (capacity : ℕ) (mode : CacheMode) (front rest : List Entry)
        → Legal capacity mode (front ++ rest)
        → Legal capacity mode front }
{}

/// A write is answered with status 0, a flush that is offered after this is answered with status 0, and
/// then comes a power stop, the first since: each sector of the write then holds what the write's last
/// act wrote there, or what a later act did (VIRTIO 1.2, 5.2.6). `before` is all before the answer to
/// the write, `between` what stands between the two answers, `later` what stands behind both.
pub fn a_flushed_write_outlives_a_power_stop()
    ensures { (capacity : ℕ) (mode : CacheMode) (before between later : List Entry) (image : List SectorValue)
        (queue number : ℕ) (answers : List Answered) (start : ℕ) (bytes : List ℕ) (flush_queue flush : ℕ) (flushed : List Answered)
        → Legal capacity mode (before ++ (Publish queue answers ∷ (between ++ (Publish flush_queue flushed ∷ (later ++ (Power image ∷ []))))))
        → NoPower between → NoPower later
        → AnswersWrite (after [] before) queue answers number start bytes
        → offers (after [] before) flush_queue ≤ flush
        → AnswersFlush (after [] (before ++ (Publish queue answers ∷ between))) flush_queue flushed flush
        → (sector : ℕ) → WritesSector start bytes sector
        → Outlives (after [] (before ++ (Publish queue answers ∷ (between ++ (Publish flush_queue flushed ∷ later))))) queue number sector image }
{}

/// Of a device that doesn't cache writes the same holds from the answer to the write on, without a
/// flush.
pub fn an_uncached_write_outlives_a_power_stop()
    ensures { (capacity : ℕ) (before later : List Entry) (image : List SectorValue)
        (queue number : ℕ) (answers : List Answered) (start : ℕ) (bytes : List ℕ)
        → Legal capacity Through (before ++ (Publish queue answers ∷ (later ++ (Power image ∷ []))))
        → NoPower later
        → AnswersWrite (after [] before) queue answers number start bytes
        → (sector : ℕ) → WritesSector start bytes sector
        → Outlives (after [] (before ++ (Publish queue answers ∷ later))) queue number sector image }
{}
