//! What holds of all schedules and their texts.
ghost use Rattle.std.specs.Prelude.{◌≡◌, ℕ, List, ◌⊎◌};
ghost use Rattle.vub_schedule.specs.declared.types.Schedule.{Schedule};
ghost use Rattle.vub_schedule.specs.Spelling.{spelling, IsSchedule, IsText};
ghost use Rattle.vub_schedule.specs.Faults.{IsFirstBad};

/// No two schedules of the grammar have the same text.
pub fn one_text_one_schedule()
    ensures { (s t : Schedule) → IsSchedule s → IsSchedule t → spelling s ≡ spelling t → s ≡ t }
{}

/// Bytes are the text of a schedule of the grammar or have a first line outside it, not both, and
/// there is only one such line.
pub fn one_first_bad_line()
    ensures either { (bytes : List ℕ) → IsText bytes ⊎ ((n : ℕ) × IsFirstBad bytes n) }
    ensures not_both { (bytes : List ℕ) (n : ℕ) → IsFirstBad bytes n → IsText bytes → ⊥ }
    ensures one { (bytes : List ℕ) (m n : ℕ) → IsFirstBad bytes m → IsFirstBad bytes n → m ≡ n }
{}
