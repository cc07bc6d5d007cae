//! The command line.
ghost use Rattle.std.specs.Prelude.{◌≡◌, ◌+◌, ◌<◌, ◌≤◌, ◌⊎◌, ℕ, length};
ghost use Rattle.vub_base.specs.Causes.{Rose};
ghost use Rattle.vub_base.specs.Told.{WhereTold};
ghost use Rattle.vub_schedule.specs.Spelling.{IsText};
ghost use Rattle.vub_schedule.specs.Faults.{IsFirstBad};
ghost use Rattle.vublk.specs.Flows.{Wrote, WrotePart, TakesAtMost, input_limit};
ghost use Rattle.vublk.specs.Words.{IsCommand, IsAccepted, Asks, usage_text};
ghost use Rattle.vublk.specs.Ends.{Replays, status_of};
ghost use Rattle.vublk.specs.Statuses.{IsUnlessFault, Refuses};
ghost use Rattle.vublk.specs.declared.replay.End.{End as Ended};

use crate::printing::put;
use crate::replay::{End, replay};
use crate::words::{Command, command_of};
use std::alloc::Global;
use vub_base::{Bell, Sink, Source};
use vub_disk::Disk;
use vub_shared::Shared;

const USAGE: &[u8] =
    b"usage: vublk replay|entries|bulk SEED COUNT|inspect FORMAT SIZE WORD|serve [--read-only] IMAGE NAME..\n";

fn status(end: End) -> u8
    ensures { result ≡ status_of end }
{
    match end {
        End::Done => 0,
        End::Memory => 3,
        End::ReadFault => 4,
        End::WriteFault => 5,
        End::BadLine(_) => 6,
        End::TooLong => 10,
    }
}

/// Writes the usage line.
fn refuse<O: Sink>(out: &mut O) -> u8
    ensures refuses { Refuses result (O.held out.old) (O.held out.new) }
    ensures failed { result ≡ 5 → Rose (O.faults out.old) (O.faults out.new) }
{
    match put(out, USAGE) {
        Ok(()) => 2,
        Err(_) => 5,
    }
}

/// All that the program does. `words` are those after its name, and the answer is its exit status.
///
/// `replay` reads a schedule from `input` and writes the records of its run to `out`, `entries` only
/// the history of the same run. All other words are refused with the usage line. The regions, the
/// disk and the bell are left as they are.
///
/// | Status | |
/// |---|---|
/// | 0 | done |
/// | 2 | the words are none that are accepted |
/// | 3 | want of memory |
/// | 4 | the source failed |
/// | 5 | the sink failed |
/// | 6 | a line is outside the grammar |
/// | 10 | the input has more than 16,777,216 bytes |
pub fn run<I: Source, O: Sink, M: Shared, D: Disk, B: Bell>(
    alloc: Global,
    words: &[String],
    input: &mut I,
    out: &mut O,
    regions: &mut M,
    disk: &mut D,
    bell: &mut B,
) -> u8
    // 0: the input spells a schedule and was read to its end, and the sink grew by what the command
    // writes of a run of it.
    ensures done { result ≡ 0 → Asks words.now (λ c. Replays c (I.left input.old) (I.left input.new) (O.held out.old) (O.held out.new) End.Done) }
    // 2: the words aren't accepted, and the sink grew by the usage line.
    ensures usage { result ≡ 2 → (IsAccepted words.now → ⊥) × Wrote (O.held out.old) (O.held out.new) usage_text }
    // 3: the sink grew by what the command writes of a run of the first events, or not at all.
    ensures memory { result ≡ 3 → Asks words.now (λ c. Replays c (I.left input.old) (I.left input.new) (O.held out.old) (O.held out.new) End.Memory) }
    // 4: the source failed, and the sink is as it was.
    ensures read { result ≡ 4 → IsAccepted words.now × Rose (I.faults input.old) (I.faults input.new) × (O.held out.new ≡ O.held out.old) }
    // 5: the sink failed, and grew by a front of what was to be written.
    ensures write { result ≡ 5 → Rose (O.faults out.old) (O.faults out.new) ×
        (Asks words.now (λ c. Replays c (I.left input.old) (I.left input.new) (O.held out.old) (O.held out.new) End.WriteFault)
        ⊎ ((IsAccepted words.now → ⊥) × WrotePart (O.held out.old) (O.held out.new) usage_text)) }
    // 6: the sink grew by the line that names the first bad line of the input.
    ensures bad { result ≡ 6 → Asks words.now (λ c. (n : ℕ) × Replays c (I.left input.old) (I.left input.new) (O.held out.old) (O.held out.new) (End.BadLine n)) }
    // 10: the input is too long, and the sink is as it was.
    ensures long { result ≡ 10 → Asks words.now (λ c. Replays c (I.left input.old) (I.left input.new) (O.held out.old) (O.held out.new) End.TooLong) }
    // With the words of a command it comes to one of its ends, and the status is that of the end.
    ensures accepted { (c : Command) → IsCommand c words.now → (e : Ended) × (result ≡ status_of e) × Replays c (I.left input.old) (I.left input.new) (O.held out.old) (O.held out.new) e }
    // With all other words the usage line was written, or a front of it where the sink failed.
    ensures refused { (IsAccepted words.now → ⊥) → Refuses result (O.held out.old) (O.held out.new) × (input.new ≡ input.old) }
    // A schedule is played to its end,
    ensures plays { IsAccepted words.now → WhereTold (I.left input.old) (λ text. IsText text → length text ≤ input_limit → IsUnlessFault 0 result) }
    // a bad line is found,
    ensures finds { IsAccepted words.now → WhereTold (I.left input.old) (λ text. (n : ℕ) → IsFirstBad text n → length text ≤ input_limit → IsUnlessFault 6 result) }
    // and an input that is too long is refused, but for want of memory and earlier faults.
    ensures measures { IsAccepted words.now → WhereTold (I.left input.old) (λ text. input_limit < length text → IsUnlessFault 10 result) }
    // Where neither the source nor the sink fails, a schedule is played to its end but for want of memory.
    ensures completes { IsAccepted words.now → WhereTold (I.left input.old) (λ text. IsText text → length text ≤ input_limit
        → (Rose (I.faults input.old) (I.faults input.new) → ⊥) → (Rose (O.faults out.old) (O.faults out.new) → ⊥) → (result ≡ 0) ⊎ (result ≡ 3)) }
    // At each status no more than one byte past the limit was taken from the source.
    ensures taken { TakesAtMost (input_limit + 1) (I.left input.old) (I.left input.new) }
    ensures regions { regions.new ≡ regions.old }
    ensures disk { disk.new ≡ disk.old }
    ensures bell { bell.new ≡ bell.old }
{
    match command_of(words) {
        Some(command) => status(replay(alloc, command, input, out)),
        None => refuse(out),
    }
}
