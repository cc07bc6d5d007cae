//! The counters of the entries in flight.
ghost use Rattle.std.specs.Prelude.{◌≡◌, ℕ, Bool, None};
ghost use Rattle.vub_base.specs.Pending.{sorted};
ghost use Rattle.vub_inflight.specs.Entries.{by_index, with_counter};
ghost use Rattle.vub_inflight.specs.Neighbours as neighbours;
ghost use Rattle.vub_inflight.specs.Readings as readings;

use vub_base::{Pending, PendingList, RegionFault};

/// What is wrong with the counters of entries in order of index; where nothing is, they are put in
/// order of counter.
pub fn bad_counter(entries: &mut PendingList) -> Option<RegionFault>
    ensures fault { (counter num : ℕ → ℕ) (is_open : ℕ → Bool) (n : ℕ) → entries.old.items ≡ by_index counter num is_open n → result ≡ readings.bad_counter entries.old.items }
    ensures sorted { result ≡ None → entries.new.items ≡ sorted entries.old.items }
    ensures same_room { entries.new.room ≡ entries.old.room }
{
    if let Some(head) = last_counter(entries.items()) {
        return Some(RegionFault::LastCounter(head));
    }
    entries.sort();
    twins(entries.items()).map(|(first, second)| RegionFault::SameCounter(first, second))
}

/// The first entry with the last counter.
fn last_counter(entries: &[Pending]) -> Option<u16>
    ensures { result ≡ with_counter 18446744073709551615 entries.now }
{
    entries
        .iter()
        .find(|entry| entry.counter == u64::MAX)
        .map(|entry| entry.head)
}

/// Of all neighbours with one counter those whose first head is lowest.
fn twins(entries: &[Pending]) -> Option<(u16, u16)>
    ensures { result ≡ neighbours.twins entries.now }
{
    let mut least = None;
    for i in 1..entries.len() {
        least = earlier(least, twin(&entries[i - 1], &entries[i]));
    }
    least
}

/// The heads of two entries, if they have one counter.
fn twin(first: &Pending, second: &Pending) -> Option<(u16, u16)>
    ensures { result ≡ neighbours.twin first.now second.now }
{
    (first.counter == second.counter).then_some((first.head, second.head))
}

/// The pair whose first head is lower.
fn earlier(a: Option<(u16, u16)>, b: Option<(u16, u16)>) -> Option<(u16, u16)>
    ensures { result ≡ neighbours.earlier a b }
{
    match (a, b) {
        (Some(first), Some(second)) if second.0 < first.0 => b,
        (None, _) => b,
        _ => a,
    }
}
