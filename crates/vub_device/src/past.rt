//! What has happened since the last power stop, found by going back over the entries.
ghost use Rattle.std.specs.Prelude.{◌≡◌, ◌≤◌, ◌+◌, ◌&&◌, ◌↔◌, ◌≢◌, ◌++◌, IsTrue, MatchOption, List, ℕ, length, reverse};
ghost use Rattle.std.specs.Option.{option_copied};
ghost use Rattle.vub_device.specs.Past.{offers, asked, accepted, published, numbers, is_among};
ghost use Rattle.vub_device.specs.Past.{collected, missing_below, started, looks, bytes_read, acts, synced};
ghost use Rattle.vub_device.specs.Past.{faulted};
ghost use Rattle.vub_device.specs.Places.{place_of, or_later};

use crate::entry::{Answered, Asked, Entry};
use vub_base::standard::SECTOR_SIZE;

/// How many requests were offered on a queue since the last power stop.
pub(crate) fn offers(past: &[Entry], queue: u16) -> usize
    ensures is { result ≡ offers (reverse past.now) queue }
    ensures few { result ≤ length past.now }
{
    match past {
        [] | [.., Entry::Power(_)] => 0,
        [earlier @ .., Entry::Offer(other, _)] => {
            offers(earlier, queue) + usize::from(*other == queue)
        }
        [earlier @ .., _] => offers(earlier, queue),
    }
}

/// The request that was offered under a number.
pub(crate) fn asked(past: &[Entry], queue: u16, number: u64) -> Option<&Asked>
    ensures { option_copied result ≡ asked (reverse past.now) queue number }
{
    match past {
        [] | [.., Entry::Power(_)] => None,
        [earlier @ .., Entry::Offer(other, request)] => {
            if *other == queue && offers(earlier, queue) as u64 == number {
                Some(request)
            } else {
                asked(earlier, queue, number)
            }
        }
        [earlier @ .., _] => asked(earlier, queue, number),
    }
}

/// How many requests of a queue were accepted.
pub(crate) fn accepted(past: &[Entry], queue: u16) -> usize
    ensures is { result ≡ accepted (reverse past.now) queue }
    ensures few { result ≤ length past.now }
{
    match past {
        [] | [.., Entry::Power(_)] => 0,
        [earlier @ .., Entry::Accept(other, _)] => {
            accepted(earlier, queue) + usize::from(*other == queue)
        }
        [earlier @ .., _] => accepted(earlier, queue),
    }
}

/// How many answers of a queue were collected.
pub(crate) fn collected(past: &[Entry], queue: u16) -> usize
    ensures is { result ≡ collected (reverse past.now) queue }
    ensures few { result ≤ length past.now }
{
    match past {
        [] | [.., Entry::Power(_)] => 0,
        [earlier @ .., Entry::Collect(other, _)] => {
            collected(earlier, queue) + usize::from(*other == queue)
        }
        [earlier @ .., _] => collected(earlier, queue),
    }
}

/// Whether a queue was started since the last kill or power stop.
pub(crate) fn started(past: &[Entry], queue: u16) -> bool
    ensures { result ≡ started (reverse past.now) queue }
{
    match past {
        [] | [.., Entry::Kill | Entry::Power(_)] => false,
        [earlier @ .., Entry::Start(other, _)] => *other == queue || started(earlier, queue),
        [earlier @ .., _] => started(earlier, queue),
    }
}

/// How many sectors were read for a request since its queue's last start.
pub(crate) fn looks(past: &[Entry], queue: u16, number: u64) -> usize
    ensures is { result ≡ looks (reverse past.now) queue number }
    ensures few { result ≤ length past.now }
{
    match past {
        [] | [.., Entry::Power(_)] => 0,
        [earlier @ .., Entry::Look(other, other_number, _, _)] => {
            let same = *other == queue && *other_number == number;
            looks(earlier, queue, number) + usize::from(same)
        }
        [.., Entry::Start(other, _)] if *other == queue => 0,
        [earlier @ .., _] => looks(earlier, queue, number),
    }
}

/// How many sectors were written for a request since its queue's last start.
pub(crate) fn acts(past: &[Entry], queue: u16, number: u64) -> usize
    ensures is { result ≡ acts (reverse past.now) queue number }
    ensures few { result ≤ length past.now }
{
    match past {
        [] | [.., Entry::Power(_)] => 0,
        [earlier @ .., Entry::Act(other, other_number, _, _)] => {
            let same = *other == queue && *other_number == number;
            acts(earlier, queue, number) + usize::from(same)
        }
        [.., Entry::Start(begun, _)] if *begun == queue => 0,
        [earlier @ .., _] => acts(earlier, queue, number),
    }
}

/// Whether all was made stable for a request since its queue's last start.
pub(crate) fn synced(past: &[Entry], queue: u16, number: u64) -> bool
    ensures { result ≡ synced (reverse past.now) queue number }
{
    match past {
        [] | [.., Entry::Power(_)] => false,
        [earlier @ .., Entry::Sync(other, other_number)] => {
            (*other == queue && *other_number == number) || synced(earlier, queue, number)
        }
        [.., Entry::Start(other, _)] if *other == queue => false,
        [earlier @ .., _] => synced(earlier, queue, number),
    }
}

/// Whether a call of the disk failed for a request since its queue's last start.
pub(crate) fn faulted(past: &[Entry], queue: u16, number: u64) -> bool
    ensures { result ≡ faulted (reverse past.now) queue number }
{
    match past {
        [] | [.., Entry::Power(_)] => false,
        [earlier @ .., Entry::Fault(other, other_number)] => {
            (*other == queue && *other_number == number) || faulted(earlier, queue, number)
        }
        [.., Entry::Start(other, _)] if *other == queue => false,
        [earlier @ .., _] => faulted(earlier, queue, number),
    }
}

/// Whether these answers answer a number.
pub(crate) fn answers_number(answers: &[Answered], number: u64) -> bool
    ensures { result ≡ is_among (numbers answers.now) number }
{
    match answers {
        [] => false,
        [first, rest @ ..] => first.number == number || answers_number(rest, number),
    }
}

/// Whether a number was published.
#[tactic(auto, using(crate::proofs::Numbers::is_among_append))]
pub(crate) fn is_published(past: &[Entry], queue: u16, number: u64) -> bool
    ensures { result ≡ is_among (published (reverse past.now) queue) number }
{
    match past {
        [] | [.., Entry::Power(_)] => false,
        [earlier @ .., Entry::Publish(other, answers)] => {
            is_published(earlier, queue, number)
                || (*other == queue && answers_number(answers.items(), number))
        }
        [earlier @ .., _] => is_published(earlier, queue, number),
    }
}

/// The published number in this place, or else how far the place lies past the last.
#[tactic(auto, using(crate::proofs::Numbers::place_of_append))]
pub(crate) fn published_at(past: &[Entry], queue: u16, index: usize) -> Result<u64, usize>
    ensures { result ≡ place_of (published (reverse past.now) queue) index }
{
    match past {
        [] | [.., Entry::Power(_)] => Err(index),
        [earlier @ .., Entry::Publish(other, answers)] => {
            let found = published_at(earlier, queue, index);
            if *other == queue {
                or_later(found, answers.items())
            } else {
                found
            }
        }
        [earlier @ .., _] => published_at(earlier, queue, index),
    }
}

/// What was found, or else the number in the place that was left.
#[tactic(auto, unfolding(crate::specs::Places::or_later))]
fn or_later(found: Result<u64, usize>, answers: &[Answered]) -> Result<u64, usize>
    ensures { result ≡ or_later found (numbers answers.now) }
{
    match found {
        Ok(number) => Ok(number),
        Err(left) => number_at(answers, left),
    }
}

/// The number that the answer in this place answers, or else how far the place lies past the last.
fn number_at(answers: &[Answered], index: usize) -> Result<u64, usize>
    ensures { result ≡ place_of (numbers answers.now) index }
{
    match answers {
        [] => Err(index),
        [first, ..] if index == 0 => Ok(first.number),
        [_, rest @ ..] => number_at(rest, index - 1),
    }
}

/// Whether a list is that of the unpublished numbers below this one, rising.
pub(crate) fn lists_open(past: &[Entry], queue: u16, below: usize, list: &[u64]) -> bool
    ensures { IsTrue result ↔ (list.now ≡ missing_below (published (reverse past.now) queue) below) }
{
    if below == 0 {
        return list.is_empty();
    }
    let number = below - 1;
    if is_published(past, queue, number as u64) {
        return lists_open(past, queue, number, list);
    }
    match list {
        [front @ .., last] => *last == number as u64 && lists_open(past, queue, number, front),
        [] => false,
    }
}

/// The bytes before a value that they end with. None where they don't.
fn without_end<'a>(bytes: &'a [u8], value: &[u8; SECTOR_SIZE]) -> Option<&'a [u8]>
    ensures { MatchOption result
        ((front : List ℕ) → bytes.now ≢ front ++ value.now)
        (λ front. bytes.now ≡ front.now ++ value.now) }
{
    bytes.strip_suffix(value)
}

/// Whether these bytes are what was read in this life for a request.
#[tactic(auto, using(crate::proofs::Numbers::same_front))]
pub(crate) fn is_seen(past: &[Entry], queue: u16, number: u64, bytes: &[u8]) -> bool
    ensures { IsTrue result ↔ (bytes.now ≡ bytes_read (reverse past.now) queue number) }
{
    match past {
        [] | [.., Entry::Power(_)] => bytes.is_empty(),
        [earlier @ .., Entry::Look(other, other_number, _, value)] => {
            if *other == queue && *other_number == number {
                match without_end(bytes, value) {
                    Some(front) => is_seen(earlier, queue, number, front),
                    None => false,
                }
            } else {
                is_seen(earlier, queue, number, bytes)
            }
        }
        [.., Entry::Start(other, _)] if *other == queue => bytes.is_empty(),
        [earlier @ .., _] => is_seen(earlier, queue, number, bytes),
    }
}
