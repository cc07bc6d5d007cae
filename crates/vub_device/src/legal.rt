//! Which entries may follow a history: plain and slow, by going back over all entries each time.
ghost use Rattle.std.specs.Prelude.{◌≡◌, ◌↔◌, IsTrue, IfSome, IfNone, All, reverse};
ghost use Rattle.vub_device.specs.Legal.{MayAccept, IsAtWork, MayLook, MayAct, IsRead, IsWritten};
ghost use Rattle.vub_device.specs.Legal.{IsSyncDue, MaySync, MayFault, IsDone, IsSuccess, IsFailure};
ghost use Rattle.vub_device.specs.Legal.{IsUnsupported, IsAnswer, MayPublish, MayStart, MayCollect};
ghost use Rattle.vub_device.specs.Legal.{Allowed, Legal};
ghost use Rattle.vub_device.specs.Past.{IsOpen, numbers};
ghost use Rattle.vub_device.specs.Places.{are_distinct};
ghost use Rattle.vub_device.specs.declared.entry.Asked.{Asked};

use crate::entry::{Answered, Asked, Entry};
use crate::{crash, meaning, past};
use vub_base::CacheMode;
use vub_base::standard::SECTOR_SIZE;

/// Whether a number is open.
fn is_open(past: &[Entry], queue: u16, number: u64) -> bool
    ensures { IsTrue result ↔ IsOpen (reverse past.now) queue number }
{
    number < past::accepted(past, queue) as u64 && !past::is_published(past, queue, number)
}

/// Whether the queue's next offer may be accepted under this number.
fn may_accept(past: &[Entry], queue: u16, number: u64) -> bool
    ensures { IsTrue result ↔ MayAccept (reverse past.now) queue number }
{
    past::started(past, queue)
        && number == past::accepted(past, queue) as u64
        && number < past::offers(past, queue) as u64
}

/// The request for which the device may call the disk.
fn at_work(
    capacity: u64,
    mode: CacheMode,
    past: &[Entry],
    queue: u16,
    number: u64,
) -> Option<&Asked>
    ensures some { IfSome result (λ r. IsAtWork capacity mode (reverse past.now) queue number r.now) }
    ensures none { IfNone result ((r : Asked) → IsAtWork capacity mode (reverse past.now) queue number r → ⊥) }
{
    let request = past::asked(past, queue, number)?;
    let works = past::started(past, queue)
        && is_open(past, queue, number)
        && meaning::refusal(capacity, mode, request).is_none()
        && !past::faulted(past, queue, number);
    if works { Some(request) } else { None }
}

/// Whether the device may read this sector for a request and find this.
fn may_look(
    capacity: u64,
    mode: CacheMode,
    past: &[Entry],
    queue: u16,
    number: u64,
    sector: u64,
    value: &[u8; SECTOR_SIZE],
) -> bool
    ensures { IsTrue result ↔ MayLook capacity mode (reverse past.now) queue number sector value.now }
{
    match at_work(capacity, mode, past, queue, number) {
        Some(request) => {
            meaning::is_look(request, past::looks(past, queue, number), sector)
                && *value == crash::value(past, sector)
        }
        None => false,
    }
}

/// Whether the device may write this value to this sector for a request.
fn may_act(
    capacity: u64,
    mode: CacheMode,
    past: &[Entry],
    queue: u16,
    number: u64,
    sector: u64,
    value: &[u8; SECTOR_SIZE],
) -> bool
    ensures { IsTrue result ↔ MayAct capacity mode (reverse past.now) queue number sector value.now }
{
    match at_work(capacity, mode, past, queue, number) {
        Some(request) => {
            let index = past::acts(past, queue, number);
            meaning::is_effect(request, index, sector, value)
        }
        None => false,
    }
}

/// Whether it is time to make all stable for a request.
fn is_sync_due(mode: CacheMode, past: &[Entry], queue: u16, number: u64, request: &Asked) -> bool
    ensures { IsTrue result ↔ IsSyncDue mode (reverse past.now) queue number request.now }
{
    match request {
        Asked::Flush => true,
        Asked::Write { .. } => {
            mode == CacheMode::Through && is_written(past, queue, number, request)
        }
        _ => false,
    }
}

/// Whether no sector is left to write for a request.
fn is_written(past: &[Entry], queue: u16, number: u64, request: &Asked) -> bool
    ensures { IsTrue result ↔ IsWritten (reverse past.now) queue number request.now }
{
    meaning::ends_effects(request, past::acts(past, queue, number))
}

/// Whether no sector is left to read for a request.
fn is_read(past: &[Entry], queue: u16, number: u64, request: &Asked) -> bool
    ensures { IsTrue result ↔ IsRead (reverse past.now) queue number request.now }
{
    meaning::ends_looks(request, past::looks(past, queue, number))
}

/// Whether the device may make all stable for a request.
fn may_sync(capacity: u64, mode: CacheMode, past: &[Entry], queue: u16, number: u64) -> bool
    ensures { IsTrue result ↔ MaySync capacity mode (reverse past.now) queue number }
{
    match at_work(capacity, mode, past, queue, number) {
        Some(request) => {
            !past::synced(past, queue, number) && is_sync_due(mode, past, queue, number, request)
        }
        None => false,
    }
}

/// Whether a call of the disk may fail for a request.
fn may_fault(capacity: u64, mode: CacheMode, past: &[Entry], queue: u16, number: u64) -> bool
    ensures { IsTrue result ↔ MayFault capacity mode (reverse past.now) queue number }
{
    match at_work(capacity, mode, past, queue, number) {
        Some(request) => !matches!(request, Asked::Id),
        None => false,
    }
}

/// Whether a request was done in this life, with these bytes as its answer.
fn is_done(
    mode: CacheMode,
    past: &[Entry],
    queue: u16,
    number: u64,
    request: &Asked,
    bytes: &[u8],
) -> bool
    ensures { IsTrue result ↔ IsDone mode (reverse past.now) queue number request.now bytes.now }
{
    match request {
        Asked::Read { .. } => {
            is_read(past, queue, number, request) && past::is_seen(past, queue, number, bytes)
        }
        Asked::Write { .. } => {
            is_written(past, queue, number, request)
                && (mode != CacheMode::Through || past::synced(past, queue, number))
                && bytes.is_empty()
        }
        Asked::Flush => past::synced(past, queue, number) && bytes.is_empty(),
        Asked::Id => meaning::is_device_name(bytes),
        Asked::Discard(_) | Asked::Zero(_) => {
            is_written(past, queue, number, request) && bytes.is_empty()
        }
    }
}

/// Whether an answer with status 0 and these bytes is right.
fn is_success(
    capacity: u64,
    mode: CacheMode,
    past: &[Entry],
    queue: u16,
    number: u64,
    request: &Asked,
    bytes: &[u8],
) -> bool
    ensures { IsTrue result
        ↔ IsSuccess capacity mode (reverse past.now) queue number request.now bytes.now }
{
    let served = meaning::refusal(capacity, mode, request).is_none();
    served
        && !past::faulted(past, queue, number)
        && is_done(mode, past, queue, number, request, bytes)
}

/// Whether an answer with status 1 and these bytes is right.
fn is_failure(
    capacity: u64,
    mode: CacheMode,
    past: &[Entry],
    queue: u16,
    number: u64,
    request: &Asked,
    bytes: &[u8],
) -> bool
    ensures { IsTrue result
        ↔ IsFailure capacity mode (reverse past.now) queue number request.now bytes.now }
{
    let refused = matches!(meaning::refusal(capacity, mode, request), Some(1));
    (past::faulted(past, queue, number) || refused) && bytes.is_empty()
}

/// Whether an answer with status 2 and these bytes is right.
fn is_unsupported(capacity: u64, mode: CacheMode, request: &Asked, bytes: &[u8]) -> bool
    ensures { IsTrue result ↔ IsUnsupported capacity mode request.now bytes.now }
{
    matches!(meaning::refusal(capacity, mode, request), Some(2)) && bytes.is_empty()
}

/// Whether an answer is right.
fn is_answer(capacity: u64, mode: CacheMode, past: &[Entry], queue: u16, answer: &Answered) -> bool
    ensures { IsTrue result ↔ IsAnswer capacity mode (reverse past.now) queue answer.now }
{
    let number = answer.number;
    let bytes = answer.bytes.items();
    match past::asked(past, queue, number) {
        Some(request) => match answer.status {
            0 => is_success(capacity, mode, past, queue, number, request, bytes),
            1 => is_failure(capacity, mode, past, queue, number, request, bytes),
            2 => is_unsupported(capacity, mode, request, bytes),
            _ => false,
        },
        None => false,
    }
}

/// Whether each of these answers is to an open number.
fn are_open(past: &[Entry], queue: u16, answers: &[Answered]) -> bool
    ensures { IsTrue result ↔ All (λ a. IsOpen (reverse past.now) queue a.number) answers.now }
{
    answers
        .iter()
        .all(|answer| is_open(past, queue, answer.number))
}

/// Whether each of these answers is right.
fn are_answers(
    capacity: u64,
    mode: CacheMode,
    past: &[Entry],
    queue: u16,
    answers: &[Answered],
) -> bool
    ensures { IsTrue result ↔ All (λ a. IsAnswer capacity mode (reverse past.now) queue a) answers.now }
{
    answers
        .iter()
        .all(|answer| is_answer(capacity, mode, past, queue, answer))
}

/// Whether these answers are to distinct numbers.
fn are_distinct(answers: &[Answered]) -> bool
    ensures { result ≡ are_distinct (numbers answers.now) }
{
    match answers {
        [] => true,
        [first, rest @ ..] => !past::answers_number(rest, first.number) && are_distinct(rest),
    }
}

/// Whether these answers may be shown at once.
#[tactic(auto, using(crate::proofs::Distinct::distinct_from_test, crate::proofs::Distinct::test_from_distinct))]
fn may_publish(
    capacity: u64,
    mode: CacheMode,
    past: &[Entry],
    queue: u16,
    answers: &[Answered],
) -> bool
    ensures { IsTrue result ↔ MayPublish capacity mode (reverse past.now) queue answers.now }
{
    past::started(past, queue)
        && !answers.is_empty()
        && are_distinct(answers)
        && are_open(past, queue, answers)
        && are_answers(capacity, mode, past, queue, answers)
}

/// Whether the queue may be started and resubmit these numbers.
fn may_start(past: &[Entry], queue: u16, list: &[u64]) -> bool
    ensures { IsTrue result ↔ MayStart (reverse past.now) queue list.now }
{
    !past::started(past, queue) && past::lists_open(past, queue, past::accepted(past, queue), list)
}

/// Whether the answer to this number is the next to be collected.
#[tactic(auto, using(crate::proofs::Numbers::slice_get_found, crate::proofs::Numbers::place_of_get))]
fn may_collect(past: &[Entry], queue: u16, number: u64) -> bool
    ensures { IsTrue result ↔ MayCollect (reverse past.now) queue number }
{
    let index = past::collected(past, queue);
    matches!(past::published_at(past, queue, index), Ok(next) if next == number)
}

/// Whether an entry may follow these, by the rules of a block device with that many sectors of 512
/// bytes and that cache mode. It goes back over all of them, and takes no memory.
pub fn is_allowed(capacity: u64, mode: CacheMode, past: &[Entry], entry: &Entry) -> bool
    ensures { IsTrue result ↔ Allowed capacity mode (reverse past.now) entry.now }
{
    match entry {
        Entry::Offer(_, _) | Entry::Kill => true,
        Entry::Accept(queue, number) => may_accept(past, *queue, *number),
        Entry::Look(queue, number, sector, value) => {
            may_look(capacity, mode, past, *queue, *number, *sector, value)
        }
        Entry::Act(queue, number, sector, value) => {
            may_act(capacity, mode, past, *queue, *number, *sector, value)
        }
        Entry::Sync(queue, number) => may_sync(capacity, mode, past, *queue, *number),
        Entry::Fault(queue, number) => may_fault(capacity, mode, past, *queue, *number),
        Entry::Publish(queue, answers) => {
            may_publish(capacity, mode, past, *queue, answers.items())
        }
        Entry::Start(queue, list) => may_start(past, *queue, list.items()),
        Entry::Collect(queue, number) => may_collect(past, *queue, *number),
        Entry::Power(image) => crash::is_crash_image(capacity, past, image.items()),
    }
}

/// Whether each entry of a history is allowed by those before it. It takes time by the square of
/// the history's length and more, and no memory.
pub fn is_legal(capacity: u64, mode: CacheMode, history: &[Entry]) -> bool
    ensures { IsTrue result ↔ Legal capacity mode history.now }
{
    for index in 0..history.len() {
        if !is_allowed(capacity, mode, &history[..index], &history[index]) {
            return false;
        }
    }
    true
}
