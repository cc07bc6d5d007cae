//! The lines of a schedule from their text. Each reader answers what stands at the front of the
//! bytes and the bytes behind it, or `None` where the front is outside the grammar.
ghost use Rattle.std.specs.Prelude.{◌≡◌, ◌+◌, ◌<◌, ◌≤◌, ◌^◌, ◌++◌, ℕ, List, length, take, drop, Option, Some, None, nat_lt, nat_le, if◌then◌else◌, IfSome};
ghost use Rattle.std.specs.Option.{option_copied};
ghost use Rattle.std.specs.List.{take_while};
ghost use Rattle.std.specs.Char.{is_ascii_digit};
ghost use Rattle.std.specs.Str.Parse.{digits_value, AllDigits};
ghost use Rattle.vub_schedule.specs.Reading.{Reads, tag, number_at, count_at, hex_value, pair_at, read_at, write_at, more_fills, fills_at, ask_at, asked_at, numbered_at, word_at, event_text_at, event_at, header_of, base_at, header_at};

use crate::Event;
use arrayvec::ArrayVec;
use vub_base::{Ask, CacheMode, Format, Header1, Shape};

/// The largest size of a queue, and so the most requests that are accepted and not completed.
const LARGEST_SIZE: u16 = 64;

/// The largest capacity of a disk, in sectors of 512 bytes.
const LARGEST_CAPACITY: u64 = 4096;

/// The most sectors that a request reads or writes.
const MOST_SECTORS: usize = 8;

/// What stands behind the text at the front.
#[tactic(auto, unfolding(crate::specs::Reading::tag))]
fn tag<'a>(bytes: &'a [u8], text: &[u8]) -> Option<&'a [u8]>
    ensures { option_copied result ≡ tag text.now bytes.now }
{
    bytes.strip_prefix(text)
}

/// The number that decimal digits spell, where it is below 2^64.
fn value_of(digits: &[u8]) -> Option<u64>
    requires { AllDigits 10 digits.now }
    ensures { result ≡ (if nat_lt (digits_value 10 digits.now) (2 ^ 64) then Some (digits_value 10 digits.now) else None) }
{
    let mut value: u64 = 0;
    for digit in digits {
        value = value
            .checked_mul(10)?
            .checked_add(u64::from(*digit - b'0'))?;
    }
    Some(value)
}

/// How many decimal digits stand at the front.
fn digit_count(bytes: &[u8]) -> usize
    ensures { result ≡ length (take_while is_ascii_digit bytes.now) }
{
    bytes.iter().take_while(|b| b.is_ascii_digit()).count()
}

/// A decimal number below the limit, without leading zeros.
#[tactic(auto, unfolding(crate::specs::Reading::number_at))]
fn number_at(limit: u64, bytes: &[u8]) -> Option<(u64, &[u8])>
    ensures number { Reads result (number_at limit bytes.now) }
    ensures below { IfSome result (λ x. x.0 < limit) }
{
    let (digits, rest) = bytes.split_at(digit_count(bytes));
    if digits.is_empty() || digits[0] == b'0' && digits.len() != 1 {
        return None;
    }
    let value = value_of(digits)?;
    if value >= limit {
        return None;
    }
    Some((value, rest))
}

/// A number from 1 to the most.
#[tactic(auto, unfolding(crate::specs::Reading::count_at))]
fn count_at(most: u16, bytes: &[u8]) -> Option<(u16, &[u8])>
    ensures { Reads result (count_at most bytes.now) }
{
    let (count, rest) = number_at(u64::from(most) + 1, bytes)?;
    if count == 0 {
        return None;
    }
    Some((count as u16, rest))
}

/// The place of an accepted request.
fn place_at(bytes: &[u8]) -> Option<(u16, &[u8])>
    ensures { Reads result (number_at 64 bytes.now) }
{
    let (place, rest) = number_at(u64::from(LARGEST_SIZE), bytes)?;
    Some((place as u16, rest))
}

/// The value of a lower-case hexadecimal digit.
fn hex_value(digit: u8) -> Option<u8>
    ensures value { result ≡ hex_value digit }
    ensures small { IfSome result (λ x. x < 16) }
{
    match digit {
        b'0'..=b'9' => Some(digit - b'0'),
        b'a'..=b'f' => Some(10 + (digit - b'a')),
        _ => None,
    }
}

/// The byte of two lower-case hexadecimal digits.
#[tactic(auto, unfolding(crate::specs::Reading::pair_at))]
fn pair_at(bytes: &[u8]) -> Option<(u8, &[u8])>
    ensures { Reads result (pair_at bytes.now) }
{
    let [high, low, rest @ ..] = bytes else {
        return None;
    };
    let high = hex_value(*high)?;
    let low = hex_value(*low)?;
    Some((16 * high + low, rest))
}

/// The bytes that fill the sectors of a write: one to eight, with a comma between them. A ninth is
/// left behind, and so is its comma.
#[tactic(auto, unfolding(crate::specs::Reading::fills_at))]
fn fills_at(bytes: &[u8]) -> Option<(ArrayVec<u8, MOST_SECTORS>, &[u8])>
    ensures { Reads result (fills_at bytes.now) }
{
    let (first, mut rest) = pair_at(bytes)?;
    let mut fills = ArrayVec::new();
    fills.push(first);
    while !fills.is_full() {
        let Some(after) = tag(rest, b",") else {
            break;
        };
        let (fill, after) = pair_at(after)?;
        fills.push(fill);
        rest = after;
    }
    Some((fills, rest))
}

/// Whether so many sectors from one on lie on a disk of that capacity.
fn is_on_disk(capacity: u64, sector: u64, count: u64) -> bool
    requires { sector < capacity }
    ensures { result ≡ nat_le (sector + count) capacity }
{
    count <= capacity - sector
}

/// A read, behind its word: the sector and the count.
#[tactic(auto, unfolding(crate::specs::Reading::read_at))]
fn read_at(capacity: u64, bytes: &[u8]) -> Option<(Ask, &[u8])>
    ensures { Reads result (read_at capacity bytes.now) }
{
    let (sector, rest) = number_at(capacity, bytes)?;
    let rest = tag(rest, b" ")?;
    let (count, rest) = count_at(MOST_SECTORS as u16, rest)?;
    if !is_on_disk(capacity, sector, u64::from(count)) {
        return None;
    }
    Some((Ask::Read { sector, count }, rest))
}

/// A write, behind its word: the sector and the bytes that fill the sectors from it on.
#[tactic(auto, unfolding(crate::specs::Reading::write_at))]
fn write_at(capacity: u64, bytes: &[u8]) -> Option<(Ask, &[u8])>
    ensures { Reads result (write_at capacity bytes.now) }
{
    let (sector, rest) = number_at(capacity, bytes)?;
    let rest = tag(rest, b" ")?;
    let (fills, rest) = fills_at(rest)?;
    if !is_on_disk(capacity, sector, fills.len() as u64) {
        return None;
    }
    Some((Ask::Write { sector, fills }, rest))
}

/// A request on a disk of that capacity.
#[tactic(auto, unfolding(crate::specs::Reading::ask_at))]
fn ask_at(capacity: u64, bytes: &[u8]) -> Option<(Ask, &[u8])>
    ensures { Reads result (ask_at capacity bytes.now) }
{
    if let Some(rest) = tag(bytes, b"write ") {
        return write_at(capacity, rest);
    }
    if let Some(rest) = tag(bytes, b"read ") {
        return read_at(capacity, rest);
    }
    Some((Ask::Flush, tag(bytes, b"flush")?))
}

/// A request with its word, on queue 0 and placed in the ring.
#[tactic(auto, unfolding(crate::specs::Reading::asked_at))]
fn asked_at<'a>(header: &Header1, bytes: &'a [u8]) -> Option<(Event, &'a [u8])>
    ensures { Reads result (asked_at header.now bytes.now) }
{
    let rest = tag(bytes, b"ask 0 d ")?;
    let (ask, rest) = ask_at(header.capacity, rest)?;
    Some((Event::Ask(0, Shape::Direct, ask), rest))
}

/// An event that has a number more than that of its queue.
#[tactic(auto, unfolding(crate::specs::Reading::numbered_at))]
fn numbered_at(bytes: &[u8]) -> Option<(Event, &[u8])>
    ensures { Reads result (numbered_at bytes.now) }
{
    if let Some(rest) = tag(bytes, b"guest 0 ") {
        let (stores, rest) = count_at(u16::MAX, rest)?;
        return Some((Event::Guest(0, stores), rest));
    }
    if let Some(rest) = tag(bytes, b"work 0 ") {
        let (place, rest) = place_at(rest)?;
        return Some((Event::Work(0, place), rest));
    }
    if let Some(rest) = tag(bytes, b"publish 0 ") {
        let (most, rest) = count_at(LARGEST_SIZE, rest)?;
        return Some((Event::Publish(0, most), rest));
    }
    let rest = tag(bytes, b"turn 0 ")?;
    let (turns, rest) = count_at(u16::MAX, rest)?;
    Some((Event::Turn(0, turns), rest))
}

/// An event that is always the same text.
#[tactic(auto, unfolding(crate::specs::Reading::word_at))]
fn word_at(bytes: &[u8]) -> Option<(Event, &[u8])>
    ensures { Reads result (word_at bytes.now) }
{
    if let Some(rest) = tag(bytes, b"start 0") {
        return Some((Event::Start(0), rest));
    }
    if let Some(rest) = tag(bytes, b"fetch 0") {
        return Some((Event::Fetch(0), rest));
    }
    if let Some(rest) = tag(bytes, b"drain 0") {
        return Some((Event::Drain(0), rest));
    }
    if let Some(rest) = tag(bytes, b"collect 0") {
        return Some((Event::Collect(0), rest));
    }
    if let Some(rest) = tag(bytes, b"boot") {
        return Some((Event::Boot, rest));
    }
    if let Some(rest) = tag(bytes, b"join") {
        return Some((Event::Join, rest));
    }
    let rest = tag(bytes, b"kill")?;
    Some((Event::Kill, rest))
}

/// An event, up to the end of its line.
#[tactic(auto, unfolding(crate::specs::Reading::event_text_at))]
fn event_text_at<'a>(header: &Header1, bytes: &'a [u8]) -> Option<(Event, &'a [u8])>
    ensures { Reads result (event_text_at header.now bytes.now) }
{
    asked_at(header, bytes)
        .or_else(|| numbered_at(bytes))
        .or_else(|| word_at(bytes))
}

/// The event of the line at the front, its newline included.
#[tactic(auto, unfolding(crate::specs::Reading::event_at))]
pub fn event_at<'a>(header: &Header1, bytes: &'a [u8]) -> Option<(Event, &'a [u8])>
    ensures { Reads result (event_at header.now bytes.now) }
{
    let (event, rest) = event_text_at(header, bytes)?;
    let rest = tag(rest, b"\n")?;
    Some((event, rest))
}

/// The header of the grammar with this size of its queue, this capacity and this base.
#[tactic(auto, unfolding(crate::specs::Reading::header_of))]
fn header_of(size: u64, capacity: u64, base: u16) -> Option<Header1>
    ensures { result ≡ header_of size capacity base }
{
    if matches!(size, 2 | 4 | 8 | 16 | 32 | 64) && capacity >= 1 {
        Some(Header1 {
            format: Format::Split,
            queues: 1,
            size: size as u16,
            capacity,
            base,
            mode: CacheMode::Back,
        })
    } else {
        None
    }
}

/// The header with this size and this capacity, whose base and mode stand at the front, the newline
/// included.
#[tactic(auto, unfolding(crate::specs::Reading::base_at))]
fn base_at(size: u64, capacity: u64, bytes: &[u8]) -> Option<(Header1, &[u8])>
    ensures { Reads result (base_at size capacity bytes.now) }
{
    let middle = tag(bytes, b" ")?;
    let (base, back) = number_at(u64::from(u16::MAX) + 1, middle)?;
    let rest = tag(back, b" back\n")?;
    let header = header_of(size, capacity, base as u16)?;
    Some((header, rest))
}

/// The header of the first line, its newline included.
#[tactic(auto, unfolding(crate::specs::Reading::header_at))]
pub fn header_at(bytes: &[u8]) -> Option<(Header1, &[u8])>
    ensures { Reads result (header_at bytes.now) }
{
    let front = tag(bytes, b"vub 1 split 1 ")?;
    let (size, middle) = number_at(u64::from(LARGEST_SIZE) + 1, front)?;
    let middle = tag(middle, b" ")?;
    let (capacity, back) = number_at(LARGEST_CAPACITY + 1, middle)?;
    base_at(size, capacity, back)
}
