//! Schedules as text. Each `put` appends one piece of a text to a vector. The pieces are spelled for
//! all values of their types, whether the grammar has them yet or not. After want of memory no clause
//! says what the vector holds: let it go.
ghost use Rattle.std.specs.Prelude.{◌≡◌, ◌++◌, ◌∷◌, ◌<◌, false, ℕ, List, length, codes, OnOk, IfOk};
ghost use Rattle.std.specs.Fmt.{decimal, digit_glyph};
ghost use Rattle.std.specs.List.{flat_map};
ghost use Rattle.vub_schedule.specs.Spelling.{line, commas, hex_pair, format_text, mode_text, header_numbers, header_text, shape_text, part_text, ask_text, event_text, event_line, spelling};

use crate::{Event, Schedule};
use itoa::Buffer;
use std::alloc::Global;
use vub_base::{Ask, CacheMode, Format, Header1, Memory, Part, Shape};

/// Bytes as they are.
pub fn put_text(out: &mut Vec<u8>, text: &[u8]) -> Result<(), Memory>
    ensures { OnOk result (out.new.items ≡ out.old.items ++ text.now) }
{
    out.extend_from_slice(text).map_err(|_| Memory)
}

/// A number in decimal digits, without leading zeros.
pub fn put_number(out: &mut Vec<u8>, number: u64) -> Result<(), Memory>
    ensures { OnOk result (out.new.items ≡ out.old.items ++ decimal number) }
{
    let mut buffer = Buffer::new();
    put_text(out, buffer.format(number).as_bytes())
}

/// A lower-case hexadecimal digit.
fn hex_digit(value: u8) -> u8
    requires { value < 16 }
    ensures { result ≡ digit_glyph false value }
{
    if value < 10 {
        b'0' + value
    } else {
        b'a' + (value - 10)
    }
}

/// A byte as two lower-case hexadecimal digits.
pub fn put_byte_pair(out: &mut Vec<u8>, byte: u8) -> Result<(), Memory>
    ensures { OnOk result (out.new.items ≡ out.old.items ++ hex_pair byte) }
{
    put_text(out, &[hex_digit(byte / 16), hex_digit(byte % 16)])
}

/// What stands in a list of a request.
pub trait AskPart {
    /// Its text.
    ghost text: { Self → List ℕ };

    /// Appends its text.
    fn put(&self, out: &mut Vec<u8>) -> Result<(), Memory>
        ensures { OnOk result (out.new.items ≡ out.old.items ++ text self.now) };
}

/// The texts of some parts, with a comma before each.
fn put_after_commas<T: AskPart>(out: &mut Vec<u8>, parts: &[T]) -> Result<(), Memory>
    ensures { OnOk result (out.new.items ≡ out.old.items ++ flat_map (λ x. 44 ∷ T.text x) parts.now) }
{
    for part in parts {
        put_text(out, b",")?;
        part.put(out)?;
    }
    Ok(())
}

/// The texts of some parts, with a comma between them.
pub fn put_commas<T: AskPart>(out: &mut Vec<u8>, parts: &[T]) -> Result<(), Memory>
    ensures { OnOk result (out.new.items ≡ out.old.items ++ commas T.text parts.now) }
{
    match parts {
        [] => Ok(()),
        [first, rest @ ..] => {
            first.put(out)?;
            put_after_commas(out, rest)
        }
    }
}

/// A fill byte.
impl AskPart for u8 {
    ghost text = { hex_pair };

    fn put(&self, out: &mut Vec<u8>) -> Result<(), Memory> {
        put_byte_pair(out, *self)
    }
}

/// A part of a discard or a zeroing: its sector, count and flags.
impl AskPart for Part {
    ghost text = { part_text };

    fn put(&self, out: &mut Vec<u8>) -> Result<(), Memory> {
        put_number(out, self.sector)?;
        put_text(out, b":")?;
        put_number(out, u64::from(self.count))?;
        put_text(out, b":")?;
        put_number(out, u64::from(self.flags))
    }
}

/// A request: its word, and then its sectors, fill bytes or parts.
#[tactic(auto, unfolding(crate::specs::Spelling::ask_text))]
pub fn put_ask(out: &mut Vec<u8>, ask: &Ask) -> Result<(), Memory>
    ensures { OnOk result (out.new.items ≡ out.old.items ++ ask_text ask.now) }
{
    match ask {
        Ask::Read { sector, count } => {
            put_text(out, b"read ")?;
            put_number(out, *sector)?;
            put_text(out, b" ")?;
            put_number(out, u64::from(*count))
        }
        Ask::Write { sector, fills } => {
            put_text(out, b"write ")?;
            put_number(out, *sector)?;
            put_text(out, b" ")?;
            put_commas(out, fills)
        }
        Ask::Flush => put_text(out, b"flush"),
        Ask::Id => put_text(out, b"id"),
        Ask::Discard(parts) => {
            put_text(out, b"discard ")?;
            put_commas(out, parts)
        }
        Ask::Zero(parts) => {
            put_text(out, b"zero ")?;
            put_commas(out, parts)
        }
    }
}

fn shape_word(shape: Shape) -> &'static [u8]
    ensures { result.now ≡ shape_text shape }
{
    match shape {
        Shape::Direct => b"d",
        Shape::Indirect => b"i",
    }
}

/// A number behind a space.
fn put_spaced(out: &mut Vec<u8>, number: u16) -> Result<(), Memory>
    ensures { OnOk result (out.new.items ≡ out.old.items ++ codes " " ++ decimal number) }
{
    put_text(out, b" ")?;
    put_number(out, u64::from(number))
}

/// An event that has the number of its queue alone: its word, with a space behind it, and the queue.
fn put_on_queue(out: &mut Vec<u8>, word: &[u8], queue: u16) -> Result<(), Memory>
    ensures { OnOk result (out.new.items ≡ out.old.items ++ word.now ++ decimal queue) }
{
    put_text(out, word)?;
    put_number(out, u64::from(queue))
}

/// An event that has one number more.
fn put_counted(out: &mut Vec<u8>, word: &[u8], queue: u16, count: u16) -> Result<(), Memory>
    ensures { OnOk result (out.new.items ≡ out.old.items ++ word.now ++ decimal queue ++ codes " " ++ decimal count) }
{
    put_on_queue(out, word, queue)?;
    put_spaced(out, count)
}

/// An event without the end of its line: its word, and then its numbers and words.
#[tactic(auto, unfolding(crate::specs::Spelling::event_text))]
fn put_event_text(out: &mut Vec<u8>, event: &Event) -> Result<(), Memory>
    ensures { OnOk result (out.new.items ≡ out.old.items ++ event_text event.now) }
{
    match event {
        Event::Ask(queue, shape, ask) => {
            put_on_queue(out, b"ask ", *queue)?;
            put_text(out, b" ")?;
            put_text(out, shape_word(*shape))?;
            put_text(out, b" ")?;
            put_ask(out, ask)
        }
        Event::Guest(queue, stores) => put_counted(out, b"guest ", *queue, *stores),
        Event::Collect(queue) => put_on_queue(out, b"collect ", *queue),
        Event::Boot => put_text(out, b"boot"),
        Event::Join => put_text(out, b"join"),
        Event::Start(queue) => put_on_queue(out, b"start ", *queue),
        Event::Fetch(queue) => put_on_queue(out, b"fetch ", *queue),
        Event::Work(queue, place) => put_counted(out, b"work ", *queue, *place),
        Event::Publish(queue, most) => put_counted(out, b"publish ", *queue, *most),
        Event::Turn(queue, turns) => put_counted(out, b"turn ", *queue, *turns),
        Event::Drain(queue) => put_on_queue(out, b"drain ", *queue),
        Event::Kill => put_text(out, b"kill"),
    }
}

/// The whole line of an event, its newline included.
#[tactic(auto, unfolding(crate::specs::Spelling::event_line))]
pub fn put_event(out: &mut Vec<u8>, event: &Event) -> Result<(), Memory>
    ensures { OnOk result (out.new.items ≡ out.old.items ++ event_line event.now) }
{
    put_event_text(out, event)?;
    put_text(out, b"\n")
}

fn format_word(format: Format) -> &'static [u8]
    ensures { result.now ≡ format_text format }
{
    match format {
        Format::Split => b"split",
        Format::Packed => b"packed",
    }
}

fn mode_word(mode: CacheMode) -> &'static [u8]
    ensures { result.now ≡ mode_text mode }
{
    match mode {
        CacheMode::Back => b"back",
        CacheMode::Through => b"through",
        CacheMode::ReadOnly => b"ro",
    }
}

/// The numbers of a header between the words of its format and its mode.
fn put_header_numbers(out: &mut Vec<u8>, header: &Header1) -> Result<(), Memory>
    ensures { OnOk result (out.new.items ≡ out.old.items ++ header_numbers header.now) }
{
    put_number(out, u64::from(header.queues))?;
    put_text(out, b" ")?;
    put_number(out, u64::from(header.size))?;
    put_text(out, b" ")?;
    put_number(out, header.capacity)?;
    put_text(out, b" ")?;
    put_number(out, u64::from(header.base))
}

/// The words of a header, without the end of its line.
#[tactic(auto, unfolding(crate::specs::Spelling::header_text))]
fn put_header_words(out: &mut Vec<u8>, header: &Header1) -> Result<(), Memory>
    ensures { OnOk result (out.new.items ≡ out.old.items ++ header_text header.now) }
{
    put_text(out, format_word(header.format))?;
    put_text(out, b" ")?;
    put_header_numbers(out, header)?;
    put_text(out, b" ")?;
    put_text(out, mode_word(header.mode))
}

/// A whole line: its front, then the words of the header, and its newline. The front of a schedule is
/// `vub 1 `.
pub fn put_header(out: &mut Vec<u8>, front: &[u8], header: &Header1) -> Result<(), Memory>
    ensures { OnOk result (out.new.items ≡ out.old.items ++ (front.now ++ line (header_text header.now))) }
{
    put_text(out, front)?;
    put_header_words(out, header)?;
    put_text(out, b"\n")
}

/// A line for each event.
fn put_events(out: &mut Vec<u8>, events: &[Event]) -> Result<(), Memory>
    ensures { OnOk result (out.new.items ≡ out.old.items ++ flat_map event_line events.now) }
{
    for event in events {
        put_event(out, event)?;
    }
    Ok(())
}

/// The whole text of a schedule: the line of its header, and a line for each event.
#[tactic(auto, unfolding(crate::specs::Spelling::spelling, crate::specs::Spelling::header_line))]
pub fn write_schedule(alloc: Global, schedule: &Schedule) -> Result<Vec<u8>, Memory>
    // It is the spelling of the schedule, which need not be of the grammar.
    ensures spelled { IfOk result (λ out. out.items ≡ spelling schedule.now) }
{
    let mut out = Vec::new(alloc);
    put_header(&mut out, b"vub 1 ", &schedule.header)?;
    put_events(&mut out, schedule.events.items())?;
    Ok(out)
}
