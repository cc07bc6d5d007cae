//! Records as text.
ghost use Rattle.std.specs.Prelude.{◌≡◌, ◌+◌, ◌/◌, ◌<◌, ◌≤◌, ◌++◌, ◌∷◌, ◌==◌, [], ℕ, List, length, IfOk, OnOk};
ghost use Rattle.std.specs.Fmt.{decimal};
ghost use Rattle.std.specs.List.{take_while};
ghost use Rattle.vub_report.specs.RecordText.{repeated_text, joint_text, bytes_text, tag_text, area_text, place_text, each_after, listed, written_text, asked_text, answer_bytes_text, answered_text, sector_text, entry_text, entry_line, entries_spelling, item_text, item_line, record_spelling, head_spelling};
ghost use Rattle.vub_report.specs.Histories.{entries_of};

use crate::items::{Item, Record};
use std::alloc::Global;
use vub_base::standard::SECTOR_SIZE;
use vub_base::{Area, Bytes, Header1, Memory, Tag};
use vub_device::{Answered, Asked, Entry, SectorValue};
use vub_schedule::writing::{
    put_byte_pair, put_commas, put_event, put_header, put_number, put_text,
};

/// How many bytes at the front are this one.
fn run_length(bytes: &[u8], byte: u8) -> usize
    ensures { result ≡ length (take_while (λ x. x == byte) bytes.now) }
{
    bytes.iter().take_while(|x| **x == byte).count()
}

fn put_repeated(out: &mut Vec<u8>, byte: u8, count: usize) -> Result<(), Memory>
    ensures { OnOk result (out.new.items ≡ out.old.items ++ repeated_text byte count) }
{
    if count >= 16 {
        put_byte_pair(out, byte)?;
        put_text(out, b"*")?;
        return put_number(out, count as u64);
    }
    for done in 0..count {
        put_byte_pair(out, byte)?;
    }
    Ok(())
}

/// What stands between a run of bytes and those that follow.
fn put_joint(out: &mut Vec<u8>, count: usize, rest: &[u8]) -> Result<(), Memory>
    ensures { OnOk result (out.new.items ≡ out.old.items ++ joint_text count rest.now) }
{
    if count < 16 || rest.is_empty() {
        return Ok(());
    }
    put_text(out, b"+")
}

/// Writes the run of equal bytes at the front, and answers those that follow.
fn put_run<'a>(out: &mut Vec<u8>, byte: u8, bytes: &'a [u8]) -> Result<&'a [u8], Memory>
    requires { (rest : List ℕ) × (bytes.now ≡ byte ∷ rest) }
    ensures less { IfOk result (λ rest. length rest.now < length bytes.now) }
    ensures text { IfOk result (λ rest. out.new.items ++ bytes_text rest.now ≡ out.old.items ++ bytes_text bytes.now) }
{
    let count = run_length(bytes, byte);
    let rest = &bytes[count..];
    put_repeated(out, byte, count)?;
    put_joint(out, count, rest)?;
    Ok(rest)
}

/// The bytes of a store or a sector.
fn put_bytes(out: &mut Vec<u8>, bytes: &[u8]) -> Result<(), Memory>
    ensures { OnOk result (out.new.items ≡ out.old.items ++ bytes_text bytes.now) }
{
    let mut rest = bytes;
    while let [first, ..] = rest {
        rest = put_run(out, *first, rest)?;
    }
    Ok(())
}

fn tag_word(tag: Tag) -> &'static [u8]
    ensures { result.now ≡ tag_text tag }
{
    match tag {
        Tag::G => b"G",
        Tag::K => b"K",
        Tag::SI1 => b"SI1",
        Tag::SI2 => b"SI2",
        Tag::SI3 => b"SI3",
        Tag::SF1 => b"SF1",
        Tag::SF2 => b"SF2",
        Tag::SP1 => b"SP1",
        Tag::SP2 => b"SP2",
        Tag::SP3 => b"SP3",
        Tag::SP4 => b"SP4",
        Tag::SP5 => b"SP5",
        Tag::SP6 => b"SP6",
        Tag::SP7 => b"SP7",
        Tag::SR1 => b"SR1",
        Tag::SR2 => b"SR2",
        Tag::PI1 => b"PI1",
        Tag::PI2 => b"PI2",
        Tag::PI3 => b"PI3",
        Tag::PI4 => b"PI4",
        Tag::PI5 => b"PI5",
        Tag::PF1 => b"PF1",
        Tag::PF2 => b"PF2",
        Tag::PF3 => b"PF3",
        Tag::PF4 => b"PF4",
        Tag::PF5 => b"PF5",
        Tag::PF6 => b"PF6",
        Tag::PF7 => b"PF7",
        Tag::PF8 => b"PF8",
        Tag::PF9 => b"PF9",
        Tag::PP1 => b"PP1",
        Tag::PP2 => b"PP2",
        Tag::PP3 => b"PP3",
        Tag::PP4 => b"PP4",
        Tag::PP5 => b"PP5",
        Tag::PP6 => b"PP6",
        Tag::PP7 => b"PP7",
        Tag::PP8 => b"PP8",
        Tag::PP9 => b"PP9",
        Tag::PR1 => b"PR1",
        Tag::PR2 => b"PR2",
        Tag::PR3 => b"PR3",
        Tag::PR4 => b"PR4",
        Tag::PR5 => b"PR5",
        Tag::PR6 => b"PR6",
        Tag::T2 => b"T2",
        Tag::T5 => b"T5",
    }
}

fn area_word(area: Area) -> &'static [u8]
    ensures { result.now ≡ area_text area }
{
    match area {
        Area::M => b"m",
        Area::I => b"i",
    }
}

/// A place in hexadecimal digits.
fn put_place(alloc: Global, out: &mut Vec<u8>, place: u64) -> Result<(), Memory>
    ensures { OnOk result (out.new.items ≡ out.old.items ++ place_text place) }
{
    let text = format!(in alloc; "{place:x}").map_err(|_| Memory)?;
    put_text(out, text.as_bytes())
}

/// The sectors of a write, with a comma between them.
fn put_written(out: &mut Vec<u8>, bytes: &[u8]) -> Result<(), Memory>
    ensures { OnOk result (out.new.items ≡ out.old.items ++ written_text (length bytes.now / 512) bytes.now) }
{
    for place in 0..bytes.len() / SECTOR_SIZE {
        if place > 0 {
            put_text(out, b",")?;
        }
        put_bytes(
            out,
            &bytes[SECTOR_SIZE * place..SECTOR_SIZE * place + SECTOR_SIZE],
        )?;
    }
    Ok(())
}

fn put_asked(out: &mut Vec<u8>, asked: &Asked) -> Result<(), Memory>
    ensures { OnOk result (out.new.items ≡ out.old.items ++ asked_text asked.now) }
{
    match asked {
        Asked::Read { sector, count } => {
            put_text(out, b"read ")?;
            put_number(out, *sector)?;
            put_text(out, b" ")?;
            put_number(out, u64::from(*count))
        }
        Asked::Write { sector, bytes } => {
            put_text(out, b"write ")?;
            put_number(out, *sector)?;
            put_text(out, b" ")?;
            put_written(out, bytes.items())
        }
        Asked::Flush => put_text(out, b"flush"),
        Asked::Id => put_text(out, b"id"),
        Asked::Discard(parts) => {
            put_text(out, b"discard ")?;
            put_commas(out, parts)
        }
        Asked::Zero(parts) => {
            put_text(out, b"zero ")?;
            put_commas(out, parts)
        }
    }
}

/// What was read, after a colon, where it isn't empty.
fn put_answer_bytes(out: &mut Vec<u8>, bytes: &[u8]) -> Result<(), Memory>
    ensures { OnOk result (out.new.items ≡ out.old.items ++ answer_bytes_text bytes.now) }
{
    match bytes {
        [] => Ok(()),
        _ => {
            put_text(out, b":")?;
            put_bytes(out, bytes)
        }
    }
}

/// What stands in a list of an entry.
trait EntryPart {
    /// Its text.
    ghost text: { Self → List ℕ };

    /// Appends its text.
    fn put(&self, out: &mut Vec<u8>) -> Result<(), Memory>
        ensures { OnOk result (out.new.items ≡ out.old.items ++ text self.now) };
}

/// The texts of some parts, with a comma before each.
fn put_after_commas<T: EntryPart>(out: &mut Vec<u8>, parts: &[T]) -> Result<(), Memory>
    ensures { OnOk result (out.new.items ≡ out.old.items ++ each_after 44 T.text parts.now) }
{
    for part in parts {
        put_text(out, b",")?;
        part.put(out)?;
    }
    Ok(())
}

/// The texts of some parts with a comma between them, or a dash where there is none.
fn put_listed<T: EntryPart>(out: &mut Vec<u8>, parts: &[T]) -> Result<(), Memory>
    ensures { OnOk result (out.new.items ≡ out.old.items ++ listed T.text parts.now) }
{
    match parts {
        [] => put_text(out, b"-"),
        [first, rest @ ..] => {
            first.put(out)?;
            put_after_commas(out, rest)
        }
    }
}

/// A number and a status, and what was read.
impl EntryPart for Answered {
    ghost text = { answered_text };

    fn put(&self, out: &mut Vec<u8>) -> Result<(), Memory> {
        put_number(out, self.number)?;
        put_text(out, b":")?;
        put_number(out, u64::from(self.status))?;
        put_answer_bytes(out, self.bytes.items())
    }
}

/// A number of a request.
impl EntryPart for u64 {
    ghost text = { decimal };

    fn put(&self, out: &mut Vec<u8>) -> Result<(), Memory> {
        put_number(out, *self)
    }
}

/// A sector and its value.
impl EntryPart for SectorValue {
    ghost text = { sector_text };

    fn put(&self, out: &mut Vec<u8>) -> Result<(), Memory> {
        put_number(out, self.sector)?;
        put_text(out, b"=")?;
        put_bytes(out, &self.value)
    }
}

/// A word, the number of a queue and a space.
fn put_at_queue(out: &mut Vec<u8>, word: &[u8], queue: u16) -> Result<(), Memory>
    ensures { OnOk result (out.new.items ≡ out.old.items ++ (word.now ++ decimal queue ++ 32 ∷ [])) }
{
    put_text(out, word)?;
    put_number(out, u64::from(queue))?;
    put_text(out, b" ")
}

/// The number of a request and a sector with its value.
fn put_value(
    out: &mut Vec<u8>,
    number: u64,
    sector: u64,
    value: &[u8; SECTOR_SIZE],
) -> Result<(), Memory>
    ensures { OnOk result (out.new.items ≡ out.old.items ++ (decimal number ++ 32 ∷ (decimal sector ++ 32 ∷ bytes_text value.now))) }
{
    put_number(out, number)?;
    put_text(out, b" ")?;
    put_number(out, sector)?;
    put_text(out, b" ")?;
    put_bytes(out, value)
}

fn put_entry(out: &mut Vec<u8>, entry: &Entry) -> Result<(), Memory>
    ensures { OnOk result (out.new.items ≡ out.old.items ++ entry_text entry.now) }
{
    match entry {
        Entry::Offer(queue, asked) => {
            put_at_queue(out, b"offer ", *queue)?;
            put_asked(out, asked)
        }
        Entry::Accept(queue, number) => {
            put_at_queue(out, b"accept ", *queue)?;
            put_number(out, *number)
        }
        Entry::Look(queue, number, sector, value) => {
            put_at_queue(out, b"look ", *queue)?;
            put_value(out, *number, *sector, value)
        }
        Entry::Act(queue, number, sector, value) => {
            put_at_queue(out, b"act ", *queue)?;
            put_value(out, *number, *sector, value)
        }
        Entry::Sync(queue, number) => {
            put_at_queue(out, b"sync ", *queue)?;
            put_number(out, *number)
        }
        Entry::Fault(queue, number) => {
            put_at_queue(out, b"fault ", *queue)?;
            put_number(out, *number)
        }
        Entry::Publish(queue, answers) => {
            put_at_queue(out, b"publish ", *queue)?;
            put_listed(out, answers.items())
        }
        Entry::Kill => put_text(out, b"kill"),
        Entry::Start(queue, numbers) => {
            put_at_queue(out, b"start ", *queue)?;
            put_listed(out, numbers.items())
        }
        Entry::Collect(queue, number) => {
            put_at_queue(out, b"collect ", *queue)?;
            put_number(out, *number)
        }
        Entry::Power(sectors) => {
            put_text(out, b"power ")?;
            put_listed(out, sectors.items())
        }
    }
}

fn put_store(
    alloc: Global,
    out: &mut Vec<u8>,
    tag: Tag,
    area: Area,
    place: u64,
    bytes: &Bytes,
) -> Result<(), Memory>
    ensures { OnOk result (out.new.items ≡ out.old.items ++ item_text (Item.Store tag area place bytes.now)) }
{
    put_text(out, b". ")?;
    put_text(out, tag_word(tag))?;
    put_text(out, b" ")?;
    put_text(out, area_word(area))?;
    put_text(out, b" ")?;
    put_place(alloc, out, place)?;
    put_text(out, b" ")?;
    put_bytes(out, bytes.items())
}

#[tactic(auto, unfolding(crate::specs::RecordText::item_line))]
fn put_item(alloc: Global, out: &mut Vec<u8>, item: &Item) -> Result<(), Memory>
    ensures { OnOk result (out.new.items ≡ out.old.items ++ item_line item.now) }
{
    match item {
        Item::Store {
            tag,
            area,
            place,
            bytes,
        } => put_store(alloc, out, *tag, *area, *place, bytes)?,
        Item::Made(entry) => {
            put_text(out, b"! ")?;
            put_entry(out, entry)?;
        }
        Item::Bell(queue) => {
            put_text(out, b"+ bell ")?;
            put_number(out, u64::from(*queue))?;
        }
        Item::Idle => put_text(out, b"- idle")?,
    }
    put_text(out, b"\n")
}

/// Appends the text of a record: its event and then each item, a line each.
#[tactic(auto, unfolding(crate::specs::RecordText::record_spelling))]
pub fn put_record(alloc: Global, out: &mut Vec<u8>, made: &Record) -> Result<(), Memory>
    ensures { OnOk result (out.new.items ≡ out.old.items ++ record_spelling made.now) }
{
    put_text(out, b"> ")?;
    put_event(out, &made.event)?;
    for item in made.items.list() {
        put_item(alloc, out, item)?;
    }
    Ok(())
}

#[tactic(auto, unfolding(crate::specs::RecordText::entry_line))]
fn put_entry_line(out: &mut Vec<u8>, entry: &Entry) -> Result<(), Memory>
    ensures { OnOk result (out.new.items ≡ out.old.items ++ entry_line entry.now) }
{
    put_entry(out, entry)?;
    put_text(out, b"\n")
}

/// Appends the entry of an item, if it is one.
fn put_made(out: &mut Vec<u8>, item: &Item) -> Result<(), Memory>
    ensures { OnOk result (out.new.items ≡ out.old.items ++ entries_spelling (entries_of (item.now ∷ []))) }
{
    match item {
        Item::Made(entry) => put_entry_line(out, entry),
        _ => Ok(()),
    }
}

/// Appends the entries of a record, a line each.
pub fn put_entries(out: &mut Vec<u8>, made: &Record) -> Result<(), Memory>
    ensures { OnOk result (out.new.items ≡ out.old.items ++ entries_spelling (entries_of made.now.items)) }
{
    for item in made.items.list() {
        put_made(out, item)?;
    }
    Ok(())
}

/// The text of a record.
pub fn record_text(alloc: Global, made: &Record) -> Result<Vec<u8>, Memory>
    ensures { IfOk result (λ v. v.items ≡ record_spelling made.now) }
{
    let mut out = Vec::new(alloc);
    put_record(alloc, &mut out, made)?;
    Ok(out)
}

/// The line before all records.
#[tactic(auto, unfolding(crate::specs::RecordText::head_spelling))]
pub fn head_text(alloc: Global, header: &Header1) -> Result<Vec<u8>, Memory>
    ensures { IfOk result (λ v. v.items ≡ head_spelling header.now) }
{
    let mut out = Vec::new(alloc);
    put_header(&mut out, b"record 1 ", header)?;
    Ok(out)
}
