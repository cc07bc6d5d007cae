//! Histories that are legal, and the same with one entry changed, which are not.
use crate::entry::{AnswerList, Answered, Asked, Entry, NumberList, SectorList, SectorValue};
use crate::is_legal;
use arrayvec::ArrayVec;
use std::alloc::{AllocError, Global};
use vub_base::{Bytes, CacheMode, Part};

/// The bytes of an answer.
#[derive(Clone, Copy)]
enum Shown {
    Nothing,
    Name,
    /// A sector of this byte.
    Sector(u8),
}

/// An entry, spelled with one byte for each sector.
#[derive(Clone, Copy)]
enum Said {
    Read(u16, u64, u16),
    Write(u16, u64, &'static [u8]),
    Flush(u16),
    Id(u16),
    Discard(u16, Part),
    Zero(u16, Part),
    Accept(u16, u64),
    Look(u16, u64, u64, u8),
    Act(u16, u64, u64, u8),
    Sync(u16, u64),
    Fault(u16, u64),
    Publish(u16, &'static [(u64, u8, Shown)]),
    Kill,
    Start(u16, &'static [u64]),
    Collect(u16, u64),
    Power(&'static [(u64, u8)]),
}

use Said::*;
use Shown::*;

/// What is told, as in a device of eight sectors.
#[derive(Clone, Copy)]
enum Story {
    /// A write, and a read of what it wrote.
    Plain,
    /// Two flushes, and a kill between their publication and their collection.
    KillAfterPublication,
    /// Two flushes, a kill before their publication, and one after it.
    Resubmitted,
    /// An old write acts again in a later life, after a newer one.
    ActsLate,
    /// A flushed write, one that isn't flushed, and a power stop.
    PowerStop,
    /// A write of two sectors that isn't flushed, and a power stop that keeps the second alone.
    PartlyKept,
    /// Each queue counts its own numbers, and a power stop begins them anew.
    Anew,
    /// The second of three sectors of a write fails.
    FailingWrite,
    /// A read past the end, and a discard with a flag.
    FixedAnswers,
    /// A write to a read-only device.
    ReadOnly,
    /// A write without a cache, and a power stop.
    WriteThrough,
    /// A flush without a cache.
    FlushThrough,
    /// A write, a discard of its sector, and zeros over two sectors.
    Discarded,
    /// The name of the device.
    Named,
}

static PLAIN: [Said; 11] = [
    Write(0, 0, &[0xaa]),
    Start(0, &[]),
    Accept(0, 0),
    Act(0, 0, 0, 0xaa),
    Publish(0, &[(0, 0, Nothing)]),
    Collect(0, 0),
    Read(0, 0, 1),
    Accept(0, 1),
    Look(0, 1, 0, 0xaa),
    Publish(0, &[(1, 0, Sector(0xaa))]),
    Collect(0, 1),
];

static KILL_AFTER_PUBLICATION: [Said; 12] = [
    Flush(0),
    Flush(0),
    Start(0, &[]),
    Accept(0, 0),
    Accept(0, 1),
    Sync(0, 0),
    Sync(0, 1),
    Publish(0, &[(0, 0, Nothing), (1, 0, Nothing)]),
    Kill,
    Start(0, &[]),
    Collect(0, 0),
    Collect(0, 1),
];

static RESUBMITTED: [Said; 16] = [
    Flush(0),
    Flush(0),
    Start(0, &[]),
    Accept(0, 0),
    Accept(0, 1),
    Sync(0, 0),
    Sync(0, 1),
    Kill,
    Start(0, &[0, 1]),
    Sync(0, 1),
    Sync(0, 0),
    Publish(0, &[(1, 0, Nothing), (0, 0, Nothing)]),
    Kill,
    Start(0, &[]),
    Collect(0, 1),
    Collect(0, 0),
];

static ACTS_LATE: [Said; 18] = [
    Write(0, 0, &[0xaa]),
    Write(0, 0, &[0xbb]),
    Start(0, &[]),
    Accept(0, 0),
    Accept(0, 1),
    Act(0, 0, 0, 0xaa),
    Kill,
    Start(0, &[0, 1]),
    Act(0, 1, 0, 0xbb),
    Publish(0, &[(1, 0, Nothing)]),
    Act(0, 0, 0, 0xaa),
    Publish(0, &[(0, 0, Nothing)]),
    Collect(0, 1),
    Collect(0, 0),
    Read(0, 0, 1),
    Accept(0, 2),
    Look(0, 2, 0, 0xaa),
    Publish(0, &[(2, 0, Sector(0xaa))]),
];

static POWER_STOP: [Said; 16] = [
    Write(0, 0, &[0xaa]),
    Start(0, &[]),
    Accept(0, 0),
    Act(0, 0, 0, 0xaa),
    Publish(0, &[(0, 0, Nothing)]),
    Collect(0, 0),
    Flush(0),
    Accept(0, 1),
    Sync(0, 1),
    Publish(0, &[(1, 0, Nothing)]),
    Collect(0, 1),
    Write(0, 0, &[0xbb]),
    Accept(0, 2),
    Act(0, 2, 0, 0xbb),
    Publish(0, &[(2, 0, Nothing)]),
    Power(&[(0, 0xaa)]),
];

static PARTLY_KEPT: [Said; 7] = [
    Write(0, 0, &[0xaa, 0xbb]),
    Start(0, &[]),
    Accept(0, 0),
    Act(0, 0, 0, 0xaa),
    Act(0, 0, 1, 0xbb),
    Publish(0, &[(0, 0, Nothing)]),
    Power(&[(1, 0xbb)]),
];

static ANEW: [Said; 16] = [
    Write(0, 2, &[0xaa, 0xbb]),
    Flush(1),
    Start(0, &[]),
    Accept(0, 0),
    Start(1, &[]),
    Act(0, 0, 2, 0xaa),
    Accept(1, 0),
    Act(0, 0, 3, 0xbb),
    Sync(1, 0),
    Power(&[(2, 0xaa), (3, 0xbb)]),
    Read(0, 1, 2),
    Start(0, &[]),
    Accept(0, 0),
    Look(0, 0, 1, 0),
    Look(0, 0, 2, 0xaa),
    Kill,
];

static FAILING_WRITE: [Said; 11] = [
    Write(0, 1, &[0x11, 0x22, 0x33]),
    Start(0, &[]),
    Accept(0, 0),
    Act(0, 0, 1, 0x11),
    Fault(0, 0),
    Publish(0, &[(0, 1, Nothing)]),
    Collect(0, 0),
    Flush(0),
    Accept(0, 1),
    Sync(0, 1),
    Publish(0, &[(1, 0, Nothing)]),
];

static FIXED_ANSWERS: [Said; 8] = [
    Read(0, 7, 2),
    Start(0, &[]),
    Accept(0, 0),
    Publish(0, &[(0, 1, Nothing)]),
    Collect(0, 0),
    Discard(
        0,
        Part {
            sector: 0,
            count: 1,
            flags: 1,
        },
    ),
    Accept(0, 1),
    Publish(0, &[(1, 2, Nothing)]),
];

static READ_ONLY: [Said; 4] = [
    Write(0, 0, &[0xaa]),
    Start(0, &[]),
    Accept(0, 0),
    Publish(0, &[(0, 1, Nothing)]),
];

static WRITE_THROUGH: [Said; 7] = [
    Write(0, 0, &[0xaa]),
    Start(0, &[]),
    Accept(0, 0),
    Act(0, 0, 0, 0xaa),
    Sync(0, 0),
    Publish(0, &[(0, 0, Nothing)]),
    Power(&[(0, 0xaa)]),
];

static FLUSH_THROUGH: [Said; 4] = [
    Flush(0),
    Start(0, &[]),
    Accept(0, 0),
    Publish(0, &[(0, 2, Nothing)]),
];

static DISCARDED: [Said; 15] = [
    Write(0, 0, &[0xaa]),
    Start(0, &[]),
    Accept(0, 0),
    Act(0, 0, 0, 0xaa),
    Publish(0, &[(0, 0, Nothing)]),
    Collect(0, 0),
    Discard(
        0,
        Part {
            sector: 0,
            count: 1,
            flags: 0,
        },
    ),
    Accept(0, 1),
    Act(0, 1, 0, 0),
    Publish(0, &[(1, 0, Nothing)]),
    Zero(
        0,
        Part {
            sector: 6,
            count: 2,
            flags: 1,
        },
    ),
    Accept(0, 2),
    Act(0, 2, 6, 0),
    Act(0, 2, 7, 0),
    Publish(0, &[(2, 0, Nothing)]),
];

static NAMED: [Said; 4] = [
    Id(0),
    Start(0, &[]),
    Accept(0, 0),
    Publish(0, &[(0, 0, Name)]),
];

fn told(story: Story) -> &'static [Said] {
    match story {
        Story::Plain => &PLAIN,
        Story::KillAfterPublication => &KILL_AFTER_PUBLICATION,
        Story::Resubmitted => &RESUBMITTED,
        Story::ActsLate => &ACTS_LATE,
        Story::PowerStop => &POWER_STOP,
        Story::PartlyKept => &PARTLY_KEPT,
        Story::Anew => &ANEW,
        Story::FailingWrite => &FAILING_WRITE,
        Story::FixedAnswers => &FIXED_ANSWERS,
        Story::ReadOnly => &READ_ONLY,
        Story::WriteThrough => &WRITE_THROUGH,
        Story::FlushThrough => &FLUSH_THROUGH,
        Story::Discarded => &DISCARDED,
        Story::Named => &NAMED,
    }
}

fn mode_of(story: Story) -> CacheMode {
    match story {
        Story::ReadOnly => CacheMode::ReadOnly,
        Story::WriteThrough | Story::FlushThrough => CacheMode::Through,
        _ => CacheMode::Back,
    }
}

fn spelled(alloc: Global, said: &Said) -> Result<Entry, AllocError> {
    Ok(match said {
        Read(queue, sector, count) => {
            Entry::Offer(
                *queue,
                Asked::Read {
                    sector: *sector,
                    count: *count,
                },
            )
        }
        Write(queue, sector, fills) => {
            let mut bytes = Vec::new(alloc);
            for fill in *fills {
                bytes.extend_from_slice(&[*fill; 512])?;
            }
            Entry::Offer(
                *queue,
                Asked::Write {
                    sector: *sector,
                    bytes: Bytes::new(bytes),
                },
            )
        }
        Flush(queue) => Entry::Offer(*queue, Asked::Flush),
        Id(queue) => Entry::Offer(*queue, Asked::Id),
        Discard(queue, part) => Entry::Offer(*queue, Asked::Discard(parts(*part))),
        Zero(queue, part) => Entry::Offer(*queue, Asked::Zero(parts(*part))),
        Accept(queue, number) => Entry::Accept(*queue, *number),
        Look(queue, number, sector, fill) => Entry::Look(*queue, *number, *sector, [*fill; 512]),
        Act(queue, number, sector, fill) => Entry::Act(*queue, *number, *sector, [*fill; 512]),
        Sync(queue, number) => Entry::Sync(*queue, *number),
        Fault(queue, number) => Entry::Fault(*queue, *number),
        Publish(queue, answers) => Entry::Publish(*queue, answered(alloc, answers)?),
        Kill => Entry::Kill,
        Start(queue, numbers) => Entry::Start(
            *queue,
            NumberList::new(Vec::from_slice(alloc, numbers)?),
        ),
        Collect(queue, number) => Entry::Collect(*queue, *number),
        Power(sectors) => Entry::Power(image(alloc, sectors)?),
    })
}

fn parts(part: Part) -> ArrayVec<Part, 4> {
    let mut parts = ArrayVec::new();
    parts.push(part);
    parts
}

fn answered(alloc: Global, answers: &[(u64, u8, Shown)]) -> Result<AnswerList, AllocError> {
    let mut list = Vec::new(alloc);
    for (number, status, shown) in answers {
        let mut bytes = Vec::new(alloc);
        match shown {
            Nothing => {}
            Name => bytes.extend_from_slice(b"vublk\0\0\0\0\0\0\0\0\0\0\0\0\0\0\0")?,
            Sector(fill) => bytes.extend_from_slice(&[*fill; 512])?,
        }
        list.push(Answered {
            number: *number,
            status: *status,
            bytes: Bytes::new(bytes),
        })?;
    }
    Ok(AnswerList::new(list))
}

fn image(alloc: Global, sectors: &[(u64, u8)]) -> Result<SectorList, AllocError> {
    let mut list = Vec::new(alloc);
    for (sector, fill) in sectors {
        list.push(SectorValue {
            sector: *sector,
            value: [*fill; 512],
        })?;
    }
    Ok(SectorList::new(list))
}

/// What a history has in place of what is told. Places count from 0.
#[derive(Clone, Copy)]
enum Change {
    Same,
    Drop(usize),
    Double(usize),
    /// This entry and the next in the other order.
    Swap(usize),
    Put(usize, Said),
    /// These entries before this place.
    Before(usize, &'static [Said]),
}

use Change::*;

/// What a story tells, changed.
fn changed(alloc: Global, story: &[Said], change: Change) -> Result<Vec<Said>, AllocError> {
    let mut said = Vec::new(alloc);
    let mut held = None;
    for (index, one) in story.iter().enumerate() {
        match change {
            Drop(place) if place == index => {}
            Double(place) if place == index => said.extend_from_slice(&[*one, *one])?,
            Swap(place) if place == index => held = Some(*one),
            Put(place, other) if place == index => said.push(other)?,
            Before(place, others) if place == index => {
                said.extend_from_slice(others)?;
                said.push(*one)?;
            }
            _ => {
                said.push(*one)?;
                if let Some(earlier) = held.take() {
                    said.push(earlier)?;
                }
            }
        }
    }
    Ok(said)
}

fn spelled_all(alloc: Global, said: &[Said]) -> Result<Vec<Entry>, AllocError> {
    let mut entries = Vec::new(alloc);
    for one in said {
        entries.push(spelled(alloc, one)?)?;
    }
    Ok(entries)
}

/// The sectors of the device.
const CAPACITY: u64 = 8;

static LEGAL: [(&str, Story, Change); 24] = [
    ("the plain path", Story::Plain, Same),
    (
        "a kill after publication",
        Story::KillAfterPublication,
        Same,
    ),
    (
        "a recovery that is cut",
        Story::KillAfterPublication,
        Double(8),
    ),
    ("a resubmission", Story::Resubmitted, Same),
    ("a write that acts late", Story::ActsLate, Same),
    ("a power stop that loses a write", Story::PowerStop, Same),
    (
        "a power stop that keeps it",
        Story::PowerStop,
        Put(15, Power(&[(0, 0xbb)])),
    ),
    (
        "a power stop that keeps a sector of two",
        Story::PartlyKept,
        Same,
    ),
    ("a power stop and numbers from 0", Story::Anew, Same),
    (
        "a power stop that loses a sync of the other queue",
        Story::Anew,
        Put(9, Power(&[(2, 0xaa), (3, 0xbb)])),
    ),
    ("a failing write", Story::FailingWrite, Same),
    (
        "an answer to a failing write that is whole all the same",
        Story::FailingWrite,
        Before(4, &[Act(0, 0, 2, 0x22)]),
    ),
    ("fixed answers", Story::FixedAnswers, Same),
    ("a write to a read-only device", Story::ReadOnly, Same),
    ("write through", Story::WriteThrough, Same),
    ("a flush without a cache", Story::FlushThrough, Same),
    ("discard and zeros", Story::Discarded, Same),
    ("a name", Story::Named, Same),
    ("a kill before anything", Story::Plain, Before(0, &[Kill])),
    (
        "a power stop before anything",
        Story::Plain,
        Before(0, &[Power(&[])]),
    ),
    (
        "an offer to a queue that never starts",
        Story::Plain,
        Before(3, &[Id(3)]),
    ),
    ("a second kill at once", Story::Resubmitted, Double(7)),
    ("a collection later", Story::Plain, Swap(5)),
    (
        "a read that begins again in another life",
        Story::Plain,
        Before(9, &[Kill, Start(0, &[1]), Look(0, 1, 0, 0xaa)]),
    ),
];

static ILLEGAL: [(&str, Story, Change); 72] = [
    ("accept: the queue isn't started", Story::Plain, Drop(1)),
    ("accept: nothing was offered", Story::Plain, Drop(0)),
    (
        "accept: not the next number",
        Story::Plain,
        Put(2, Accept(0, 1)),
    ),
    ("accept: twice", Story::Plain, Double(2)),
    (
        "accept: another queue's",
        Story::Plain,
        Put(2, Accept(1, 0)),
    ),
    ("accept: after a kill", Story::Plain, Before(7, &[Kill])),
    (
        "look: another value",
        Story::Plain,
        Put(8, Look(0, 1, 0, 0xbb)),
    ),
    (
        "look: another sector",
        Story::Plain,
        Put(8, Look(0, 1, 1, 0)),
    ),
    ("look: no sector is left", Story::Plain, Double(8)),
    ("look: not accepted yet", Story::Plain, Swap(7)),
    (
        "look: published already",
        Story::Plain,
        Before(10, &[Kill, Start(0, &[]), Look(0, 1, 0, 0xaa)]),
    ),
    ("look: of a write", Story::Plain, Put(3, Look(0, 0, 0, 0))),
    (
        "look: a refused read",
        Story::FixedAnswers,
        Before(3, &[Look(0, 0, 7, 0)]),
    ),
    ("look: not the next sector", Story::Anew, Swap(13)),
    (
        "look: not what the power stop left",
        Story::Anew,
        Put(13, Look(0, 0, 1, 0xaa)),
    ),
    (
        "act: another value",
        Story::Plain,
        Put(3, Act(0, 0, 0, 0xbb)),
    ),
    (
        "act: another sector",
        Story::Plain,
        Put(3, Act(0, 0, 1, 0xaa)),
    ),
    ("act: no sector is left", Story::Plain, Double(3)),
    ("act: not accepted yet", Story::Plain, Swap(2)),
    (
        "act: another request's number",
        Story::ActsLate,
        Put(5, Act(0, 1, 0, 0xaa)),
    ),
    ("act: not in order", Story::Discarded, Swap(12)),
    ("act: after a fault", Story::FailingWrite, Swap(3)),
    (
        "act: on a read-only device",
        Story::ReadOnly,
        Before(3, &[Act(0, 0, 0, 0xaa)]),
    ),
    (
        "act: a discard writes zeros",
        Story::Discarded,
        Put(8, Act(0, 1, 0, 0xaa)),
    ),
    ("act: of a read", Story::Plain, Put(8, Act(0, 1, 0, 0))),
    (
        "sync: twice in a life",
        Story::KillAfterPublication,
        Double(5),
    ),
    (
        "sync: not accepted yet",
        Story::KillAfterPublication,
        Before(3, &[Sync(0, 0)]),
    ),
    (
        "sync: a cached write",
        Story::Plain,
        Before(4, &[Sync(0, 0)]),
    ),
    (
        "sync: a write that isn't written",
        Story::WriteThrough,
        Swap(3),
    ),
    (
        "sync: a refused flush",
        Story::FlushThrough,
        Before(3, &[Sync(0, 0)]),
    ),
    (
        "sync: after a fault",
        Story::FailingWrite,
        Before(9, &[Fault(0, 1)]),
    ),
    ("sync: before a start", Story::Resubmitted, Swap(8)),
    ("fault: twice in a life", Story::FailingWrite, Double(4)),
    (
        "fault: a name needs no disk",
        Story::Named,
        Before(3, &[Fault(0, 0)]),
    ),
    (
        "fault: a refused read",
        Story::FixedAnswers,
        Before(3, &[Fault(0, 0)]),
    ),
    (
        "fault: published already",
        Story::FailingWrite,
        Before(6, &[Fault(0, 0)]),
    ),
    (
        "fault: another queue's",
        Story::FailingWrite,
        Put(4, Fault(1, 0)),
    ),
    ("publish: nothing", Story::Plain, Put(4, Publish(0, &[]))),
    ("publish: twice", Story::Plain, Double(4)),
    (
        "publish: a number twice at once",
        Story::Plain,
        Put(4, Publish(0, &[(0, 0, Nothing), (0, 0, Nothing)])),
    ),
    (
        "publish: a number that isn't open",
        Story::Plain,
        Put(4, Publish(0, &[(1, 0, Nothing)])),
    ),
    (
        "publish: a number beside one that isn't open",
        Story::Plain,
        Put(4, Publish(0, &[(0, 0, Nothing), (1, 0, Nothing)])),
    ),
    ("publish: after a kill", Story::Plain, Before(4, &[Kill])),
    ("publish: OK without an act", Story::Plain, Drop(3)),
    (
        "publish: OK by an act of an earlier life",
        Story::ActsLate,
        Drop(10),
    ),
    (
        "publish: OK by a sync of an earlier life",
        Story::Resubmitted,
        Drop(10),
    ),
    (
        "publish: OK without a sync",
        Story::KillAfterPublication,
        Drop(5),
    ),
    ("publish: OK without a look", Story::Plain, Drop(8)),
    (
        "publish: OK without the last act",
        Story::Discarded,
        Drop(13),
    ),
    (
        "publish: OK after a fault",
        Story::FailingWrite,
        Put(5, Publish(0, &[(0, 0, Nothing)])),
    ),
    (
        "publish: OK of a write through without a sync",
        Story::WriteThrough,
        Drop(4),
    ),
    (
        "publish: OK to a refused read",
        Story::FixedAnswers,
        Put(3, Publish(0, &[(0, 0, Nothing)])),
    ),
    (
        "publish: OK to a refused flush",
        Story::FlushThrough,
        Put(3, Publish(0, &[(0, 0, Nothing)])),
    ),
    (
        "publish: OK with bytes",
        Story::Plain,
        Put(4, Publish(0, &[(0, 0, Sector(0xaa))])),
    ),
    (
        "publish: other bytes than were read",
        Story::Plain,
        Put(9, Publish(0, &[(1, 0, Sector(0xbb))])),
    ),
    (
        "publish: no bytes of a read",
        Story::Plain,
        Put(9, Publish(0, &[(1, 0, Nothing)])),
    ),
    (
        "publish: no name",
        Story::Named,
        Put(3, Publish(0, &[(0, 0, Nothing)])),
    ),
    (
        "publish: 1 without a fault",
        Story::Plain,
        Put(4, Publish(0, &[(0, 1, Nothing)])),
    ),
    (
        "publish: 1 by a fault of an earlier life",
        Story::FailingWrite,
        Before(5, &[Kill, Start(0, &[0])]),
    ),
    (
        "publish: 1 with bytes",
        Story::FailingWrite,
        Put(5, Publish(0, &[(0, 1, Sector(0x11))])),
    ),
    (
        "publish: 1 where the answer is 2",
        Story::FixedAnswers,
        Put(7, Publish(0, &[(1, 1, Nothing)])),
    ),
    (
        "publish: 2 where the answer is 1",
        Story::FixedAnswers,
        Put(3, Publish(0, &[(0, 2, Nothing)])),
    ),
    (
        "publish: 2 with bytes",
        Story::FixedAnswers,
        Put(7, Publish(0, &[(1, 2, Sector(0))])),
    ),
    (
        "publish: an unknown status",
        Story::Plain,
        Put(4, Publish(0, &[(0, 3, Nothing)])),
    ),
    ("start: twice in a life", Story::Plain, Double(1)),
    (
        "start: open numbers are left out",
        Story::Resubmitted,
        Put(8, Start(0, &[1])),
    ),
    (
        "start: not rising",
        Story::Resubmitted,
        Put(8, Start(0, &[1, 0])),
    ),
    (
        "start: a published number",
        Story::KillAfterPublication,
        Put(9, Start(0, &[0])),
    ),
    (
        "start: a number that isn't accepted",
        Story::Plain,
        Put(1, Start(0, &[0])),
    ),
    ("collect: not published yet", Story::Plain, Swap(4)),
    ("collect: not in order", Story::Resubmitted, Swap(14)),
    ("collect: twice", Story::Plain, Double(5)),
];

static NO_IMAGES: [(&str, Story, Change); 9] = [
    (
        "power: a value from before the last flush",
        Story::PowerStop,
        Put(15, Power(&[])),
    ),
    (
        "power: a value that was never written",
        Story::PowerStop,
        Put(15, Power(&[(0, 0xcc)])),
    ),
    (
        "power: a sector that was never written",
        Story::PowerStop,
        Put(15, Power(&[(0, 0xaa), (1, 0xaa)])),
    ),
    (
        "power: a value from before the sync of a write through",
        Story::WriteThrough,
        Put(6, Power(&[])),
    ),
    (
        "power: the value of another sector",
        Story::PartlyKept,
        Put(6, Power(&[(0, 0xbb)])),
    ),
    (
        "power: past the capacity",
        Story::PowerStop,
        Put(15, Power(&[(0, 0xaa), (8, 0xaa)])),
    ),
    (
        "power: not rising",
        Story::Anew,
        Put(9, Power(&[(3, 0xbb), (2, 0xaa)])),
    ),
    (
        "power: a sector twice",
        Story::Anew,
        Put(9, Power(&[(2, 0xaa), (2, 0xaa), (3, 0xbb)])),
    ),
    (
        "power: a sector of zeros is listed",
        Story::Anew,
        Put(9, Power(&[(0, 0), (2, 0xaa), (3, 0xbb)])),
    ),
];

fn judged(alloc: Global, story: Story, change: Change) -> Result<bool, AllocError> {
    let said = changed(alloc, told(story), change)?;
    let history = spelled_all(alloc, &said)?;
    Ok(is_legal(CAPACITY, mode_of(story), &history))
}

#[test]
fn histories_are_judged(rt: HostRuntime) -> Result<(), AllocError> {
    let alloc = rt.alloc();
    for (name, story, change) in &LEGAL {
        assert!(rt; judged(alloc, *story, *change)?, "{name}");
    }
    for (name, story, change) in ILLEGAL.iter().chain(NO_IMAGES.iter()) {
        assert!(rt; !judged(alloc, *story, *change)?, "{name}");
    }
    Ok(())
}
