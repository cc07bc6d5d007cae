ghost use Rattle.std.specs.Prelude.{◌≡◌};

use arrayvec::ArrayVec;
use std::marker::Model;
use vub_base::standard::SECTOR_SIZE;
use vub_base::{Bytes, Part};

/// A request as the driver offers it to the device (VIRTIO 1.2, 5.2.6). Sectors are of 512 bytes.
#[derive(Debug, Drop)]
pub enum Asked {
    /// Read `count` sectors from `sector` on.
    Read { sector: u64, count: u16 },
    /// Write these bytes, a multiple of 512, from `sector` on.
    Write { sector: u64, bytes: Bytes },
    /// Make all that was written stable.
    Flush,
    /// Read the name of the device.
    Id,
    /// Give up the sectors of these parts.
    Discard(ArrayVec<Part, 4>),
    /// Write zeros to the sectors of these parts.
    Zero(ArrayVec<Part, 4>),
}

/// The answer to a request.
#[derive(Debug, Drop)]
pub struct Answered {
    /// Which offer of its queue it answers, from 0 since the last power stop.
    pub number: u64,
    /// 0 for success, 1 for an error, 2 for a request that isn't supported.
    pub status: u8,
    /// What was read.
    pub bytes: Bytes,
}

/// A sector and the 512 bytes that it holds.
#[derive(Clone, Copy, Debug)]
pub struct SectorValue {
    pub sector: u64,
    pub value: [u8; SECTOR_SIZE],
}

/// A list of answers. Contracts see it as that list.
#[derive(Debug, Drop)]
pub struct AnswerList {
    list: Vec<Answered>,
}

impl Model for AnswerList {
    ghost use Rattle.std.specs.Prelude.{List};
    ghost use Rattle.vub_device.specs.declared.entry.Answered.{Answered};

    ghost Value = { List Answered };

    ghost view = { λ a. a.list.items };
}

impl AnswerList {
    /// The answers of a vector. Takes no memory.
    pub fn new(list: Vec<Answered>) -> AnswerList
        ensures { result ≡ list.items }
    {
        AnswerList { list }
    }

    /// The answers.
    pub fn items(&self) -> &[Answered]
        ensures { result.now ≡ self.now }
    {
        &self.list
    }

    /// The vector of the answers.
    pub fn into_vec(self) -> Vec<Answered>
        ensures { result.items ≡ self }
    {
        self.list
    }
}

/// A list of numbers. Contracts see it as that list.
#[derive(Debug, Drop)]
pub struct NumberList {
    list: Vec<u64>,
}

impl Model for NumberList {
    ghost use Rattle.std.specs.Prelude.{List, ℕ};

    ghost Value = { List ℕ };

    ghost view = { λ n. n.list.items };
}

impl NumberList {
    /// The numbers of a vector. Takes no memory.
    pub fn new(list: Vec<u64>) -> NumberList
        ensures { result ≡ list.items }
    {
        NumberList { list }
    }

    /// The numbers.
    pub fn items(&self) -> &[u64]
        ensures { result.now ≡ self.now }
    {
        &self.list
    }
}

/// A list of sectors with their values. Contracts see it as that list.
#[derive(Debug, Drop)]
pub struct SectorList {
    list: Vec<SectorValue>,
}

impl Model for SectorList {
    ghost use Rattle.std.specs.Prelude.{List};
    ghost use Rattle.vub_device.specs.declared.entry.SectorValue.{SectorValue};

    ghost Value = { List SectorValue };

    ghost view = { λ s. s.list.items };
}

impl SectorList {
    /// The sectors of a vector. Takes no memory.
    pub fn new(list: Vec<SectorValue>) -> SectorList
        ensures { result ≡ list.items }
    {
        SectorList { list }
    }

    /// The sectors.
    pub fn items(&self) -> &[SectorValue]
        ensures { result.now ≡ self.now }
    {
        &self.list
    }
}

/// One thing that happened at the device. `queue` is the queue's index; `number` tells which offer
/// of that queue is meant, counted from 0 since the last power stop.
#[derive(Debug, Drop)]
pub enum Entry {
    /// The driver offered this request on this queue.
    Offer(u16, Asked),
    /// The device took the queue's next offer.
    Accept(u16, u64),
    /// For a request (queue, number) the device read this value of a sector.
    Look(u16, u64, u64, [u8; SECTOR_SIZE]),
    /// For a request (queue, number) the device wrote this value to a sector.
    Act(u16, u64, u64, [u8; SECTOR_SIZE]),
    /// For a request (queue, number) the device made all that was written stable.
    Sync(u16, u64),
    /// A call of the disk for a request (queue, number) failed.
    Fault(u16, u64),
    /// The device showed the driver these answers, at once.
    Publish(u16, AnswerList),
    /// The backend died.
    Kill,
    /// The backend started this queue, and resubmits these numbers.
    Start(u16, NumberList),
    /// The driver took the answer to this number.
    Collect(u16, u64),
    /// The power failed; the disk now holds these values, and zeros in all other sectors.
    Power(SectorList),
}
