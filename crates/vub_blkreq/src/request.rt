//! A request as the device reads it (VIRTIO 1.2, 5.2.6).
ghost use Rattle.std.specs.Prelude.{◌≡◌, ◌≤◌, ◌+◌, ◌-◌, ◌*◌, ◌/◌, min, length, nat_lt, nat_le, ◌||◌, Some, Ok, Err, if◌then◌else◌};
ghost use Rattle.std.specs.List.{list_any};
ghost use Rattle.vub_base.specs.declared.standard.TheConstants.{SECTOR_SIZE, VIRTIO_BLK_S_IOERR};
ghost use Rattle.vub_blkreq.specs.declared.request.TheConstants.{HEADER_SIZE, PART_SIZE, FRONT_SIZE};
ghost use Rattle.vub_blkreq.specs.declared.config.TheConstants.{MAX_PARTS};
ghost use Rattle.vub_blkreq.specs.Requests.{is_torn, is_parts_size, is_outside, has_flags_above, part_at, parts_of, parts_or_status, or_fixed, meaning_of_type, meaning};

use crate::config::{MAX_PART_SECTORS, MAX_PARTS};
use crate::request_type::RequestType;
use arrayvec::ArrayVec;
use vub_base::standard::{
    REQUEST_HEADER_SIZE, REQUEST_SECTOR, REQUEST_TYPE, SECTOR_SIZE, VIRTIO_BLK_ID_BYTES,
    VIRTIO_BLK_S_IOERR, VIRTIO_BLK_S_UNSUPP, VIRTIO_BLK_WRITE_ZEROES_FLAG_UNMAP,
};
use vub_base::{Part, get_u32, get_u64};

/// The bytes of a request's header: its type, four reserved bytes, its sector.
pub const HEADER_SIZE: u64 = REQUEST_HEADER_SIZE as u64;

/// The bytes of a part of a discard or of a zeroing: its sector, its count of sectors, its flags.
pub const PART_SIZE: u64 = 16;

/// The most bytes of a request that tell what it means: its header and its parts.
pub const FRONT_SIZE: u64 = HEADER_SIZE + MAX_PARTS as u64 * PART_SIZE;

/// The bytes of the status, behind the data that the device writes.
pub const STATUS_SIZE: u64 = 1;

/// Where a part has its count of sectors and its flags, behind its sector.
const PART_COUNT_AT: usize = 8;

const PART_FLAGS_AT: usize = 12;

/// No flag of a part is known.
const NO_FLAGS: u32 = 0;

/// What a device was negotiated to be, and its size.
#[derive(Clone, Copy, Debug, PartialEq, Eq)]
pub struct DeviceMode {
    /// In sectors of 512 bytes.
    pub capacity: u64,
    pub read_only: bool,
    /// Whether flushes were negotiated.
    pub flush: bool,
    /// Whether discards were negotiated.
    pub discard: bool,
    /// Whether zeroing was negotiated.
    pub write_zeroes: bool,
}

/// What a request asks for. Sectors are of 512 bytes, and lie within the capacity of the device.
#[derive(Debug, Drop, PartialEq, Eq)]
pub enum Request {
    /// Read `count` sectors from `sector` on.
    Read { sector: u64, count: u64 },
    /// Write `count` sectors from `sector` on.
    Write { sector: u64, count: u64 },
    /// Make all that was written stable.
    Flush,
    /// Read the name of the device.
    Id,
    /// Give up the sectors of these parts.
    Discard(ArrayVec<Part, 4>),
    /// Write zeros to the sectors of these parts.
    Zero(ArrayVec<Part, 4>),
    /// Nothing but this status: 1 for an error, 2 for a request that isn't supported.
    Fixed(u8),
}

/// Whether so many sectors from one on end within the capacity.
fn is_within(capacity: u64, sector: u64, count: u64) -> bool
    ensures { result ≡ nat_le (sector + count) capacity }
{
    matches!(sector.checked_add(count), Some(end) if end <= capacity)
}

/// The part whose bytes begin at a place.
fn part_at(front: &[u8], at: usize) -> Part
    requires { at + PART_SIZE ≤ length front.now }
    ensures { result ≡ part_at front.now at }
{
    Part {
        sector: get_u64(front, at),
        count: get_u32(front, at + PART_COUNT_AT),
        flags: get_u32(front, at + PART_FLAGS_AT),
    }
}

/// The parts behind the header.
fn parts_of(front: &[u8], count: usize) -> ArrayVec<Part, 4>
    requires few { count ≤ MAX_PARTS }
    requires fits { HEADER_SIZE + PART_SIZE * count ≤ length front.now }
    ensures { result.items ≡ parts_of front.now count }
{
    let mut parts = ArrayVec::new();
    for index in 0..count {
        parts.push(part_at(front, HEADER_SIZE as usize + PART_SIZE as usize * index));
    }
    parts
}

/// Whether a part has too many sectors, or ends past the capacity.
fn is_outside(capacity: u64, part: &Part) -> bool
    ensures { result ≡ is_outside capacity part.now }
{
    part.count > MAX_PART_SECTORS || !is_within(capacity, part.sector, u64::from(part.count))
}

/// Whether one of these parts has too many sectors, or ends past the capacity.
fn any_outside(capacity: u64, parts: &[Part]) -> bool
    ensures { result ≡ list_any (is_outside capacity) parts.now }
{
    parts.iter().any(|part| is_outside(capacity, part))
}

/// Whether one of these parts has flags above the known ones.
fn any_flags_above(known: u32, parts: &[Part]) -> bool
    ensures { result ≡ list_any (has_flags_above known) parts.now }
{
    parts.iter().any(|part| part.flags > known)
}

/// Whether so many bytes are one to four whole parts.
fn is_parts_size(size: u64) -> bool
    ensures { result ≡ is_parts_size size }
{
    size % PART_SIZE == 0 && size > 0 && size <= u64::from(MAX_PARTS) * PART_SIZE
}

/// How many sectors a read or a write of so many bytes has, or the status that refuses it: they
/// aren't whole sectors, or don't lie within the capacity.
fn sectors_within(capacity: u64, sector: u64, size: u64) -> Result<u64, u8>
    ensures { result ≡ (if is_torn size || nat_lt capacity (sector + size / SECTOR_SIZE) then Err VIRTIO_BLK_S_IOERR else Ok (size / SECTOR_SIZE)) }
{
    let count = size / SECTOR_SIZE as u64;
    if size % SECTOR_SIZE as u64 != 0 || !is_within(capacity, sector, count) {
        return Err(VIRTIO_BLK_S_IOERR);
    }
    Ok(count)
}

/// The parts of a discard or a zeroing, or the status that refuses it for them. `known` is the
/// greatest value of flags that it supports.
fn parts_within(front: &[u8], size: u64, known: u32, capacity: u64) -> Result<ArrayVec<Part, 4>, u8>
    requires { length front.now ≡ HEADER_SIZE + min (MAX_PARTS * PART_SIZE) size }
    ensures { result ≡ parts_or_status capacity known front.now size }
{
    if !is_parts_size(size) {
        return Err(VIRTIO_BLK_S_IOERR);
    }
    let parts = parts_of(front, (size / PART_SIZE) as usize);
    if any_flags_above(known, &parts) {
        return Err(VIRTIO_BLK_S_UNSUPP);
    }
    if any_outside(capacity, &parts) {
        return Err(VIRTIO_BLK_S_IOERR);
    }
    Ok(parts)
}

/// What a request of a type asks for, or the status that refuses it.
fn unless_refused(
    kind: RequestType,
    front: &[u8],
    readable: u64,
    writable: u64,
    mode: &DeviceMode,
) -> Result<Request, u8>
    requires header { HEADER_SIZE ≤ readable }
    requires front { length front.now ≡ min FRONT_SIZE readable }
    requires status { 1 ≤ writable }
    ensures { or_fixed result ≡ meaning_of_type mode.now (record { front = front.now; readable = readable; writable = writable }) (Some kind) }
{
    if kind.lacks_feature(mode) {
        return Err(VIRTIO_BLK_S_UNSUPP);
    }
    if mode.read_only && kind.writes_sectors() {
        return Err(VIRTIO_BLK_S_IOERR);
    }
    let capacity = mode.capacity;
    let sector = get_u64(front, REQUEST_SECTOR);
    let read = readable - HEADER_SIZE;
    let written = writable - STATUS_SIZE;
    let request = match kind {
        RequestType::In => {
            let count = sectors_within(capacity, sector, written)?;
            Request::Read { sector, count }
        }
        RequestType::Out => {
            let count = sectors_within(capacity, sector, read)?;
            Request::Write { sector, count }
        }
        RequestType::Flush => Request::Flush,
        RequestType::GetId => {
            if written != VIRTIO_BLK_ID_BYTES as u64 {
                return Err(VIRTIO_BLK_S_IOERR);
            }
            Request::Id
        }
        RequestType::Discard => { Request::Discard(parts_within(front, read, NO_FLAGS, capacity)?) }
        RequestType::WriteZeroes => {
            let known = VIRTIO_BLK_WRITE_ZEROES_FLAG_UNMAP;
            Request::Zero(parts_within(front, read, known, capacity)?)
        }
    };
    Ok(request)
}

/// What a request means to a device. `front` is the first 80 of the `readable` bytes that the device
/// may read, or all of them; of the `writable` bytes that it may write, the last is the status.
/// Takes no memory.
pub fn parse(front: &[u8], readable: u64, writable: u64, mode: &DeviceMode) -> Request
    requires front { length front.now ≡ min FRONT_SIZE readable }
    requires status { 1 ≤ writable }
    ensures { result ≡ meaning mode.now (record { front = front.now; readable = readable; writable = writable }) }
{
    if readable < HEADER_SIZE {
        return Request::Fixed(VIRTIO_BLK_S_IOERR);
    }
    let Some(kind) = RequestType::of_number(get_u32(front, REQUEST_TYPE)) else {
        return Request::Fixed(VIRTIO_BLK_S_UNSUPP);
    };
    match unless_refused(kind, front, readable, writable, mode) {
        Ok(request) => request,
        Err(status) => Request::Fixed(status),
    }
}
