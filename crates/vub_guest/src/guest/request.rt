//! A request of the driver as bytes (VIRTIO 1.2, 5.2.6 and 2.7.5).
ghost use Rattle.std.specs.Prelude.{◌≡◌, ◌<◌, ◌≤◌, ◌+◌, ◌++◌, ◌^◌, List, length, nat_lt, replicate, flat_map};
ghost use Rattle.vub_driver.specs.Requests.{request_type, first_sector, header_bytes, part_bytes, written_bytes, data_place};
ghost use Rattle.vub_guest.specs.GuestRequest.{is_read, data_len, table_entry};

use crate::layout::SECTORS;
use arrayvec::ArrayVec;
use vub_base::standard::{
    REQUEST_HEADER_SIZE, REQUEST_SECTOR, REQUEST_TYPE, SECTOR_SIZE, VIRTIO_BLK_ID_BYTES,
    VIRTIO_BLK_T_DISCARD, VIRTIO_BLK_T_FLUSH, VIRTIO_BLK_T_GET_ID, VIRTIO_BLK_T_IN,
    VIRTIO_BLK_T_OUT, VIRTIO_BLK_T_WRITE_ZEROES, VIRTQ_DESC_F_NEXT, VIRTQ_DESC_F_WRITE,
};
use vub_base::{Ask, Part, put_u16, put_u32, put_u64};
use vub_split::layout::{DESC_ADDR, DESC_FLAGS, DESC_LEN, DESC_NEXT, DESC_SIZE};

/// The most bytes that a request hands over besides its header: eight sectors.
pub const MOST_WRITTEN: usize = 4096;

/// The parts of a discard or a zeroing, from the start of their buffer.
const PARTS: u64 = 32;

/// The bytes of a part (VIRTIO 1.2, 5.2.6): its first sector, the count of its sectors, and its flags.
const PART_SIZE: usize = 16;

/// The type of a request.
fn request_type(ask: &Ask) -> u32
    ensures { result ≡ request_type ask.now }
{
    match ask {
        Ask::Read { .. } => VIRTIO_BLK_T_IN,
        Ask::Write { .. } => VIRTIO_BLK_T_OUT,
        Ask::Flush => VIRTIO_BLK_T_FLUSH,
        Ask::Id => VIRTIO_BLK_T_GET_ID,
        Ask::Discard(_) => VIRTIO_BLK_T_DISCARD,
        Ask::Zero(_) => VIRTIO_BLK_T_WRITE_ZEROES,
    }
}

fn first_sector(ask: &Ask) -> u64
    ensures { result ≡ first_sector ask.now }
{
    match ask {
        Ask::Read { sector, .. } | Ask::Write { sector, .. } => *sector,
        Ask::Flush | Ask::Id | Ask::Discard(_) | Ask::Zero(_) => 0,
    }
}

/// The header: the type, four reserved bytes, and the first sector.
pub fn header(ask: &Ask) -> [u8; REQUEST_HEADER_SIZE]
    ensures { result ≡ header_bytes ask.now }
{
    let mut bytes = [0u8; REQUEST_HEADER_SIZE];
    put_u32(&mut bytes, REQUEST_TYPE, request_type(ask));
    put_u64(&mut bytes, REQUEST_SECTOR, first_sector(ask));
    bytes
}

/// Whether the device writes the data of the request.
pub fn is_read(ask: &Ask) -> bool
    ensures { result ≡ is_read ask.now }
{
    matches!(ask, Ask::Read { .. } | Ask::Id)
}

#[tactic(auto, using(crate::proofs::RequestLemmas::data_len_of_write, crate::proofs::RequestLemmas::data_len_of_parts))]
/// The bytes of data between the header and the status.
pub fn data_len(ask: &Ask) -> u32
    ensures { result ≡ data_len ask.now }
{
    match ask {
        Ask::Read { count, .. } => SECTOR_SIZE as u32 * u32::from(*count),
        Ask::Write { fills, .. } => SECTOR_SIZE as u32 * (fills.len() as u32),
        Ask::Flush => 0,
        Ask::Id => VIRTIO_BLK_ID_BYTES as u32,
        Ask::Discard(parts) | Ask::Zero(parts) => PART_SIZE as u32 * (parts.len() as u32),
    }
}

/// Whether the driver hands over bytes besides the header.
pub fn has_written(ask: &Ask) -> bool
    ensures { result ≡ nat_lt 0 (length (written_bytes ask.now)) }
{
    match ask {
        Ask::Write { fills, .. } => !fills.is_empty(),
        Ask::Discard(parts) | Ask::Zero(parts) => !parts.is_empty(),
        Ask::Read { .. } | Ask::Flush | Ask::Id => false,
    }
}

/// Appends bytes for which there is room.
fn append(bytes: &mut ArrayVec<u8, MOST_WRITTEN>, more: &[u8])
    requires { length bytes.old.items + length more.now ≤ 4096 }
    ensures { bytes.new.items ≡ bytes.old.items ++ more.now }
{
    if bytes.try_extend_from_slice(more).is_err() {
        unreachable!();
    }
}

/// The written sectors, each filled with its byte.
fn filled_sectors(fills: &[u8]) -> ArrayVec<u8, MOST_WRITTEN>
    requires { length fills.now ≤ 8 }
    ensures { result.items ≡ flat_map (λ b. replicate 512 b) fills.now }
{
    let mut sectors = ArrayVec::new();
    for fill in fills {
        append(&mut sectors, &[*fill; SECTOR_SIZE]);
    }
    sectors
}

/// A part as it stands in the request.
fn part_record(part: &Part) -> [u8; PART_SIZE]
    ensures { result ≡ part_bytes part.now }
{
    let mut bytes = [0u8; PART_SIZE];
    put_u64(&mut bytes, 0, part.sector);
    put_u32(&mut bytes, 8, part.count);
    put_u32(&mut bytes, 12, part.flags);
    bytes
}

/// The parts of a discard or a zeroing, one after another.
fn part_records(parts: &[Part]) -> ArrayVec<u8, MOST_WRITTEN>
    requires { length parts.now ≤ 4 }
    ensures { result.items ≡ flat_map part_bytes parts.now }
{
    let mut records = ArrayVec::new();
    for part in parts {
        append(&mut records, &part_record(part));
    }
    records
}

/// The bytes that the driver hands over besides the header.
pub fn written(ask: &Ask) -> ArrayVec<u8, MOST_WRITTEN>
    ensures { result.items ≡ written_bytes ask.now }
{
    match ask {
        Ask::Write { fills, .. } => filled_sectors(fills),
        Ask::Discard(parts) | Ask::Zero(parts) => part_records(parts),
        Ask::Read { .. } | Ask::Flush | Ask::Id => ArrayVec::new(),
    }
}

/// Where the data stands in a buffer that begins there.
pub fn data_start(buffer: u64, ask: &Ask) -> u64
    requires { buffer < 2 ^ 48 }
    ensures { result ≡ data_place buffer ask.now }
{
    match ask {
        Ask::Discard(_) | Ask::Zero(_) => buffer + PARTS,
        Ask::Read { .. } | Ask::Write { .. } | Ask::Flush | Ask::Id => buffer + SECTORS,
    }
}

#[tactic(auto, unfolding(crate::specs::GuestRequest::table_entry))]
/// A descriptor as it stands in the table: a part of a buffer, which the device may write or else
/// read, and the next descriptor if another one follows.
pub fn descriptor(place: u64, len: u32, writable: bool, next: Option<u16>) -> [u8; DESC_SIZE]
    ensures { result ≡ table_entry (record { place = place; len = len; writable = writable }) next }
{
    let write = if writable { VIRTQ_DESC_F_WRITE } else { 0 };
    let (flags, index) = match next {
        Some(next) => (write + VIRTQ_DESC_F_NEXT, next),
        None => (write, 0),
    };
    let mut bytes = [0u8; DESC_SIZE];
    put_u64(&mut bytes, DESC_ADDR, place);
    put_u32(&mut bytes, DESC_LEN, len);
    put_u16(&mut bytes, DESC_FLAGS, flags);
    put_u16(&mut bytes, DESC_NEXT, index);
    bytes
}
