//! What a request means: its fixed refusal, and the sectors that it reads and writes.
ghost use Rattle.std.specs.Prelude.{◌≡◌, ◌↔◌, ◌≤◌, ◌+◌, Some, None, IsTrue};
ghost use Rattle.std.specs.List.{list_any};
ghost use Rattle.vub_device.specs.Requests.{zeros, device_name, look_at, zeroed_at, effect_at};
ghost use Rattle.vub_device.specs.Requests.{has_flags_above, is_outside, parts_refusal, refusal};

use crate::entry::Asked;
use vub_base::standard::{SECTOR_SIZE, VIRTIO_BLK_S_IOERR, VIRTIO_BLK_S_UNSUPP};
use vub_base::{CacheMode, Part};

/// The most sectors that a part of a discard or a zeroing may have.
const MOST_SECTORS: u32 = 65_536;

/// Whether a part has too many sectors, or ends past the capacity.
fn is_outside(capacity: u64, part: &Part) -> bool
    ensures { result ≡ is_outside capacity part.now }
{
    part.count > MOST_SECTORS || !is_within(capacity, part.sector, u64::from(part.count))
}

/// Whether a part lies outside the capacity.
fn any_outside(capacity: u64, parts: &[Part]) -> bool
    ensures { result ≡ list_any (is_outside capacity) parts.now }
{
    parts.iter().any(|part| is_outside(capacity, part))
}

/// Whether a part has flags above these.
fn any_flags_above(flags: u32, parts: &[Part]) -> bool
    ensures { result ≡ list_any (has_flags_above flags) parts.now }
{
    parts.iter().any(|part| part.flags > flags)
}

/// The status of a discard or a zeroing that is refused, by its parts. `flags` is the greatest
/// value of flags that it supports.
fn parts_refusal(capacity: u64, mode: CacheMode, flags: u32, parts: &[Part]) -> Option<u8>
    ensures { result ≡ parts_refusal capacity mode flags parts.now }
{
    if mode == CacheMode::ReadOnly {
        return Some(VIRTIO_BLK_S_IOERR);
    }
    if any_flags_above(flags, parts) {
        return Some(VIRTIO_BLK_S_UNSUPP);
    }
    if any_outside(capacity, parts) {
        return Some(VIRTIO_BLK_S_IOERR);
    }
    None
}

/// The status of a request that the device refuses whatever its disk holds, by the capacity in
/// sectors and the cache mode (VIRTIO 1.2, 5.2.6): 1 where it reads or writes past the end or
/// writes to a read-only device, 2 where the device doesn't support it. None where it is carried
/// out.
pub fn refusal(capacity: u64, mode: CacheMode, asked: &Asked) -> Option<u8>
    ensures { result ≡ refusal capacity mode asked.now }
{
    match asked {
        Asked::Read { sector, count } => {
            let fits = is_within(capacity, *sector, u64::from(*count));
            if fits { None } else { Some(VIRTIO_BLK_S_IOERR) }
        }
        Asked::Write { sector, bytes } => {
            let count = bytes.items().len() as u64 / SECTOR_SIZE as u64;
            let fits = is_within(capacity, *sector, count);
            if mode != CacheMode::ReadOnly && fits {
                None
            } else {
                Some(VIRTIO_BLK_S_IOERR)
            }
        }
        Asked::Flush => if mode == CacheMode::Through {
            Some(VIRTIO_BLK_S_UNSUPP)
        } else {
            None
        },
        Asked::Id => None,
        Asked::Discard(parts) => parts_refusal(capacity, mode, 0, parts),
        Asked::Zero(parts) => parts_refusal(capacity, mode, 1, parts),
    }
}

/// Whether so many sectors from one on end within the capacity.
fn is_within(capacity: u64, sector: u64, count: u64) -> bool
    ensures { IsTrue result ↔ (sector + count ≤ capacity) }
{
    matches!(sector.checked_add(count), Some(end) if end <= capacity)
}

/// Whether this sector is the one that the request reads in this place.
pub(crate) fn is_look(asked: &Asked, index: usize, sector: u64) -> bool
    ensures { IsTrue result ↔ (look_at asked.now index ≡ Some sector) }
{
    match asked {
        Asked::Read {
            sector: first,
            count,
        } => { index < usize::from(*count) && sector >= *first && sector - *first == index as u64 }
        _ => false,
    }
}

/// Whether the request reads no sector in this place.
pub(crate) fn ends_looks(asked: &Asked, index: usize) -> bool
    ensures { IsTrue result ↔ (look_at asked.now index ≡ None) }
{
    match asked {
        Asked::Read { count, .. } => index >= usize::from(*count),
        _ => true,
    }
}

/// Whether zeroing the parts in order writes this sector with this value in this place.
fn is_zeroed(parts: &[Part], index: usize, sector: u64, value: &[u8; SECTOR_SIZE]) -> bool
    ensures { IsTrue result
        ↔ (zeroed_at parts.now index ≡ Some (record { sector = sector; value = value.now })) }
{
    match parts {
        [] => false,
        [part, rest @ ..] => {
            let count = part.count as usize;
            if index < count {
                sector >= part.sector && sector - part.sector == index as u64 && is_zeros(value)
            } else {
                is_zeroed(rest, index - count, sector, value)
            }
        }
    }
}

/// Whether zeroing the parts in order writes no sector in this place.
fn ends_zeroed(parts: &[Part], index: usize) -> bool
    ensures { IsTrue result ↔ (zeroed_at parts.now index ≡ None) }
{
    match parts {
        [] => true,
        [part, rest @ ..] => {
            let count = part.count as usize;
            index >= count && ends_zeroed(rest, index - count)
        }
    }
}

/// A sector of zeros.
pub(crate) const ZEROS: [u8; SECTOR_SIZE] = [0; SECTOR_SIZE];

/// Whether a sector holds zeros.
#[tactic(auto, unfolding(crate::specs::Requests::zeros))]
pub(crate) fn is_zeros(value: &[u8; SECTOR_SIZE]) -> bool
    ensures { IsTrue result ↔ (value.now ≡ zeros) }
{
    *value == ZEROS
}

/// Whether the request writes this sector with this value in this place.
pub(crate) fn is_effect(asked: &Asked, index: usize, sector: u64, value: &[u8; SECTOR_SIZE]) -> bool
    ensures { IsTrue result
        ↔ (effect_at asked.now index ≡ Some (record { sector = sector; value = value.now })) }
{
    match asked {
        Asked::Write {
            sector: first,
            bytes,
        } => {
            let bytes = bytes.items();
            index < bytes.len() / SECTOR_SIZE
                && sector >= *first
                && sector - *first == index as u64
                && &bytes[SECTOR_SIZE * index..SECTOR_SIZE * index + SECTOR_SIZE]
                    == value.as_slice()
        }
        Asked::Discard(parts) | Asked::Zero(parts) => is_zeroed(parts, index, sector, value),
        _ => false,
    }
}

/// Whether the request writes no sector in this place.
pub(crate) fn ends_effects(asked: &Asked, index: usize) -> bool
    ensures { IsTrue result ↔ (effect_at asked.now index ≡ None) }
{
    match asked {
        Asked::Write { bytes, .. } => index >= bytes.items().len() / SECTOR_SIZE,
        Asked::Discard(parts) | Asked::Zero(parts) => ends_zeroed(parts, index),
        _ => true,
    }
}

/// Whether these bytes are what an id request reads.
#[tactic(auto, unfolding(crate::specs::Requests::device_name))]
pub(crate) fn is_device_name(bytes: &[u8]) -> bool
    ensures { IsTrue result ↔ (bytes.now ≡ device_name) }
{
    bytes == b"vublk\0\0\0\0\0\0\0\0\0\0\0\0\0\0\0".as_slice()
}
