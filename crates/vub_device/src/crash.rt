//! What the sectors hold, and what they may hold after a power stop.
ghost use Rattle.std.specs.Prelude.{◌≡◌, ◌↔◌, IsTrue, reverse};
ghost use Rattle.vub_device.specs.Crash.{image_at, value, candidates, IsImageFrom, IsCrashImage};
ghost use Rattle.vub_device.specs.Places.{is_held};
ghost use Rattle.vub_device.specs.Requests.{zeros};

use crate::entry::{Entry, SectorValue};
use crate::meaning::{ZEROS, is_zeros};
use vub_base::standard::SECTOR_SIZE;

/// A sector of zeros.
#[tactic(auto, unfolding(crate::specs::Requests::zeros))]
fn zeros() -> [u8; SECTOR_SIZE]
    ensures { result ≡ zeros }
{
    ZEROS
}

/// What an image holds at a sector.
pub(crate) fn image_at(image: &[SectorValue], sector: u64) -> [u8; SECTOR_SIZE]
    ensures { result ≡ image_at image.now sector }
{
    match image {
        [] => zeros(),
        [first, rest @ ..] => {
            if first.sector == sector {
                first.value
            } else {
                image_at(rest, sector)
            }
        }
    }
}

/// What a sector holds after these entries.
pub(crate) fn value(past: &[Entry], sector: u64) -> [u8; SECTOR_SIZE]
    ensures { result ≡ value (reverse past.now) sector }
{
    match past {
        [] => zeros(),
        [.., Entry::Power(image)] => image_at(image.items(), sector),
        [earlier @ .., Entry::Act(_, _, other, value_then)] => {
            if *other == sector {
                *value_then
            } else {
                value(earlier, sector)
            }
        }
        [earlier @ .., _] => value(earlier, sector),
    }
}

/// Whether a sector may hold this after a power stop.
#[tactic(auto, using(crate::proofs::Candidates::is_held_more))]
fn is_candidate(past: &[Entry], sector: u64, held: &[u8; SECTOR_SIZE]) -> bool
    ensures { result ≡ is_held (candidates (reverse past.now) sector) held.now }
{
    match past {
        [] => *held == zeros(),
        [.., Entry::Power(image)] => *held == image_at(image.items(), sector),
        [earlier @ .., Entry::Sync(_, _)] => *held == value(earlier, sector),
        [earlier @ .., Entry::Act(_, _, other, value_then)] => {
            is_candidate(earlier, sector, held) || (*other == sector && held == value_then)
        }
        [earlier @ .., _] => is_candidate(earlier, sector, held),
    }
}

/// Whether a list names an image: sectors from this one on that aren't all zero, rising.
fn is_image_from(low: u64, capacity: u64, image: &[SectorValue]) -> bool
    ensures { IsTrue result ↔ IsImageFrom low capacity image.now }
{
    match image {
        [] => true,
        [first, rest @ ..] => {
            low <= first.sector
                && first.sector < capacity
                && !is_zeros(&first.value)
                && is_image_from(first.sector + 1, capacity, rest)
        }
    }
}

/// Whether a power stop may leave this image.
pub(crate) fn is_crash_image(capacity: u64, past: &[Entry], image: &[SectorValue]) -> bool
    ensures { IsTrue result ↔ IsCrashImage capacity (reverse past.now) image.now }
{
    if !is_image_from(0, capacity, image) {
        return false;
    }
    for sector in 0..capacity {
        let held = image_at(image, sector);
        if !is_candidate(past, sector, &held) {
            return false;
        }
    }
    true
}
