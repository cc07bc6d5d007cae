ghost use Rattle.std.specs.Prelude.{◌≡◌, ◌≤◌, ◌<◌, ◌*◌, ◌/◌, ◌^◌, None, OnOk, take, drop};
ghost use Rattle.std.specs.Option.{option_map};
ghost use Rattle.std.proofs.Common.{min, rules};
ghost use Rattle.vub_base.specs.Causes.{HasCause};
ghost use Rattle.vub_base.specs.Told.{WhereTold};
ghost use Rattle.vub_shared.specs.Splices.{splice};

use crate::PlacedFile;
use crate::counting::counted;
use std::fs::OpenFile;
use vub_base::Failed;
use vub_base::standard::SECTOR_SIZE;
use vub_disk::Disk;

/// The most sectors that a disk has: its bytes then fit 63 bits.
const MOST_SECTORS: u64 = 1 << 54;

/// A disk in an open file: sector s is its bytes from 512 s on. Each read and each write of a sector is
/// one call of the system, and a flush is one (`fdatasync`). Where the file was opened for reading
/// alone, each write fails.
#[derive(Drop)]
pub struct FileDisk<F> {
    file: F,
    capacity: u64,
    faults: u64,
    ghost few: { capacity ≤ 2 ^ 54 },
}

// The whole sectors in so many bytes, and at most 2^54.
fn sectors_in(length: u64) -> u64
    ensures { result ≡ min (length / 512) (2 ^ 54) }
{
    (length / SECTOR_SIZE as u64).min(MOST_SECTORS)
}

impl<F: PlacedFile + OpenFile + Drop> FileDisk<F> {
    /// A disk of as many sectors as are whole in the file as it is now, and at most 2^54.
    pub fn new(file: F) -> Result<FileDisk<F>, Failed> {
        let length = file.metadata().map_err(|_| Failed)?.len();
        Ok(FileDisk {
            file,
            capacity: sectors_in(length),
            faults: 0,
        })
    }
}

impl<F: PlacedFile + OpenFile + Drop> Disk for FileDisk<F> {
    ghost values = { λ _. None };

    ghost stable = { λ _. None };

    ghost capacity = { λ d. d.capacity };

    ghost faults = { λ d. d.faults };

    ghost capacity_fits = { λ d. d.few };

    ghost values_whole = { λ d v told. Prim.search rules };

    fn capacity(&self) -> u64 {
        self.capacity
    }

    fn read(&mut self, sector: u64, into: &mut [u8; SECTOR_SIZE]) -> Result<(), Failed>
        requires { sector < self.old.capacity }
        ensures capacity { self.new.capacity ≡ self.old.capacity }
        ensures cause { HasCause self.old.faults self.new.faults result }

        // It gives the bytes of the sector in the file.
        ensures gives { OnOk result (WhereTold (F.held self.old.file) (λ bytes. into.new ≡ take 512 (drop (sector * 512) bytes))) }
        ensures file { self.new.file ≡ self.old.file }
    {
        let answer = self.file.read_all(sector * SECTOR_SIZE as u64, into);
        counted(&mut self.faults, answer)
    }

    fn write(&mut self, sector: u64, from: &[u8; SECTOR_SIZE]) -> Result<(), Failed>
        requires { sector < self.old.capacity }
        ensures capacity { self.new.capacity ≡ self.old.capacity }
        ensures cause { HasCause self.old.faults self.new.faults result }

        // The file has these bytes in the sector's place.
        ensures puts { OnOk result (F.held self.new.file ≡ option_map (λ old. splice old (sector * 512) from.now) (F.held self.old.file)) }
    {
        let answer = self.file.write_all(sector * SECTOR_SIZE as u64, from);
        counted(&mut self.faults, answer)
    }

    fn flush(&mut self) -> Result<(), Failed>
        ensures capacity { self.new.capacity ≡ self.old.capacity }
        ensures cause { HasCause self.old.faults self.new.faults result }
        ensures file { self.new.file ≡ self.old.file }
    {
        let answer = self.file.sync_data();
        counted(&mut self.faults, answer)
    }
}
