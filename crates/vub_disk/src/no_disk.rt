ghost use Rattle.std.specs.Prelude.{◌≡◌, ◌<◌, ◌+◌, Some, IsOk, []};
ghost use Rattle.std.proofs.Common.{lit≤};
ghost use Rattle.vub_disk.specs.NoSectors.{no_sector};

use crate::Disk;
use vub_base::Failed;
use vub_base::standard::SECTOR_SIZE;

/// A disk without sectors, whose calls never fail.
#[derive(Clone, Copy, Debug)]
pub struct NoDisk;

impl Disk for NoDisk {
    ghost values = { λ d. Some (λ s. []) };

    ghost stable = { λ d. Some (λ s. []) };

    ghost capacity = { λ d. 0 };

    ghost faults = { λ d. 0 };

    ghost capacity_fits = { λ d. lit≤ tt };

    ghost values_whole = { λ d v e s below. no_sector s below (v s) };

    fn capacity(&self) -> u64 {
        0
    }

    // There is no sector to read or write: neither does anything.
    fn read(&mut self, _sector: u64, into: &mut [u8; SECTOR_SIZE]) -> Result<(), Failed>
        ensures unchanged { into.new ≡ into.old }
        ensures done { IsOk result }
    {
        Ok(())
    }

    fn write(&mut self, _sector: u64, _from: &[u8; SECTOR_SIZE]) -> Result<(), Failed>
        ensures { IsOk result }
    {
        Ok(())
    }

    fn flush(&mut self) -> Result<(), Failed>
        ensures { IsOk result }
    {
        Ok(())
    }
}
