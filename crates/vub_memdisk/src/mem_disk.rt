ghost use Rattle.std.specs.Prelude.{◌≡◌, ◌≤◌, ◌^◌, length, [], ◌∷◌, ◌++◌, replicate, IfOk, OnOk};
ghost use Rattle.vub_memdisk.specs.Sectors.{AreWhole, AreZero};

use std::alloc::Global;
use std::snapshot::Snapshot;
use vub_base::standard::SECTOR_SIZE;
use vub_base::{Failed, Memory};
use vub_disk::Disk;

/// A disk in memory. It makes no value stable but by a flush. Its calls never fail.
#[derive(Drop)]
pub struct MemDisk {
    sectors: Vec<[u8; SECTOR_SIZE]>,
    // What the last flush made stable, for contracts alone: it has no bytes.
    stable: Snapshot<Vec<[u8; SECTOR_SIZE]>>,
    ghost few: { length sectors.items ≤ 2 ^ 54 },
    ghost whole: { AreWhole sectors.items },
}

// So many sectors of zero bytes.
fn zeroed(alloc: Global, count: usize) -> Result<Vec<[u8; SECTOR_SIZE]>, Memory>
    ensures count { IfOk result (λ v. length v.items ≡ count) }
    ensures zero { IfOk result (λ v. AreZero v.items) }
{
    let mut sectors = Vec::with_capacity(alloc, count).map_err(|_| Memory)?;
    for _made in 0..count {
        add_zeroed(&mut sectors)?;
    }
    Ok(sectors)
}

// One sector of zero bytes more.
fn add_zeroed(sectors: &mut Vec<[u8; SECTOR_SIZE]>) -> Result<(), Memory>
    ensures { OnOk result (sectors.new.items ≡ sectors.old.items ++ replicate 512 0 ∷ []) }
{
    sectors.push([0u8; SECTOR_SIZE]).map_err(|_| Memory)?;
    Ok(())
}

impl MemDisk {
    ghost use Rattle.std.specs.Prelude.{◌≡◌, ◌<◌, ◌≤◌, ◌^◌, ℕ, IfOk, replicate};
    ghost use Rattle.vub_memdisk.specs.MemDisks.{capacity_of, values_of, stable_of};

    /// A disk of so many sectors, at most 2^54, all of them zero and stable.
    pub fn new(alloc: Global, capacity: u64) -> Result<MemDisk, Memory>
        requires { capacity ≤ 2 ^ 54 }
        ensures capacity { IfOk result (λ d. capacity_of d ≡ capacity) }
        ensures zero { IfOk result (λ d. (s : ℕ) → s < capacity → values_of d s ≡ replicate 512 0) }
        ensures stable { IfOk result (λ d. stable_of d ≡ values_of d) }
    {
        let sectors = zeroed(alloc, capacity as usize)?;
        let stable = Snapshot::of(&sectors);
        Ok(MemDisk { sectors, stable })
    }

    /// The value of a sector now. It is no call of the disk.
    pub fn sector(&self, sector: u64) -> &[u8; SECTOR_SIZE]
        requires { sector < capacity_of self.now }
        ensures { result.now ≡ values_of self.now sector }
    {
        &self.sectors[sector as usize]
    }
}

impl Disk for MemDisk {
    ghost use Rattle.std.specs.Prelude.{◌≡◌, ◌<◌, Some, IsOk};
    ghost use Rattle.vub_disk.specs.Values.{with_value};
    ghost use Rattle.vub_memdisk.specs.MemDisks.{capacity_of, values_of, stable_of};
    ghost use Rattle.vub_memdisk.specs.DiskLaws.{whole_values};

    ghost values = { λ d. Some (values_of d) };

    ghost stable = { λ d. Some (stable_of d) };

    ghost capacity = { λ d. capacity_of d };

    ghost faults = { λ d. 0 };

    ghost capacity_fits = { λ d. d.few };

    ghost values_whole = { λ d v told s below. whole_values d.sectors.items d.whole v told s below };

    fn capacity(&self) -> u64 {
        self.sectors.len() as u64
    }

    fn read(&mut self, sector: u64, into: &mut [u8; SECTOR_SIZE]) -> Result<(), Failed>
        requires { sector < capacity_of self.old }
        ensures given { into.new ≡ values_of self.old sector }
        ensures unchanged { self.new ≡ self.old }
        ensures done { IsOk result }
    {
        *into = self.sectors[sector as usize];
        Ok(())
    }

    fn write(&mut self, sector: u64, from: &[u8; SECTOR_SIZE]) -> Result<(), Failed>
        requires { sector < capacity_of self.old }
        ensures written { values_of self.new ≡ with_value sector from.now (values_of self.old) }
        ensures stable { stable_of self.new ≡ stable_of self.old }
        ensures capacity { capacity_of self.new ≡ capacity_of self.old }
        ensures done { IsOk result }
    {
        self.sectors[sector as usize] = *from;
        Ok(())
    }

    fn flush(&mut self) -> Result<(), Failed>
        ensures values { values_of self.new ≡ values_of self.old }
        ensures stable { stable_of self.new ≡ values_of self.new }
        ensures capacity { capacity_of self.new ≡ capacity_of self.old }
        ensures done { IsOk result }
    {
        self.stable = Snapshot::of(&self.sectors);
        Ok(())
    }
}
