ghost use Rattle.std.specs.Prelude.{◌≡◌, ◌<◌, ◌≤◌, ◌^◌, ℕ, List, Option, Some, OnOk, OnErr, length};
ghost use Rattle.vub_base.specs.Causes.{HasCause};
ghost use Rattle.vub_base.specs.Told.{WhereTold};
ghost use Rattle.vub_disk.specs.Values.{Values, Writes};

use vub_base::Failed;
use vub_base::standard::SECTOR_SIZE;

/// A disk of sectors of 512 bytes. A sector is written whole or not at all.
pub trait Disk {
    /// The value of each sector now, where it is told.
    ghost values: { Self → Option Values };

    /// The values that the last flush made stable, where they are told. A disk may make a value
    /// stable by itself at any time: a power stop keeps of each sector this value or one that was
    /// written to it since.
    ghost stable: { Self → Option Values };

    /// The number of sectors.
    ghost capacity: { Self → ℕ };

    /// How often a call has failed.
    ghost faults: { Self → ℕ };

    /// The number of sectors, at most 2^54. It never changes.
    fn capacity(&self) -> u64
        ensures { result ≡ capacity self.now };

    /// Fills `into` with the value of the sector. What a read that fails leaves in `into` is open.
    fn read(&mut self, sector: u64, into: &mut [u8; SECTOR_SIZE]) -> Result<(), Failed>
        requires { sector < capacity self.old }
        ensures given { OnOk result (WhereTold (values self.old) (λ v. into.new ≡ v sector)) }
        ensures values { values self.new ≡ values self.old }
        ensures stable { stable self.new ≡ stable self.old }
        ensures capacity { capacity self.new ≡ capacity self.old }
        ensures cause { HasCause (faults self.old) (faults self.new) result };

    /// Makes `from` the value of the sector. A write that fails has done so or not. It takes a flush
    /// to make it stable.
    fn write(&mut self, sector: u64, from: &[u8; SECTOR_SIZE]) -> Result<(), Failed>
        requires { sector < capacity self.old }
        ensures writes { Writes (values self.old) (values self.new) result sector from.now }
        ensures stable { stable self.new ≡ stable self.old }
        ensures capacity { capacity self.new ≡ capacity self.old }
        ensures cause { HasCause (faults self.old) (faults self.new) result };

    /// Makes the values of all sectors stable: a power stop keeps them. One that fails makes none so.
    fn flush(&mut self) -> Result<(), Failed>
        ensures values { values self.new ≡ values self.old }
        ensures stable { OnOk result (stable self.new ≡ values self.new) }
        ensures kept { OnErr result (stable self.new ≡ stable self.old) }
        ensures capacity { capacity self.new ≡ capacity self.old }
        ensures cause { HasCause (faults self.old) (faults self.new) result };

    /// A capacity in bytes fits 63 bits.
    ghost capacity_fits: { (disk : Self) → capacity disk ≤ 2 ^ 54 };

    /// A told value has 512 bytes.
    ghost values_whole: { (disk : Self) (v : Values) → values disk ≡ Some v → (s : ℕ) → s < capacity disk → length (v s) ≡ 512 };
}
