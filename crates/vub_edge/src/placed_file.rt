ghost use Rattle.std.specs.Prelude.{ℕ, ◌≡◌, List, length, take, drop, Option, None, OnOk};
ghost use Rattle.std.specs.Option.{option_map};
ghost use Rattle.vub_base.specs.Told.{WhereTold};
ghost use Rattle.vub_shared.specs.Splices.{splice};

use std::fs::File;
use std::os::unix::fs::FileExt;
use vub_base::Failed;

/// An open file that is read and written at places. Each call is one call of the system, unless that
/// moves fewer bytes than it was asked for or a signal ends it: then the rest follows in another one.
pub trait PlacedFile {
    /// The bytes that it holds, where they are told.
    ghost held: { Self → Option (List ℕ) };

    /// Fills `into` with the bytes from `place` on. It fails where the file ends before.
    fn read_all(&self, place: u64, into: &mut [u8]) -> Result<(), Failed>
        ensures { OnOk result (WhereTold (held self.now) (λ bytes. into.new ≡ take (length into.old) (drop place bytes))) };

    /// Writes bytes from `place` on. A write that takes nothing fails.
    fn write_all(&mut self, place: u64, bytes: &[u8]) -> Result<(), Failed>
        ensures { OnOk result (held self.new ≡ option_map (λ old. splice old place bytes.now) (held self.old)) };
}

impl PlacedFile for File {
    ghost held = { λ _. None };

    fn read_all(&self, place: u64, into: &mut [u8]) -> Result<(), Failed> {
        self.read_exact_at(into, place).map_err(|_| Failed)
    }

    fn write_all(&mut self, place: u64, bytes: &[u8]) -> Result<(), Failed> {
        self.write_all_at(bytes, place).map_err(|_| Failed)
    }
}
