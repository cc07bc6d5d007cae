ghost use Rattle.std.specs.Prelude.{◌≡◌, ◌≢◌, ◌≤◌, ◌<◌, ◌+◌, ◌%◌, ◌^◌, false, true, ℕ, Bool, List, length, Option, Some, OnOk, OnErr, IfOk, IfErr, IsErrOf};
ghost use Rattle.std.specs.Option.{option_map};
ghost use Rattle.byteorder.specs.Endian.{little_bytes};
ghost use Rattle.vub_base.specs.Causes.{HasCause};
ghost use Rattle.vub_base.specs.Told.{WhereTold};
ghost use Rattle.vub_shared.specs.Bytes.{Bytes, bytes_from, cleared};
ghost use Rattle.vub_shared.specs.Stores.{Store, one_store};
ghost use Rattle.vub_shared.specs.Frames.{OnlyLoads, MakesStore};
ghost use Rattle.vub_shared.specs.Spaces.{Names, with_name, AllHanded, KeepsHanded, HandsNew, HasReason};
ghost use Rattle.vub_shared.specs.declared.fault.SharedFault.TheVariants.{NoSuch};

use crate::SharedFault;
use vub_base::{Failed, Space};

/// Memory that is shared with other processes: spaces of bytes, found or created by name. A load or
/// store lies within the size of its space. An aligned store of 1, 2, 4 or 8 bytes is whole.
pub trait Shared {
    /// The bytes of each space, where they are told.
    ghost told: { Self → Option Bytes };

    /// The stores so far, where they are told.
    ghost trail: { Self → Option (List Store) };

    /// What the names mean, where it is told.
    ghost names: { Self → Option Names };

    /// Which spaces were handed out.
    ghost handed: { Self → ℕ → Bool };

    /// The size of each space.
    ghost sizes: { Self → ℕ → ℕ };

    /// How often a call has failed.
    ghost faults: { Self → ℕ };

    /// The space that the name means.
    fn find(&mut self, name: &str) -> Result<Space, SharedFault>
        ensures found { IfOk result (λ space. WhereTold (names self.old) (λ n. n name.now ≡ Some space.number)) }
        ensures is_handed { IfOk result (λ space. handed self.new space.number ≡ true) }
        ensures spaces { KeepsHanded (handed self.old) (sizes self.old) (handed self.new) (sizes self.new) }
        ensures told { told self.new ≡ told self.old }
        ensures trail { trail self.new ≡ trail self.old }
        ensures names { names self.new ≡ names self.old }
        ensures reason { HasReason (faults self.old) (faults self.new) (names self.old) name.now result };

    /// Makes a new space of `size` zero bytes, which the name means from then on. It fails where all
    /// 65,536 spaces are handed out.
    fn create(&mut self, name: &str, size: u64) -> Result<Space, SharedFault>
        ensures made { IfOk result (λ space. HandsNew (handed self.old) (sizes self.old) (handed self.new) (sizes self.new) space.number size) }
        ensures zeroed { IfOk result (λ space. told self.new ≡ option_map (cleared space.number) (told self.old)) }
        ensures named { IfOk result (λ space. names self.new ≡ option_map (with_name name.now space.number) (names self.old)) }
        ensures keeps_spaces { OnErr result (KeepsHanded (handed self.old) (sizes self.old) (handed self.new) (sizes self.new)) }
        ensures keeps_told { OnErr result (told self.new ≡ told self.old) }
        ensures keeps_names { OnErr result (names self.new ≡ names self.old) }
        ensures trail { trail self.new ≡ trail self.old }
        ensures reason { HasReason (faults self.old) (faults self.new) (names self.old) name.now result }
        ensures never_lacking { IfErr result (λ e. e ≢ NoSuch) }
        ensures all_handed { AllHanded (handed self.old) → IsErrOf result SharedFault.Failed };

    /// The size of a space in bytes, 0 for one that wasn't handed out.
    fn size(&self, space: Space) -> u64
        ensures { result ≡ sizes self.now space.number };

    /// Fills `into` with the bytes from `place` of the space on. What a load that fails leaves in
    /// `into` is open.
    fn load(&mut self, space: Space, place: u64, into: &mut [u8]) -> Result<(), Failed>
        requires { place + length into.old ≤ sizes self.old space.number }
        ensures loaded { OnOk result (WhereTold (told self.old) (λ m. into.new ≡ bytes_from (length into.old) m space.number place)) }
        ensures only_loads { OnlyLoads told trail names handed sizes self.old self.new }
        ensures cause { HasCause (faults self.old) (faults self.new) result };

    /// Stores one byte.
    fn store1(&mut self, space: Space, place: u64, value: u8) -> Result<(), Failed>
        requires { place + 1 ≤ sizes self.old space.number }
        ensures makes_store { MakesStore told trail names handed sizes self.old self.new result (one_store space.number place (little_bytes 1 value)) }
        ensures cause { HasCause (faults self.old) (faults self.new) result };

    /// Stores a number in 2 bytes, the lowest first, at a place that is a multiple of 2.
    fn store2(&mut self, space: Space, place: u64, value: u16) -> Result<(), Failed>
        requires room { place + 2 ≤ sizes self.old space.number }
        requires aligned { place % 2 ≡ 0 }
        ensures makes_store { MakesStore told trail names handed sizes self.old self.new result (one_store space.number place (little_bytes 2 value)) }
        ensures cause { HasCause (faults self.old) (faults self.new) result };

    /// Stores a number in 4 bytes, the lowest first, at a place that is a multiple of 4.
    fn store4(&mut self, space: Space, place: u64, value: u32) -> Result<(), Failed>
        requires room { place + 4 ≤ sizes self.old space.number }
        requires aligned { place % 4 ≡ 0 }
        ensures makes_store { MakesStore told trail names handed sizes self.old self.new result (one_store space.number place (little_bytes 4 value)) }
        ensures cause { HasCause (faults self.old) (faults self.new) result };

    /// Stores a number in 8 bytes, the lowest first, at a place that is a multiple of 8.
    fn store8(&mut self, space: Space, place: u64, value: u64) -> Result<(), Failed>
        requires room { place + 8 ≤ sizes self.old space.number }
        requires aligned { place % 8 ≡ 0 }
        ensures makes_store { MakesStore told trail names handed sizes self.old self.new result (one_store space.number place (little_bytes 8 value)) }
        ensures cause { HasCause (faults self.old) (faults self.new) result };

    /// Stores a run of bytes.
    fn store_run(&mut self, space: Space, place: u64, bytes: &[u8]) -> Result<(), Failed>
        requires { place + length bytes.now ≤ sizes self.old space.number }
        ensures makes_store { MakesStore told trail names handed sizes self.old self.new result (one_store space.number place bytes.now) }
        ensures cause { HasCause (faults self.old) (faults self.new) result };

    /// What is told are bytes.
    ghost told_fits: { (mem : Self) (m : Bytes) → told mem ≡ Some m → (s p : ℕ) → m s p < 256 };

    /// A size fits its type.
    ghost sizes_fit: { (mem : Self) (s : ℕ) → sizes mem s < 2 ^ 64 };

    /// A space that wasn't handed out has no bytes.
    ghost unhanded_empty: { (mem : Self) (s : ℕ) → handed mem s ≡ false → sizes mem s ≡ 0 };
}
