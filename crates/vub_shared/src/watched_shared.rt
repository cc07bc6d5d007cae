ghost use Rattle.std.specs.Prelude.{◌≡◌, ◌<◌, ◌≤◌, ◌*◌, ℕ, [], length};
ghost use Rattle.vub_shared.specs.Trails.{total_of};
ghost use Rattle.vub_shared.specs.MemSpaces.{sizes_of, fails_of, count_of, faults_of};

use crate::trail::Trail;
use crate::{MemShared, Shared, SharedFault};
use byteorder::{ByteOrder, LittleEndian};
use std::alloc::Global;
use vub_base::{Failed, Memory, Space};

/// Shared memory that this process holds itself, and that keeps the stores since the last restart.
/// It has room for two stores of any size: while it keeps fewer, no load and no store fails. A third
/// one is refused, and ends the restarts.
#[derive(Drop)]
pub struct WatchedShared {
    memory: MemShared,
    trail: Trail,
    refused: u64,
    ghost never: { fails_of memory ≡ [] },
    ghost within: { (s : ℕ) → 2 * sizes_of memory s ≤ trail.bytes_room },
    ghost stores_room: { trail.stores_room ≡ 2 },
    ghost short: { length trail.stores < 2 → 2 * total_of trail.stores ≤ trail.bytes_room },
    ghost unrefused: { length trail.stores < 2 → refused ≡ 0 },
    ghost unfailed: { count_of memory < 65536 → faults_of memory ≡ 0 },
}

impl WatchedShared {
    ghost use Rattle.std.specs.Prelude.{◌≡◌, ◌<◌, ◌≤◌, ◌+◌, ℕ, List, [], ◌∷◌, ◌++◌, false, Some, length, IfOk, IsOk, OnOk, IsSomeAnd, IsNone};
    ghost use Rattle.vub_base.specs.Causes.{HasCause};
    ghost use Rattle.vub_shared.specs.Bytes.{bytes_from, word};
    ghost use Rattle.vub_shared.specs.Stores.{Store, Stores, Trails, one_store};
    ghost use Rattle.vub_shared.specs.Watched.{memory_in, bytes_in, sizes_in, handed_in, count_in, stores_in, faults_in, HasRoomFor, SamePlaces};

    /// A memory without spaces that keeps no store.
    pub fn new(alloc: Global) -> Result<WatchedShared, Memory>
        ensures zero { IfOk result (λ w. (s p : ℕ) → bytes_in w s p ≡ 0) }
        ensures unhanded { IfOk result (λ w. (s : ℕ) → handed_in w s ≡ false) }
        ensures count { IfOk result (λ w. count_in w ≡ 0) }
        ensures stores { IfOk result (λ w. stores_in w ≡ []) }
        ensures faults { IfOk result (λ w. faults_in w ≡ 0) }
    {
        let trail = Trail::new(alloc, 2, 0)?;
        Ok(WatchedShared {
            memory: MemShared::new(alloc, Vec::new(alloc)),
            trail,
            refused: 0,
        })
    }

    /// Empties the list of stores of a memory of which no call has failed. Takes no memory.
    pub fn restart(&mut self)
        requires { faults_in self.old ≡ 0 }
        ensures memory { memory_in self.new ≡ memory_in self.old }
        ensures stores { stores_in self.new ≡ [] }
        ensures faults { faults_in self.new ≡ faults_in self.old }
    {
        self.trail.clear();
    }

    /// The last of the stores kept: its space, its place and its bytes.
    pub fn last_store(&self) -> Option<(Space, u64, &[u8])>
        ensures last { (front : List Store) (st : Store) → stores_in self.now ≡ front ++ st ∷ [] → IsSomeAnd result (λ r. one_store r.0.number r.1 r.2.now ≡ st) }
        ensures none { stores_in self.now ≡ [] → IsNone result }
    {
        let last = self.trail.len().checked_sub(1)?;
        Some(self.trail.at(last))
    }

    /// So many bytes from `place` of the space on.
    pub fn bytes(&self, space: Space, place: u64, len: usize) -> &[u8]
        requires { place + len ≤ sizes_in self.now space.number }
        ensures { result.now ≡ bytes_from len (bytes_in self.now) space.number place }
    {
        let image = self.memory.image(space);
        let start = place as usize;
        &image[start..start + len]
    }

    /// The byte at `place` of the space.
    pub fn byte(&self, space: Space, place: u64) -> u8
        requires { place < sizes_in self.now space.number }
        ensures { result ≡ bytes_in self.now space.number place }
    {
        self.memory.image(space)[place as usize]
    }

    /// The number in the 2 bytes from `place` of the space on, the lowest first.
    pub fn word16(&self, space: Space, place: u64) -> u16
        requires { place + 2 ≤ sizes_in self.now space.number }
        ensures { result ≡ word 2 (bytes_in self.now) space.number place }
    {
        LittleEndian::read_u16(self.bytes(space, place, 2))
    }

    // Reserves room for two stores of so many bytes, none where all spaces are handed out.
    fn reserve(&mut self, size: u64) -> Result<(), Memory>
        ensures memory { memory_in self.new ≡ memory_in self.old }
        ensures stores { stores_in self.new ≡ stores_in self.old }
        ensures faults { faults_in self.new ≡ faults_in self.old }
        ensures room { OnOk result (count_in self.old < 65536 → HasRoomFor self.new size) }
        ensures full { count_in self.old ≡ 65536 → IsOk result }
    {
        if self.memory.is_full() {
            return Ok(());
        }
        let bytes = (size as usize).checked_mul(2).ok_or(Memory)?;
        self.trail.reserve(bytes)
    }

    // One store.
    fn store(&mut self, space: Space, place: u64, bytes: &[u8]) -> Result<(), Failed>
        requires { place + length bytes.now ≤ sizes_in self.old space.number }
        ensures stores { Stores (Some (bytes_in self.old)) (Some (bytes_in self.new)) result (one_store space.number place bytes.now) }
        ensures trails { Trails (Some (stores_in self.old)) (Some (stores_in self.new)) result (one_store space.number place bytes.now) }
        ensures places { SamePlaces self.old self.new }
        ensures cause { HasCause (faults_in self.old) (faults_in self.new) result }
    {
        if !self.trail.has_room(bytes.len()) {
            self.refused = self.refused.saturating_add(1);
            return Err(Failed);
        }
        self.memory.store_run(space, place, bytes)?;
        self.trail.add(space, place, bytes);
        Ok(())
    }
}

impl Shared for WatchedShared {
    ghost use Rattle.std.specs.Prelude.{◌≡◌, ◌≢◌, ◌≤◌, ◌+◌, ◌%◌, ℕ, Some, None, true, length, OnOk, OnErr, IfOk, IfErr, IsErrOf};
    ghost use Rattle.byteorder.specs.Endian.{little_bytes};
    ghost use Rattle.vub_base.specs.Causes.{HasCause};
    ghost use Rattle.vub_shared.specs.Bytes.{bytes_from, cleared};
    ghost use Rattle.vub_shared.specs.Stores.{Stores, Trails, one_store};
    ghost use Rattle.vub_shared.specs.Spaces.{AllHanded, with_name, KeepsHanded, HandsNew, HasReason};
    ghost use Rattle.vub_shared.specs.declared.fault.SharedFault.TheVariants.{NoSuch};
    ghost use Rattle.vub_shared.specs.Watched.{bytes_in, sizes_in, handed_in, names_in, count_in, stores_in, faults_in, SamePlaces, FailsFull};
    ghost use Rattle.vub_shared.specs.MemLaws.{image_fits, size_fits, unhanded_empty};

    ghost told = { λ w. Some (bytes_in w) };

    ghost trail = { λ w. Some (stores_in w) };

    ghost names = { λ w. Some (names_in w) };

    ghost handed = { λ w. handed_in w };

    ghost sizes = { λ w. sizes_in w };

    ghost faults = { λ w. faults_in w };

    ghost told_fits = { λ w m e. image_fits w.memory.spaces.items m e };

    ghost sizes_fit = { λ w s. size_fits w.memory.spaces.items s };

    ghost unhanded_empty = { λ w s past. unhanded_empty w.memory.spaces.items s past };

    fn find(&mut self, name: &str) -> Result<Space, SharedFault>
        ensures found { IfOk result (λ space. names_in self.old name.now ≡ Some space.number) }
        ensures lacking { IfErr result (λ e. (e ≡ NoSuch) × (names_in self.old name.now ≡ None)) }
        ensures is_handed { IfOk result (λ space. handed_in self.old space.number ≡ true) }
        ensures unchanged { self.new ≡ self.old }
        ensures reason { HasReason (faults_in self.old) (faults_in self.new) (Some (names_in self.old)) name.now result }
    {
        self.memory.find(name)
    }

    fn create(&mut self, name: &str, size: u64) -> Result<Space, SharedFault>
        ensures made { IfOk result (λ space. HandsNew (handed_in self.old) (sizes_in self.old) (handed_in self.new) (sizes_in self.new) space.number size) }
        ensures zeroed { IfOk result (λ space. bytes_in self.new ≡ cleared space.number (bytes_in self.old)) }
        ensures named { IfOk result (λ space. names_in self.new ≡ with_name name.now space.number (names_in self.old)) }
        ensures number { IfOk result (λ space. space.number ≡ count_in self.old) }
        ensures keeps { OnErr result (SamePlaces self.old self.new) }
        ensures keeps_told { OnErr result (bytes_in self.new ≡ bytes_in self.old) }
        ensures stores { stores_in self.new ≡ stores_in self.old }
        ensures full { FailsFull self.old result }
        ensures reason { HasReason (faults_in self.old) (faults_in self.new) (Some (names_in self.old)) name.now result }
        ensures never_lacking { IfErr result (λ e. e ≢ NoSuch) }
        ensures all_handed { AllHanded (handed_in self.old) → IsErrOf result SharedFault.Failed }
    {
        if self.reserve(size).is_err() {
            return Err(SharedFault::Memory);
        }
        self.memory.create(name, size)
    }

    fn size(&self, space: Space) -> u64 {
        self.memory.size(space)
    }

    fn load(&mut self, space: Space, place: u64, into: &mut [u8]) -> Result<(), Failed>
        requires { place + length into.old ≤ sizes_in self.old space.number }
        ensures loaded { OnOk result (into.new ≡ bytes_from (length into.old) (bytes_in self.old) space.number place) }
        ensures bytes { bytes_in self.new ≡ bytes_in self.old }
        ensures stores { stores_in self.new ≡ stores_in self.old }
        ensures places { SamePlaces self.old self.new }
        ensures cause { HasCause (faults_in self.old) (faults_in self.new) result }
    {
        self.memory.load(space, place, into)
    }

    fn store1(&mut self, space: Space, place: u64, value: u8) -> Result<(), Failed>
        requires { place + 1 ≤ sizes_in self.old space.number }
        ensures stores { Stores (Some (bytes_in self.old)) (Some (bytes_in self.new)) result (one_store space.number place (little_bytes 1 value)) }
        ensures trails { Trails (Some (stores_in self.old)) (Some (stores_in self.new)) result (one_store space.number place (little_bytes 1 value)) }
        ensures places { SamePlaces self.old self.new }
        ensures cause { HasCause (faults_in self.old) (faults_in self.new) result }
    {
        self.store(space, place, &value.to_le_bytes())
    }

    fn store2(&mut self, space: Space, place: u64, value: u16) -> Result<(), Failed>
        requires { place + 2 ≤ sizes_in self.old space.number }
        ensures stores { Stores (Some (bytes_in self.old)) (Some (bytes_in self.new)) result (one_store space.number place (little_bytes 2 value)) }
        ensures trails { Trails (Some (stores_in self.old)) (Some (stores_in self.new)) result (one_store space.number place (little_bytes 2 value)) }
        ensures places { SamePlaces self.old self.new }
        ensures cause { HasCause (faults_in self.old) (faults_in self.new) result }
    {
        self.store(space, place, &value.to_le_bytes())
    }

    fn store4(&mut self, space: Space, place: u64, value: u32) -> Result<(), Failed>
        requires { place + 4 ≤ sizes_in self.old space.number }
        ensures stores { Stores (Some (bytes_in self.old)) (Some (bytes_in self.new)) result (one_store space.number place (little_bytes 4 value)) }
        ensures trails { Trails (Some (stores_in self.old)) (Some (stores_in self.new)) result (one_store space.number place (little_bytes 4 value)) }
        ensures places { SamePlaces self.old self.new }
        ensures cause { HasCause (faults_in self.old) (faults_in self.new) result }
    {
        self.store(space, place, &value.to_le_bytes())
    }

    fn store8(&mut self, space: Space, place: u64, value: u64) -> Result<(), Failed>
        requires { place + 8 ≤ sizes_in self.old space.number }
        ensures stores { Stores (Some (bytes_in self.old)) (Some (bytes_in self.new)) result (one_store space.number place (little_bytes 8 value)) }
        ensures trails { Trails (Some (stores_in self.old)) (Some (stores_in self.new)) result (one_store space.number place (little_bytes 8 value)) }
        ensures places { SamePlaces self.old self.new }
        ensures cause { HasCause (faults_in self.old) (faults_in self.new) result }
    {
        self.store(space, place, &value.to_le_bytes())
    }

    fn store_run(&mut self, space: Space, place: u64, bytes: &[u8]) -> Result<(), Failed>
        requires { place + length bytes.now ≤ sizes_in self.old space.number }
        ensures stores { Stores (Some (bytes_in self.old)) (Some (bytes_in self.new)) result (one_store space.number place bytes.now) }
        ensures trails { Trails (Some (stores_in self.old)) (Some (stores_in self.new)) result (one_store space.number place bytes.now) }
        ensures places { SamePlaces self.old self.new }
        ensures cause { HasCause (faults_in self.old) (faults_in self.new) result }
    {
        self.store(space, place, bytes)
    }
}
