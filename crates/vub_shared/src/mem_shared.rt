ghost use Rattle.std.specs.Prelude.{◌≤◌, vec_len};

use crate::held::Held;
use crate::{Shared, SharedFault, spaces};
use std::alloc::Global;
use vub_base::{Failed, Memory, Space};

/// Shared memory that this process holds itself. Its loads and stores are numbered from 0; those
/// of chosen numbers fail.
#[derive(Drop)]
pub struct MemShared {
    alloc: Global,
    spaces: Vec<Held>,
    fails: Vec<u64>,
    call: u64,
    faults: u64,
    ghost numbered: { vec_len spaces ≤ 65536 },
}

impl MemShared {
    ghost use Rattle.std.specs.Prelude.{◌≡◌, ◌≤◌, ◌+◌, ◌↔◌, ℕ, List, Some, None, IsTrue, Contains, length, OnOk, if◌then◌else◌};
    ghost use Rattle.std.specs.Bool.{OnTrue};
    ghost use Rattle.vub_base.specs.Causes.{HasCause, Rose};
    ghost use Rattle.vub_base.specs.MemForms.{next_count};
    ghost use Rattle.vub_shared.specs.Stores.{Stores, one_store};
    ghost use Rattle.vub_shared.specs.MemSpaces.{image_of, bytes_of, sizes_of, names_of, count_of, call_of, fails_of, faults_of, SameSpaces, IsCounted, IsCreated};

    /// A memory without spaces. The loads and stores whose numbers stand in `fails` fail.
    pub fn new(alloc: Global, fails: Vec<u64>) -> MemShared
        ensures spaces { count_of result ≡ 0 }
        ensures names { (name : List ℕ) → names_of result name ≡ None }
        ensures call { call_of result ≡ 0 }
        ensures fails { fails_of result ≡ fails.items }
        ensures faults { faults_of result ≡ 0 }
    {
        MemShared {
            alloc,
            spaces: Vec::new(alloc),
            fails,
            call: 0,
            faults: 0,
        }
    }

    /// The bytes of a space, none for one that wasn't handed out.
    pub fn image(&self, space: Space) -> &[u8]
        ensures { result.now ≡ image_of self.now space.number }
    {
        match self.spaces.get(usize::from(space.number)) {
            Some(held) => held.bytes(),
            None => &[],
        }
    }

    /// Whether all 65,536 spaces are handed out.
    pub fn is_full(&self) -> bool
        ensures { IsTrue result ↔ (count_of self.now ≡ 65536) }
    {
        self.spaces.len() == 65536
    }

    // Counts a load or store, and tells whether it is to fail.
    fn is_failing(&mut self) -> bool
        ensures fails { IsTrue result ↔ Contains (fails_of self.old) (call_of self.old) }
        ensures spaces { self.new.spaces ≡ self.old.spaces }
        ensures faults { faults_of self.new ≡ (if result then next_count (faults_of self.old) else faults_of self.old) }
        ensures next { call_of self.new ≡ next_count (call_of self.old) }
        ensures chosen { fails_of self.new ≡ fails_of self.old }
        ensures later { faults_of self.old ≤ faults_of self.new }
        ensures rose { OnTrue result (Rose (faults_of self.old) (faults_of self.new)) }
    {
        let fails = self.fails.contains(&self.call);
        self.call = self.call.saturating_add(1);
        if fails {
            self.faults = self.faults.saturating_add(1);
        }
        fails
    }

    // One store.
    fn store(&mut self, space: Space, place: u64, bytes: &[u8]) -> Result<(), Failed>
        requires { place + length bytes.now ≤ sizes_of self.old space.number }
        ensures stores { Stores (Some (bytes_of self.old)) (Some (bytes_of self.new)) result (one_store space.number place bytes.now) }
        ensures spaces { SameSpaces self.old self.new }
        ensures counted { IsCounted self.old self.new result }
        ensures cause { HasCause (faults_of self.old) (faults_of self.new) result }
    {
        if self.is_failing() {
            return Err(Failed);
        }
        spaces::write(
            &mut self.spaces,
            usize::from(space.number),
            place as usize,
            bytes,
        );
        Ok(())
    }
}

impl Shared for MemShared {
    ghost use Rattle.std.specs.Prelude.{◌≡◌, ◌≢◌, ◌≤◌, ◌+◌, ◌%◌, ◌↔◌, ℕ, Some, None, true, length, ◌<◌, OnOk, OnErr, IfOk, IfErr, IsErrOf};
    ghost use Rattle.std.specs.Option.{option_map};
    ghost use Rattle.byteorder.specs.Endian.{little_bytes};
    ghost use Rattle.vub_base.specs.Causes.{HasCause};
    ghost use Rattle.vub_base.specs.MemForms.{next_count};
    ghost use Rattle.vub_base.specs.Told.{WhereTold};
    ghost use Rattle.vub_shared.specs.Bytes.{bytes_from, cleared};
    ghost use Rattle.vub_shared.specs.Stores.{Stores, one_store};
    ghost use Rattle.vub_shared.specs.Spaces.{AllHanded, with_name, HandsNew, HasReason};
    ghost use Rattle.vub_shared.specs.MemSpaces.{bytes_of, sizes_of, handed_of, names_of, count_of, call_of, fails_of, faults_of, SameSpaces, IsCounted, IsCreated};
    ghost use Rattle.vub_shared.specs.declared.fault.SharedFault.TheVariants.{NoSuch};
    ghost use Rattle.vub_shared.specs.MemLaws.{image_fits, size_fits, unhanded_empty};

    ghost told = { λ mem. Some (bytes_of mem) };

    ghost trail = { λ mem. None };

    ghost names = { λ mem. Some (names_of mem) };

    ghost handed = { λ mem. handed_of mem };

    ghost sizes = { λ mem. sizes_of mem };

    ghost faults = { λ mem. faults_of mem };

    ghost told_fits = { λ mem m e. image_fits mem.spaces.items m e };

    ghost sizes_fit = { λ mem s. size_fits mem.spaces.items s };

    ghost unhanded_empty = { λ mem s past. unhanded_empty mem.spaces.items s past };

    fn find(&mut self, name: &str) -> Result<Space, SharedFault>
        ensures found { IfOk result (λ space. names_of self.old name.now ≡ Some space.number) }
        ensures lacking { IfErr result (λ e. (e ≡ NoSuch) × (names_of self.old name.now ≡ None)) }
        ensures is_handed { IfOk result (λ space. space.number < count_of self.old) }
        ensures unchanged { self.new ≡ self.old }
    {
        match spaces::last_of(&self.spaces, name) {
            Some(number) => Ok(Space {
                number: number as u16,
            }),
            None => Err(SharedFault::NoSuch),
        }
    }

    fn create(&mut self, name: &str, size: u64) -> Result<Space, SharedFault>
        ensures made { IfOk result (λ space. HandsNew (handed_of self.old) (sizes_of self.old) (handed_of self.new) (sizes_of self.new) space.number size) }
        ensures zeroed { IfOk result (λ space. bytes_of self.new ≡ cleared space.number (bytes_of self.old)) }
        ensures named { IfOk result (λ space. names_of self.new ≡ with_name name.now space.number (names_of self.old)) }
        ensures reason { HasReason (faults_of self.old) (faults_of self.new) (Some (names_of self.old)) name.now result }
        ensures never_lacking { IfErr result (λ e. e ≢ NoSuch) }
        ensures all_handed { AllHanded (handed_of self.old) → IsErrOf result SharedFault.Failed }
        ensures created { IsCreated self.old self.new result }
    {
        let Ok(number) = u16::try_from(self.spaces.len()) else {
            self.faults = self.faults.saturating_add(1);
            return Err(SharedFault::Failed);
        };
        match spaces::add_zeroed(self.alloc, &mut self.spaces, name, size) {
            Ok(()) => Ok(Space { number }),
            Err(Memory) => Err(SharedFault::Memory),
        }
    }

    fn size(&self, space: Space) -> u64 {
        self.image(space).len() as u64
    }

    fn load(&mut self, space: Space, place: u64, into: &mut [u8]) -> Result<(), Failed>
        requires { place + length into.old ≤ sizes_of self.old space.number }
        ensures loaded { OnOk result (into.new ≡ bytes_from (length into.old) (bytes_of self.old) space.number place) }
        ensures bytes { bytes_of self.new ≡ bytes_of self.old }
        ensures spaces { SameSpaces self.old self.new }
        ensures cause { HasCause (faults_of self.old) (faults_of self.new) result }
        ensures counted { IsCounted self.old self.new result }
    {
        if self.is_failing() {
            return Err(Failed);
        }
        spaces::read(
            &self.spaces,
            usize::from(space.number),
            place as usize,
            into,
        );
        Ok(())
    }

    fn store1(&mut self, space: Space, place: u64, value: u8) -> Result<(), Failed>
        requires { place + 1 ≤ sizes_of self.old space.number }
        ensures stores { Stores (Some (bytes_of self.old)) (Some (bytes_of self.new)) result (one_store space.number place (little_bytes 1 value)) }
        ensures spaces { SameSpaces self.old self.new }
        ensures cause { HasCause (faults_of self.old) (faults_of self.new) result }
        ensures counted { IsCounted self.old self.new result }
    {
        self.store(space, place, &value.to_le_bytes())
    }

    fn store2(&mut self, space: Space, place: u64, value: u16) -> Result<(), Failed>
        requires { place + 2 ≤ sizes_of self.old space.number }
        ensures stores { Stores (Some (bytes_of self.old)) (Some (bytes_of self.new)) result (one_store space.number place (little_bytes 2 value)) }
        ensures spaces { SameSpaces self.old self.new }
        ensures cause { HasCause (faults_of self.old) (faults_of self.new) result }
        ensures counted { IsCounted self.old self.new result }
    {
        self.store(space, place, &value.to_le_bytes())
    }

    fn store4(&mut self, space: Space, place: u64, value: u32) -> Result<(), Failed>
        requires { place + 4 ≤ sizes_of self.old space.number }
        ensures stores { Stores (Some (bytes_of self.old)) (Some (bytes_of self.new)) result (one_store space.number place (little_bytes 4 value)) }
        ensures spaces { SameSpaces self.old self.new }
        ensures cause { HasCause (faults_of self.old) (faults_of self.new) result }
        ensures counted { IsCounted self.old self.new result }
    {
        self.store(space, place, &value.to_le_bytes())
    }

    fn store8(&mut self, space: Space, place: u64, value: u64) -> Result<(), Failed>
        requires { place + 8 ≤ sizes_of self.old space.number }
        ensures stores { Stores (Some (bytes_of self.old)) (Some (bytes_of self.new)) result (one_store space.number place (little_bytes 8 value)) }
        ensures spaces { SameSpaces self.old self.new }
        ensures cause { HasCause (faults_of self.old) (faults_of self.new) result }
        ensures counted { IsCounted self.old self.new result }
    {
        self.store(space, place, &value.to_le_bytes())
    }

    fn store_run(&mut self, space: Space, place: u64, bytes: &[u8]) -> Result<(), Failed>
        requires { place + length bytes.now ≤ sizes_of self.old space.number }
        ensures stores { Stores (Some (bytes_of self.old)) (Some (bytes_of self.new)) result (one_store space.number place bytes.now) }
        ensures spaces { SameSpaces self.old self.new }
        ensures cause { HasCause (faults_of self.old) (faults_of self.new) result }
        ensures counted { IsCounted self.old self.new result }
    {
        self.store(space, place, bytes)
    }
}
