ghost use Rattle.std.specs.Prelude.{◌≤◌, vec_len};

use crate::counting::counted;
use crate::file_space::FileSpace;
use crate::{PlacedFile, opening, spaces};
use std::alloc::Global;
use std::fs::{Files, OpenFile};
use vub_base::{Failed, Space};
use vub_shared::{Shared, SharedFault};

/// The most spaces that can be handed out.
const MOST_SPACES: usize = 65536;

/// Shared memory whose spaces are files of the working folder. A file stays open as long as its space
/// is handed out, that is, as long as the memory is there: none is opened twice, and none is read
/// whole. A load and a store are one call of the system each (`pread`, `pwrite`).
///
/// `find` opens a file for reading and writing, and takes its length as the size of the space. `create`
/// makes a new file; one that had the name before loses it, and who has that open keeps it. A name of a
/// link is followed by `find`, and replaced by `create`.
///
/// A name that can't be found, a call of the system that finds no memory and a file that is shorter
/// than its space is are failures. So is a file that can't be opened for reading and writing.
#[derive(Drop)]
pub struct FileShared<R, F> {
    alloc: Global,
    files: R,
    spaces: Vec<FileSpace<F>>,
    faults: u64,
    ghost numbered: { vec_len spaces ≤ 65536 },
}

impl<F: PlacedFile + OpenFile + Drop, R: Files<File = F> + Drop> FileShared<R, F> {
    ghost use Rattle.std.specs.Prelude.{◌≡◌, ◌≢◌, ◌≤◌, ◌<◌, ◌+◌, length, [], vec_len, vec_capacity, string_bytes, Some, IfOk, IfErr, OnOk, IsErrOf};
    ghost use Rattle.vub_base.specs.Causes.{HasCause, Rose};
    ghost use Rattle.vub_shared.specs.Spaces.{HandsNew};
    ghost use Rattle.vub_edge.specs.FileSpaces.{name_at, Puts, SameSizes};
    ghost use Rattle.vub_edge.specs.FileShareds.{spaces_of, handed_of, sizes_of, faults_of};

    /// Shared memory over the files of the working folder, with no space handed out.
    pub fn new(alloc: Global, files: R) -> FileShared<R, F>
        ensures spaces { spaces_of result ≡ [] }
        ensures faults { faults_of result ≡ 0 }
    {
        FileShared {
            alloc,
            files,
            spaces: Vec::new(alloc),
            faults: 0,
        }
    }

    // Room for one space more, and its name. Where all spaces are handed out, the call has failed.
    fn reserve(&mut self, name: &str) -> Result<String, SharedFault>
        ensures name { IfOk result (λ s. string_bytes s ≡ name.now) }
        ensures spaces { spaces_of self.new ≡ spaces_of self.old }
        ensures few { OnOk result (length (spaces_of self.old) < 65536) }
        ensures room { OnOk result (vec_len self.new.spaces < vec_capacity self.new.spaces) }
        ensures faults { OnOk result (faults_of self.new ≡ faults_of self.old) }
        ensures later { faults_of self.old ≤ faults_of self.new }
        ensures failed { IfErr result (λ e. e ≡ SharedFault.Failed → Rose (faults_of self.old) (faults_of self.new)) }
        ensures others { IfErr result (λ e. e ≢ SharedFault.Failed → faults_of self.new ≡ faults_of self.old) }
        ensures never_lacking { IfErr result (λ e. e ≢ SharedFault.NoSuch) }
        ensures all_handed { length (spaces_of self.old) ≡ 65536 → IsErrOf result SharedFault.Failed }
    {
        if self.spaces.len() == MOST_SPACES {
            self.faults = self.faults.saturating_add(1);
            return Err(SharedFault::Failed);
        }
        let name = name.to_string(self.alloc).map_err(|_| SharedFault::Memory)?;
        self.spaces.reserve(1).map_err(|_| SharedFault::Memory)?;
        Ok(name)
    }

    // Hands out an open file, for which there is room.
    fn hand_out(&mut self, opened: FileSpace<F>) -> Space
        requires few { length (spaces_of self.old) < 65536 }
        requires room { vec_len self.old.spaces < vec_capacity self.old.spaces }
        ensures made { HandsNew (handed_of self.old) (sizes_of self.old) (handed_of self.new) (sizes_of self.new) result.number opened.size }
        ensures named { name_at (spaces_of self.new) result.number ≡ Some (string_bytes opened.name) }
        ensures faults { faults_of self.new ≡ faults_of self.old }
    {
        let number = self.spaces.len() as u16;
        if self.spaces.push(opened).is_err() {
            unreachable!();
        }
        Space { number }
    }

    // One store.
    fn store(&mut self, space: Space, place: u64, bytes: &[u8]) -> Result<(), Failed>
        requires { place + length bytes.now ≤ sizes_of self.old space.number }
        ensures puts { OnOk result (Puts F.held (spaces_of self.old) (spaces_of self.new) space.number place bytes.now) }
        ensures spaces { SameSizes (spaces_of self.old) (spaces_of self.new) }
        ensures cause { HasCause (faults_of self.old) (faults_of self.new) result }
    {
        let number = usize::from(space.number);
        let answer = spaces::write(&mut self.spaces, number, place, bytes);
        counted(&mut self.faults, answer)
    }
}

impl<F: PlacedFile + OpenFile + Drop, R: Files<File = F> + Drop> Shared for FileShared<R, F> {
    ghost use Rattle.std.specs.Prelude.{◌≡◌, ◌≢◌, ◌≤◌, ◌<◌, ◌+◌, ◌%◌, ℕ, Some, None, true, length, take, drop, IfOk, OnOk, OnErr, IfErr, IsErrOf};
    ghost use Rattle.std.proofs.Common.{rules};
    ghost use Rattle.byteorder.specs.Endian.{little_bytes};
    ghost use Rattle.vub_base.specs.Causes.{HasCause};
    ghost use Rattle.vub_base.specs.Told.{WhereTold};
    ghost use Rattle.vub_shared.specs.Spaces.{AllHanded, KeepsHanded, HandsNew, HasReason};
    ghost use Rattle.vub_shared.specs.declared.fault.SharedFault.TheVariants.{NoSuch};
    ghost use Rattle.vub_edge.specs.FileSpaces.{name_at, size_at, held_at, Puts, SameSizes};
    ghost use Rattle.vub_edge.specs.FileShareds.{spaces_of, handed_of, sizes_of, faults_of};
    ghost use Rattle.vub_edge.specs.FileLaws.{size_fits, unhanded_empty};

    ghost told = { λ _. None };

    ghost trail = { λ _. None };

    ghost names = { λ _. None };

    ghost handed = { λ mem. handed_of mem };

    ghost sizes = { λ mem. sizes_of mem };

    ghost faults = { λ mem. faults_of mem };

    ghost told_fits = { λ mem m told. Prim.search rules };

    ghost sizes_fit = { λ mem s. size_fits (spaces_of mem) s };

    ghost unhanded_empty = { λ mem s past. unhanded_empty (spaces_of mem) s past };

    fn find(&mut self, name: &str) -> Result<Space, SharedFault>
        ensures is_handed { IfOk result (λ space. handed_of self.new space.number ≡ true) }
        ensures spaces { KeepsHanded (handed_of self.old) (sizes_of self.old) (handed_of self.new) (sizes_of self.new) }
        ensures reason { HasReason (faults_of self.old) (faults_of self.new) None name.now result }

        // The space was handed out for this name.
        ensures named { IfOk result (λ space. name_at (spaces_of self.new) space.number ≡ Some name.now) }
    {
        if let Some(number) = spaces::last_of(&self.spaces, name) {
            return Ok(Space {
                number: number as u16,
            });
        }
        let name = self.reserve(name)?;
        let answer = opening::find(&self.files, name.as_str());
        let (file, size) = counted(&mut self.faults, answer).map_err(|_| SharedFault::Failed)?;
        Ok(self.hand_out(FileSpace { name, file, size }))
    }

    fn create(&mut self, name: &str, size: u64) -> Result<Space, SharedFault>
        ensures made { IfOk result (λ space. HandsNew (handed_of self.old) (sizes_of self.old) (handed_of self.new) (sizes_of self.new) space.number size) }
        ensures keeps_spaces { OnErr result (KeepsHanded (handed_of self.old) (sizes_of self.old) (handed_of self.new) (sizes_of self.new)) }
        ensures reason { HasReason (faults_of self.old) (faults_of self.new) None name.now result }
        ensures never_lacking { IfErr result (λ e. e ≢ NoSuch) }
        ensures all_handed { AllHanded (handed_of self.old) → IsErrOf result SharedFault.Failed }

        // The space was handed out for this name.
        ensures named { IfOk result (λ space. name_at (spaces_of self.new) space.number ≡ Some name.now) }
    {
        let name = self.reserve(name)?;
        let answer = opening::create(&self.files, name.as_str(), size);
        let file = counted(&mut self.faults, answer).map_err(|_| SharedFault::Failed)?;
        Ok(self.hand_out(FileSpace { name, file, size }))
    }

    fn size(&self, space: Space) -> u64 {
        match self.spaces.get(usize::from(space.number)) {
            Some(opened) => opened.size,
            None => 0,
        }
    }

    fn load(&mut self, space: Space, place: u64, into: &mut [u8]) -> Result<(), Failed>
        requires { place + length into.old ≤ sizes_of self.old space.number }
        ensures spaces { spaces_of self.new ≡ spaces_of self.old }
        ensures cause { HasCause (faults_of self.old) (faults_of self.new) result }

        // It gives the bytes at that place of the file.
        ensures gives { OnOk result (WhereTold (held_at F.held (spaces_of self.old) space.number) (λ bytes. into.new ≡ take (length into.old) (drop place bytes))) }
    {
        let number = usize::from(space.number);
        let answer = spaces::read(&self.spaces, number, place, into);
        counted(&mut self.faults, answer)
    }

    fn store1(&mut self, space: Space, place: u64, value: u8) -> Result<(), Failed>
        requires { place + 1 ≤ sizes_of self.old space.number }
        ensures puts { OnOk result (Puts F.held (spaces_of self.old) (spaces_of self.new) space.number place (little_bytes 1 value)) }
        ensures spaces { SameSizes (spaces_of self.old) (spaces_of self.new) }
        ensures cause { HasCause (faults_of self.old) (faults_of self.new) result }
    {
        self.store(space, place, &value.to_le_bytes())
    }

    fn store2(&mut self, space: Space, place: u64, value: u16) -> Result<(), Failed>
        requires room { place + 2 ≤ sizes_of self.old space.number }
        requires aligned { place % 2 ≡ 0 }
        ensures puts { OnOk result (Puts F.held (spaces_of self.old) (spaces_of self.new) space.number place (little_bytes 2 value)) }
        ensures spaces { SameSizes (spaces_of self.old) (spaces_of self.new) }
        ensures cause { HasCause (faults_of self.old) (faults_of self.new) result }
    {
        self.store(space, place, &value.to_le_bytes())
    }

    fn store4(&mut self, space: Space, place: u64, value: u32) -> Result<(), Failed>
        requires room { place + 4 ≤ sizes_of self.old space.number }
        requires aligned { place % 4 ≡ 0 }
        ensures puts { OnOk result (Puts F.held (spaces_of self.old) (spaces_of self.new) space.number place (little_bytes 4 value)) }
        ensures spaces { SameSizes (spaces_of self.old) (spaces_of self.new) }
        ensures cause { HasCause (faults_of self.old) (faults_of self.new) result }
    {
        self.store(space, place, &value.to_le_bytes())
    }

    fn store8(&mut self, space: Space, place: u64, value: u64) -> Result<(), Failed>
        requires room { place + 8 ≤ sizes_of self.old space.number }
        requires aligned { place % 8 ≡ 0 }
        ensures puts { OnOk result (Puts F.held (spaces_of self.old) (spaces_of self.new) space.number place (little_bytes 8 value)) }
        ensures spaces { SameSizes (spaces_of self.old) (spaces_of self.new) }
        ensures cause { HasCause (faults_of self.old) (faults_of self.new) result }
    {
        self.store(space, place, &value.to_le_bytes())
    }

    fn store_run(&mut self, space: Space, place: u64, bytes: &[u8]) -> Result<(), Failed>
        requires { place + length bytes.now ≤ sizes_of self.old space.number }
        ensures puts { OnOk result (Puts F.held (spaces_of self.old) (spaces_of self.new) space.number place bytes.now) }
        ensures spaces { SameSizes (spaces_of self.old) (spaces_of self.new) }
        ensures cause { HasCause (faults_of self.old) (faults_of self.new) result }
    {
        self.store(space, place, bytes)
    }
}
