// What is read and written of spaces that are open files.
ghost use Rattle.std.specs.Prelude.{◌≡◌, ◌<◌, ◌≤◌, ◌+◌, ℕ, List, length, take, drop, Some, OnOk, IfSome};
ghost use Rattle.vub_base.specs.Told.{WhereTold};
ghost use Rattle.vub_edge.specs.FileSpaces.{name_at, size_at, held_at, Puts, SameSizes};

use crate::PlacedFile;
use crate::file_space::FileSpace;
use vub_base::Failed;

// The number of the last space of that name.
pub fn last_of<F: Drop>(spaces: &[FileSpace<F>], name: &str) -> Option<usize>
    ensures within { IfSome result (λ s. s < length spaces.now) }
    ensures named { IfSome result (λ s. name_at spaces.now s ≡ Some name.now) }
{
    let mut found = None;
    for (number, space) in spaces.iter().enumerate() {
        if space.name.as_str() == name {
            found = Some(number);
        }
    }
    found
}

// Reads bytes of a space. Of one that wasn't handed out there are none.
pub fn read<F: PlacedFile>(
    spaces: &[FileSpace<F>],
    space: usize,
    place: u64,
    into: &mut [u8],
) -> Result<(), Failed>
    requires { place + length into.old ≤ size_at spaces.now space }
    ensures { OnOk result (WhereTold (held_at F.held spaces.now space) (λ bytes. into.new ≡ take (length into.old) (drop place bytes))) }
{
    match spaces.get(space) {
        Some(opened) => opened.file.read_all(place, into),
        None => Ok(()),
    }
}

// Writes bytes into a space. Into one that wasn't handed out there are none to write.
pub fn write<F: PlacedFile>(
    spaces: &mut [FileSpace<F>],
    space: usize,
    place: u64,
    bytes: &[u8],
) -> Result<(), Failed>
    requires { place + length bytes.now ≤ size_at spaces.old space }
    ensures puts { OnOk result (Puts F.held spaces.old spaces.new space place bytes.now) }
    ensures sizes { SameSizes spaces.old spaces.new }
{
    if space < spaces.len() {
        let opened = &mut spaces[space];
        opened.file.write_all(place, bytes)
    } else {
        Ok(())
    }
}
