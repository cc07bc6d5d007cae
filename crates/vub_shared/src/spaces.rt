// What is read and written of spaces that are held in memory.
ghost use Rattle.std.specs.Prelude.{◌≡◌, ◌≢◌, ◌≤◌, ◌<◌, ◌+◌, ℕ, List, slice_index, length, [], ◌∷◌, ◌++◌, IfSome, OnOk, OnErr};
ghost use Rattle.vub_shared.specs.Bytes.{put, cleared};
ghost use Rattle.vub_shared.specs.Spaces.{with_name};
ghost use Rattle.vub_shared.specs.Held.{image, meaning, space_bytes, space_size};

use crate::held::Held;
use std::alloc::Global;
use vub_base::Memory;

// Writes bytes into a space.
pub fn write(spaces: &mut Vec<Held>, space: usize, place: usize, bytes: &[u8])
    requires { place + length bytes.now ≤ space_size spaces.old.items space }
    ensures put { (t q : ℕ) → image spaces.new.items t q ≡ put (image spaces.old.items) space place bytes.now t q }
    ensures sizes { (t : ℕ) → space_size spaces.new.items t ≡ space_size spaces.old.items t }
    ensures count { length spaces.new.items ≡ length spaces.old.items }
    ensures names { (name : List ℕ) → meaning spaces.new.items name ≡ meaning spaces.old.items name }
{
    if space < spaces.len() {
        let held = &mut spaces[space];
        held.overwrite(place, bytes);
    }
}

// Adds a space.
fn add(spaces: &mut Vec<Held>, held: Held) -> Result<(), Memory>
    ensures added { OnOk result (spaces.new.items ≡ spaces.old.items ++ held ∷ []) }
    ensures kept { OnErr result (spaces.new.items ≡ spaces.old.items) }
{
    spaces.push(held).map_err(|_| Memory)?;
    Ok(())
}

// Adds a space of so many zero bytes.
pub fn add_zeroed(
    alloc: Global,
    spaces: &mut Vec<Held>,
    name: &str,
    size: u64,
) -> Result<(), Memory>
    ensures zeroed { OnOk result ((t q : ℕ) → image spaces.new.items t q ≡ cleared (length spaces.old.items) (image spaces.old.items) t q) }
    ensures named { OnOk result ((other : List ℕ) → meaning spaces.new.items other ≡ with_name name.now (length spaces.old.items) (meaning spaces.old.items) other) }
    ensures count { OnOk result (length spaces.new.items ≡ length spaces.old.items + 1) }
    ensures sized { OnOk result (space_size spaces.new.items (length spaces.old.items) ≡ size) }
    ensures sizes { OnOk result ((s : ℕ) → s ≢ length spaces.old.items → space_size spaces.new.items s ≡ space_size spaces.old.items s) }
    ensures kept { OnErr result (spaces.new.items ≡ spaces.old.items) }
{
    let held = Held::zeroed(alloc, name, size)?;
    add(spaces, held)?;
    Ok(())
}

// Reads bytes of a space.
pub fn read(spaces: &[Held], space: usize, place: usize, into: &mut [u8])
    requires { place + length into.old ≤ space_size spaces.now space }
    ensures { (i : ℕ) → i < length into.old → slice_index into.new i ≡ slice_index (space_bytes spaces.now space) (place + i) }
{
    if space < spaces.len() {
        let held = spaces[space].bytes();
        let end = place + into.len();
        into.copy_from_slice(&held[place..end]);
    }
}

// The number of the last space of that name.
pub fn last_of(spaces: &[Held], name: &str) -> Option<usize>
    ensures last { result ≡ meaning spaces.now name.now }
    ensures within { IfSome result (λ s. s < length spaces.now) }
{
    let mut found = None;
    for (number, held) in spaces.iter().enumerate() {
        if held.name() == name {
            found = Some(number);
        }
    }
    found
}
