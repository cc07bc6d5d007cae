// Spaces that are held in memory, each with its name.
ghost use Rattle.std.specs.Prelude.{◌≡◌, ◌≤◌, ◌<◌, ◌+◌, ℕ, List, slice_index, length, replicate, IfOk, IfSome, string_bytes};
ghost use Rattle.vub_shared.specs.Bytes.{put};

use std::alloc::Global;
use vub_base::Memory;

// A space: the name that it was made for, and its bytes.
#[derive(Drop)]
pub struct Held {
    name: String,
    bytes: Vec<u8>,
}

impl Held {
    ghost use Rattle.vub_shared.specs.Splices.{splice};

    // A space of so many zero bytes.
    pub fn zeroed(alloc: Global, name: &str, size: u64) -> Result<Held, Memory>
        ensures name { IfOk result (λ h. string_bytes h.name ≡ name.now) }
        ensures bytes { IfOk result (λ h. h.bytes.items ≡ replicate size 0) }
    {
        let name = name.to_string(alloc).map_err(|_| Memory)?;
        let bytes = vec![in alloc; 0u8; size as usize].map_err(|_| Memory)?;
        Ok(Held { name, bytes })
    }

    // The name that it was made for.
    pub fn name(&self) -> &str
        ensures { result.now ≡ string_bytes self.now.name }
    {
        self.name.as_str()
    }

    // Its bytes.
    pub fn bytes(&self) -> &[u8]
        ensures { result.now ≡ self.now.bytes.items }
    {
        &self.bytes
    }

    // Writes bytes over a part of its own.
    pub fn overwrite(&mut self, place: usize, bytes: &[u8])
        requires { place + length bytes.now ≤ length self.old.bytes.items }
        ensures bytes { self.new.bytes.items ≡ splice self.old.bytes.items place bytes.now }
        ensures name { string_bytes self.new.name ≡ string_bytes self.old.name }
    {
        let end = place + bytes.len();
        self.bytes[place..end].copy_from_slice(bytes);
    }
}
