ghost use Rattle.std.specs.Prelude.{◌≡◌, ◌<◌, ◌≤◌, ◌+◌, ◌↔◌, [], ◌∷◌, ◌++◌, vec_len, vec_capacity, IsTrue, IfOk, IsOk, OnOk, OnErr, Some, length, slice_get};
ghost use Rattle.vub_shared.specs.Stores.{one_store};
ghost use Rattle.vub_shared.specs.Trails.{HasRoom, with_store};

use crate::kept::Kept;
use std::alloc::Global;
use std::marker::Model;
use vub_base::{Memory, Space};

// A list of stores with room for so many stores and bytes. The bytes of all stores stand in one
// vector, so that no store takes memory.
#[derive(Drop)]
pub struct Trail {
    kept: Vec<Kept>,
    bytes: Vec<u8>,
    stores_room: usize,
    bytes_room: usize,
}

impl Model for Trail {
    ghost use Rattle.std.specs.Prelude.{◌≤◌, vec_len, vec_capacity};
    ghost use Rattle.vub_shared.specs.Trails.{TrailState, kept_stores, IsKept};

    ghost Value = { TrailState };

    ghost view = { λ t. record { stores = kept_stores t.bytes.items t.kept.items; stores_room = t.stores_room; bytes_room = t.bytes_room } };

    ghost invariant = { λ t. (vec_len t.kept ≤ t.stores_room) × (t.stores_room ≤ vec_capacity t.kept) × (vec_len t.bytes ≤ t.bytes_room) × (t.bytes_room ≤ vec_capacity t.bytes) × IsKept t.bytes.items t.kept.items };
}

impl Trail {
    // An empty list with room for so many stores and bytes.
    pub fn new(alloc: Global, stores: usize, bytes: usize) -> Result<Trail, Memory>
        ensures { IfOk result (λ t. t ≡ record { stores = []; stores_room = stores; bytes_room = bytes }) }
    {
        Ok(Trail {
            kept: Vec::with_capacity(alloc, stores).map_err(|_| Memory)?,
            bytes: Vec::with_capacity(alloc, bytes).map_err(|_| Memory)?,
            stores_room: stores,
            bytes_room: bytes,
        })
    }

    // Empties the list and reserves room for so many stores and bytes. Refused, it changes nothing.
    pub fn restart(&mut self, stores: usize, bytes: usize) -> Result<(), Memory>
        ensures done { OnOk result (self.new ≡ record { stores = []; stores_room = stores; bytes_room = bytes }) }
        ensures refused { OnErr result (self.new ≡ self.old) }
        ensures enough { stores ≤ self.old.stores_room → bytes ≤ self.old.bytes_room → IsOk result }
    {
        if stores > self.stores_room {
            let more = stores - self.kept.len();
            self.kept.reserve(more).map_err(|_| Memory)?;
        }
        if bytes > self.bytes_room {
            let more = bytes - self.bytes.len();
            self.bytes.reserve(more).map_err(|_| Memory)?;
        }
        self.kept.clear();
        self.bytes.clear();
        self.stores_room = stores;
        self.bytes_room = bytes;
        Ok(())
    }

    // Reserves room for so many bytes, if there was less. Refused, it changes nothing.
    pub fn reserve(&mut self, bytes: usize) -> Result<(), Memory>
        ensures frame { self.new ≡ record self.old { bytes_room = self.new.bytes_room } }
        ensures grows { self.old.bytes_room ≤ self.new.bytes_room }
        ensures done { OnOk result (bytes ≤ self.new.bytes_room) }
        ensures refused { OnErr result (self.new ≡ self.old) }
    {
        if bytes > self.bytes_room {
            let more = bytes - self.bytes.len();
            self.bytes.reserve(more).map_err(|_| Memory)?;
            self.bytes_room = bytes;
        }
        Ok(())
    }

    // Empties the list.
    pub fn clear(&mut self)
        ensures { self.new ≡ record self.old { stores = [] } }
    {
        self.kept.clear();
        self.bytes.clear();
    }

    // The number of stores.
    pub fn len(&self) -> usize
        ensures { result ≡ length self.now.stores }
    {
        self.kept.len()
    }

    // One store.
    pub fn at(&self, index: usize) -> (Space, u64, &[u8])
        requires { index < length self.now.stores }
        ensures { slice_get self.now.stores index ≡ Some (one_store result.0.number result.1 result.2.now) }
    {
        let kept = self.kept[index];
        (kept.space, kept.place, &self.bytes[kept.start..kept.end])
    }

    // Whether a store of so many bytes more has room.
    pub fn has_room(&self, count: usize) -> bool
        ensures { IsTrue result ↔ HasRoom self.now count }
    {
        self.kept.len() < self.stores_room && count <= self.bytes_room - self.bytes.len()
    }

    // Adds a store.
    pub fn add(&mut self, space: Space, place: u64, bytes: &[u8])
        requires { HasRoom self.old (length bytes.now) }
        ensures { self.new ≡ with_store (one_store space.number place bytes.now) self.old }
    {
        let start = self.bytes.len();
        append(&mut self.bytes, bytes);
        let kept = Kept {
            space,
            place,
            start,
            end: start + bytes.len(),
        };
        append_kept(&mut self.kept, kept);
    }
}

// Appends bytes for which there is room.
fn append(all: &mut Vec<u8>, bytes: &[u8])
    requires { vec_len all.old + length bytes.now ≤ vec_capacity all.old }
    ensures items { all.new.items ≡ all.old.items ++ bytes.now }
    ensures capacity { vec_capacity all.old ≤ vec_capacity all.new }
{
    if all.extend_from_slice(bytes).is_err() {
        unreachable!();
    }
}

// Appends a store for which there is room.
fn append_kept(all: &mut Vec<Kept>, kept: Kept)
    requires { vec_len all.old < vec_capacity all.old }
    ensures items { all.new.items ≡ all.old.items ++ kept ∷ [] }
    ensures capacity { vec_capacity all.old ≤ vec_capacity all.new }
{
    if all.push(kept).is_err() {
        unreachable!();
    }
}
