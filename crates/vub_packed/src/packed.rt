//! The slots of a packed virtqueue (VIRTIO 1.2, 2.8.13).
ghost use Rattle.std.specs.Prelude.{◌≡◌, ◌<◌, ℕ, ◌+◌, ◌*◌, ◌^◌, IfOk};
ghost use Rattle.vub_base.specs.Causes.{HasCause};
ghost use Rattle.vub_base.specs.Told.{WhereTold};
ghost use Rattle.vub_shared.specs.Frames.{OnlyLoads, MakesStore, KeepsSpaces};
ghost use Rattle.vub_slots.specs.Flags.{restored_flags};
ghost use Rattle.vub_slots.specs.Stores.{len_store, id_store, flags_store};

use vub_base::standard::{VIRTQ_DESC_F_AVAIL, VIRTQ_DESC_F_USED};
use vub_base::{Failed, Space, get_u16, get_u32, get_u64};
use vub_shared::{Shared, load_u16};

// The bytes of a slot, and in it the places of its address, length, id and flags.
const SLOT_BYTES: usize = 16;

const ADDR_AT: usize = 0;

const LEN_AT: usize = 8;

const ID_AT: usize = 12;

const FLAGS_AT: usize = 14;

/// Where the slots of a packed ring lie, by space and place in bytes, and how many they are: 1 to
/// 1024, of any number.
#[derive(Clone, Copy, Debug, PartialEq, Eq)]
pub struct PackedRing {
    pub ring: (Space, u64),
    pub size: u16,
}

/// What stands in a slot: a descriptor that the driver made available, or a used element.
#[derive(Clone, Copy, Debug, PartialEq, Eq)]
pub struct PackedDesc {
    /// The guest address of the buffer.
    pub addr: u64,
    /// The length of the buffer in bytes, or of what the device wrote of it.
    pub len: u32,
    /// The id of the buffer.
    pub id: u16,
    pub flags: u16,
}

// The flags of a slot that is made available where the wrap counter is `wrap`: AVAIL is equal to it,
// USED isn't, and each other bit is as it was.
fn available_again(flags: u16, wrap: bool) -> u16
    ensures { result ≡ restored_flags flags wrap }
{
    let others = flags & !(VIRTQ_DESC_F_AVAIL | VIRTQ_DESC_F_USED);
    if wrap {
        others | VIRTQ_DESC_F_AVAIL
    } else {
        others | VIRTQ_DESC_F_USED
    }
}

impl PackedRing {
    ghost use Rattle.vub_packed.specs.Packed.{RingLies, ring_of_packed, slot_in};
    ghost use Rattle.vub_packed.specs.Restores.{Restores};

    // The place of the field `at` bytes into the slot of an index.
    fn place(&self, index: u16, at: usize) -> u64
        requires { self.now.ring.1 + 16 * index + at < 2 ^ 64 }
        ensures { result ≡ self.now.ring.1 + 16 * index + at }
    {
        self.ring.1 + (SLOT_BYTES as u64) * u64::from(index) + at as u64
    }

    /// The slot of an index.
    pub fn slot_at<M: Shared>(&self, mem: &mut M, index: u16) -> Result<PackedDesc, Failed>
        requires lies { RingLies (M.sizes mem.old) self.now }
        requires below { index < self.now.size }
        ensures loaded { IfOk result (λ d. WhereTold (M.told mem.old) (λ m. d ≡ slot_in self.now m index)) }
        ensures only_loads { OnlyLoads M.told M.trail M.names M.handed M.sizes mem.old mem.new }
        ensures cause { HasCause (M.faults mem.old) (M.faults mem.new) result }
    {
        let mut bytes = [0u8; SLOT_BYTES];
        mem.load(self.ring.0, self.place(index, ADDR_AT), &mut bytes)?;
        Ok(PackedDesc {
            addr: get_u64(&bytes, ADDR_AT),
            len: get_u32(&bytes, LEN_AT),
            id: get_u16(&bytes, ID_AT),
            flags: get_u16(&bytes, FLAGS_AT),
        })
    }

    /// Stores the length of the slot of an index.
    pub fn write_slot_len<M: Shared>(&self, mem: &mut M, index: u16, len: u32) -> Result<(), Failed>
        requires lies { RingLies (M.sizes mem.old) self.now }
        requires below { index < self.now.size }
        ensures makes_store { MakesStore M.told M.trail M.names M.handed M.sizes mem.old mem.new result (len_store (ring_of_packed self.now) index len) }
        ensures cause { HasCause (M.faults mem.old) (M.faults mem.new) result }
    {
        mem.store4(self.ring.0, self.place(index, LEN_AT), len)
    }

    /// Stores the id of the slot of an index.
    pub fn write_slot_id<M: Shared>(&self, mem: &mut M, index: u16, id: u16) -> Result<(), Failed>
        requires lies { RingLies (M.sizes mem.old) self.now }
        requires below { index < self.now.size }
        ensures makes_store { MakesStore M.told M.trail M.names M.handed M.sizes mem.old mem.new result (id_store (ring_of_packed self.now) index id) }
        ensures cause { HasCause (M.faults mem.old) (M.faults mem.new) result }
    {
        mem.store2(self.ring.0, self.place(index, ID_AT), id)
    }

    /// Stores the flags of the slot of an index.
    pub fn write_slot_flags<M: Shared>(
        &self,
        mem: &mut M,
        index: u16,
        flags: u16,
    ) -> Result<(), Failed>
        requires lies { RingLies (M.sizes mem.old) self.now }
        requires below { index < self.now.size }
        ensures makes_store { MakesStore M.told M.trail M.names M.handed M.sizes mem.old mem.new result (flags_store (ring_of_packed self.now) index flags) }
        ensures cause { HasCause (M.faults mem.old) (M.faults mem.new) result }
    {
        mem.store2(self.ring.0, self.place(index, FLAGS_AT), flags)
    }

    /// Makes the slot of an index available again where the wrap counter is `wrap`: one store of its
    /// flags, with AVAIL equal to `wrap`, USED not, and the other bits as loaded.
    pub fn restore_slot<M: Shared>(&self, mem: &mut M, index: u16, wrap: bool) -> Result<(), Failed>
        requires lies { RingLies (M.sizes mem.old) self.now }
        requires below { index < self.now.size }
        ensures restores { Restores self.now index wrap (M.told mem.old) (M.told mem.new) (M.trail mem.old) (M.trail mem.new) result }
        ensures keeps_spaces { KeepsSpaces M.names M.handed M.sizes mem.old mem.new }
        ensures cause { HasCause (M.faults mem.old) (M.faults mem.new) result }
    {
        let flags = load_u16(mem, self.ring.0, self.place(index, FLAGS_AT))?;
        self.write_slot_flags(mem, index, available_again(flags, wrap))
    }
}
