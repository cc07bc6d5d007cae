//! The driver of one split queue: it places requests in guest memory, one store a step, and takes
//! the used elements (VIRTIO 1.2, 2.7.13 and 2.7.14).
ghost use Rattle.std.specs.Prelude.{◌≡◌, ◌<◌, ◌≤◌, ◌+◌, ◌*◌, ◌%◌, ◌^◌, ℕ, length, map, Some, IfOk, IfSome};
ghost use Rattle.std.specs.Option.{ForSome};
ghost use Rattle.vub_driver.specs.GuestChain.{IsOwned};

mod request;

use crate::layout::{AREA, AVAIL, STATUS, USED, area_of, buffer_of};
use request::{data_len, data_start, descriptor, has_written, header, is_read, written};
use std::alloc::Global;
use vub_base::standard::REQUEST_HEADER_SIZE;
use vub_base::{Ask, Failed, Header1, Memory, Shape, Space};
use vub_driver::has_data;
use vub_shared::{Shared, load_u16, load_u32};
use vub_split::layout::{
    AVAIL_ENTRY_SIZE, AVAIL_IDX, AVAIL_RING, DESC_SIZE, USED_ELEMENT_SIZE, USED_IDX, USED_RING,
};

/// What the driver stores in the status byte before it offers a request.
const NO_STATUS: u8 = 0xff;

/// What a step of the driver was.
#[derive(Clone, Copy, Debug, PartialEq, Eq)]
pub enum GuestStep {
    /// No request waits.
    Idle,
    Stored,
    /// The store that offers the request, with the head of its chain.
    Offered(u16),
    /// The shared memory failed.
    Failed,
}

/// What the driver took from the used ring.
#[derive(Clone, Copy, Debug, PartialEq, Eq)]
pub enum Collected {
    /// No further element is shown.
    Nothing,
    /// The low 16 bits of the element's id.
    Head(u16),
    /// The shared memory failed.
    Failed,
}

/// The descriptors of a request, in the order of their chain.
#[derive(Clone, Copy, Debug)]
struct Chain {
    head: u16,
    body: Option<u16>,
    status: u16,
    ghost head_fits: { head < 64 },
    ghost body_fits: { ForSome body (λ d. d < 64) },
    ghost status_fits: { status < 64 },
}

/// The store that a request waits for.
#[derive(Clone, Copy, Debug, PartialEq, Eq)]
enum Stage {
    Header,
    Data,
    Status,
    HeaderDescriptor,
    DataDescriptor,
    StatusDescriptor,
    AvailEntry,
    AvailIdx,
}

/// A request that isn't offered yet.
#[derive(Debug, Drop)]
struct WaitingRequest {
    ask: Ask,
    chain: Chain,
    stage: Stage,
}

impl Chain {
    ghost use Rattle.std.specs.Prelude.{All};
    ghost use Rattle.vub_driver.specs.Drivers.{owned_by};
    ghost use Rattle.vub_driver.specs.GuestChain.{descriptors, second};
    ghost use Rattle.vub_guest.specs.GuestStores.{links_of};
    ghost use Rattle.vub_guest.specs.GuestState.{owner_at};

    /// The descriptor after the first.
    fn second(&self) -> u16
        ensures is { result ≡ second (links_of self.now) }
        ensures fits { result < 64 }
    {
        match self.body {
            Some(body) => body,
            None => self.status,
        }
    }

    /// Gives the descriptors to the head.
    fn own(&self, owners: &mut [Option<u16>])
        requires { All (λ d. d < length owners.old) (descriptors (links_of self.now)) }
        ensures owners { (d : ℕ) → owner_at owners.new d ≡ owned_by self.now.head (descriptors (links_of self.now)) (owner_at owners.old) d }
        ensures count { length owners.new ≡ length owners.old }
    {
        owners[usize::from(self.head)] = Some(self.head);
        owners[usize::from(self.status)] = Some(self.head);
        if let Some(body) = self.body {
            owners[usize::from(body)] = Some(self.head);
        }
    }
}

impl WaitingRequest {
    ghost use Rattle.vub_guest.specs.GuestStores.{links_of, stage_after};

    /// The store after this one; none after the last.
    fn next_stage(&self) -> Option<Stage>
        ensures { result ≡ stage_after self.now.ask (links_of self.now.chain) self.now.stage }
    {
        match self.stage {
            Stage::Header => {
                if has_written(&self.ask) {
                    Some(Stage::Data)
                } else {
                    Some(Stage::Status)
                }
            }
            Stage::Data => Some(Stage::Status),
            Stage::Status => Some(Stage::HeaderDescriptor),
            Stage::HeaderDescriptor => match self.chain.body {
                Some(_) => Some(Stage::DataDescriptor),
                None => Some(Stage::StatusDescriptor),
            },
            Stage::DataDescriptor => Some(Stage::StatusDescriptor),
            Stage::StatusDescriptor => Some(Stage::AvailEntry),
            Stage::AvailEntry => Some(Stage::AvailIdx),
            Stage::AvailIdx => None,
        }
    }
}

/// The driver of one queue.
#[derive(Debug, Drop)]
pub struct Guest {
    memory: Space,
    area: u64,
    size: u16,
    // The driver's own avail.idx.
    avail_idx: u16,
    // The index of the used element that it takes next.
    last_used: u16,
    // The head of the request that each descriptor belongs to.
    owners: Vec<Option<u16>>,
    waiting: Option<WaitingRequest>,
    ghost some: { 1 ≤ size },
    ghost few: { size ≤ 64 },
    ghost near: { area < 2 ^ 40 },
    ghost aligned: { area % 16 ≡ 0 },
    ghost owned: { length owners.items ≡ size },
    ghost waits: { ForSome waiting (λ p. IsOwned owners.items (record { head = p.chain.head; body = p.chain.body; status = p.chain.status })) },
}

impl Guest {
    ghost use Rattle.std.specs.Prelude.{false, if◌then◌else◌, Ok};
    ghost use Rattle.vub_base.specs.Causes.{HasCause};
    ghost use Rattle.vub_base.specs.Told.{WhereTold};
    ghost use Rattle.vub_shared.specs.Frames.{OnlyLoads, MakesStore, KeepsSpaces};
    ghost use Rattle.vub_driver.specs.Layout.{ring_of};
    ghost use Rattle.vub_driver.specs.OwnStores.{IsOwnStore};
    ghost use Rattle.vub_driver.specs.Requests.{written_bytes};
    ghost use Rattle.vub_driver.specs.Drivers.{new_driver, can_take, after_ask, after_collect, is_head, without_owner};
    ghost use Rattle.vub_guest.specs.declared.guest.Stage.TheVariants.{Data};
    ghost use Rattle.vub_ring.specs.Ring.{desc_place};
    ghost use Rattle.vub_driver.specs.Layout.{status_place};
    ghost use Rattle.vub_driver.specs.Requests.{readable_piece, writable_piece};
    ghost use Rattle.vub_driver.specs.GuestChain.{second};
    ghost use Rattle.vub_driver.specs.Shown.{ShowsNext};
    ghost use Rattle.vub_guest.specs.GuestRequest.{data_piece, table_entry};
    ghost use Rattle.vub_guest.specs.GuestStores.{links_of};
    ghost use Rattle.vub_guest.specs.GuestStores.{buffer_of as links_buffer};
    ghost use Rattle.vub_guest.specs.Guest.{GuestLies};
    ghost use Rattle.vub_guest.specs.GuestState.{ring_in, driver_in, waiting_store, last_used_in, owner_at, FindsFree, Chooses, StoresNext, TrailsNext, Steps, outcome, next_store, Shows, Collects, fetched};

    /// The driver of one of the header's queues, whose area lies in this space.
    pub fn new(alloc: Global, header: &Header1, queue: u16, memory: Space) -> Result<Guest, Memory>
        requires exists { queue < header.now.queues }
        requires some { 1 ≤ header.now.size }
        requires few { header.now.size ≤ 64 }
        ensures ring { IfOk result (λ g. ring_in g ≡ record (ring_of queue header.now.size) { desc_space = memory.number; avail_space = memory.number; used_space = memory.number }) }
        ensures driver { IfOk result (λ g. driver_in g ≡ new_driver header.now.base) }
        ensures position { IfOk result (λ g. last_used_in g ≡ header.now.base) }
    {
        let owners = vec![in alloc; None; usize::from(header.size)].map_err(|_| Memory)?;
        Ok(Guest {
            memory,
            area: area_of(queue),
            size: header.size,
            avail_idx: header.base,
            last_used: header.base,
            owners,
            waiting: None,
        })
    }

    #[tactic(auto, using(crate::proofs::GuestLemmas::free_after_taken, crate::proofs::GuestLemmas::free_after_free, crate::proofs::GuestLemmas::free_after_past))]
    /// The lowest free descriptor from this one on.
    fn next_free(owners: &[Option<u16>], from: u16) -> Option<u16>
        requires { length owners.now ≤ 64 }
        ensures free { FindsFree owners.now from result }
        ensures fits { IfSome result (λ d. d < length owners.now) }
    {
        for d in usize::from(from)..owners.len() {
            if owners[d].is_none() {
                return Some(d as u16);
            }
        }
        None
    }

    /// The lowest free descriptors that a request can have, if so many are free.
    fn free_chain(owners: &[Option<u16>], ask: &Ask) -> Option<Chain>
        requires { length owners.now ≤ 64 }
        ensures { Chooses owners.now ask.now result }
    {
        let head = Guest::next_free(owners, 0)?;
        let second = Guest::next_free(owners, head + 1)?;
        if !has_data(ask) {
            return Some(Chain {
                head,
                body: None,
                status: second,
            });
        }
        let status = Guest::next_free(owners, second + 1)?;
        Some(Chain {
            head,
            body: Some(second),
            status,
        })
    }

    /// Gives the driver a request. It is false, and changes nothing, exactly where a request waits,
    /// the free descriptors don't suffice, or the shape is indirect, which this driver doesn't
    /// place. Takes no memory.
    pub fn queue_request(&mut self, shape: Shape, ask: &Ask) -> bool
        ensures answer { result ≡ can_take (ring_in self.old).size shape ask.now (driver_in self.old) }
        ensures driver { driver_in self.new ≡ (if result then after_ask (ring_in self.old) ask.now (driver_in self.old) else driver_in self.old) }
        ensures kept { result ≡ false → self.new ≡ self.old }
        ensures ring { ring_in self.new ≡ ring_in self.old }
        ensures position { last_used_in self.new ≡ last_used_in self.old }
    {
        if self.waiting.is_some() || shape != Shape::Direct {
            return false;
        }
        let Some(chain) = Guest::free_chain(&self.owners, ask) else {
            return false;
        };
        chain.own(&mut self.owners);
        self.waiting = Some(WaitingRequest {
            ask: ask.copied(),
            chain,
            stage: Stage::Header,
        });
        true
    }

    /// Where the store of a stage goes.
    fn place_of(&self, waiting: &WaitingRequest) -> u64
        ensures { result ≡ (waiting_store self.now waiting.now waiting.now.stage).place }
    {
        let chain = &waiting.chain;
        let buffer = buffer_of(self.area, chain.head);
        let avail = self.area + AVAIL;
        match waiting.stage {
            Stage::Header => buffer,
            Stage::Data => data_start(buffer, &waiting.ask),
            Stage::Status => buffer + STATUS,
            Stage::HeaderDescriptor => self.descriptor_place(chain.head),
            Stage::DataDescriptor => self.descriptor_place(chain.second()),
            Stage::StatusDescriptor => self.descriptor_place(chain.status),
            Stage::AvailEntry => {
                avail + (AVAIL_RING + AVAIL_ENTRY_SIZE * u64::from(self.avail_idx % self.size))
            }
            Stage::AvailIdx => avail + AVAIL_IDX,
        }
    }

    fn descriptor_place(&self, index: u16) -> u64
        requires { index < 64 }
        ensures { result ≡ desc_place (ring_in self.now) index }
    {
        self.area + DESC_SIZE as u64 * u64::from(index)
    }

    /// The descriptor of the header.
    fn header_descriptor(&self, chain: &Chain) -> [u8; DESC_SIZE]
        ensures { result ≡ table_entry (readable_piece (links_buffer (ring_in self.now) (links_of chain.now)) 16) (Some (second (links_of chain.now))) }
    {
        let buffer = buffer_of(self.area, chain.head);
        descriptor(
            buffer,
            REQUEST_HEADER_SIZE as u32,
            false,
            Some(chain.second()),
        )
    }

    /// The descriptor of the data.
    fn data_descriptor(&self, waiting: &WaitingRequest) -> [u8; DESC_SIZE]
        ensures { result ≡ table_entry (data_piece (links_buffer (ring_in self.now) (links_of waiting.now.chain)) waiting.now.ask) (Some waiting.now.chain.status) }
    {
        let ask = &waiting.ask;
        let data = data_start(buffer_of(self.area, waiting.chain.head), ask);
        descriptor(
            data,
            data_len(ask),
            is_read(ask),
            Some(waiting.chain.status),
        )
    }

    /// The descriptor of the status.
    fn status_descriptor(&self, chain: &Chain) -> [u8; DESC_SIZE]
        ensures { result ≡ table_entry (writable_piece (status_place (links_buffer (ring_in self.now) (links_of chain.now))) 1) None }
    {
        descriptor(buffer_of(self.area, chain.head) + STATUS, 1, true, None)
    }

    /// Makes the store of the stage: the status byte, a word of the avail ring, or a run of bytes.
    fn make_store<M: Shared>(&self, mem: &mut M, waiting: &WaitingRequest) -> Result<(), Failed>
        requires { GuestLies (M.sizes mem.old) self.now }
        ensures makes_store { MakesStore M.told M.trail M.names M.handed M.sizes mem.old mem.new result (waiting_store self.now waiting.now waiting.now.stage) }
        ensures small { waiting.now.stage ≡ Data → length (written_bytes waiting.now.ask) ≤ 4096 }
        ensures cause { HasCause (M.faults mem.old) (M.faults mem.new) result }
    {
        let chain = &waiting.chain;
        let place = self.place_of(waiting);
        match waiting.stage {
            Stage::Header => mem.store_run(self.memory, place, &header(&waiting.ask)),
            Stage::Data => mem.store_run(self.memory, place, &written(&waiting.ask)),
            Stage::Status => mem.store1(self.memory, place, NO_STATUS),
            Stage::HeaderDescriptor => {
                mem.store_run(self.memory, place, &self.header_descriptor(chain))
            }
            Stage::DataDescriptor => {
                mem.store_run(self.memory, place, &self.data_descriptor(waiting))
            }
            Stage::StatusDescriptor => {
                mem.store_run(self.memory, place, &self.status_descriptor(chain))
            }
            Stage::AvailEntry => mem.store2(self.memory, place, chain.head),
            Stage::AvailIdx => mem.store2(self.memory, place, self.avail_idx.wrapping_add(1)),
        }
    }

    /// What the driver does once its store stands.
    fn advance(&mut self) -> GuestStep
        ensures driver { Steps result (driver_in self.old) (driver_in self.new) }
        ensures outcome { outcome result ≡ Ok tt }
        ensures ring { ring_in self.new ≡ ring_in self.old }
        ensures position { last_used_in self.new ≡ last_used_in self.old }
    {
        let Some(waiting) = &mut self.waiting else {
            return GuestStep::Idle;
        };
        if let Some(stage) = waiting.next_stage() {
            waiting.stage = stage;
            return GuestStep::Stored;
        }
        let head = waiting.chain.head;
        self.avail_idx = self.avail_idx.wrapping_add(1);
        self.waiting = None;
        GuestStep::Offered(head)
    }

    /// Makes the next store of the request that waits; where none waits it is idle, and changes
    /// nothing. The last store, of avail.idx, offers the request. After `Failed` the driver is as
    /// before: its store stands or not, and the next step makes it again. Takes no memory.
    pub fn step<M: Shared>(&mut self, mem: &mut M) -> GuestStep
        requires { GuestLies (M.sizes mem.old) self.old }
        ensures keeps_spaces { KeepsSpaces M.names M.handed M.sizes mem.old mem.new }
        ensures lies { GuestLies (M.sizes mem.new) self.new }
        ensures driver { Steps result (driver_in self.old) (driver_in self.new) }
        ensures stores { StoresNext (M.told mem.old) (M.told mem.new) result (next_store (driver_in self.old).waiting) }
        ensures trails { TrailsNext (M.trail mem.old) (M.trail mem.new) result (next_store (driver_in self.old).waiting) }
        ensures own { IfSome (next_store (driver_in self.old).waiting) (IsOwnStore (ring_in self.old) (driver_in self.old)) }
        ensures ring { ring_in self.new ≡ ring_in self.old }
        ensures position { last_used_in self.new ≡ last_used_in self.old }
        ensures cause { HasCause (M.faults mem.old) (M.faults mem.new) (outcome result) }
    {
        let Some(waiting) = &self.waiting else {
            return GuestStep::Idle;
        };
        match self.make_store(mem, waiting) {
            Ok(()) => self.advance(),
            Err(Failed) => GuestStep::Failed,
        }
    }

    /// The head in the next used element, if one is shown.
    fn next_shown<M: Shared>(&self, mem: &mut M) -> Result<Option<u16>, Failed>
        requires { GuestLies (M.sizes mem.old) self.now }
        ensures loaded { IfOk result (λ shown. WhereTold (M.told mem.old) (λ m. ShowsNext shown (ring_in self.now) m self.now.last_used)) }
        ensures only_loads { OnlyLoads M.told M.trail M.names M.handed M.sizes mem.old mem.new }
        ensures cause { HasCause (M.faults mem.old) (M.faults mem.new) result }
    {
        // used.idx is loaded before the element that it announces (VIRTIO 1.2, 2.7.8.2 and 2.7.14):
        // in the other order the element could be an old one.
        if load_u16(mem, self.memory, self.area + USED + USED_IDX)? == self.last_used {
            return Ok(None);
        }
        let element = u64::from(self.last_used % self.size);
        let id = load_u32(
            mem,
            self.memory,
            self.area + USED + (USED_RING + USED_ELEMENT_SIZE * element),
        )?;
        Ok(Some((id & 0xffff) as u16))
    }

    /// Frees the descriptors that belong to a head.
    fn free(owners: &mut [Option<u16>], head: u16)
        ensures owners { (d : ℕ) → owner_at owners.new d ≡ without_owner head (owner_at owners.old) d }
        ensures count { length owners.new ≡ length owners.old }
    {
        for d in 0..owners.len() {
            if owners[d] == Some(head) {
                owners[d] = None;
            }
        }
    }

    /// Whether the request that waits has this head.
    fn awaits(&self, head: u16) -> bool
        ensures { result ≡ is_head head (driver_in self.now).waiting }
    {
        match &self.waiting {
            Some(waiting) => waiting.chain.head == head,
            None => false,
        }
    }

    /// Goes on to the element after one of this head, whose descriptors are free from then on if it
    /// names an offered buffer.
    fn take(&mut self, head: u16)
        ensures driver { driver_in self.new ≡ after_collect head (driver_in self.old) }
        ensures ring { ring_in self.new ≡ ring_in self.old }
        ensures position { last_used_in self.new ≡ (last_used_in self.old + 1) % 65536 }
    {
        self.last_used = self.last_used.wrapping_add(1);
        if !self.awaits(head) {
            Guest::free(&mut self.owners, head);
        }
    }

    /// Takes the next used element, and frees the descriptors of the buffer that it names. An
    /// element that names no offered buffer frees nothing, and is taken all the same. `Nothing` is
    /// where used.idx is at the driver's position; then, and after `Failed`, the driver is as
    /// before. Takes no memory.
    pub fn collect<M: Shared>(&mut self, mem: &mut M) -> Collected
        requires { GuestLies (M.sizes mem.old) self.old }
        ensures only_loads { OnlyLoads M.told M.trail M.names M.handed M.sizes mem.old mem.new }
        ensures lies { GuestLies (M.sizes mem.new) self.new }
        ensures shown { WhereTold (M.told mem.old) (λ m. Shows result (ring_in self.old) m (last_used_in self.old)) }
        ensures driver { Collects result (driver_in self.old) (driver_in self.new) (last_used_in self.old) (last_used_in self.new) }
        ensures ring { ring_in self.new ≡ ring_in self.old }
        ensures cause { HasCause (M.faults mem.old) (M.faults mem.new) (fetched result) }
    {
        match self.next_shown(mem) {
            Err(Failed) => Collected::Failed,
            Ok(None) => Collected::Nothing,
            Ok(Some(head)) => {
                self.take(head);
                Collected::Head(head)
            }
        }
    }
}
