//! The driver's side of one queue of a world, and its requests that are outstanding.
ghost use Rattle.std.specs.Prelude.{◌≡◌, ◌<◌, ◌≤◌, ◌+◌, ◌-◌, ◌^◌, ◌++◌, ◌∷◌, [], ℕ, if◌then◌else◌, IfOk, IsSome, true, false, Some, None};
ghost use Rattle.vub_schedule.specs.Spelling.{IsHeader};
ghost use Rattle.vub_shared.specs.Watched.{bytes_in, stores_in, sizes_in};

use crate::notes::{asked_of, note_store};
use crate::outstanding::OutstandingRequests;
use crate::regions::region_of;
use std::alloc::Global;
use vub_base::{Ask, Header1, Memory, Shape, Space, Tag};
use vub_device::Entry;
use vub_guest::layout::ring_of;
use vub_guest::{Collected, Guest, GuestStep};
use vub_report::Item;
use vub_room::Room;
use vub_setup::{QueueSetup, Rings, SplitRegion};
use vub_shared::WatchedShared;
use vub_split::SplitRing;

/// The driver's side of one queue.
#[derive(Drop)]
pub struct DriverSide {
    pub alloc: Global,
    pub header: Header1,
    /// The number of the queue.
    pub index: u16,
    pub ring: SplitRing,
    /// The queue's part of the in-flight region.
    pub region: SplitRegion,
    /// The space of guest memory.
    pub space: Space,
    pub guest: Guest,
    /// The request that waits to be offered.
    pub asked: Option<Ask>,
    pub outstanding: OutstandingRequests,
}

impl DriverSide {
    ghost use Rattle.vub_device.specs.Requests.{request_of};
    ghost use Rattle.vub_device.specs.declared.entry.Entry.TheVariants as entries;
    ghost use Rattle.vub_driver.specs.Drivers.{Waiting, can_take, after_ask};
    ghost use Rattle.vub_driver.specs.Layout.{guest_space, inflight_space};
    ghost use Rattle.vub_guest.specs.declared.guest.GuestStep.TheVariants as answers;
    ghost use Rattle.vub_guest.specs.declared.guest.Collected.TheVariants as takes;
    ghost use Rattle.vub_guest.specs.GuestState.{ring_in, driver_in, last_used_in, next_store, Steps, Shows, Collects};
    ghost use Rattle.vub_report.specs.declared.items.Item.TheVariants as items;
    ghost use Rattle.vub_room.specs.Rooms.{Spends};
    ghost use Rattle.vub_run.specs.Moments.{Moment};
    ghost use Rattle.vub_setup.specs.Setups.{IsSplit, places_of, split_of};
    ghost use Rattle.vub_task.specs.TaskState.{after_maybe, with_maybe};
    ghost use Rattle.vub_world.specs.DriverSides.{DriverSideSound, IsNewDriverSide, desk, setup_of};
    ghost use Rattle.vub_world.specs.MachineAt.{DriverSideAt};
    ghost use Rattle.vub_world.specs.MachineDriverSide.{DriverSideFits, GuestSteps, GuestGoes, HasPlaces, TakesFirst};
    ghost use Rattle.vub_world.specs.OutstandingRequests.{offered_in, size_in, Offers};

    /// That of a queue of the header, whose area lies in `space` and its region in `inflight`.
    pub fn new(
        alloc: Global,
        header: &Header1,
        index: u16,
        space: Space,
        inflight: Space,
    ) -> Result<DriverSide, Memory>
        requires header { IsHeader header.now }
        requires exists { index < header.now.queues }
        requires space { space.number ≡ guest_space }
        requires inflight { inflight.number ≡ inflight_space }
        ensures { IfOk result (IsNewDriverSide header.now index) }
    {
        Ok(DriverSide {
            alloc,
            header: *header,
            index,
            ring: ring_of(space, index, header.size),
            region: region_of(inflight, index, header.size),
            space,
            guest: Guest::new(alloc, header, index, space)?,
            asked: None,
            outstanding: OutstandingRequests::new(alloc, header.size)?,
        })
    }

    /// How the device's queue is set up: with split rings and a bell.
    pub fn setup(&self) -> QueueSetup
        ensures is { split_of result ≡ Some (setup_of self.now) }
        ensures split { IsSplit result.rings }
        ensures places { places_of result.rings ≡ self.now.ring.size }
        ensures index { result.index ≡ self.now.index }
    {
        QueueSetup {
            index: self.index,
            rings: Rings::Split(self.ring, self.region),
            base: u32::from(self.header.base),
            indirect: false,
            bell: true,
        }
    }

    /// Notes that the waiting request is offered, under this head.
    fn note_offer(&mut self, head: u16, room: &mut Room)
        requires more { offered_in self.old.outstanding < 2 ^ 64 - 1 }
        requires asked { IsSome self.old.asked }
        requires place { head < size_in self.old.outstanding }
        requires items { 1 ≤ room.old.item_room }
        requires lists { 1 ≤ room.old.lists }
        ensures frame { self.new ≡ record self.old { asked = None; outstanding = self.new.outstanding } }
        ensures outstanding { (ask : Ask) → self.old.asked ≡ Some ask → Offers self.old.outstanding self.new.outstanding head ask }
        ensures items { (ask : Ask) → self.old.asked ≡ Some ask → room.new.items ≡ room.old.items ++ items.Made (entries.Offer self.old.index (request_of ask)) ∷ [] }
    {
        let Some(ask) = self.asked.take() else {
            unreachable!();
        };
        self.outstanding.offer(head, &ask);
        let asked = asked_of(ask, room);
        room.note(Item::Made(Entry::Offer(self.index, asked)));
    }

    /// One step of the driver.
    fn step(&mut self, memory: &mut WatchedShared) -> GuestStep
        requires sound { DriverSideSound memory.old self.old }
        ensures frame { self.new ≡ record self.old { guest = self.new.guest } }
        ensures sound { DriverSideSound memory.new self.new }
        ensures sizes { (s : ℕ) → sizes_in memory.new s ≡ sizes_in memory.old s }
        ensures never { result ≡ answers.Failed → ⊥ }
        ensures position { last_used_in self.new.guest ≡ last_used_in self.old.guest }
        ensures driver { Steps result (driver_in self.old.guest) (driver_in self.new.guest) }
        ensures memory { bytes_in memory.new ≡ after_maybe (next_store (driver_in self.old.guest).waiting) (bytes_in memory.old) }
        ensures stores { stores_in memory.new ≡ with_maybe (next_store (driver_in self.old.guest).waiting) [] }
    {
        memory.restart();
        self.guest.step(memory)
    }

    /// One store of the driver with its items; false where the driver has none to make after it.
    fn store(&mut self, memory: &mut WatchedShared, room: &mut Room) -> bool
        requires sound { DriverSideSound memory.old self.old }
        requires more { offered_in self.old.outstanding < 2 ^ 64 - 1 }
        requires fits { DriverSideFits self.old }
        requires items { 2 ≤ room.old.item_room }
        requires lists { 2 ≤ room.old.lists }
        ensures frame { self.new ≡ record self.old { guest = self.new.guest; asked = self.new.asked; outstanding = self.new.outstanding } }
        ensures sound { DriverSideSound memory.new self.new }
        ensures sizes { (s : ℕ) → sizes_in memory.new s ≡ sizes_in memory.old s }
        ensures fits { DriverSideFits self.new }
        ensures position { last_used_in self.new.guest ≡ last_used_in self.old.guest }
        ensures spent { result ≡ true → Spends 1 1 room.old room.new }
        ensures outstanding { result ≡ true → self.new.outstanding ≡ self.old.outstanding }
        ensures goes { (m : Moment) → DriverSideAt self.old.index (desk memory.old self.old) m → GuestSteps self.old.index (m.lanes self.old.index).driver.waiting (desk memory.old self.old) (desk memory.new self.new) m room.old.items room.new.items result }
    {
        match self.step(memory) {
            GuestStep::Idle => false,
            GuestStep::Failed => unreachable!(),
            GuestStep::Stored => {
                note_store(memory, Tag::G, room);
                true
            }
            GuestStep::Offered(head) => {
                note_store(memory, Tag::G, room);
                self.note_offer(head, room);
                false
            }
        }
    }

    /// At most so many stores of the driver.
    pub fn stores(&mut self, count: u16, memory: &mut WatchedShared, room: &mut Room)
        requires sound { DriverSideSound memory.old self.old }
        requires more { offered_in self.old.outstanding < 2 ^ 64 - 1 }
        requires fits { DriverSideFits self.old }
        requires items { count + 1 ≤ room.old.item_room }
        requires lists { count + 1 ≤ room.old.lists }
        ensures frame { self.new ≡ record self.old { guest = self.new.guest; asked = self.new.asked; outstanding = self.new.outstanding } }
        ensures sound { DriverSideSound memory.new self.new }
        ensures sizes { (s : ℕ) → sizes_in memory.new s ≡ sizes_in memory.old s }
        ensures position { last_used_in self.new.guest ≡ last_used_in self.old.guest }
        ensures goes { (m : Moment) (x : Waiting) → DriverSideAt self.old.index (desk memory.old self.old) m → (m.lanes self.old.index).driver.waiting ≡ Some x → GuestGoes self.old.index count x (desk memory.old self.old) (desk memory.new self.new) m room.old.items room.new.items }
    {
        for done in 0..count {
            if !self.store(memory, room) {
                return;
            }
        }
    }

    /// What the driver takes from the used ring.
    fn take_element(&mut self, memory: &mut WatchedShared) -> Collected
        requires sound { DriverSideSound memory.old self.old }
        ensures frame { self.new ≡ record self.old { guest = self.new.guest } }
        ensures sound { DriverSideSound memory.new self.new }
        ensures sizes { (s : ℕ) → sizes_in memory.new s ≡ sizes_in memory.old s }
        ensures never { result ≡ takes.Failed → ⊥ }
        ensures memory { bytes_in memory.new ≡ bytes_in memory.old }
        ensures shown { Shows result (ring_in self.old.guest) (bytes_in memory.old) (last_used_in self.old.guest) }
        ensures driver { Collects result (driver_in self.old.guest) (driver_in self.new.guest) (last_used_in self.old.guest) (last_used_in self.new.guest) }
    {
        memory.restart();
        self.guest.collect(memory)
    }

    /// Gives the driver a request, which waits from then on; false, and nothing changes, where the
    /// driver can't take it.
    pub fn ask(&mut self, shape: Shape, ask: &Ask) -> bool
        ensures answer { result ≡ can_take (ring_in self.old.guest).size shape ask.now (driver_in self.old.guest) }
        ensures kept { result ≡ false → self.new ≡ self.old }
        ensures frame { self.new ≡ record self.old { guest = self.new.guest; asked = self.new.asked } }
        ensures asked { result ≡ true → self.new.asked ≡ Some ask.now }
        ensures driver { driver_in self.new.guest ≡ (if result then after_ask (ring_in self.old.guest) ask.now (driver_in self.old.guest) else driver_in self.old.guest) }
        ensures ring { ring_in self.new.guest ≡ ring_in self.old.guest }
        ensures position { last_used_in self.new.guest ≡ last_used_in self.old.guest }
    {
        if !self.guest.queue_request(shape, ask) {
            return false;
        }
        self.asked = Some(ask.copied());
        true
    }

    /// Takes an element from the used ring: the number of the request that is collected, if one is
    /// shown.
    pub fn collect(&mut self, memory: &mut WatchedShared) -> Option<u64>
        requires sound { DriverSideSound memory.old self.old }
        requires placed { HasPlaces (bytes_in memory.old) self.old }
        ensures frame { self.new ≡ record self.old { guest = self.new.guest; outstanding = self.new.outstanding } }
        ensures sound { DriverSideSound memory.new self.new }
        ensures sizes { (s : ℕ) → sizes_in memory.new s ≡ sizes_in memory.old s }
        ensures memory { bytes_in memory.new ≡ bytes_in memory.old }
        ensures takes { TakesFirst (bytes_in memory.old) self.old self.new result }
    {
        match self.take_element(memory) {
            Collected::Nothing => None,
            Collected::Failed => unreachable!(),
            Collected::Head(head) => {
                let number = self.outstanding.at(head).number;
                self.outstanding.collect();
                Some(number)
            }
        }
    }
}
