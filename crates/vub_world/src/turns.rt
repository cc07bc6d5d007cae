//! The turns of the device on one queue of a world, with what is noted of them.
ghost use Rattle.std.specs.Prelude.{◌≡◌, ◌<◌, ◌≤◌, ◌+◌, ◌-◌, ◌*◌, ◌++◌, ℕ, Some, IfSome, min, not, List, length, slice_get, true, false};
ghost use Rattle.vub_memdisk.specs.MemDisks.{values_of, capacity_of};
ghost use Rattle.vub_queue.specs.QueueState.{state_of, is_idle};
ghost use Rattle.vub_report.specs.declared.items.Record.{Record};
ghost use Rattle.vub_room.specs.Rooms.{HasTurnRoom, HasRoom, SpendsAnswers, SpendsLists, SpendsUpTo, SpendsTurn, SpendsStep};
ghost use Rattle.vub_run.specs.Moments.{Moment};
ghost use Rattle.vub_run.specs.Run.{Stands};
ghost use Rattle.vub_schedule.specs.declared.types.Event.{Event};
ghost use Rattle.vub_shared.specs.Watched.{bytes_in, stores_in, sizes_in};
ghost use Rattle.vub_world.specs.DriverSides.{DriverSideSound, PartsSound, parts_in, queue_of};
ghost use Rattle.vub_world.specs.Lives.{IsBackend};
ghost use Rattle.vub_world.specs.MachineAt.{PartsAt, PartsStand, IsReached};
ghost use Rattle.vub_world.specs.MachineDevice.{BatchFits, ShownFits, ShowsSome, IsMade, StoreFits, SectorFits, HeadFits, answer_for, answers_for, queue_shown, queue_shows, queue_started, queue_heads, queue_numbers, number_at, noted, accepts, turn_here, StartFits, KeepsNumbers};
ghost use Rattle.vub_world.specs.MachineSteps.{TurnGoes, StepGoes, TurnsGo, HasStartRoom, turns_besides};
ghost use Rattle.vub_world.specs.OutstandingRequests.{offered_in, collected_in, size_in, slot_in};
ghost use Rattle.vub_world.specs.Sequences.{next_turn, most_turns};

use crate::device::{Sequence, turn_queue};
use crate::driver_side::DriverSide;
use crate::notes::note_store;
use vub_backend::Backend;
use vub_base::Tag;
use vub_base::standard::{SECTOR_SIZE, VIRTIO_BLK_S_OK};
use vub_device::{AnswerList, Answered, Entry, NumberList};
use vub_disk::Disk;
use vub_guest::layout::{SECTORS, STATUS, area_of, buffer_of};
use vub_memdisk::MemDisk;
use vub_queue::{Choice, Queue, Stepped};
use vub_report::Item;
use vub_room::Room;
use vub_shared::WatchedShared;

impl DriverSide {
    /// The answer of a request whose status stands in its buffer.
    fn answer(&self, head: u16, memory: &WatchedShared, room: &mut Room) -> Answered
        requires sound { DriverSideSound memory.now self.now }
        requires fits { head < 64 }
        requires place { head < size_in self.now.outstanding }
        requires few { (slot_in self.now.outstanding head).reads ≤ 8 }
        requires lists { 1 ≤ room.old.lists }
        ensures answer { result ≡ answer_for self.now.index (slot_in self.now.outstanding head) (bytes_in memory.now) head }
        ensures room { SpendsLists 1 room.old room.new }
    {
        let buffer = buffer_of(area_of(self.index), head);
        let request = self.outstanding.at(head);
        let status = memory.byte(self.space, buffer + STATUS);
        let read = if status == VIRTIO_BLK_S_OK {
            SECTOR_SIZE * usize::from(request.reads)
        } else {
            0
        };
        let bytes = memory.bytes(self.space, buffer + SECTORS, read);
        Answered {
            number: request.number,
            status,
            bytes: room.copy(bytes),
        }
    }

    /// The answers of a batch.
    fn batch_answers(&self, queue: &Queue, memory: &WatchedShared, room: &mut Room) -> Vec<Answered>
        requires sound { DriverSideSound memory.now self.now }
        requires fits { BatchFits self.now.outstanding (state_of queue.now).batch }
        requires room { HasTurnRoom (length (state_of queue.now).batch) room.old }
        ensures answers { result.items ≡ answers_for self.now.index self.now.outstanding (bytes_in memory.now) (state_of queue.now).batch }
        ensures room { SpendsAnswers (length (state_of queue.now).batch) room.old room.new }
    {
        let mut answers = room.answers();
        for element in 0..queue.batch_len() {
            let Some(head) = queue.batch_head(element) else {
                unreachable!();
            };
            let answer = self.answer(head, memory, room);
            answers.push_reserved(answer);
        }
        answers
    }

    /// The answers of the batch that the next step of the queue shows; none if it shows none.
    fn answers(&self, backend: &Backend, memory: &WatchedShared, room: &mut Room) -> Vec<Answered>
        requires sound { DriverSideSound memory.now self.now }
        requires fits { IfSome (queue_of self.now backend.now) (ShownFits self.now.outstanding) }
        requires some { IfSome (queue_of self.now backend.now) ShowsSome }
        requires room { HasTurnRoom (queue_shows (queue_of self.now backend.now)) room.old }
        ensures answers { result.items ≡ queue_shown self.now.index self.now.outstanding (bytes_in memory.now) (queue_of self.now backend.now) }
        ensures room { SpendsUpTo (queue_shows (queue_of self.now backend.now)) room.old room.new }
    {
        let Some(queue) = backend.queue(self.index) else {
            return Vec::new(self.alloc);
        };
        if queue.shows_next() {
            self.batch_answers(queue, memory, room)
        } else {
            Vec::new(self.alloc)
        }
    }

    /// A turn of the device on the queue; idle where it isn't attached.
    fn turn(
        &self,
        backend: &mut Backend,
        choice: Choice,
        memory: &mut WatchedShared,
        disk: &mut MemDisk,
    ) -> Stepped
        requires backend { IsBackend self.now.header.queues (sizes_in memory.old) (capacity_of disk.old) backend.old }
        requires sound { PartsSound self.now.index (parts_in memory.old self.now backend.old disk.old) }
        requires stands { (m : Moment) × IsReached self.now.index self.now.header m × PartsAt self.now.index (parts_in memory.old self.now backend.old disk.old) m }
        ensures backend { IsBackend self.now.header.queues (sizes_in memory.new) (capacity_of disk.new) backend.new }
        ensures sound { PartsSound self.now.index (parts_in memory.new self.now backend.new disk.new) }
        ensures sizes { (s : ℕ) → sizes_in memory.new s ≡ sizes_in memory.old s }
        ensures turns { (m : Moment) → IsReached self.now.index self.now.header m → PartsAt self.now.index (parts_in memory.old self.now backend.old disk.old) m → TurnGoes self.now.index (turn_here self.now.index self.now.header choice m) (parts_in memory.old self.now backend.old disk.old) (parts_in memory.new self.now backend.new disk.new) m result }
    {
        memory.restart();
        turn_queue(backend, self.index, choice, memory, disk)
    }

    /// The number of the request under a head.
    fn number(&self, head: u16) -> u64
        requires { head < size_in self.now.outstanding }
        ensures { result ≡ number_at self.now.outstanding head }
    {
        self.outstanding.at(head).number
    }

    /// The numbers of the requests that the queue works on, in order.
    fn numbers(&self, backend: &Backend, room: &mut Room) -> NumberList
        requires places { (i head : ℕ) → slice_get (queue_heads (queue_of self.now backend.now)) i ≡ Some head → head < size_in self.now.outstanding }
        requires room { length (queue_heads (queue_of self.now backend.now)) ≤ room.old.numbers }
        ensures numbers { result ≡ queue_numbers self.now.outstanding (queue_of self.now backend.now) }
        ensures room { room.new ≡ record room.old { numbers = 0 } }
    {
        let mut numbers = room.numbers();
        let Some(queue) = backend.queue(self.index) else {
            return NumberList::new(numbers);
        };
        while let Some(head) = queue.open_head(numbers.len()) {
            numbers.push_reserved(self.number(head));
        }
        NumberList::new(numbers)
    }

    /// Notes the items of a turn of the queue that was made. The answers are those of a batch that it
    /// showed.
    fn note_turn(
        &self,
        stepped: Stepped,
        answers: Vec<Answered>,
        backend: &Backend,
        memory: &WatchedShared,
        disk: &MemDisk,
        room: &mut Room,
    )
        requires made { IsMade stepped }
        requires stores { StoreFits stepped (stores_in memory.now) }
        requires sector { SectorFits (capacity_of disk.now) stepped }
        requires head { HeadFits (size_in self.now.outstanding) stepped }
        requires items { 2 ≤ room.old.item_room }
        requires lists { 1 ≤ room.old.lists }
        requires starts { StartFits (size_in self.now.outstanding) (queue_of self.now backend.now) room.old.numbers stepped }
        ensures items { room.new.items ≡ room.old.items ++ noted self.now.index self.now.outstanding (values_of disk.now) (stores_in memory.now) answers.items (queue_numbers self.now.outstanding (queue_of self.now backend.now)) stepped }
        ensures spent { SpendsTurn room.old room.new }
        ensures numbers { KeepsNumbers room.old.numbers room.new.numbers stepped }
    {
        let index = self.index;
        let entry = match stepped {
            Stepped::Stored(tag) => return note_store(memory, tag, room),
            Stepped::Completed(_) => return note_store(memory, Tag::T5, room),
            Stepped::Published => {
                note_store(memory, Tag::SP5, room);
                Entry::Publish(index, AnswerList::new(answers))
            }
            Stepped::Belled => return room.note(Item::Bell(index)),
            Stepped::Started => Entry::Start(index, self.numbers(backend, room)),
            Stepped::Accepted(head) => {
                note_store(memory, Tag::SF2, room);
                Entry::Accept(index, self.number(head))
            }
            Stepped::Looked(head, sector) => {
                Entry::Look(index, self.number(head), sector, *disk.sector(sector))
            }
            Stepped::Acted(head, sector) => {
                Entry::Act(index, self.number(head), sector, *disk.sector(sector))
            }
            Stepped::Synced(head) => Entry::Sync(index, self.number(head)),
            Stepped::Idle
            | Stepped::Faulted(_)
            | Stepped::SharedFault
            | Stepped::BellFault
            | Stepped::Broken(_)
            | Stepped::Damaged(_) => unreachable!(),
        };
        room.note(Item::Made(entry));
    }

    /// A turn with its items.
    fn play(
        &self,
        backend: &mut Backend,
        choice: Choice,
        memory: &mut WatchedShared,
        disk: &mut MemDisk,
        room: &mut Room,
    ) -> Stepped
        requires backend { IsBackend self.now.header.queues (sizes_in memory.old) (capacity_of disk.old) backend.old }
        requires sound { PartsSound self.now.index (parts_in memory.old self.now backend.old disk.old) }
        requires stands { (m : Moment) × IsReached self.now.index self.now.header m × PartsAt self.now.index (parts_in memory.old self.now backend.old disk.old) m }
        requires room { HasTurnRoom (queue_shows (queue_of self.now backend.old)) room.old }
        requires numbers { HasStartRoom (queue_started (queue_of self.now backend.old)) self.now.outstanding room.old }
        ensures backend { IsBackend self.now.header.queues (sizes_in memory.new) (capacity_of disk.new) backend.new }
        ensures sound { PartsSound self.now.index (parts_in memory.new self.now backend.new disk.new) }
        ensures sizes { (s : ℕ) → sizes_in memory.new s ≡ sizes_in memory.old s }
        ensures goes { (m : Moment) → IsReached self.now.index self.now.header m → PartsAt self.now.index (parts_in memory.old self.now backend.old disk.old) m → StepGoes self.now.index (not (is_idle result)) (turn_here self.now.index self.now.header choice m) (parts_in memory.old self.now backend.old disk.old) (parts_in memory.new self.now backend.new disk.new) m room.old.items room.new.items 0 (accepts result) }
        ensures spent { SpendsStep (queue_shows (queue_of self.now backend.old)) room.old room.new }
        ensures numbers { HasStartRoom (queue_started (queue_of self.now backend.new)) self.now.outstanding room.new }
        ensures idle { is_idle result ≡ true → room.new.item_room ≡ room.old.item_room }
    {
        let answers = self.answers(backend, memory, room);
        let stepped = self.turn(backend, choice, memory, disk);
        if stepped.is_idle() {
            return stepped;
        }
        self.note_turn(stepped, answers, backend, memory, disk, room);
        stepped
    }

    /// The turn that comes next with its items; false where none was made.
    fn play_next(
        &self,
        backend: &mut Backend,
        sequence: Sequence,
        accepted: &mut u16,
        memory: &mut WatchedShared,
        disk: &mut MemDisk,
        room: &mut Room,
    ) -> bool
        requires backend { IsBackend self.now.header.queues (sizes_in memory.old) (capacity_of disk.old) backend.old }
        requires sound { PartsSound self.now.index (parts_in memory.old self.now backend.old disk.old) }
        requires stands { (m : Moment) × IsReached self.now.index self.now.header m × PartsAt self.now.index (parts_in memory.old self.now backend.old disk.old) m }
        requires room { HasTurnRoom (queue_shows (queue_of self.now backend.old)) room.old }
        requires numbers { HasStartRoom (queue_started (queue_of self.now backend.old)) self.now.outstanding room.old }
        ensures backend { IsBackend self.now.header.queues (sizes_in memory.new) (capacity_of disk.new) backend.new }
        ensures sound { PartsSound self.now.index (parts_in memory.new self.now backend.new disk.new) }
        ensures sizes { (s : ℕ) → sizes_in memory.new s ≡ sizes_in memory.old s }
        ensures goes { (m : Moment) → IsReached self.now.index self.now.header m → PartsAt self.now.index (parts_in memory.old self.now backend.old disk.old) m → accepted.old < 65535 → StepGoes self.now.index result (next_turn self.now.index self.now.header sequence accepted.old m) (parts_in memory.old self.now backend.old disk.old) (parts_in memory.new self.now backend.new disk.new) m room.old.items room.new.items accepted.old accepted.new }
        ensures spent { SpendsStep (queue_shows (queue_of self.now backend.old)) room.old room.new }
        ensures numbers { HasStartRoom (queue_started (queue_of self.now backend.new)) self.now.outstanding room.new }
        ensures idle { result ≡ false → room.new.item_room ≡ room.old.item_room }
    {
        let stepped = self.play(backend, sequence.next(*accepted), memory, disk, room);
        if matches!(stepped, Stepped::Accepted(_)) {
            *accepted = accepted.saturating_add(1);
        }
        !stepped.is_idle()
    }

    /// The turns of a sequence with their items; false where none was made.
    pub fn play_turns(
        &self,
        backend: &mut Backend,
        sequence: Sequence,
        memory: &mut WatchedShared,
        disk: &mut MemDisk,
        room: &mut Room,
    ) -> bool
        requires backend { IsBackend self.now.header.queues (sizes_in memory.old) (capacity_of disk.old) backend.old }
        requires sound { PartsSound self.now.index (parts_in memory.old self.now backend.old disk.old) }
        requires some { 1 ≤ most_turns sequence }
        requires room { HasRoom (min (most_turns sequence) (27 * (offered_in self.now.outstanding - collected_in self.now.outstanding) + turns_besides self.now.header.size)) (offered_in self.now.outstanding - collected_in self.now.outstanding) room.old }
        requires numbers { HasStartRoom (queue_started (queue_of self.now backend.old)) self.now.outstanding room.old }
        requires stands { PartsStand self.now.index (parts_in memory.old self.now backend.old disk.old) }
        ensures backend { IsBackend self.now.header.queues (sizes_in memory.new) (capacity_of disk.new) backend.new }
        ensures sound { PartsSound self.now.index (parts_in memory.new self.now backend.new disk.new) }
        ensures sizes { (s : ℕ) → sizes_in memory.new s ≡ sizes_in memory.old s }
        ensures turns { (es : List Event) (rs : List Record) (m : Moment) → Stands self.now.header es rs m → PartsAt self.now.index (parts_in memory.old self.now backend.old disk.old) m → TurnsGo self.now.index self.now.header result sequence (most_turns sequence) (PartsAt self.now.index (parts_in memory.new self.now backend.new disk.new)) m room.old.items room.new.items }
        ensures idle { result ≡ false → room.new.item_room ≡ room.old.item_room }
    {
        let mut accepted: u16 = 0;
        let most = sequence.most_turns();
        for done in 0..most {
            if !self.play_next(backend, sequence, &mut accepted, memory, disk, room) {
                return done > 0;
            }
        }
        true
    }
}
