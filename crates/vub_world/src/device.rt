//! The device's turns, and which of them comes next.
ghost use Rattle.std.specs.Prelude.{◌≡◌, ◌≤◌, ◌+◌, ℕ, [], length, Some, None};
ghost use Rattle.vub_base.specs.declared.header.Header1.{Header1};
ghost use Rattle.vub_driver.specs.Layout.{area_place};
ghost use Rattle.vub_memdisk.specs.MemDisks.{capacity_of, values_of};
ghost use Rattle.vub_shared.specs.Watched.{bytes_in, stores_in, sizes_in, IsUnfailed};
ghost use Rattle.vub_world.specs.declared.outstanding.OutstandingRequests.{OutstandingRequests};
ghost use Rattle.vub_setup.specs.Setups.{SplitSetup};
ghost use Rattle.vub_world.specs.MachineAt.{IsReached, OutstandingAt};
ghost use Rattle.vub_world.specs.MachineDevice.{DeviceAt, DeviceTurns, device, turn_here};
ghost use Rattle.vub_run.specs.Moments.{Moment};
ghost use Rattle.vub_queue_in_run.specs.QueueAt.{LiesAs};
ghost use Rattle.vub_queue.specs.QueueState.{QueueState};
ghost use Rattle.vub_queue.specs.declared.queue.Stepped.TheVariants.{Idle};
ghost use Rattle.vub_backend.specs.Backends.{queues_of, EachLies};
ghost use Rattle.vub_world.specs.Lives.{queue_in};

use crate::bell::WatchedBell;
use vub_backend::Backend;
use vub_memdisk::MemDisk;
use vub_queue::{Choice, Stepped, Turn};
use vub_shared::WatchedShared;

/// Turns one after another, as long as one is ready.
#[derive(Clone, Copy, Debug, PartialEq, Eq)]
pub enum Sequence {
    /// This one alone.
    Once(Turn),
    /// At most so many, each the first that is ready.
    UpTo(u16),
    /// Those of a drain, which accepts no more requests than the queue has places.
    Drain,
}

impl Sequence {
    ghost use Rattle.vub_world.specs.Sequences.{choice_after, most_turns};

    /// The most turns that it has; for a drain a bound that no run reaches.
    pub fn most_turns(self) -> u64
        ensures { result ≡ most_turns self }
    {
        match self {
            Sequence::Once(_) => 1,
            Sequence::UpTo(count) => u64::from(count),
            Sequence::Drain => u64::MAX,
        }
    }

    /// The turn that comes next, after so many requests were accepted.
    pub fn next(self, accepted: u16) -> Choice
        ensures { result ≡ choice_after self accepted }
    {
        match self {
            Sequence::Once(turn) => Choice::Only(turn),
            Sequence::UpTo(_) => Choice::Any,
            Sequence::Drain => Choice::Drain(accepted),
        }
    }
}

/// A turn of a queue of the backend, with a bell of its own. Where memory keeps no store yet and hasn't
/// failed, nothing fails in it.
pub fn turn_queue(
    backend: &mut Backend,
    queue: u16,
    choice: Choice,
    memory: &mut WatchedShared,
    disk: &mut MemDisk,
) -> Stepped
    requires lies { EachLies (sizes_in memory.old) (capacity_of disk.old) (queues_of backend.old) }
    requires fresh { stores_in memory.old ≡ [] }
    requires unfailed { IsUnfailed memory.old }
    ensures lies { EachLies (sizes_in memory.new) (capacity_of disk.new) (queues_of backend.new) }
    ensures many { length (queues_of backend.new) ≡ length (queues_of backend.old) }
    ensures rings { (s t : QueueState) → queue_in queue backend.old ≡ Some s → queue_in queue backend.new ≡ Some t → t.ring ≡ s.ring }
    ensures sizes { (s : ℕ) → sizes_in memory.new s ≡ sizes_in memory.old s }
    ensures unfailed { IsUnfailed memory.new }
    ensures capacity { capacity_of disk.new ≡ capacity_of disk.old }
    ensures turns { (h : Header1) (setup : SplitSetup) (m : Moment) (outstanding : OutstandingRequests) (s : QueueState) → queue_in queue backend.old ≡ Some s → IsReached queue h m → capacity_of disk.old ≡ h.capacity → LiesAs queue setup h.size → area_place queue + 1048576 ≤ sizes_in memory.old 0
        → DeviceAt queue h setup m (device s memory.old disk.old) → OutstandingAt queue h.size m.scene.past (m.scene.heads queue) outstanding
        → (t : QueueState) × (queue_in queue backend.new ≡ Some t) × DeviceTurns queue h setup m (turn_here queue h choice m) outstanding (device s memory.old disk.old) (device t memory.new disk.new) result }
    ensures rests { queue_in queue backend.old ≡ None → (result ≡ Idle) × (queue_in queue backend.new ≡ None) × (bytes_in memory.new ≡ bytes_in memory.old) × (values_of disk.new ≡ values_of disk.old) }
{
    let mut bell = WatchedBell::new();
    backend.step(queue, choice, memory, disk, &mut bell)
}
