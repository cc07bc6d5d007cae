//! A life of the device: the queues that it has attached, and their steps.
ghost use Rattle.std.specs.Prelude.{◌≡◌, ◌<◌, ◌≤◌, ◌++◌, ◌∷◌, [], ℕ, IfSome, length, replicate, Some, None, IfOk, OnOk, OnErr, option_map};
ghost use Rattle.vub_queue.specs.QueueState.{state_of, QueueLies};
ghost use Rattle.vub_backend.specs.Backends.{queues_of, attached_in, is_attached, Attaches, EachLies, StepsIn, Steps, KeepsOthers, accepted_after, Drains};
ghost use Rattle.vub_queue.specs.Turned.{outside};

use std::alloc::Global;
use vub_base::{Bell, Memory};
use vub_disk::Disk;
use vub_queue::{Choice, Queue, Stepped};
use vub_setup::QueueSetup;
use vub_shared::Shared;

/// The most queues of a device.
pub const MOST_QUEUES: u16 = 16;

/// A life of the device. It ends with `kill`, and leaves what it stored.
#[derive(Drop)]
pub struct Backend {
    alloc: Global,
    // By their numbers; none where a queue isn't attached.
    queues: Vec<Option<Queue>>,
}

fn add_none(queues: &mut Vec<Option<Queue>>) -> Result<(), Memory>
    ensures { OnOk result (queues.new.items ≡ queues.old.items ++ None ∷ []) }
{
    queues.push(None).map_err(|_| Memory)
}

/// That no queue of so many is attached.
fn no_queues(alloc: Global, count: u16) -> Result<Vec<Option<Queue>>, Memory>
    ensures { IfOk result (λ queues. queues.items ≡ replicate count None) }
{
    let mut queues = Vec::with_capacity(alloc, usize::from(count)).map_err(|_| Memory)?;
    for _place in 0..count {
        add_none(&mut queues)?;
    }
    Ok(queues)
}

/// A step of a queue, if there is one.
fn step_of<M: Shared, D: Disk, B: Bell>(
    queue: &mut Option<Queue>,
    choice: Choice,
    mem: &mut M,
    disk: &mut D,
    bell: &mut B,
) -> Stepped
    requires { IfSome queue.old (λ q. QueueLies (M.sizes mem.old) (D.capacity disk.old) (state_of q)) }
    ensures { StepsIn (option_map state_of queue.old) choice (outside M.Shared D.Disk B.Bell mem.old disk.old bell.old) (outside M.Shared D.Disk B.Bell mem.new disk.new bell.new) result (option_map state_of queue.new) }
{
    match queue {
        Some(queue) => queue.turn(choice, mem, disk, bell),
        None => Stepped::Idle,
    }
}

/// How many requests a drain has accepted after this step.
fn accepted_after(stepped: Stepped, accepted: u16) -> u16
    ensures { result ≡ accepted_after stepped accepted }
{
    match stepped {
        Stepped::Accepted(_) => accepted.saturating_add(1),
        _ => accepted,
    }
}

impl Backend {
    ghost use Rattle.vub_queue.specs.QueueState.{new_recovery};
    ghost use Rattle.vub_rec_split.specs.Starts.{StartLies};
    ghost use Rattle.vub_setup.specs.Setups.{IsSplit, SplitSetup, places_of, split_of};

    /// A life that has attached no queue of so many.
    pub fn new(alloc: Global, queues: u16) -> Result<Backend, Memory>
        requires { queues ≤ MOST_QUEUES }
        ensures { IfOk result (λ b. queues_of b ≡ replicate queues None) }
    {
        Ok(Backend {
            alloc,
            queues: no_queues(alloc, queues)?,
        })
    }

    /// Whether the queue is attached.
    pub fn attached(&self, queue: u16) -> bool
        ensures { result ≡ is_attached (queues_of self.now) queue }
    {
        self.queue(queue).is_some()
    }

    /// The queue, if it is attached.
    pub fn queue(&self, queue: u16) -> Option<&Queue>
        ensures { option_map (λ q. state_of q.now) result ≡ attached_in (queues_of self.now) queue }
    {
        match self.queues.get(usize::from(queue)) {
            Some(Some(queue)) => Some(queue),
            _ => None,
        }
    }

    /// Attaches the queue of a set-up with split rings, which isn't started yet. All memory that it needs is reserved here.
    pub fn attach(&mut self, setup: &QueueSetup) -> Result<(), Memory>
        requires index { setup.now.index < length (queues_of self.old) }
        requires split { IsSplit setup.now.rings }
        requires size { places_of setup.now.rings ≤ 1024 }
        ensures attached { OnOk result (Attaches setup.now (queues_of self.old) (queues_of self.new)) }
        ensures kept { OnErr result (queues_of self.new ≡ queues_of self.old) }
        ensures lies { OnOk result ((sizes : ℕ → ℕ) (capacity : ℕ) (split : SplitSetup) → split_of setup.now ≡ Some split → StartLies sizes (new_recovery split) → EachLies sizes capacity (queues_of self.old) → EachLies sizes capacity (queues_of self.new)) }
    {
        let queue = Queue::new(self.alloc, setup)?;
        self.queues[usize::from(setup.index)] = Some(queue);
        Ok(())
    }

    /// A step of the queue: the turn that is chosen. It is `Idle` where that isn't ready, or the queue isn't
    /// attached or has stopped. Takes no memory.
    pub fn step<M: Shared, D: Disk, B: Bell>(
        &mut self,
        queue: u16,
        choice: Choice,
        mem: &mut M,
        disk: &mut D,
        bell: &mut B,
    ) -> Stepped
        requires { EachLies (M.sizes mem.old) (D.capacity disk.old) (queues_of self.old) }
        ensures steps { Steps queue choice (outside M.Shared D.Disk B.Bell mem.old disk.old bell.old) (outside M.Shared D.Disk B.Bell mem.new disk.new bell.new) result (queues_of self.old) (queues_of self.new) }
        ensures lies { EachLies (M.sizes mem.new) (D.capacity disk.new) (queues_of self.new) }
        ensures others { KeepsOthers queue (queues_of self.old) (queues_of self.new) }
    {
        match self.queues.get_mut(usize::from(queue)) {
            Some(queue) => step_of(queue, choice, mem, disk, bell),
            None => Stepped::Idle,
        }
    }

    /// Repeats steps of the queue until one is `Idle`, and counts those before it, up to 2^64 - 1. Once it has
    /// accepted as many requests as the queue has places it fetches no more. It is 0 where the queue isn't
    /// attached or has stopped. Takes no memory.
    pub fn drain<M: Shared, D: Disk, B: Bell>(
        &mut self,
        queue: u16,
        mem: &mut M,
        disk: &mut D,
        bell: &mut B,
    ) -> u64
        requires { EachLies (M.sizes mem.old) (D.capacity disk.old) (queues_of self.old) }
        ensures drains { Drains queue (outside M.Shared D.Disk B.Bell mem.old disk.old bell.old) (outside M.Shared D.Disk B.Bell mem.new disk.new bell.new) result (queues_of self.old) (queues_of self.new) }
        ensures lies { EachLies (M.sizes mem.new) (D.capacity disk.new) (queues_of self.new) }
        ensures others { KeepsOthers queue (queues_of self.old) (queues_of self.new) }
    {
        let mut accepted: u16 = 0;
        for done in 0..u64::MAX {
            let stepped = self.step(queue, Choice::Drain(accepted), mem, disk, bell);
            if stepped.is_idle() {
                return done;
            }
            accepted = accepted_after(stepped, accepted);
        }
        u64::MAX
    }

    /// Ends the life. Memory, region and disk stay.
    pub fn kill(self) {}
}
