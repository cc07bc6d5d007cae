//! The device's side of one split queue: each turn makes one step (VIRTIO 1.2, 2.7.7 and 2.7.8).
ghost use Rattle.std.specs.Prelude.{◌≡◌, ◌<◌, ◌≤◌, ◌+◌, ◌++◌, ℕ, true, false, Some, length, map, take, drop, set, slice_get, vec_len, vec_capacity, IfOk};
ghost use Rattle.vub_split.specs.Split.{RingLies};
ghost use Rattle.vub_queue.specs.QueueParts.{element, is_taken, taken_count, takes_none_before, with_heads, without_heads, elements_fit, phase_fits, head_fits, shown_of};
ghost use Rattle.vub_inflight.specs.Entries.{AreEntries, heads_of, next_counter};
ghost use Rattle.vub_task.specs.TaskState.{fresh_task};
ghost use Rattle.vub_steps.specs.Readiness.{is_publication, last_counter};

use std::alloc::Global;
use vub_base::standard::SECTOR_SIZE;
use vub_base::{Bell, Failed, Memory, Pending, PendingList, RegionFault, RingFault, Tag};
use vub_disk::Disk;
use vub_infl_split::{SplitRegion, SplitStore};
use vub_rec_split::{Recovered, SplitRecovery};
use vub_setup::{QueueSetup, Rings};
use vub_shared::Shared;
use vub_split::SplitRing;
use vub_steps::{Choice, Phase, Standing, Step, Turn, after_running, is_ready, next_running};
use vub_task::{Task, TaskStep};

/// Why a queue stopped.
#[derive(Clone, Copy, Debug, PartialEq, Eq)]
pub enum Stop {
    Broken(RingFault),
    /// The in-flight region can't be read.
    Damaged(RegionFault),
    Shared,
    Bell,
}

/// Why no head is found in the avail ring.
#[derive(Clone, Copy, Debug, PartialEq, Eq)]
enum NoHead {
    Broken(RingFault),
    Shared,
}

/// What a turn was. The first number is a head; a second one is that of a sector.
#[derive(Clone, Copy, Debug, PartialEq, Eq)]
pub enum Stepped {
    /// Nothing was ready.
    Idle,
    /// A store, by its tag.
    Stored(Tag),
    Accepted(u16),
    Looked(u16, u64),
    Acted(u16, u64),
    Synced(u16),
    Faulted(u16),
    /// The status of a request was stored.
    Completed(u16),
    /// The store of used.idx, which shows the batch.
    Published,
    /// The bell of a start or of a publication was rung.
    Belled,
    Started,
    /// The shared memory failed.
    SharedFault,
    /// The bell failed.
    BellFault,
    Broken(RingFault),
    /// A start found that the in-flight region can't be read.
    Damaged(RegionFault),
}

/// A request whose status stands.
#[derive(Clone, Copy, Debug, PartialEq, Eq)]
struct Completed {
    head: u16,
    /// The used length.
    len: u32,
}

/// The device's side of one queue.
#[derive(Drop)]
pub struct Queue {
    index: u16,
    ring: SplitRing,
    bell: bool,
    // The bell of the start was rung.
    rung: bool,
    region: SplitRegion,
    // The start over the in-flight region, and the requests that it finds open.
    recovery: SplitRecovery,
    pending: PendingList,
    started: bool,
    stopped: Option<Stop>,
    // The index of the avail entry that is fetched next, from the start on.
    next_avail: u16,
    // The counter of the request that is accepted next. That after the greatest of a region is 2^64.
    counter: u128,
    // The head of a fetch, from its first step to its second.
    fetching: Option<u16>,
    // In the order in which they were accepted.
    unfinished: Vec<Task>,
    // In the order in which they were completed.
    completed: Vec<Completed>,
    // So many of the first completed ones are being published.
    batch: u16,
    // At rest, in a fetch, or in a publication.
    phase: Phase,
    // The sector on its way for each head.
    sectors: Vec<[u8; SECTOR_SIZE]>,
    // Whether each head is accepted and not shown in the used ring.
    taken: Vec<bool>,
    ghost few: { ring.size ≤ 1024 },
    ghost same_region: { recovery.region ≡ region },
    ghost listed: { recovery.region.size ≤ pending.room },
    ghost heads: { length taken.items ≡ ring.size },
    ghost buffers: { length sectors.items ≡ ring.size },
    ghost room: { ring.size ≤ vec_capacity unfinished },
    ghost space: { ring.size ≤ vec_capacity completed },
    ghost all: { vec_len unfinished + vec_len completed ≤ ring.size },
    ghost counted: { vec_len unfinished + vec_len completed ≤ taken_count taken.items + shown_of phase batch },
    ghost in_table: { elements_fit ring.size completed.items ≡ true },
    ghost batched: { batch ≤ vec_len completed },
    ghost fits: { phase_fits phase batch bell started ≡ true },
    ghost unstarted: { takes_none_before started taken.items ≡ true },
    ghost kept: { head_fits phase fetching ring.size taken.items ≡ true },
}

/// Whether a head is taken.
fn is_taken(taken: &[bool], head: u16) -> bool
    requires { head < length taken.now }
    ensures { result ≡ is_taken taken.now head }
{
    taken[usize::from(head)]
}

/// Takes or frees a head.
fn set_taken(taken: &mut [bool], head: u16, to: bool)
    requires { head < length taken.old }
    ensures { taken.new ≡ set taken.old head to }
{
    taken[usize::from(head)] = to;
}

/// Whether it is a publication.
fn is_publication(phase: Phase) -> bool
    ensures { result ≡ is_publication phase }
{
    matches!(phase, Phase::Publish(_))
}

/// The heads of these are free.
fn release(taken: &mut [bool], batch: &[Completed])
    requires { elements_fit (length taken.old) batch.now ≡ true }
    ensures { taken.new ≡ without_heads (map element batch.now) taken.old }
{
    for completed in batch {
        set_taken(taken, completed.head, false);
    }
}

/// Begins the tasks of these anew, in their order, and takes their heads.
fn begin_anew(unfinished: &mut Vec<Task>, taken: &mut [bool], pending: &[Pending])
    requires room { vec_len unfinished.old + length pending.now ≤ vec_capacity unfinished.old }
    requires entries { AreEntries (length taken.old) pending.now }
    ensures tasks { unfinished.new.items ≡ unfinished.old.items ++ map fresh_task (heads_of pending.now) }
    ensures capacity { vec_capacity unfinished.new ≡ vec_capacity unfinished.old }
    ensures heads { taken.new ≡ with_heads (heads_of pending.now) taken.old }
{
    for request in pending {
        unfinished.push_reserved(Task::new(request.head));
        set_taken(taken, request.head, true);
    }
}

/// Drops the first so many.
fn drop_front(completed: &mut Vec<Completed>, count: usize)
    requires { count ≤ vec_len completed.old }
    ensures items { completed.new.items ≡ drop count completed.old.items }
    ensures capacity { vec_capacity completed.new ≡ vec_capacity completed.old }
{
    let _ = completed.drain(..count);
}

/// One more than the greatest counter of these, or 0.
fn next_counter(pending: &[Pending]) -> u128
    ensures { result ≡ next_counter pending.now }
{
    let mut next = 0;
    for request in pending {
        let after = u128::from(request.counter) + 1;
        if next < after {
            next = after;
        }
    }
    next
}

impl Stepped {
    ghost use Rattle.vub_queue.specs.QueueState.{is_idle};

    /// Whether nothing was ready.
    pub fn is_idle(&self) -> bool
        ensures { result ≡ is_idle self.now }
    {
        matches!(self, Stepped::Idle)
    }
}

impl Queue {
    ghost use Rattle.vub_base.specs.Causes.{HasCause};
    ghost use Rattle.vub_base.specs.Told.{WhereTold};
    ghost use Rattle.vub_shared.specs.Frames.{OnlyLoads, KeepsSpaces};
    ghost use Rattle.vub_task.specs.declared.task.Task.{Task};
    ghost use Rattle.vub_task.specs.TaskState as TaskState;
    ghost use Rattle.vub_task.specs.TaskState.{head_in, Making, IfMade, IfFaulted, GainsOne, memory_outcome};
    ghost use Rattle.vub_steps.specs.Readiness.{is_ready, chosen};
    ghost use Rattle.vub_steps.specs.declared.readiness.Turn.{Turn};
    ghost use Rattle.vub_steps.specs.declared.readiness.Turn.TheVariants.{Fetch, Work};
    ghost use Rattle.std.specs.Prelude.{not, ◌==◌, ◌⊎◌, ◌*◌, ◌↔◌, nat_lt, IsTrue, option_map, is_some, Option, Ok, remove, ◌∷◌, []};
    ghost use Rattle.vub_steps.specs.Steps.{after_of, done_of};
    ghost use Rattle.vub_shared.specs.Bytes.{Bytes};
    ghost use Rattle.vub_base.specs.declared.store.Tag.TheVariants.{SF1};
    ghost use Rattle.vub_infl_split.specs.Region.{RegionLies};
    ghost use Rattle.vub_infl_split.specs.Stores.{NamesEntry};
    ghost use Rattle.vub_split.specs.Split.{head_word};
    ghost use Rattle.vub_steps.specs.declared.steps.Step.TheVariants as step;
    ghost use Rattle.vub_queue.specs.declared.queue.Stepped.TheVariants as stepped;
    ghost use Rattle.vub_steps.specs.declared.readiness.Turn.TheVariants.{Start};
    ghost use Rattle.vub_rec_split.specs.Starts.{StartLies};
    ghost use Rattle.vub_setup.specs.Setups.{IsSplit, SplitSetup, places_of, split_of};
    ghost use Rattle.vub_queue.specs.declared.queue.Stepped.TheVariants.{Idle};
    ghost use Rattle.vub_steps.specs.declared.readiness.Choice.TheVariants.{Only};
    ghost use Rattle.vub_steps.specs.declared.steps.Phase.TheVariants.{Rest};
    ghost use Rattle.vub_steps.specs.declared.steps.Step.TheVariants.{Count, Accept, Id, Len, Link, Head, Index, Clear, Note};
    ghost use Rattle.vub_queue.specs.Queue.{ring_in};
    ghost use Rattle.vub_queue.specs.Moves.{MakesMove};
    ghost use Rattle.vub_queue.specs.Turned.{Turned, outside};
    ghost use Rattle.vub_queue.specs.QueueState.{QueueLies, KeepsLying, Owes, OwesAt, state_of, IsNewOf, new_recovery, resumed, rings_next, Ends, is_starting, is_fetching, is_publishing, StoresStart, TrailsStart, RingsAt, bell_outcome, said, concluded, StepsAt, IsDue, IsDueAt, IfStepped, StepsOut, WorksOut, StepsTask, WorksTask, Rests, disk_outcome, standing_at, is_ready_at, waiting, IsFree, Finds, Fetches, fetch_row, fetch_under_way, begun, under_way, steps_in, step_in, next_row, moved, with_phase, Moves, outcome, found_outcome, MakesRow, publishes, publish_row, Publishes, is_idle, is_fault, Unless, Works, Does, StableAfter, halted};

    /// The queue of a set-up with split rings, which isn't started. All memory that it needs is reserved here.
    pub fn new(alloc: Global, setup: &QueueSetup) -> Result<Queue, Memory>
        requires split { IsSplit setup.now.rings }
        requires size { places_of setup.now.rings ≤ 1024 }
        ensures state { IfOk result (λ q. IsNewOf setup.now (state_of q)) }
        ensures lies { IfOk result (λ q. (sizes : ℕ → ℕ) → (capacity : ℕ) → (split : SplitSetup) → split_of setup.now ≡ Some split → StartLies sizes (new_recovery split) → QueueLies sizes capacity (state_of q)) }
    {
        let Rings::Split(ring, region) = setup.rings else {
            unreachable!();
        };
        let size = usize::from(ring.size);
        Ok(Queue {
            index: setup.index,
            ring,
            bell: setup.bell,
            rung: false,
            region,
            recovery: SplitRecovery::new(ring, region, setup.base),
            pending: PendingList::new(alloc, usize::from(region.size))?,
            started: false,
            stopped: None,
            next_avail: 0,
            counter: 0,
            fetching: None,
            unfinished: Vec::with_capacity(alloc, size).map_err(|_| Memory)?,
            completed: Vec::with_capacity(alloc, size).map_err(|_| Memory)?,
            batch: 0,
            phase: Phase::Rest,
            sectors: vec![in alloc; [0; SECTOR_SIZE]; size].map_err(|_| Memory)?,
            taken: vec![in alloc; false; size].map_err(|_| Memory)?,
        })
    }

    /// Whether a batch is being published.
    pub fn is_publishing(&self) -> bool
        ensures { result ≡ is_publication self.now.phase }
    {
        is_publication(self.phase)
    }

    /// The next step of the fetch or the publication under way.
    fn next_step(&self) -> Option<Step>
        ensures { result ≡ step_in (state_of self.now) }
    {
        next_running(self.batch, self.bell, self.phase)
    }

    /// Whether the next store shows the batch.
    pub fn shows_next(&self) -> bool
        ensures { IsTrue result ↔ (step_in (state_of self.now) ≡ Some Index) }
    {
        self.next_step() == Some(Step::Index)
    }

    /// How many requests the batch under way has.
    pub fn batch_len(&self) -> usize
        ensures { result ≡ length (state_of self.now).batch }
    {
        usize::from(self.batch)
    }

    /// The heads of the batch under way, in the order of publication.
    pub fn batch_head(&self, place: usize) -> Option<u16>
        ensures { result ≡ option_map (λ x. x.0) (slice_get (state_of self.now).batch place) }
    {
        match self.batch().get(place) {
            Some(completed) => Some(completed.head),
            None => None,
        }
    }

    /// The heads of the requests that are open and not completed, in order.
    pub fn open_head(&self, place: usize) -> Option<u16>
        ensures { result ≡ slice_get (map head_in (state_of self.now).unfinished) place }
    {
        match self.unfinished.get(place) {
            Some(task) => Some(task.head()),
            None => None,
        }
    }

    /// The requests that are being published.
    fn batch(&self) -> &[Completed]
        ensures { result.now ≡ take self.now.batch self.now.completed.items }
    {
        &self.completed[..usize::from(self.batch)]
    }

    /// An element of the batch under way.
    fn batch_element(&self, place: u32) -> Completed
        requires { place < self.now.batch }
        ensures { slice_get (state_of self.now).batch place ≡ Some (element result) }
    {
        self.batch()[place as usize]
    }

    /// Whether a counter is left for one more request.
    fn counts(&self) -> bool
        ensures { result ≡ nat_lt self.now.counter last_counter }
    {
        self.counter < u128::from(u64::MAX)
    }

    /// What its readiness depends on, where so many requests wait.
    fn standing(&self, waiting: u16) -> Standing
        ensures { result ≡ standing_at (state_of self.now) waiting }
    {
        Standing {
            started: self.started,
            phase: self.phase,
            waiting,
            counts: self.counts(),
            unfinished: self.unfinished.len() as u16,
            completed: (self.completed.len() - usize::from(self.batch)) as u16,
        }
    }

    /// Goes on with the open requests that the start found, where used.idx is this.
    fn resume(&mut self, used: u16)
        requires resting { self.old.started ≡ false }
        requires entries { AreEntries self.old.ring.size self.old.pending.items }
        ensures ring { ring_in self.new ≡ ring_in self.old }
        ensures stopped { self.new.stopped ≡ self.old.stopped }
        ensures state { state_of self.new ≡ resumed used self.old.pending.items (state_of self.old) }
        ensures lies { KeepsLying (state_of self.old) (state_of self.new) }
    {
        let pending = self.pending.items();
        begin_anew(&mut self.unfinished, &mut self.taken, pending);
        self.next_avail = used.wrapping_add(pending.len() as u16);
        self.counter = next_counter(pending);
        self.started = true;
    }

    /// Starts a queue that has nothing left to store or to ring.
    fn start_anew<M: Shared>(&mut self, mem: &mut M) -> Stepped
        requires ring { RingLies (M.sizes mem.old) (ring_in self.old) }
        requires resting { self.old.started ≡ false }
        requires silent { rings_next (state_of self.old) ≡ false }
        requires entries { AreEntries self.old.ring.size self.old.pending.items }
        ensures ring { ring_in self.new ≡ ring_in self.old }
        ensures stopped { self.new.stopped ≡ self.old.stopped }
        ensures ends { Ends (M.told mem.old) self.old.pending.items result (state_of self.old) (state_of self.new) }
        ensures lies { KeepsLying (state_of self.old) (state_of self.new) }
        ensures says { (result ≡ stepped.Started) ⊎ (result ≡ stepped.SharedFault) }
        ensures only_loads { OnlyLoads M.told M.trail M.names M.handed M.sizes mem.old mem.new }
        ensures cause { HasCause (M.faults mem.old) (M.faults mem.new) (outcome result) }
    {
        let Ok(used) = self.ring.used_idx(mem) else {
            return Stepped::SharedFault;
        };
        self.resume(used);
        Stepped::Started
    }

    /// Ends a start that has made its stores: rings its bell, and is started by the turn after it.
    fn end_start<M: Shared, B: Bell>(&mut self, mem: &mut M, bell: &mut B) -> Stepped
        requires ring { RingLies (M.sizes mem.old) (ring_in self.old) }
        requires resting { self.old.started ≡ false }
        requires entries { AreEntries self.old.ring.size self.old.pending.items }
        ensures ring { ring_in self.new ≡ ring_in self.old }
        ensures stopped { self.new.stopped ≡ self.old.stopped }
        ensures ends { Ends (M.told mem.old) self.old.pending.items result (state_of self.old) (state_of self.new) }
        ensures lies { KeepsLying (state_of self.old) (state_of self.new) }
        ensures only_loads { OnlyLoads M.told M.trail M.names M.handed M.sizes mem.old mem.new }
        ensures cause { HasCause (M.faults mem.old) (M.faults mem.new) (outcome result) }
        ensures rings { RingsAt (state_of self.old).index result (B.told bell.old) (B.told bell.new) }
        ensures bell_cause { HasCause (B.faults bell.old) (B.faults bell.new) (bell_outcome result) }
    {
        if !self.bell || self.rung {
            return self.start_anew(mem);
        }
        match bell.ring(self.index) {
            Ok(()) => {
                self.rung = true;
                Stepped::Belled
            }
            Err(_) => Stepped::BellFault,
        }
    }

    /// Makes the next step of the start of a queue that isn't started.
    fn start_step<M: Shared, B: Bell>(&mut self, mem: &mut M, bell: &mut B) -> Stepped
        requires lies { StartLies (M.sizes mem.old) (state_of self.old).recovery }
        requires same_ring { (state_of self.old).recovery.ring ≡ ring_in self.old }
        requires resting { self.old.started ≡ false }
        ensures ring { ring_in self.new ≡ ring_in self.old }
        ensures stopped { self.new.stopped ≡ self.old.stopped }
        ensures does { Does Start (M.told mem.old) result (state_of self.old) (state_of self.new) }
        ensures stores { StoresStart (M.told mem.old) (M.told mem.new) result (state_of self.old) }
        ensures trails { TrailsStart (M.told mem.old) (M.trail mem.old) (M.trail mem.new) result (state_of self.old) }
        ensures starting { is_starting result ≡ true }
        ensures lies { KeepsLying (state_of self.old) (state_of self.new) }
        ensures cause { HasCause (M.faults mem.old) (M.faults mem.new) (outcome result) }
        ensures rings { RingsAt (state_of self.old).index result (B.told bell.old) (B.told bell.new) }
        ensures bell_cause { HasCause (B.faults bell.old) (B.faults bell.new) (bell_outcome result) }
        ensures keeps_spaces { KeepsSpaces M.names M.handed M.sizes mem.old mem.new }
    {
        match self.recovery.step(mem, &mut self.pending) {
            Recovered::Stored(tag) => Stepped::Stored(tag),
            Recovered::Done => self.end_start(mem, bell),
            Recovered::Damaged(fault) => Stepped::Damaged(fault),
            Recovered::Failed => Stepped::SharedFault,
        }
    }

    fn start<M: Shared, B: Bell>(&mut self, mem: &mut M, bell: &mut B) -> Stepped
        requires lies { StartLies (M.sizes mem.old) (state_of self.old).recovery }
        requires same_ring { (state_of self.old).recovery.ring ≡ ring_in self.old }
        ensures ring { ring_in self.new ≡ ring_in self.old }
        ensures stopped { self.new.stopped ≡ self.old.stopped }
        ensures does { Does Start (M.told mem.old) result (state_of self.old) (state_of self.new) }
        ensures stores { StoresStart (M.told mem.old) (M.told mem.new) result (state_of self.old) }
        ensures trails { TrailsStart (M.told mem.old) (M.trail mem.old) (M.trail mem.new) result (state_of self.old) }
        ensures starting { is_starting result ≡ true }
        ensures lies { KeepsLying (state_of self.old) (state_of self.new) }
        ensures cause { HasCause (M.faults mem.old) (M.faults mem.new) (outcome result) }
        ensures rings { RingsAt (state_of self.old).index result (B.told bell.old) (B.told bell.new) }
        ensures bell_cause { HasCause (B.faults bell.old) (B.faults bell.new) (bell_outcome result) }
        ensures keeps_spaces { KeepsSpaces M.names M.handed M.sizes mem.old mem.new }
    {
        if self.started {
            return Stepped::Idle;
        }
        self.start_step(mem, bell)
    }

    /// How many requests wait in the avail ring.
    fn waiting<M: Shared>(&self, mem: &mut M) -> Result<u16, Failed>
        requires { RingLies (M.sizes mem.old) (ring_in self.now) }
        ensures waiting { IfOk result (λ n. WhereTold (M.told mem.old) (λ m. n ≡ waiting (state_of self.now) m)) }
        ensures only_loads { OnlyLoads M.told M.trail M.names M.handed M.sizes mem.old mem.new }
        ensures cause { HasCause (M.faults mem.old) (M.faults mem.new) result }
    {
        let index = self.ring.avail_idx(mem)?;
        Ok(index.wrapping_sub(self.next_avail))
    }

    /// The head that waits at the avail position, if one does.
    fn next_head<M: Shared>(&self, mem: &mut M) -> Result<Option<u16>, NoHead>
        requires { RingLies (M.sizes mem.old) (ring_in self.now) }
        ensures free { IsFree (state_of self.now) result }
        ensures found { WhereTold (M.told mem.old) (λ m. Finds (state_of self.now) m result) }
        ensures only_loads { OnlyLoads M.told M.trail M.names M.handed M.sizes mem.old mem.new }
        ensures cause { HasCause (M.faults mem.old) (M.faults mem.new) (found_outcome result) }
    {
        // avail.idx is loaded before the entry that it announces (VIRTIO 1.2, 2.7.13.3.1): in the other
        // order the entry could be an old one.
        let Ok(waiting) = self.waiting(mem) else {
            return Err(NoHead::Shared);
        };
        if waiting == 0 {
            return Ok(None);
        }
        if waiting > self.ring.size {
            return Err(NoHead::Broken(RingFault::Jump(waiting)));
        }
        let Ok(head) = self.ring.head_at(mem, self.next_avail) else {
            return Err(NoHead::Shared);
        };
        if head >= self.ring.size {
            return Err(NoHead::Broken(RingFault::BadHead(head)));
        }
        if is_taken(&self.taken, head) {
            return Err(NoHead::Broken(RingFault::Twice(head)));
        }
        Ok(Some(head))
    }

    /// The head of a fetch has its counter.
    fn keep(&mut self, head: u16)
        requires resting { self.old.phase ≡ Rest }
        requires started { self.old.started ≡ true }
        requires below { head < self.old.ring.size }
        requires free { is_taken self.old.taken.items head ≡ false }
        requires counts { self.old.counter < last_counter }
        ensures ring { ring_in self.new ≡ ring_in self.old }
        ensures stopped { self.new.stopped ≡ self.old.stopped }
        ensures state { state_of self.new ≡ moved head Count (fetch_under_way (state_of self.old)) }
        ensures lies { KeepsLying (state_of self.old) (state_of self.new) }
    {
        self.counter += 1;
        self.fetching = Some(head);
        self.phase = Phase::Fetch(1);
    }

    /// Makes the first step of a fetch of a head: the counter of its entry.
    fn store_counter<M: Shared>(&mut self, head: u16, mem: &mut M) -> Stepped
        requires region { RegionLies (M.sizes mem.old) self.old.region }
        requires same_size { self.old.region.size ≡ self.old.ring.size }
        requires resting { self.old.phase ≡ Rest }
        requires started { self.old.started ≡ true }
        requires below { head < self.old.ring.size }
        requires free { is_taken self.old.taken.items head ≡ false }
        requires counts { self.old.counter < last_counter }
        requires here { WhereTold (M.told mem.old) (λ m. head ≡ head_word (ring_in self.old) m self.old.next_avail) }
        ensures ring { ring_in self.new ≡ ring_in self.old }
        ensures stopped { self.new.stopped ≡ self.old.stopped }
        ensures lies { KeepsLying (state_of self.old) (state_of self.new) }
        ensures moves { Unless (is_fault result) (Moves (M.told mem.old) result (fetch_under_way (state_of self.old)) (state_of self.new)) }
        ensures makes_row { MakesRow M.told M.trail M.names M.handed M.sizes mem.old mem.new result (next_row (fetch_under_way (state_of self.old))) }
        ensures stores { (result ≡ stepped.Stored SF1) ⊎ (result ≡ stepped.SharedFault) }
        ensures cause { HasCause (M.faults mem.old) (M.faults mem.new) (outcome result) }
    {
        let step = SplitStore::SF1(head, self.counter as u64);
        match self.region.store(mem, step) {
            Ok(()) => {
                self.keep(head);
                Stepped::Stored(Tag::SF1)
            }
            Err(Failed) => Stepped::SharedFault,
        }
    }

    /// Begins a fetch where something waits.
    fn begin_fetch<M: Shared>(&mut self, mem: &mut M) -> Stepped
        requires lies { RingLies (M.sizes mem.old) (ring_in self.old) }
        requires region { RegionLies (M.sizes mem.old) self.old.region }
        requires same_size { self.old.region.size ≡ self.old.ring.size }
        requires resting { self.old.phase ≡ Rest }
        requires started { self.old.started ≡ true }
        ensures ring { ring_in self.new ≡ ring_in self.old }
        ensures stopped { self.new.stopped ≡ self.old.stopped }
        ensures lies { KeepsLying (state_of self.old) (state_of self.new) }
        ensures fetches { Fetches (M.told mem.old) result (state_of self.old) (state_of self.new) }
        ensures makes_row { MakesRow M.told M.trail M.names M.handed M.sizes mem.old mem.new result (fetch_row result (state_of self.old)) }
        ensures fetching { is_fetching result ≡ true }
        ensures no_disk { disk_outcome result ≡ Ok tt }
        ensures cause { HasCause (M.faults mem.old) (M.faults mem.new) (outcome result) }
    {
        if !self.counts() {
            return Stepped::Idle;
        }
        match self.next_head(mem) {
            Ok(None) => Stepped::Idle,
            Ok(Some(head)) => self.store_counter(head, mem),
            Err(NoHead::Shared) => Stepped::SharedFault,
            Err(NoHead::Broken(fault)) => Stepped::Broken(fault),
        }
    }

    /// Accepts the request of the head that a fetch keeps.
    fn accept(&mut self, head: u16)
        requires kept { self.old.fetching ≡ Some head }
        ensures ring { ring_in self.new ≡ ring_in self.old }
        ensures stopped { self.new.stopped ≡ self.old.stopped }
        ensures state { state_of self.new ≡ moved head Accept (state_of self.old) }
        ensures lies { KeepsLying (state_of self.old) (state_of self.new) }
    {
        self.unfinished.push_reserved(Task::new(head));
        set_taken(&mut self.taken, head, true);
        self.next_avail = self.next_avail.wrapping_add(1);
        self.fetching = None;
        self.phase = Phase::Rest;
    }

    /// Makes the second step of the fetch of a head: its entry is in flight, and its request accepted.
    fn end_fetch<M: Shared>(&mut self, head: u16, mem: &mut M) -> Stepped
        requires region { RegionLies (M.sizes mem.old) self.old.region }
        requires same_size { self.old.region.size ≡ self.old.ring.size }
        requires kept { self.old.fetching ≡ Some head }
        requires started { self.old.started ≡ true }
        ensures ring { ring_in self.new ≡ ring_in self.old }
        ensures stopped { self.new.stopped ≡ self.old.stopped }
        ensures lies { KeepsLying (state_of self.old) (state_of self.new) }
        ensures fetches { Fetches (M.told mem.old) result (state_of self.old) (state_of self.new) }
        ensures makes_row { MakesRow M.told M.trail M.names M.handed M.sizes mem.old mem.new result (fetch_row result (state_of self.old)) }
        ensures fetching { is_fetching result ≡ true }
        ensures no_disk { disk_outcome result ≡ Ok tt }
        ensures cause { HasCause (M.faults mem.old) (M.faults mem.new) (outcome result) }
    {
        match self.region.store(mem, SplitStore::SF2(head)) {
            Ok(()) => {
                self.accept(head);
                Stepped::Accepted(head)
            }
            Err(Failed) => Stepped::SharedFault,
        }
    }

    fn fetch<M: Shared>(&mut self, mem: &mut M) -> Stepped
        requires lies { RingLies (M.sizes mem.old) (ring_in self.old) }
        requires region { RegionLies (M.sizes mem.old) self.old.region }
        requires same_size { self.old.region.size ≡ self.old.ring.size }
        ensures ring { ring_in self.new ≡ ring_in self.old }
        ensures stopped { self.new.stopped ≡ self.old.stopped }
        ensures lies { KeepsLying (state_of self.old) (state_of self.new) }
        ensures fetches { Fetches (M.told mem.old) result (state_of self.old) (state_of self.new) }
        ensures makes_row { MakesRow M.told M.trail M.names M.handed M.sizes mem.old mem.new result (fetch_row result (state_of self.old)) }
        ensures fetching { is_fetching result ≡ true }
        ensures no_disk { disk_outcome result ≡ Ok tt }
        ensures cause { HasCause (M.faults mem.old) (M.faults mem.new) (outcome result) }
    {
        if !self.started || self.is_publishing() {
            return Stepped::Idle;
        }
        match self.fetching {
            Some(head) => self.end_fetch(head, mem),
            None => self.begin_fetch(mem),
        }
    }

    /// Moves a request to the completed ones.
    fn complete(&mut self, place: usize, head: u16, len: u32)
        requires within { place < vec_len self.old.unfinished }
        requires fits { head < self.old.ring.size }
        ensures ring { ring_in self.new ≡ ring_in self.old }
        ensures stopped { self.new.stopped ≡ self.old.stopped }
        ensures state { state_of self.new ≡ record (state_of self.old) { unfinished = remove (state_of self.old).unfinished place; completed = (state_of self.old).completed ++ (head, len) ∷ [] } }
    {
        self.unfinished.remove(place);
        self.completed.push_reserved(Completed { head, len });
    }

    /// Makes the next step of the request at a place.
    fn step_at<M: Shared, D: Disk>(
        &mut self,
        place: usize,
        mem: &mut M,
        disk: &mut D,
    ) -> (u16, TaskStep)
        requires lies { QueueLies (M.sizes mem.old) (D.capacity disk.old) (state_of self.old) }
        requires within { place < vec_len self.old.unfinished }
        ensures ring { ring_in self.new ≡ ring_in self.old }
        ensures stopped { self.new.stopped ≡ self.old.stopped }
        ensures lies { QueueLies (M.sizes mem.old) (D.capacity disk.old) (state_of self.new) }
        ensures head { result.0 < self.old.ring.size }
        ensures failed { IfFaulted result.1 (OwesAt place result.0 (state_of self.new)) }
        ensures steps { StepsAt place (Some result) (state_of self.old) (state_of self.new) }
        ensures made { (task : Task) (n : Making) → WhereTold (M.told mem.old) (λ m. IsDue (D.capacity disk.old) (M.sizes mem.old) (state_of self.old) m place task n → IfMade (Some result.1) (λ step. StepsOut place task n m (M.told mem.new) (M.trail mem.old) (M.trail mem.new) (D.values disk.old) (D.values disk.new) (Some result) (state_of self.old) (state_of self.new))) }
        ensures task { (task : Task) → slice_get (state_of self.old).unfinished place ≡ Some task → StepsTask (M.sizes mem.old) (D.capacity disk.old) place task result.0 result.1 (M.told mem.old) (M.told mem.new) (M.trail mem.old) (M.trail mem.new) (D.values disk.old) (D.values disk.new) (state_of self.old) (state_of self.new) }
        ensures trail { GainsOne (M.trail mem.old) (M.trail mem.new) }
        ensures cause { HasCause (M.faults mem.old) (M.faults mem.new) (memory_outcome (Some result.1)) }
        ensures disk_cause { HasCause (D.faults disk.old) (D.faults disk.new) (TaskState.disk_outcome (Some result.1)) }
        ensures stable { TaskState.StableAfter result.1 (D.stable disk.old) (D.values disk.new) (D.stable disk.new) }
        ensures keeps_spaces { KeepsSpaces M.names M.handed M.sizes mem.old mem.new }
        ensures capacity { D.capacity disk.new ≡ D.capacity disk.old }
    {
        let task = &mut self.unfinished[place];
        let head = task.head();
        let sector = &mut self.sectors[usize::from(head)];
        (head, task.step(&self.ring, mem, disk, sector))
    }

    /// Notes the end of a request whose status was stored, and says what its step was.
    fn conclude(&mut self, place: usize, head: u16, step: TaskStep) -> Stepped
        requires within { place < vec_len self.old.unfinished }
        requires fits { head < self.old.ring.size }
        ensures ring { ring_in self.new ≡ ring_in self.old }
        ensures stopped { self.new.stopped ≡ self.old.stopped }
        ensures says { result ≡ said head step }
        ensures state { state_of self.new ≡ concluded place head step (state_of self.old) }
        ensures lies { KeepsLying (state_of self.old) (state_of self.new) }
    {
        match step {
            TaskStep::Stored(tag) => Stepped::Stored(tag),
            TaskStep::Looked(sector) => Stepped::Looked(head, sector),
            TaskStep::Acted(sector) => Stepped::Acted(head, sector),
            TaskStep::Synced => Stepped::Synced(head),
            TaskStep::Faulted => Stepped::Faulted(head),
            TaskStep::Broken(fault) => Stepped::Broken(fault),
            TaskStep::Failed => Stepped::SharedFault,
            TaskStep::Done { len, .. } => {
                self.complete(place, head, len);
                Stepped::Completed(head)
            }
        }
    }

    fn work<M: Shared, D: Disk>(&mut self, place: u16, mem: &mut M, disk: &mut D) -> Stepped
        requires { QueueLies (M.sizes mem.old) (D.capacity disk.old) (state_of self.old) }
        ensures lies { QueueLies (M.sizes mem.old) (D.capacity disk.old) (state_of self.new) }
        ensures failed { Owes result (state_of self.new) }
        ensures ring { ring_in self.new ≡ ring_in self.old }
        ensures stopped { self.new.stopped ≡ self.old.stopped }
        ensures works { Works place result (state_of self.old) (state_of self.new) }
        ensures made { (task : Task) (n : Making) → WhereTold (M.told mem.old) (λ m. IsDue (D.capacity disk.old) (M.sizes mem.old) (state_of self.old) m place task n → IfStepped result (WorksOut place task n m (M.told mem.new) (M.trail mem.old) (M.trail mem.new) (D.values disk.old) (D.values disk.new) result (state_of self.old) (state_of self.new))) }
        ensures task { (task : Task) → (state_of self.old).started ≡ true → slice_get (state_of self.old).unfinished place ≡ Some task → WorksTask (M.sizes mem.old) (D.capacity disk.old) place task (M.told mem.old) (M.told mem.new) (M.trail mem.old) (M.trail mem.new) (D.values disk.old) (D.values disk.new) result (state_of self.old) (state_of self.new) }
        ensures trail { GainsOne (M.trail mem.old) (M.trail mem.new) }
        ensures rests { (waiting : ℕ) → is_ready (standing_at (state_of self.old) waiting) (Work place) ≡ false → Rests (M.told mem.old) (M.told mem.new) (M.trail mem.old) (M.trail mem.new) (D.values disk.old) (D.values disk.new) result (state_of self.old) (state_of self.new) }
        ensures cause { HasCause (M.faults mem.old) (M.faults mem.new) (outcome result) }
        ensures disk_cause { HasCause (D.faults disk.old) (D.faults disk.new) (disk_outcome result) }
        ensures stable { StableAfter result (D.stable disk.old) (D.values disk.new) (D.stable disk.new) }
        ensures keeps_spaces { KeepsSpaces M.names M.handed M.sizes mem.old mem.new }
        ensures capacity { D.capacity disk.new ≡ D.capacity disk.old }
    {
        let place = usize::from(place);
        if !self.started || place >= self.unfinished.len() {
            return Stepped::Idle;
        }
        let (head, step) = self.step_at(place, mem, disk);
        self.conclude(place, head, step)
    }

    /// Begins a batch of the first completed requests, at most so many.
    fn begin_batch(&mut self, most: u16)
        requires resting { self.old.phase ≡ Rest }
        requires started { self.old.started ≡ true }
        ensures ring { ring_in self.new ≡ ring_in self.old }
        ensures stopped { self.new.stopped ≡ self.old.stopped }
        ensures region { self.new.region ≡ self.old.region }
        ensures state { state_of self.new ≡ begun most (state_of self.old) }
        ensures going { is_publication self.new.phase ≡ true }
    {
        self.batch = self.completed.len().min(usize::from(most)) as u16;
        self.phase = Phase::Publish(0);
    }

    /// Begins a batch where none is under way.
    fn begin_if_resting(&mut self, most: u16)
        requires ready { publishes most (state_of self.old) ≡ true }
        ensures ring { ring_in self.new ≡ ring_in self.old }
        ensures stopped { self.new.stopped ≡ self.old.stopped }
        ensures region { self.new.region ≡ self.old.region }
        ensures state { state_of self.new ≡ under_way most (state_of self.old) }
        ensures going { is_publication self.new.phase ≡ true }
    {
        if self.is_publishing() {
            return;
        }
        self.begin_batch(most);
    }

    /// The batch is shown: its heads may be offered again.
    fn free_heads(&mut self)
        requires next { step_in (state_of self.old) ≡ Some Index }
        ensures ring { ring_in self.new ≡ ring_in self.old }
        ensures stopped { self.new.stopped ≡ self.old.stopped }
        ensures state { (head : ℕ) → state_of self.new ≡ moved head Index (state_of self.old) }
        ensures lies { KeepsLying (state_of self.old) (state_of self.new) }
    {
        let count = usize::from(self.batch);
        release(&mut self.taken, &self.completed[..count]);
        self.phase = after_running(self.batch, self.bell, self.phase);
    }

    /// The batch is noted: its elements leave the completed ones.
    fn end_batch(&mut self)
        requires shown { 4 * self.old.batch < done_of self.old.phase }
        requires going { is_publication self.old.phase ≡ true }
        ensures ring { ring_in self.new ≡ ring_in self.old }
        ensures stopped { self.new.stopped ≡ self.old.stopped }
        ensures state { state_of self.new ≡ with_phase Rest (state_of self.old) }
    {
        drop_front(&mut self.completed, usize::from(self.batch));
        self.batch = 0;
        self.phase = Phase::Rest;
    }

    /// The next step of the publication was made, which changes nothing but its phase.
    fn advance(&mut self)
        requires going { is_publication self.old.phase ≡ true }
        ensures ring { ring_in self.new ≡ ring_in self.old }
        ensures stopped { self.new.stopped ≡ self.old.stopped }
        ensures state { state_of self.new ≡ with_phase (after_of (steps_in (state_of self.old)) self.old.phase) (state_of self.old) }
        ensures lies { KeepsLying (state_of self.old) (state_of self.new) }
    {
        let phase = after_running(self.batch, self.bell, self.phase);
        if is_publication(phase) {
            self.phase = phase;
        } else {
            self.end_batch();
        }
    }

    fn store_id<M: Shared>(&mut self, element: u32, mem: &mut M) -> Stepped
        requires lies { RingLies (M.sizes mem.old) (ring_in self.old) }
        requires next { step_in (state_of self.old) ≡ Some (Id element) }
        ensures { MakesMove M.Shared mem.old mem.new result (state_of self.old) (state_of self.new) }
    {
        let Ok(used) = self.ring.used_idx(mem) else {
            return Stepped::SharedFault;
        };
        let completed = self.batch_element(element);
        let index = used.wrapping_add(element as u16);
        match self
            .ring
            .write_used_id(mem, index, u32::from(completed.head))
        {
            Ok(()) => {
                self.advance();
                Stepped::Stored(Tag::SP1)
            }
            Err(Failed) => Stepped::SharedFault,
        }
    }

    fn store_len<M: Shared>(&mut self, element: u32, mem: &mut M) -> Stepped
        requires lies { RingLies (M.sizes mem.old) (ring_in self.old) }
        requires next { step_in (state_of self.old) ≡ Some (Len element) }
        ensures { MakesMove M.Shared mem.old mem.new result (state_of self.old) (state_of self.new) }
    {
        let Ok(used) = self.ring.used_idx(mem) else {
            return Stepped::SharedFault;
        };
        let completed = self.batch_element(element);
        let index = used.wrapping_add(element as u16);
        match self.ring.write_used_len(mem, index, completed.len) {
            Ok(()) => {
                self.advance();
                Stepped::Stored(Tag::SP2)
            }
            Err(Failed) => Stepped::SharedFault,
        }
    }

    /// Shows the batch.
    fn show<M: Shared>(&mut self, mem: &mut M) -> Stepped
        requires lies { RingLies (M.sizes mem.old) (ring_in self.old) }
        requires next { step_in (state_of self.old) ≡ Some Index }
        ensures { MakesMove M.Shared mem.old mem.new result (state_of self.old) (state_of self.new) }
    {
        let Ok(used) = self.ring.used_idx(mem) else {
            return Stepped::SharedFault;
        };
        let index = used.wrapping_add(self.batch);
        match self.ring.publish_idx(mem, index) {
            Ok(()) => {
                self.free_heads();
                Stepped::Published
            }
            Err(Failed) => Stepped::SharedFault,
        }
    }

    /// Makes the store of a step into the in-flight region, which changes nothing but the phase.
    fn store_in_region<M: Shared>(&mut self, step: SplitStore, mem: &mut M) -> Stepped
        requires region { RegionLies (M.sizes mem.old) self.old.region }
        requires within { NamesEntry self.old.region.size step }
        requires going { is_publication self.old.phase ≡ true }
        requires due { WhereTold (M.told mem.old) (λ m. IsDueAt step m (state_of self.old)) }
        ensures { MakesMove M.Shared mem.old mem.new result (state_of self.old) (state_of self.new) }
    {
        match self.region.store(mem, step) {
            Ok(()) => {
                self.advance();
                Stepped::Stored(step.tag())
            }
            Err(Failed) => Stepped::SharedFault,
        }
    }

    /// Links an element to the one that was linked before it.
    fn link<M: Shared>(&mut self, element: u32, mem: &mut M) -> Stepped
        requires region { RegionLies (M.sizes mem.old) self.old.region }
        requires same_size { self.old.region.size ≡ self.old.ring.size }
        requires next { step_in (state_of self.old) ≡ Some (Link element) }
        ensures { MakesMove M.Shared mem.old mem.new result (state_of self.old) (state_of self.new) }
    {
        let Ok(last) = self.region.last_batch_head(mem) else {
            return Stepped::SharedFault;
        };
        let head = self.batch_element(element).head;
        self.store_in_region(SplitStore::SP3(head, last), mem)
    }

    /// Makes an element last_batch_head.
    fn note_head<M: Shared>(&mut self, element: u32, mem: &mut M) -> Stepped
        requires region { RegionLies (M.sizes mem.old) self.old.region }
        requires same_size { self.old.region.size ≡ self.old.ring.size }
        requires next { step_in (state_of self.old) ≡ Some (Head element) }
        ensures { MakesMove M.Shared mem.old mem.new result (state_of self.old) (state_of self.new) }
    {
        let head = self.batch_element(element).head;
        self.store_in_region(SplitStore::SP4(head), mem)
    }

    /// Clears the entry of an element.
    fn clear<M: Shared>(&mut self, element: u32, mem: &mut M) -> Stepped
        requires region { RegionLies (M.sizes mem.old) self.old.region }
        requires same_size { self.old.region.size ≡ self.old.ring.size }
        requires next { step_in (state_of self.old) ≡ Some (Clear element) }
        ensures { MakesMove M.Shared mem.old mem.new result (state_of self.old) (state_of self.new) }
    {
        let head = self.batch_element(element).head;
        self.store_in_region(SplitStore::SP6(head), mem)
    }

    /// Notes used.idx.
    fn note_used<M: Shared>(&mut self, mem: &mut M) -> Stepped
        requires lies { RingLies (M.sizes mem.old) (ring_in self.old) }
        requires region { RegionLies (M.sizes mem.old) self.old.region }
        requires next { step_in (state_of self.old) ≡ Some Note }
        ensures { MakesMove M.Shared mem.old mem.new result (state_of self.old) (state_of self.new) }
    {
        let Ok(used) = self.ring.used_idx(mem) else {
            return Stepped::SharedFault;
        };
        self.store_in_region(SplitStore::SP7(used), mem)
    }

    /// Tells the driver of the batch.
    fn ring_bell<B: Bell>(&mut self, bell: &mut B) -> Stepped
        requires next { step_in (state_of self.old) ≡ Some step.Bell }
        ensures ring { ring_in self.new ≡ ring_in self.old }
        ensures stopped { self.new.stopped ≡ self.old.stopped }
        ensures lies { KeepsLying (state_of self.old) (state_of self.new) }
        ensures moves { (told : Option Bytes) → Unless (is_fault result) (Moves told result (state_of self.old) (state_of self.new)) }
        ensures publishing { is_publishing result ≡ true }
        ensures no_disk { disk_outcome result ≡ Ok tt }
        ensures rings { RingsAt self.old.index result (B.told bell.old) (B.told bell.new) }
        ensures bell_cause { HasCause (B.faults bell.old) (B.faults bell.new) (bell_outcome result) }
        ensures no_memory { outcome result ≡ Ok tt }
    {
        match bell.ring(self.index) {
            Ok(()) => {
                self.advance();
                Stepped::Belled
            }
            Err(Failed) => Stepped::BellFault,
        }
    }

    /// Makes the next step of the publication under way.
    fn publish_step<M: Shared, B: Bell>(&mut self, mem: &mut M, bell: &mut B) -> Stepped
        requires lies { RingLies (M.sizes mem.old) (ring_in self.old) }
        requires region { RegionLies (M.sizes mem.old) self.old.region }
        requires same_size { self.old.region.size ≡ self.old.ring.size }
        requires going { is_publication self.old.phase ≡ true }
        ensures ring { ring_in self.new ≡ ring_in self.old }
        ensures stopped { self.new.stopped ≡ self.old.stopped }
        ensures lies { KeepsLying (state_of self.old) (state_of self.new) }
        ensures moves { Unless (is_fault result) (Moves (M.told mem.old) result (state_of self.old) (state_of self.new)) }
        ensures makes_row { MakesRow M.told M.trail M.names M.handed M.sizes mem.old mem.new result (next_row (state_of self.old)) }
        ensures publishing { is_publishing result ≡ true }
        ensures no_disk { disk_outcome result ≡ Ok tt }
        ensures cause { HasCause (M.faults mem.old) (M.faults mem.new) (outcome result) }
        ensures rings { RingsAt self.old.index result (B.told bell.old) (B.told bell.new) }
        ensures bell_cause { HasCause (B.faults bell.old) (B.faults bell.new) (bell_outcome result) }
    {
        match self.next_step() {
            Some(Step::Id(element)) => self.store_id(element, mem),
            Some(Step::Len(element)) => self.store_len(element, mem),
            Some(Step::Link(element)) => self.link(element, mem),
            Some(Step::Head(element)) => self.note_head(element, mem),
            Some(Step::Index) => self.show(mem),
            Some(Step::Clear(element)) => self.clear(element, mem),
            Some(Step::Note) => self.note_used(mem),
            Some(Step::Bell) => self.ring_bell(bell),
            Some(Step::Features) => unreachable!(),
            Some(Step::Free(_)) => unreachable!(),
            Some(Step::Open) => unreachable!(),
            Some(Step::Settle(_)) => unreachable!(),
            Some(Step::SettleEnd) => unreachable!(),
            Some(Step::Start) => unreachable!(),
            Some(Step::Count) => unreachable!(),
            Some(Step::Accept) => unreachable!(),
            None => unreachable!(),
        }
    }

    fn publish<M: Shared, B: Bell>(&mut self, most: u16, mem: &mut M, bell: &mut B) -> Stepped
        requires lies { RingLies (M.sizes mem.old) (ring_in self.old) }
        requires region { RegionLies (M.sizes mem.old) self.old.region }
        requires same_size { self.old.region.size ≡ self.old.ring.size }
        ensures ring { ring_in self.new ≡ ring_in self.old }
        ensures stopped { self.new.stopped ≡ self.old.stopped }
        ensures lies { KeepsLying (state_of self.old) (state_of self.new) }
        ensures publishes { Unless (is_fault result) (Publishes (publishes most (state_of self.old)) (M.told mem.old) result (state_of self.old) (under_way most (state_of self.old)) (state_of self.new)) }
        ensures makes_row { MakesRow M.told M.trail M.names M.handed M.sizes mem.old mem.new result (publish_row most (state_of self.old)) }
        ensures publishing { is_publishing result ≡ true }
        ensures no_disk { disk_outcome result ≡ Ok tt }
        ensures cause { HasCause (M.faults mem.old) (M.faults mem.new) (outcome result) }
        ensures rings { RingsAt self.old.index result (B.told bell.old) (B.told bell.new) }
        ensures bell_cause { HasCause (B.faults bell.old) (B.faults bell.new) (bell_outcome result) }
    {
        if !is_ready(&self.standing(0), Turn::Publish(most)) {
            return Stepped::Idle;
        }
        self.begin_if_resting(most);
        self.publish_step(mem, bell)
    }

    /// Whether it isn't stopped, and a turn of any kind would make a step.
    pub fn ready<M: Shared>(&self, mem: &mut M) -> Result<bool, Failed>
        requires { RingLies (M.sizes mem.old) (ring_in self.now) }
        ensures ready { IfOk result (λ b. WhereTold (M.told mem.old) (λ m. b ≡ is_ready_at (state_of self.now) (waiting (state_of self.now) m))) }
        ensures only_loads { OnlyLoads M.told M.trail M.names M.handed M.sizes mem.old mem.new }
        ensures cause { HasCause (M.faults mem.old) (M.faults mem.new) result }
    {
        if self.stopped.is_some() {
            return Ok(false);
        }
        let waiting = self.waiting(mem)?;
        let standing = self.standing(waiting);
        Ok(is_ready(&standing, Choice::Any.turn(self.ring.size, &standing)))
    }

    /// The turn that a choice comes to. How many requests wait is loaded where it depends on that.
    fn next_turn<M: Shared>(&self, choice: Choice, mem: &mut M) -> Result<Turn, Failed>
        requires { RingLies (M.sizes mem.old) (ring_in self.now) }
        ensures chosen { IfOk result (λ turn. WhereTold (M.told mem.old) (λ m. turn ≡ chosen self.now.ring.size choice (standing_at (state_of self.now) (waiting (state_of self.now) m)))) }
        ensures only { (turn : Turn) → choice ≡ Only turn → result ≡ Ok turn }
        ensures only_loads { OnlyLoads M.told M.trail M.names M.handed M.sizes mem.old mem.new }
        ensures cause { HasCause (M.faults mem.old) (M.faults mem.new) result }
    {
        let fetches = self.started && !self.is_publishing() && choice.may_fetch(self.ring.size);
        let waiting = if fetches { self.waiting(mem)? } else { 0 };
        Ok(choice.turn(self.ring.size, &self.standing(waiting)))
    }

    /// Makes a step of this turn, if it is ready. A fault doesn't stop the queue yet.
    fn make<M: Shared, D: Disk, B: Bell>(
        &mut self,
        turn: Turn,
        mem: &mut M,
        disk: &mut D,
        bell: &mut B,
    ) -> Stepped
        requires lies { QueueLies (M.sizes mem.old) (D.capacity disk.old) (state_of self.old) }
        requires runs { is_some self.old.stopped ≡ false }
        ensures { Turned (Only turn) (outside M.Shared D.Disk B.Bell mem.old disk.old bell.old) (outside M.Shared D.Disk B.Bell mem.new disk.new bell.new) result (state_of self.old) (halted result (state_of self.new)) }
    {
        match turn {
            Turn::Start => self.start(mem, bell),
            Turn::Fetch => self.fetch(mem),
            Turn::Work(place) => self.work(place, mem, disk),
            Turn::Publish(most) => self.publish(most, mem, bell),
        }
    }

    /// Makes a step of the turn that is chosen. A fault doesn't stop the queue yet.
    fn step_of<M: Shared, D: Disk, B: Bell>(
        &mut self,
        choice: Choice,
        mem: &mut M,
        disk: &mut D,
        bell: &mut B,
    ) -> Stepped
        requires lies { QueueLies (M.sizes mem.old) (D.capacity disk.old) (state_of self.old) }
        requires runs { is_some self.old.stopped ≡ false }
        ensures { Turned choice (outside M.Shared D.Disk B.Bell mem.old disk.old bell.old) (outside M.Shared D.Disk B.Bell mem.new disk.new bell.new) result (state_of self.old) (halted result (state_of self.new)) }
    {
        match self.next_turn(choice, mem) {
            Ok(turn) => self.make(turn, mem, disk, bell),
            Err(Failed) => Stepped::SharedFault,
        }
    }

    /// Stops where a step ended in a fault.
    fn halt(&mut self, stepped: Stepped)
        ensures ring { ring_in self.new ≡ ring_in self.old }
        ensures state { state_of self.new ≡ halted stepped (state_of self.old) }
    {
        match stepped {
            Stepped::Broken(fault) => self.stopped = Some(Stop::Broken(fault)),
            Stepped::Damaged(fault) => self.stopped = Some(Stop::Damaged(fault)),
            Stepped::SharedFault => self.stopped = Some(Stop::Shared),
            Stepped::BellFault => self.stopped = Some(Stop::Bell),
            Stepped::Idle
            | Stepped::Stored(_)
            | Stepped::Accepted(_)
            | Stepped::Looked(_, _)
            | Stepped::Acted(_, _)
            | Stepped::Synced(_)
            | Stepped::Faulted(_)
            | Stepped::Completed(_)
            | Stepped::Published
            | Stepped::Belled
            | Stepped::Started => {}
        }
    }

    /// Makes the next step of the turn that is chosen, and is `Idle` where it isn't ready. A fault of shared
    /// memory or of the bell, a ring that breaks a rule, or an in-flight region that can't be read
    /// stops the queue: later turns are `Idle`. A disk fault stops nothing. Takes no memory.
    pub fn turn<M: Shared, D: Disk, B: Bell>(
        &mut self,
        choice: Choice,
        mem: &mut M,
        disk: &mut D,
        bell: &mut B,
    ) -> Stepped
        requires { QueueLies (M.sizes mem.old) (D.capacity disk.old) (state_of self.old) }
        ensures { Turned choice (outside M.Shared D.Disk B.Bell mem.old disk.old bell.old) (outside M.Shared D.Disk B.Bell mem.new disk.new bell.new) result (state_of self.old) (state_of self.new) }
    {
        if self.stopped.is_some() {
            return Stepped::Idle;
        }
        let stepped = self.step_of(choice, mem, disk, bell);
        self.halt(stepped);
        stepped
    }
}
