//! One request at work: its disk calls and the stores of its data and its status, one a step
//! (VIRTIO 1.2, 5.2.6).
ghost use Rattle.std.specs.Prelude.{◌≡◌, ◌≢◌, ◌<◌, ◌≤◌, ◌+◌, ◌-◌, ◌*◌, ◌/◌, ◌%◌, ◌^◌, ℕ, true, false, Option, Some, None, Ok, Err, IfOk, option_map};
ghost use Rattle.byteorder.specs.Endian.{little_bytes};
ghost use Rattle.vub_base.specs.Causes.{HasCause};
ghost use Rattle.vub_base.specs.Told.{WhereTold};
ghost use Rattle.vub_base.specs.declared.store.Tag.TheVariants.{T2};
ghost use Rattle.vub_shared.specs.Bytes.{bytes_from};
ghost use Rattle.vub_shared.specs.Stores.{one_store, after_store, after_in_trail};
ghost use Rattle.vub_shared.specs.Frames.{OnlyLoads, KeepsSpaces};
ghost use Rattle.vub_disk.specs.Values.{with_value};
ghost use Rattle.vub_split.specs.Split.{RingLies};
ghost use Rattle.vub_task.specs.TaskState.{IfMade, IfSynced, IfFaulted, StableAfter, ChangedOrNot, GainsOne, fresh_task, head_in, memory_outcome, disk_outcome, plain_len_of, plain_answer_of, whole_transfer, can_move, FirstWork, WorkLies, TransferLies, AnswerLies, is_begun, failed_answer, one_more, after_put, after_act};
ghost use Rattle.vub_direct_chain.specs.ChainState.{PartsLie};
ghost use Rattle.vub_direct_chain.specs.declared.chain.Sectors.{Sectors};
ghost use Rattle.vub_task.specs.declared.task.TaskStep.TheVariants as answers;
ghost use Rattle.vub_task.specs.declared.task.Work.TheVariants as work;

use vub_base::standard::{
    REQUEST_HEADER_SIZE, REQUEST_SECTOR, REQUEST_TYPE, SECTOR_SIZE, VIRTIO_BLK_S_IOERR,
    VIRTIO_BLK_S_OK, VIRTIO_BLK_S_UNSUPP, VIRTIO_BLK_T_FLUSH, VIRTIO_BLK_T_IN, VIRTIO_BLK_T_OUT,
};
use vub_base::{RingFault, Tag, get_u32, get_u64};
use vub_direct_chain::{Parts, Sectors, Span, Unread, read_chain};
use vub_disk::Disk;
use vub_shared::Shared;
use vub_split::SplitRing;

/// What a step of a request was. A number is that of a sector.
#[derive(Clone, Copy, Debug, PartialEq, Eq)]
pub enum TaskStep {
    Stored(Tag),
    Looked(u64),
    Acted(u64),
    Synced,
    /// The disk call failed.
    Faulted,
    /// The status was stored; the used length is `len` bytes.
    Done { status: u8, len: u32 },
    Broken(RingFault),
    /// The shared memory failed.
    Failed,
}

/// How a request is answered in the end.
#[derive(Clone, Copy, Debug, PartialEq, Eq)]
struct Answer {
    status: u8,
    /// The used length.
    len: u32,
    /// The used length of an answer without data.
    plain_len: u32,
    /// Where the status stands, in its last byte.
    span: Span,
}

/// Sectors on their way between memory and disk.
#[derive(Clone, Copy, Debug, PartialEq, Eq)]
struct Transfer {
    sector: u64,
    count: u64,
    done: u64,
    span: Span,
    answer: Answer,
}

/// What a request does next.
#[derive(Clone, Copy, Debug, PartialEq, Eq)]
enum Work {
    /// Reads its chain, and goes on as its header says.
    Begin,
    /// Reads a sector of the disk.
    Look(Transfer),
    /// Stores what was read.
    Store(Transfer),
    /// Writes a sector of the disk.
    Act(Transfer),
    /// Flushes the disk.
    Sync(Answer),
    /// Stores the status.
    Reply(Answer),
}

/// A request by its head, and what it does next.
#[derive(Clone, Copy, Debug, PartialEq, Eq)]
pub struct Task {
    head: u16,
    work: Work,
}

/// The used length of an answer without data: 1 where the device may write the status byte alone,
/// else 0.
fn plain_len(parts: &Parts) -> u32
    ensures { result ≡ plain_len_of parts.now }
{
    match parts.sectors {
        Some(sectors) if sectors.writable && sectors.span.len != 0 => 0,
        _ => u32::from(parts.status.len == 1),
    }
}

/// An answer without data.
fn plain_answer(parts: &Parts, status: u8) -> Answer
    ensures { result ≡ plain_answer_of parts.now status }
{
    let len = plain_len(parts);
    Answer {
        status,
        len,
        plain_len: len,
        span: parts.status,
    }
}

/// The place in its space of sector `done` of a transfer.
fn sector_place(transfer: &Transfer) -> u64
    requires { transfer.now.span.place + 512 * transfer.now.done < 2 ^ 64 }
    ensures { result ≡ transfer.now.span.place + 512 * transfer.now.done }
{
    transfer.span.place + SECTOR_SIZE as u64 * transfer.done
}

/// A read or a write of the sectors of a request, or the refusal of one that isn't whole or ends
/// past the capacity.
fn transfer_of(
    parts: &Parts,
    sector: u64,
    capacity: u64,
    writable: bool,
) -> Result<Transfer, Answer>
    ensures whole { (x : Sectors) → parts.now.sectors ≡ Some x → can_move sector capacity writable parts.now.sectors ≡ true → result ≡ Ok (whole_transfer parts.now sector x) }
    ensures refused { can_move sector capacity writable parts.now.sectors ≡ false → result ≡ Err (plain_answer_of parts.now 1) }
{
    let refused = plain_answer(parts, VIRTIO_BLK_S_IOERR);
    let Some(Sectors { span, writable: is }) = parts.sectors else {
        return Err(refused);
    };
    let count = u64::from(span.len / SECTOR_SIZE as u32);
    if is != writable
        || span.len % SECTOR_SIZE as u32 != 0
        || sector > capacity
        || count > capacity - sector
    {
        return Err(refused);
    }
    let read = span.len.saturating_add(1);
    Ok(Transfer {
        sector,
        count,
        done: 0,
        span,
        answer: Answer {
            status: VIRTIO_BLK_S_OK,
            len: if writable { read } else { refused.len },
            ..refused
        },
    })
}

/// What a request does first, by the type and the sector of its header.
fn first_work(kind: u32, sector: u64, parts: &Parts, capacity: u64) -> Work
    ensures first { FirstWork parts.now kind sector capacity result }
    ensures lies { (sizes : ℕ → ℕ) → PartsLie sizes parts.now → WorkLies sizes capacity result }
    ensures begun { is_begun result ≡ true }
{
    match kind {
        VIRTIO_BLK_T_IN => match transfer_of(parts, sector, capacity, true) {
            Ok(transfer) => after_sector(transfer, Work::Look(transfer)),
            Err(answer) => Work::Reply(answer),
        },
        VIRTIO_BLK_T_OUT => match transfer_of(parts, sector, capacity, false) {
            Ok(transfer) => after_sector(transfer, Work::Act(transfer)),
            Err(answer) => Work::Reply(answer),
        },
        VIRTIO_BLK_T_FLUSH => Work::Sync(plain_answer(parts, VIRTIO_BLK_S_OK)),
        _ => Work::Reply(plain_answer(parts, VIRTIO_BLK_S_UNSUPP)),
    }
}

/// The next sector, or the status after the last one.
fn after_sector(transfer: Transfer, more: Work) -> Work
    ensures goes_on { transfer.done < transfer.count → result ≡ more }
    ensures ends { transfer.count ≤ transfer.done → result ≡ work.Reply transfer.answer }
{
    if transfer.done < transfer.count {
        more
    } else {
        Work::Reply(transfer.answer)
    }
}

/// The answer of a request whose disk call failed.
fn failed(answer: Answer) -> Answer
    ensures { result ≡ failed_answer answer }
{
    Answer {
        status: VIRTIO_BLK_S_IOERR,
        len: answer.plain_len,
        ..answer
    }
}

impl Task {
    ghost use Rattle.std.specs.Prelude.{slice_get};
    ghost use Rattle.vub_base.specs.declared.header.Header1.{Header1};
    ghost use Rattle.vub_device.specs.declared.entry.Asked.{Asked};
    ghost use Rattle.vub_driver.specs.GuestChain.{Links};
    ghost use Rattle.vub_steps.specs.Tasks as Tasks;
    ghost use Rattle.vub_steps.specs.Tasks.{task_steps};
    ghost use Rattle.vub_direct_chain.specs.ChainState.{MeansRequest, Reads, read_outcome, BreaksRule};
    ghost use Rattle.vub_direct_chain.specs.declared.chain.Unread.TheVariants as unread;
    ghost use Rattle.vub_task.specs.TaskState.{Begins, Starts, TaskLies, Makes, Worked, OwesFailure, Making, IsNext, DiskServes, IsReady, IsTaskAt, HasMade, LooksAt, answer_in, store_in, memory_after, with_maybe, values_after, work_for, work_of};
    ghost use Rattle.vub_split.specs.declared.split.SplitRing.{SplitRing};

    /// A request that was accepted under this head.
    pub fn new(head: u16) -> Task
        ensures is { result ≡ fresh_task head }
        ensures lies { (sizes : ℕ → ℕ) (capacity : ℕ) → TaskLies sizes capacity result }
        ensures fresh { (h : Header1) (r : SplitRing) (buffer : ℕ) (request : Asked) → IsTaskAt h r buffer request 0 result }
    {
        Task {
            head,
            work: Work::Begin,
        }
    }

    /// The head of the request.
    pub fn head(&self) -> u16
        ensures { result ≡ head_in self.now }
    {
        self.head
    }

    /// Reads the chain and the header.
    fn begin<M: Shared>(&self, ring: &SplitRing, mem: &mut M, capacity: u64) -> Result<Work, Unread>
        requires lies { RingLies (M.sizes mem.old) ring.now }
        requires fits { self.now.head < ring.now.size }
        ensures starts { WhereTold (M.told mem.old) (λ m. Starts (M.sizes mem.old) ring.now m self.now.head capacity result) }
        ensures lies { IfOk result (λ w. WorkLies (M.sizes mem.old) capacity w) }
        ensures begun { IfOk result (λ w. is_begun w ≡ true) }
        ensures begins { (h : Header1) (l : Links) (buffer : ℕ) (request : Asked) (step : Tasks.RequestStep) → WhereTold (M.told mem.old) (λ m. MeansRequest (M.sizes mem.old) ring.now m l buffer request → l.head ≡ self.now.head → DiskServes h capacity request → slice_get (task_steps h request) 0 ≡ Some step → Reads result (work_for h ring.now buffer request step)) }
        ensures only_loads { OnlyLoads M.told M.trail M.names M.handed M.sizes mem.old mem.new }
        ensures cause { HasCause (M.faults mem.old) (M.faults mem.new) (read_outcome result) }
    {
        let parts = read_chain(ring, mem, self.head)?;
        let header = parts.header;
        if header.len < REQUEST_HEADER_SIZE as u32 {
            return Ok(Work::Reply(plain_answer(&parts, VIRTIO_BLK_S_IOERR)));
        }
        let mut bytes = [0u8; REQUEST_HEADER_SIZE];
        if mem.load(header.space, header.place, &mut bytes).is_err() {
            return Err(Unread::Failed);
        }
        let kind = get_u32(&bytes, REQUEST_TYPE);
        let sector = get_u64(&bytes, REQUEST_SECTOR);
        Ok(first_work(kind, sector, &parts, capacity))
    }

    /// Reads the next sector of the disk.
    fn look<D: Disk>(
        &mut self,
        transfer: Transfer,
        disk: &mut D,
        sector: &mut [u8; SECTOR_SIZE],
    ) -> TaskStep
        requires { transfer.sector + transfer.done < D.capacity disk.old }
        ensures answer { IfMade (Some result) (λ step. step ≡ answers.Looked (transfer.sector + transfer.done)) }
        ensures read { IfMade (Some result) (λ step. WhereTold (D.values disk.old) (λ v. sector.new ≡ v (transfer.sector + transfer.done))) }
        ensures next { IfMade (Some result) (λ step. self.new.work ≡ work.Store transfer) }
        ensures failed { IfFaulted result (self.new.work ≡ work.Reply (failed_answer transfer.answer)) }
        ensures head { self.new.head ≡ self.old.head }
        ensures values { D.values disk.new ≡ D.values disk.old }
        ensures stable { D.stable disk.new ≡ D.stable disk.old }
        ensures capacity { D.capacity disk.new ≡ D.capacity disk.old }
        ensures disk_cause { HasCause (D.faults disk.old) (D.faults disk.new) (disk_outcome (Some result)) }
        ensures no_memory { memory_outcome (Some result) ≡ Ok tt }
        ensures other { IfSynced (Some result) ⊥ }
    {
        let number = transfer.sector + transfer.done;
        if disk.read(number, sector).is_err() {
            self.work = Work::Reply(failed(transfer.answer));
            return TaskStep::Faulted;
        }
        self.work = Work::Store(transfer);
        TaskStep::Looked(number)
    }

    /// Stores the sector that was read at its place in the buffer.
    fn store<M: Shared>(
        &mut self,
        transfer: Transfer,
        mem: &mut M,
        sector: &[u8; SECTOR_SIZE],
    ) -> TaskStep
        requires room { transfer.span.place + (512 * transfer.done + 512) ≤ M.sizes mem.old transfer.span.space.number }
        requires left { transfer.done < transfer.count }
        requires at_work { self.old.work ≡ work.Store transfer }
        ensures answer { IfMade (Some result) (λ step. step ≡ answers.Stored T2) }
        ensures stored { IfMade (Some result) (λ step. M.told mem.new ≡ option_map (after_store (one_store transfer.span.space.number (transfer.span.place + 512 * transfer.done) sector.now)) (M.told mem.old)) }
        ensures trailed { IfMade (Some result) (λ step. M.trail mem.new ≡ option_map (after_in_trail (one_store transfer.span.space.number (transfer.span.place + 512 * transfer.done) sector.now)) (M.trail mem.old)) }
        ensures trail { GainsOne (M.trail mem.old) (M.trail mem.new) }
        ensures more { transfer.done + 1 < transfer.count → IfMade (Some result) (λ step. self.new.work ≡ work.Look (one_more transfer)) }
        ensures last { transfer.count ≤ transfer.done + 1 → IfMade (Some result) (λ step. self.new.work ≡ work.Reply transfer.answer) }
        ensures makes { Makes (work.Store transfer) result self.new.work }
        ensures head { self.new.head ≡ self.old.head }
        ensures keeps_spaces { KeepsSpaces M.names M.handed M.sizes mem.old mem.new }
        ensures memory_cause { HasCause (M.faults mem.old) (M.faults mem.new) (memory_outcome (Some result)) }
        ensures no_disk { disk_outcome (Some result) ≡ Ok tt }
        ensures other { IfSynced (Some result) ⊥ }
    {
        let place = sector_place(&transfer);
        if mem.store_run(transfer.span.space, place, sector).is_err() {
            return TaskStep::Failed;
        }
        let next = Transfer {
            done: transfer.done + 1,
            ..transfer
        };
        self.work = after_sector(next, Work::Look(next));
        TaskStep::Stored(Tag::T2)
    }

    /// Writes the next sector of the buffer to the disk.
    fn act<M: Shared, D: Disk>(
        &mut self,
        transfer: Transfer,
        mem: &mut M,
        disk: &mut D,
        sector: &mut [u8; SECTOR_SIZE],
    ) -> TaskStep
        requires room { transfer.span.place + (512 * transfer.done + 512) ≤ M.sizes mem.old transfer.span.space.number }
        requires below { transfer.sector + transfer.done < D.capacity disk.old }
        requires left { transfer.done < transfer.count }
        requires at_work { self.old.work ≡ work.Act transfer }
        ensures answer { IfMade (Some result) (λ step. step ≡ answers.Acted (transfer.sector + transfer.done)) }
        ensures written { IfMade (Some result) (λ step. WhereTold (M.told mem.old) (λ m. D.values disk.new ≡ option_map (with_value (transfer.sector + transfer.done) (bytes_from 512 m transfer.span.space.number (transfer.span.place + 512 * transfer.done))) (D.values disk.old))) }
        ensures changed { WhereTold (M.told mem.old) (λ m. ChangedOrNot (with_value (transfer.sector + transfer.done) (bytes_from 512 m transfer.span.space.number (transfer.span.place + 512 * transfer.done))) (D.values disk.old) (D.values disk.new)) }
        ensures more { transfer.done + 1 < transfer.count → IfMade (Some result) (λ step. self.new.work ≡ work.Act (one_more transfer)) }
        ensures last { transfer.count ≤ transfer.done + 1 → IfMade (Some result) (λ step. self.new.work ≡ work.Reply transfer.answer) }
        ensures makes { Makes (work.Act transfer) result self.new.work }
        ensures head { self.new.head ≡ self.old.head }
        ensures only_loads { OnlyLoads M.told M.trail M.names M.handed M.sizes mem.old mem.new }
        ensures stable { D.stable disk.new ≡ D.stable disk.old }
        ensures capacity { D.capacity disk.new ≡ D.capacity disk.old }
        ensures memory_cause { HasCause (M.faults mem.old) (M.faults mem.new) (memory_outcome (Some result)) }
        ensures disk_cause { HasCause (D.faults disk.old) (D.faults disk.new) (disk_outcome (Some result)) }
        ensures other { IfSynced (Some result) ⊥ }
    {
        let place = sector_place(&transfer);
        let number = transfer.sector + transfer.done;
        if mem.load(transfer.span.space, place, sector).is_err() {
            return TaskStep::Failed;
        }
        if disk.write(number, sector).is_err() {
            self.work = Work::Reply(failed(transfer.answer));
            return TaskStep::Faulted;
        }
        let next = Transfer {
            done: transfer.done + 1,
            ..transfer
        };
        self.work = after_sector(next, Work::Act(next));
        TaskStep::Acted(number)
    }

    /// Flushes the disk.
    fn sync<D: Disk>(&mut self, answer: Answer, disk: &mut D) -> TaskStep
        ensures answer { IfMade (Some result) (λ step. step ≡ answers.Synced) }
        ensures next { IfMade (Some result) (λ step. self.new.work ≡ work.Reply answer) }
        ensures failed { IfFaulted result (self.new.work ≡ work.Reply (failed_answer answer)) }
        ensures values { D.values disk.new ≡ D.values disk.old }
        ensures stable { StableAfter result (D.stable disk.old) (D.values disk.new) (D.stable disk.new) }
        ensures head { self.new.head ≡ self.old.head }
        ensures capacity { D.capacity disk.new ≡ D.capacity disk.old }
        ensures disk_cause { HasCause (D.faults disk.old) (D.faults disk.new) (disk_outcome (Some result)) }
        ensures no_memory { memory_outcome (Some result) ≡ Ok tt }
    {
        if disk.flush().is_err() {
            self.work = Work::Reply(failed(answer));
            return TaskStep::Faulted;
        }
        self.work = Work::Reply(answer);
        TaskStep::Synced
    }

    /// Stores the status in the last byte of its span.
    fn reply<M: Shared>(&self, answer: Answer, mem: &mut M) -> TaskStep
        requires { AnswerLies (M.sizes mem.old) answer }
        ensures answer { IfMade (Some result) (λ step. step ≡ answers.Done answer.status answer.len) }
        ensures stored { IfMade (Some result) (λ step. M.told mem.new ≡ option_map (after_store (one_store answer.span.space.number (answer.span.place + (answer.span.len - 1)) (little_bytes 1 answer.status))) (M.told mem.old)) }
        ensures trailed { IfMade (Some result) (λ step. M.trail mem.new ≡ option_map (after_in_trail (one_store answer.span.space.number (answer.span.place + (answer.span.len - 1)) (little_bytes 1 answer.status))) (M.trail mem.old)) }
        ensures trail { GainsOne (M.trail mem.old) (M.trail mem.new) }
        ensures keeps_spaces { KeepsSpaces M.names M.handed M.sizes mem.old mem.new }
        ensures memory_cause { HasCause (M.faults mem.old) (M.faults mem.new) (memory_outcome (Some result)) }
        ensures no_disk { disk_outcome (Some result) ≡ Ok tt }
        ensures other { IfSynced (Some result) ⊥ }
    {
        let last = answer.span.place + (u64::from(answer.span.len) - 1);
        if mem.store1(answer.span.space, last, answer.status).is_err() {
            return TaskStep::Failed;
        }
        TaskStep::Done {
            status: answer.status,
            len: answer.len,
        }
    }

    /// What is to be done next, which the chain and the header say at first.
    fn prepare<M: Shared>(
        &self,
        ring: &SplitRing,
        mem: &mut M,
        capacity: u64,
    ) -> Result<Work, Unread>
        requires lies { RingLies (M.sizes mem.old) ring.now }
        requires fits { self.now.head < ring.now.size }
        requires task { TaskLies (M.sizes mem.old) capacity self.now }
        ensures starts { self.now.work ≡ work.Begin → WhereTold (M.told mem.old) (λ m. Starts (M.sizes mem.old) ring.now m self.now.head capacity result) }
        ensures goes_on { is_begun self.now.work ≡ true → result ≡ Ok self.now.work }
        ensures lies { IfOk result (λ w. WorkLies (M.sizes mem.old) capacity w) }
        ensures begun { IfOk result (λ w. is_begun w ≡ true) }
        ensures ready { (n : Making) → WhereTold (M.told mem.old) (λ m. IsNext capacity (M.sizes mem.old) ring.now m n → IsReady ring.now n self.now → Reads result (work_of ring.now n)) }
        ensures only_loads { OnlyLoads M.told M.trail M.names M.handed M.sizes mem.old mem.new }
        ensures cause { HasCause (M.faults mem.old) (M.faults mem.new) (read_outcome result) }
    {
        match self.work {
            Work::Begin => self.begin(ring, mem, capacity),
            work => Ok(work),
        }
    }

    /// Makes the next step: a disk call or a store. The first one reads the chain and the header
    /// before. A sector on its way stands in `sector` between a look and its store.
    ///
    /// Where the memory is told and means the task's request, and neither it nor the disk fails,
    /// this is the next step of the step table.
    pub fn step<M: Shared, D: Disk>(
        &mut self,
        ring: &SplitRing,
        mem: &mut M,
        disk: &mut D,
        sector: &mut [u8; SECTOR_SIZE],
    ) -> TaskStep
        requires lies { RingLies (M.sizes mem.old) ring.now }
        requires fits { self.old.head < ring.now.size }
        requires task { TaskLies (M.sizes mem.old) (D.capacity disk.old) self.old }
        ensures task { TaskLies (M.sizes mem.new) (D.capacity disk.new) self.new }
        ensures begins { self.old.work ≡ work.Begin → WhereTold (M.told mem.old) (λ m. Begins (M.sizes mem.old) ring.now m self.old.head (D.capacity disk.old) sector.old sector.new result self.new.work (M.told mem.new) (M.trail mem.old) (M.trail mem.new) (D.values disk.old) (D.values disk.new)) }
        ensures worked { is_begun self.old.work ≡ true → Worked self.old.work sector.old sector.new result self.new.work (M.told mem.old) (M.told mem.new) (M.trail mem.old) (M.trail mem.new) (D.values disk.old) (D.values disk.new) }
        ensures failed { IfFaulted result (OwesFailure self.new) }
        ensures head { self.new.head ≡ self.old.head }
        ensures answer { (n : Making) → WhereTold (M.told mem.old) (λ m. IsNext (D.capacity disk.old) (M.sizes mem.old) ring.now m n → IsReady ring.now n self.old → IfMade (Some result) (λ step. step ≡ answer_in n)) }
        ensures stored { (n : Making) → WhereTold (M.told mem.old) (λ m. IsNext (D.capacity disk.old) (M.sizes mem.old) ring.now m n → IsReady ring.now n self.old → IfMade (Some result) (λ step. M.told mem.new ≡ Some (memory_after ring.now n sector.old m))) }
        ensures trails { (n : Making) → WhereTold (M.told mem.old) (λ m. IsNext (D.capacity disk.old) (M.sizes mem.old) ring.now m n → IsReady ring.now n self.old → IfMade (Some result) (λ step. M.trail mem.new ≡ option_map (with_maybe (store_in ring.now n sector.old)) (M.trail mem.old))) }
        ensures trail { GainsOne (M.trail mem.old) (M.trail mem.new) }
        ensures looked { (n : Making) → WhereTold (M.told mem.old) (λ m. IsNext (D.capacity disk.old) (M.sizes mem.old) ring.now m n → IsReady ring.now n self.old → IfMade (Some result) (λ step. WhereTold (D.values disk.old) (λ v. LooksAt n v sector.new))) }
        ensures written { (n : Making) → WhereTold (M.told mem.old) (λ m. IsNext (D.capacity disk.old) (M.sizes mem.old) ring.now m n → IsReady ring.now n self.old → IfMade (Some result) (λ step. D.values disk.new ≡ option_map (values_after n.request n.step) (D.values disk.old))) }
        ensures stable { StableAfter result (D.stable disk.old) (D.values disk.new) (D.stable disk.new) }
        ensures goes_on { (n : Making) → WhereTold (M.told mem.old) (λ m. IsNext (D.capacity disk.old) (M.sizes mem.old) ring.now m n → IsReady ring.now n self.old → IfMade (Some result) (λ step. HasMade ring.now n self.new)) }
        ensures keeps_spaces { KeepsSpaces M.names M.handed M.sizes mem.old mem.new }
        ensures capacity { D.capacity disk.new ≡ D.capacity disk.old }
        ensures memory_cause { HasCause (M.faults mem.old) (M.faults mem.new) (memory_outcome (Some result)) }
        ensures disk_cause { HasCause (D.faults disk.old) (D.faults disk.new) (disk_outcome (Some result)) }
    {
        match self.prepare(ring, mem, disk.capacity()) {
            Ok(work) => {
                self.work = work;
                self.go_on(mem, disk, sector)
            }
            Err(Unread::Failed) => TaskStep::Failed,
            Err(Unread::Broken(fault)) => TaskStep::Broken(fault),
        }
    }

    /// Makes the next step of a request that was begun.
    fn go_on<M: Shared, D: Disk>(
        &mut self,
        mem: &mut M,
        disk: &mut D,
        sector: &mut [u8; SECTOR_SIZE],
    ) -> TaskStep
        requires begun { is_begun self.old.work ≡ true }
        requires lies { TaskLies (M.sizes mem.old) (D.capacity disk.old) self.old }
        ensures lies { TaskLies (M.sizes mem.new) (D.capacity disk.new) self.new }
        ensures worked { Worked self.old.work sector.old sector.new result self.new.work (M.told mem.old) (M.told mem.new) (M.trail mem.old) (M.trail mem.new) (D.values disk.old) (D.values disk.new) }
        ensures head { self.new.head ≡ self.old.head }
        ensures answer { (r : SplitRing) (n : Making) → WhereTold (M.told mem.old) (λ m. IsNext (D.capacity disk.old) (M.sizes mem.old) r m n → self.old.work ≡ work_of r n → IfMade (Some result) (λ step. step ≡ answer_in n)) }
        ensures stored { (r : SplitRing) (n : Making) → WhereTold (M.told mem.old) (λ m. IsNext (D.capacity disk.old) (M.sizes mem.old) r m n → self.old.work ≡ work_of r n → IfMade (Some result) (λ step. M.told mem.new ≡ Some (memory_after r n sector.old m))) }
        ensures trails { (r : SplitRing) (n : Making) → WhereTold (M.told mem.old) (λ m. IsNext (D.capacity disk.old) (M.sizes mem.old) r m n → self.old.work ≡ work_of r n → IfMade (Some result) (λ step. M.trail mem.new ≡ option_map (with_maybe (store_in r n sector.old)) (M.trail mem.old))) }
        ensures trail { GainsOne (M.trail mem.old) (M.trail mem.new) }
        ensures looked { (r : SplitRing) (n : Making) → WhereTold (M.told mem.old) (λ m. IsNext (D.capacity disk.old) (M.sizes mem.old) r m n → self.old.work ≡ work_of r n → IfMade (Some result) (λ step. WhereTold (D.values disk.old) (λ v. LooksAt n v sector.new))) }
        ensures written { (r : SplitRing) (n : Making) → WhereTold (M.told mem.old) (λ m. IsNext (D.capacity disk.old) (M.sizes mem.old) r m n → self.old.work ≡ work_of r n → IfMade (Some result) (λ step. D.values disk.new ≡ option_map (values_after n.request n.step) (D.values disk.old))) }
        ensures stable { StableAfter result (D.stable disk.old) (D.values disk.new) (D.stable disk.new) }
        ensures goes_on { (r : SplitRing) (n : Making) → WhereTold (M.told mem.old) (λ m. IsNext (D.capacity disk.old) (M.sizes mem.old) r m n → self.old.work ≡ work_of r n → IfMade (Some result) (λ step. HasMade r n self.new)) }
        ensures keeps_spaces { KeepsSpaces M.names M.handed M.sizes mem.old mem.new }
        ensures capacity { D.capacity disk.new ≡ D.capacity disk.old }
        ensures memory_cause { HasCause (M.faults mem.old) (M.faults mem.new) (memory_outcome (Some result)) }
        ensures disk_cause { HasCause (D.faults disk.old) (D.faults disk.new) (disk_outcome (Some result)) }
    {
        match self.work {
            Work::Begin => unreachable!(),
            Work::Look(transfer) => self.look(transfer, disk, sector),
            Work::Store(transfer) => self.store(transfer, mem, sector),
            Work::Act(transfer) => self.act(transfer, mem, disk, sector),
            Work::Sync(answer) => self.sync(answer, disk),
            Work::Reply(answer) => self.reply(answer, mem),
        }
    }
}
