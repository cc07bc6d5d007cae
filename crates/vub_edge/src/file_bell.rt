ghost use Rattle.std.specs.Prelude.{◌≤◌, vec_len, vec_capacity};

use crate::counting::counted;
use crate::opening;
use std::alloc::Global;
use std::fs::Files;
use std::io::Write;
use vub_base::{Bell, Failed, Memory};

/// The most queues that can be attached.
const MOST_QUEUES: usize = 16;

/// What a ring writes: the number that it adds to an eventfd, as 8 bytes, the lowest first.
const ONE_CALL: u64 = 1;

// The file that a queue is attached to.
#[derive(Drop)]
struct Attached<F> {
    queue: u16,
    file: F,
}

/// A bell whose calls are files of the working folder. A ring appends the number 1 in 8 bytes, the
/// lowest first, by one call of the system (`write`).
///
/// `attach` opens the file for appending, and makes it where it is missing. A name of a FIFO works as
/// one of a file does, and so does one of a link to either; a FIFO is waited for until it has a reader.
/// Room is for 16 attached queues; to attach one more fails.
#[derive(Drop)]
pub struct FileBell<R, F> {
    files: R,
    attached: Vec<Attached<F>>,
    faults: u64,
    ghost few: { vec_len attached ≤ 16 },
    ghost room: { 16 ≤ vec_capacity attached },
}

impl<F: Write + Drop, R: Files<File = F> + Drop> FileBell<R, F> {
    ghost use Rattle.std.specs.Prelude.{◌≡◌, ◌<◌, [], length, IfOk, IsSome};
    ghost use Rattle.vub_edge.specs.FileBells.{attached_of, faults_of, place_in};

    /// A bell over the files of the working folder, to which no queue is attached.
    pub fn new(alloc: Global, files: R) -> Result<FileBell<R, F>, Memory>
        ensures attached { IfOk result (λ b. attached_of b ≡ []) }
        ensures faults { IfOk result (λ b. faults_of b ≡ 0) }
    {
        let attached = Vec::with_capacity(alloc, MOST_QUEUES).map_err(|_| Memory)?;
        Ok(FileBell {
            files,
            attached,
            faults: 0,
        })
    }

    // Attaches one queue more, for which there is room.
    fn add(&mut self, one: Attached<F>)
        requires { length (attached_of self.old) < 16 }
        ensures attached { IsSome (place_in (attached_of self.new) one.queue) }
        ensures faults { faults_of self.new ≡ faults_of self.old }
    {
        if self.attached.push(one).is_err() {
            unreachable!();
        }
    }

    // The place of a queue among the attached ones.
    fn place_of(&self, queue: u16) -> Option<usize>
        ensures { result ≡ place_in (attached_of self.now) queue }
    {
        self.attached.iter().position(|one| one.queue == queue)
    }
}

impl<F: Write + Drop, R: Files<File = F> + Drop> Bell for FileBell<R, F> {
    ghost use Rattle.std.specs.Prelude.{◌≡◌, None, OnOk, IsSome};
    ghost use Rattle.byteorder.specs.Endian.{little_bytes};
    ghost use Rattle.vub_base.specs.Causes.{HasCause};
    ghost use Rattle.vub_edge.specs.FileBells.{attached_of, faults_of, place_in, Writes};

    ghost told = { λ _. None };

    ghost faults = { λ b. faults_of b };

    fn attach(&mut self, queue: u16, name: &str) -> Result<(), Failed>
        ensures cause { HasCause (faults_of self.old) (faults_of self.new) result }

        // The queue is attached then.
        ensures attached { OnOk result (IsSome (place_in (attached_of self.new) queue)) }
    {
        let place = self.place_of(queue);
        if place.is_none() && self.attached.len() == MOST_QUEUES {
            self.faults = self.faults.saturating_add(1);
            return Err(Failed);
        }
        let answer = opening::append(&self.files, name);
        let file = counted(&mut self.faults, answer)?;
        match place {
            Some(place) => self.attached[place].file = file,
            None => self.add(Attached { queue, file }),
        }
        Ok(())
    }

    fn ring(&mut self, queue: u16) -> Result<(), Failed>
        ensures cause { HasCause (faults_of self.old) (faults_of self.new) result }

        // The file of the queue grew by the number 1.
        ensures writes { OnOk result (Writes F.contents (attached_of self.old) (attached_of self.new) queue (little_bytes 8 1)) }
    {
        let Some(place) = self.place_of(queue) else {
            return Ok(());
        };
        let answer = self.attached[place].file.write_all(&ONE_CALL.to_le_bytes());
        counted(&mut self.faults, answer)
    }
}
