ghost use Rattle.std.specs.Prelude.{◌≡◌, ◌≤◌, [], length, Some, IfOk, IsOk, OnErr, OnOk, IsErr, ◌↔◌, ◌⊎◌, Contains, true, false, IsTrue, if◌then◌else◌};
ghost use Rattle.vub_base.specs.Causes.{HasCause};
ghost use Rattle.vub_base.specs.Bells.{Attaches, Rings};

use crate::{Bell, Failed, Memory};
use arrayvec::ArrayVec;
use std::alloc::Global;
use std::marker::Model;

/// A bell in memory, which lists the queues rung in a room for so many, and whose calls of chosen
/// numbers fail.
#[derive(Drop)]
pub struct MemBell {
    rung: Vec<u16>,
    room: usize,
    attached: ArrayVec<u16, 16>,
    call: u64,
    fails: Vec<u64>,
    faults: u64,
}

impl Model for MemBell {
    ghost use Rattle.std.specs.Prelude.{◌≡◌, ◌≤◌, vec_len, vec_capacity};
    ghost use Rattle.vub_base.specs.MemForms.{MemBellState};

    ghost Value = { MemBellState };

    ghost view = { λ s. record { rung = s.rung.items; room = s.room; attached = s.attached.items; call = s.call; fails = s.fails.items; faults = s.faults } };

    ghost invariant = { λ s. (vec_len s.rung ≤ s.room) × (s.room ≤ vec_capacity s.rung) };
}

impl MemBell {
    ghost use Rattle.vub_base.specs.MemForms.{failed_call, counted_call};

    /// A bell with room for `room` queues rung and for 16 attached ones. Its calls of `attach`, and
    /// those of `ring` on attached queues, are numbered from 0 together. Those whose numbers stand
    /// in `fails` fail, and so does one that finds no room.
    pub fn new(alloc: Global, room: usize, fails: Vec<u64>) -> Result<MemBell, Memory>
        ensures { IfOk result (λ s. s ≡ record { rung = []; room = room; attached = []; call = 0; fails = fails.items; faults = 0 }) }
    {
        let rung = Vec::with_capacity(alloc, room).map_err(|_| Memory)?;
        Ok(MemBell {
            rung,
            room,
            attached: ArrayVec::new(),
            call: 0,
            fails,
            faults: 0,
        })
    }

    /// The queues rung, in order.
    pub fn rung(&self) -> &[u16]
        ensures { result.now ≡ self.now.rung }
    {
        &self.rung
    }

    /// Empties the list of queues rung and reserves room for so many. Attached queues stay attached.
    /// Takes no memory where there was as much room before. Refused, it changes nothing.
    pub fn restart(&mut self, room: usize) -> Result<(), Memory>
        ensures done { OnOk result (self.new ≡ record self.old { rung = []; room = room }) }
        ensures refused { OnErr result (self.new ≡ self.old) }
        ensures enough { room ≤ self.old.room → IsOk result }
    {
        if room > self.room {
            let more = room - self.rung.len();
            self.rung.reserve(more).map_err(|_| Memory)?;
        }
        self.rung.clear();
        self.room = room;
        Ok(())
    }

    // Counts a call, and tells whether it fails: its number is one of those chosen, or it finds no
    // room.
    fn is_failing(&mut self, has_room: bool) -> bool
        ensures fails { IsTrue result ↔ (Contains self.old.fails self.old.call ⊎ (has_room ≡ false)) }
        ensures counts { self.new ≡ (if result then failed_call self.old else counted_call self.old) }
    {
        let fails = self.fails.contains(&self.call) || !has_room;
        self.call = self.call.saturating_add(1);
        if fails {
            self.faults = self.faults.saturating_add(1);
        }
        fails
    }
}

impl Bell for MemBell {
    ghost use Rattle.vub_base.specs.MemForms.{is_attached, told_of, failed_call, attached_once, rung_on};

    ghost told = { λ s. Some (told_of s) };

    ghost faults = { λ s. s.faults };

    fn attach(&mut self, queue: u16, _name: &str) -> Result<(), Failed>
        ensures attaches { Attaches (Some (told_of self.old)) (Some (told_of self.new)) result queue }
        ensures cause { HasCause self.old.faults self.new.faults result }

        // A call fails exactly where its number is one of those chosen, or the queue is one more
        // than there is room for.
        ensures fails { IsErr result ↔ (Contains self.old.fails self.old.call ⊎ ((is_attached self.old queue ≡ false) × (16 ≤ length self.old.attached))) }
        ensures failed { OnErr result (self.new ≡ failed_call self.old) }
        ensures done { OnOk result (self.new ≡ attached_once queue self.old) }
    {
        let known = self.attached.contains(&queue);
        let has_room = known || !self.attached.is_full();
        if self.is_failing(has_room) {
            return Err(Failed);
        }
        if !known {
            self.attached.push(queue);
        }
        Ok(())
    }

    fn ring(&mut self, queue: u16) -> Result<(), Failed>
        ensures rings { Rings (Some (told_of self.old)) (Some (told_of self.new)) result queue }
        ensures cause { HasCause self.old.faults self.new.faults result }

        // A call fails exactly where the queue is attached, and its number is one of those chosen or
        // the list of queues rung is full.
        ensures fails { IsErr result ↔ ((is_attached self.old queue ≡ true) × (Contains self.old.fails self.old.call ⊎ (self.old.room ≤ length self.old.rung))) }
        ensures failed { OnErr result (self.new ≡ failed_call self.old) }
        ensures done { OnOk result (self.new ≡ rung_on queue self.old) }
    {
        if !self.attached.contains(&queue) {
            return Ok(());
        }
        let has_room = self.rung.len() < self.room;
        if self.is_failing(has_room) {
            return Err(Failed);
        }
        if self.rung.push(queue).is_err() {
            unreachable!();
        }
        Ok(())
    }
}
