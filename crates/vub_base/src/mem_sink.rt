ghost use Rattle.std.specs.Prelude.{◌≡◌, ◌+◌, ◌<◌, ◌≤◌, ◌++◌, [], ℕ, List, length, Option, Some, IfOk, OnErr, OnOk, IsErr, ◌↔◌, ◌⊎◌, Contains};
ghost use Rattle.vub_base.specs.Causes.{HasCause};
ghost use Rattle.vub_base.specs.Sinks.{Writes};

use crate::{Failed, Memory, Sink};
use std::alloc::Global;
use std::marker::Model;

/// A sink in memory with room for so many bytes, whose calls of chosen numbers fail.
#[derive(Drop)]
pub struct MemSink {
    bytes: Vec<u8>,
    room: usize,
    call: u64,
    fails: Vec<u64>,
    faults: u64,
}

impl Model for MemSink {
    ghost use Rattle.std.specs.Prelude.{◌≡◌, ◌≤◌, vec_len, vec_capacity};
    ghost use Rattle.vub_base.specs.MemForms.{SinkState};

    ghost Value = { SinkState };

    ghost view = { λ s. record { held = s.bytes.items; room = s.room; call = s.call; fails = s.fails.items; faults = s.faults } };

    ghost invariant = { λ s. (vec_len s.bytes ≤ s.room) × (s.room ≤ vec_capacity s.bytes) };
}

impl MemSink {
    /// An empty sink with room for `room` bytes. The calls of `write` whose numbers, from 0, stand
    /// in `fails` fail, and so does a piece that doesn't fit.
    pub fn new(alloc: Global, room: usize, fails: Vec<u64>) -> Result<MemSink, Memory>
        ensures { IfOk result (λ s. s ≡ record { held = []; room = room; call = 0; fails = fails.items; faults = 0 }) }
    {
        let bytes = Vec::with_capacity(alloc, room).map_err(|_| Memory)?;
        Ok(MemSink {
            bytes,
            room,
            call: 0,
            fails,
            faults: 0,
        })
    }

    /// What it holds.
    pub fn bytes(&self) -> &[u8]
        ensures { result.now ≡ self.now.held }
    {
        &self.bytes
    }
}

impl Sink for MemSink {
    ghost use Rattle.vub_base.specs.MemForms.{failed_write, written};

    ghost held = { λ s. Some s.held };

    ghost faults = { λ s. s.faults };

    fn write(&mut self, piece: &[u8]) -> Result<(), Failed>
        ensures writes { Writes (Some self.old.held) (Some self.new.held) result piece.now }
        ensures cause { HasCause self.old.faults self.new.faults result }

        // A call fails exactly where its number is one of those chosen, or the piece doesn't fit.
        ensures fails { IsErr result ↔ (Contains self.old.fails self.old.call ⊎ (self.old.room < length self.old.held + length piece.now)) }
        ensures failed { OnErr result (self.new ≡ failed_write self.old) }
        ensures done { OnOk result (self.new ≡ written piece.now self.old) }
    {
        let call = self.call;
        self.call = self.call.saturating_add(1);
        if self.fails.contains(&call) || self.room - self.bytes.len() < piece.len() {
            self.faults = self.faults.saturating_add(1);
            return Err(Failed);
        }
        if self.bytes.extend_from_slice(piece).is_err() {
            unreachable!();
        }
        Ok(())
    }
}
