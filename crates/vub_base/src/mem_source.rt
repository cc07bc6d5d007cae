ghost use Rattle.std.specs.Prelude.{◌≡◌, ◌+◌, ◌<◌, ◌≤◌, [], ℕ, List, length, take, drop, Option, Some, IfOk, OnErr, OnOk, IsErr, ◌↔◌, Contains};
ghost use Rattle.vub_base.specs.Causes.{HasCause};
ghost use Rattle.vub_base.specs.Sources.{Reads};

use crate::{Failed, Source};
use std::marker::Model;

/// A source in memory, which gives at most so many bytes per call, and whose calls of chosen
/// numbers fail.
#[derive(Drop)]
pub struct MemSource {
    bytes: Vec<u8>,
    at: usize,
    piece: usize,
    call: u64,
    fails: Vec<u64>,
    faults: u64,
}

impl Model for MemSource {
    ghost use Rattle.std.specs.Prelude.{◌<◌, ◌≤◌, length, drop};
    ghost use Rattle.vub_base.specs.MemForms.{SourceState};

    ghost Value = { SourceState };

    ghost view = { λ s. record { left = drop s.at s.bytes.items; piece = s.piece; call = s.call; fails = s.fails.items; faults = s.faults } };

    ghost invariant = { λ s. (s.at ≤ length s.bytes.items) × (0 < s.piece) };
}

impl MemSource {
    /// A source of these bytes that gives at most `piece` bytes per call. The calls of `read` whose
    /// numbers, from 0, stand in `fails` fail.
    pub fn new(bytes: Vec<u8>, piece: usize, fails: Vec<u64>) -> MemSource
        requires { 0 < piece }
        ensures { result ≡ record { left = bytes.items; piece = piece; call = 0; fails = fails.items; faults = 0 } }
    {
        MemSource {
            bytes,
            at: 0,
            piece,
            call: 0,
            fails,
            faults: 0,
        }
    }
}

impl Source for MemSource {
    ghost use Rattle.vub_base.specs.MemForms.{next_count, given, failed_read, read_of};

    ghost left = { λ s. Some s.left };

    ghost faults = { λ s. s.faults };

    fn read(&mut self, into: &mut [u8]) -> Result<usize, Failed>
        ensures within { IfOk result (λ n. n ≤ length into.new) }
        ensures reads { Reads (Some self.old.left) (Some self.new.left) result into.new }
        ensures cause { HasCause self.old.faults self.new.faults result }

        // A call fails exactly where its number is one of those chosen.
        ensures fails { IsErr result ↔ Contains self.old.fails self.old.call }
        ensures failed { OnErr result (self.new ≡ failed_read self.old) }
        ensures number { IfOk result (λ n. n ≡ given self.old (length into.old)) }
        ensures done { IfOk result (λ n. self.new ≡ read_of n self.old) }
    {
        let call = self.call;
        self.call = self.call.saturating_add(1);
        if self.fails.contains(&call) {
            self.faults = self.faults.saturating_add(1);
            return Err(Failed);
        }
        let rest = &self.bytes[self.at..];
        let count = rest.len().min(into.len()).min(self.piece);
        into[..count].copy_from_slice(&rest[..count]);
        self.at += count;
        Ok(count)
    }
}
