//! A queue's outstanding requests: offered and not collected.
ghost use Rattle.std.specs.Prelude.{◌≡◌, ◌<◌, ◌≤◌, ◌+◌, ◌-◌, ◌^◌, ◌↔◌, ℕ, IfOk, IsTrue};
ghost use Rattle.vub_world.specs.OutstandingRequests.{reads_in};

use std::alloc::Global;
use vub_base::{Ask, Memory};

/// A request that was offered and not collected.
#[derive(Clone, Copy, Debug, PartialEq, Eq)]
pub struct OutstandingRequest {
    /// Which offer of its queue it is, from 0.
    pub number: u64,
    /// How many sectors it reads.
    pub reads: u16,
}

/// The outstanding requests of a queue, by head, and how many were offered and collected.
#[derive(Debug, Drop)]
pub struct OutstandingRequests {
    offered: u64,
    collected: u64,
    // By head.
    by_head: Vec<OutstandingRequest>,
}

/// No request.
const NONE: OutstandingRequest = OutstandingRequest {
    number: 0,
    reads: 0,
};

fn reads(ask: &Ask) -> u16
    ensures { result ≡ reads_in ask.now }
{
    match ask {
        Ask::Read { count, .. } => *count,
        Ask::Write { .. } | Ask::Flush | Ask::Id | Ask::Discard(_) | Ask::Zero(_) => 0,
    }
}

impl OutstandingRequests {
    ghost use Rattle.vub_world.specs.OutstandingRequests.{offered_in, collected_in, size_in, slot_in, Offers};

    /// Those of a queue of so many places: none.
    pub fn new(alloc: Global, size: u16) -> Result<OutstandingRequests, Memory>
        ensures offered { IfOk result (λ l. offered_in l ≡ 0) }
        ensures collected { IfOk result (λ l. collected_in l ≡ 0) }
        ensures size { IfOk result (λ l. size_in l ≡ size) }
    {
        Ok(OutstandingRequests {
            offered: 0,
            collected: 0,
            by_head: vec![in alloc; NONE; usize::from(size)].map_err(|_| Memory)?,
        })
    }

    /// Notes that the request was offered under a head.
    pub fn offer(&mut self, head: u16, ask: &Ask)
        requires more { offered_in self.old < 2 ^ 64 - 1 }
        requires place { head < size_in self.old }
        ensures { Offers self.old self.new head ask.now }
    {
        self.by_head[usize::from(head)] = OutstandingRequest {
            number: self.offered,
            reads: reads(ask),
        };
        self.offered += 1;
    }

    /// The request that was offered last under a head.
    pub fn at(&self, head: u16) -> OutstandingRequest
        requires { head < size_in self.now }
        ensures { result ≡ slot_in self.now head }
    {
        self.by_head[usize::from(head)]
    }

    /// Notes that a request was collected.
    pub fn collect(&mut self)
        requires some { collected_in self.old < offered_in self.old }
        ensures collected { collected_in self.new ≡ collected_in self.old + 1 }
        ensures offered { offered_in self.new ≡ offered_in self.old }
        ensures size { size_in self.new ≡ size_in self.old }
        ensures slots { (d : ℕ) → slot_in self.new d ≡ slot_in self.old d }
    {
        self.collected += 1;
    }

    /// Whether a number of 64 bits is left for a further request.
    pub fn has_number(&self) -> bool
        ensures { IsTrue result ↔ (offered_in self.now < 2 ^ 64 - 1) }
    {
        self.offered < u64::MAX
    }

    /// How many requests are offered and not collected.
    pub fn count(&self) -> u64
        requires { collected_in self.now ≤ offered_in self.now }
        ensures { result ≡ offered_in self.now - collected_in self.now }
    {
        self.offered - self.collected
    }
}
