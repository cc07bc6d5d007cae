//! The bell of a world.
ghost use Rattle.std.specs.Prelude.{◌≡◌, ◌<◌, [], length};

use arrayvec::ArrayVec;
use vub_base::{Bell, Failed};

/// The calls of a world's queues, all of which count as attached. It lists the queues rung in a room
/// for two: while it lists fewer, no call of it has failed. A third ring is refused.
#[derive(Drop)]
pub struct WatchedBell {
    rung: ArrayVec<u16, 2>,
    refused: u64,
    ghost unrefused: { length rung.items < 2 → refused ≡ 0 },
}

impl WatchedBell {
    ghost use Rattle.vub_world.specs.Bells.{rung_in, faults_in};

    /// A bell that wasn't rung.
    pub fn new() -> WatchedBell
        ensures rung { rung_in result ≡ [] }
        ensures faults { faults_in result ≡ 0 }
    {
        WatchedBell {
            rung: ArrayVec::new(),
            refused: 0,
        }
    }

    /// The queues rung, in order.
    pub fn rung(&self) -> &[u16]
        ensures { result.now ≡ rung_in self.now }
    {
        self.rung.as_slice()
    }
}

impl Bell for WatchedBell {
    ghost use Rattle.std.specs.Prelude.{◌≡◌, ◌≤◌, ◌↔◌, Some, IsOk, IsErr, length};
    ghost use Rattle.vub_base.specs.Bells.{Attaches, Rings};
    ghost use Rattle.vub_base.specs.Causes.{HasCause};
    ghost use Rattle.vub_world.specs.Bells.{bell_in, rung_in, faults_in};

    ghost told = { λ b. Some (bell_in b) };

    ghost faults = { λ b. faults_in b };

    fn attach(&mut self, queue: u16, _name: &str) -> Result<(), Failed>
        ensures attaches { Attaches (Some (bell_in self.old)) (Some (bell_in self.new)) result queue }
        ensures cause { HasCause (faults_in self.old) (faults_in self.new) result }
        ensures succeeds { IsOk result }
        ensures kept { self.new ≡ self.old }
    {
        Ok(())
    }

    fn ring(&mut self, queue: u16) -> Result<(), Failed>
        ensures rings { Rings (Some (bell_in self.old)) (Some (bell_in self.new)) result queue }
        ensures cause { HasCause (faults_in self.old) (faults_in self.new) result }
        ensures fails { IsErr result ↔ (2 ≤ length (rung_in self.old)) }
    {
        if self.rung.is_full() {
            self.refused = self.refused.saturating_add(1);
            return Err(Failed);
        }
        self.rung.push(queue);
        Ok(())
    }
}
