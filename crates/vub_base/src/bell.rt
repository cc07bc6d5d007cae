ghost use Rattle.std.specs.Prelude.{ℕ, Option};
ghost use Rattle.vub_base.specs.Causes.{HasCause};
ghost use Rattle.vub_base.specs.Bells.{BellState, Attaches, Rings};

use crate::Failed;

/// The calls of the queues: how the guest is told that a batch was published.
pub trait Bell {
    /// The queues rung and the attached ones, where they are told.
    ghost told: { Self → Option BellState };

    /// How often a call has failed.
    ghost faults: { Self → ℕ };

    /// Attaches the queue to the call of that name, in the place of an earlier one.
    fn attach(&mut self, queue: u16, name: &str) -> Result<(), Failed>
        ensures attaches { Attaches (told self.old) (told self.new) result queue }
        ensures cause { HasCause (faults self.old) (faults self.new) result };

    /// Rings the call of the queue. On a queue that was never attached it does nothing and
    /// succeeds.
    fn ring(&mut self, queue: u16) -> Result<(), Failed>
        ensures rings { Rings (told self.old) (told self.new) result queue }
        ensures cause { HasCause (faults self.old) (faults self.new) result };
}
