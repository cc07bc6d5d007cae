ghost use Rattle.std.specs.Prelude.{ℕ, List, ◌≤◌, length, IfOk, Option};
ghost use Rattle.vub_base.specs.Causes.{HasCause};
ghost use Rattle.vub_base.specs.Sources.{Reads};

use crate::Failed;

/// Bytes that come in.
pub trait Source {
    /// What is left, where it is told.
    ghost left: { Self → Option (List ℕ) };

    /// How often a call has failed.
    ghost faults: { Self → ℕ };

    /// Places the first bytes of what is left at the front of `into`, takes them off, and answers
    /// their number. 0 for an `into` that isn't empty is the end of the input. What a failed read,
    /// or one that gave fewer bytes, leaves in the rest of `into` is open.
    fn read(&mut self, into: &mut [u8]) -> Result<usize, Failed>
        ensures within { IfOk result (λ n. n ≤ length into.new) }
        ensures reads { Reads (left self.old) (left self.new) result into.new }
        ensures cause { HasCause (faults self.old) (faults self.new) result };
}
