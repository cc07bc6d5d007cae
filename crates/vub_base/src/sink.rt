ghost use Rattle.std.specs.Prelude.{ℕ, List, Option};
ghost use Rattle.vub_base.specs.Causes.{HasCause};
ghost use Rattle.vub_base.specs.Sinks.{Writes};

use crate::Failed;

/// Bytes that go out.
pub trait Sink {
    /// What it holds, where it is told.
    ghost held: { Self → Option (List ℕ) };

    /// How often a call has failed.
    ghost faults: { Self → ℕ };

    /// Appends the whole piece. A write that fails has appended a front of it.
    fn write(&mut self, piece: &[u8]) -> Result<(), Failed>
        ensures writes { Writes (held self.old) (held self.new) result piece.now }
        ensures cause { HasCause (faults self.old) (faults self.new) result };
}
