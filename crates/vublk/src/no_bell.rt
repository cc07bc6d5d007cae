ghost use Rattle.std.specs.Prelude.{None};

use vub_base::{Bell, Failed};

/// A bell that rings nowhere. Its calls never fail.
#[derive(Clone, Copy, Debug)]
pub struct NoBell;

impl Bell for NoBell {
    ghost told = { λ _. None };

    ghost faults = { λ _. 0 };

    fn attach(&mut self, _queue: u16, _name: &str) -> Result<(), Failed> {
        Ok(())
    }

    fn ring(&mut self, _queue: u16) -> Result<(), Failed> {
        Ok(())
    }
}
