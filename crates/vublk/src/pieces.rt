//! Output in pieces: a sink is called once for many records.
ghost use Rattle.std.specs.Prelude.{◌≡◌, ◌≤◌, ◌+◌, ◌++◌, [], length, vec_len, vec_capacity, IfOk, OnOk, OnErr};
ghost use Rattle.vub_base.specs.Causes.{HasCause};
ghost use Rattle.vublk.specs.Flows.{Wrote, WrotePart, WroteBut};

use std::alloc::Global;
use std::marker::Model;
use vub_base::{Failed, Memory, Sink};

/// The most bytes that wait.
const PIECE: usize = 65_536;

/// Bytes that wait until a piece is full: at most 65,536. Contracts see them as that list.
#[derive(Drop)]
pub struct Pieces {
    waiting: Vec<u8>,
}

impl Model for Pieces {
    ghost use Rattle.std.specs.Prelude.{◌≤◌, List, ℕ, vec_len, vec_capacity};

    ghost Value = { List ℕ };

    ghost view = { λ p. p.waiting.items };

    ghost invariant = { λ p. (vec_len p.waiting ≤ 65536) × (65536 ≤ vec_capacity p.waiting) };
}

/// Appends bytes for which there is room.
fn append(list: &mut Vec<u8>, bytes: &[u8])
    requires { vec_len list.old + length bytes.now ≤ vec_capacity list.old }
    ensures items { list.new.items ≡ list.old.items ++ bytes.now }
    ensures len { vec_len list.new ≡ vec_len list.old + length bytes.now }
    ensures room { vec_capacity list.old ≤ vec_capacity list.new }
{
    if list.extend_from_slice(bytes).is_err() {
        unreachable!();
    }
}

impl Pieces {
    /// Room for a piece, in which nothing waits.
    pub fn new(alloc: Global) -> Result<Pieces, Memory>
        ensures { IfOk result (λ p. p ≡ []) }
    {
        let waiting = Vec::with_capacity(alloc, PIECE).map_err(|_| Memory)?;
        Ok(Pieces { waiting })
    }

    /// Writes all that waits.
    pub fn flush<O: Sink>(&mut self, out: &mut O) -> Result<(), Failed>
        ensures ok { OnOk result (Wrote (O.held out.old) (O.held out.new) self.old) }
        ensures empty { OnOk result (self.new ≡ []) }
        ensures part { OnErr result (WrotePart (O.held out.old) (O.held out.new) self.old) }
        ensures cause { HasCause (O.faults out.old) (O.faults out.new) result }
    {
        if !self.waiting.is_empty() {
            out.write(&self.waiting)?;
            self.waiting.clear();
        }
        Ok(())
    }

    /// Adds a text to what waits. Where it doesn't fit, what waits is written before it, and a text
    /// that is longer than a piece is then written itself.
    pub fn put<O: Sink>(&mut self, out: &mut O, text: &[u8]) -> Result<(), Failed>
        ensures ok { OnOk result (WroteBut (O.held out.old) (O.held out.new) self.new (self.old ++ text.now)) }
        ensures part { OnErr result (WrotePart (O.held out.old) (O.held out.new) (self.old ++ text.now)) }
        ensures cause { HasCause (O.faults out.old) (O.faults out.new) result }
    {
        if text.len() <= PIECE - self.waiting.len() {
            append(&mut self.waiting, text);
            return Ok(());
        }
        self.flush(out)?;
        if text.len() > PIECE {
            return out.write(text);
        }
        append(&mut self.waiting, text);
        Ok(())
    }
}
