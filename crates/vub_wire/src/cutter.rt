ghost use Rattle.std.specs.Prelude.{◌≡◌, ◌≤◌, ◌+◌, length, drop, vec_len, vec_capacity, IfOk, OnErr};
ghost use Rattle.std.specs.Result.{result_err};
ghost use Rattle.vub_wire.specs.Faults.{message_fault};
ghost use Rattle.vub_wire.specs.Streams.{fresh, fed, GoesOut};

use crate::numbers::CUTTER_CAPACITY;
use crate::{Header, Message, WireFault, read_message};
use std::alloc::Global;
use std::marker::Model;
use vub_base::Memory;

/// The bytes that are reserved: twice as many, so that no byte is moved more than once.
const RESERVED: usize = 2 * CUTTER_CAPACITY;

/// Finds the messages of a stream that comes in pieces.
///
/// It holds up to 8,216 bytes that were fed and aren't in messages handed out. Its buffer is twice as
/// large: the bytes of messages handed out stay where they are, before those held, and the latter are
/// moved to the front of the buffer only when a piece doesn't fit behind them. Then they begin past
/// the middle of the buffer, and will do so again only once all that were moved are handed out. So a
/// byte is moved at most once, and none is moved for a message that is handed out.
#[derive(Drop)]
pub struct Cutter {
    bytes: Vec<u8>,
    start: usize,
    taken: u64,
}

impl Model for Cutter {
    ghost use Rattle.std.specs.Prelude.{◌≤◌, ◌+◌, drop, vec_len, vec_capacity};
    ghost use Rattle.vub_wire.specs.Streams.{Held};
    ghost use Rattle.vub_wire.specs.declared.numbers.TheConstants.{CUTTER_CAPACITY};
    ghost use Rattle.vub_wire.specs.declared.cutter.TheConstants.{RESERVED};

    ghost Value = { Held };

    ghost view = { λ c. record { held = drop c.start c.bytes.items; taken = c.taken } };

    ghost invariant = { λ c. (c.start ≤ vec_len c.bytes) × (vec_len c.bytes ≤ c.start + CUTTER_CAPACITY) × (RESERVED ≤ vec_capacity c.bytes) };
}

/// Moves the bytes from a place on to the front, in place of those before them.
fn drop_front(bytes: &mut Vec<u8>, start: usize)
    requires { start ≤ vec_len bytes.old }
    ensures items { bytes.new.items ≡ drop start bytes.old.items }
    ensures len { vec_len bytes.new + start ≡ vec_len bytes.old }
    ensures capacity { vec_capacity bytes.new ≡ vec_capacity bytes.old }
{
    let held = bytes.len() - start;
    bytes.copy_within(start.., 0);
    bytes.truncate(held);
}

impl Cutter {
    /// A cutter that holds nothing.
    pub fn new(alloc: Global) -> Result<Cutter, Memory>
        ensures { IfOk result (λ c. c ≡ fresh) }
    {
        let bytes = Vec::with_capacity(alloc, RESERVED).map_err(|_| Memory)?;
        Ok(Cutter {
            bytes,
            start: 0,
            taken: 0,
        })
    }

    /// How many bytes may be fed: 8,216 less those that are held.
    pub fn room(&self) -> usize
        ensures { result + length self.now.held ≡ CUTTER_CAPACITY }
    {
        CUTTER_CAPACITY - (self.bytes.len() - self.start)
    }

    /// How many bytes the messages handed out have. Stands at the greatest number of its type.
    pub fn taken(&self) -> u64
        ensures { result ≡ self.now.taken }
    {
        self.taken
    }

    /// Takes the next piece of the stream. Takes no memory.
    pub fn feed(&mut self, piece: &[u8])
        requires { length self.old.held + length piece.now ≤ CUTTER_CAPACITY }
        ensures { self.new ≡ fed piece.now self.old }
    {
        if self.bytes.len() + piece.len() > RESERVED {
            drop_front(&mut self.bytes, self.start);
            self.start = 0;
        }
        if self.bytes.extend_from_slice(piece).is_err() {
            unreachable!();
        }
    }

    /// Hands out the message at the front of the bytes held. A fault changes nothing; one other than
    /// `NeedMore` is answered again by each later call. Takes no memory.
    pub fn next(&mut self) -> Result<(Header, Message), WireFault>
        ensures message { IfOk result (λ x. GoesOut self.old x self.new) }
        // The first fault that applies is the answer, and there is none where a message goes out.
        ensures fault { result_err result ≡ message_fault self.old.held }
        ensures unchanged { OnErr result (self.new ≡ self.old) }
    {
        let (header, message, length) = read_message(&self.bytes[self.start..])?;
        self.start += length;
        self.taken = self.taken.saturating_add(length as u64);
        Ok((header, message))
    }
}
