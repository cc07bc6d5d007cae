ghost use Rattle.std.specs.Prelude.{◌≡◌, ◌<◌, ◌++◌, ◌∷◌, [], length, IfOk};
ghost use Rattle.vub_base.specs.Pending.{sorted};

use crate::Memory;
use std::alloc::Global;
use std::marker::Model;

/// One open request.
#[derive(Clone, Copy, Debug, PartialEq, Eq)]
pub struct Pending {
    /// The head of its chain.
    pub head: u16,
    /// The counter of its acceptance.
    pub counter: u64,
    /// How many descriptors its chain has, 1 where the queue is split.
    pub num: u16,
}

/// A list of open requests with room for so many.
#[derive(Drop)]
pub struct PendingList {
    items: Vec<Pending>,
    room: usize,
}

impl Model for PendingList {
    ghost use Rattle.std.specs.Prelude.{◌≤◌, vec_len, vec_capacity};
    ghost use Rattle.vub_base.specs.Pending.{PendingState};

    ghost Value = { PendingState };

    ghost view = { λ s. record { items = s.items.items; room = s.room } };

    ghost invariant = { λ s. (vec_len s.items ≤ s.room) × (s.room ≤ vec_capacity s.items) };
}

impl PendingList {
    /// An empty list with room for `room` items.
    pub fn new(alloc: Global, room: usize) -> Result<PendingList, Memory>
        ensures { IfOk result (λ s. s ≡ record { items = []; room = room }) }
    {
        let items = Vec::with_capacity(alloc, room).map_err(|_| Memory)?;
        Ok(PendingList { items, room })
    }

    /// The items, in the order of the list.
    pub fn items(&self) -> &[Pending]
        ensures { result.now ≡ self.now.items }
    {
        &self.items
    }

    /// How many items it can have.
    pub fn room(&self) -> usize
        ensures { result ≡ self.now.room }
    {
        self.room
    }

    /// Takes all items out.
    pub fn clear(&mut self)
        ensures { self.new ≡ record self.old { items = [] } }
    {
        self.items.clear();
    }

    /// Appends the item. Takes no memory.
    pub fn push(&mut self, item: Pending)
        requires { length self.old.items < self.old.room }
        ensures { self.new ≡ record self.old { items = self.old.items ++ item ∷ [] } }
    {
        if self.items.push(item).is_err() {
            unreachable!();
        }
    }

    /// Puts the items in rising order of counter, those of equal counter in rising order of head,
    /// and those of equal head too in rising order of num. Takes no memory.
    pub fn sort(&mut self)
        ensures { self.new ≡ record self.old { items = sorted self.old.items } }
    {
        self.items
            .sort_unstable_by_key(|p| (p.counter, p.head, p.num));
    }
}
