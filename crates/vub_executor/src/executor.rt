//! Requests that are accepted and not answered.
ghost use Rattle.std.specs.Prelude.{◌≡◌, ◌≢◌, ◌<◌, ◌≤◌, ◌+◌, ◌++◌, ◌∷◌, [], ℕ, All, length, IsSome, Some, None, IfOk, IfSome, IfNone, option_map, slice_get, position};
ghost use Rattle.std.specs.Borrow.{sem};
ghost use Rattle.std.specs.VecDeque.{deque_len, deque_capacity};
ghost use Rattle.slab.specs.Slab.{get, slab_len};
ghost use Rattle.vub_executor.specs.Executors.{IsRising, key_of, has_key, without};

use crate::key_queue::KeyQueue;
use slab::Slab;
use std::alloc::Global;
use std::collections::VecDeque;
use std::marker::Model;
use vub_base::Memory;

/// A request that isn't finished: where it stands in the order of acceptance, and the key of its
/// item.
#[derive(Clone, Copy, Debug, PartialEq, Eq)]
pub struct Unfinished {
    pub order: u64,
    pub key: usize,
}

/// The items of requests that are accepted and not answered. An item keeps its key from `add` until
/// `remove_first` takes it.
#[derive(Drop)]
pub struct Executor<T> {
    items: Slab<T>,
    unfinished: VecDeque<Unfinished>,
    finished: KeyQueue,
    room: usize,
}

impl<T> Model for Executor<T> {
    ghost use Rattle.vub_executor.specs.Lists.{Lists};

    ghost Value = { Lists T };

    ghost use Rattle.vub_executor.specs.Sound.{lists_in, IsSound};

    ghost view = { lists_in };

    ghost invariant = { IsSound };
}

/// The place of the first request with a key. Takes as many steps as stand before it.
fn place_of(unfinished: &VecDeque<Unfinished>, key: usize) -> Option<usize>
    ensures { result ≡ position (has_key key) unfinished.now.items }
{
    unfinished.iter().position(|request| request.key == key)
}

impl<T> Executor<T> {
    ghost use Rattle.vub_executor.specs.Lending.{lends_item};
    ghost use Rattle.vub_executor.specs.Lists.{item_of, OthersKept, TakesFirst, StandOnce};

    /// An executor without items, with room for so many. All memory is taken here.
    pub fn new(alloc: Global, room: usize) -> Result<Executor<T>, Memory>
        ensures unfinished { IfOk result (λ e. e.unfinished ≡ []) }
        ensures finished { IfOk result (λ e. e.finished ≡ []) }
        ensures items { IfOk result (λ e. (key : ℕ) → item_of e key ≡ None) }
        ensures room { IfOk result (λ e. e.room ≡ room) }
    {
        let unfinished = VecDeque::with_capacity(alloc, room).map_err(|_| Memory)?;
        let finished = KeyQueue::new(alloc, room)?;
        let items = Slab::with_capacity(alloc, room).map_err(|_| Memory)?;
        Ok(Executor {
            items,
            unfinished,
            finished,
            room,
        })
    }

    /// Adds an unfinished item behind all others, and answers its key. `order` is above that of every
    /// other unfinished item. Takes constant time.
    pub fn add(&mut self, order: u64, item: T) -> usize
        requires room { length self.old.unfinished + length self.old.finished < self.old.room }
        requires rising { All (λ u. u.order < order) self.old.unfinished }
        ensures vacant { item_of self.old result ≡ None }
        ensures unfinished { self.new.unfinished ≡ self.old.unfinished ++ record { order = order; key = result } ∷ [] }
        ensures finished { self.new.finished ≡ self.old.finished }
        ensures item { item_of self.new result ≡ Some item }
        ensures others { OthersKept self.old self.new result }
        ensures room { self.new.room ≡ self.old.room }
    {
        let key = self.items.insert_reserved(item);
        self.unfinished
            .push_back_reserved(Unfinished { order, key });
        key
    }

    /// The key of the unfinished item in a place, from 0, of the order of acceptance, if so many are
    /// there. Takes constant time.
    pub fn nth(&self, place: usize) -> Option<usize>
        ensures key { result ≡ option_map key_of (slice_get self.now.unfinished place) }
        ensures item { IfSome result (λ key. IsSome (item_of self.now key)) }
        ensures unfinished { IfSome result (λ key. IsSome (position (has_key key) self.now.unfinished)) }
        ensures rising { IsRising self.now.unfinished }
    {
        Some(self.unfinished.get(place)?.key)
    }

    /// Moves an unfinished item to the end of the finished ones, under its key. Takes as many steps as
    /// unfinished items stand before it.
    pub fn finish(&mut self, key: usize)
        requires { IsSome (position (has_key key) self.old.unfinished) }
        ensures unfinished { self.new.unfinished ≡ without key self.old.unfinished }
        ensures finished { self.new.finished ≡ self.old.finished ++ key ∷ [] }
        ensures items { (k : ℕ) → item_of self.new k ≡ item_of self.old k }
        ensures room { self.new.room ≡ self.old.room }
    {
        let Some(place) = place_of(&self.unfinished, key) else {
            unreachable!()
        };
        self.unfinished.remove(place);
        self.finished.push(key);
    }

    /// The item with a key. Takes constant time.
    pub fn item(&mut self, key: usize) -> &mut T
        requires { IsSome (item_of self.old key) }
        ensures* writes_back { sem 𝓛 (lends_item T.row self.entry key result) }
        ensures value { item_of self.old key ≡ Some result.now }
    {
        &mut self.items[key]
    }

    /// The keys of the finished items, in the order of completion. Takes constant time.
    pub fn finished(&self) -> &[usize]
        ensures keys { result.now ≡ self.now.finished }
        ensures items { All (λ key. IsSome (item_of self.now key)) self.now.finished }
        ensures once { StandOnce self.now }
    {
        self.finished.items()
    }

    /// Takes out the first finished item, if there is one; its key may be given again. Takes constant
    /// time.
    pub fn remove_first(&mut self) -> Option<T>
        ensures first { IfSome result (TakesFirst self.old self.new) }
        ensures unfinished { self.new.unfinished ≡ self.old.unfinished }
        ensures none { IfNone result (self.old.finished ≡ []) }
        ensures unchanged { IfNone result (self.new ≡ self.old) }
        ensures room { self.new.room ≡ self.old.room }
    {
        let key = self.finished.pop_first()?;
        Some(self.items.remove(key))
    }
}
