//! Memory that is kept from one event for the next.
ghost use Rattle.std.specs.Prelude.{◌≡◌, ◌≤◌, ◌+◌, [], All, IfOk, OnOk, length, vec_capacity};

use std::alloc::Global;
use std::marker::Model;
use std::mem;
use vub_base::Memory;
use vub_device::{Answered, Asked, Entry};
use vub_report::{Item, Items};

/// The bytes that a list has room for: eight sectors.
const LIST: usize = 4096;

/// The most lists that are spare: as many as the turns of one event can need (`Room::for_turns`),
/// with 64 requests that aren't collected and 71 turns besides.
pub const MOST_LISTS: usize = 1863;

/// Vectors that no record holds. Contracts see nothing of it.
#[derive(Drop)]
pub struct Spare {
    // At most `MOST_LISTS`, each empty, with room for eight sectors.
    lists: Vec<Vec<u8>>,
    // Empty.
    items: Vec<Item>,
}

impl Model for Spare {
    ghost use Rattle.std.specs.Prelude.{◌≡◌, ◌≤◌, [], All, length, vec_capacity, ⊤};

    ghost Value = { ⊤ };

    ghost view = { λ _. tt };

    ghost invariant = { λ s. All (λ l. (l.items ≡ []) × (4096 ≤ vec_capacity l)) s.lists.items × (length s.lists.items ≤ 1863) × (s.items.items ≡ []) };
}

fn add_list(alloc: Global, lists: &mut Vec<Vec<u8>>) -> Result<(), Memory>
    requires { All (λ l. (l.items ≡ []) × (4096 ≤ vec_capacity l)) lists.old.items }
    ensures count { OnOk result (length lists.new.items ≡ length lists.old.items + 1) }
    ensures room { OnOk result (All (λ l. (l.items ≡ []) × (4096 ≤ vec_capacity l)) lists.new.items) }
{
    let list = Vec::with_capacity(alloc, LIST).map_err(|_| Memory)?;
    lists.push(list).map_err(|_| Memory)?;
    Ok(())
}

impl Spare {
    /// No memory.
    pub fn new(alloc: Global) -> Spare {
        Spare {
            lists: Vec::new(alloc),
            items: Vec::new(alloc),
        }
    }

    /// An empty vector with room for so many items.
    pub fn take_items(&mut self, alloc: Global, count: usize) -> Result<Vec<Item>, Memory>
        ensures empty { IfOk result (λ v. v.items ≡ []) }
        ensures room { IfOk result (λ v. count ≤ vec_capacity v) }
    {
        let items = mem::replace(&mut self.items, Vec::new(alloc));
        if items.capacity() >= count {
            return Ok(items);
        }
        Vec::with_capacity(alloc, count).map_err(|_| Memory)
    }

    /// How many lists are spare.
    pub fn lists(&self) -> usize
        ensures { result ≤ MOST_LISTS }
    {
        self.lists.len()
    }

    /// At least so many lists of bytes, each empty, with room for eight sectors.
    pub fn take_lists(&mut self, alloc: Global, count: usize) -> Result<Vec<Vec<u8>>, Memory>
        requires { count ≤ MOST_LISTS }
        ensures count { IfOk result (λ v. count ≤ length v.items) }
        ensures few { IfOk result (λ v. length v.items ≤ MOST_LISTS) }
        ensures room { IfOk result (λ v. All (λ l. (l.items ≡ []) × (4096 ≤ vec_capacity l)) v.items) }
    {
        let mut lists = mem::replace(&mut self.lists, Vec::new(alloc));
        for _made in lists.len()..count {
            add_list(alloc, &mut lists)?;
        }
        Ok(lists)
    }

    /// Gives back lists that weren't used.
    pub fn give_lists(&mut self, lists: Vec<Vec<u8>>)
        requires room { All (λ l. (l.items ≡ []) × (4096 ≤ vec_capacity l)) lists.items }
        requires few { length lists.items ≤ MOST_LISTS }
    {
        self.lists = lists;
    }

    /// Takes what the items of a record hold.
    pub fn recycle(&mut self, items: Items) {
        let mut items = items.into_vec();
        while let Some(item) = items.pop() {
            self.keep_item(item);
        }
        if items.capacity() > self.items.capacity() {
            self.items = items;
        }
    }

    fn keep_item(&mut self, item: Item) {
        match item {
            Item::Store { bytes, .. } => self.keep_list(bytes.into_vec()),
            Item::Made(Entry::Offer(_, Asked::Write { bytes, .. })) => {
                self.keep_list(bytes.into_vec())
            }
            Item::Made(Entry::Publish(_, answers)) => self.keep_answers(answers.into_vec()),
            _ => {}
        }
    }

    fn keep_answers(&mut self, answers: Vec<Answered>) {
        let mut answers = answers;
        while let Some(answer) = answers.pop() {
            self.keep_list(answer.bytes.into_vec());
        }
    }

    /// Keeps a list that has room for eight sectors. It is let go where `MOST_LISTS` are kept already,
    /// or there is no memory to keep it in.
    fn keep_list(&mut self, list: Vec<u8>) {
        let is_full = self.lists.len() >= MOST_LISTS;
        if list.capacity() < LIST || is_full || self.lists.reserve(1).is_err() {
            return;
        }
        let mut list = list;
        list.clear();
        self.lists.push_reserved(list);
    }
}
