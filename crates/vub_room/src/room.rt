//! Memory that is reserved for the items of an event before it changes anything.
ghost use Rattle.std.specs.Prelude.{◌≡◌, ◌<◌, ◌≤◌, ◌+◌, ◌-◌, ◌*◌, ◌++◌, ◌∷◌, [], All, IfOk, OnOk, length, min, replicate, flat_map, vec_len, vec_capacity};

use crate::spare::{MOST_LISTS, Spare};
use std::alloc::Global;
use std::marker::Model;
use std::mem;
use vub_base::standard::SECTOR_SIZE;
use vub_base::{Bytes, Memory};
use vub_device::Answered;
use vub_report::{Item, Items};

/// The most turns that a request takes from its offer to the end of its publication.
const TURNS_OF_REQUEST: u64 = 27;

/// Items so far, with room for so many more, for so many lists of bytes of eight sectors, for so many
/// lists of answers, and for a list of numbers.
#[derive(Drop)]
pub struct Room {
    alloc: Global,
    items: Vec<Item>,
    item_room: usize,
    // At most `MOST_LISTS`, each empty, with room for eight sectors; there may be more than may be used.
    lists: Vec<Vec<u8>>,
    list_room: usize,
    // Each empty, with room for so many answers.
    answer_lists: Vec<Vec<Answered>>,
    answers: usize,
    // Empty, with room for so many numbers.
    numbers: Vec<u64>,
    number_room: usize,
}

impl Model for Room {
    ghost use Rattle.std.specs.Prelude.{◌≡◌, ◌≤◌, ◌+◌, [], All, length, vec_len, vec_capacity};
    ghost use Rattle.vub_room.specs.Rooms.{RoomState};

    ghost Value = { RoomState };

    ghost view = { λ r. record { items = r.items.items; item_room = r.item_room; lists = r.list_room; answer_lists = length r.answer_lists.items; answers = r.answers; numbers = r.number_room } };

    ghost invariant = { λ r. (vec_len r.items + r.item_room ≤ vec_capacity r.items) × (r.list_room ≤ length r.lists.items) × (length r.lists.items ≤ 1863) × All (λ l. (l.items ≡ []) × (4096 ≤ vec_capacity l)) r.lists.items × All (λ l. (l.items ≡ []) × (r.answers ≤ vec_capacity l)) r.answer_lists.items × (r.numbers.items ≡ []) × (r.number_room ≤ vec_capacity r.numbers) };
}

/// So many lists of answers, each with room for so many.
fn answer_lists(alloc: Global, count: usize, answers: usize) -> Result<Vec<Vec<Answered>>, Memory>
    ensures count { IfOk result (λ v. length v.items ≡ count) }
    ensures room { IfOk result (λ v. All (λ l. (l.items ≡ []) × (answers ≤ vec_capacity l)) v.items) }
{
    let mut lists = Vec::with_capacity(alloc, count).map_err(|_| Memory)?;
    for _made in 0..count {
        add_answer_list(alloc, answers, &mut lists)?;
    }
    Ok(lists)
}

fn add_answer_list(
    alloc: Global,
    answers: usize,
    lists: &mut Vec<Vec<Answered>>,
) -> Result<(), Memory>
    requires { All (λ l. (l.items ≡ []) × (answers ≤ vec_capacity l)) lists.old.items }
    ensures count { OnOk result (length lists.new.items ≡ length lists.old.items + 1) }
    ensures room { OnOk result (All (λ l. (l.items ≡ []) × (answers ≤ vec_capacity l)) lists.new.items) }
{
    let list = Vec::with_capacity(alloc, answers).map_err(|_| Memory)?;
    lists.push(list).map_err(|_| Memory)?;
    Ok(())
}

impl Room {
    ghost use Rattle.vub_room.specs.Rooms.{HasRoom};

    /// Room for so many items, lists of bytes, at most `MOST_LISTS` of them, lists of so many answers,
    /// and a list of so many numbers. It takes what is spare.
    pub fn new(
        alloc: Global,
        spare: &mut Spare,
        items: usize,
        lists: usize,
        answer_lists: usize,
        answers: usize,
        numbers: usize,
    ) -> Result<Room, Memory>
        requires { lists ≤ MOST_LISTS }
        ensures { IfOk result (λ r. r ≡ record { items = []; item_room = items; lists = lists; answer_lists = answer_lists; answers = answers; numbers = numbers }) }
    {
        Ok(Room {
            alloc,
            items: spare.take_items(alloc, items)?,
            item_room: items,
            lists: spare.take_lists(alloc, lists)?,
            list_room: lists,
            answer_lists: self::answer_lists(alloc, answer_lists, answers)?,
            answers,
            numbers: Vec::with_capacity(alloc, numbers).map_err(|_| Memory)?,
            number_room: numbers,
        })
    }

    /// Room for so many items that have no bytes.
    pub fn of_items(alloc: Global, items: usize) -> Result<Room, Memory>
        ensures { IfOk result (λ r. r ≡ record { items = []; item_room = items; lists = 0; answer_lists = 0; answers = 0; numbers = 0 }) }
    {
        Ok(Room {
            alloc,
            items: Vec::with_capacity(alloc, items).map_err(|_| Memory)?,
            item_room: items,
            lists: Vec::new(alloc),
            list_room: 0,
            answer_lists: Vec::new(alloc),
            answers: 0,
            numbers: Vec::new(alloc),
            number_room: 0,
        })
    }

    /// Room for the items of so many turns, or of all that can follow one another where so many
    /// requests are offered and not collected: at most 27 for each of these, and so many besides. A turn
    /// has two items at most and one list of bytes; each answer takes a list more. One of them can start
    /// the queue, and lists the open ones of these.
    pub fn for_turns(
        alloc: Global,
        spare: &mut Spare,
        turns: u64,
        undone: u64,
        besides: u64,
    ) -> Result<Room, Memory>
        requires few { undone ≤ 64 }
        requires few_besides { besides ≤ 71 }
        ensures empty { IfOk result (λ r. r.items ≡ []) }
        ensures room { IfOk result (HasRoom (min turns (27 * undone + besides)) undone) }
        ensures numbers { IfOk result (λ r. undone ≤ r.numbers) }
    {
        let turns = turns.min(TURNS_OF_REQUEST * undone + besides) as usize;
        let undone = undone as usize;
        let answer_lists = turns.min(undone + 1);
        Room::new(
            alloc,
            spare,
            2 * turns,
            turns + undone,
            answer_lists,
            undone,
            undone,
        )
    }

    /// A list of bytes that has room for eight sectors.
    fn list(&mut self) -> Vec<u8>
        requires { 1 ≤ self.old.lists }
        ensures empty { result.items ≡ [] }
        ensures room { 4096 ≤ vec_capacity result }
        ensures spent { self.new ≡ record self.old { lists = self.old.lists - 1 } }
    {
        self.list_room -= 1;
        match self.lists.pop() {
            Some(list) => list,
            None => unreachable!(),
        }
    }

    /// The same bytes, of eight sectors at most. Takes no memory.
    pub fn copy(&mut self, bytes: &[u8]) -> Bytes
        requires some { 1 ≤ self.old.lists }
        requires few { length bytes.now ≤ 4096 }
        ensures bytes { result ≡ bytes.now }
        ensures spent { self.new ≡ record self.old { lists = self.old.lists - 1 } }
    {
        if bytes.is_empty() {
            self.list_room -= 1;
            return Bytes::new(Vec::new(self.alloc));
        }
        let mut list = self.list();
        append(&mut list, bytes);
        Bytes::new(list)
    }

    /// A sector for each of these bytes, filled with it. Takes no memory.
    pub fn filled(&mut self, fills: &[u8]) -> Bytes
        requires lists { 1 ≤ self.old.lists }
        requires few { length fills.now ≤ 8 }
        ensures bytes { result ≡ flat_map (λ b. replicate 512 b) fills.now }
        ensures spent { self.new ≡ record self.old { lists = self.old.lists - 1 } }
    {
        let mut list = self.list();
        for fill in fills {
            append(&mut list, &[*fill; SECTOR_SIZE]);
        }
        Bytes::new(list)
    }

    /// A list of answers that is empty.
    pub fn answers(&mut self) -> Vec<Answered>
        requires { 1 ≤ self.old.answer_lists }
        ensures empty { result.items ≡ [] }
        ensures room { self.old.answers ≤ vec_capacity result }
        ensures spent { self.new ≡ record self.old { answer_lists = self.old.answer_lists - 1 } }
    {
        match self.answer_lists.pop() {
            Some(list) => list,
            None => unreachable!(),
        }
    }

    /// The list of numbers, which is empty. There is room for no further one.
    pub fn numbers(&mut self) -> Vec<u64>
        ensures empty { result.items ≡ [] }
        ensures room { self.old.numbers ≤ vec_capacity result }
        ensures spent { self.new ≡ record self.old { numbers = 0 } }
    {
        self.number_room = 0;
        mem::replace(&mut self.numbers, Vec::new(self.alloc))
    }

    /// Notes an item. Takes no memory.
    pub fn note(&mut self, item: Item)
        requires { 1 ≤ self.old.item_room }
        ensures { self.new ≡ record self.old { items = self.old.items ++ item ∷ []; item_room = self.old.item_room - 1 } }
    {
        self.items.push_reserved(item);
        self.item_room -= 1;
    }

    /// The items, in the order in which they were noted.
    pub fn into_items(self) -> Items
        ensures { result ≡ self.items }
    {
        Items::new(self.items)
    }

    /// The same, and what is left is spare.
    pub fn finish(self, spare: &mut Spare) -> Items
        ensures { result ≡ self.items }
    {
        spare.give_lists(self.lists);
        Items::new(self.items)
    }
}

/// Appends bytes for which there is room.
fn append(list: &mut Vec<u8>, bytes: &[u8])
    requires { vec_len list.old + length bytes.now ≤ vec_capacity list.old }
    ensures items { list.new.items ≡ list.old.items ++ bytes.now }
    ensures room { vec_capacity list.old ≤ vec_capacity list.new }
{
    if list.extend_from_slice(bytes).is_err() {
        unreachable!();
    }
}
