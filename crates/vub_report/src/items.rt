ghost use Rattle.std.specs.Prelude.{◌≡◌};

use std::marker::Model;
use vub_base::{Area, Bytes, Tag};
use vub_device::Entry;
use vub_schedule::Event;

/// What came about in an event: one line of its record.
#[derive(Debug, Drop)]
pub enum Item {
    /// A store of these bytes from `place` on, in bytes from the start of the area.
    Store {
        tag: Tag,
        area: Area,
        place: u64,
        bytes: Bytes,
    },
    /// An entry of the history, made by the store or the disk call before it.
    Made(Entry),
    /// The bell of this queue was rung.
    Bell(u16),
    /// Nothing: the event wasn't ready.
    Idle,
}

/// A list of items. Contracts see it as that list.
#[derive(Debug, Drop)]
pub struct Items {
    list: Vec<Item>,
}

impl Model for Items {
    ghost use Rattle.std.specs.Prelude.{List};
    ghost use Rattle.vub_report.specs.declared.items.Item.{Item};

    ghost Value = { List Item };

    ghost view = { λ i. i.list.items };
}

impl Items {
    /// The items of a vector. Takes no memory.
    pub fn new(list: Vec<Item>) -> Items
        ensures { result ≡ list.items }
    {
        Items { list }
    }

    /// The items, in the order in which they came about.
    pub fn list(&self) -> &[Item]
        ensures { result.now ≡ self.now }
    {
        &self.list
    }

    /// The vector of the items.
    pub fn into_vec(self) -> Vec<Item>
        ensures { result.items ≡ self }
    {
        self.list
    }
}

/// An event of a schedule with what came about in it.
#[derive(Debug, Drop)]
pub struct Record {
    pub event: Event,
    pub items: Items,
}
