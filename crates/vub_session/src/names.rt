ghost use Rattle.std.specs.Prelude.{◌≡◌, ◌<◌, [], length, map, drop, Some, IfNone, IfSome, slice_get, string_bytes};

use std::marker::Model;

/// The names of the spaces and calls that messages bring along, in order. Contracts see it as the list
/// of the names that are left.
#[derive(Debug, Drop)]
pub struct Names {
    list: Vec<String>,
    next: usize,
}

impl Model for Names {
    ghost use Rattle.std.specs.Prelude.{ℕ, List, ◌≤◌, map, drop, string_bytes, vec_len};

    ghost Value = { List (List ℕ) };

    ghost view = { λ n. drop n.next (map string_bytes n.list.items) };

    ghost invariant = { λ n. n.next ≤ vec_len n.list };
}

impl Names {
    ghost use Rattle.std.specs.Borrow.{sem};
    ghost use Rattle.vub_session.specs.Lends.{LeavesRest};

    /// All names of a list. Takes no memory.
    pub fn new(list: Vec<String>) -> Names
        ensures { result ≡ map string_bytes list.items }
    {
        Names { list, next: 0 }
    }

    /// How many are left.
    pub fn left(&self) -> usize
        ensures { result ≡ length self.now }
    {
        self.list.len() - self.next
    }

    /// The name that comes after so many others.
    pub fn at(&self, index: usize) -> &str
        requires { index < length self.now }
        ensures { slice_get self.now index ≡ Some result.now }
    {
        self.list[self.next + index].as_str()
    }

    /// Takes the next name. None comes exactly where none is left, and then nothing changes.
    pub fn take(&mut self) -> Option<&str>
        ensures none { IfNone result (self.old ≡ []) }
        ensures first { IfSome result (λ name. slice_get self.old 0 ≡ Some name.now) }
        ensures* rest { sem 𝓛 (LeavesRest self.entry) }
    {
        let place = self.next;
        if place == self.list.len() {
            return None;
        }
        self.next = place + 1;
        Some(self.list[place].as_str())
    }

    /// Takes so many names, or all that are left.
    pub fn skip(&mut self, count: usize)
        ensures { self.new ≡ drop count self.old }
    {
        let left = self.list.len() - self.next;
        self.next += if count < left { count } else { left };
    }
}
