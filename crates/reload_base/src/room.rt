ghost use Rattle.std.specs.Prelude.{◌≡◌, ◌+◌, ◌<◌, ◌≤◌, ◌∷◌, [], ◌++◌, length, slice_set, insert, IsOk, OnOk, OnErr, MatchResult};

use crate::list::List;
use crate::no_memory::NoMemory;
use std::alloc::Global;
use std::marker::Model;

/// A list with memory set aside for further items. Contracts see the list, and beside it the number
/// of items for which memory is surely there.
#[derive(Debug, Drop)]
pub struct Room<T> {
    items: Vec<T>,
}

impl<T> Model for Room<T> {
    ghost use Rattle.std.specs.Prelude.{List, ℕ, ◌-◌};
    ghost use Rattle.std.specs.Prelude.{vec_len, vec_capacity};
    ghost use Rattle.std.specs.Coded.{coded_list, coded×, coded_ℕ};

    ghost Value = { List T × ℕ };

    ghost coded = { coded× (coded_list T.code) coded_ℕ };

    ghost view = { λ r. (r.items.items, vec_capacity r.items - vec_len r.items) };
}

impl<T: Drop> Room<T> {
    /// Sets memory aside for `n` more items of a list. The `Err` hands the list back as it was.
    pub fn new(list: List<T>, n: usize) -> Result<Room<T>, List<T>>
        ensures { MatchResult result (λ room. (room.0 ≡ list) × (n ≤ room.1))
            (λ back. back ≡ list) }
    {
        let mut items = list.into_vec();
        match items.reserve(n) {
            Ok(()) => Ok(Room { items }),
            Err(_) => Err(List::from_vec(items)),
        }
    }

    /// Adds an item at the end, which can't fail where memory was set aside. It takes at most one
    /// of it.
    pub fn push(&mut self, item: T) -> Result<(), NoMemory>
        ensures ok { OnOk result (self.new.0 ≡ self.old.0 ++ item ∷ []) }
        ensures err { OnErr result (self.new.0 ≡ self.old.0) }
        ensures succeeds { 0 < self.old.1 → IsOk result }
        ensures spare { self.old.1 ≤ self.new.1 + 1 }
    {
        self.items.push(item)?;
        Ok(())
    }

    /// Adds an item before the one at a place, which can't fail where memory was set aside. It
    /// takes at most one of it.
    pub fn insert(&mut self, index: usize, item: T) -> Result<(), NoMemory>
        requires { index ≤ length self.old.0 }
        ensures ok { OnOk result (self.new.0 ≡ insert self.old.0 index item) }
        ensures err { OnErr result (self.new.0 ≡ self.old.0) }
        ensures succeeds { 0 < self.old.1 → IsOk result }
        ensures spare { self.old.1 ≤ self.new.1 + 1 }
    {
        self.items.insert(index, item)?;
        Ok(())
    }

    /// Puts an item in the place of another.
    pub fn set(&mut self, index: usize, item: T)
        requires { index < length self.old.0 }
        ensures { self.new ≡ (slice_set self.old.0 index item, self.old.1) }
    {
        self.items[index] = item;
    }

    /// The items as a slice.
    pub fn as_slice(&self) -> &[T]
        ensures { result.now ≡ self.now.0 }
    {
        self.items.as_slice()
    }

    /// The list, whose further memory is no longer told.
    pub fn into_list(self) -> List<T>
        ensures { result ≡ self.0 }
    {
        let Room { items } = self;
        List::from_vec(items)
    }
}
