//! Entries in the order in which they are due.

ghost use Rattle.std.specs.Prelude.{◌≡◌, ◌+◌, ◌<◌, ◌≤◌, [], Some, None, IsSome, IsOk, IfOk, OnOk, OnErr, map, slice_get};
ghost use Rattle.std.specs.Option.{option_map};
ghost use Rattle.due_list.specs.Entries.{Entry, AreInOrder, due_until, entry_at, entry_of, shifted, told, with_entry, without};

use crate::place::Place;
use crate::timers::{Timer, put, take};
use reload_base::{List, NoMemory};
use std::alloc::Global;
use std::marker::Model;

/// Entries by the time at which they are due, each under an id of its own, and with an owner where
/// it has one. Contracts see the list of the entries by rising time and id, each with its place, and
/// the number of further ones for which memory is surely there.
#[derive(Debug, Drop)]
pub struct Due {
    timers: Vec<Timer>,
}

impl Model for Due {
    ghost use Rattle.std.specs.Prelude.{◌-◌, vec_len, vec_capacity};
    ghost use Rattle.due_list.specs.Entries.{DueList, AreInOrder};
    ghost use Rattle.due_list.specs.Timers.{all_placed};

    ghost Value = { DueList };

    ghost view = { λ d. record {
      entries = all_placed d.timers.items;
      spare = vec_capacity d.timers - vec_len d.timers;
    } };

    ghost invariant = { λ d. AreInOrder (all_placed d.timers.items) };
}

impl Due {
    /// No entries.
    pub fn new(alloc: Global) -> Due
        ensures { result.entries ≡ [] }
    {
        Due {
            timers: Vec::new(alloc),
        }
    }

    /// Finds memory for `n` more entries. The entries stay as they are.
    pub fn reserve(&mut self, n: usize) -> Result<(), NoMemory>
        ensures entries { self.new.entries ≡ self.old.entries }
        ensures spare { self.old.spare ≤ self.new.spare }
        ensures ok { OnOk result (n ≤ self.new.spare) }
    {
        self.timers.reserve(n)?;
        Ok(())
    }

    /// Adds an entry for a new id, which has no owner, due at a time in milliseconds, and answers
    /// its place. It can't fail where memory is there, and takes that of at most one. After
    /// `NoMemory` the entries are as before.
    pub fn insert(&mut self, due: u64, id: u64) -> Result<Place, NoMemory>
        requires { entry_of id self.old.entries ≡ None }
        ensures ok { IfOk result (λ place. self.new.entries ≡ with_entry
            (record { due = due; id = id; owner = None; place = place }) self.old.entries) }
        ensures err { OnErr result (self.new.entries ≡ self.old.entries) }
        ensures kept { OnErr result (self.old.spare ≤ self.new.spare) }
        ensures succeeds { 0 < self.old.spare → IsOk result }
        ensures spare { self.old.spare ≤ self.new.spare + 1 }
        ensures sound { AreInOrder self.new.entries }
    {
        self.insert_for(None, due, id)
    }

    /// Adds an entry for a new id as `insert` does, with its owner, if it has one.
    pub fn insert_for(&mut self, owner: Option<u128>, due: u64, id: u64) -> Result<Place, NoMemory>
        requires { entry_of id self.old.entries ≡ None }
        ensures ok { IfOk result (λ place. self.new.entries ≡ with_entry
            (record { due = due; id = id; owner = owner; place = place }) self.old.entries) }
        ensures err { OnErr result (self.new.entries ≡ self.old.entries) }
        ensures kept { OnErr result (self.old.spare ≤ self.new.spare) }
        ensures succeeds { 0 < self.old.spare → IsOk result }
        ensures spare { self.old.spare ≤ self.new.spare + 1 }
        ensures sound { AreInOrder self.new.entries }
    {
        put(&mut self.timers, Timer { due, id, owner })?;
        Ok(Place::of(id))
    }

    /// The place of the entry of an id.
    pub fn place_of(&self, id: u64) -> Place
        requires { IsSome (entry_of id self.now.entries) }
        ensures place { entry_at result self.now.entries ≡ entry_of id self.now.entries }
        ensures sound { AreInOrder self.now.entries }
    {
        let _timers = &self.timers;
        Place::of(id)
    }

    /// Takes the entry at a place out, and answers its id. The memory serves one more.
    pub fn unlink(&mut self, place: Place) -> u64
        requires { IsSome (entry_at place self.old.entries) }
        ensures id { option_map (λ e. e.id) (entry_at place self.old.entries) ≡ Some result }
        ensures entries { self.new.entries ≡ without place self.old.entries }
        ensures spare { self.old.spare + 1 ≤ self.new.spare }
        ensures sound { AreInOrder self.new.entries }
    {
        take(&mut self.timers, place).id
    }

    /// The time at which the first entry is due, in milliseconds, and its id.
    pub fn first_due(&self) -> Option<(u64, u64)>
        ensures first { result ≡ option_map (λ e. (e.due, e.id)) (slice_get self.now.entries 0) }
        ensures sound { AreInOrder self.now.entries }
    {
        let timer = self.timers.first()?;
        Some((timer.due, timer.id))
    }

    /// When the first entry is due, in milliseconds, its id, and its owner.
    pub fn first(&self) -> Option<(u64, u64, Option<u128>)>
        ensures first { result
            ≡ option_map (λ e. (e.due, e.id, e.owner)) (slice_get self.now.entries 0) }
        ensures sound { AreInOrder self.now.entries }
    {
        let timer = self.timers.first()?;
        Some((timer.due, timer.id, timer.owner))
    }

    /// The entries that are due at a time in milliseconds, from the first on: when each is due, its
    /// id, and its owner.
    pub fn until(
        &self,
        alloc: Global,
        time: u64,
    ) -> Result<List<(u64, u64, Option<u128>)>, NoMemory>
        ensures due { IfOk result (λ found. found ≡ map told (due_until time self.now.entries)) }
        ensures sound { AreInOrder self.now.entries }
    {
        let mut found = List::new(alloc);
        for timer in self.timers.as_slice() {
            if time < timer.due {
                break;
            }
            found.push((timer.due, timer.id, timer.owner))?;
        }
        Ok(found)
    }

    /// Makes the entry at a place due at another time, in milliseconds. It keeps its place.
    pub fn shift(&mut self, place: Place, due: u64)
        requires { IsSome (entry_at place self.old.entries) }
        ensures entries { self.new.entries ≡ shifted place due self.old.entries }
        ensures spare { self.old.spare ≤ self.new.spare }
        ensures sound { AreInOrder self.new.entries }
    {
        let timer = take(&mut self.timers, place);
        let back = put(&mut self.timers, Timer { due, ..timer });
        prove!(back.is_ok());
    }
}
