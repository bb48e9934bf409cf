//! Values by number, in one list.

ghost use Rattle.std.specs.Prelude.{◌≡◌, ◌<◌, ◌^◌, T, is_some, unwrap_or, if◌then◌else◌, IfOk, OnOk, OnErr};
ghost use Rattle.std.specs.Option.{option_copied};
ghost use Rattle.std.specs.Ordering.{nat_cmp};
ghost use Rattle.std.specs.FinMap as map;
ghost use Rattle.ordered_tables.specs.Places.{IsPlace, Rises};

use reload_base::{NoMemory, TryCopy};
use std::alloc::Global;
use std::marker::Model;

/// Values by number, in one list in their order. Contracts see the map.
///
/// It's for numbers that are few, or are put once and then looked up often: a look-up halves the
/// list, a number that is new moves those behind it, and no more memory is taken than the rows
/// need. Where many numbers come and go, take a `NumberTable`.
#[derive(Debug, Drop)]
pub struct SortedTable<V> {
    rows: Vec<(u128, V)>,
}

impl<V> Model for SortedTable<V> {
    ghost use Rattle.std.specs.Coded.{coded_ℕ};
    ghost use Rattle.std.specs.FinMap as map;
    ghost use Rattle.std.specs.Ordering.{nat_cmp};
    ghost use Rattle.ordered_tables.specs.Places.{Rises};

    ghost Value = { map.FinMap nat_cmp V };

    ghost coded = { map.code coded_ℕ V.code };

    ghost view = { λ t. map.from_sorted t.rows.items };

    ghost invariant = { λ t. Rises t.rows.items };
}

impl<V> SortedTable<V> {
    /// No values.
    pub fn new(alloc: Global) -> SortedTable<V>
        ensures { result ≡ map.empty }
    {
        SortedTable {
            rows: Vec::new(alloc),
        }
    }

    /// The number of keys.
    pub fn len(&self) -> usize
        ensures value { result ≡ map.len self.now }
        ensures small { result < 2 ^ 63 }
    {
        self.rows.len()
    }

    /// The value of a key.
    pub fn get(&self, key: u128) -> Option<&V>
        ensures { option_copied result ≡ map.get self.now key }
    {
        match place_in(&self.rows, key) {
            Ok(place) => Some(&self.rows[place].1),
            Err(_) => None,
        }
    }

    /// The keys and values, in their order.
    pub fn rows(&self) -> &[(u128, V)]
        ensures entries { map.entries self.now ≡ result.now }
        ensures rising { Rises result.now }
    {
        self.rows.as_slice()
    }
}

impl<V: Drop> SortedTable<V> {
    /// Puts a value at a key, and hands the one before back. After `NoMemory` all is as before.
    pub fn insert(&mut self, key: u128, value: V) -> Result<Option<V>, NoMemory>
        ensures before { IfOk result (λ before. before ≡ map.get self.old key) }
        ensures ok { OnOk result (self.new ≡ map.insert self.old key value) }
        ensures err { OnErr result (self.new ≡ self.old) }
    {
        match place_in(&self.rows, key) {
            Ok(place) => Ok(Some(std::mem::replace(&mut self.rows[place].1, value))),
            Err(place) => {
                find_room(&mut self.rows)?;
                self.rows.insert(place, (key, value))?;
                Ok(None)
            }
        }
    }

    /// Exchanges the value of a key for another, which takes no memory. Where the key isn't there,
    /// nothing changes.
    pub fn exchange(&mut self, key: u128, value: &mut V) -> bool
        ensures there { result ≡ is_some (map.get self.old key) }
        ensures table { self.new ≡ (if is_some (map.get self.old key)
            then map.insert self.old key value.old else self.old) }
        ensures value { value.new ≡ unwrap_or (map.get self.old key) value.old }
    {
        match place_in(&self.rows, key) {
            Ok(place) => {
                std::mem::swap(&mut self.rows[place].1, value);
                true
            }
            Err(_) => false,
        }
    }

    /// Takes a key out, with its value.
    pub fn remove(&mut self, key: u128) -> Option<V>
        ensures value { result ≡ map.get self.old key }
        ensures table { self.new ≡ map.remove self.old key }
    {
        match place_in(&self.rows, key) {
            Ok(place) => {
                let (_, value) = self.rows.remove(place);
                Some(value)
            }
            Err(_) => None,
        }
    }
}

impl<V: TryCopy + Drop> TryCopy for SortedTable<V> {
    fn copy(&self, alloc: Global) -> Result<SortedTable<V>, NoMemory> {
        Ok(SortedTable {
            rows: copied(alloc, self.rows.as_slice())?,
        })
    }
}

/// Finds memory for a first row, and for no others. The rows stay as they are.
fn find_room<V>(rows: &mut Vec<(u128, V)>) -> Result<(), NoMemory>
    ensures { rows.new.items ≡ rows.old.items }
{
    if rows.is_empty() {
        rows.reserve_exact(1)?;
    }
    Ok(())
}

/// Copies of rows, in memory that is as large as they need.
fn copied<V: TryCopy + Drop>(alloc: Global, rows: &[(u128, V)]) -> Result<Vec<(u128, V)>, NoMemory>
    ensures { IfOk result (λ copies. copies.items ≡ rows.now) }
{
    let mut copies = Vec::with_capacity(alloc, rows.len())?;
    for row in rows {
        let copy = row.1.copy(alloc)?;
        copies.push((row.0, copy))?;
    }
    Ok(copies)
}

/// Where a key stands among rows whose keys rise, or else where it would.
pub fn place_in<V>(rows: &Vec<(u128, V)>, key: u128) -> Result<usize, usize>
    requires { Rises rows.now.items }
    ensures { IsPlace key rows.now.items result }
{
    rows.as_slice().binary_search_by_key(&key, |row| row.0)
}
