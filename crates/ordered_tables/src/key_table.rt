//! Values by keys that are bytes.

ghost use Rattle.std.specs.Prelude.{◌≡◌, ◌<◌, ◌^◌, is_some, unwrap_or, if◌then◌else◌, IfOk, OnOk, OnErr};
ghost use Rattle.std.specs.Option.{option_copied, option_map};
ghost use Rattle.std.specs.List.{last_or};
ghost use Rattle.std.specs.Ordering.{nat_cmp};
ghost use Rattle.std.specs.Cmp.Lexicographic.{slice_cmp};
ghost use Rattle.std.specs.FinMap as map;
ghost use Rattle.ordered_tables.specs.Seen.{shown, IsRising};

use reload_base::{Bytes, NoMemory, TryCopy};
use std::alloc::Global;
use std::collections::BTreeMap;
use std::marker::Model;

/// Values by keys that are bytes, in their order. Contracts see the map.
#[derive(Debug, Drop)]
pub struct KeyTable<V> {
    tree: BTreeMap<Vec<u8>, V>,
}

impl<V> Model for KeyTable<V> {
    ghost use Rattle.std.specs.Coded.{coded_ℕ, coded_list};
    ghost use Rattle.std.specs.FinMap as map;
    ghost use Rattle.std.specs.Ordering.{nat_cmp};
    ghost use Rattle.std.specs.Cmp.Lexicographic.{slice_cmp};
    ghost use Rattle.ordered_tables.specs.Seen.{seen, IsRising};

    ghost Value = { map.FinMap (slice_cmp nat_cmp) V };

    ghost coded = { map.code (coded_list coded_ℕ) V.code };

    ghost view = { λ t. seen (λ k. k.items) (slice_cmp nat_cmp) t.tree.entries };

    ghost invariant = { λ t. IsRising (λ k. k.items) (slice_cmp nat_cmp) t.tree.entries };
}

impl<V> KeyTable<V> {
    /// No values.
    pub fn new(alloc: Global) -> KeyTable<V>
        ensures { result ≡ map.empty }
    {
        KeyTable {
            tree: BTreeMap::new(alloc),
        }
    }

    /// The number of keys.
    pub fn len(&self) -> usize
        ensures value { result ≡ map.len self.now }
        ensures small { result < 2 ^ 63 }
    {
        self.tree.len()
    }

    /// The value of a key.
    pub fn get(&self, key: &[u8]) -> Option<&V>
        ensures { option_copied result ≡ map.get self.now key.now }
    {
        self.tree.get(key)
    }

    /// The last key.
    pub fn last_key(&self) -> Option<&[u8]>
        ensures { option_copied result ≡ last_or None (map.keys self.now) }
    {
        match self.tree.last_key_value() {
            Some((key, _)) => Some(key.as_slice()),
            None => None,
        }
    }

    /// The keys and values, in their order.
    pub fn tree(&self) -> &BTreeMap<Vec<u8>, V>
        ensures entries { map.entries self.now ≡ shown (λ k. k.items) result.now.entries }
        ensures rising { IsRising (λ k. k.items) (slice_cmp nat_cmp) result.now.entries }
    {
        &self.tree
    }
}

impl<V: Drop> KeyTable<V> {
    /// Puts a value at a key, and hands the one before back. After `NoMemory` all is as before.
    pub fn insert(&mut self, key: Bytes, value: V) -> Result<Option<V>, NoMemory>
        ensures before { IfOk result (λ before. before ≡ map.get self.old key) }
        ensures ok { OnOk result (self.new ≡ map.insert self.old key value) }
        ensures err { OnErr result (self.new ≡ self.old) }
    {
        Ok(self.tree.insert(key.into_vec(), value)?)
    }

    /// Exchanges the value of a key for another, which takes no memory. Where the key isn't there,
    /// nothing changes.
    pub fn exchange(&mut self, key: &[u8], value: &mut V) -> bool
        ensures there { result ≡ is_some (map.get self.old key.now) }
        ensures table { self.new ≡ (if is_some (map.get self.old key.now)
            then map.insert self.old key.now value.old else self.old) }
        ensures value { value.new ≡ unwrap_or (map.get self.old key.now) value.old }
    {
        let Some(there) = self.tree.get_mut(key) else {
            return false;
        };
        std::mem::swap(there, value);
        true
    }

    /// Takes a key out, with its value.
    pub fn remove(&mut self, key: &[u8]) -> Option<V>
        ensures value { result ≡ map.get self.old key.now }
        ensures table { self.new ≡ map.remove self.old key.now }
    {
        self.tree.remove(key)
    }
}

impl<V: TryCopy + Drop> KeyTable<V> {
    /// Puts a copy of a value at a key. After `NoMemory` the table is as before.
    fn put_copy(&mut self, alloc: Global, key: &[u8], value: &V) -> Result<(), NoMemory>
        ensures { OnOk result (self.new ≡ map.insert self.old key.now value.now) }
    {
        let copy = value.copy(alloc)?;
        self.insert(Bytes::from_slice(alloc, key)?, copy)?;
        Ok(())
    }
}

impl<V: TryCopy + Drop> TryCopy for KeyTable<V> {
    fn copy(&self, alloc: Global) -> Result<KeyTable<V>, NoMemory> {
        let mut copy = KeyTable::new(alloc);
        for (key, value) in &self.tree {
            copy.put_copy(alloc, key.as_slice(), value)?;
        }
        Ok(copy)
    }
}
