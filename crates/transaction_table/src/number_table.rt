//! Values by number.

ghost use Rattle.std.specs.Prelude.{◌≡◌, ◌<◌, ◌^◌, Some, None, IfOk, OnOk, OnErr, MatchOption};
ghost use Rattle.std.specs.Option.{option_copied, option_map};
ghost use Rattle.std.specs.FinMap as map;
ghost use Rattle.transaction_table.specs.Outboxes.{HasLost, IsAlone, again_outbox, again_request, behind, changed, next_in, next_of, promoted_head, put_some};

use crate::outbox::{Message, Outbox, Request};
use reload_base::NoMemory;
use std::alloc::Global;
use std::collections::BTreeMap;
use std::marker::Model;

/// Values by number, in their order. Contracts see the map.
#[derive(Debug, Drop)]
pub struct NumberTable<V> {
    tree: BTreeMap<u128, V>,
}

impl<V> Model for NumberTable<V> {
    ghost use Rattle.std.specs.Coded.{coded_ℕ};
    ghost use Rattle.std.specs.FinMap as map;
    ghost use Rattle.std.specs.Ordering.{nat_cmp};
    ghost use Rattle.ordered_tables.specs.Seen.{seen, IsRising};

    ghost Value = { map.FinMap nat_cmp V };

    ghost coded = { map.code coded_ℕ V.code };

    ghost view = { λ t. seen (λ k. k) nat_cmp t.tree.entries };

    ghost invariant = { λ t. IsRising (λ k. k) nat_cmp t.tree.entries };
}

impl<V> NumberTable<V> {
    /// No values.
    pub fn new(alloc: Global) -> NumberTable<V>
        ensures { result ≡ map.empty }
    {
        NumberTable {
            tree: BTreeMap::new(alloc),
        }
    }

    /// The number of keys.
    pub fn len(&self) -> usize
        ensures value { result ≡ map.len self.now }
        ensures small { result < 2 ^ 63 }
    {
        self.tree.len()
    }

    /// The value of a key.
    pub fn get(&self, key: u128) -> Option<&V>
        ensures { option_copied result ≡ map.get self.now key }
    {
        self.tree.get(&key)
    }

    /// Whether a key has a value.
    pub fn has(&self, key: u128) -> bool
        ensures { result ≡ map.contains_key self.now key }
    {
        self.get(key).is_some()
    }
}

impl<V: Drop> NumberTable<V> {
    /// Puts a value at a key, and hands the one before back. After `NoMemory` the table is as
    /// before.
    pub fn insert(&mut self, key: u128, value: V) -> Result<Option<V>, NoMemory>
        ensures before { IfOk result (λ before. before ≡ map.get self.old key) }
        ensures ok { OnOk result (self.new ≡ map.insert self.old key value) }
        ensures err { OnErr result (self.new ≡ self.old) }
    {
        Ok(self.tree.insert(key, value)?)
    }

    /// Takes a key out, with its value.
    pub fn remove(&mut self, key: u128) -> Option<V>
        ensures value { result ≡ map.get self.old key }
        ensures table { self.new ≡ map.remove self.old key }
    {
        self.tree.remove(&key)
    }
}

impl NumberTable<Outbox> {
    /// The transaction id of the head to a node.
    pub fn head_id(&self, key: u128) -> Option<u64>
        ensures { result ≡ option_map (λ o. o.head.id) (map.get self.now key) }
    {
        Some(self.get(key)?.head.id)
    }

    /// Puts a message behind the others to a node. Where there are none, nothing changes. After
    /// `NoMemory` the table is as before.
    pub fn push(&mut self, key: u128, message: Message) -> Result<(), NoMemory>
        ensures ok { OnOk result (self.new
            ≡ changed (behind message) key self.old (map.get self.old key)) }
        ensures err { OnErr result (self.new ≡ self.old) }
    {
        let Some(outbox) = self.tree.get_mut(&key) else {
            return Ok(());
        };
        outbox.push(message)
    }

    /// Ends the head to a node where another message waits, which is sent now, and hands the ended
    /// one back. Else nothing changes. No memory is taken.
    pub fn promote(&mut self, key: u128, now: u64) -> Option<Message>
        requires { now < 2 ^ 62 }
        ensures head { result ≡ promoted_head now (map.get self.old key) }
        ensures table { self.new ≡ put_some key self.old (next_in now (map.get self.old key)) }
    {
        let Some(outbox) = self.tree.get_mut(&key) else {
            return None;
        };
        outbox.promote(now)
    }

    /// Takes the last message that waits for a node out again. Where none waits, nothing changes.
    /// No memory is taken.
    pub fn pop_last(&mut self, key: u128) -> Option<Message>
        ensures { MatchOption result
            (IsAlone (map.get self.old key) × (self.new ≡ self.old))
            (λ last. HasLost last key self.old self.new) }
    {
        let Some(outbox) = self.tree.get_mut(&key) else {
            return None;
        };
        outbox.pop_last()
    }

    /// Ends the head to a node, and hands it back. The next message to it is sent now. No memory is
    /// taken.
    pub fn end_head(&mut self, key: u128, now: u64) -> Option<Message>
        requires { now < 2 ^ 62 }
        ensures head { result ≡ option_map (λ o. o.head) (map.get self.old key) }
        ensures table { self.new ≡ next_of now key self.old (map.get self.old key) }
    {
        if let Some(head) = self.promote(key, now) {
            return Some(head);
        }
        Some(self.remove(key)?.head)
    }

    /// Sends the head to a node again.
    pub fn repeat_head(&mut self, key: u128, now: u64)
        requires { now < 2 ^ 62 }
        ensures { self.new ≡ changed (again_outbox now) key self.old (map.get self.old key) }
    {
        let Some(outbox) = self.tree.get_mut(&key) else {
            return;
        };
        outbox.repeat(now);
    }
}

impl NumberTable<Request> {
    /// Sends a request again.
    pub fn repeat_request(&mut self, key: u128, now: u64)
        requires { now < 2 ^ 62 }
        ensures { self.new ≡ changed (again_request now) key self.old (map.get self.old key) }
    {
        let Some(request) = self.tree.get_mut(&key) else {
            return;
        };
        request.repeat(now);
    }
}
