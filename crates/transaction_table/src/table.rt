//! The transactions of a node.

ghost use Rattle.std.specs.Prelude.{ℕ, ◌≡◌, ◌+◌, ◌==◌, ◌<◌, ◌≤◌, ◌^◌, fold, length, not, is_some, map, Some, None, IfOk, OnOk, OnErr};
ghost use Rattle.std.specs.Option.{option_copied, option_map};
ghost use Rattle.std.specs.FinMap as maps;
ghost use Rattle.transaction_table.specs.Outboxes.{next_in};
ghost use Rattle.transaction_table.specs.Tables as txns;
ghost use Rattle.transaction_table.specs.declared.spot.Spot.TheVariants.{Head, Issued};

use crate::RESEND_AFTER;
use crate::again::{Taken, Ticked};
use crate::number_table::NumberTable;
use crate::outbox::{Outbox, Request};
use crate::spot::{Spot, Timer, spots_of, timer_of};
use crate::timing::{clear, pass, set};
use crate::txn::{Outstanding, Queued, Txn};
use due_list::Due;
use reload_base::{List, NoMemory};
use reload_ids::NodeId;
use std::alloc::Global;
use std::marker::Model;

/// The transactions of a node: its outboxes, of each of which the head alone is outstanding, and
/// its requests outside them. Contracts see both as maps.
#[derive(Debug, Drop)]
pub struct Table {
    alloc: Global,
    outboxes: NumberTable<Outbox>,
    issued: NumberTable<Request>,
    /// An entry for each outstanding transaction, under its id. The peer whose outbox it heads is
    /// its owner; a request outside the outboxes has none.
    due: Due,
}

impl Model for Table {
    ghost use Rattle.transaction_table.specs.Tables.{Txns, AreApart};
    ghost use Rattle.transaction_table.specs.Timed.{IsListed};
    ghost use Rattle.transaction_table.specs.Codes.{txns_code};

    ghost Value = { Txns };

    ghost coded = { txns_code };

    ghost view = { λ t. record { outboxes = t.outboxes; issued = t.issued } };

    ghost invariant = { λ t. AreApart (record { outboxes = t.outboxes; issued = t.issued })
        × IsListed t.due.entries (record { outboxes = t.outboxes; issued = t.issued }) };
}

impl Table {
    /// No transactions.
    pub fn new(alloc: Global) -> Table
        ensures outboxes { result.outboxes ≡ maps.empty }
        ensures issued { result.issued ≡ maps.empty }
    {
        Table {
            alloc,
            outboxes: NumberTable::new(alloc),
            issued: NumberTable::new(alloc),
            due: Due::new(alloc),
        }
    }

    /// The number of requests outside the outboxes.
    pub fn requests(&self) -> usize
        ensures value { result ≡ maps.len self.now.issued }
        ensures small { result < 2 ^ 63 }
    {
        self.issued.len()
    }

    /// Queues a transaction to its peer, at a time in milliseconds: it is sent at once where the
    /// outbox was empty, which the result says, and waits otherwise. After `NoMemory` the table is
    /// as before.
    pub fn queue(&mut self, t: Txn<Queued>, now: u64) -> Result<bool, NoMemory>
        requires time { now < 2 ^ 62 }
        requires new { txns.IsNew t.id self.old }
        ensures first { IfOk result (λ first. first
            ≡ not (maps.contains_key self.old.outboxes t.peer.0)) }
        ensures ok { OnOk result (self.new ≡ txns.queued now t self.old) }
        ensures err { OnErr result (self.new ≡ self.old) }
    {
        let (peer, message) = t.into_message_of();
        if self.outboxes.has(peer.0) {
            self.outboxes.push(peer.0, message)?;
            return Ok(false);
        }
        self.due.reserve(1)?;
        let id = message.id;
        let outbox = Outbox::new(self.alloc, now, message);
        self.outboxes.insert(peer.0, outbox)?;
        set(&mut self.due, id, now + RESEND_AFTER, Some(peer.0));
        Ok(true)
    }

    /// Takes the message that was queued last out again: the last one to its peer, with its outbox
    /// where it is alone there. No memory is taken.
    pub fn take_back(&mut self, peer: NodeId)
        ensures { (before : txns.Txns) (now : ℕ) (t : Txn Queued) → t.peer ≡ peer
            → self.old ≡ txns.queued now t before → self.new ≡ before }
    {
        match self.outboxes.pop_last(peer.0) {
            Some(last) => drop(last),
            None => self.forget(peer),
        }
    }

    /// Sends a transaction at once, at a time in milliseconds and outside the outboxes. After
    /// `NoMemory` the table is as before.
    pub fn issue(&mut self, t: Txn<Queued>, now: u64) -> Result<(), NoMemory>
        requires time { now < 2 ^ 62 }
        requires new { txns.IsNew t.id self.old }
        ensures ok { OnOk result (self.new ≡ txns.issued now t self.old) }
        ensures err { OnErr result (self.new ≡ self.old) }
    {
        let (peer, message) = t.into_message_of();
        self.due.reserve(1)?;
        let id = message.id;
        let request = Request {
            peer,
            message,
            sends: 1,
            due: now + RESEND_AFTER,
        };
        self.issued.insert(u128::from(id), request)?;
        set(&mut self.due, id, now + RESEND_AFTER, None);
        Ok(())
    }

    /// The bytes of the head of the outbox to a peer.
    pub fn head(&self, peer: NodeId) -> Option<&[u8]>
        ensures { option_copied result
            ≡ option_map (λ o. o.head.bytes) (maps.get self.now.outboxes peer.0) }
    {
        Some(self.outboxes.get(peer.0)?.head.bytes.as_slice())
    }

    /// The transaction id of the head of the outbox to a peer.
    pub fn head_id(&self, peer: NodeId) -> Option<u64>
        ensures { result ≡ option_map (λ o. o.head.id) (maps.get self.now.outboxes peer.0) }
    {
        Some(self.outboxes.get(peer.0)?.head.id)
    }

    /// The bytes of the message that is sent to a peer when the head of its outbox ends.
    pub fn next(&self, peer: NodeId) -> Option<&[u8]>
        ensures { (now : ℕ) → option_copied result
            ≡ option_map (λ o. o.head.bytes) (next_in now (maps.get self.now.outboxes peer.0)) }
    {
        Some(self.outboxes.get(peer.0)?.next()?.bytes.as_slice())
    }

    /// Whether the outbox to a peer holds nothing.
    pub fn empty(&self, peer: NodeId) -> bool
        ensures { result ≡ not (maps.contains_key self.now.outboxes peer.0) }
    {
        self.outboxes.get(peer.0).is_none()
    }

    /// Whether all outboxes hold nothing.
    pub fn all_empty(&self) -> bool
        ensures { result ≡ (maps.len self.now.outboxes == 0) }
    {
        self.outboxes.len() == 0
    }

    /// Takes the outbox to a peer out, with all that it holds.
    pub fn forget(&mut self, peer: NodeId)
        ensures { self.new ≡ txns.forgotten peer.0 self.old }
    {
        if let Some(outbox) = self.outboxes.remove(peer.0) {
            clear(&mut self.due, outbox.head.id);
        }
    }

    /// The bytes of the outstanding transaction with a peer and an id.
    pub fn message(&self, peer: NodeId, id: u64) -> Option<&[u8]>
        ensures { option_copied result
            ≡ option_map (λ t. t.message) (txns.outstanding peer.0 id self.now) }
    {
        match self.spot(peer, id)? {
            Spot::Head(_) => self.head(peer),
            Spot::Issued(id) => Some(self.issued.get(u128::from(id))?.message.bytes.as_slice()),
        }
    }

    /// Where the outstanding transaction with a peer and an id stands.
    fn spot(&self, peer: NodeId, id: u64) -> Option<Spot>
        ensures { result ≡ txns.spot_of peer.0 id self.now }
    {
        if self.head_id(peer) == Some(id) {
            return Some(Spot::Head(peer.0));
        }
        let request = self.issued.get(u128::from(id))?;
        if request.peer == peer {
            Some(Spot::Issued(id))
        } else {
            None
        }
    }

    /// An answer from a peer with an id, at a time in milliseconds. It ends the outstanding
    /// transaction with that peer and id, and the next message of its outbox is sent.
    pub fn answer(&mut self, from: NodeId, id: u64, now: u64) -> Taken
        requires { now < 2 ^ 62 }
        ensures taken { result ≡ txns.taken_of (txns.outstanding from.0 id self.old) }
        ensures table { self.new ≡ txns.after_answer now from.0 id self.old }
        ensures once { txns.outstanding from.0 id self.new ≡ None }
    {
        let Some(spot) = self.spot(from, id) else {
            return Taken::NotMine;
        };
        match self.end(spot, now) {
            Some(t) => Taken::Taken(t.answered()),
            None => Taken::NotMine,
        }
    }

    /// Sends the first transaction again that is due at a time in milliseconds, or ends it where as
    /// many sends were made as the limit allows. Behind a head that ended the next message of its
    /// outbox is sent.
    pub fn tick(&mut self, now: u64, limit: Option<u8>) -> Ticked
        requires { now < 2 ^ 62 }
        ensures does { result ≡ (txns.ticked now limit self.old).0 }
        ensures table { self.new ≡ (txns.ticked now limit self.old).1 }
    {
        match self.due_spot(now) {
            Some(spot) => self.tick_at(spot, now, limit),
            None => Ticked::Idle,
        }
    }

    /// Sends the transaction at a spot again, or ends it where as many sends were made as the limit
    /// allows.
    fn tick_at(&mut self, spot: Spot, now: u64, limit: Option<u8>) -> Ticked
        requires { now < 2 ^ 62 }
        ensures does { result
            ≡ (txns.ticked_at now limit self.old spot (txns.txn_at spot self.old)).0 }
        ensures table { self.new
            ≡ (txns.ticked_at now limit self.old spot (txns.txn_at spot self.old)).1 }
    {
        let Some((peer, id, sends)) = self.sends(spot) else {
            return Ticked::Idle;
        };
        if !limit.is_some_and(|limit| limit <= sends) {
            self.repeat(spot, now);
            return Ticked::Sent { peer, id };
        }
        match self.end(spot, now) {
            Some(t) => Ticked::Over(t.timed_out()),
            None => Ticked::Idle,
        }
    }

    /// Where all transactions stand that are due at a time in milliseconds, by rising time and id.
    pub fn due(&self, alloc: Global, now: u64) -> Result<List<Spot>, NoMemory>
        ensures due { IfOk result (λ spots. spots ≡ txns.due_spots now self.now) }
        ensures few { IfOk result (λ spots. length spots
            ≤ maps.len self.now.outboxes + maps.len self.now.issued) }
    {
        let found = self.due.until(alloc, now)?;
        spots_of(alloc, found.as_slice())
    }

    /// Sends each of the transactions at some spots again, or ends it where as many sends were made
    /// as the limit allows, at a time in milliseconds. Behind a head that ended the next message of
    /// its outbox is sent. This takes no memory.
    pub fn renew(&mut self, spots: &[Spot], now: u64, limit: Option<u8>)
        requires { now < 2 ^ 62 }
        ensures { self.new ≡ fold (txns.renewed now limit) self.old spots.now }
    {
        for spot in spots {
            self.renew_at(*spot, now, limit);
        }
    }

    #[tactic(auto, unfolding(crate::specs::Tables::renewed))]
    fn renew_at(&mut self, spot: Spot, now: u64, limit: Option<u8>)
        requires { now < 2 ^ 62 }
        ensures { self.new ≡ txns.renewed now limit self.old spot }
    {
        match self.tick_at(spot, now, limit) {
            Ticked::Over(t) => drop(t.into_message()),
            Ticked::Sent { peer: _, id: _ } => {}
            Ticked::Idle => {}
        }
    }

    /// Where the first transaction stands that is due at a time in milliseconds.
    fn due_spot(&self, now: u64) -> Option<Spot>
        ensures { result ≡ txns.due_spot now self.now }
    {
        let first = self.first()?;
        if first.due <= now {
            Some(first.spot)
        } else {
            None
        }
    }

    /// The first timer.
    fn first(&self) -> Option<Timer>
        ensures { result ≡ txns.first_from None (txns.timers self.now) }
    {
        let (due, id, owner) = self.due.first()?;
        Some(timer_of(due, id, owner))
    }

    /// The peer and the id of the transaction at a spot, and how many times it was sent.
    pub fn sends(&self, spot: Spot) -> Option<(NodeId, u64, u8)>
        ensures { result ≡ option_map (λ t. (t.peer, t.id, t.sends)) (txns.txn_at spot self.now) }
    {
        match spot {
            Spot::Head(peer) => {
                let outbox = self.outboxes.get(peer)?;
                Some((NodeId(peer), outbox.head.id, outbox.sends))
            }
            Spot::Issued(id) => {
                let request = self.issued.get(u128::from(id))?;
                Some((request.peer, request.message.id, request.sends))
            }
        }
    }

    /// The bytes of the transaction at a spot.
    pub fn bytes_at(&self, spot: Spot) -> Option<&[u8]>
        ensures { option_copied result ≡ option_map (λ t. t.message) (txns.txn_at spot self.now) }
    {
        match spot {
            Spot::Head(peer) => self.head(NodeId(peer)),
            Spot::Issued(id) => Some(self.issued.get(u128::from(id))?.message.bytes.as_slice()),
        }
    }

    /// Sends the transaction at a spot again.
    fn repeat(&mut self, spot: Spot, now: u64)
        requires { now < 2 ^ 62 }
        ensures { self.new ≡ txns.repeated now spot self.old }
    {
        match spot {
            Spot::Head(peer) => self.repeat_head(peer, now),
            Spot::Issued(id) => self.repeat_request(id, now),
        }
    }

    fn repeat_head(&mut self, peer: u128, now: u64)
        requires { now < 2 ^ 62 }
        ensures { self.new ≡ txns.repeated now (Head peer) self.old }
    {
        self.outboxes.repeat_head(peer, now);
        if let Some(id) = self.outboxes.head_id(peer) {
            pass(&mut self.due, id, Some(id), now + RESEND_AFTER, Some(peer));
        }
    }

    fn repeat_request(&mut self, id: u64, now: u64)
        requires { now < 2 ^ 62 }
        ensures { self.new ≡ txns.repeated now (Issued id) self.old }
    {
        let key = u128::from(id);
        self.issued.repeat_request(key, now);
        if self.issued.has(key) {
            pass(&mut self.due, id, Some(id), now + RESEND_AFTER, None);
        }
    }

    /// Ends the transaction at a spot. Behind a head the next message of its outbox is sent.
    fn end(&mut self, spot: Spot, now: u64) -> Option<Txn<Outstanding>>
        requires { now < 2 ^ 62 }
        ensures txn { result ≡ txns.txn_at spot self.old }
        ensures table { self.new ≡ txns.ended now spot self.old }
        ensures apart { txns.AreApart self.old }
    {
        match spot {
            Spot::Head(peer) => self.end_head(peer, now),
            Spot::Issued(id) => self.end_request(id),
        }
    }

    fn end_head(&mut self, peer: u128, now: u64) -> Option<Txn<Outstanding>>
        requires { now < 2 ^ 62 }
        ensures txn { result ≡ option_map (txns.head_txn peer) (maps.get self.old.outboxes peer) }
        ensures table { self.new ≡ txns.ended now (Head peer) self.old }
        ensures apart { txns.AreApart self.old }
    {
        let outbox = self.outboxes.get(peer)?;
        let (sends, due) = (outbox.sends, outbox.due);
        let head = self.outboxes.end_head(peer, now)?;
        let next = self.outboxes.head_id(peer);
        pass(&mut self.due, head.id, next, now + RESEND_AFTER, Some(peer));
        Some(Txn::outstanding(NodeId(peer), head, sends, due))
    }

    fn end_request(&mut self, id: u64) -> Option<Txn<Outstanding>>
        ensures txn { result ≡ option_map txns.request_txn (maps.get self.old.issued id) }
        ensures issued { self.new ≡ record self.old { issued = maps.remove self.old.issued id } }
        ensures apart { txns.AreApart self.old }
    {
        let Request {
            peer,
            message,
            sends,
            due,
        } = self.issued.remove(u128::from(id))?;
        clear(&mut self.due, id);
        Some(Txn::outstanding(peer, message, sends, due))
    }
}
