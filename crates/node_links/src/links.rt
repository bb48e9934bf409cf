//! What was sent and heard over the links of a node.

ghost use Rattle.std.specs.Prelude.{◌≡◌, unwrap_or, IfOk, OnOk, OnErr};
ghost use Rattle.std.specs.FinMap as map;
ghost use Rattle.node_model.specs.Links as model;
ghost use Rattle.node_model.specs.Nodes.{frames_of_all, links_after_all};
ghost use Rattle.node_model.specs.Clocks.{posts_again};
ghost use Rattle.node_links.specs.Noted.{noted};
ghost use Rattle.node_links.specs.Small.{AreSmall};

use crate::frames::frames_again;
use link_framing::Acks;
use ordered_tables::NumberTable;
use reload_base::{Bytes, List, NoMemory, TryCopy};
use reload_ids::NodeId;
use std::alloc::Global;
use std::marker::Model;
use transaction_table::{Spot, Table};

/// By Node-ID the sequence of the last payload that was sent there, and the sequences of those that
/// were heard from there (RFC 6940, section 6.6.2).
#[derive(Debug, Drop)]
pub struct Links {
    alloc: Global,
    sent: NumberTable<u32>,
    heard: NumberTable<Acks>,
}

impl Model for Links {
    ghost use Rattle.node_model.specs.Links as model;
    ghost use Rattle.node_links.specs.Codes.{links_code};

    ghost Value = { model.Links };

    ghost coded = { links_code };

    ghost view = { λ l. record { sent = l.sent; heard = l.heard } };
}

impl Links {
    /// Nothing was sent or heard. This takes no memory yet.
    pub fn new(alloc: Global) -> Links
        ensures { result ≡ model.no_links }
    {
        Links {
            alloc,
            sent: NumberTable::new(alloc),
            heard: NumberTable::new(alloc),
        }
    }

    /// The sequence of the next payload to a node: they count from 1, and stay at the greatest.
    #[tactic(auto, unfolding(node_model::specs::Links::next_sequence))]
    pub fn next_sequence(&self, to: NodeId) -> u32
        ensures { result ≡ model.next_sequence self.now to.0 }
    {
        self.last_sequence(to).saturating_add(1)
    }

    /// The sequence of the last payload to a node, or 0 before the first.
    fn last_sequence(&self, to: NodeId) -> u32
        ensures { result ≡ unwrap_or (map.get self.now.sent to.0) 0 }
    {
        match self.sent.get(to.0) {
            Some(last) => *last,
            None => 0,
        }
    }

    /// The mask for the ack of a payload from a node: bit k, 1 to 31, is set exactly where the one
    /// k before it was heard (this profile).
    pub fn mask(&self, from: NodeId, sequence: u32) -> u32
        ensures { result ≡ model.mask_of (model.heard_from self.now from.0) sequence }
    {
        match self.heard.get(from.0) {
            Some(heard) => mask_in(heard, sequence),
            None => mask_in(&Acks::new(self.alloc), sequence),
        }
    }

    /// Notes that the next payload to a node took its sequence. After `NoMemory` the links are as
    /// before.
    pub fn note_sent(&mut self, to: NodeId) -> Result<(), NoMemory>
        ensures ok { OnOk result (self.new ≡ model.with_sent to.0 self.old) }
        ensures err { OnErr result (self.new ≡ self.old) }
    {
        self.take_sequence(to)?;
        Ok(())
    }

    /// Notes that a payload was heard from a node, and that one was sent to another, if to any.
    /// After `NoMemory` the links are as before.
    pub fn note(&mut self, from: NodeId, sequence: u32, to: Option<NodeId>) -> Result<(), NoMemory>
        ensures ok { OnOk result (self.new ≡ noted from sequence to self.old) }
        ensures err { OnErr result (self.new ≡ self.old) }
    {
        match to {
            Some(to) => self.note_both(from, sequence, to),
            None => self.note_heard(from, sequence),
        }
    }

    /// The frames in which the transactions at some spots are sent again, save those that were sent
    /// as often as a limit allows; their sequences are used. After `NoMemory` the links are as
    /// before.
    pub fn resend(
        &mut self,
        alloc: Global,
        table: &Table,
        spots: &[Spot],
        limit: Option<u8>,
    ) -> Result<List<(NodeId, Bytes)>, NoMemory>
        requires { AreSmall table.now }
        ensures frames { IfOk result (λ frames. frames
            ≡ frames_of_all self.old (posts_again limit table.now spots.now)) }
        ensures ok { OnOk result (self.new
            ≡ links_after_all (posts_again limit table.now spots.now) self.old) }
        ensures err { OnErr result (self.new ≡ self.old) }
    {
        let mut links = self.sent_alone(alloc)?;
        let frames = frames_again(alloc, &mut links, table, spots, limit)?;
        std::mem::swap(&mut self.sent, &mut links.sent);
        Ok(frames)
    }

    /// What was sent, without what was heard.
    fn sent_alone(&self, alloc: Global) -> Result<Links, NoMemory>
        ensures { IfOk result (λ links. links ≡ record self.now { heard = map.empty }) }
    {
        Ok(Links {
            alloc: self.alloc,
            sent: self.sent.copy(alloc)?,
            heard: NumberTable::new(alloc),
        })
    }

    /// What is sent is noted first, since that can be taken back without memory.
    fn note_both(&mut self, from: NodeId, sequence: u32, to: NodeId) -> Result<(), NoMemory>
        ensures ok { OnOk result (self.new
            ≡ model.with_heard from.0 sequence (model.with_sent to.0 self.old)) }
        ensures err { OnErr result (self.new ≡ self.old) }
    {
        let before = self.take_sequence(to)?;
        match self.note_heard(from, sequence) {
            Ok(()) => Ok(()),
            Err(error) => {
                self.put_back(to, before);
                Err(error)
            }
        }
    }

    /// Gives a node's next sequence to a payload. The answer is the last sequence before, if there
    /// is any.
    #[tactic(auto, unfolding(node_model::specs::Links::with_sent))]
    fn take_sequence(&mut self, to: NodeId) -> Result<Option<u32>, NoMemory>
        ensures before { IfOk result (λ before. before ≡ map.get self.old.sent to.0) }
        ensures ok { OnOk result (self.new ≡ model.with_sent to.0 self.old) }
        ensures err { OnErr result (self.new ≡ self.old) }
    {
        let next = self.next_sequence(to);
        self.sent.insert(to.0, next)
    }

    /// Takes back that a payload was sent to a node, which takes no memory.
    #[tactic(auto, unfolding(node_model::specs::Links::with_sent))]
    fn put_back(&mut self, to: NodeId, before: Option<u32>)
        ensures { (links : model.Links) → before ≡ map.get links.sent to.0
            → self.old ≡ model.with_sent to.0 links → self.new ≡ links }
    {
        match before {
            Some(last) => {
                let mut last = last;
                self.sent.exchange(to.0, &mut last);
            }
            None => {
                self.sent.remove(to.0);
            }
        }
    }

    /// Notes that a payload was heard from a node. After `NoMemory` the links are as before.
    #[tactic(auto, unfolding(node_model::specs::Links::with_heard))]
    fn note_heard(&mut self, from: NodeId, sequence: u32) -> Result<(), NoMemory>
        ensures ok { OnOk result (self.new ≡ model.with_heard from.0 sequence self.old) }
        ensures err { OnErr result (self.new ≡ self.old) }
    {
        let mut acks = Acks::new(self.alloc);
        if self.heard.exchange(from.0, &mut acks) {
            let added = acks.add(sequence);
            self.heard.exchange(from.0, &mut acks);
            return added;
        }
        acks.add(sequence)?;
        self.heard.insert(from.0, acks)?;
        Ok(())
    }
}

fn mask_in(heard: &Acks, sequence: u32) -> u32
    ensures { result ≡ model.mask_of heard.now sequence }
{
    heard.mask(sequence)
}
