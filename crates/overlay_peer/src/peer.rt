//! A peer, and what it tells of itself.

ghost use Rattle.std.specs.Prelude.{◌≡◌, ◌^◌, ◌<◌, ◌≤◌, true, [], IfOk, OnOk, OnErr};
ghost use Rattle.std.specs.FinMap as map;
ghost use Rattle.security_block.specs.Signers.{IsNamed};
ghost use Rattle.chord_tables.specs.Tables.{alone};
ghost use Rattle.node_messages.specs.Signed.{words_of};
ghost use Rattle.node_links.specs.declared.limits.TheConstants.{MAX_NUMBER};
ghost use Rattle.node_model.specs.Nodes.{cause_of};
ghost use Rattle.node_model.specs.declared.limits.TheConstants.{MAX_LOAD};
ghost use Rattle.node_model.specs.Peers as model;
ghost use Rattle.overlay_peer.specs.Kept.{peer_of};

use crate::membership::Membership;
use chord_tables::Tables;
use data_models::Config;
use kind_store::Shelf;
use node_links::Node;
use node_model::{Input, Outputs, PeerState};
use ordered_tables::NumberTable;
use reload_base::{List, NoMemory};
use reload_ids::NodeId;
use security_block::{About, Signer};
use std::alloc::Global;
use std::marker::Model;
use transaction_table::Table;

/// A peer. Contracts see what it has as a node, what it is to its overlay, its tables, its records,
/// its transactions, and by Node-ID the numbers of the last channel messages that it took from
/// there and queued to there.
#[derive(Drop)]
pub struct Peer {
    pub(crate) node: Node,
    pub(crate) membership: Membership,
    pub(crate) tables: Tables,
    pub(crate) shelf: Shelf,
    pub(crate) table: Table,
    taken: NumberTable<u64>,
    queued: NumberTable<u64>,
}

impl Model for Peer {
    ghost use Rattle.node_model.specs.Peers as model;
    ghost use Rattle.overlay_peer.specs.Kept.{IsKept, peer_of, peer_code};

    ghost Value = { model.Peer };

    ghost coded = { peer_code };

    ghost view = { λ p. peer_of p.node p.membership p.tables p.shelf p.table p.taken p.queued };

    ghost invariant = { λ p. IsKept p.node p.tables p.shelf p.table };
}

impl Peer {
    /// A Member since the clock 0, with these tables and without records.
    pub fn member(
        alloc: Global,
        config: &Config,
        number: u32,
        about: &About,
        tables: Tables,
    ) -> Result<Peer, NoMemory>
        requires named { IsNamed about.now }
        requires numbered { number ≤ MAX_NUMBER }
        requires peer { about.now.peer ≡ true }
        requires me { tables.me ≡ about.now.node.0 }
        requires friends { tables.friends ≡ [] }
        requires users { tables.users ≡ [] }
        ensures { IfOk result (λ p. p
            ≡ model.new_peer number about.now config.now (model.Member 0) tables) }
    {
        let node = Node::new(alloc, config, number, about)?;
        Ok(Peer::with(alloc, node, Membership::Member { since: 0 }, tables))
    }

    /// A peer that asks to join, and knows nobody.
    pub fn seeking(
        alloc: Global,
        config: &Config,
        number: u32,
        about: &About,
    ) -> Result<Peer, NoMemory>
        requires named { IsNamed about.now }
        requires numbered { number ≤ MAX_NUMBER }
        requires peer { about.now.peer ≡ true }
        ensures { IfOk result (λ p. p ≡ model.new_peer number about.now config.now model.Seeking
            (alone about.now.node.0)) }
    {
        let node = Node::new(alloc, config, number, about)?;
        let tables = Tables::new(alloc, about.node);
        Ok(Peer::with(alloc, node, Membership::Seeking, tables))
    }

    /// A peer that did nothing yet.
    fn with(alloc: Global, node: Node, membership: Membership, tables: Tables) -> Peer
        requires { tables.me ≡ node.about.node.0 }
        ensures { result ≡ peer_of node membership tables map.empty model.no_txns map.empty
            map.empty }
    {
        Peer {
            node,
            membership,
            tables,
            shelf: Shelf::new(alloc),
            table: Table::new(alloc),
            taken: NumberTable::new(alloc),
            queued: NumberTable::new(alloc),
        }
    }

    /// What it does with an input, at a clock in milliseconds: the frames that it sends, and what
    /// there is to be told. It needs a load below `MAX_LOAD`. After `NoMemory`, the only refusal,
    /// the peer is as before.
    pub fn handle<G: Signer>(
        &mut self,
        alloc: Global,
        now: u64,
        input: Input<'_>,
        signer: &G,
    ) -> Result<Outputs, NoMemory>
        requires clock { now < 2 ^ 62 }
        requires light { model.load self.old < MAX_LOAD }
        // What it puts out.
        ensures outputs { let words = words_of G.certificate_of G.signature_of G.about_of G.verifies
            signer.now
            in IfOk result (λ out. out
            ≡ (model.peer_step words now (cause_of input.entry) self.old).outputs) }
        // What it is afterwards.
        ensures peer { let words = words_of G.certificate_of G.signature_of G.about_of G.verifies
            signer.now
            in OnOk result (self.new
            ≡ (model.peer_step words now (cause_of input.entry) self.old).node) }
        ensures err { OnErr result (self.new ≡ self.old) }
    {
        match input {
            Input::Frame { from, bytes } => self.hear_frame(alloc, now, from, bytes, signer),
            Input::Clock => self.clocked(alloc, now),
            Input::Command(_) => Ok(self.pass_over(alloc)),
        }
    }

    /// An input that it does nothing with.
    #[tactic(auto, unfolding(node_model::specs::Peers::idles, node_model::specs::Nodes::counted))]
    pub(crate) fn pass_over(&mut self, alloc: Global) -> Outputs
        requires { model.load self.old < MAX_LOAD }
        ensures outputs { result ≡ (model.idles self.old).outputs }
        ensures peer { self.new ≡ (model.idles self.old).node }
    {
        self.node.count();
        Outputs {
            frames: List::new(alloc),
            notices: List::new(alloc),
        }
    }

    /// What it is to its overlay.
    pub fn state(&self) -> PeerState
        ensures { result ≡ model.state_of self.now.membership }
    {
        self.membership.state()
    }

    /// How many inputs it handled, frames it sent, ids it used and records it holds, together.
    pub fn load(&self) -> u64
        ensures { result ≡ model.load self.now }
    {
        self.node.work() + self.shelf.len() as u64
    }

    /// Whether its outboxes are empty, and no request of its own waits for an answer.
    #[tactic(auto, unfolding(node_model::specs::Peers::is_idle))]
    pub fn idle(&self) -> bool
        ensures { result ≡ model.is_idle self.now }
    {
        self.table.all_empty() && self.table.requests() == 0
    }

    /// What it knows of other nodes.
    pub fn tables(&self) -> &Tables
        ensures { result.now ≡ self.now.tables }
    {
        &self.tables
    }

    /// Its records.
    pub fn shelf(&self) -> &Shelf
        ensures { result.now ≡ self.now.records }
    {
        &self.shelf
    }
}
