//! A node that does something.

ghost use Rattle.std.specs.Prelude.{◌≡◌, ◌<◌, ◌^◌, [], Some, IfOk, OnOk, OnErr};
ghost use Rattle.std.specs.Option.{option_copied};
ghost use Rattle.chord_tables.specs.Tables.{ids};
ghost use Rattle.node_messages.specs.Signed.{words_of};
ghost use Rattle.node_model.specs.declared.limits.TheConstants.{MAX_LOAD};
ghost use Rattle.node_model.specs.Nodes.{cause_of};
ghost use Rattle.run_model.specs.Worlds as model;
ghost use Rattle.run_model.specs.Stops.{load_of};
ghost use Rattle.overlay_world.specs.Nodes.{peer_in, client_in};
ghost use Rattle.overlay_world.specs.Declarations.{IsDeclared};

use chord_tables::Tables;
use data_models::Config;
use node_model::{Input, Outputs, PeerState};
use overlay_client::Client;
use overlay_peer::Peer;
use reload_base::{NoMemory, TryCopy};
use reload_ids::NodeId;
use request_words::{DeclaredNode, Role, is_role};
use security_block::{About, Signer};
use std::alloc::Global;
use std::marker::Model;

/// The two kinds of nodes that do something.
#[derive(Drop)]
pub(crate) enum Kind {
    Peer(Peer),
    Client(Client),
}

/// A node that does something: a peer or a client.
#[derive(Drop)]
pub struct Actor {
    pub(crate) kind: Kind,
}

impl Model for Actor {
    ghost use Rattle.run_model.specs.Worlds as model;
    ghost use Rattle.overlay_world.specs.Nodes.{actor_of_kind, actor_code};

    ghost Value = { model.Actor };

    ghost coded = { actor_code };

    ghost view = { λ a. actor_of_kind a.kind };
}

impl Actor {
    /// A declared node at the beginning, a peer with exact tables: these are the peers. A hostile
    /// node does nothing itself.
    pub(crate) fn declared(
        alloc: Global,
        config: &Config,
        peers: &[NodeId],
        name: &DeclaredNode,
    ) -> Result<Option<Actor>, NoMemory>
        requires { IsDeclared name.now }
        ensures { IfOk result (λ a. a
            ≡ model.actor_of config.now (ids peers.now) name.now name.now.role) }
    {
        let about = about_of(alloc, name)?;
        let kind = match name.role {
            Role::Peer => {
                let tables = exact_tables(alloc, peers, name.node)?;
                Kind::Peer(Peer::member(alloc, config, name.number, &about, tables)?)
            }
            Role::Client => Kind::Client(Client::new(alloc, config, name.number, &about)?),
            Role::Hostile => return Ok(None),
        };
        Ok(Some(Actor { kind }))
    }

    /// The peer that it is.
    pub fn peer(&self) -> Option<&Peer>
        ensures { option_copied result ≡ peer_in self.now }
    {
        match &self.kind {
            Kind::Peer(peer) => Some(peer),
            Kind::Client(_) => None,
        }
    }

    /// The client that it is.
    pub fn client(&self) -> Option<&Client>
        ensures { option_copied result ≡ client_in self.now }
    {
        match &self.kind {
            Kind::Peer(_) => None,
            Kind::Client(client) => Some(client),
        }
    }

    /// Its load: what it handled, sent and used, and the records that a peer holds.
    pub fn load(&self) -> u64
        ensures { result ≡ load_of (Some self.now) }
    {
        match &self.kind {
            Kind::Peer(peer) => peer.load(),
            Kind::Client(client) => client.load(),
        }
    }

    /// Whether nothing of it is under way; what a client waits for doesn't count.
    pub fn still(&self) -> bool
        ensures { result ≡ model.is_still self.now }
    {
        match &self.kind {
            Kind::Peer(peer) => is_settled_state(peer.state()) && peer.idle(),
            Kind::Client(_) => true,
        }
    }

    /// What it does with an input, at a clock in milliseconds: the frames that it sends, and what
    /// there is to be told. It needs a load below `MAX_LOAD`. After `NoMemory`, the only refusal,
    /// the node is as before.
    pub fn handle<G: Signer>(
        &mut self,
        alloc: Global,
        now: u64,
        input: Input<'_>,
        signer: &G,
    ) -> Result<Outputs, NoMemory>
        requires clock { now < 2 ^ 62 }
        requires light { load_of (Some self.old) < MAX_LOAD }
        // What it puts out.
        ensures outputs { let words = words_of G.certificate_of G.signature_of G.about_of G.verifies
            signer.now
            in IfOk result (λ out. out
            ≡ (model.acts words now (cause_of input.entry) self.old).outputs) }
        // What it is afterwards.
        ensures node { let words = words_of G.certificate_of G.signature_of G.about_of G.verifies
            signer.now
            in OnOk result (self.new
            ≡ (model.acts words now (cause_of input.entry) self.old).node) }
        ensures err { OnErr result (self.new ≡ self.old) }
    {
        match &mut self.kind {
            Kind::Peer(peer) => peer.handle(alloc, now, input, signer),
            Kind::Client(client) => client.handle(alloc, now, input, signer),
        }
    }
}

/// Whom a declared node's certificate is about.
fn about_of(alloc: Global, name: &DeclaredNode) -> Result<About, NoMemory>
    ensures { IfOk result (λ about. about ≡ model.about_of name.now) }
{
    Ok(About {
        peer: is_role(Role::Peer, name.role),
        node: name.node,
        user: name.user.copy(alloc)?,
    })
}

/// The tables of a peer that knows all others.
#[tactic(auto, unfolding(chord_tables::specs::Tables::merged))]
fn exact_tables(alloc: Global, peers: &[NodeId], me: NodeId) -> Result<Tables, NoMemory>
    ensures value { IfOk result (λ t. t ≡ model.exact_tables (ids peers.now) me.0) }
    ensures me { IfOk result (λ t. t.me ≡ me.0) }
    ensures friends { IfOk result (λ t. t.friends ≡ []) }
    ensures users { IfOk result (λ t. t.users ≡ []) }
{
    let mut tables = Tables::new(alloc, me);
    tables.merge(peers)?;
    Ok(tables)
}

/// Whether a peer is part of the overlay, or gone.
fn is_settled_state(state: PeerState) -> bool
    ensures { result ≡ model.is_settled_state state }
{
    matches!(state, PeerState::Member | PeerState::Gone)
}
