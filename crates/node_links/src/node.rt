//! What peers and clients have in common.

ghost use Rattle.std.specs.Prelude.{◌≡◌, ◌≤◌, ◌<◌, ◌∷◌, Some, length, IfOk, IfSome, OnOk, OnErr};
ghost use Rattle.std.specs.Option.{option_map, option_to_list};
ghost use Rattle.wire_core.specs.declared.limits.TheConstants.{MAX_MESSAGE};
ghost use Rattle.security_block.specs.Signers.{IsNamed};
ghost use Rattle.node_model.specs.declared.limits.TheConstants.{MAX_LOAD};
ghost use Rattle.node_model.specs.Links.{ack_to};
ghost use Rattle.node_model.specs.Nodes as model;
ghost use Rattle.node_model.specs.Clients.{node_asking};
ghost use Rattle.node_model.specs.Clocks.{posts_again, node_clocked};
ghost use Rattle.node_links.specs.declared.limits.TheConstants.{MAX_NUMBER, MAX_WORK};
ghost use Rattle.node_links.specs.Sendings.{posted, post_of, IsSending};
ghost use Rattle.node_links.specs.Small.{AreSmall};

use crate::frames::{frames_heard, frames_posted};
use crate::links::Links;
use crate::sending::{Sending, receiver_of};
use data_models::Config;
use reload_base::{Bytes, List, NoMemory, TryCopy};
use reload_ids::{NodeId, overlay_of};
use security_block::About;
use std::alloc::Global;
use std::marker::Model;
use transaction_table::{Spot, Table};

/// What a peer and a client have: its number, whom its certificate is about, its configuration,
/// its links, and how many transaction ids it used, inputs it handled and frames it sent.
#[derive(Debug, Drop)]
pub struct Node {
    number: u32,
    about: About,
    config: Config,
    overlay: u32,
    links: Links,
    ids: u64,
    inputs: u64,
    frames: u64,
}

impl Model for Node {
    ghost use Rattle.std.specs.Prelude.{◌+◌};
    ghost use Rattle.node_model.specs.Nodes as model;
    ghost use Rattle.node_links.specs.Kept.{IsKept, node_code, node_of};

    ghost Value = { model.Node };

    ghost coded = { node_code };

    ghost view = { λ n. node_of n.number n.about n.config n.links n.ids n.inputs n.frames };

    ghost invariant = { λ n.
        IsKept n.number n.about n.config n.overlay (n.inputs + n.frames + n.ids) };
}

impl Node {
    /// A node that did nothing yet.
    pub fn new(alloc: Global, config: &Config, number: u32, about: &About) -> Result<Node, NoMemory>
        requires named { IsNamed about.now }
        requires numbered { number ≤ MAX_NUMBER }
        ensures { IfOk result (λ n. n ≡ model.new_node number about.now config.now) }
    {
        let about = about.copy(alloc)?;
        let config = config.copy(alloc)?;
        let overlay = overlay_of(config.name.as_slice());
        Ok(Node {
            number,
            about,
            config,
            overlay,
            links: Links::new(alloc),
            ids: 0,
            inputs: 0,
            frames: 0,
        })
    }

    /// Its number, at most `MAX_NUMBER`.
    pub fn number(&self) -> u32
        ensures value { result ≡ self.now.number }
        ensures small { result ≤ MAX_NUMBER }
    {
        self.number
    }

    /// Its Node-ID.
    pub fn me(&self) -> NodeId
        ensures node { result ≡ self.now.about.node }
        ensures number { result.0 ≡ model.me self.now }
    {
        self.about.node
    }

    /// Whom its certificate is about.
    pub fn about(&self) -> &About
        ensures value { result.now ≡ self.now.about }
        ensures named { IsNamed result.now }
    {
        &self.about
    }

    /// Its configuration.
    pub fn config(&self) -> &Config
        ensures { result.now ≡ self.now.config }
    {
        &self.config
    }

    /// The number of its overlay.
    pub fn overlay(&self) -> u32
        ensures { result ≡ model.overlay_of self.now }
    {
        self.overlay
    }

    /// How many inputs it handled, frames it sent and ids it used, together.
    pub fn work(&self) -> u64
        ensures value { result ≡ model.work self.now }
        ensures small { result ≤ MAX_WORK }
    {
        self.inputs + self.frames + self.ids
    }

    /// The id of its next transaction.
    pub fn next_id(&self) -> u64
        ensures { result ≡ model.next_id self.now }
    {
        u64::from(self.number) * 4_294_967_296 + (self.ids + 1)
    }

    /// Counts an input more.
    #[tactic(auto, unfolding(node_model::specs::Nodes::counted))]
    pub fn count(&mut self)
        requires { model.work self.old < MAX_LOAD }
        ensures { self.new ≡ model.counted self.old }
    {
        self.inputs += 1;
    }

    /// It hears a payload over a link: the frames that leave it, an ack first and then that of what
    /// it sends, if it sends anything. After `NoMemory` the node is as before.
    #[tactic(auto, unfolding(node_model::specs::Nodes::node_after))]
    pub fn hear(
        &mut self,
        alloc: Global,
        from: NodeId,
        sequence: u32,
        sending: Option<Sending<'_>>,
    ) -> Result<List<(NodeId, Bytes)>, NoMemory>
        requires light { model.work self.old < MAX_LOAD }
        requires sending { IfSome sending IsSending }
        ensures frames { IfOk result (λ frames. frames ≡ ack_to from sequence self.old.links
            ∷ model.frames_of_all self.old.links
            (option_to_list (option_map post_of sending.entry))) }
        ensures ok { OnOk result (self.new
            ≡ model.node_after from sequence (option_to_list (option_map post_of sending.entry))
            self.old) }
        ensures err { OnErr result (self.new ≡ self.old) }
    {
        let to = receiver_of(&sending);
        let frames = frames_heard(alloc, &self.links, from, sequence, sending)?;
        self.links.note(from, sequence, to)?;
        self.inputs += 1;
        self.frames += frames.len() as u64;
        Ok(frames)
    }

    /// It issues its next request, of which the bytes are given where it has a spelling: the frames
    /// that leave it. After `NoMemory` the node is as before.
    #[tactic(auto, unfolding(node_model::specs::Clients::node_asking))]
    pub fn ask(
        &mut self,
        alloc: Global,
        to: NodeId,
        message: Option<&[u8]>,
    ) -> Result<List<(NodeId, Bytes)>, NoMemory>
        requires light { model.work self.old < MAX_LOAD }
        requires within { IfSome message (λ m. length m.now ≤ MAX_MESSAGE) }
        ensures frames { IfOk result (λ frames. frames ≡ model.frames_of self.old.links
            (Some (posted to (option_map (λ m. m.now) message.entry)))) }
        ensures ok { OnOk result (self.new
            ≡ node_asking (posted to (option_map (λ m. m.now) message.entry)) self.old) }
        ensures err { OnErr result (self.new ≡ self.old) }
    {
        let frames = frames_posted(alloc, &self.links, to, message)?;
        self.links.note_sent(to)?;
        self.ids += 1;
        self.inputs += 1;
        self.frames += frames.len() as u64;
        Ok(frames)
    }

    /// The clock moved on: the frames in which the transactions at some spots, at most as many as
    /// it used ids, are sent again, save those that were sent as often as a limit allows. After
    /// `NoMemory` the node is as before.
    #[tactic(auto, unfolding(node_model::specs::Clocks::node_clocked))]
    pub fn resend(
        &mut self,
        alloc: Global,
        table: &Table,
        spots: &[Spot],
        limit: Option<u8>,
    ) -> Result<List<(NodeId, Bytes)>, NoMemory>
        requires light { model.work self.old < MAX_LOAD }
        requires few { length spots.now ≤ self.old.ids }
        requires small { AreSmall table.now }
        ensures frames { IfOk result (λ frames. frames
            ≡ model.frames_of_all self.old.links (posts_again limit table.now spots.now)) }
        ensures ok { OnOk result (self.new
            ≡ node_clocked (posts_again limit table.now spots.now) self.old) }
        ensures err { OnErr result (self.new ≡ self.old) }
    {
        let frames = self.links.resend(alloc, table, spots, limit)?;
        self.inputs += 1;
        self.frames += frames.len() as u64;
        Ok(frames)
    }
}
