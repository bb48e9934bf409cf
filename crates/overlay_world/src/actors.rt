//! The nodes of a world, by number.

ghost use Rattle.std.specs.Prelude.{◌≡◌, ◌<◌, ◌^◌, Some, IfOk, IfErr, OnOk};
ghost use Rattle.std.specs.Prelude as lists;
ghost use Rattle.std.specs.List.{list_all};
ghost use Rattle.std.specs.Option.{option_copied, option_map, option_map_or};
ghost use Rattle.std.specs.FinMap as map;
ghost use Rattle.chord_tables.specs.Tables.{ids};
ghost use Rattle.node_messages.specs.Signed.{words_of};
ghost use Rattle.node_model.specs.Nodes.{cause_of};
ghost use Rattle.run_model.specs.Worlds as model;
ghost use Rattle.run_model.specs.Stops.{load_of};
ghost use Rattle.overlay_world.specs.Declarations.{IsDeclared, AreDeclared, with_declared};
ghost use Rattle.overlay_world.specs.Nodes.{AreNumbers};
ghost use Rattle.overlay_world.specs.Sendings.{IsUnheard};

use crate::actor::Actor;
use crate::fault::StepFault;
use data_models::Config;
use node_model::{Input, MAX_LOAD, Outputs};
use ordered_tables::place_in;
use reload_base::{List, NoMemory};
use reload_ids::NodeId;
use request_words::{DeclaredNode, Role, is_role};
use security_block::Signer;
use std::alloc::Global;
use std::marker::Model;

/// Nodes by number, in one list in their order: found in logarithmic time, and changed where they
/// lie. Contracts see the map.
#[derive(Drop)]
pub struct Actors {
    rows: Vec<(u128, Actor)>,
}

impl Model for Actors {
    ghost use Rattle.std.specs.FinMap as map;
    ghost use Rattle.std.specs.Ordering.{nat_cmp};
    ghost use Rattle.ordered_tables.specs.Places.{Rises};
    ghost use Rattle.run_model.specs.Worlds as model;
    ghost use Rattle.overlay_world.specs.Nodes.{actors_code, AreNumbers};

    ghost Value = { map.FinMap nat_cmp model.Actor };

    ghost coded = { actors_code };

    ghost view = { λ a. map.from_sorted a.rows.items };

    ghost invariant = { λ a. Rises a.rows.items × AreNumbers a.rows.items };
}

impl Actors {
    /// The declared nodes at the beginning.
    pub fn declared(
        alloc: Global,
        config: &Config,
        names: &[DeclaredNode],
    ) -> Result<Actors, NoMemory>
        requires { AreDeclared names.now }
        ensures { IfOk result (λ a. a
            ≡ model.actors_of config.now (model.peers_in names.now) names.now) }
    {
        let peers = peers_in(alloc, names)?;
        Actors::among(alloc, config, peers.as_slice(), names)
    }

    /// The declared nodes at the beginning, where these are the peers.
    fn among(
        alloc: Global,
        config: &Config,
        peers: &[NodeId],
        names: &[DeclaredNode],
    ) -> Result<Actors, NoMemory>
        requires { AreDeclared names.now }
        ensures { IfOk result (λ a. a ≡ model.actors_of config.now (ids peers.now) names.now) }
    {
        let mut actors = Actors::new(alloc);
        let mut left = names;
        while let Some((last, before)) = left.split_last() {
            actors.add(alloc, config, peers, last)?;
            left = before;
        }
        Ok(actors)
    }

    /// No nodes.
    fn new(alloc: Global) -> Actors
        ensures { result ≡ map.empty }
    {
        Actors {
            rows: Vec::new(alloc),
        }
    }

    /// Adds a declared node, if it does something itself.
    #[tactic(auto, unfolding(crate::specs::Declarations::with_declared))]
    fn add(
        &mut self,
        alloc: Global,
        config: &Config,
        peers: &[NodeId],
        name: &DeclaredNode,
    ) -> Result<(), NoMemory>
        requires { IsDeclared name.now }
        ensures { OnOk result (self.new
            ≡ with_declared config.now (ids peers.now) name.now self.old) }
    {
        if let Some(actor) = Actor::declared(alloc, config, peers, name)? {
            self.insert(name.number, actor)?;
        }
        Ok(())
    }

    /// Puts a node at a number, and hands the one before back.
    fn insert(&mut self, number: u32, actor: Actor) -> Result<Option<Actor>, NoMemory>
        ensures { OnOk result (self.new ≡ map.insert self.old number actor) }
    {
        let key = u128::from(number);
        match place_in(&self.rows, key) {
            Ok(place) => Ok(Some(std::mem::replace(&mut self.rows[place].1, actor))),
            Err(place) => {
                self.rows.insert(place, (key, actor))?;
                Ok(None)
            }
        }
    }

    /// The node with a number.
    pub fn get(&self, number: u32) -> Option<&Actor>
        ensures { option_copied result ≡ map.get self.now number }
    {
        match place_in(&self.rows, u128::from(number)) {
            Ok(place) => Some(&self.rows[place].1),
            Err(_) => None,
        }
    }

    /// The node with a number handles an input, at a clock in milliseconds: what it puts out, or
    /// none where there is no such node.
    pub fn handle<G: Signer>(
        &mut self,
        alloc: Global,
        number: u32,
        now: u64,
        input: Input<'_>,
        signer: &G,
    ) -> Result<Option<Outputs>, StepFault>
        requires clock { now < 2 ^ 62 }
        // What it puts out.
        ensures outputs { let words = words_of G.certificate_of G.signature_of G.about_of G.verifies
            signer.now
            in IfOk result (λ o. o
            ≡ option_map (λ a. (model.acts words now (cause_of input.entry) a).outputs)
            (map.get self.old number)) }
        // What the nodes are afterwards.
        ensures actors { let words = words_of G.certificate_of G.signature_of G.about_of G.verifies
            signer.now
            in OnOk result (self.new
            ≡ option_map_or (λ a. map.insert self.old number
            (model.acts words now (cause_of input.entry) a).node)
            (map.get self.old number) self.old) }
        // Why it doesn't.
        ensures unheard { IfErr result (IsUnheard number (load_of (map.get self.old number))) }
    {
        match place_in(&self.rows, u128::from(number)) {
            Ok(place) => {
                let actor = &mut self.rows[place].1;
                Ok(Some(handled(alloc, actor, number, now, input, signer)?))
            }
            Err(_) => Ok(None),
        }
    }

    /// The numbers of the nodes, rising.
    pub fn numbers(&self, alloc: Global) -> Result<List<u32>, NoMemory>
        ensures { IfOk result (λ numbers. numbers ≡ lists.map (λ a. a.0) (map.entries self.now)) }
    {
        numbers_in(alloc, self.rows.as_slice())
    }

    /// Whether no peer comes or goes, and nothing that a peer sent waits for an answer.
    pub fn settled(&self) -> bool
        ensures { result ≡ list_all (λ a. model.is_still a.1) (map.entries self.now) }
    {
        all_still(&self.rows)
    }
}

/// A node with a number handles an input, at a clock in milliseconds: what it puts out.
fn handled<G: Signer>(
    alloc: Global,
    actor: &mut Actor,
    number: u32,
    now: u64,
    input: Input<'_>,
    signer: &G,
) -> Result<Outputs, StepFault>
    requires clock { now < 2 ^ 62 }
    ensures outputs { let words = words_of G.certificate_of G.signature_of G.about_of G.verifies
        signer.now
        in IfOk result (λ out. out
        ≡ (model.acts words now (cause_of input.entry) actor.old).outputs) }
    ensures node { let words = words_of G.certificate_of G.signature_of G.about_of G.verifies
        signer.now
        in OnOk result (actor.new
        ≡ (model.acts words now (cause_of input.entry) actor.old).node) }
    ensures unheard { IfErr result (IsUnheard number (load_of (Some actor.old))) }
{
    if MAX_LOAD <= actor.load() {
        return Err(StepFault::NodeFull(number));
    }
    Ok(actor.handle(alloc, now, input, signer)?)
}

/// The numbers of some nodes.
fn numbers_in(alloc: Global, rows: &[(u128, Actor)]) -> Result<List<u32>, NoMemory>
    requires { AreNumbers rows.now }
    ensures { IfOk result (λ numbers. numbers ≡ lists.map (λ row. row.0) rows.now) }
{
    let mut numbers = List::new(alloc);
    for row in rows {
        numbers.push(row.0 as u32)?;
    }
    Ok(numbers)
}

/// Whether nothing of any node is under way.
fn all_still(rows: &Vec<(u128, Actor)>) -> bool
    ensures { result ≡ list_all (λ a. model.is_still a.1) rows.now.items }
{
    rows.iter().all(|row| row.1.still())
}

/// The peers that are declared.
#[tactic(auto, unfolding(run_model::specs::Worlds::peers_in))]
fn peers_in(alloc: Global, names: &[DeclaredNode]) -> Result<List<NodeId>, NoMemory>
    ensures { IfOk result (λ peers. ids peers ≡ model.peers_in names.now) }
{
    let mut peers = List::new(alloc);
    for name in names {
        if is_role(Role::Peer, name.role) {
            peers.push(name.node)?;
        }
    }
    Ok(peers)
}
