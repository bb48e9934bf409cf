//! A world, and what it tells of itself.

ghost use Rattle.std.specs.Prelude.{◌≡◌, length, IfOk};
ghost use Rattle.std.specs.Option.{option_copied, option_and_then};
ghost use Rattle.std.specs.FinMap as map;
ghost use Rattle.reload_base.specs.Outside.{AirView};
ghost use Rattle.run_model.specs.Worlds as model;
ghost use Rattle.overlay_world.specs.Standings.{world_in};
ghost use Rattle.overlay_world.specs.Nodes.{peer_in, client_in};
ghost use Rattle.overlay_world.specs.Declarations.{AreDeclared};

use crate::actors::Actors;
use crate::names::Names;
use data_models::Config;
use frames_in_flight::Fates;
use overlay_client::Client;
use overlay_peer::Peer;
use reload_base::{List, NoMemory, TryCopy};
use request_words::DeclaredNode;
use std::alloc::Global;
use std::marker::Model;

/// A world: its clock, its configuration, the names of its nodes, the nodes by number, and what
/// became of the frames that they sent. The frames lie in an air, and together with them contracts
/// see the meaning's world.
#[derive(Drop)]
pub struct World {
    /// Milliseconds.
    pub(crate) clock: u64,
    pub(crate) config: Config,
    pub(crate) names: Names,
    pub(crate) actors: Actors,
    /// The numbers of the nodes that failed.
    pub(crate) failed: List<u32>,
    pub(crate) fates: Fates,
}

impl Model for World {
    ghost use Rattle.std.specs.Prelude.{◌<◌, ◌^◌};
    ghost use Rattle.overlay_world.specs.Standings.{Standing};
    ghost use Rattle.overlay_world.specs.Codes.{standing_of, standing_code};

    ghost Value = { Standing };

    ghost coded = { standing_code };

    ghost view = { λ w. standing_of w.clock w.config w.names w.actors w.failed w.fates };

    ghost invariant = { λ w. w.clock < 2 ^ 62 };
}

impl World {
    /// The world before the first event, with these nodes: numbers of 1 to `MAX_NUMBER`, users of 1
    /// to 64 bytes. Its air is empty.
    #[tactic(auto, unfolding(run_model::specs::Worlds::first_world, frames_in_flight::specs::Flying::flying))]
    pub fn new(
        alloc: Global,
        config: &Config,
        names: &List<DeclaredNode>,
    ) -> Result<World, NoMemory>
        requires { AreDeclared names.now }
        ensures { IfOk result (λ w. (air : AirView)
            → world_in w air ≡ model.first_world config.now names.now) }
    {
        let actors = Actors::declared(alloc, config, names.as_slice())?;
        let names = Names::new(alloc, names.as_slice())?;
        Ok(World {
            clock: 0,
            config: config.copy(alloc)?,
            names,
            actors,
            failed: List::new(alloc),
            fates: Fates::new(alloc),
        })
    }

    /// The clock in milliseconds.
    pub fn now(&self) -> u64
        ensures { result ≡ self.now.clock }
    {
        self.clock
    }

    /// Whether no peer comes or goes, and nothing that a peer sent waits for an answer.
    #[tactic(auto, unfolding(run_model::specs::Worlds::is_settled))]
    pub fn settled(&self) -> bool
        ensures { (air : AirView) → result ≡ model.is_settled (world_in self.now air) }
    {
        self.actors.settled()
    }

    /// The peer with a number, one that is gone too.
    pub fn peer(&self, number: u32) -> Option<&Peer>
        ensures { option_copied result
            ≡ option_and_then peer_in (map.get self.now.actors number) }
    {
        self.actors.get(number)?.peer()
    }

    /// The client with a number.
    pub fn client(&self, number: u32) -> Option<&Client>
        ensures { option_copied result
            ≡ option_and_then client_in (map.get self.now.actors number) }
    {
        self.actors.get(number)?.client()
    }

    /// The number of frames that were sent.
    pub fn sent(&self) -> usize
        ensures { result ≡ length self.now.fates }
    {
        self.fates.count()
    }

    /// The names of its nodes, in their order.
    pub fn names(&self) -> &[DeclaredNode]
        ensures { result.now ≡ self.now.names }
    {
        self.names.as_slice()
    }
}
