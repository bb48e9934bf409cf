//! Where a peer of CHORD-RELOAD sends what is for an id (RFC 6940, section 10.3).
#![tactic(auto)]

ghost use Rattle.std.specs.Prelude.{◌≡◌};
ghost use Rattle.chord_tables.specs.Tables.{number};
ghost use Rattle.peer_routing.specs.Routes.{owning_predecessor, next_hop};

mod best;

use best::best_known;
use chord_tables::Tables;
use reload_ids::{NodeId, between};

/// Where a request for an id goes next.
#[derive(Clone, Copy, Debug, PartialEq, Eq)]
pub enum Hop {
    /// This peer owns the id.
    Here,
    /// To the link of this node.
    To(NodeId),
    /// No peer is known.
    NoRoute,
}

/// The next hop of a request for an id. A peer that is `owning` keeps what it owns. What lies
/// behind the second predecessor, up to the first, goes to the first (this profile). All else goes
/// to the farthest known peer up to the id, or else to the nearest from the id on.
#[tactic(auto, unfolding(crate::specs::Routes::next_hop))]
pub fn next_hop(t: &Tables, owning: bool, k: u128) -> Hop
    ensures { result ≡ next_hop t.now owning k }
{
    if owning && t.owns(k) {
        return Hop::Here;
    }
    if let Some(owner) = owning_predecessor(t, k) {
        return Hop::To(owner);
    }
    let best = best_known(t, k);
    match best.farthest.or(best.nearest) {
        Some(node) => Hop::To(node),
        None => Hop::NoRoute,
    }
}

/// The first predecessor, where an id lies behind the second, up to the first.
#[tactic(auto, unfolding(crate::specs::Routes::owning_predecessor))]
fn owning_predecessor(t: &Tables, k: u128) -> Option<NodeId>
    ensures { number result ≡ owning_predecessor t.now k }
{
    match t.predecessors() {
        [first, second, ..] if between(second.0, k, first.0) => Some(*first),
        _ => None,
    }
}
