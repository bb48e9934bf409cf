//! The peer that hears, and who else there is. Node-IDs are told by their first byte.

ghost use Rattle.std.specs.Prelude.{◌≡◌, [], IfOk};
ghost use Rattle.security_block.specs.Signers.{IsNamed};

use chord_tables::Tables;
use data_models::Config;
use overlay_peer::Peer;
use reload_base::{Bytes, List, NoMemory};
use reload_ids::NodeId;
use security_block::About;
use std::alloc::Global;

/// The peer that hears: it owns the ids behind 40 up to 80.
pub const ME: u8 = 0x80;

/// The client that asks, over its link to the peer.
pub const CLIENT: u8 = 0x20;

/// The node whose Node-ID begins with a byte, and has zeros behind it.
pub fn node(first: u8) -> NodeId {
    NodeId(u128::from(first) << 120)
}

/// A peer or a client, and its user.
pub fn about(alloc: Global, peer: bool, node: NodeId) -> Result<About, NoMemory>
    ensures named { IfOk result IsNamed }
    ensures peer { IfOk result (λ who. who.peer ≡ peer) }
    ensures node { IfOk result (λ who. who.node ≡ node) }
{
    Ok(About {
        peer,
        node,
        user: Bytes::from_slice(alloc, b"u")?,
    })
}

/// The tables of a peer whose neighbours are 40 and c0.
#[tactic(auto, unfolding(chord_tables::specs::Tables::merged))]
fn tables(alloc: Global, me: NodeId) -> Result<Tables, NoMemory>
    ensures me { IfOk result (λ t. t.me ≡ me.0) }
    ensures friends { IfOk result (λ t. t.friends ≡ []) }
    ensures users { IfOk result (λ t. t.users ≡ []) }
{
    let mut tables = Tables::new(alloc, me);
    tables.merge(&[node(0x40), node(0xc0)])?;
    Ok(tables)
}

/// The peer, a Member of an overlay without kinds.
pub fn peer(alloc: Global) -> Result<Peer, NoMemory> {
    let config = Config {
        name: Bytes::from_slice(alloc, b"abc")?,
        sequence: 1,
        replicas: 0,
        kinds: List::new(alloc),
    };
    let me = node(ME);
    let about = about(alloc, true, me)?;
    Peer::member(alloc, &config, 1, &about, tables(alloc, me)?)
}
