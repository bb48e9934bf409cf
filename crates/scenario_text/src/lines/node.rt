//! `peer N ID USER` and `client N ID USER`

ghost use Rattle.std.specs.Prelude.{◌≡◌, IfOk, IfSome, ◌≤◌, option_map};
ghost use Rattle.scenario_text.specs.Lines.Node.{node_id_of, node_of, node_parts};

use crate::lines::overlay::name_of;
use reload_base::{Bytes, NoMemory};
use reload_ids::NodeId;
use request_words::{DeclaredNode, MAX_NUMBER, Role};
use std::alloc::Global;
use text_words::{Pieces, allowed, id_of, number_of};

// A Node-ID, which is neither all zeros nor all ones.
#[tactic(auto, unfolding(crate::specs::Lines::Node::node_id_of))]
fn node_id_of(word: &[u8]) -> Option<u128>
    ensures { result ≡ node_id_of word.now }
{
    let id = id_of(word)?;
    allowed(0 < id && id < u128::MAX)?;
    Some(id)
}

// The number, the Node-ID and the user name.
#[tactic(auto, unfolding(crate::specs::Lines::Node::node_parts))]
fn node_parts(mut words: Pieces<'_>) -> Option<(u64, u128, &[u8])>
    ensures value { option_map (λ r. (r.0, r.1, r.2.now)) result ≡ node_parts words.entry }
    ensures within { IfSome result (λ r. r.0 ≤ MAX_NUMBER) }
{
    let number = number_of(1, u64::from(MAX_NUMBER), words.take()?)?;
    let id = node_id_of(words.take()?)?;
    let user = name_of(words.only()?)?;
    Some((number, id, user))
}

/// The node that is declared.
#[tactic(auto, unfolding(crate::specs::Lines::Node::node_of))]
pub fn node_of(
    alloc: Global,
    role: Role,
    words: Pieces<'_>,
) -> Result<Option<DeclaredNode>, NoMemory>
    ensures { IfOk result (λ node. node ≡ node_of role words.entry) }
{
    match node_parts(words) {
        None => Ok(None),
        Some((number, id, user)) => Ok(Some(DeclaredNode {
            number: number as u32,
            role,
            node: NodeId(id),
            user: Bytes::from_slice(alloc, user)?,
        })),
    }
}
