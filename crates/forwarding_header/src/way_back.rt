ghost use Rattle.std.specs.Prelude.{◌≡◌, ◌∷◌, reverse, IfOk};

use crate::destination::Destination;
use reload_base::{List, NoMemory, TryCopy};
use reload_ids::NodeId;
use std::alloc::Global;

/// The way back: the node that a request came from first, and then the entries of its via list, the
/// last of them first (RFC 6940, section 6.2.2).
pub fn reversed(
    alloc: Global,
    first: NodeId,
    via: &List<Destination>,
) -> Result<List<Destination>, NoMemory>
    ensures { IfOk result (λ back. back ≡ Destination.Node first ∷ reverse via.now) }
{
    let mut back = List::new(alloc);
    back.push(Destination::Node(first))?;
    for entry in via.as_slice().iter().rev() {
        back.push(entry.copy(alloc)?)?;
    }
    Ok(back)
}
