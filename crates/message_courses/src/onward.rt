//! A header one hop on.

ghost use Rattle.std.specs.Prelude.{◌≡◌, ◌-◌, ◌<◌, IfOk};
ghost use Rattle.node_model.specs.Heard.{ttl_of};

use forwarding_header::{Destination, Header};
use node_model::MAX_TTL;
use reload_base::{List, NoMemory, TryCopy};
use std::alloc::Global;

/// The TTL of a header that counts.
pub(crate) fn ttl_of(header: &Header) -> u8
    ensures { result ≡ ttl_of header.now }
{
    header.ttl.min(MAX_TTL)
}

/// A header one hop on, with this via list and this destination list.
pub(crate) fn hop_on(
    alloc: Global,
    header: &Header,
    via: List<Destination>,
    dest: &[Destination],
) -> Result<Header, NoMemory>
    requires { 0 < ttl_of header.now }
    ensures { IfOk result (λ h. h
        ≡ record header.now { ttl = ttl_of header.now - 1; via = via; dest = dest.now }) }
{
    Ok(Header {
        overlay: header.overlay,
        sequence: header.sequence,
        ttl: ttl_of(header) - 1,
        length: header.length,
        id: header.id,
        max_response: header.max_response,
        via,
        dest: Destination::copies(dest, alloc)?,
        options: header.options.copy(alloc)?,
    })
}
