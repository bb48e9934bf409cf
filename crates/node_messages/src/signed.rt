//! The bytes of a message that are signed.

ghost use Rattle.std.specs.Prelude.{◌≡◌, ◌++◌, [], ◌∷◌, IfOk};
ghost use Rattle.wire_core.specs.Spelling.{number, joined};

use forwarding_header::Header;
use reload_base::{Bytes, NoMemory};
use std::alloc::Global;
use wire_core::{put_u32, put_u64};

/// The bytes of an overlay and of a transaction id.
pub(crate) const FRONT: usize = 12;

/// What is signed of a message before its contents, with memory for `n` bytes of them.
pub(crate) fn signed_front(alloc: Global, header: &Header, n: usize) -> Result<Bytes, NoMemory>
    ensures { IfOk result (λ front. front ≡
        joined (number 4 header.now.overlay ∷ number 8 header.now.id ∷ [])) }
{
    let mut front = Bytes::new(alloc);
    front.reserve(FRONT.saturating_add(n))?;
    put_u32(&mut front, header.overlay)?;
    put_u64(&mut front, header.id)?;
    Ok(front)
}
