//! What is asked of a peer.

ghost use Rattle.path_diagnostics.specs.DiagRequests.{diag_request, diag_request_at, IsDiagRequestInRange};
ghost use Rattle.path_diagnostics.specs.Laws.Diags.{diag_request_laid, diag_request-some};

use reload_base::{Bytes, NoMemory};
use std::alloc::Global;
use wire_core::{Cursor, DecodeFault, Layout, Spell, put_u64};

/// A request for diagnostics (RFC 7851, section 5.2, with times in ms).
#[derive(Clone, Copy, Debug, PartialEq, Eq)]
pub struct DiagRequest {
    /// Comes back as it was asked, and isn't compared with a clock.
    pub expiration: u64,
    /// The clock of the asking node, in ms.
    pub initiated: u64,
    /// Bit 0 asks for the peer's state, bit 1 for its uptime, bit 2 for the records that it holds,
    /// bit 3 for the number of its successors. Other bits are ignored.
    pub flags: u64,
}

impl Spell for DiagRequest {
    ghost spelling = { diag_request };

    ghost is_spelled = { λ _. Unit {0} };

    fn fits(&self) -> bool {
        true
    }

    #[tactic(auto, using(wire_core::proofs::Puts::lengths), unfolding(crate::specs::DiagRequests::diag_request))]
    fn len(&self) -> u64 {
        24
    }

    #[tactic(auto, using(wire_core::proofs::Puts::fronts), unfolding(crate::specs::DiagRequests::diag_request))]
    fn put(&self, out: &mut Bytes) -> Result<(), NoMemory> {
        put_u64(out, self.expiration)?;
        put_u64(out, self.initiated)?;
        put_u64(out, self.flags)
    }

    ghost has_a_byte = { λ d _. diag_request-some d };
}

impl Layout for DiagRequest {
    ghost in_range = { IsDiagRequestInRange };

    ghost reading = { diag_request_at };

    #[tactic(auto, unfolding(crate::specs::DiagRequests::diag_request_at))]
    fn take(_alloc: Global, from: &mut Cursor<'_>) -> Result<DiagRequest, DecodeFault> {
        let expiration = from.take_u64()?;
        let initiated = from.take_u64()?;
        let flags = from.take_u64()?;
        Ok(DiagRequest {
            expiration,
            initiated,
            flags,
        })
    }

    ghost is_layout = { diag_request_laid };
}
