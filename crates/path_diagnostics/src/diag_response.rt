//! What a peer tells.

ghost use Rattle.path_diagnostics.specs.DiagResponses.{diag_info, diag_info_at, IsSpelledDiagInfo, IsDiagInfoInRange, diag_response, diag_response_at, IsSpelledDiagResponse, IsDiagResponseInRange};
ghost use Rattle.path_diagnostics.specs.Laws.Diags.{diag_info_laid, diag_info-some, diag_response_laid, diag_response-some};

use reload_base::{Bytes, List, NoMemory};
use std::alloc::Global;
use wire_core::{
    Cursor, DecodeFault, Layout, Spell, list_fits, list_len, put_bytes, put_u8, put_u16, put_u64,
    put_vector, take_bytes, take_vector,
};

/// One fact about a peer. Of this profile's kinds 1 is its state in one byte, 2 its uptime in s in
/// four bytes, 3 the number of records that it holds in four, 4 the number of its successors in
/// one; others are kept as they stand.
#[derive(Debug, Drop)]
pub struct DiagInfo {
    pub kind: u16,
    /// At most 65,535 bytes.
    pub value: Bytes,
}

/// The answer to a request for diagnostics (RFC 7851, section 5.3, with times in ms).
#[derive(Debug, Drop)]
pub struct DiagResponse {
    /// As it was asked.
    pub expiration: u64,
    /// The clock of the answering peer, in ms.
    pub received: u64,
    /// The entries of the request's via list, at most 255.
    pub hops: u8,
    /// What was asked for, by rising kind. It spells at most 65,535 bytes.
    pub info: List<DiagInfo>,
}

impl Spell for DiagInfo {
    ghost spelling = { diag_info };

    ghost is_spelled = { IsSpelledDiagInfo };

    fn fits(&self) -> bool {
        self.value.len() < 0x1_0000
    }

    #[tactic(auto, using(wire_core::proofs::Puts::lengths), unfolding(crate::specs::DiagResponses::diag_info))]
    fn len(&self) -> u64 {
        (self.value.len() as u64).saturating_add(4)
    }

    #[tactic(auto, using(wire_core::proofs::Puts::fronts), unfolding(crate::specs::DiagResponses::diag_info))]
    fn put(&self, out: &mut Bytes) -> Result<(), NoMemory> {
        put_u16(out, self.kind)?;
        put_bytes(out, 2, self.value.as_slice())
    }

    ghost has_a_byte = { λ i _. diag_info-some i };
}

impl Layout for DiagInfo {
    ghost in_range = { IsDiagInfoInRange };

    ghost reading = { diag_info_at };

    #[tactic(auto, unfolding(crate::specs::DiagResponses::diag_info_at))]
    fn take(alloc: Global, from: &mut Cursor<'_>) -> Result<DiagInfo, DecodeFault> {
        let kind = from.take_u16()?;
        let value = take_bytes(alloc, from, 2)?;
        Ok(DiagInfo { kind, value })
    }

    ghost is_layout = { diag_info_laid };
}

impl Spell for DiagResponse {
    ghost spelling = { diag_response };

    ghost is_spelled = { IsSpelledDiagResponse };

    fn fits(&self) -> bool {
        list_fits(&self.info) && list_len(&self.info) < 0x1_0000
    }

    #[tactic(auto, using(wire_core::proofs::Puts::lengths), unfolding(crate::specs::DiagResponses::diag_response))]
    fn len(&self) -> u64 {
        list_len(&self.info).saturating_add(19)
    }

    #[tactic(auto, using(wire_core::proofs::Puts::fronts), unfolding(crate::specs::DiagResponses::diag_response))]
    fn put(&self, out: &mut Bytes) -> Result<(), NoMemory> {
        put_u64(out, self.expiration)?;
        put_u64(out, self.received)?;
        put_u8(out, self.hops)?;
        put_vector(out, 2, &self.info)
    }

    ghost has_a_byte = { λ d _. diag_response-some d };
}

impl Layout for DiagResponse {
    ghost in_range = { IsDiagResponseInRange };

    ghost reading = { diag_response_at };

    #[tactic(auto, unfolding(crate::specs::DiagResponses::diag_response_at))]
    fn take(alloc: Global, from: &mut Cursor<'_>) -> Result<DiagResponse, DecodeFault> {
        let expiration = from.take_u64()?;
        let received = from.take_u64()?;
        let hops = from.take_u8()?;
        let info = take_vector(alloc, from, 2)?;
        Ok(DiagResponse {
            expiration,
            received,
            hops,
            info,
        })
    }

    ghost is_layout = { diag_response_laid };
}
