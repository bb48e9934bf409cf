//! The one spelling of each structure. After `NoMemory` nothing is left of it.

ghost use Rattle.std.specs.Prelude.{◌≡◌, IfOk};
ghost use Rattle.path_diagnostics.specs.DiagRequests.{diag_request};
ghost use Rattle.path_diagnostics.specs.DiagResponses.{diag_response, IsSpelledDiagResponse};
ghost use Rattle.path_diagnostics.specs.Tracks.{track_request, track_answer, IsSpelledTrackAnswer};

use crate::diag_request::DiagRequest;
use crate::diag_response::DiagResponse;
use crate::track::{TrackAnswer, TrackRequest};
use reload_base::{Bytes, NoMemory};
use std::alloc::Global;
use wire_core::encode;

/// The bytes of a request.
pub fn encode_diag_request(alloc: Global, v: &DiagRequest) -> Result<Bytes, NoMemory>
    ensures { IfOk result (λ bytes. bytes ≡ diag_request v.now) }
{
    encode(alloc, v)
}

/// The bytes of a response. `DiagResponse::fits` says whether it has any.
pub fn encode_diag_response(alloc: Global, v: &DiagResponse) -> Result<Bytes, NoMemory>
    requires { IsSpelledDiagResponse v.now }
    ensures { IfOk result (λ bytes. bytes ≡ diag_response v.now) }
{
    encode(alloc, v)
}

/// The bytes of a PathTrack's body.
pub fn encode_track_request(alloc: Global, v: &TrackRequest) -> Result<Bytes, NoMemory>
    ensures { IfOk result (λ bytes. bytes ≡ track_request v.now) }
{
    encode(alloc, v)
}

/// The bytes of the body of a PathTrack's answer. `TrackAnswer::fits` says whether it has any.
pub fn encode_track_answer(alloc: Global, v: &TrackAnswer) -> Result<Bytes, NoMemory>
    requires { IsSpelledTrackAnswer v.now }
    ensures { IfOk result (λ bytes. bytes ≡ track_answer v.now) }
{
    encode(alloc, v)
}
