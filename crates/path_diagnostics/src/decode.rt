//! Reading bytes that are a whole structure. A fault's place is counted from their front.

ghost use Rattle.std.specs.Prelude.{◌≡◌, ◌≤◌, length, IfOk, Ok, Err};
ghost use Rattle.wire_core.specs.declared.bad.Bad.{Bad};
ghost use Rattle.wire_core.specs.declared.bad.DecodeFault.TheVariants as faults;
ghost use Rattle.wire_core.specs.Reading.{Gives, whole_of};
ghost use Rattle.path_diagnostics.specs.declared.diag_request.DiagRequest.{DiagRequest};
ghost use Rattle.path_diagnostics.specs.declared.diag_response.DiagResponse.{DiagResponse};
ghost use Rattle.path_diagnostics.specs.declared.track.TrackRequest.{TrackRequest};
ghost use Rattle.path_diagnostics.specs.declared.track.TrackAnswer.{TrackAnswer};
ghost use Rattle.path_diagnostics.specs.DiagRequests.{diag_request, diag_request_at, IsDiagRequestInRange};
ghost use Rattle.path_diagnostics.specs.DiagResponses.{diag_response, diag_response_at, IsSpelledDiagResponse, IsDiagResponseInRange};
ghost use Rattle.path_diagnostics.specs.Tracks.{track_request, track_request_at, IsTrackRequestInRange, track_answer, track_answer_at, IsSpelledTrackAnswer, IsTrackAnswerInRange};

use crate::diag_request::DiagRequest;
use crate::diag_response::DiagResponse;
use crate::track::{TrackAnswer, TrackRequest};
use std::alloc::Global;
use wire_core::{DecodeFault, decode_whole};

/// The request that some bytes are.
pub fn decode_diag_request(alloc: Global, bytes: &[u8]) -> Result<DiagRequest, DecodeFault>
    // What is read is spelled so.
    ensures found { IfOk result (λ v. IsDiagRequestInRange v × (bytes.now ≡ diag_request v)) }
    // What is spelled so is read, unless memory runs out.
    ensures only { (v : DiagRequest) → IsDiagRequestInRange v → bytes.now ≡ diag_request v
        → Gives result (Ok v) }
    // Which fault it is.
    ensures exact { Gives result (whole_of diag_request_at bytes.now) }
    // It lies in the bytes, or at their end.
    ensures within { (bad : Bad) → result ≡ Err (faults.Bad bad) → bad.place ≤ length bytes.now }
{
    decode_whole(alloc, bytes)
}

/// The response that some bytes are.
pub fn decode_diag_response(alloc: Global, bytes: &[u8]) -> Result<DiagResponse, DecodeFault>
    // What is read is spelled so.
    ensures found { IfOk result (λ v. IsSpelledDiagResponse v × IsDiagResponseInRange v
        × (bytes.now ≡ diag_response v)) }
    // What is spelled so is read, unless memory runs out.
    ensures only { (v : DiagResponse) → IsSpelledDiagResponse v → IsDiagResponseInRange v
        → bytes.now ≡ diag_response v → Gives result (Ok v) }
    // Which fault it is.
    ensures exact { Gives result (whole_of diag_response_at bytes.now) }
    // It lies in the bytes, or at their end.
    ensures within { (bad : Bad) → result ≡ Err (faults.Bad bad) → bad.place ≤ length bytes.now }
{
    decode_whole(alloc, bytes)
}

/// The body of a PathTrack that some bytes are.
pub fn decode_track_request(alloc: Global, bytes: &[u8]) -> Result<TrackRequest, DecodeFault>
    // What is read is spelled so.
    ensures found { IfOk result (λ v. IsTrackRequestInRange v × (bytes.now ≡ track_request v)) }
    // What is spelled so is read, unless memory runs out.
    ensures only { (v : TrackRequest) → IsTrackRequestInRange v → bytes.now ≡ track_request v
        → Gives result (Ok v) }
    // Which fault it is.
    ensures exact { Gives result (whole_of track_request_at bytes.now) }
    // It lies in the bytes, or at their end.
    ensures within { (bad : Bad) → result ≡ Err (faults.Bad bad) → bad.place ≤ length bytes.now }
{
    decode_whole(alloc, bytes)
}

/// The body of a PathTrack's answer that some bytes are.
pub fn decode_track_answer(alloc: Global, bytes: &[u8]) -> Result<TrackAnswer, DecodeFault>
    // What is read is spelled so.
    ensures found { IfOk result (λ v. IsSpelledTrackAnswer v × IsTrackAnswerInRange v × (bytes.now
        ≡ track_answer v)) }
    // What is spelled so is read, unless memory runs out.
    ensures only { (v : TrackAnswer) → IsSpelledTrackAnswer v → IsTrackAnswerInRange v
        → bytes.now ≡ track_answer v → Gives result (Ok v) }
    // Which fault it is.
    ensures exact { Gives result (whole_of track_answer_at bytes.now) }
    // It lies in the bytes, or at their end.
    ensures within { (bad : Bad) → result ≡ Err (faults.Bad bad) → bad.place ≤ length bytes.now }
{
    decode_whole(alloc, bytes)
}
