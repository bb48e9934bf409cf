//! Diagnostics of a peer and of a path, as bytes (this profile, after RFC 7851).
#![tactic(auto)]

mod decode;
mod diag_request;
mod diag_response;
mod encode;
mod track;

pub use decode::{
    decode_diag_request, decode_diag_response, decode_track_answer, decode_track_request,
};
pub use diag_request::DiagRequest;
pub use diag_response::{DiagInfo, DiagResponse};
pub use encode::{
    encode_diag_request, encode_diag_response, encode_track_answer, encode_track_request,
};
pub use track::{Target, TrackAnswer, TrackRequest};
