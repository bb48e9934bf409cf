//! PathTrack and its answer (this profile, after RFC 7851).

ghost use Rattle.wire_core.specs.Reading.{Decodes};
ghost use Rattle.message_bodies.specs.PathTrack.{path_track_at, path_track_ans_at};

use crate::body::Body;
use path_diagnostics::{TrackAnswer, TrackRequest};
use std::alloc::Global;
use wire_core::{Cursor, DecodeFault, Layout};

#[tactic(auto, unfolding(crate::specs::PathTrack::path_track_at))]
pub(crate) fn take_path_track(alloc: Global, from: &mut Cursor<'_>) -> Result<Body, DecodeFault>
    ensures { Decodes result from.new (path_track_at from.old) }
{
    Ok(Body::PathTrack(TrackRequest::take(alloc, from)?))
}

#[tactic(auto, unfolding(crate::specs::PathTrack::path_track_ans_at))]
pub(crate) fn take_path_track_ans(alloc: Global, from: &mut Cursor<'_>) -> Result<Body, DecodeFault>
    ensures { Decodes result from.new (path_track_ans_at from.old) }
{
    Ok(Body::PathTrackAns(TrackAnswer::take(alloc, from)?))
}
