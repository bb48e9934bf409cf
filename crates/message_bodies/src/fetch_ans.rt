//! The answer to a Fetch: the values of each kind, in the order of the specifiers (RFC 6940,
//! section 7.4.2.2).

ghost use Rattle.wire_core.specs.Reading.{Decodes};
ghost use Rattle.message_bodies.specs.FetchAns.{fetch_ans_at};

use crate::body::Body;
use data_models::Config;
use std::alloc::Global;
use wire_core::{Cursor, DecodeFault, take_vector_by};

#[tactic(auto, unfolding(crate::specs::FetchAns::fetch_ans_at))]
pub(crate) fn take_fetch_ans(
    alloc: Global,
    config: &Config,
    from: &mut Cursor<'_>,
) -> Result<Body, DecodeFault>
    ensures { Decodes result from.new (fetch_ans_at config.now from.old) }
{
    let kind_responses = take_vector_by(alloc, config, from, 4)?;
    Ok(Body::FetchAns { kind_responses })
}
