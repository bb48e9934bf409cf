//! What a message says.

ghost use Rattle.std.specs.Prelude.{◌≡◌, ◌++◌, ◌<◌, ◌^◌, OnOk, OnErr, length, take};
ghost use Rattle.wire_core.specs.Reading.{Decodes, vector_at};
ghost use Rattle.wire_core.specs.Spelling.{vector};
ghost use Rattle.message_bodies.specs.Bodies.{bytes_of, body_at, IsSpelledBody};
ghost use Rattle.message_bodies.specs.Contents.{contents, contents_at, IsSpelledContents, IsContentsInRange, IsContentsOf};
ghost use Rattle.message_bodies.specs.Laws.Contents.{contents_laid, contents-some};

use crate::body::Body;
use crate::extension::Extension;
use data_models::Config;
use reload_base::{Bytes, List, NoMemory};
use std::alloc::Global;
use wire_core::{
    Cursor, DecodeFault, Decoder, Spell, list_fits, list_len, put_length, put_u16, put_vector,
    take_vector,
};

/// The contents of a message (RFC 6940, section 6.3.3).
#[derive(Debug, Drop)]
pub struct Contents {
    /// Fewer than 2^32 bytes.
    pub body: Body,
    /// They spell fewer than 2^32 bytes.
    pub extensions: List<Extension>,
}

impl Spell for Contents {
    ghost spelling = { contents };

    ghost is_spelled = { IsSpelledContents };

    fn fits(&self) -> bool {
        self.body.fits()
            && list_fits(&self.extensions)
            && self.body.len() < 0x1_0000_0000
            && list_len(&self.extensions) < 0x1_0000_0000
    }

    #[tactic(auto, using(wire_core::proofs::Puts::lengths), unfolding(crate::specs::Contents::contents))]
    fn len(&self) -> u64 {
        self.body
            .len()
            .saturating_add(list_len(&self.extensions))
            .saturating_add(10)
    }

    #[tactic(auto, using(wire_core::proofs::Puts::fronts), unfolding(crate::specs::Contents::contents))]
    fn put(&self, out: &mut Bytes) -> Result<(), NoMemory> {
        put_u16(out, self.body.code())?;
        put_body(out, &self.body)?;
        put_vector(out, 4, &self.extensions)
    }

    ghost has_a_byte = { λ c _. contents-some c };
}

/// A configuration says by which models the kinds in a body are read; the values of others are any
/// bytes.
impl Decoder<Contents> for Config {
    ghost in_range = { λ config c. IsContentsInRange c × IsContentsOf config c };

    ghost reading = { contents_at };

    #[tactic(auto, unfolding(crate::specs::Contents::contents_at))]
    fn take(&self, alloc: Global, from: &mut Cursor<'_>) -> Result<Contents, DecodeFault> {
        let code = from.take_u16()?;
        let body = take_body(alloc, self, code, from)?;
        let extensions = take_vector(alloc, from, 4)?;
        Ok(Contents { body, extensions })
    }

    ghost is_layout = { contents_laid };
}

/// The body of a message with this code, behind its length.
#[tactic(auto, unfolding(wire_core::specs::Reading::vector_at))]
fn take_body(
    alloc: Global,
    config: &Config,
    code: u16,
    from: &mut Cursor<'_>,
) -> Result<Body, DecodeFault>
    ensures { Decodes result from.new (vector_at 4 (body_at config.now code) from.old) }
{
    let mut part = from.take_part(4)?;
    let body = Body::take(alloc, config, code, &mut part)?;
    part.finish()?;
    Ok(body)
}

#[tactic(auto, using(wire_core::proofs::Puts::fronts))]
fn put_body(out: &mut Bytes, body: &Body) -> Result<(), NoMemory>
    requires spelled { IsSpelledBody body.now }
    requires fits { length (bytes_of body.now) < 2 ^ 32 }
    ensures ok { OnOk result (out.new ≡ out.old ++ vector 4 (bytes_of body.now)) }
    ensures err { OnErr result (take (length out.old) out.new ≡ out.old) }
{
    put_length(out, 4, body.len())?;
    body.put(out)
}
