//! Probe: what a peer is asked about itself (RFC 6940, section 6.4.2.5).

ghost use Rattle.std.specs.Prelude.{◌≡◌};
ghost use Rattle.wire_core.specs.Reading.{Decodes};
ghost use Rattle.message_bodies.specs.Probe.{probe_type, probe_type_of, probe_question, probe_question_at, probe_at};
ghost use Rattle.message_bodies.specs.Laws.Probe.{probe_question_laid, probe_question-some};

use crate::body::Body;
use reload_base::{Bytes, NoMemory};
use std::alloc::Global;
use wire_core::{Cursor, DecodeFault, Layout, Reason, Spell, given, put_u8, take_vector};

/// What may be asked.
#[derive(Clone, Copy, Debug, PartialEq, Eq)]
pub enum ProbeInformationType {
    /// The share of the ring for which the peer is responsible.
    ResponsibleSet,
    /// The number of records that it holds.
    NumResources,
    /// For how long it has been a peer.
    Uptime,
}

impl ProbeInformationType {
    fn code(self) -> u8
        ensures { result ≡ probe_type self }
    {
        match self {
            ProbeInformationType::ResponsibleSet => 1,
            ProbeInformationType::NumResources => 2,
            ProbeInformationType::Uptime => 3,
        }
    }

    fn of_code(code: u8) -> Option<ProbeInformationType>
        ensures { result ≡ probe_type_of code }
    {
        match code {
            1 => Some(ProbeInformationType::ResponsibleSet),
            2 => Some(ProbeInformationType::NumResources),
            3 => Some(ProbeInformationType::Uptime),
            _ => None,
        }
    }
}

impl Spell for ProbeInformationType {
    ghost spelling = { probe_question };

    ghost is_spelled = { λ _. Unit {0} };

    fn fits(&self) -> bool {
        true
    }

    #[tactic(auto, using(wire_core::proofs::Puts::lengths), unfolding(crate::specs::Probe::probe_question))]
    fn len(&self) -> u64 {
        1
    }

    #[tactic(auto, using(wire_core::proofs::Puts::fronts), unfolding(crate::specs::Probe::probe_question))]
    fn put(&self, out: &mut Bytes) -> Result<(), NoMemory> {
        put_u8(out, self.code())
    }

    ghost has_a_byte = { λ asks _. probe_question-some asks };
}

impl Layout for ProbeInformationType {
    ghost in_range = { λ _. Unit {0} };

    ghost reading = { probe_question_at };

    #[tactic(auto, unfolding(crate::specs::Probe::probe_question_at, wire_core::specs::Reading::code_at))]
    fn take(_alloc: Global, from: &mut Cursor<'_>) -> Result<ProbeInformationType, DecodeFault> {
        let place = from.place();
        let code = from.take_u8()?;
        Ok(given(ProbeInformationType::of_code(code), place, Reason::BadValue)?)
    }

    ghost is_layout = { probe_question_laid };
}

#[tactic(auto, unfolding(crate::specs::Probe::probe_at))]
pub(crate) fn take_probe(alloc: Global, from: &mut Cursor<'_>) -> Result<Body, DecodeFault>
    ensures { Decodes result from.new (probe_at from.old) }
{
    let requested_info = take_vector(alloc, from, 1)?;
    Ok(Body::Probe { requested_info })
}
