//! The answer to a Probe: what a peer tells of itself, in the order asked (RFC 6940, section
//! 6.4.2.5).

ghost use Rattle.std.specs.Prelude.{◌≡◌, ◌++◌, OnOk, OnErr, length, take};
ghost use Rattle.wire_core.specs.Reading.{Reads, Decodes};
ghost use Rattle.wire_core.specs.Spelling.{number};
ghost use Rattle.message_bodies.specs.ProbeAns.{told_number, told_number_at, probe_fact, IsProbeFactInRange, responsible_ppb_at, num_resources_at, uptime_at, probe_fact_of, probe_fact_at, probe_ans_at};
ghost use Rattle.message_bodies.specs.Laws.ProbeAns.{probe_fact_laid, probe_fact-some};

use crate::body::Body;
use reload_base::{Bytes, NoMemory};
use std::alloc::Global;
use wire_core::{Bad, Cursor, DecodeFault, Layout, Reason, Spell, put_u8, put_u32, take_vector};

/// The bytes of each number that is told.
const NUMBER_LENGTH: u8 = 4;

/// What is told.
#[derive(Clone, Copy, Debug, PartialEq, Eq)]
pub enum ProbeInformation {
    /// The share of the ring for which the peer is responsible, in parts of 10^9.
    ResponsiblePpb(u32),
    /// The number of records that it holds.
    NumResources(u32),
    /// For how many seconds it has been a peer.
    Uptime(u32),
}

impl Spell for ProbeInformation {
    ghost spelling = { probe_fact };

    ghost is_spelled = { λ _. Unit {0} };

    fn fits(&self) -> bool {
        true
    }

    #[tactic(auto, using(wire_core::proofs::Puts::lengths), unfolding(crate::specs::ProbeAns::probe_fact))]
    fn len(&self) -> u64 {
        6
    }

    #[tactic(auto, using(wire_core::proofs::Puts::fronts), unfolding(crate::specs::ProbeAns::probe_fact))]
    fn put(&self, out: &mut Bytes) -> Result<(), NoMemory> {
        match self {
            ProbeInformation::ResponsiblePpb(n) => put_told(out, 1, *n),
            ProbeInformation::NumResources(n) => put_told(out, 2, *n),
            ProbeInformation::Uptime(n) => put_told(out, 3, *n),
        }
    }

    ghost has_a_byte = { λ fact _. probe_fact-some fact };
}

impl Layout for ProbeInformation {
    ghost in_range = { IsProbeFactInRange };

    ghost reading = { probe_fact_at };

    #[tactic(auto, unfolding(crate::specs::ProbeAns::probe_fact_at, crate::specs::ProbeAns::probe_fact_of))]
    fn take(_alloc: Global, from: &mut Cursor<'_>) -> Result<ProbeInformation, DecodeFault> {
        let place = from.place();
        let code = from.take_u8()?;
        match code {
            1 => Ok(take_responsible_ppb(from)?),
            2 => Ok(take_num_resources(from)?),
            3 => Ok(take_uptime(from)?),
            _ => Err(DecodeFault::Bad(Bad {
                place,
                reason: Reason::BadValue,
            })),
        }
    }

    ghost is_layout = { probe_fact_laid };
}

/// A number of four bytes behind its length, any other of which than 4 is a bad value.
#[tactic(auto, unfolding(crate::specs::ProbeAns::told_number_at, wire_core::specs::Reading::sized_at))]
fn take_told(from: &mut Cursor<'_>) -> Result<u32, Bad>
    ensures { Reads result from.new (told_number_at from.old) }
{
    let mut part = from.take_sized_part(1, u32::from(NUMBER_LENGTH))?;
    let n = part.take_u32()?;
    part.finish()?;
    Ok(n)
}

#[tactic(auto, unfolding(crate::specs::ProbeAns::responsible_ppb_at))]
fn take_responsible_ppb(from: &mut Cursor<'_>) -> Result<ProbeInformation, Bad>
    ensures { Reads result from.new (responsible_ppb_at from.old) }
{
    Ok(ProbeInformation::ResponsiblePpb(take_told(from)?))
}

#[tactic(auto, unfolding(crate::specs::ProbeAns::num_resources_at))]
fn take_num_resources(from: &mut Cursor<'_>) -> Result<ProbeInformation, Bad>
    ensures { Reads result from.new (num_resources_at from.old) }
{
    Ok(ProbeInformation::NumResources(take_told(from)?))
}

#[tactic(auto, unfolding(crate::specs::ProbeAns::uptime_at))]
fn take_uptime(from: &mut Cursor<'_>) -> Result<ProbeInformation, Bad>
    ensures { Reads result from.new (uptime_at from.old) }
{
    Ok(ProbeInformation::Uptime(take_told(from)?))
}

/// A type, and a number behind its length.
#[tactic(auto, using(wire_core::proofs::Puts::fronts))]
fn put_told(out: &mut Bytes, code: u8, n: u32) -> Result<(), NoMemory>
    ensures ok { OnOk result (out.new ≡ out.old ++ (number 1 code ++ told_number n)) }
    ensures err { OnErr result (take (length out.old) out.new ≡ out.old) }
{
    put_u8(out, code)?;
    put_u8(out, NUMBER_LENGTH)?;
    put_u32(out, n)
}

#[tactic(auto, unfolding(crate::specs::ProbeAns::probe_ans_at))]
pub(crate) fn take_probe_ans(alloc: Global, from: &mut Cursor<'_>) -> Result<Body, DecodeFault>
    ensures { Decodes result from.new (probe_ans_at from.old) }
{
    let probe_info = take_vector(alloc, from, 2)?;
    Ok(Body::ProbeAns { probe_info })
}
