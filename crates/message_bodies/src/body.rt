//! What a message is about, by its message code.

ghost use Rattle.std.specs.Prelude.{◌≡◌, ◌↔◌, ◌-◌, ◌^◌, ◌++◌, IsTrue, OnOk, OnErr, false, length, min, take};
ghost use Rattle.wire_core.specs.Reading.{Decodes};
ghost use Rattle.message_bodies.specs.Store.{IsSpelledKinds};
ghost use Rattle.message_bodies.specs.Bodies.{has_layout, code_of, bytes_of, IsSpelledBody, body_at};

use crate::code;
use crate::error::put_error;
use crate::fetch::{put_fetch, take_fetch};
use crate::fetch_ans::take_fetch_ans;
use crate::join::put_join;
use crate::leave::{ChordLeave, put_leave};
use crate::peer_body::take_peer_body;
use crate::ping_ans::put_ping_ans;
use crate::probe::ProbeInformationType;
use crate::probe_ans::ProbeInformation;
use crate::store::{put_store, take_store};
use crate::store_ans::{StoreKindResponse, take_store_ans};
use crate::update::{ChordUpdate, put_update};
use data_models::{Config, Specifier, StoreKind};
use path_diagnostics::{TrackAnswer, TrackRequest};
use reload_base::{Bytes, List, NoMemory};
use reload_ids::{NodeId, ResourceId};
use std::alloc::Global;
use wire_core::{Cursor, DecodeFault, Spell, list_fits, list_len, put_bytes, put_vector};

/// The body of a message (RFC 6940, section 6.3.3). Each vector is within the length that its
/// layout gives it.
#[derive(Debug, Drop)]
pub enum Body {
    /// At most 255 types.
    Probe {
        requested_info: List<ProbeInformationType>,
    },
    /// In the order asked.
    ProbeAns {
        probe_info: List<ProbeInformation>,
    },
    Store {
        resource: ResourceId,
        /// 0 for the peer that is responsible, else which copy this is.
        replica_number: u8,
        kind_data: List<StoreKind>,
    },
    StoreAns {
        kind_responses: List<StoreKindResponse>,
    },
    Fetch {
        resource: ResourceId,
        specifiers: List<Specifier>,
    },
    /// In the order of the specifiers.
    FetchAns {
        kind_responses: List<StoreKind>,
    },
    Join {
        joining_peer_id: NodeId,
        /// Sent empty.
        overlay_specific_data: Bytes,
    },
    JoinAns {
        /// Sent empty.
        overlay_specific_data: Bytes,
    },
    Leave {
        leaving_peer_id: NodeId,
        overlay_specific_data: ChordLeave,
    },
    LeaveAns,
    Update {
        /// Whole seconds.
        uptime: u32,
        update: ChordUpdate,
    },
    UpdateAns,
    Ping {
        /// Sent empty.
        padding: Bytes,
    },
    PingAns {
        /// The transaction id.
        response_id: u64,
        /// The clock of the answering peer, in ms.
        time: u64,
    },
    PathTrack(TrackRequest),
    PathTrackAns(TrackAnswer),
    Error {
        error_code: u16,
        error_info: Bytes,
    },
    /// The body of a message whose code has no layout here, as it stands.
    Other {
        code: u16,
        bytes: Bytes,
    },
}

/// Whether there is a layout for the body of a message with this code.
#[tactic(auto, unfolding(crate::specs::Bodies::has_layout))]
fn has_layout(code: u16) -> bool
    ensures { result ≡ has_layout code }
{
    matches!(
        code,
        code::PROBE
            | code::PROBE_ANS
            | code::STORE
            | code::STORE_ANS
            | code::FETCH
            | code::FETCH_ANS
            | code::JOIN
            | code::JOIN_ANS
            | code::LEAVE
            | code::LEAVE_ANS
            | code::UPDATE
            | code::UPDATE_ANS
            | code::PING
            | code::PING_ANS
            | code::PATH_TRACK
            | code::PATH_TRACK_ANS
            | code::ERROR
    )
}

impl Body {
    /// Its message code.
    #[tactic(auto, unfolding(crate::specs::Bodies::code_of))]
    pub fn code(&self) -> u16
        ensures { result ≡ code_of self.now }
    {
        match self {
            Body::Probe { .. } => code::PROBE,
            Body::ProbeAns { .. } => code::PROBE_ANS,
            Body::Store { .. } => code::STORE,
            Body::StoreAns { .. } => code::STORE_ANS,
            Body::Fetch { .. } => code::FETCH,
            Body::FetchAns { .. } => code::FETCH_ANS,
            Body::Join { .. } => code::JOIN,
            Body::JoinAns { .. } => code::JOIN_ANS,
            Body::Leave { .. } => code::LEAVE,
            Body::LeaveAns => code::LEAVE_ANS,
            Body::Update { .. } => code::UPDATE,
            Body::UpdateAns => code::UPDATE_ANS,
            Body::Ping { .. } => code::PING,
            Body::PingAns { .. } => code::PING_ANS,
            Body::PathTrack(_) => code::PATH_TRACK,
            Body::PathTrackAns(_) => code::PATH_TRACK_ANS,
            Body::Error { .. } => code::ERROR,
            Body::Other { code, .. } => *code,
        }
    }

    /// Whether it has a spelling: whether each vector fits its length, and an unknown body has a
    /// code that has no layout here.
    #[tactic(auto, unfolding(crate::specs::Bodies::IsSpelledBody))]
    pub fn fits(&self) -> bool
        ensures { IsTrue result ↔ IsSpelledBody self.now }
    {
        match self {
            Body::Probe { requested_info } => list_len(requested_info) < 0x100,
            Body::ProbeAns { probe_info } => list_len(probe_info) < 0x1_0000,
            Body::Store { kind_data, .. } => kinds_fit(kind_data),
            Body::StoreAns { kind_responses } => {
                list_fits(kind_responses) && list_len(kind_responses) < 0x1_0000
            }
            Body::Fetch { specifiers, .. } => {
                list_fits(specifiers) && list_len(specifiers) < 0x1_0000
            }
            Body::FetchAns { kind_responses } => kinds_fit(kind_responses),
            Body::Join {
                overlay_specific_data,
                ..
            }
            | Body::JoinAns {
                overlay_specific_data,
            } => overlay_specific_data.len() < 0x1_0000,
            Body::Leave {
                overlay_specific_data,
                ..
            } => overlay_specific_data.fits() && overlay_specific_data.len() < 0x1_0000,
            Body::LeaveAns | Body::UpdateAns | Body::PingAns { .. } | Body::PathTrack(_) => true,
            Body::Update { update, .. } => update.fits(),
            Body::Ping { padding } => padding.as_slice().len() < 0x1_0000,
            Body::PathTrackAns(answer) => answer.fits(),
            Body::Error { error_info, .. } => error_info.as_slice().len() < 0x1_0000,
            Body::Other { code, .. } => !has_layout(*code),
        }
    }

    /// The number of bytes of its spelling, or `u64::MAX` where there are more.
    #[tactic(auto, using(wire_core::proofs::Puts::lengths), unfolding(crate::specs::Bodies::bytes_of, crate::specs::Probe::probe, crate::specs::ProbeAns::probe_ans, crate::specs::Store::store, crate::specs::StoreAns::store_ans, crate::specs::Fetch::fetch, crate::specs::FetchAns::fetch_ans, crate::specs::Join::join, crate::specs::JoinAns::join_ans, crate::specs::Leave::leave, crate::specs::Update::update, crate::specs::Ping::ping, crate::specs::PingAns::ping_ans, crate::specs::Error::error))]
    pub fn len(&self) -> u64
        ensures { result ≡ min (length (bytes_of self.now)) (2 ^ 64 - 1) }
    {
        match self {
            Body::Probe { requested_info } => list_len(requested_info).saturating_add(1),
            Body::ProbeAns { probe_info } => list_len(probe_info).saturating_add(2),
            Body::Store { kind_data, .. } => list_len(kind_data).saturating_add(22),
            Body::StoreAns { kind_responses } => list_len(kind_responses).saturating_add(2),
            Body::Fetch { specifiers, .. } => list_len(specifiers).saturating_add(19),
            Body::FetchAns { kind_responses } => list_len(kind_responses).saturating_add(4),
            Body::Join {
                overlay_specific_data,
                ..
            } => (overlay_specific_data.as_slice().len() as u64).saturating_add(18),
            Body::JoinAns {
                overlay_specific_data,
            } => (overlay_specific_data.as_slice().len() as u64).saturating_add(2),
            Body::Leave {
                overlay_specific_data,
                ..
            } => overlay_specific_data.len().saturating_add(18),
            Body::LeaveAns | Body::UpdateAns => 0,
            Body::Update { update, .. } => update.len().saturating_add(4),
            Body::Ping { padding } => (padding.as_slice().len() as u64).saturating_add(2),
            Body::PingAns { .. } => 16,
            Body::PathTrack(request) => request.len(),
            Body::PathTrackAns(answer) => answer.len(),
            Body::Error { error_info, .. } => {
                (error_info.as_slice().len() as u64).saturating_add(4)
            }
            Body::Other { bytes, .. } => bytes.as_slice().len() as u64,
        }
    }

    /// Adds its spelling. After `NoMemory` the bytes still begin with what was there.
    #[tactic(auto, using(wire_core::proofs::Puts::fronts), unfolding(crate::specs::Bodies::bytes_of, crate::specs::Bodies::IsSpelledBody, crate::specs::Probe::probe, crate::specs::ProbeAns::probe_ans, crate::specs::StoreAns::store_ans, crate::specs::FetchAns::fetch_ans, crate::specs::JoinAns::join_ans, crate::specs::Ping::ping))]
    pub(crate) fn put(&self, out: &mut Bytes) -> Result<(), NoMemory>
        requires { IsSpelledBody self.now }
        ensures ok { OnOk result (out.new ≡ out.old ++ bytes_of self.now) }
        ensures err { OnErr result (take (length out.old) out.new ≡ out.old) }
    {
        match self {
            Body::Probe { requested_info } => put_vector(out, 1, requested_info),
            Body::ProbeAns { probe_info } => put_vector(out, 2, probe_info),
            Body::Store {
                resource,
                replica_number,
                kind_data,
            } => put_store(out, *resource, *replica_number, kind_data),
            Body::StoreAns { kind_responses } => put_vector(out, 2, kind_responses),
            Body::Fetch {
                resource,
                specifiers,
            } => put_fetch(out, *resource, specifiers),
            Body::FetchAns { kind_responses } => put_vector(out, 4, kind_responses),
            Body::Join {
                joining_peer_id,
                overlay_specific_data,
            } => put_join(out, *joining_peer_id, overlay_specific_data.as_slice()),
            Body::JoinAns {
                overlay_specific_data,
            } => put_bytes(out, 2, overlay_specific_data.as_slice()),
            Body::Leave {
                leaving_peer_id,
                overlay_specific_data,
            } => put_leave(out, *leaving_peer_id, overlay_specific_data),
            Body::LeaveAns | Body::UpdateAns => Ok(()),
            Body::Update { uptime, update } => put_update(out, *uptime, update),
            Body::Ping { padding } => put_bytes(out, 2, padding.as_slice()),
            Body::PingAns { response_id, time } => put_ping_ans(out, *response_id, *time),
            Body::PathTrack(request) => request.put(out),
            Body::PathTrackAns(answer) => answer.put(out),
            Body::Error {
                error_code,
                error_info,
            } => put_error(out, *error_code, error_info.as_slice()),
            Body::Other { bytes, .. } => out.extend(bytes.as_slice()),
        }
    }

    /// Takes the body of a message with this code, which fills a part.
    #[tactic(auto, unfolding(crate::specs::Bodies::body_at))]
    pub(crate) fn take(
        alloc: Global,
        config: &Config,
        code: u16,
        from: &mut Cursor<'_>,
    ) -> Result<Body, DecodeFault>
        ensures { Decodes result from.new (body_at config.now code from.old) }
    {
        match code {
            code::STORE => take_store(alloc, config, from),
            code::STORE_ANS => take_store_ans(alloc, from),
            code::FETCH => take_fetch(alloc, config, from),
            code::FETCH_ANS => take_fetch_ans(alloc, config, from),
            _ => take_peer_body(alloc, code, from),
        }
    }
}

/// Whether a list of kinds has a spelling.
fn kinds_fit(kinds: &List<StoreKind>) -> bool
    ensures { IsTrue result ↔ IsSpelledKinds kinds.now }
{
    list_fits(kinds) && list_len(kinds) < 0x1_0000_0000
}
