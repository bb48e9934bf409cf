use path_diagnostics::*;
use reload_base::{Bytes, List};
use reload_ids::{NodeId, ResourceId};
use std::test::*;
use wire_core::{Bad, DecodeFault, Reason, Spell};

fn bad<T: Drop>(place: u64, reason: Reason) -> Result<T, DecodeFault> {
    Err(DecodeFault::Bad(Bad { place, reason }))
}

/// What a peer that has just begun, holds nothing and has two successors tells of itself.
fn told(rt: &HostRuntime) -> Result<DiagResponse, Fail> {
    let mut info = List::new(rt.alloc());
    info.push(DiagInfo {
        kind: 1,
        value: Bytes::from_slice(rt.alloc(), &[1])?,
    })?;
    info.push(DiagInfo {
        kind: 2,
        value: Bytes::from_slice(rt.alloc(), &[0, 0, 0, 0])?,
    })?;
    info.push(DiagInfo {
        kind: 3,
        value: Bytes::from_slice(rt.alloc(), &[0, 0, 0, 0])?,
    })?;
    info.push(DiagInfo {
        kind: 4,
        value: Bytes::from_slice(rt.alloc(), &[2])?,
    })?;
    Ok(DiagResponse {
        expiration: 0,
        received: 0,
        hops: 0,
        info,
    })
}

/// Its bytes: two times and the hops, the length 26, and four facts.
fn told_bytes() -> &'static [u8] {
    &[
        0, 0, 0, 0, 0, 0, 0, 0, 0, 0, 0, 0, 0, 0, 0, 0, 0, 0, 0x1a, 0, 1, 0, 1, 1, 0, 2, 0, 4, 0,
        0, 0, 0, 0, 3, 0, 4, 0, 0, 0, 0, 0, 4, 0, 1, 2,
    ]
}

#[test]
fn responses(rt: HostRuntime) -> Result<(), Fail> {
    let response = told(&rt)?;
    assert!(rt; response.fits());
    let bytes = encode_diag_response(rt.alloc(), &response)?;
    assert_eq!(rt; bytes.as_slice(), told_bytes());
    let again = decode_diag_response(rt.alloc(), told_bytes())?;
    assert_eq!(rt; (again.expiration, again.received, again.hops), (0, 0, 0));
    assert_eq!(rt; again.info.len(), 4);
    Ok(())
}

#[test]
fn tracks(rt: HostRuntime) -> Result<(), Fail> {
    let diag = DiagRequest {
        expiration: 1,
        initiated: 2,
        flags: 15,
    };
    let bytes = encode_diag_request(rt.alloc(), &diag)?;
    assert_eq!(rt; bytes.len(), 24);
    assert_eq!(rt; decode_diag_request(rt.alloc(), bytes.as_slice())?, diag);
    let request = TrackRequest {
        target: Target::Resource(ResourceId(7)),
        diag,
    };
    let bytes = encode_track_request(rt.alloc(), &request)?;
    assert_eq!(rt; bytes.len(), 43);
    assert_eq!(rt; bytes.as_slice().split_at(3).0, [2, 17, 16].as_slice());
    assert_eq!(rt;
        decode_track_request(rt.alloc(), bytes.as_slice())?,
        request
    );
    let answer = TrackAnswer {
        next: NodeId(9),
        diag: told(&rt)?,
    };
    assert!(rt; answer.fits());
    let bytes = encode_track_answer(rt.alloc(), &answer)?;
    assert_eq!(rt; bytes.len(), 63);
    assert_eq!(rt; bytes.as_slice().split_at(2).0, [1, 16].as_slice());
    assert_eq!(rt;
        decode_track_answer(rt.alloc(), bytes.as_slice())?.next,
        NodeId(9)
    );
    Ok(())
}

/// Bytes, and the first fault of each.
#[test]
fn refusals(rt: HostRuntime) -> Result<(), Fail> {
    // A Destination that is opaque, that is short, and of a resource whose length is a node's.
    for (first, second, place) in [(3u8, 17u8, 0u64), (0x80, 0, 0), (2, 16, 1)] {
        let read = decode_track_request(rt.alloc(), &[first, second, 16]);
        assert_eq!(rt; read.err(), bad::<u8>(place, Reason::BadValue).err());
    }
    // The answer's must be a node.
    let read = decode_track_answer(rt.alloc(), &[2, 17]);
    assert_eq!(rt; read.err(), bad::<u8>(0, Reason::BadValue).err());
    let whole = told_bytes();
    for len in 0..whole.len() {
        let read = decode_diag_response(rt.alloc(), whole.split_at(len).0);
        let fault = if len < 19 {
            bad::<u8>(len as u64, Reason::Short)
        } else {
            bad(17, Reason::LengthPast)
        };
        assert_eq!(rt; read.err(), fault.err());
    }
    Ok(())
}
