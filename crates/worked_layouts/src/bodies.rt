use access_policy::Policy;
use data_models::{Config, DataModel, KindDef};
use message_bodies::*;
use reload_base::{Bytes, List};
use std::test::*;
use wire_core::Reason::{BadValue, LengthPast, Short, Trailing};
use wire_core::{Bad, Cursor, DecodeFault, Reason, Spell, put_u16, put_u32};

/// An extension that isn't critical, with one byte.
fn extension() -> &'static [u8] {
    &[0x80, 2, 0, 0, 0, 0, 1, 5]
}

/// A body of each message code, and one of a code without a layout. Kind 256 is a single kind, 257
/// an array, 258 a dictionary, and 999 isn't defined.
fn body(code: u16) -> &'static [u8] {
    match code {
        code::PROBE => &[2, 1, 3],
        code::PROBE_ANS => &[0, 12, 1, 4, 0, 0, 1, 244, 3, 4, 0, 0, 0, 7],
        code::STORE => &[
            16, 0, 0, 0, 0, 0, 0, 0, 0, 0, 0, 0, 0, 0, 0, 0, 5, 0, 0, 0, 0, 66, 0, 0, 1, 0, 0, 0,
            0, 0, 0, 0, 0, 3, 0, 0, 0, 32, 0, 0, 0, 28, 0, 0, 0, 0, 0, 0, 0, 9, 0, 0, 0, 60, 1, 0,
            0, 0, 1, 104, 4, 224, 1, 0, 3, 4, 1, 204, 0, 0, 0, 0, 3, 231, 0, 0, 0, 0, 0, 0, 0, 3,
            0, 0, 0, 2, 1, 2,
        ],
        code::STORE_ANS => &[
            0, 30, 0, 0, 1, 0, 0, 0, 0, 0, 0, 0, 0, 1, 0, 16, 0, 0, 0, 0, 0, 0, 0, 0, 0, 0, 0, 0,
            0, 0, 0, 2,
        ],
        code::FETCH => &[
            16, 0, 0, 0, 0, 0, 0, 0, 0, 0, 0, 0, 0, 0, 0, 0, 5, 0, 72, 0, 0, 1, 0, 0, 0, 0, 0, 0,
            0, 0, 0, 0, 0, 0, 0, 1, 1, 0, 0, 0, 0, 0, 0, 0, 0, 0, 10, 0, 8, 0, 0, 0, 0, 0, 0, 0, 9,
            0, 0, 1, 2, 0, 0, 0, 0, 0, 0, 0, 0, 0, 5, 0, 3, 0, 1, 107, 0, 0, 3, 231, 0, 0, 0, 0, 0,
            0, 0, 0, 0, 1, 7,
        ],
        code::FETCH_ANS => &[
            0, 0, 0, 97, 0, 0, 1, 1, 0, 0, 0, 0, 0, 0, 0, 3, 0, 0, 0, 34, 0, 0, 0, 30, 0, 0, 0, 0,
            0, 0, 0, 9, 0, 0, 0, 60, 255, 255, 255, 255, 1, 0, 0, 0, 1, 65, 4, 224, 3, 0, 0, 0, 1,
            170, 0, 0, 1, 2, 0, 0, 0, 0, 0, 0, 0, 3, 0, 0, 0, 31, 0, 0, 0, 27, 0, 0, 0, 0, 0, 0, 0,
            0, 0, 0, 0, 0, 0, 1, 107, 0, 0, 0, 0, 0, 0, 0, 3, 0, 0, 0, 0,
        ],
        code::JOIN => &[0, 0, 0, 0, 0, 0, 0, 0, 0, 0, 0, 0, 0, 0, 0, 4, 0, 0],
        code::JOIN_ANS => &[0, 1, 1],
        code::LEAVE => &[
            0, 0, 0, 0, 0, 0, 0, 0, 0, 0, 0, 0, 0, 0, 0, 4, 0, 19, 1, 0, 16, 0, 0, 0, 0, 0, 0, 0,
            0, 0, 0, 0, 0, 0, 0, 0, 8,
        ],
        code::LEAVE_ANS => &[],
        code::UPDATE => &[
            0, 0, 0, 6, 3, 0, 16, 0, 0, 0, 0, 0, 0, 0, 0, 0, 0, 0, 0, 0, 0, 0, 1, 0, 16, 0, 0, 0,
            0, 0, 0, 0, 0, 0, 0, 0, 0, 0, 0, 0, 2, 0, 16, 0, 0, 0, 0, 0, 0, 0, 0, 0, 0, 0, 0, 0, 0,
            0, 3,
        ],
        code::UPDATE_ANS => &[],
        code::PING => &[0, 0],
        code::PING_ANS => &[0, 0, 0, 0, 0, 0, 0, 1, 0, 0, 0, 0, 0, 0, 0, 2],
        code::PATH_TRACK => &[
            2, 17, 16, 0, 0, 0, 0, 0, 0, 0, 0, 0, 0, 0, 0, 0, 0, 0, 7, 0, 0, 0, 0, 0, 0, 0, 0, 0,
            0, 0, 0, 0, 0, 0, 0, 0, 0, 0, 0, 0, 0, 0, 15,
        ],
        code::PATH_TRACK_ANS => &[
            1, 16, 0, 0, 0, 0, 0, 0, 0, 0, 0, 0, 0, 0, 0, 0, 0, 9, 0, 0, 0, 0, 0, 0, 0, 0, 0, 0, 0,
            0, 0, 0, 0, 0, 1, 0, 5, 0, 1, 0, 1, 1,
        ],
        code::ERROR => &[0, 9, 0, 3, 119, 104, 121],
        _ => &[1, 2, 3],
    }
}

/// The codes of these bodies.
fn codes() -> &'static [u16] {
    &[
        code::PROBE,
        code::PROBE_ANS,
        code::STORE,
        code::STORE_ANS,
        code::FETCH,
        code::FETCH_ANS,
        code::JOIN,
        code::JOIN_ANS,
        code::LEAVE,
        code::LEAVE_ANS,
        code::UPDATE,
        code::UPDATE_ANS,
        code::PING,
        code::PING_ANS,
        code::PATH_TRACK,
        code::PATH_TRACK_ANS,
        code::ERROR,
        0x19,
    ]
}

/// Fronts of these bodies, from a length up to another, which is left out, and what is wrong with
/// them: the place, counted from the front of the contents, or 0 for the end of the body, and the
/// reason. Each was found field by field from the layouts alone.
fn front_rows() -> &'static [(u16, usize, usize, u64, Reason)] {
    &[
        (code::PROBE, 0, 1, 0, Short),
        (code::PROBE, 1, 3, 6, LengthPast),
        (code::PROBE_ANS, 0, 2, 0, Short),
        (code::PROBE_ANS, 2, 14, 6, LengthPast),
        (code::STORE, 0, 22, 0, Short),
        (code::STORE, 22, 88, 24, LengthPast),
        (code::STORE_ANS, 0, 2, 0, Short),
        (code::STORE_ANS, 2, 32, 6, LengthPast),
        (code::FETCH, 0, 19, 0, Short),
        (code::FETCH, 19, 91, 23, LengthPast),
        (code::FETCH_ANS, 0, 4, 0, Short),
        (code::FETCH_ANS, 4, 101, 6, LengthPast),
        (code::JOIN, 0, 18, 0, Short),
        (code::JOIN_ANS, 0, 2, 0, Short),
        (code::JOIN_ANS, 2, 3, 6, LengthPast),
        (code::LEAVE, 0, 18, 0, Short),
        (code::LEAVE, 18, 37, 22, LengthPast),
        (code::UPDATE, 0, 7, 0, Short),
        (code::UPDATE, 7, 23, 11, LengthPast),
        (code::UPDATE, 23, 25, 0, Short),
        (code::UPDATE, 25, 41, 29, LengthPast),
        (code::UPDATE, 41, 43, 0, Short),
        (code::UPDATE, 43, 59, 47, LengthPast),
        (code::PING, 0, 2, 0, Short),
        (code::PING_ANS, 0, 16, 0, Short),
        (code::PATH_TRACK, 0, 2, 0, Short),
        (code::PATH_TRACK, 2, 19, 7, LengthPast),
        (code::PATH_TRACK, 19, 43, 0, Short),
        (code::PATH_TRACK_ANS, 0, 2, 0, Short),
        (code::PATH_TRACK_ANS, 2, 18, 7, LengthPast),
        (code::PATH_TRACK_ANS, 18, 37, 0, Short),
        (code::PATH_TRACK_ANS, 37, 42, 41, LengthPast),
        (code::ERROR, 0, 4, 0, Short),
        (code::ERROR, 4, 7, 8, LengthPast),
    ]
}

/// One byte of the contents changed: each length one more and one less, each Boolean 2, each type 9
/// and 0. The place of the byte, its value, and the place and the reason of the first fault, found
/// as above.
fn change_rows() -> &'static [(u16, usize, u8, u64, Reason)] {
    &[
        (code::PROBE, 5, 4, 9, Trailing),
        (code::PROBE, 5, 2, 6, LengthPast),
        (code::PROBE, 6, 3, 6, LengthPast),
        (code::PROBE, 6, 1, 8, Trailing),
        (code::PROBE, 12, 9, 9, LengthPast),
        (code::PROBE, 12, 7, 16, LengthPast),
        (code::PROBE, 19, 2, 16, LengthPast),
        (code::PROBE, 19, 0, 21, Short),
        (code::PROBE, 15, 2, 15, BadValue),
        (code::PROBE, 7, 9, 7, BadValue),
        (code::PROBE, 7, 0, 7, BadValue),
        (code::PROBE, 8, 9, 8, BadValue),
        (code::PROBE, 8, 0, 8, BadValue),
        (code::PROBE_ANS, 7, 13, 6, LengthPast),
        (code::PROBE_ANS, 7, 11, 15, LengthPast),
        (code::PROBE_ANS, 9, 5, 9, BadValue),
        (code::PROBE_ANS, 9, 3, 9, BadValue),
        (code::PROBE_ANS, 15, 5, 15, BadValue),
        (code::PROBE_ANS, 15, 3, 15, BadValue),
        (code::PROBE_ANS, 8, 9, 8, BadValue),
        (code::PROBE_ANS, 8, 0, 8, BadValue),
        (code::PROBE_ANS, 14, 9, 14, BadValue),
        (code::PROBE_ANS, 14, 0, 14, BadValue),
        (code::STORE, 6, 17, 6, BadValue),
        (code::STORE, 6, 15, 6, BadValue),
        (code::STORE, 27, 67, 24, LengthPast),
        (code::STORE, 27, 65, 88, LengthPast),
        (code::STORE, 43, 33, 77, Short),
        (code::STORE, 43, 31, 44, LengthPast),
        (code::STORE, 47, 29, 44, LengthPast),
        (code::STORE, 47, 27, 75, Short),
        (code::STORE, 64, 2, 69, BadValue),
        (code::STORE, 64, 0, 67, BadValue),
        (code::STORE, 70, 4, 74, Trailing),
        (code::STORE, 70, 2, 72, LengthPast),
        (code::STORE, 72, 2, 72, LengthPast),
        (code::STORE, 72, 0, 73, Trailing),
        (code::STORE, 75, 1, 74, LengthPast),
        (code::STORE, 91, 3, 88, LengthPast),
        (code::STORE, 91, 1, 94, Short),
        (code::STORE, 60, 2, 60, BadValue),
        (code::STORE, 68, 9, 68, BadValue),
        (code::STORE, 68, 0, 68, BadValue),
        (code::STORE_ANS, 7, 31, 6, LengthPast),
        (code::STORE_ANS, 7, 29, 20, LengthPast),
        (code::STORE_ANS, 21, 17, 20, LengthPast),
        (code::STORE_ANS, 21, 15, 37, Short),
        (code::FETCH, 6, 17, 6, BadValue),
        (code::FETCH, 6, 15, 6, BadValue),
        (code::FETCH, 24, 73, 23, LengthPast),
        (code::FETCH, 24, 71, 94, LengthPast),
        (code::FETCH, 38, 1, 39, Trailing),
        (code::FETCH, 52, 11, 63, Trailing),
        (code::FETCH, 52, 9, 53, LengthPast),
        (code::FETCH, 54, 9, 53, LengthPast),
        (code::FETCH, 54, 7, 62, Short),
        (code::FETCH, 76, 6, 82, Trailing),
        (code::FETCH, 76, 4, 77, LengthPast),
        (code::FETCH, 78, 4, 77, LengthPast),
        (code::FETCH, 78, 2, 79, LengthPast),
        (code::FETCH, 80, 2, 79, LengthPast),
        (code::FETCH, 80, 0, 82, Short),
        (code::FETCH, 95, 2, 94, LengthPast),
        (code::FETCH, 95, 0, 97, Short),
        (code::FETCH_ANS, 9, 98, 6, LengthPast),
        (code::FETCH_ANS, 9, 96, 72, LengthPast),
        (code::FETCH_ANS, 25, 35, 61, Short),
        (code::FETCH_ANS, 25, 33, 26, LengthPast),
        (code::FETCH_ANS, 29, 31, 26, LengthPast),
        (code::FETCH_ANS, 29, 29, 57, LengthPast),
        (code::FETCH_ANS, 50, 2, 55, BadValue),
        (code::FETCH_ANS, 50, 0, 53, BadValue),
        (code::FETCH_ANS, 56, 1, 57, Trailing),
        (code::FETCH_ANS, 58, 2, 57, LengthPast),
        (code::FETCH_ANS, 58, 0, 59, Trailing),
        (code::FETCH_ANS, 75, 32, 72, LengthPast),
        (code::FETCH_ANS, 75, 30, 76, LengthPast),
        (code::FETCH_ANS, 79, 28, 76, LengthPast),
        (code::FETCH_ANS, 79, 26, 106, Short),
        (code::FETCH_ANS, 93, 2, 103, BadValue),
        (code::FETCH_ANS, 93, 0, 94, BadValue),
        (code::FETCH_ANS, 99, 1, 96, BadValue),
        (code::FETCH_ANS, 104, 1, 105, Trailing),
        (code::FETCH_ANS, 106, 1, 105, LengthPast),
        (code::FETCH_ANS, 46, 2, 46, BadValue),
        (code::FETCH_ANS, 95, 2, 95, BadValue),
        (code::FETCH_ANS, 54, 9, 54, BadValue),
        (code::FETCH_ANS, 54, 0, 54, BadValue),
        (code::FETCH_ANS, 102, 9, 102, BadValue),
        (code::FETCH_ANS, 102, 0, 102, BadValue),
        (code::JOIN, 23, 1, 22, LengthPast),
        (code::JOIN_ANS, 7, 2, 6, LengthPast),
        (code::JOIN_ANS, 7, 0, 8, Trailing),
        (code::LEAVE, 23, 20, 22, LengthPast),
        (code::LEAVE, 23, 18, 25, LengthPast),
        (code::LEAVE, 26, 17, 25, LengthPast),
        (code::LEAVE, 26, 15, 42, Short),
        (code::LEAVE, 24, 9, 24, BadValue),
        (code::LEAVE, 24, 0, 24, BadValue),
        (code::LEAVE_ANS, 5, 1, 6, Trailing),
        (code::UPDATE, 12, 17, 30, Short),
        (code::UPDATE, 12, 15, 28, Short),
        (code::UPDATE, 30, 17, 48, Short),
        (code::UPDATE, 30, 15, 46, Short),
        (code::UPDATE, 48, 17, 47, LengthPast),
        (code::UPDATE, 48, 15, 64, Short),
        (code::UPDATE, 10, 9, 10, BadValue),
        (code::UPDATE, 10, 0, 10, BadValue),
        (code::PING, 7, 1, 6, LengthPast),
        (code::PATH_TRACK, 7, 18, 7, BadValue),
        (code::PATH_TRACK, 7, 16, 7, BadValue),
        (code::PATH_TRACK, 8, 17, 8, BadValue),
        (code::PATH_TRACK, 8, 15, 8, BadValue),
        (code::PATH_TRACK, 6, 9, 6, BadValue),
        (code::PATH_TRACK, 6, 0, 6, BadValue),
        (code::PATH_TRACK_ANS, 7, 17, 7, BadValue),
        (code::PATH_TRACK_ANS, 7, 15, 7, BadValue),
        (code::PATH_TRACK_ANS, 42, 6, 41, LengthPast),
        (code::PATH_TRACK_ANS, 42, 4, 45, LengthPast),
        (code::PATH_TRACK_ANS, 46, 2, 45, LengthPast),
        (code::PATH_TRACK_ANS, 46, 0, 48, Short),
        (code::PATH_TRACK_ANS, 6, 9, 6, BadValue),
        (code::PATH_TRACK_ANS, 6, 0, 6, BadValue),
        (code::ERROR, 9, 4, 8, LengthPast),
        (code::ERROR, 9, 2, 12, Trailing),
        (0x19, 5, 4, 10, LengthPast),
        (0x19, 5, 2, 8, LengthPast),
    ]
}

fn config(rt: &HostRuntime) -> Result<Config, Fail> {
    let mut kinds = List::new(rt.alloc());
    for (id, model) in [
        (256, DataModel::Single),
        (257, DataModel::Array),
        (258, DataModel::Dictionary),
    ] {
        kinds.push(KindDef {
            id,
            model,
            policy: Policy::NodeMatch,
            max_count: 4,
            max_size: 9,
            multiple: 0,
        })?;
    }
    Ok(Config {
        name: Bytes::from_slice(rt.alloc(), b"abc")?,
        sequence: 1,
        replicas: 2,
        kinds,
    })
}

/// Contents of a code, a body and extensions.
fn message(rt: &HostRuntime, code: u16, body: &[u8], extensions: &[u8]) -> Result<Bytes, Fail> {
    let mut bytes = Bytes::new(rt.alloc());
    put_u16(&mut bytes, code)?;
    put_u32(&mut bytes, (body.len() & 0xffff) as u32)?;
    bytes.extend(body)?;
    put_u32(&mut bytes, (extensions.len() & 0xffff) as u32)?;
    bytes.extend(extensions)?;
    Ok(bytes)
}

fn fault_of(rt: &HostRuntime, config: &Config, bytes: &Bytes) -> Option<DecodeFault> {
    decode_contents(rt.alloc(), config, &mut Cursor::new(bytes.as_slice(), 0)).err()
}

#[test]
fn bodies(rt: HostRuntime) -> Result<(), Fail> {
    let config = config(&rt)?;
    for &code in codes() {
        let bytes = message(&rt, code, body(code), extension())?;
        let mut from = Cursor::new(bytes.as_slice(), 0);
        let contents = decode_contents(rt.alloc(), &config, &mut from)?;
        assert!(rt; from.is_empty() && contents.fits());
        assert_eq!(rt; contents.body.code(), code);
        assert_eq!(rt; contents.extensions.len(), 1);
        let again = encode_contents(rt.alloc(), &contents)?;
        assert_eq!(rt; again.as_slice(), bytes.as_slice());
    }
    Ok(())
}

#[test]
fn fronts(rt: HostRuntime) -> Result<(), Fail> {
    let config = config(&rt)?;
    for &(code, first, end, at, reason) in front_rows() {
        for len in first..end {
            let whole = body(code);
            assert!(rt; len < whole.len());
            let bytes = message(&rt, code, whole.split_at(len).0, &[])?;
            let place = if at == 0 { 6 + len as u64 } else { at };
            assert_eq!(rt;
                fault_of(&rt, &config, &bytes),
                Some(DecodeFault::Bad(Bad { place, reason }))
            );
        }
    }
    Ok(())
}

#[test]
fn changes(rt: HostRuntime) -> Result<(), Fail> {
    let config = config(&rt)?;
    for &(code, at, byte, place, reason) in change_rows() {
        let mut bytes = message(&rt, code, body(code), extension())?;
        assert!(rt; at < bytes.len());
        bytes.set(at, byte);
        assert_eq!(rt;
            fault_of(&rt, &config, &bytes),
            Some(DecodeFault::Bad(Bad { place, reason }))
        );
    }
    Ok(())
}
