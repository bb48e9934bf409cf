use forwarding_header::*;
use reload_base::{Bytes, List, NoMemory};
use reload_ids::{NodeId, ResourceId};
use std::alloc::{AllocError, Global};
use std::process::Abort;
use std::test::*;
use wire_core::{Bad, DecodeFault, Reason};

/// A message of 38 bytes, whose header has empty lists.
const PLAIN: [u8; 38] = [
    0xd2, 0x45, 0x4c, 0x4f, 0x9c, 0xd0, 0xd8, 0x9d, 0, 1, 0x0a, 100, 0xc0, 0, 0, 0, 0, 0, 0, 38, 0,
    0, 0, 2, 0, 0, 0, 1, 0, 0, 0, 0, 0, 0, 0, 0, 0, 0,
];

/// The header of a message of 97 bytes: a node and a short destination in its via list, a resource
/// and opaque bytes twice in its destination list, and two options.
const FULL: [u8; 95] = [
    0xd2, 0x45, 0x4c, 0x4f, 0x9c, 0xd0, 0xd8, 0x9d, 1, 2, 0x0a, 7, 0xc0, 0, 0, 0, 0, 0, 0, 97, 0,
    0, 0, 2, 0, 0, 0, 1, 0, 0, 0x10, 0, 0, 20, 0, 27, 0, 10, // the via list
    1, 16, 0x80, 0, 0, 0, 0, 0, 0, 0, 0, 0, 0, 0, 0, 0, 0, 5, 0x80, 1, // the destination list
    2, 17, 16, 0xa9, 0, 0, 0, 0, 0, 0, 0, 0, 0, 0, 0, 0, 0, 0, 6, 3, 3, 2, 0xaa, 0xbb, 3, 1, 0,
    // the options
    1, 7, 0, 2, 0x10, 0x20, 0xff, 0, 0, 0,
];

/// The bytes with others in their place from `at` on.
fn patched(alloc: Global, bytes: &[u8], at: usize, patch: &[u8]) -> Result<Vec<u8>, AllocError> {
    let mut patched = bytes.to_vec(alloc)?;
    for (old, new) in patched.iter_mut().skip(at).zip(patch) {
        *old = *new;
    }
    Ok(patched)
}

/// A message with these three lengths and these bytes of lists, which says its own length.
fn with_lists(alloc: Global, lengths: [u8; 6], lists: &[u8]) -> Result<Vec<u8>, AllocError> {
    let mut message = PLAIN[..32].to_vec(alloc)?;
    message.extend_from_slice(&lengths)?;
    message.extend_from_slice(lists)?;
    let total = u8::try_from(message.len()).unwrap_or(0);
    patched(alloc, &message, 19, &[total])
}

fn refused(rt: &impl Abort, alloc: Global, message: &[u8], place: u64, reason: Reason) {
    match decode_header(alloc, message) {
        Err(DecodeFault::Bad(bad)) => assert_eq!(rt; bad, Bad { place, reason }, "{message:?}"),
        _ => panic!(rt; "{message:?} is not refused"),
    }
}

#[test]
fn each_field_cut_short(rt: HostRuntime) -> Result<(), Fail> {
    for len in 0..38u8 {
        let front = PLAIN.get(..usize::from(len)).ok_or("within")?;
        let message = patched(rt.alloc(), front, 19, &[len])?;
        refused(&rt, rt.alloc(), &message, u64::from(len), Reason::Short);
    }
    Ok(())
}

#[test]
fn fields_of_fixed_size(rt: HostRuntime) -> Result<(), Fail> {
    let cases: [(usize, &[u8], u64, Reason); 18] = [
        (0, &[0xd3], 0, Reason::BadValue),
        (3, &[0x4e], 0, Reason::BadValue),
        (10, &[0x0b], 10, Reason::BadValue),
        (12, &[0x80], 12, Reason::BadValue),
        (15, &[1], 12, Reason::BadValue),
        (16, &[0, 0, 0, 0], 0, Reason::Trailing),
        (16, &[0, 0, 0, 37], 37, Reason::Trailing),
        (16, &[0, 0, 0, 39], 16, Reason::LengthPast),
        (16, &[0, 4, 0, 0], 16, Reason::LengthPast),
        (16, &[0, 4, 0, 1], 16, Reason::TooLarge),
        (32, &[0, 1], 32, Reason::LengthPast),
        (32, &[0x10, 0], 32, Reason::LengthPast),
        (32, &[0x10, 1], 32, Reason::TooLarge),
        (34, &[0, 1], 34, Reason::LengthPast),
        (34, &[0x10, 1], 34, Reason::TooLarge),
        (36, &[0, 1], 36, Reason::LengthPast),
        (36, &[0x10, 1], 36, Reason::TooLarge),
        (32, &[0, 1, 0, 0, 0x10, 1], 36, Reason::TooLarge),
    ];
    for (at, patch, place, reason) in cases {
        let message = patched(rt.alloc(), &PLAIN, at, patch)?;
        refused(&rt, rt.alloc(), &message, place, reason);
    }
    Ok(())
}

#[test]
fn entries_of_lists(rt: HostRuntime) -> Result<(), Fail> {
    let cases: [([u8; 6], &[u8], u64, Reason); 32] = [
        ([0, 1, 0, 0, 0, 0], &[0], 38, Reason::BadValue),
        ([0, 1, 0, 0, 0, 0], &[4], 38, Reason::BadValue),
        ([0, 1, 0, 0, 0, 0], &[127], 38, Reason::BadValue),
        ([0, 1, 0, 0, 0, 0], &[128], 39, Reason::Short),
        ([0, 1, 0, 0, 0, 0], &[1], 39, Reason::Short),
        ([0, 2, 0, 0, 0, 0], &[1, 15], 39, Reason::BadValue),
        ([0, 2, 0, 0, 0, 0], &[1, 17], 39, Reason::BadValue),
        (
            [0, 17, 0, 0, 0, 0],
            &[1, 15, 0, 0, 0, 0, 0, 0, 0, 0, 0, 0, 0, 0, 0, 0, 0],
            39,
            Reason::BadValue,
        ),
        (
            [0, 17, 0, 0, 0, 0],
            &[1, 16, 0, 0, 0, 0, 0, 0, 0, 0, 0, 0, 0, 0, 0, 0, 0],
            39,
            Reason::LengthPast,
        ),
        (
            [0, 19, 0, 0, 0, 0],
            &[1, 17, 0, 0, 0, 0, 0, 0, 0, 0, 0, 0, 0, 0, 0, 0, 0, 0, 0],
            39,
            Reason::BadValue,
        ),
        (
            [0, 19, 0, 0, 0, 0],
            &[1, 16, 0, 0, 0, 0, 0, 0, 0, 0, 0, 0, 0, 0, 0, 0, 0, 0, 0],
            56,
            Reason::BadValue,
        ),
        ([0, 2, 0, 0, 0, 0], &[2, 16], 39, Reason::BadValue),
        ([0, 2, 0, 0, 0, 0], &[2, 18], 39, Reason::BadValue),
        ([0, 3, 0, 0, 0, 0], &[2, 17, 16], 39, Reason::LengthPast),
        (
            [0, 19, 0, 0, 0, 0],
            &[2, 17, 15, 0, 0, 0, 0, 0, 0, 0, 0, 0, 0, 0, 0, 0, 0, 0, 0],
            40,
            Reason::BadValue,
        ),
        ([0, 2, 0, 0, 0, 0], &[3, 0], 40, Reason::Short),
        ([0, 4, 0, 0, 0, 0], &[3, 2, 0, 9], 40, Reason::BadValue),
        ([0, 4, 0, 0, 0, 0], &[3, 2, 2, 9], 40, Reason::BadValue),
        ([0, 4, 0, 0, 0, 0], &[3, 3, 2, 9], 39, Reason::LengthPast),
        ([0, 0, 0, 1, 0, 0], &[4], 38, Reason::BadValue),
        ([0, 2, 0, 1, 0, 0], &[128, 1, 4], 40, Reason::BadValue),
        ([0, 1, 0, 0, 0, 0], &[128, 1], 39, Reason::Short),
        ([0, 3, 0, 0, 0, 0], &[128, 1], 32, Reason::LengthPast),
        ([0, 0, 0, 1, 0, 0], &[128, 1], 39, Reason::Short),
        ([0, 0, 0, 3, 0, 0], &[128, 1], 34, Reason::LengthPast),
        ([0, 0, 0, 0, 0, 3], &[1, 7, 0, 0], 41, Reason::Short),
        ([0, 0, 0, 0, 0, 5], &[1, 7, 0, 0], 36, Reason::LengthPast),
        ([0, 0, 0, 0, 0, 6], &[1, 7, 0, 1, 9, 8], 44, Reason::Short),
        ([0, 0, 0, 0, 0, 1], &[1], 39, Reason::Short),
        ([0, 0, 0, 0, 0, 2], &[1, 7], 40, Reason::Short),
        ([0, 0, 0, 0, 0, 3], &[1, 7, 0], 41, Reason::Short),
        ([0, 0, 0, 0, 0, 5], &[1, 7, 0, 2, 9], 40, Reason::LengthPast),
    ];
    for (lengths, lists, place, reason) in cases {
        let message = with_lists(rt.alloc(), lengths, lists)?;
        refused(&rt, rt.alloc(), &message, place, reason);
    }
    Ok(())
}

/// The header that `FULL` spells.
fn full(alloc: Global) -> Result<Header, NoMemory> {
    let mut via = List::new(alloc);
    via.push(Destination::Node(NodeId((1 << 127) + 5)))?;
    via.push(Destination::Short(0x8001))?;
    let mut dest = List::new(alloc);
    dest.push(Destination::Resource(ResourceId((0xa9 << 120) + 6)))?;
    dest.push(Destination::Opaque(Bytes::from_slice(alloc, &[0xaa, 0xbb])?))?;
    dest.push(Destination::Opaque(Bytes::new(alloc)))?;
    let mut options = List::new(alloc);
    options.push(ForwardingOption {
        code: 1,
        flags: 7,
        value: Bytes::from_slice(alloc, &[0x10, 0x20])?,
    })?;
    options.push(ForwardingOption {
        code: 0xff,
        flags: 0,
        value: Bytes::new(alloc),
    })?;
    Ok(Header {
        overlay: 0x9cd0_d89d,
        sequence: 0x0102,
        ttl: 7,
        length: 97,
        id: 0x2_0000_0001,
        max_response: 0x1000,
        via,
        dest,
        options,
    })
}

#[test]
fn a_header_there_and_back(rt: HostRuntime) -> Result<(), Fail> {
    let header = full(rt.alloc())?;
    assert!(rt; fits(&header));
    let written = encode_header(rt.alloc(), &header)?;
    assert_eq!(rt; written.as_slice(), FULL.as_slice());

    let mut message = FULL.to_vec(rt.alloc())?;
    message.extend_from_slice(&[0xee, 0xee])?;
    let (read, place) = decode_header(rt.alloc(), &message)
        .ok()
        .ok_or("it is spelled")?;
    assert_eq!(rt; place, 95);
    assert_eq!(rt;
        format!(in rt.alloc(); "{read:?}")?,
        format!(in rt.alloc(); "{header:?}")?
    );
    Ok(())
}

#[test]
fn entries_without_a_spelling(rt: HostRuntime) -> Result<(), Fail> {
    let mut header = full(rt.alloc())?;
    header.via.push(Destination::Opaque(Bytes::from_slice(rt.alloc(), &[0; 254])?))?;
    assert!(rt; fits(&header));
    header.via.push(Destination::Opaque(Bytes::from_slice(rt.alloc(), &[0; 255])?))?;
    assert!(rt; !fits(&header));

    let mut header = full(rt.alloc())?;
    header.dest.push(Destination::Short(0x7fff))?;
    assert!(rt; !fits(&header));
    Ok(())
}

#[test]
fn the_longest_list(rt: HostRuntime) -> Result<(), Fail> {
    // The destinations have 27 bytes, and 226 nodes more 4,068.
    let mut header = full(rt.alloc())?;
    for i in 0..226u8 {
        header.dest.push(Destination::Node(NodeId(u128::from(i))))?;
    }
    assert!(rt; fits(&header));
    header.dest.push(Destination::Short(0x8000))?;
    assert!(rt; !fits(&header));
    Ok(())
}

#[test]
fn the_way_back(rt: HostRuntime) -> Result<(), Fail> {
    let header = full(rt.alloc())?;
    let back = reversed(rt.alloc(), NodeId(9), &header.via)?;
    assert_eq!(rt; back.len(), 3);
    assert!(rt; matches!(back.get(0), Some(Destination::Node(NodeId(9)))));
    assert!(rt; matches!(back.get(1), Some(Destination::Short(0x8001))));
    assert!(rt; matches!(back.get(2), Some(Destination::Node(_))));
    Ok(())
}
