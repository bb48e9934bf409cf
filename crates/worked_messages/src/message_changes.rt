//! Messages of which one length or one byte is changed: which fault is told.

use crate::message_listings::{Found, Read, assert_found, assert_lines, framed};
use crate::messages::*;
use Found::{BadValue, LengthPast, Short, Trailing};
use std::process::Abort;
use std::test::Fail;

// A length: its place and its bytes, and what is found where it is one more, and one less.
type Length = (usize, usize, &'static [Found]);

// The lengths of contents up to the extensions: of bodies, at 2, and of what is in them. An empty
// body can't have one byte less.
const LENGTHS: [(&str, Length); 52] = [
    (PROBE, (2, 4, &[Trailing(10), LengthPast(6)])),
    (PROBE, (6, 1, &[LengthPast(6), Trailing(9)])),
    (PROBE_ANS, (2, 4, &[Trailing(26), LengthPast(6)])),
    (PROBE_ANS, (6, 2, &[LengthPast(6), LengthPast(21)])),
    (STORE, (2, 4, &[Trailing(65), LengthPast(24)])),
    (STORE, (24, 4, &[LengthPast(24), LengthPast(59)])),
    (STORE, (40, 4, &[LengthPast(60), LengthPast(58)])),
    (STORE, (59, 4, &[LengthPast(59), Short(65)])),
    (STORE_ANS, (2, 4, &[Trailing(84), LengthPast(6)])),
    (STORE_ANS, (6, 2, &[LengthPast(6), LengthPast(66)])),
    (STORE_ANS, (20, 2, &[Short(55), Short(53)])),
    (STORE_ANS, (66, 2, &[LengthPast(66), Short(83)])),
    (FETCH, (2, 4, &[Trailing(56), LengthPast(23)])),
    (FETCH, (23, 2, &[LengthPast(23), LengthPast(53)])),
    (FETCH, (37, 2, &[LengthPast(54), LengthPast(52)])),
    (FETCH, (53, 2, &[LengthPast(53), Short(56)])),
    (FETCH_ANS, (2, 4, &[Trailing(47), LengthPast(6)])),
    (FETCH_ANS, (6, 4, &[LengthPast(6), LengthPast(40)])),
    (FETCH_ANS, (22, 4, &[LengthPast(41), LengthPast(39)])),
    (FETCH_ANS, (40, 4, &[LengthPast(40), Short(47)])),
    (JOIN, (2, 4, &[Trailing(26), LengthPast(22)])),
    (JOIN, (22, 2, &[LengthPast(22), Trailing(25)])),
    (JOIN_ANS, (2, 4, &[Trailing(11), LengthPast(6)])),
    (JOIN_ANS, (6, 2, &[LengthPast(6), Trailing(10)])),
    (
        LEAVE_FROM_SUCCESSOR,
        (2, 4, &[Trailing(59), LengthPast(22)]),
    ),
    (
        LEAVE_FROM_SUCCESSOR,
        (22, 2, &[LengthPast(22), LengthPast(25)]),
    ),
    (LEAVE_FROM_SUCCESSOR, (25, 2, &[LengthPast(25), Short(58)])),
    (
        LEAVE_FROM_PREDECESSOR,
        (2, 4, &[Trailing(43), LengthPast(22)]),
    ),
    (
        LEAVE_FROM_PREDECESSOR,
        (22, 2, &[LengthPast(22), LengthPast(25)]),
    ),
    (
        LEAVE_FROM_PREDECESSOR,
        (25, 2, &[LengthPast(25), Short(42)]),
    ),
    (LEAVE_ANS, (2, 4, &[Trailing(6)])),
    (UPDATE_READY, (2, 4, &[Trailing(11), Short(10)])),
    (UPDATE_NEIGHBORS, (2, 4, &[Trailing(63), LengthPast(29)])),
    (UPDATE_NEIGHBORS, (11, 2, &[Short(30), Short(28)])),
    (UPDATE_NEIGHBORS, (29, 2, &[LengthPast(29), Short(62)])),
    (UPDATE_FULL, (2, 4, &[Trailing(81), LengthPast(47)])),
    (UPDATE_FULL, (11, 2, &[Short(30), Short(28)])),
    (UPDATE_FULL, (29, 2, &[Short(48), Short(46)])),
    (UPDATE_FULL, (47, 2, &[LengthPast(47), Short(80)])),
    (UPDATE_ANS, (2, 4, &[Trailing(6)])),
    (PING, (2, 4, &[Trailing(11), LengthPast(6)])),
    (PING, (6, 2, &[LengthPast(6), Trailing(10)])),
    (PING_ANS, (2, 4, &[Trailing(22), Short(21)])),
    (TRACK_A_NODE, (2, 4, &[Trailing(48), Short(47)])),
    (TRACK_A_RESOURCE, (2, 4, &[Trailing(49), Short(48)])),
    (TRACK_ANS, (2, 4, &[Trailing(56), LengthPast(41)])),
    (TRACK_ANS, (41, 2, &[LengthPast(41), LengthPast(50)])),
    (TRACK_ANS, (45, 2, &[LengthPast(51), LengthPast(49)])),
    (TRACK_ANS, (50, 2, &[LengthPast(50), Short(56)])),
    (ERROR, (2, 4, &[Trailing(13), LengthPast(8)])),
    (ERROR, (8, 2, &[LengthPast(8), Trailing(12)])),
    (OTHER, (2, 4, &[LengthPast(12), LengthPast(10)])),
];

// The lengths of lists, destinations and of an option in the header, by their places in it.
const HEADER_LENGTHS: [Length; 8] = [
    (32, 2, &[Short(59), Short(57)]),
    (34, 2, &[Short(84), LengthPast(78)]),
    (36, 2, &[Short(90), LengthPast(85)]),
    (39, 1, &[BadValue(39), BadValue(39)]),
    (59, 1, &[BadValue(59), BadValue(59)]),
    (78, 1, &[LengthPast(78), BadValue(79)]),
    (79, 1, &[BadValue(79), BadValue(79)]),
    (85, 2, &[LengthPast(85), Short(89)]),
];

// Those of the extensions and of what is in them.
const EXTENSION_LENGTHS: [Length; 3] = [
    (0, 4, &[Short(23), LengthPast(17)]),
    (7, 4, &[LengthPast(18), Short(22)]),
    (17, 4, &[LengthPast(17), Short(22)]),
];

// Those of a security block: certificates, a certificate, the identity and the hash in it, and the
// signature's value, of which one byte less leaves one behind the block.
const BLOCK_LENGTHS: [Length; 5] = [
    (0, 2, &[Short(9), LengthPast(3)]),
    (3, 2, &[LengthPast(3), Short(8)]),
    (11, 2, &[Trailing(17), LengthPast(14)]),
    (14, 1, &[LengthPast(14), Trailing(16)]),
    (17, 2, &[LengthPast(17)]),
];

// A byte of few values: its place, and the least and the greatest of these.
type Values = (usize, u8, u8);

// Types, lengths that a type fixes, and the byte before a Resource-ID, in contents.
const KNOWN: [(&str, Values); 23] = [
    (PROBE, (7, 1, 3)),
    (PROBE, (8, 1, 3)),
    (PROBE, (9, 1, 3)),
    (PROBE_ANS, (8, 1, 3)),
    (PROBE_ANS, (9, 4, 4)),
    (PROBE_ANS, (14, 1, 3)),
    (PROBE_ANS, (15, 4, 4)),
    (PROBE_ANS, (20, 1, 3)),
    (PROBE_ANS, (21, 4, 4)),
    (STORE, (6, 16, 16)),
    (FETCH, (6, 16, 16)),
    (LEAVE_FROM_SUCCESSOR, (24, 1, 2)),
    (LEAVE_FROM_PREDECESSOR, (24, 1, 2)),
    (UPDATE_READY, (10, 1, 3)),
    (UPDATE_NEIGHBORS, (10, 1, 3)),
    (UPDATE_FULL, (10, 1, 3)),
    (TRACK_A_NODE, (6, 1, 2)),
    (TRACK_A_NODE, (7, 16, 16)),
    (TRACK_A_RESOURCE, (6, 1, 2)),
    (TRACK_A_RESOURCE, (7, 17, 17)),
    (TRACK_A_RESOURCE, (8, 16, 16)),
    (TRACK_ANS, (6, 1, 1)),
    (TRACK_ANS, (7, 16, 16)),
];

// Bytes of the header, and at which byte their field begins.
const HEADER_KNOWN: [(usize, Values); 13] = [
    (0, (0, 0xd2, 0xd2)),
    (0, (1, 0x45, 0x45)),
    (0, (2, 0x4c, 0x4c)),
    (0, (3, 0x4f, 0x4f)),
    (10, (10, 0x0a, 0x0a)),
    (12, (12, 0xc0, 0xc0)),
    (12, (13, 0, 0)),
    (12, (14, 0, 0)),
    (12, (15, 0, 0)),
    (39, (39, 16, 16)),
    (59, (59, 17, 17)),
    (60, (60, 16, 16)),
    (79, (79, 3, 3)),
];

// Where destinations have their types, and these. From 128 on a byte begins a Short.
const DESTINATION_TYPES: [(usize, usize); 3] = [(38, 1), (58, 2), (77, 3)];

// Where the extensions say whether they are critical.
const BOOLEANS: [usize; 2] = [6, 16];

// Where a security block has the type of its identity.
const IDENTITY: usize = 10;

// That a length at a place, one more and one less, is found so.
fn assert_length(
    rt: &(impl Abort + AllocGlobal),
    message: &[u8],
    origin: usize,
    read: Read,
    length: Length,
) -> Result<(), Fail> {
    let (place, width, founds) = length;
    let place = place.wrapping_add(origin);
    let number = number_at(message, place, width);
    let changes = [number.wrapping_add(1), number.wrapping_sub(1)];
    for (number, found) in changes.iter().zip(founds) {
        let mut changed = message.to_vec(rt.alloc())?;
        set_number(&mut changed, place, width, *number);
        assert_found(rt, &changed, read, found.from(origin))?;
    }
    Ok(())
}

#[test]
fn lengths_of_bodies_one_more_and_one_less(rt: HostRuntime) -> Result<(), Fail> {
    for (contents, length) in LENGTHS {
        let message = message_of(rt.alloc(), contents)?;
        assert_length(&rt, &message, CONTENTS, Read::Header, length)?;
    }
    Ok(())
}

#[test]
fn other_lengths_one_more_and_one_less(rt: HostRuntime) -> Result<(), Fail> {
    for contents in MESSAGES {
        let message = message_of(rt.alloc(), contents)?;
        let (extensions, block) = ends_of(&message);
        for length in HEADER_LENGTHS {
            assert_length(&rt, &message, 0, Read::Frame, length)?;
        }
        for length in EXTENSION_LENGTHS {
            assert_length(&rt, &message, extensions, Read::Header, length)?;
        }
        for length in BLOCK_LENGTHS {
            assert_length(&rt, &message, block, Read::Contents(2), length)?;
        }
    }
    Ok(())
}

#[test]
fn a_signature_of_one_byte_less(rt: HostRuntime) -> Result<(), Fail> {
    for contents in MESSAGES {
        let mut message = message_of(rt.alloc(), contents)?;
        let (_, block) = ends_of(&message);
        set_number(&mut message, block.wrapping_add(17), 2, 1);
        assert_found(
            &rt,
            &message,
            Read::Block(2, 1, 1),
            Trailing(20).from(block),
        )?;
    }
    Ok(())
}

#[test]
fn lengths_of_frame_and_message_one_more_and_one_less(rt: HostRuntime) -> Result<(), Fail> {
    for contents in MESSAGES {
        let message = message_of(rt.alloc(), contents)?;
        let stream = framed(rt.alloc(), &message)?;
        let (len, end) = (message.len(), stream.len());
        let (less, last) = (len.wrapping_sub(1), end.wrapping_sub(1));
        let cases = [
            (
                5,
                3,
                len.wrapping_add(1),
                format!(in rt.alloc(); "bad {end} short\n")?,
            ),
            (
                5,
                3,
                less,
                format!(in rt.alloc(); "frame 0 payload 1 {less}\nbad 24 length-past\n")?,
            ),
            (
                24,
                4,
                len.wrapping_add(1),
                format!(in rt.alloc(); "frame 0 payload 1 {len}\nbad 24 length-past\n")?,
            ),
            (
                24,
                4,
                less,
                format!(in rt.alloc(); "frame 0 payload 1 {len}\nbad {last} trailing\n")?,
            ),
        ];
        for (place, width, number, lines) in cases {
            let mut changed = stream.to_vec(rt.alloc())?;
            set_number(&mut changed, place, width, number);
            assert_lines(&rt, &changed, lines.as_bytes(), false)?;
        }
    }
    Ok(())
}

// That a byte with each value that it can't have is a bad value of its field. Places are counted
// from the origin.
fn assert_known(
    rt: &(impl Abort + AllocGlobal),
    message: &[u8],
    origin: usize,
    read: Read,
    field: usize,
    known: Values,
) -> Result<(), Fail> {
    let (place, least, most) = known;
    let mut changed = message.to_vec(rt.alloc())?;
    for value in 0..=u8::MAX {
        if value < least || most < value {
            set_number(
                &mut changed,
                place.wrapping_add(origin),
                1,
                usize::from(value),
            );
            assert_found(rt, &changed, read, BadValue(field).from(origin))?;
        }
    }
    Ok(())
}

#[test]
fn unknown_types_in_bodies(rt: HostRuntime) -> Result<(), Fail> {
    for (contents, known) in KNOWN {
        let message = message_of(rt.alloc(), contents)?;
        assert_known(&rt, &message, CONTENTS, Read::Header, known.0, known)?;
    }
    Ok(())
}

#[test]
fn unknown_values_in_other_parts(rt: HostRuntime) -> Result<(), Fail> {
    let message = message_of(rt.alloc(), PING)?;
    let (extensions, block) = ends_of(&message);
    for (field, known) in HEADER_KNOWN {
        assert_known(&rt, &message, 0, Read::Frame, field, known)?;
    }
    for place in BOOLEANS {
        assert_known(
            &rt,
            &message,
            extensions,
            Read::Header,
            place,
            (place, 0, 1),
        )?;
    }
    let identity = (IDENTITY, 1, 3);
    assert_known(&rt, &message, block, Read::Contents(2), IDENTITY, identity)
}

#[test]
fn unknown_types_of_destinations(rt: HostRuntime) -> Result<(), Fail> {
    let mut message = message_of(rt.alloc(), PING)?;
    for (place, known) in DESTINATION_TYPES {
        for value in 0..=127u8 {
            if !matches!(value, 1..=3) {
                set_number(&mut message, place, 1, usize::from(value));
                assert_found(&rt, &message, Read::Frame, BadValue(place))?;
            }
        }
        set_number(&mut message, place, 1, known);
    }
    Ok(())
}

#[test]
fn booleans_of_two(rt: HostRuntime) -> Result<(), Fail> {
    for contents in MESSAGES {
        let message = message_of(rt.alloc(), contents)?;
        let (extensions, _) = ends_of(&message);
        for place in BOOLEANS {
            let mut changed = message.to_vec(rt.alloc())?;
            set_number(&mut changed, extensions.wrapping_add(place), 1, 2);
            assert_found(
                &rt,
                &changed,
                Read::Header,
                BadValue(place).from(extensions),
            )?;
        }
    }
    Ok(())
}
