//! A message of each message code, whose lists all have entries, as hex digits field by field.

use reload_base::{Bytes, NoMemory};
use std::alloc::Global;

// The header of each: a Node-ID and a Short in the via list, a Resource-ID and an opaque in the
// destination list, and an option. The length of the message, at 16, is put in.
const HEADER: &str =
    "d2454c4f 9cd0d89d 0001 0a 64 c0000000 00000000 0000000200000001 00001000 0014 0019 0006 \
    01 10 11111111111111111111111111111111 8001 \
    02 11 10 22222222222222222222222222222222 03 04 03 313233 \
    01 02 0002 4142";

// The extensions of each, one of them critical.
const EXTENSIONS: &str = "00000012 8002 01 00000003 515253 0001 00 00000001 54";

// The security block of each: a certificate, the identity of a hash, and a signature.
const BLOCK: &str = "0006 e0 0003 616263 04 e0 01 0004 04 02 7172 0002 7374";

/// Where contents begin in a message, behind its header.
pub const CONTENTS: usize = 89;

/// The bytes of the extensions, with their length.
pub const EXTENSIONS_SIZE: usize = 22;

/// A Probe that asks for each information.
pub const PROBE: &str = "0001 00000004 03 01 02 03";

/// Its answer.
pub const PROBE_ANS: &str = "0002 00000014 0012 01 04 000001f4 02 04 00000007 03 04 0000003c";

/// A Store of two kinds, whose values are any bytes to a reader that has no kinds.
pub const STORE: &str =
    "0007 0000003b 10 55555555555555555555555555555555 02 00000025 00000100 0000000000000003 \
    00000003 c1c2c3 00000101 0000000000000004 00000002 c4c5";

/// Its answer, with two replicas and with one.
pub const STORE_ANS: &str =
    "0008 0000004e 004c 00000100 0000000000000004 0020 66666666666666666666666666666666 \
    77777777777777777777777777777777 00000101 0000000000000005 0010 \
    88888888888888888888888888888888";

/// A Fetch with two specifiers.
pub const FETCH: &str =
    "0009 00000032 10 55555555555555555555555555555555 001f 00000100 0000000000000003 0002 d1d2 \
    00000101 0000000000000004 0001 d3";

/// Its answer.
pub const FETCH_ANS: &str =
    "000a 00000029 00000025 00000100 0000000000000003 00000002 e1e2 00000101 0000000000000004 \
    00000003 e3e4e5";

/// A Join.
pub const JOIN: &str = "000f 00000014 99999999999999999999999999999999 0002 f1f2";

/// Its answer.
pub const JOIN_ANS: &str = "0010 00000005 0003 f3f4f5";

/// A Leave from a successor, with two successors.
pub const LEAVE_FROM_SUCCESSOR: &str =
    "0011 00000035 99999999999999999999999999999999 0023 01 0020 \
    aaaaaaaaaaaaaaaaaaaaaaaaaaaaaaaa bbbbbbbbbbbbbbbbbbbbbbbbbbbbbbbb";

/// A Leave from a predecessor, with one predecessor.
pub const LEAVE_FROM_PREDECESSOR: &str =
    "0011 00000025 99999999999999999999999999999999 0013 02 0010 \
    cccccccccccccccccccccccccccccccc";

/// The answer to a Leave.
pub const LEAVE_ANS: &str = "0012 00000000";

/// An Update of a peer that is ready.
pub const UPDATE_READY: &str = "0013 00000005 0000003c 01";

/// An Update with neighbors: a predecessor and two successors.
pub const UPDATE_NEIGHBORS: &str =
    "0013 00000039 0000003d 02 0010 aaaaaaaaaaaaaaaaaaaaaaaaaaaaaaaa 0020 \
    bbbbbbbbbbbbbbbbbbbbbbbbbbbbbbbb cccccccccccccccccccccccccccccccc";

/// A full Update: a predecessor, a successor and two fingers.
pub const UPDATE_FULL: &str =
    "0013 0000004b 0000003e 03 0010 aaaaaaaaaaaaaaaaaaaaaaaaaaaaaaaa 0010 \
    bbbbbbbbbbbbbbbbbbbbbbbbbbbbbbbb 0020 cccccccccccccccccccccccccccccccc \
    dddddddddddddddddddddddddddddddd";

/// The answer to an Update.
pub const UPDATE_ANS: &str = "0014 00000000";

/// A Ping with padding.
pub const PING: &str = "0017 00000005 0003 a1a2a3";

/// Its answer.
pub const PING_ANS: &str = "0018 00000010 0000000200000001 0000000000001388";

/// A PathTrack towards a Node-ID.
pub const TRACK_A_NODE: &str =
    "0027 0000002a 01 10 eeeeeeeeeeeeeeeeeeeeeeeeeeeeeeee 0000000000002328 0000000000001388 \
    000000000000000f";

/// A PathTrack towards a Resource-ID.
pub const TRACK_A_RESOURCE: &str =
    "0027 0000002b 02 11 10 55555555555555555555555555555555 0000000000002328 0000000000001388 \
    000000000000000f";

/// Its answer, with two facts.
pub const TRACK_ANS: &str =
    "0028 00000032 01 10 eeeeeeeeeeeeeeeeeeeeeeeeeeeeeeee 0000000000002328 0000000000001389 02 \
    000d 0001 0001 01 0002 0004 0000003c";

/// An Error.
pub const ERROR: &str = "ffff 00000007 0002 0003 b1b2b3";

/// An Attach, whose body has no layout here.
pub const OTHER: &str = "0003 00000005 a5a6a7a8a9";

/// All of them.
pub const MESSAGES: [&str; 22] = [
    PROBE,
    PROBE_ANS,
    STORE,
    STORE_ANS,
    FETCH,
    FETCH_ANS,
    JOIN,
    JOIN_ANS,
    LEAVE_FROM_SUCCESSOR,
    LEAVE_FROM_PREDECESSOR,
    LEAVE_ANS,
    UPDATE_READY,
    UPDATE_NEIGHBORS,
    UPDATE_FULL,
    UPDATE_ANS,
    PING,
    PING_ANS,
    TRACK_A_NODE,
    TRACK_A_RESOURCE,
    TRACK_ANS,
    ERROR,
    OTHER,
];

// Appends what hex digits say. Blanks stand between fields.
fn put_hex(out: &mut Bytes, digits: &str) -> Result<(), NoMemory> {
    let mut high = None;
    for byte in digits.as_bytes() {
        let digit = match *byte {
            b'0'..=b'9' => *byte - b'0',
            b'a'..=b'f' => *byte - b'a' + 10,
            _ => continue,
        };
        match high {
            None => high = Some(digit << 4),
            Some(before) => {
                out.push(before | digit)?;
                high = None;
            }
        }
    }
    Ok(())
}

/// The number in so many bytes at a place.
pub fn number_at(bytes: &[u8], place: usize, width: usize) -> usize {
    let mut number = 0usize;
    for byte in bytes.iter().skip(place).take(width) {
        number = number.wrapping_mul(256).wrapping_add(usize::from(*byte));
    }
    number
}

/// Puts a number into so many bytes at a place, at most 8.
pub fn set_number(bytes: &mut [u8], place: usize, width: usize, number: usize) {
    let digits = number.to_be_bytes();
    let digits = digits.iter().skip(8usize.wrapping_sub(width));
    for (byte, digit) in bytes.iter_mut().skip(place).zip(digits) {
        *byte = *digit;
    }
}

/// Puts the length of a message where it stands in it.
pub fn set_length(message: &mut [u8]) {
    let len = message.len();
    if len >= 20 {
        set_number(message, 16, 4, len);
    }
}

/// A whole message with these contents, to which the extensions are added.
pub fn message_of(alloc: Global, contents: &str) -> Result<Vec<u8>, NoMemory> {
    let mut bytes = Bytes::new(alloc);
    for digits in [HEADER, contents, EXTENSIONS, BLOCK] {
        put_hex(&mut bytes, digits)?;
    }
    let mut message = bytes.into_vec();
    set_length(&mut message);
    Ok(message)
}

/// Where the extensions begin in a whole message, and where its security block does.
pub fn ends_of(message: &[u8]) -> (usize, usize) {
    let body = number_at(message, CONTENTS + 2, 4);
    let extensions = body.wrapping_add(CONTENTS + 6);
    (extensions, extensions.wrapping_add(EXTENSIONS_SIZE))
}
