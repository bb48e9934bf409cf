use crate::made::{FETCH, Heard, SELF, To};
use crate::told::told;
use std::test::Fail;

const ON: &str = "to c0: code 9 ttl 99 via 1 dest 1\n";

const TWO_ON: &str = "to c0: code 9 ttl 99 via 1 dest 2\n";

const DECIDED: &str = "decided\nto 20: code 10 ttl 100 via 0 dest 1\n";

const NOTHING: &str = "";

const NOT_FOUND: &str = "to 20: error 3\n";

const UNSUPPORTED_OPTION: &str = "to 20: error 7\n";

const TTL_EXCEEDED: &str = "to 20: error 10\n";

const TOO_LARGE: &str = "to 20: error 11\n";

const INVALID: &str = "to 20: error 20\n";
// What is handled at the peer itself finds the signature to be another.
const HANDLED: &str = "to 20: error 2\n";

// Flags of an option: critical to who forwards, and to the destination.
const FORWARD: u8 = 1;

const DESTINATION: u8 = 2;

// A resource that the peer owns, one that c0 owns, and a node in either range.
const OWN: To = To::Resource(0x60);

const FAR: To = To::Resource(0xa0);

const NOBODY: To = To::Node(0x70);

const NEXT: To = To::Node(0xc0);

// Each case of a request, by its destinations.
const BY_DESTINATION: [(&[To], &str); 18] = [
    (&[], INVALID),
    (&[To::Opaque], INVALID),
    (&[To::Short], INVALID),
    (&[To::Opaque, OWN], INVALID),
    (&[To::Short, SELF], INVALID),
    (&[SELF, To::Opaque], INVALID),
    (&[SELF, SELF, To::Short], INVALID),
    (&[NOBODY], NOT_FOUND),
    (&[NOBODY, OWN], NOT_FOUND),
    (&[SELF, NOBODY], NOT_FOUND),
    (&[OWN, NEXT], INVALID),
    (&[SELF, OWN, NEXT], INVALID),
    (&[OWN], DECIDED),
    (&[SELF, SELF, OWN], DECIDED),
    (&[FAR], ON),
    (&[SELF, NEXT], ON),
    (&[FAR, OWN], TWO_ON),
    (&[NEXT, To::Opaque], TWO_ON),
];

#[test]
fn requests_by_their_destinations(rt: HostRuntime) -> Result<(), Fail> {
    for (dest, wanted) in BY_DESTINATION {
        let text = told(rt.alloc(), &Heard { dest, ..FETCH })?;
        assert_eq!(rt; text.as_str(), wanted, "to {dest:?}");
    }
    Ok(())
}

// A request to the peer alone, and with its own Node-ID in front, is handled there.
const TO_ITSELF: [&[To]; 3] = [&[SELF], &[SELF, SELF], &[SELF, SELF, SELF]];

#[test]
fn requests_to_the_peer_itself(rt: HostRuntime) -> Result<(), Fail> {
    for dest in TO_ITSELF {
        let heard = Heard {
            dest,
            is_spoilt: true,
            ..FETCH
        };
        let text = told(rt.alloc(), &heard)?;
        assert_eq!(rt; text.as_str(), HANDLED, "to {dest:?}");
    }
    Ok(())
}

// What options and a TTL do, alone and together, on the way and at the end of it.
const BY_HEADER: [(&[To], &[u8], u8, &str); 17] = [
    (&[FAR], &[], 0, TTL_EXCEEDED),
    (&[FAR], &[], 1, TTL_EXCEEDED),
    (&[FAR], &[], 2, "to c0: code 9 ttl 1 via 1 dest 1\n"),
    (&[FAR], &[], 101, ON),
    (&[FAR], &[], 255, ON),
    (&[FAR], &[FORWARD], 100, UNSUPPORTED_OPTION),
    (&[FAR], &[4, FORWARD], 0, UNSUPPORTED_OPTION),
    (&[FAR], &[DESTINATION], 100, ON),
    (&[OWN], &[], 0, DECIDED),
    (&[OWN], &[FORWARD], 1, DECIDED),
    (&[OWN], &[DESTINATION], 100, UNSUPPORTED_OPTION),
    (&[SELF], &[4, DESTINATION], 0, UNSUPPORTED_OPTION),
    (&[NOBODY], &[FORWARD], 0, NOT_FOUND),
    (&[NOBODY], &[DESTINATION], 0, NOT_FOUND),
    (&[OWN, NEXT], &[FORWARD], 0, INVALID),
    (&[OWN, NEXT], &[DESTINATION], 0, INVALID),
    (&[], &[FORWARD, DESTINATION], 0, INVALID),
];

#[test]
fn requests_by_their_headers(rt: HostRuntime) -> Result<(), Fail> {
    for (dest, flags, ttl, wanted) in BY_HEADER {
        let heard = Heard {
            dest,
            flags,
            ttl,
            ..FETCH
        };
        let text = told(rt.alloc(), &heard)?;
        assert_eq!(rt;
            text.as_str(),
            wanted,
            "to {dest:?} with {flags:?} and {ttl}"
        );
    }
    Ok(())
}

// A message of 200,000 bytes has so many in an extension where one destination is a resource, and
// one of 200,001 a byte more. It is too large before anything else counts, but to the peer alone.
const MOST: usize = 199_777;

const BY_SIZE: [(&[To], &[u8], u8, usize, &str); 9] = [
    (&[OWN], &[], 100, MOST, DECIDED),
    (&[OWN], &[], 100, MOST + 1, TOO_LARGE),
    (&[FAR], &[], 100, MOST, ON),
    (&[FAR], &[], 0, MOST + 1, TOO_LARGE),
    (&[FAR], &[FORWARD], 100, MOST + 1, TOO_LARGE),
    (&[], &[], 100, MOST + 100, TOO_LARGE),
    (&[NOBODY], &[], 100, MOST + 100, TOO_LARGE),
    (&[SELF, OWN], &[], 100, MOST + 1, TOO_LARGE),
    (&[SELF], &[DESTINATION], 100, MOST + 100, UNSUPPORTED_OPTION),
];

#[test]
fn requests_by_their_size(rt: HostRuntime) -> Result<(), Fail> {
    for (dest, flags, ttl, size, wanted) in BY_SIZE {
        let heard = Heard {
            dest,
            flags,
            ttl,
            extension: Some(size),
            ..FETCH
        };
        let text = told(rt.alloc(), &heard)?;
        assert_eq!(rt; text.as_str(), wanted, "to {dest:?} of {size} bytes");
    }
    Ok(())
}

// A via list of 111 entries has 1,998 bytes, one of 112 more than 2,000; a message of another
// overlay, and one that is cut within its header, isn't looked at either.
#[test]
fn messages_that_are_not_looked_at(rt: HostRuntime) -> Result<(), Fail> {
    let dest: &[To] = &[FAR];
    let on = "to c0: code 9 ttl 99 via 112 dest 1\n";
    let cases = [(111, false, on), (112, false, NOTHING), (0, true, NOTHING)];
    for (via, is_foreign, wanted) in cases {
        let heard = Heard {
            dest,
            via,
            is_foreign,
            ..FETCH
        };
        let text = told(rt.alloc(), &heard)?;
        assert_eq!(rt; text.as_str(), wanted, "via {via}");
    }
    Ok(())
}
