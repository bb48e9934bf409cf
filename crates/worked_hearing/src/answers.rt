use crate::made::{FETCH, Heard, SELF, To};
use crate::told::told;
use std::test::Fail;

const NOTHING: &str = "";

// An answer goes on to the node behind the peer, without the peer in front, as long as its TTL lets
// it; to the peer itself over its own link too. One for the peer itself ends nothing.
const ANSWERS: [(&[To], u8, &str); 12] = [
    (&[], 100, NOTHING),
    (&[SELF], 100, NOTHING),
    (&[To::Node(0x40), To::Node(0xc0)], 100, NOTHING),
    (&[To::Opaque, SELF], 100, NOTHING),
    (&[SELF, To::Node(0xc0)], 0, NOTHING),
    (&[SELF, To::Node(0xc0)], 1, NOTHING),
    (
        &[SELF, To::Node(0xc0)],
        2,
        "to c0: code 10 ttl 1 via 0 dest 1\n",
    ),
    (
        &[SELF, To::Node(0x33), To::Opaque],
        255,
        "to 33: code 10 ttl 99 via 0 dest 2\n",
    ),
    (&[SELF, SELF], 100, "to 80: code 10 ttl 99 via 0 dest 1\n"),
    (&[SELF, To::Opaque, To::Node(0xc0)], 100, NOTHING),
    (&[SELF, To::Short], 100, NOTHING),
    (&[SELF, To::Resource(0x60)], 100, NOTHING),
];

#[test]
fn answers_by_their_destinations(rt: HostRuntime) -> Result<(), Fail> {
    for (dest, ttl, wanted) in ANSWERS {
        let heard = Heard {
            dest,
            ttl,
            is_answer: true,
            ..FETCH
        };
        let text = told(rt.alloc(), &heard)?;
        assert_eq!(rt; text.as_str(), wanted, "to {dest:?} with {ttl}");
    }
    Ok(())
}
