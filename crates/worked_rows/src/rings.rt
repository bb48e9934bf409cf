use overlay_command::Status;
use std::test::Fail;
use worked_calls::{joined, run_of};

// A ring of five peers, and a client. It asks peer 2 for what peer 5 owns, which peer 2 hands to
// peer 4, the third behind it.
const RING: &str = "overlay abc\n\
    kind 256 single user-match 1 140000 0\n\
    peer 1 10000000000000000000000000000000 p\n\
    peer 2 30000000000000000000000000000000 p\n\
    peer 3 50000000000000000000000000000000 p\n\
    peer 4 70000000000000000000000000000000 p\n\
    peer 5 90000000000000000000000000000000 p\n\
    client 6 20000000000000000000000000000000 a\n";

const REFUSED_BY_PEER_2: &str = "answer 6.1 error 10\n\
    end frames=4 bytes=464 clock=0 settled=yes\n";

const REFUSED_BY_PEER_4: &str = "answer 6.1 error 10\n\
    end frames=8 bytes=964 clock=0 settled=yes\n";

const DECIDED_BY_PEER_5: &str =
    "decide 5 0 86f7e437faa5a7fce15d1ddcb9eaeaea fetch 6 6.1 max=0 256/0 \
    -> kind=256/0 -:0:0:-\n\
    answer 6.1 kind=256/0 -:0:0:-\n\
    end frames=12 bytes=1632 clock=0 settled=yes\n";

// A TTL over 100 is taken for 100.
#[test]
fn a_request_goes_as_far_as_its_ttl(rt: HostRuntime) -> Result<(), Fail> {
    let cases = [
        ("ttl=0 ", REFUSED_BY_PEER_2),
        ("ttl=1 ", REFUSED_BY_PEER_2),
        ("ttl=2 ", REFUSED_BY_PEER_4),
        ("ttl=3 ", DECIDED_BY_PEER_5),
        ("", DECIDED_BY_PEER_5),
        ("ttl=100 ", DECIDED_BY_PEER_5),
        ("ttl=101 ", DECIDED_BY_PEER_5),
        ("ttl=255 ", DECIDED_BY_PEER_5),
    ];
    for (ttl, lines) in cases {
        let text = joined(rt.alloc(), &[RING, "fetch 6 2 @a ", ttl, "256\ndrain 50\n"])?;
        let transcript = joined(rt.alloc(), &[RING, lines])?;
        let (status, written) = run_of(rt.alloc(), text.as_slice())?;
        assert_eq!(rt; status, Status::Done, "with {ttl}");
        assert_eq!(rt; written.as_slice(), transcript.as_slice(), "with {ttl}");
    }
    Ok(())
}
