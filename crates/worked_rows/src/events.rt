use overlay_command::Status;
use std::test::Fail;
use worked_calls::{DECLARATIONS, joined, run_of};

// Each event that can't be done, and why: no frame was sent yet, node 1 is a peer and node 2 a
// client, and there is no other.
const REFUSED: [(&str, &str); 13] = [
    ("deliver 0", "no-such-frame"),
    ("deliver 1", "no-such-frame"),
    ("deliver 18446744073709551615", "no-such-frame"),
    ("lose 0", "no-such-frame"),
    ("lose 1", "no-such-frame"),
    ("store 1 1 @p kind=256/0 -:1:60:+41", "unknown-node"),
    ("store 2 2 @abc kind=256/0 -:1:60:+41", "unknown-node"),
    ("store 3 1 @abc kind=256/0 -:1:60:+41", "unknown-node"),
    ("store 2 3 @abc kind=256/0 -:1:60:+41", "unknown-node"),
    ("fetch 1 1 @abc 256", "unknown-node"),
    ("fetch 2 2 @abc 256", "unknown-node"),
    ("fetch 4294967295 1 @abc 256", "unknown-node"),
    ("fetch 2 0 @abc 256", "unknown-node"),
];

#[test]
fn events_that_are_refused(rt: HostRuntime) -> Result<(), Fail> {
    for (event, cause) in REFUSED {
        let text = joined(rt.alloc(), &[DECLARATIONS, event, "\n"])?;
        let end = "\nend frames=0 bytes=0 clock=0 settled=yes\n";
        let transcript = joined(rt.alloc(), &[DECLARATIONS, "refused 5 ", cause, end])?;
        let (status, written) = run_of(rt.alloc(), text.as_slice())?;
        assert_eq!(rt; status, Status::Done, "of {event}");
        assert_eq!(rt; written.as_slice(), transcript.as_slice(), "of {event}");
    }
    Ok(())
}

// Four requests, and sixteen times as many.
const FOUR: &str =
    "fetch 2 1 @abc 256\nfetch 2 1 @abc 256\nfetch 2 1 @abc 256\nfetch 2 1 @abc 256\n";

// The last lines: the first answer lets one more request go, and no second.
const BUSY_AGAIN: &[u8] = b"answer 2.1 kind=256/0 -:0:0:-\n\
    refused 72 busy\n\
    end frames=194 bytes=32313 clock=0 settled=yes\n";

#[test]
fn a_client_waits_for_64_answers(rt: HostRuntime) -> Result<(), Fail> {
    let sixteen = joined(rt.alloc(), &[FOUR, FOUR, FOUR, FOUR])?;
    let mut text = joined(rt.alloc(), &[DECLARATIONS])?;
    for _ in 0..4 {
        text.extend(sixteen.as_slice())?;
    }
    // The last of the 64 is line 68.
    text.extend(b"fetch 2 1 @abc 256\ndrain 66\nfetch 2 1 @abc 256\nfetch 2 1 @abc 256\n")?;
    let (status, written) = run_of(rt.alloc(), text.as_slice())?;
    let front = joined(rt.alloc(), &[DECLARATIONS, "refused 69 busy\n"])?;
    assert_eq!(rt; status, Status::Done);
    assert!(rt; written.as_slice().starts_with(front.as_slice()));
    assert!(rt; written.as_slice().ends_with(BUSY_AGAIN));
    Ok(())
}
