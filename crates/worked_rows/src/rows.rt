use overlay_command::Status;
use std::test::Fail;
use worked_calls::{ACTS_ONCE, DECLARATIONS, THREE_DELIVERIES, joined, run_of};

// Two Stores of one time: the second is too old.
const TWO_OF_ONE_TIME: &str = "store 2 1 @abc kind=256/0 -:5000:60:+6869\n\
    store 2 1 @abc kind=256/0 -:5000:60:+6869\n\
    deliver 1\n\
    deliver 2\n\
    drain 100\n";

const SECOND_TOO_OLD: &str =
    "decide 1 0 a9993e364706816aba3e25717850c26c store 2 2.1 kind=256/0 -:5000:60:+6869:2:96 \
    -> ok 256:1\n\
    decide 1 0 a9993e364706816aba3e25717850c26c store 2 2.2 kind=256/0 -:5000:60:+6869:2:96 \
    -> error 9\n\
    answer 2.1 ok 256:1\n\
    answer 2.2 error 9\n\
    end frames=8 bytes=1146 clock=0 settled=yes\n";

// Stores that are delivered out of order, and one of them again after the others.
const OUT_OF_ORDER: &str = "store 2 1 @abc kind=256/0 -:3:60:+03\n\
    store 2 1 @abc kind=256/0 -:1:60:+01\n\
    store 2 1 @abc kind=256/0 -:2:60:+02\n\
    store 2 1 @abc kind=256/0 -:4:60:+04\n\
    deliver 2\n\
    deliver 1\n\
    deliver 3\n\
    deliver 4\n\
    deliver 2\n\
    drain 100\n";

const KEPT_ANSWER_AGAIN: &str =
    "decide 1 0 a9993e364706816aba3e25717850c26c store 2 2.2 kind=256/0 -:1:60:+01:2:95 \
    -> ok 256:1\n\
    decide 1 0 a9993e364706816aba3e25717850c26c store 2 2.1 kind=256/0 -:3:60:+03:2:95 \
    -> ok 256:2\n\
    decide 1 0 a9993e364706816aba3e25717850c26c store 2 2.3 kind=256/0 -:2:60:+02:2:95 -> error 9\n\
    decide 1 0 a9993e364706816aba3e25717850c26c store 2 2.4 kind=256/0 -:4:60:+04:2:95 \
    -> ok 256:3\n\
    decide 1 0 a9993e364706816aba3e25717850c26c store 2 2.2 kind=256/0 -:1:60:+01:2:95 \
    -> ok 256:1\n\
    answer 2.2 ok 256:1\n\
    answer 2.1 ok 256:2\n\
    answer 2.3 error 9\n\
    answer 2.4 ok 256:3\n\
    end frames=19 bytes=2538 clock=0 settled=yes\n";

// A Fetch is lost, sent four times again, and times out; then what was sent again comes to the peer.
const SENT_FIVE_TIMES: &str = "fetch 2 1 @abc 256\n\
    lose 1\n\
    clock 3000\n\
    clock 3000\n\
    clock 3000\n\
    clock 3000\n\
    clock 3000\n\
    drain 9\n";

const TIMED_OUT: &str = "timeout 2.1\n\
    decide 1 15000 a9993e364706816aba3e25717850c26c fetch 2 2.1 max=0 256/0 -> kind=256/0 -:0:0:-\n\
    decide 1 15000 a9993e364706816aba3e25717850c26c fetch 2 2.1 max=0 256/0 -> kind=256/0 -:0:0:-\n\
    decide 1 15000 a9993e364706816aba3e25717850c26c fetch 2 2.1 max=0 256/0 -> kind=256/0 -:0:0:-\n\
    decide 1 15000 a9993e364706816aba3e25717850c26c fetch 2 2.1 max=0 256/0 -> kind=256/0 -:0:0:-\n\
    end frames=15 bytes=2262 clock=15000 settled=yes\n";

// It is sent again at 3,000 ms and not before, and once more before the answer comes.
const SENT_AGAIN: &str = "fetch 2 1 @abc 256\n\
    lose 1\n\
    clock 2999\n\
    clock 1\n\
    deliver 2\n\
    clock 3000\n\
    drain 9\n\
    clock 60000\n";

const ANSWERED_ONCE: &str =
    "decide 1 3000 a9993e364706816aba3e25717850c26c fetch 2 2.1 max=0 256/0 -> kind=256/0 -:0:0:-\n\
    answer 2.1 kind=256/0 -:0:0:-\n\
    decide 1 6000 a9993e364706816aba3e25717850c26c fetch 2 2.1 max=0 256/0 -> kind=256/0 -:0:0:-\n\
    end frames=9 bytes=1260 clock=66000 settled=yes\n";

// Two requests time out in one move of the clock.
const BOTH_LOST: &str = "fetch 2 1 @abc 256\n\
    clock 1\n\
    fetch 2 1 @test 256\n\
    lose 1\n\
    lose 2\n\
    clock 3000\n\
    clock 3000\n\
    clock 3000\n\
    clock 3000\n\
    clock 3000\n\
    clock 3000\n";

const BOTH_TIMED_OUT: &str = "timeout 2.1\n\
    timeout 2.2\n\
    end frames=10 bytes=2400 clock=18001 settled=yes\n";

#[test]
fn scenarios_have_their_transcripts(rt: HostRuntime) -> Result<(), Fail> {
    let rows = [
        ("", "end frames=0 bytes=0 clock=0 settled=yes\n"),
        (THREE_DELIVERIES, ACTS_ONCE),
        (TWO_OF_ONE_TIME, SECOND_TOO_OLD),
        (OUT_OF_ORDER, KEPT_ANSWER_AGAIN),
        (SENT_FIVE_TIMES, TIMED_OUT),
        (SENT_AGAIN, ANSWERED_ONCE),
        (BOTH_LOST, BOTH_TIMED_OUT),
    ];
    for (events, lines) in rows {
        let text = joined(rt.alloc(), &[DECLARATIONS, events])?;
        let transcript = joined(rt.alloc(), &[DECLARATIONS, lines])?;
        let (status, written) = run_of(rt.alloc(), text.as_slice())?;
        assert_eq!(rt; status, Status::Done, "of {events}");
        assert_eq!(rt; written.as_slice(), transcript.as_slice(), "of {events}");
    }
    Ok(())
}
