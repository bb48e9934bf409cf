use overlay_command::Status;
use std::process::Abort;
use std::test::Fail;
use worked_calls::{DECLARATIONS, joined, run_of};

// That the further declaration and the events write these lines behind the declarations.
fn assert_run(
    rt: &(impl Abort + AllocGlobal),
    kind: &str,
    events: &str,
    lines: &str,
) -> Result<(), Fail> {
    let text = joined(rt.alloc(), &[DECLARATIONS, kind, events])?;
    let transcript = joined(rt.alloc(), &[DECLARATIONS, kind, lines])?;
    let (status, written) = run_of(rt.alloc(), text.as_slice())?;
    assert_eq!(rt; status, Status::Done, "of {events}");
    assert_eq!(rt; written.as_slice(), transcript.as_slice(), "of {events}");
    Ok(())
}

const DICTIONARY: &str = "kind 1 dictionary user-node-match 16 2048 0\n";

// A user's node stores the entry of another one.
const OTHER_NODE: (&str, &str) = (
    "store 2 1 @abc kind=1/0 =50000000000000000000000000000000:5000:60:+00\ndrain 20\n",
    "decide 1 0 a9993e364706816aba3e25717850c26c store 2 2.1 kind=1/0 \
    =50000000000000000000000000000000:5000:60:+00:2:113 -> error 2\n\
    answer 2.1 error 2\n\
    end frames=4 bytes=584 clock=0 settled=yes\n",
);

// A node stores its own entry, and asks for all of them, and for two.
const OWN_NODE: (&str, &str) = (
    "store 2 1 @abc kind=1/0 =40000000000000000000000000000000:5000:60:+00\n\
    fetch 2 1 @abc 1:*\n\
    fetch 2 1 @abc 1:=50,=40000000000000000000000000000000\n\
    drain 12\n",
    "decide 1 0 a9993e364706816aba3e25717850c26c store 2 2.1 kind=1/0 \
    =40000000000000000000000000000000:5000:60:+00:2:113 -> ok 1:1\n\
    decide 1 0 a9993e364706816aba3e25717850c26c fetch 2 2.2 max=0 1/0:* -> kind=1/1 \
    =40000000000000000000000000000000:5000:60:+00\n\
    decide 1 0 a9993e364706816aba3e25717850c26c fetch 2 2.3 max=0 \
    1/0:=50,=40000000000000000000000000000000 -> kind=1/1 =50:0:0:- \
    =40000000000000000000000000000000:5000:60:+00\n\
    answer 2.1 ok 1:1\n\
    answer 2.2 kind=1/1 =40000000000000000000000000000000:5000:60:+00\n\
    answer 2.3 kind=1/1 =50:0:0:- =40000000000000000000000000000000:5000:60:+00\n\
    end frames=12 bytes=1842 clock=0 settled=yes\n",
);

#[test]
fn entries_of_a_users_nodes(rt: HostRuntime) -> Result<(), Fail> {
    for (events, lines) in [OTHER_NODE, OWN_NODE] {
        assert_run(&rt, DICTIONARY, events, lines)?;
    }
    Ok(())
}

const ARRAY: &str = "kind 257 array user-match 4 100 0\n";

// Values are appended: one of them is delivered twice, and two of one time are too old.
const APPENDS: (&str, &str) = (
    "store 2 1 @abc kind=257/0 end:10:60:+41\n\
    deliver 1\n\
    deliver 1\n\
    store 2 1 @abc kind=257/0 end:11:60:+42 end:12:60:+43\n\
    store 2 1 @abc kind=257/0 end:13:60:+44 end:13:60:+45\n\
    fetch 2 1 @abc 257:0-9\n\
    drain 30\n",
    "decide 1 0 a9993e364706816aba3e25717850c26c store 2 2.1 kind=257/0 end:10:60:+41:2:99 \
    -> ok 257:1\n\
    decide 1 0 a9993e364706816aba3e25717850c26c store 2 2.1 kind=257/0 end:10:60:+41:2:99 \
    -> ok 257:1\n\
    answer 2.1 ok 257:1\n\
    decide 1 0 a9993e364706816aba3e25717850c26c store 2 2.2 kind=257/0 end:11:60:+42:2:99 \
    end:12:60:+43:2:99 -> ok 257:2\n\
    decide 1 0 a9993e364706816aba3e25717850c26c store 2 2.3 kind=257/0 end:13:60:+44:2:99 \
    end:13:60:+45:2:99 -> error 9\n\
    decide 1 0 a9993e364706816aba3e25717850c26c fetch 2 2.4 max=0 257/0:0-9 -> kind=257/2 \
    0:10:60:+41 1:11:60:+42 2:12:60:+43\n\
    answer 2.2 ok 257:2\n\
    answer 2.3 error 9\n\
    answer 2.4 kind=257/2 0:10:60:+41 1:11:60:+42 2:12:60:+43\n\
    end frames=19 bytes=2959 clock=0 settled=yes\n",
);

#[test]
fn an_array_that_is_appended_to(rt: HostRuntime) -> Result<(), Fail> {
    assert_run(&rt, ARRAY, APPENDS.0, APPENDS.1)
}

// Requests that make no sense, and the bytes of their frames: a kind or a slot twice, two values of
// a single kind, a range that ends before it begins.
const UNSOUND: [(&str, u64); 5] = [
    (
        "store 2 1 @abc kind=256/0 -:1:60:+41 kind=256/0 -:2:60:+42\ndrain 4\n",
        677,
    ),
    (
        "store 2 1 @abc kind=256/0 -:1:60:+41 -:2:60:+42\ndrain 4\n",
        661,
    ),
    (
        "store 2 1 @abc kind=257/0 1:1:60:+41 1:2:60:+42\ndrain 4\n",
        669,
    ),
    ("fetch 2 1 @abc 256 256\ndrain 4\n", 480),
    ("fetch 2 1 @abc 257:2-1\ndrain 4\n", 476),
];

#[test]
fn requests_that_make_no_sense(rt: HostRuntime) -> Result<(), Fail> {
    for (events, bytes) in UNSOUND {
        let lines = format!(in rt.alloc();
            "decide 1 0 a9993e364706816aba3e25717850c26c bad -> error 20\n\
            answer 2.1 error 20\n\
            end frames=4 bytes={bytes} clock=0 settled=yes\n"
        )?;
        assert_run(&rt, ARRAY, events, lines.as_str())?;
    }
    Ok(())
}

// A Fetch whose answer has 125 bytes, asked for within that, and within one byte less.
#[test]
fn an_answer_over_its_most_bytes(rt: HostRuntime) -> Result<(), Fail> {
    let answers = [
        (0, "kind=256/1 -:1:60:+41", 1155),
        (125, "kind=256/1 -:1:60:+41", 1155),
        (124, "error 14", 1044),
    ];
    for (max, answer, bytes) in answers {
        let events = format!(in rt.alloc();
            "store 2 1 @abc kind=256/0 -:1:60:+41\nfetch 2 1 @abc max={max} 256\ndrain 8\n"
        )?;
        let lines = format!(in rt.alloc();
            "decide 1 0 a9993e364706816aba3e25717850c26c store 2 2.1 kind=256/0 -:1:60:+41:2:95 \
            -> ok 256:1\n\
            decide 1 0 a9993e364706816aba3e25717850c26c fetch 2 2.2 max={max} 256/0 -> {answer}\n\
            answer 2.1 ok 256:1\n\
            answer 2.2 {answer}\n\
            end frames=8 bytes={bytes} clock=0 settled=yes\n"
        )?;
        assert_run(&rt, "", events.as_str(), lines.as_str())?;
    }
    Ok(())
}
