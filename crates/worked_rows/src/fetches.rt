use overlay_command::Status;
use reload_base::{Bytes, NoMemory};
use std::alloc::Global;
use std::process::Abort;
use std::test::Fail;
use worked_calls::{DECLARATIONS, joined, run_of};

// That the events write these lines behind the declarations.
fn assert_run(rt: &(impl Abort + AllocGlobal), events: &[u8], lines: &[u8]) -> Result<(), Fail> {
    let mut text = joined(rt.alloc(), &[DECLARATIONS])?;
    text.extend(events)?;
    let mut transcript = joined(rt.alloc(), &[DECLARATIONS])?;
    transcript.extend(lines)?;
    let (status, written) = run_of(rt.alloc(), text.as_slice())?;
    assert_eq!(rt; status, Status::Done);
    assert_eq!(rt; written.as_slice(), transcript.as_slice());
    Ok(())
}

// Nothing was stored: the client is given a gap.
const NOTHING_STORED: (&str, &str) = (
    "fetch 2 1 @abc 256\ndrain 20\n",
    "decide 1 0 a9993e364706816aba3e25717850c26c fetch 2 2.1 max=0 256/0 -> kind=256/0 -:0:0:-\n\
    answer 2.1 kind=256/0 -:0:0:-\n\
    end frames=4 bytes=510 clock=0 settled=yes\n",
);

// Two Stores of one time, drained.
const ONE_TIME: (&str, &str) = (
    "store 2 1 @abc kind=256/0 -:5000:60:+41\n\
    store 2 1 @abc kind=256/0 -:5000:60:+42\n\
    drain 40\n",
    "decide 1 0 a9993e364706816aba3e25717850c26c store 2 2.1 kind=256/0 -:5000:60:+41:2:95 \
    -> ok 256:1\n\
    decide 1 0 a9993e364706816aba3e25717850c26c store 2 2.2 kind=256/0 -:5000:60:+42:2:95 \
    -> error 9\n\
    answer 2.1 ok 256:1\n\
    answer 2.2 error 9\n\
    end frames=8 bytes=1144 clock=0 settled=yes\n",
);

// Four Stores that ask for counters: the stored one, and twice another one.
const COUNTERS: (&str, &str) = (
    "store 2 1 @abc kind=256/0 -:1:60:+41\n\
    drain 4\n\
    store 2 1 @abc kind=256/1 -:2:60:+41\n\
    drain 4\n\
    store 2 1 @abc kind=256/1 -:3:60:+41\n\
    drain 4\n\
    store 2 1 @abc kind=256/9 -:4:60:+41\n\
    drain 4\n",
    "decide 1 0 a9993e364706816aba3e25717850c26c store 2 2.1 kind=256/0 -:1:60:+41:2:95 \
    -> ok 256:1\n\
    answer 2.1 ok 256:1\n\
    decide 1 0 a9993e364706816aba3e25717850c26c store 2 2.2 kind=256/1 -:2:60:+41:2:95 \
    -> ok 256:2\n\
    answer 2.2 ok 256:2\n\
    decide 1 0 a9993e364706816aba3e25717850c26c store 2 2.3 kind=256/1 -:3:60:+41:2:95 -> error 5 \
    256:2\n\
    answer 2.3 error 5 256:2\n\
    decide 1 0 a9993e364706816aba3e25717850c26c store 2 2.4 kind=256/9 -:4:60:+41:2:95 -> error 5 \
    256:2\n\
    answer 2.4 error 5 256:2\n\
    end frames=16 bytes=2320 clock=0 settled=yes\n",
);

// A Store under another name, and a delivery of a frame that wasn't sent.
const REFUSED: (&str, &str) = (
    "store 2 1 @test kind=256/0 -:5000:60:+6869\ndeliver 1\ndeliver 4\ndeliver 3\n",
    "decide 1 0 a94a8fe5ccb19ba61c4c0873d391e987 store 2 2.1 kind=256/0 -:5000:60:+6869:2:96 \
    -> error 2\n\
    refused 7 no-such-frame\n\
    answer 2.1 error 2\n\
    end frames=4 bytes=567 clock=0 settled=yes\n",
);

// A value is removed, and stored anew.
const REMOVED: (&str, &str) = (
    "store 2 1 a9993e364706816aba3e25717850c26c kind=256/0 -:1:60:+\n\
    store 2 1 @abc kind=256/0 -:2:60:-\n\
    fetch 2 1 @abc 256/2\n\
    fetch 2 1 @abc 256/1\n\
    store 2 1 @abc kind=256/2 -:18446744073709551615:0:+41\n\
    deliver 0\n\
    drain 15\n\
    drain 6\n",
    "refused 10 no-such-frame\n\
    decide 1 0 a9993e364706816aba3e25717850c26c store 2 2.1 kind=256/0 -:1:60:+:2:94 -> ok 256:1\n\
    decide 1 0 a9993e364706816aba3e25717850c26c store 2 2.2 kind=256/0 -:2:60:-:2:94 -> ok 256:2\n\
    decide 1 0 a9993e364706816aba3e25717850c26c fetch 2 2.3 max=0 256/2 -> kind=256/2\n\
    decide 1 0 a9993e364706816aba3e25717850c26c fetch 2 2.4 max=0 256/1 -> kind=256/2 -:2:60:-\n\
    decide 1 0 a9993e364706816aba3e25717850c26c store 2 2.5 kind=256/2 \
    -:18446744073709551615:0:+41:2:95 -> ok 256:3\n\
    answer 2.1 ok 256:1\n\
    answer 2.2 ok 256:2\n\
    answer 2.3 kind=256/2\n\
    answer 2.4 kind=256/2 -:2:60:-\n\
    answer 2.5 ok 256:3\n\
    end frames=20 bytes=2790 clock=0 settled=yes\n",
);

#[test]
fn fetches_and_counters(rt: HostRuntime) -> Result<(), Fail> {
    for (events, lines) in [NOTHING_STORED, ONE_TIME, COUNTERS, REFUSED, REMOVED] {
        assert_run(&rt, events.as_bytes(), lines.as_bytes())?;
    }
    Ok(())
}

// A value that lives for a second, asked for before its end and at its end, and its Store repeated.
const SECOND_OF_LIFE: (&str, &str) = (
    "store 2 1 @abc kind=256/0 -:5000:1:+6869\n\
    drain 20\n\
    clock 999\n\
    fetch 2 1 @abc 256\n\
    drain 20\n\
    clock 1\n\
    fetch 2 1 @abc 256\n\
    drain 20\n\
    deliver 1\n",
    "decide 1 0 a9993e364706816aba3e25717850c26c store 2 2.1 kind=256/0 -:5000:1:+6869:2:96 \
    -> ok 256:1\n\
    answer 2.1 ok 256:1\n\
    decide 1 999 a9993e364706816aba3e25717850c26c fetch 2 2.2 max=0 256/0 -> kind=256/1 \
    -:5000:1:+6869\n\
    answer 2.2 kind=256/1 -:5000:1:+6869\n\
    decide 1 1000 a9993e364706816aba3e25717850c26c fetch 2 2.3 max=0 256/0 -> kind=256/1 -:0:0:-\n\
    answer 2.3 kind=256/1 -:0:0:-\n\
    decide 1 1000 a9993e364706816aba3e25717850c26c store 2 2.1 kind=256/0 -:5000:1:+6869:2:96 \
    -> ok 256:1\n",
);

// The lines of the decision on a Store of the same time again, which is too old.
fn too_old(alloc: Global, number: u64) -> Result<Bytes, NoMemory> {
    let lines = format!(in alloc;
        "decide 1 1000 a9993e364706816aba3e25717850c26c store 2 2.{number} kind=256/0 \
        -:5000:1:+6869:2:96 -> error 9\nanswer 2.{number} error 9\n"
    )?;
    Bytes::from_slice(alloc, lines.as_bytes())
}

#[test]
fn an_answer_is_kept_for_64_decisions(rt: HostRuntime) -> Result<(), Fail> {
    let mut events = joined(rt.alloc(), &[SECOND_OF_LIFE.0])?;
    let mut lines = joined(rt.alloc(), &[SECOND_OF_LIFE.1])?;
    for number in 4..68 {
        events.extend(b"store 2 1 @abc kind=256/0 -:5000:1:+6869\ndrain 20\n")?;
        lines.extend(too_old(rt.alloc(), number)?.as_slice())?;
    }
    events.extend(b"deliver 1\n")?;
    lines.extend(
        b"decide 1 1000 a9993e364706816aba3e25717850c26c store 2 2.1 kind=256/0 \
        -:5000:1:+6869:2:96 -> error 9\n",
    )?;
    lines.extend(b"end frames=273 bytes=38410 clock=1000 settled=yes\n")?;
    assert_run(&rt, events.as_slice(), lines.as_slice())
}

// The lines of a Store of so many bytes `a`, whose frames have so many.
fn filled(
    alloc: Global,
    count: usize,
    size: usize,
    answer: &str,
    sent: usize,
) -> Result<Bytes, NoMemory> {
    let mut lines = joined(
        alloc,
        &["decide 1 0 a9993e364706816aba3e25717850c26c store 2 2.1 kind=256/0 -:1:60:+"],
    )?;
    for _ in 0..count {
        lines.extend(b"61")?;
    }
    let rest = format!(in alloc;
        ":2:{size} -> {answer}\nanswer 2.1 {answer}\n\
        end frames=4 bytes={sent} clock=0 settled=yes\n"
    )?;
    lines.extend(rest.as_bytes())?;
    Ok(lines)
}

#[test]
fn a_record_of_the_largest_weight(rt: HostRuntime) -> Result<(), Fail> {
    let lines = filled(rt.alloc(), 130_882, 130_976, "ok 256:1", 131_459)?;
    let events = b"store 2 1 @abc kind=256/0 -:1:60:#130882\ndrain 20\n".as_slice();
    assert_run(&rt, events, lines.as_slice())?;
    let lines = filled(rt.alloc(), 130_883, 130_977, "error 8", 131_448)?;
    let events = b"store 2 1 @abc kind=256/0 -:1:60:#130883\ndrain 20\n".as_slice();
    assert_run(&rt, events, lines.as_slice())
}
