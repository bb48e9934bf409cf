use overlay_command::Status;
use reload_base::{Bytes, NoMemory};
use std::alloc::Global;
use std::test::Fail;
use worked_calls::run_of;

// Kinds of each model for a user, of few and short values, and one for a user's nodes.
const KINDS: &str = "overlay abc\n\
    kind 256 single user-match 1 2 0\n\
    kind 257 array user-match 2 2 0\n\
    kind 258 dictionary user-match 2 2 0\n\
    kind 1 dictionary user-node-match 2 2 0\n\
    peer 1 80000000000000000000000000000000 p\n\
    client 2 40000000000000000000000000000000 abc\n";

// A first Store, which is accepted: a value of each kind, at a storage time of 10.
const FIRST: &str =
    "store 2 1 @abc kind=256/0 -:10:60:+41 kind=257/0 0:10:60:+41 end:10:60:+42 kind=258/0 \
    =61:10:60:+41\n\
    drain 4\n";

// The answer of the last decision.
fn answer_to(alloc: Global, line: &str) -> Result<(Status, Bytes), NoMemory> {
    let text = format!(in alloc; "{KINDS}{FIRST}{line}\ndrain 4\n")?;
    let (status, written) = run_of(alloc, text.as_bytes())?;
    let mut last = Bytes::new(alloc);
    for line in written.as_slice().split(|byte| *byte == b'\n') {
        if line.starts_with(b"answer 2.2 ") {
            let (_, answer) = line.split_at(11);
            last.extend(answer)?;
        }
    }
    Ok((status, last))
}

// Each cause alone, by the model of the kind, and no cause.
const ALONE: [(&str, &str); 26] = [
    ("store 2 1 @abc kind=256/0 -:11:60:+41", "ok 256:2"),
    ("store 2 1 @abc kind=257/0 end:11:60:+41", "error 8"),
    ("store 2 1 @abc kind=257/0 1:11:60:+41", "ok 257:2"),
    ("store 2 1 @abc kind=258/0 =62:1:60:+41", "ok 258:2"),
    (
        "store 2 1 @abc kind=256/0 -:11:60:+41 -:12:60:+41",
        "error 20",
    ),
    (
        "store 2 1 @abc kind=257/0 1:11:60:+41 1:12:60:+41",
        "error 20",
    ),
    (
        "store 2 1 @abc kind=258/0 =62:11:60:+41 =62:12:60:+41",
        "error 20",
    ),
    (
        "store 2 1 @abc kind=258/0 =62:11:60:+41 kind=258/0 =61:12:60:+41",
        "error 20",
    ),
    ("store 2 1 @test kind=256/0 -:11:60:+41", "error 2"),
    ("store 2 1 @test kind=257/0 end:11:60:+41", "error 2"),
    ("store 2 1 @test kind=258/0 =61:11:60:+41", "error 2"),
    ("store 2 1 @abc kind=1/0 =61:11:60:+41", "error 2"),
    ("store 2 1 @abc kind=256/2 -:11:60:+41", "error 5 256:1"),
    ("store 2 1 @abc kind=257/9 0:11:60:+41", "error 5 257:1"),
    (
        "store 2 1 @abc kind=258/2 =61:11:60:+41 kind=256/1 -:11:60:+41",
        "error 5 258:1 256:1",
    ),
    ("store 2 1 @abc kind=256/1 -:10:60:+41", "error 9"),
    ("store 2 1 @abc kind=257/1 0:10:60:+41", "error 9"),
    ("store 2 1 @abc kind=257/1 end:10:60:+41", "error 9"),
    ("store 2 1 @abc kind=258/1 =61:10:60:+41", "error 9"),
    ("store 2 1 @abc kind=256/0 -:11:60:+414243", "error 8"),
    ("store 2 1 @abc kind=257/0 2:11:60:+41", "error 8"),
    (
        "store 2 1 @abc kind=258/0 =62:11:60:+41 =63:11:60:+41",
        "error 8",
    ),
    ("fetch 2 1 @abc 256 256", "error 20"),
    ("fetch 2 1 @abc 257:0-1,3-2", "error 20"),
    ("fetch 2 1 @abc max=200 258:*", "kind=258/1 =61:10:60:+41"),
    ("fetch 2 1 @abc max=100 258:*", "error 14"),
];

// Two causes at once: the first of the order decides.
const BOTH: [(&str, &str); 8] = [
    (
        "store 2 1 @test kind=256/0 -:11:60:+41 -:12:60:+41",
        "error 20",
    ),
    ("store 2 1 @test kind=256/9 -:11:60:+41", "error 2"),
    ("store 2 1 @test kind=256/0 -:11:60:+414243", "error 2"),
    (
        "store 2 1 @abc kind=256/0 -:10:60:+41 kind=1/0 =61:11:60:+41",
        "error 2",
    ),
    ("store 2 1 @abc kind=256/9 -:10:60:+41", "error 5 256:1"),
    (
        "store 2 1 @abc kind=256/0 -:10:60:+41 kind=257/9 0:11:60:+414243",
        "error 5 256:1 257:1",
    ),
    (
        "store 2 1 @abc kind=256/0 -:11:60:+414243 kind=258/0 =61:9:60:+41",
        "error 9",
    ),
    ("fetch 2 1 @abc max=1 257:3-2", "error 20"),
];

#[test]
fn each_cause_and_the_first_of_two(rt: HostRuntime) -> Result<(), Fail> {
    for (line, answer) in ALONE.iter().chain(BOTH.iter()) {
        let (status, last) = answer_to(rt.alloc(), line)?;
        assert_eq!(rt; status, Status::Done, "of {line}");
        assert_eq!(rt; last.as_slice(), answer.as_bytes(), "of {line}");
    }
    Ok(())
}
