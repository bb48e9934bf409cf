use overlay_command::Status;
use reload_base::{Bytes, NoMemory};
use std::alloc::Global;
use std::test::Fail;
use worked_calls::{joined, repeated, run_of};

// A peer and its client, kinds of an array and of a dictionary, and an array of 1,024 slots, of
// which none holds a value.
const WIDE: &str = "overlay abc\n\
    kind 257 array user-match 1024 1 0\n\
    kind 258 dictionary user-match 1024 1 0\n\
    peer 1 80000000000000000000000000000000 p\n\
    client 2 40000000000000000000000000000000 abc\n\
    store 2 1 @abc kind=257/0 1023:1:0:+41\n";

// The first bytes of the second answer to these words of a Fetch, and a digit so often behind them.
fn front_of_answer(alloc: Global, words: &str, count: usize) -> Result<Bytes, NoMemory> {
    let mut text = joined(alloc, &[WIDE, "fetch 2 1 @abc ", words])?;
    text.extend(repeated(alloc, b'0', count)?.as_slice())?;
    text.extend(b"\ndrain 8\n")?;
    let (_, written) = run_of(alloc, text.as_slice())?;
    let mut front = Bytes::new(alloc);
    for line in written.as_slice().split(|byte| *byte == b'\n') {
        if line.starts_with(b"answer 2.2 ") {
            front.extend(line.get(11..19).unwrap_or(line))?;
        }
    }
    Ok(front)
}

// 6,247 gaps of an array, of 32 bytes each, and one of a dictionary, which has its key behind 30:
// with the 14 and 16 bytes before them that is 199,980 bytes and the key's.
const GAPS: &str = "257:0-1023,0-1023,0-1023,0-1023,0-1023,0-1023,0-102 258:=";

#[test]
fn answers_of_the_most_bytes(rt: HostRuntime) -> Result<(), Fail> {
    let cases = [
        (GAPS, 40, "kind=257"),
        (GAPS, 42, "error 14"),
        ("258:=", 131_034, "kind=258"),
    ];
    for (words, digits, answer) in cases {
        let front = front_of_answer(rt.alloc(), words, digits)?;
        assert_eq!(rt; front.as_slice(), answer.as_bytes(), "of {digits} digits");
    }
    Ok(())
}

#[test]
fn the_most_kinds(rt: HostRuntime) -> Result<(), Fail> {
    let mut text = joined(
        rt.alloc(),
        &["overlay abc\npeer 1 80000000000000000000000000000000 p\n"],
    )?;
    for id in 0..16 {
        let line = format!(in rt.alloc(); "kind {id} single user-match 1 0 0\n")?;
        text.extend(line.as_bytes())?;
    }
    assert_eq!(rt; run_of(rt.alloc(), text.as_slice())?.0, Status::Done);
    text.extend(b"kind 16 single user-match 1 0 0\n")?;
    let (status, written) = run_of(rt.alloc(), text.as_slice())?;
    assert_eq!(rt; status, Status::BadLine);
    assert_eq!(rt; written.as_slice(), b"bad line 19\n".as_slice());
    Ok(())
}

// An array, and a Store of two values into it, of which the second has as many bytes as stand
// between the two.
const TWO_VALUES: [&str; 2] = [
    "overlay abc\n\
    kind 257 array user-match 4 140000 0\n\
    peer 1 80000000000000000000000000000000 p\n\
    client 2 40000000000000000000000000000000 abc\n\
    store 2 1 @abc kind=257/0 0:1:60:#100000 1:1:60:#",
    "\ndrain 4\n",
];

// A message of 200,000 bytes is decided, one of 200,001 is too large to be looked at.
#[test]
fn requests_of_the_most_bytes(rt: HostRuntime) -> Result<(), Fail> {
    let [front, back] = TWO_VALUES;
    let cases: [(&str, &[u8]); 2] = [
        (
            "99567",
            b"answer 2.1 error 8\nend frames=4 bytes=200234 clock=0 settled=yes\n",
        ),
        (
            "99568",
            b"\nanswer 2.1 error 11\nend frames=4 bytes=200235 clock=0 settled=yes\n",
        ),
    ];
    for (bytes, end) in cases {
        let text = joined(rt.alloc(), &[front, bytes, back])?;
        let (_, written) = run_of(rt.alloc(), text.as_slice())?;
        assert!(rt; written.as_slice().ends_with(end), "of {bytes} bytes");
    }
    Ok(())
}
