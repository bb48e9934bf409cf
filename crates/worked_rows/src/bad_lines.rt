use overlay_command::Status;
use reload_base::{Bytes, NoMemory};
use std::alloc::Global;
use std::process::Abort;
use std::test::Fail;
use worked_calls::{DECLARATIONS, joined, repeated, run_of};

// A scenario, line by line.
const LINES: [&str; 7] = [
    "overlay abc",
    "kind 256 single user-match 1 140000 0",
    "peer 1 80000000000000000000000000000000 p",
    "client 2 40000000000000000000000000000000 abc",
    "store 2 1 @abc kind=256/0 -:5000:60:+6869",
    "deliver 1",
    "store 2 1 @abc kind=256/0 -:6000:60:+6869",
];

// The scenario with another text as its line n, counted from 1.
fn with_line(alloc: Global, n: usize, text: &str) -> Result<Bytes, NoMemory> {
    let mut whole = Bytes::new(alloc);
    for (i, line) in LINES.iter().enumerate() {
        let line = if i + 1 == n { text } else { *line };
        whole.extend(line.as_bytes())?;
        whole.extend(b"\n")?;
    }
    Ok(whole)
}

// That line n is the first bad one, and nothing else is written.
fn assert_bad(rt: &(impl Abort + AllocGlobal), text: &[u8], n: usize) -> Result<(), Fail> {
    let (status, written) = run_of(rt.alloc(), text)?;
    assert_eq!(rt; status, Status::BadLine, "of {text:?}");
    let line = format!(in rt.alloc(); "bad line {n}\n")?;
    assert_eq!(rt; written.as_slice(), line.as_bytes(), "of {text:?}");
    Ok(())
}

#[test]
fn declarations_outside_the_grammar(rt: HostRuntime) -> Result<(), Fail> {
    let cases = [
        (1, "overlay  abc"),
        (1, "overlay a\x7fb"),
        (1, "# an overlay\u{e9}"),
        (2, "kind 256 single user-match 0 140000 0"),
        (2, "kind 256 single user-match 1025 140000 0"),
        (2, "kind 256 single user-match 1 140001 0"),
        (2, "kind 256 single user-match 1 140000 1"),
        (2, "kind 256 single user-node-match 1 140000 0"),
        (2, "kind 256 single node-multiple 1 140000 0"),
        (2, "kind 256 single node-multiple 1 140000 21"),
        (2, "kind 256 list user-match 1 140000 0"),
        (2, "kind 0256 single user-match 1 140000 0"),
        (3, "peer 1 00000000000000000000000000000000 p"),
        (3, "peer 1 ffffffffffffffffffffffffffffffff p"),
        (3, "peer 10000 80000000000000000000000000000000 p"),
        (4, "kind 256 array user-match 4 100 0"),
        (4, "peer 2 80000000000000000000000000000000 abc"),
        (4, "hostile 2 40000000000000000000000000000000 abc"),
        (4, "client 1 40000000000000000000000000000000 abc"),
        (4, "client 2 80000000000000000000000000000000 abc"),
        (4, "client 2 A0000000000000000000000000000000 abc"),
        (4, "client 2 4000000000000000000000000000000 abc"),
    ];
    for (n, line) in cases {
        let text = with_line(rt.alloc(), n, line)?;
        assert_bad(&rt, text.as_slice(), n)?;
    }
    Ok(())
}

#[test]
fn events_outside_the_grammar(rt: HostRuntime) -> Result<(), Fail> {
    let cases = [
        (5, "store  2 1 @abc kind=256/0 -:5000:60:+6869"),
        (5, "store 2 1 @abc kind=256/0 -:05000:60:+6869"),
        (
            5,
            "store 2 1 @abc kind=256/0 -:18446744073709551616:60:+6869",
        ),
        (5, "store 2 1 @abc kind=256/0 -:5000:4294967296:+6869"),
        (5, "store 2 1 @abc kind=256/0 -:5000:60:+686A"),
        (5, "store 2 1 @abc kind=256/0 -:5000:60:+686"),
        (5, "store 2 1 @abc kind=256/0 -:5000:60:--"),
        (5, "store 2 1 @abc kind=256/0 -:5000:60:#140002"),
        (5, "store 2 1 @abc kind=256/0 -:5000:60:"),
        (5, "store 2 1 @abc kind=4294967296/0 -:5000:60:+6869"),
        (5, "store 2 1 abc kind=256/0 -:5000:60:+6869"),
        (5, "store 2 1 @abc kind=256/0 =6:5000:60:+6869"),
        (5, "store 2 1 @abc kind=257/0 4294967295:5000:60:+6869"),
        (5, "store 2 1 @abc kind=256/0"),
        (5, "store 2 1 @abc seq=1 kind=256/0 -:5000:60:+6869"),
        (5, "store 2 1 @abc ttl=256 kind=256/0 -:5000:60:+6869"),
        (5, "store 2 1 @abc ttl=01 kind=256/0 -:5000:60:+6869"),
        (5, "store 2 1 @abc max=9 kind=256/0 -:5000:60:+6869"),
        (5, "store 4294967296 1 @abc kind=256/0 -:5000:60:+6869"),
        (5, "store 2 4294967296 @abc kind=256/0 -:5000:60:+6869"),
        (5, " "),
        (6, "deliver 01"),
        (6, "deliver 18446744073709551616"),
        (6, "drain 0"),
        (6, "drain 1000001"),
        (6, "clock 0"),
        (6, "clock 1000000001"),
        (6, "fetch 2 1 @abc 4294967296"),
        (6, "fetch 2 1 @abc 256/"),
        (6, "fetch 2 1 @abc 256:**"),
        (6, "fetch 2 1 @abc 256:0-4294967296"),
        (6, "fetch 2 1 @abc 256 max=9"),
        (6, "fetch 2 1 @abc max=9 ttl=9 256"),
        (6, "fetch 2 1 @abc ttl=9 ttl=9 256"),
        (6, "client 3 30000000000000000000000000000000 abc"),
        (6, "lose 01"),
        (6, "lose"),
        (6, "lose 18446744073709551616"),
    ];
    for (n, line) in cases {
        let text = with_line(rt.alloc(), n, line)?;
        assert_bad(&rt, text.as_slice(), n)?;
    }
    Ok(())
}

// Declarations without a peer.
const NO_PEER: &str = "overlay abc\n\
    kind 256 single user-match 1 2 0\n\
    client 2 40000000000000000000000000000000 abc\n";

#[test]
fn the_first_bad_line_of_a_text(rt: HostRuntime) -> Result<(), Fail> {
    let cases: [(&[&str], usize); 10] = [
        (&[""], 1),
        (&["\n"], 2),
        (&["overlay abc"], 1),
        (&["overlay abc\nkind\npeer\n"], 2),
        (
            &[DECLARATIONS, "peer 2 30000000000000000000000000000000 p\n"],
            5,
        ),
        (&[NO_PEER], 4),
        (&[NO_PEER, "# a comment\n", "deliver 1\n"], 5),
        (&[DECLARATIONS, "# no line feed"], 5),
        (
            &["# a comment\x7f\n\n", DECLARATIONS, "\n#\ndeliver 01\n"],
            9,
        ),
        (
            &[
                DECLARATIONS,
                "deliver 1\n",
                "client 3 30000000000000000000000000000000 abc\n",
            ],
            6,
        ),
    ];
    for (parts, n) in cases {
        let text = joined(rt.alloc(), parts)?;
        assert_bad(&rt, text.as_slice(), n)?;
    }
    Ok(())
}

// The declarations, and a line that ends with so many of a byte.
fn with_long_line(alloc: Global, front: &str, byte: u8, count: usize) -> Result<Bytes, NoMemory> {
    let mut text = joined(alloc, &[DECLARATIONS, front])?;
    text.extend(repeated(alloc, byte, count)?.as_slice())?;
    text.extend(b"\n")?;
    Ok(text)
}

#[test]
fn the_longest_value_and_line(rt: HostRuntime) -> Result<(), Fail> {
    let cases = [
        (
            "store 2 1 @abc kind=256/0 -:5000:60:+",
            b'0',
            399_962,
            399_964,
        ),
        ("#", b'~', 399_999, 400_000),
    ];
    for (front, byte, most, over) in cases {
        let text = with_long_line(rt.alloc(), front, byte, most)?;
        assert_eq!(rt;
            run_of(rt.alloc(), text.as_slice())?.0,
            Status::Done,
            "of {front}"
        );
        let text = with_long_line(rt.alloc(), front, byte, over)?;
        assert_bad(&rt, text.as_slice(), 5)?;
    }
    Ok(())
}
