//! Tables of scenarios.

use reload_base::{Bytes, List, NoMemory};
use scenario_text::*;
use std::alloc::Global;
use std::test::Fail;
use text_words::{put_decimal, put_id};

const DECLARED: &[u8] = b"overlay abc
# kinds and nodes in any order
client 2 40000000000000000000000000000000 u
kind 256 single user-match 1 100 0
kind 257 array node-match 4 100 0
peer 1 80000000000000000000000000000000 p
kind 3 dictionary node-multiple 1024 0 20
";

const EVENTS: &[u8] = b"
store 2 1 @u kind=256/0 -:1:60:+41 kind=257/9 end:2:60:#3 0:1:1:-
fetch 2 1 a9993e364706816aba3e25717850c26c max=9 256/1 257:0-1,3-4294967295 3:*
clock 1000
deliver 18446744073709551615
lose 18446744073709551615
drain 7
";

fn with_line(alloc: Global, line: &[u8]) -> Result<Bytes, NoMemory> {
    let mut text = Bytes::from_slice(alloc, DECLARED)?;
    text.extend(line)?;
    text.extend(b"\n")?;
    Ok(text)
}

#[test]
fn a_scenario(rt: HostRuntime) -> Result<(), Fail> {
    let text = with_line(rt.alloc(), EVENTS)?;
    assert!(rt; text.len() < 1_000);
    let s = read_scenario(rt.alloc(), text.as_slice()).map_err(|_| "bad")?;
    assert_eq!(rt; s.config.name.as_slice(), b"abc".as_slice());
    assert_eq!(rt; s.config.kinds.len(), 3);
    assert_eq!(rt; s.nodes.len(), 2);
    let places = [9, 10, 11, 12, 13, 14];
    assert_eq!(rt; s.events.len(), places.len());
    for (event, place) in s.events.as_slice().iter().zip(places) {
        assert_eq!(rt; event.line, place);
    }
    let mut out = List::new(rt.alloc());
    put_echo(&mut out, &s)?;
    let echo = b"overlay abc
client 2 40000000000000000000000000000000 u
kind 256 single user-match 1 100 0
kind 257 array node-match 4 100 0
peer 1 80000000000000000000000000000000 p
kind 3 dictionary node-multiple 1024 0 20
";
    assert_eq!(rt; out.as_slice(), echo.as_slice());
    Ok(())
}

#[test]
fn lines_outside_the_grammar(rt: HostRuntime) -> Result<(), Fail> {
    let lines: [&[u8]; 62] = [
        b"overlay again",
        b"kind 256 single user-match 1 100 0",
        b"kind 4 list user-match 1 100 0",
        b"kind 4 single user-matches 1 100 0",
        b"kind 4 single user-match 0 100 0",
        b"kind 4 single user-match 1025 100 0",
        b"kind 4 single user-match 1 140001 0",
        b"kind 4 single user-match 1 100 1",
        b"kind 4 single node-multiple 1 100 0",
        b"kind 4 single node-multiple 1 100 21",
        b"kind 4 array user-node-match 1 100 0",
        b"kind 4 single user-match 1 100",
        b"kind 4 single user-match 1 100 0 0",
        b"kind 4294967296 single user-match 1 100 0",
        b"peer 1 90000000000000000000000000000000 q",
        b"peer 2 90000000000000000000000000000000 q",
        b"peer 3 80000000000000000000000000000000 q",
        b"peer 3 40000000000000000000000000000000 q",
        b"client 1 90000000000000000000000000000000 q",
        b"client 2 90000000000000000000000000000000 q",
        b"client 3 80000000000000000000000000000000 q",
        b"client 3 40000000000000000000000000000000 q",
        b"client 0 90000000000000000000000000000000 q",
        b"client 10000 90000000000000000000000000000000 q",
        b"client 3 00000000000000000000000000000000 q",
        b"client 3 ffffffffffffffffffffffffffffffff q",
        b"client 3 90000000000000000000000000000000",
        b"hostile 3 90000000000000000000000000000000 q",
        b"clock 0",
        b"clock 1000000001",
        b"drain 0",
        b"drain 1000001",
        b"deliver 01",
        b"deliver 1 ",
        b"deliver  1",
        b" deliver 1",
        b"deliver 18446744073709551616",
        b"lose",
        b"lose 01",
        b"lose 18446744073709551616",
        b"lose 1 2",
        b"store 2 1 @u",
        b"store 2 1 @u kind=256/0",
        b"store 2 1 @u -:1:60:+41",
        b"store 4294967296 1 @u kind=256/0 -:1:60:+41",
        b"store 2 1 @u ttl=256 kind=256/0 -:1:60:+41",
        b"store 2 1 @u ttl=01 kind=256/0 -:1:60:+41",
        b"store 2 1 @u ttl= kind=256/0 -:1:60:+41",
        b"store 2 1 @u ttl=1 ttl=1 kind=256/0 -:1:60:+41",
        b"store 2 1 @u kind=256/0 -:1:60:+41 ttl=1",
        b"store 2 1 @u max=1 kind=256/0 -:1:60:+41",
        b"store 2 1 @u ttl=1",
        b"store 2 1 u kind=256/0 -:1:60:+41",
        b"store 2 1 @u kind=257/0 4294967295:1:60:+41",
        b"store 2 1 @u kind=256/0 -:1:60:#140002",
        b"fetch 2 1 @u",
        b"fetch 2 1 @u 256 max=1",
        b"fetch 2 1 @u 257:",
        b"fetch 2 1 @u ttl=256 256",
        b"fetch 2 1 @u max=1 ttl=1 256",
        b"fetch 2 1 @u max=4294967296 256",
        b"leave 1",
    ];
    for line in lines {
        let text = with_line(rt.alloc(), line)?;
        assert!(rt; text.len() < 1_000);
        let fault = read_scenario(rt.alloc(), text.as_slice()).err();
        assert_eq!(rt; fault, Some(TextFault::BadLine(8)), "at {line:?}");
    }
    Ok(())
}

#[test]
fn lines_inside_the_grammar(rt: HostRuntime) -> Result<(), Fail> {
    let lines: [&[u8]; 16] = [
        // A second peer, and one of the greatest number.
        b"peer 3 90000000000000000000000000000000 q",
        b"peer 9999 90000000000000000000000000000000 u",
        b"client 3 90000000000000000000000000000000 u",
        b"lose 0",
        b"lose 18446744073709551615",
        b"deliver 0",
        b"store 2 1 @u ttl=0 kind=256/0 -:1:60:+41",
        b"store 2 1 @u ttl=255 kind=256/0 -:1:60:+41",
        b"fetch 2 1 @u ttl=255 256",
        b"fetch 2 1 @u ttl=0 max=0 256",
        // Nodes that aren't there, or have other roles.
        b"store 1 2 @u kind=256/0 -:1:60:+41",
        b"fetch 0 4294967295 @u 256",
        // A kind that isn't declared, and keys and selectors of other models.
        b"store 2 1 @u kind=255/0 =41:1:60:+41",
        b"store 2 1 @u kind=256/0 0:1:60:+41",
        b"fetch 2 1 @u 255",
        b"fetch 2 1 @u 3:0-1",
    ];
    for line in lines {
        let text = with_line(rt.alloc(), line)?;
        assert!(rt; text.len() < 1_000);
        let fault = read_scenario(rt.alloc(), text.as_slice()).err();
        assert_eq!(rt; fault, None, "at {line:?}");
    }
    Ok(())
}

fn ttl_of(what: &EventKind) -> Option<u8> {
    match what {
        EventKind::Store(event) => event.get().ttl,
        EventKind::Fetch(event) => event.get().ttl,
        _ => None,
    }
}

#[test]
fn hop_limits(rt: HostRuntime) -> Result<(), Fail> {
    let lines: [(&[u8], Option<u8>); 6] = [
        (b"store 2 1 @u kind=256/0 -:1:60:+41", None),
        (b"store 2 1 @u ttl=0 kind=256/0 -:1:60:+41", Some(0)),
        (b"store 2 1 @u ttl=255 kind=256/0 -:1:60:+41", Some(255)),
        (b"fetch 2 1 @u max=9 256", None),
        (b"fetch 2 1 @u ttl=7 256", Some(7)),
        (b"fetch 2 1 @u ttl=255 max=9 256", Some(255)),
    ];
    for (line, wanted) in lines {
        let text = with_line(rt.alloc(), line)?;
        assert!(rt; text.len() < 1_000);
        let s = read_scenario(rt.alloc(), text.as_slice()).map_err(|_| "bad")?;
        for event in s.events.as_slice() {
            assert_eq!(rt; ttl_of(&event.what), wanted, "at {line:?}");
        }
        assert_eq!(rt; s.events.len(), 1);
    }
    Ok(())
}

/// A scenario of so many peers, numbered from 1, and so many clients behind them.
fn of_nodes(alloc: Global, peers: u32, clients: u32) -> Result<Bytes, NoMemory> {
    let mut text = Bytes::from_slice(alloc, b"overlay abc\n")?;
    for n in 1..peers.saturating_add(clients).saturating_add(1) {
        let role: &[u8] = if n <= peers { b"peer " } else { b"client " };
        text.extend(role)?;
        put_decimal(&mut text, u64::from(n))?;
        text.extend(b" ")?;
        put_id(&mut text, u128::from(n))?;
        text.extend(b" u\n")?;
    }
    Ok(text)
}

#[test]
fn as_many_nodes_as_there_may_be(rt: HostRuntime) -> Result<(), Fail> {
    let counts = [
        (64, 0, None),
        (64, 192, None),
        (1, 255, None),
        (65, 0, Some(TextFault::BadLine(66))),
        (64, 193, Some(TextFault::BadLine(258))),
        (1, 256, Some(TextFault::BadLine(258))),
    ];
    for (peers, clients, wanted) in counts {
        let text = of_nodes(rt.alloc(), peers, clients)?;
        assert!(rt; text.len() < 100_000);
        let fault = read_scenario(rt.alloc(), text.as_slice()).err();
        assert_eq!(rt; fault, wanted, "with {peers} and {clients}");
    }
    Ok(())
}

#[test]
fn texts_outside_the_grammar(rt: HostRuntime) -> Result<(), Fail> {
    let texts: [(&[u8], u64); 9] = [
        (b"", 1),
        (b"overlay abc", 1),
        (b"overlay abc\n", 2),
        (b"peer 1 80000000000000000000000000000000 p\n", 1),
        (b"overlay abc\n\nclock 1\n", 3),
        (
            b"overlay abc\nclient 2 80000000000000000000000000000000 u\nlose 1\n\
              peer 1 90000000000000000000000000000000 p\n",
            3,
        ),
        (
            b"overlay abc\nclient 2 80000000000000000000000000000000 u\n\
              fetch 2 1 @u 256\n",
            3,
        ),
        (
            b"overlay abc\npeer 1 80000000000000000000000000000000 p\nclock 1",
            3,
        ),
        (
            b"overlay abc\npeer 1 80000000000000000000000000000000 p\nclock 1\n\
              kind 1 single user-match 1 1 0\n",
            4,
        ),
    ];
    for (text, line) in texts {
        assert!(rt; text.len() < 1_000);
        let fault = read_scenario(rt.alloc(), text).err();
        assert_eq!(rt; fault, Some(TextFault::BadLine(line)), "at {text:?}");
    }
    Ok(())
}
