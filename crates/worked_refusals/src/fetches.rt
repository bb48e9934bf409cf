use crate::kinds::{FIRST, kinds};
use std::test::Fail;
use worked_requests::first_unmet_alone;

/// Fetches that are answered.
const ANSWERED: &str = "\
    a single value: 0: fetch @abc 256\n\
    indices: 0: fetch @abc 257:0-1\n\
    indices past the last one: 0: fetch @abc 257:1-9,7-8\n\
    a key: 0: fetch @abc 258:=61\n\
    a key that isn't there: 0: fetch @abc 258:=62\n\
    all keys: 0: fetch @abc 258:*\n\
    each model: 0: fetch @abc 258:* 256 257:0-1\n\
    the stored generation counter: 0: fetch @abc 256/1\n\
    another generation counter: 0: fetch @abc 256/9\n\
    another user's node: 0 by-test: fetch @abc 256\n\
    a resource where nothing stands: 0: fetch @test 256 257:0-9 258:*\n\
    an extension that isn't critical: 0 extended: fetch @abc 256";

/// Fetches outside their grammar.
const BAD: &str = "\
    another resource: 20 misplaced: fetch @abc 256\n\
    a single kind twice: 20: fetch @abc 256 256\n\
    an array twice: 20: fetch @abc 257:0-0 257:1-1\n\
    a range that ends before it begins: 20: fetch @abc 257:1-0\n\
    a further range that does: 20: fetch @abc 257:0-1,3-2\n\
    ranges of a single kind: 20: fetch @abc 256:0-1\n\
    keys of an array: 20: fetch @abc 257:=61\n\
    ranges of a dictionary: 20: fetch @abc 258:0-1";

/// Fetches that nobody signed, under another configuration, or with an unknown extension or kind.
const REFUSED: &str = "\
    a message that isn't signed: 2 spoilt: fetch @abc 256\n\
    an older configuration: 15 older: fetch @abc 256\n\
    a newer configuration: 16 newer: fetch @abc 256\n\
    a critical extension: 13 critical: fetch @abc 256\n\
    a kind that is unknown: 12: fetch @abc 9\n\
    a kind that is unknown, with any bytes: 12: fetch @abc 9:?0102\n\
    a kind that is unknown behind another: 12: fetch @abc 256 9";

/// Answers as long as their asker lets them be, and longer ones. Contents have 14 bytes beside
/// their kinds, a kind has 16 beside its values, and a value of one byte has 95 in a single kind,
/// 99 in an array, and 97 and those of its key in a dictionary. Where no value is, 28 bytes stand
/// for it in a single kind, and 30 and those of its key in a dictionary.
const LONG: &str = "\
    a single value: 0 max=125: fetch @abc 256\n\
    a longer single value: 14 max=124: fetch @abc 256\n\
    indices: 0 max=228: fetch @abc 257:0-1\n\
    longer indices: 14 max=227: fetch @abc 257:0-1\n\
    indices past the last one: 0 max=228: fetch @abc 257:0-3\n\
    a key: 0 max=128: fetch @abc 258:=61\n\
    a longer key: 14 max=127: fetch @abc 258:=61\n\
    all keys: 0 max=128: fetch @abc 258:*\n\
    more keys: 14 max=127: fetch @abc 258:*\n\
    a gap: 0 max=61: fetch @abc 258:=62\n\
    a longer gap: 14 max=60: fetch @abc 258:=62\n\
    no values: 0 max=30: fetch @abc 256/1\n\
    no values, but a longer kind: 14 max=29: fetch @abc 256/1\n\
    two kinds: 0 max=239: fetch @abc 256 258:*\n\
    two longer kinds: 14 max=238: fetch @abc 256 258:*";

#[test]
fn fetches_that_are_answered(rt: HostRuntime) -> Result<(), Fail> {
    let unmet = first_unmet_alone(rt.alloc(), &kinds(), FIRST, ANSWERED)?;
    assert_eq!(rt; unmet, None);
    Ok(())
}

#[test]
fn fetches_outside_their_grammar(rt: HostRuntime) -> Result<(), Fail> {
    let unmet = first_unmet_alone(rt.alloc(), &kinds(), FIRST, BAD)?;
    assert_eq!(rt; unmet, None);
    Ok(())
}

#[test]
fn fetches_that_are_refused(rt: HostRuntime) -> Result<(), Fail> {
    let unmet = first_unmet_alone(rt.alloc(), &kinds(), FIRST, REFUSED)?;
    assert_eq!(rt; unmet, None);
    Ok(())
}

#[test]
fn fetches_with_long_answers(rt: HostRuntime) -> Result<(), Fail> {
    let unmet = first_unmet_alone(rt.alloc(), &kinds(), FIRST, LONG)?;
    assert_eq!(rt; unmet, None);
    Ok(())
}
