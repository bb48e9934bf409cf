use crate::user_kinds::widest;
use std::test::Fail;
use worked_requests::Owner;

/// An array's only value, and what is fetched: contents of 200,000 bytes are answered, and longer
/// ones are not. They have 14 beside their kinds, a kind 16 beside its values, a value of an array
/// 98 beside its own bytes, and a gap of a dictionary 30 and those of its key.
const LONGEST: &str = "\
    a value: 0: store @abc kind=257/0 0:1:60:#99887\n\
    it twice: 0: fetch @abc 257:0-0,0-0\n\
    it twice, for whom asks for no more: 0 max=200000: fetch @abc 257:0-0,0-0\n\
    it twice, for whom asks for less: 14 max=199999: fetch @abc 257:0-0,0-0\n\
    a longer value: 0: store @abc kind=257/0 0:2:60:#99888\n\
    it twice: 14: fetch @abc 257:0-0,0-0\n\
    it twice, for whom asks for more: 14 max=4294967295: fetch @abc 257:0-0,0-0\n\
    it once: 0: fetch @abc 257:0-0\n\
    a shorter value: 0: store @abc kind=257/0 0:3:60:#99863\n\
    it twice, and a key of two bytes: 0: fetch @abc 257:0-0,0-0 258:=6161\n\
    it twice, and a key of three bytes: 14: fetch @abc 257:0-0,0-0 258:=616161";

/// The most bytes of contents that the asker permits.
const PERMITTED: &str = "\
    two values: 0: store @abc kind=257/0 0:1:60:+41 1:1:60:+42\n\
    any: 0 max=0: fetch @abc 257:0-1\n\
    one: 14 max=1: fetch @abc 257:0-1\n\
    fewer by one: 14 max=227: fetch @abc 257:0-1\n\
    as many: 0 max=228: fetch @abc 257:0-1\n\
    more by one: 0 max=229: fetch @abc 257:0-1\n\
    the most: 0 max=4294967295: fetch @abc 257:0-1";

#[test]
fn the_longest_answer(rt: HostRuntime) -> Result<(), Fail> {
    let mut owner = Owner::new(rt.alloc(), &widest())?;
    assert_eq!(rt; owner.first_unmet(rt.alloc(), LONGEST)?, None);
    Ok(())
}

#[test]
fn an_answer_that_its_asker_permits(rt: HostRuntime) -> Result<(), Fail> {
    let mut owner = Owner::new(rt.alloc(), &widest())?;
    assert_eq!(rt; owner.first_unmet(rt.alloc(), PERMITTED)?, None);
    Ok(())
}
