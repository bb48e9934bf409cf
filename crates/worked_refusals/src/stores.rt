use crate::kinds::{FIRST, kinds};
use std::test::Fail;
use worked_requests::first_unmet_alone;

/// Stores that are accepted.
const ACCEPTED: &str = "\
    a single value: 0: store @abc kind=256/0 -:11:60:+41\n\
    the stored generation counter: 0: store @abc kind=256/1 -:11:60:+41\n\
    a value that is taken away: 0: store @abc kind=256/0 -:11:60:-\n\
    an index: 0: store @abc kind=257/0 0:11:60:+41\n\
    an appended value: 0: store @abc kind=257/0 end:11:60:+41\n\
    two appended values: 0: store @abc kind=257/0 end:11:60:+41 end:12:60:+41\n\
    an index under the appended ones' times: 0: store @abc kind=257/0 3:1:60:+41\n\
    a key: 0: store @abc kind=258/0 =61:11:60:+41\n\
    a further key under the other's time: 0: store @abc kind=258/0 =62:1:60:+41\n\
    a node's own key: 0: store @abc kind=1/0 =40000000000000000000000000000000:1:60:+41\n\
    a node's own resource: 0: store c5297f1ddea8a76b04b5b395de1162b4 kind=259/0 -:1:60:+41\n\
    a node's second resource: 0: store 93d43dec8aa14177b8f1637589dff290 kind=260/0 -:1:60:+41\n\
    another node of the user: 0 by-second-abc: store @abc kind=256/0 -:11:60:-\n\
    an extension that isn't critical: 0 extended: store @abc kind=256/0 -:11:60:-\n\
    a value as long as may be: 0: store @abc kind=256/0 -:11:60:+4142";

/// Stores outside their grammar.
const BAD: &str = "\
    a copy: 20 replica: store @abc kind=256/0 -:11:60:+41\n\
    another resource: 20 misplaced: store @abc kind=256/0 -:11:60:+41\n\
    two single values: 20: store @abc kind=256/0 -:11:60:+41 -:12:60:+41\n\
    a single value with an index: 20: store @abc kind=256/0 0:11:60:+41\n\
    an index twice: 20: store @abc kind=257/0 0:11:60:+41 0:12:60:+41\n\
    a key twice: 20: store @abc kind=258/0 =61:11:60:+41 =61:12:60:+41\n\
    a kind twice: 20: store @abc kind=258/0 =61:11:60:+41 kind=258/0 =62:11:60:+41";

/// Stores that nobody signed, or that their signer may not ask for.
const FORBIDDEN: &str = "\
    a message that isn't signed: 2 spoilt: store @abc kind=256/0 -:11:60:+41\n\
    a single value unsigned: 2 unsigned-values: store @abc kind=256/0 -:11:60:+41\n\
    an index unsigned: 2 unsigned-values: store @abc kind=257/0 0:11:60:+41\n\
    a key unsigned: 2 unsigned-values: store @abc kind=258/0 =61:11:60:+41\n\
    a single value by another: 2 by-test: store @abc kind=256/0 -:11:60:+41\n\
    an index by another: 2 by-test: store @abc kind=257/0 0:11:60:+41\n\
    an append by another: 2 by-test: store @abc kind=257/0 end:11:60:+41\n\
    a key by another: 2 by-test: store @abc kind=258/0 =61:11:60:+41\n\
    another user's resource: 2: store @test kind=256/0 -:11:60:+41\n\
    another node's key: 2: store @abc kind=1/0 =50000000000000000000000000000000:1:60:+41\n\
    a node's own key at another user's resource: 2 by-test: store @abc kind=1/0 \
        =30000000000000000000000000000000:1:60:+41\n\
    a user's resource that is no node's: 2: store @abc kind=259/0 -:1:60:+41\n\
    a node's third resource: 2: store 1a2fef92b6863d8f85f8be1147d5dc61 kind=260/0 -:1:60:+41\n\
    another node's second resource: 2 by-second-abc: store 93d43dec8aa14177b8f1637589dff290 \
        kind=260/0 -:1:60:+41";

/// Stores under another configuration, with an unknown extension or kind, or under another
/// generation counter.
const OTHERS: &str = "\
    an older configuration: 15 older: store @abc kind=256/0 -:11:60:+41\n\
    a newer configuration: 16 newer: store @abc kind=256/0 -:11:60:+41\n\
    a critical extension: 13 critical: store @abc kind=256/0 -:11:60:+41\n\
    a kind that is unknown: 12: store @abc kind=9/0 -:11:60:+41\n\
    another counter of a single value: 5: store @abc kind=256/2 -:11:60:+41\n\
    another counter of an array: 5: store @abc kind=257/9 0:11:60:+41\n\
    another counter of a dictionary: 5: store @abc kind=258/2 =61:11:60:+41\n\
    a counter where nothing stands: 5: store @abc kind=1/1 \
        =40000000000000000000000000000000:1:60:+41";

/// Stores whose values aren't later than those before.
const OLD: &str = "\
    the time of a single value: 9: store @abc kind=256/0 -:10:60:+41\n\
    a time before it: 9: store @abc kind=256/0 -:9:60:+41\n\
    its time, to take it away: 9: store @abc kind=256/0 -:10:60:-\n\
    the time of an index: 9: store @abc kind=257/0 0:10:60:+41\n\
    the time of an appended value at its index: 9: store @abc kind=257/0 1:10:60:+41\n\
    the time of an appended value: 9: store @abc kind=257/0 end:10:60:+41\n\
    a time twice: 9: store @abc kind=257/0 end:12:60:+41 end:12:60:+41\n\
    the time of a key: 9: store @abc kind=258/0 =61:10:60:+41\n\
    a further key beside it: 9: store @abc kind=258/0 =62:11:60:+41 =61:10:60:+41";

/// Stores that pass a limit.
const LARGE: &str = "\
    a long single value: 8: store @abc kind=256/0 -:11:60:+414243\n\
    a long value at an index: 8: store @abc kind=257/0 0:11:60:+414243\n\
    a long appended value: 8: store @abc kind=257/0 end:11:60:+414243\n\
    a long value at a key: 8: store @abc kind=258/0 =61:11:60:+414243\n\
    an index of as many as may be: 8: store @abc kind=257/0 4:11:60:+41\n\
    too many appended values: 8: store @abc kind=257/0 end:11:60:+41 end:12:60:+41 end:13:60:+41\n\
    too many keys: 8: store @abc kind=258/0 =62:11:60:+41 =63:11:60:+41\n\
    too heavy a value: 8: store @abc kind=261/0 0:11:60:#131072";

#[test]
fn stores_that_are_accepted(rt: HostRuntime) -> Result<(), Fail> {
    let unmet = first_unmet_alone(rt.alloc(), &kinds(), FIRST, ACCEPTED)?;
    assert_eq!(rt; unmet, None);
    Ok(())
}

#[test]
fn stores_outside_their_grammar(rt: HostRuntime) -> Result<(), Fail> {
    let unmet = first_unmet_alone(rt.alloc(), &kinds(), FIRST, BAD)?;
    assert_eq!(rt; unmet, None);
    Ok(())
}

#[test]
fn stores_that_are_forbidden(rt: HostRuntime) -> Result<(), Fail> {
    let unmet = first_unmet_alone(rt.alloc(), &kinds(), FIRST, FORBIDDEN)?;
    assert_eq!(rt; unmet, None);
    Ok(())
}

#[test]
fn stores_under_another_configuration_or_counter(rt: HostRuntime) -> Result<(), Fail> {
    let unmet = first_unmet_alone(rt.alloc(), &kinds(), FIRST, OTHERS)?;
    assert_eq!(rt; unmet, None);
    Ok(())
}

#[test]
fn stores_that_are_too_old(rt: HostRuntime) -> Result<(), Fail> {
    let unmet = first_unmet_alone(rt.alloc(), &kinds(), FIRST, OLD)?;
    assert_eq!(rt; unmet, None);
    Ok(())
}

#[test]
fn stores_that_are_too_large(rt: HostRuntime) -> Result<(), Fail> {
    let unmet = first_unmet_alone(rt.alloc(), &kinds(), FIRST, LARGE)?;
    assert_eq!(rt; unmet, None);
    Ok(())
}
