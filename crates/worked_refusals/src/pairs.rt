use crate::kinds::{FIRST, kinds};
use std::test::Fail;
use worked_requests::first_unmet_alone;

/// Stores for two causes, of which the first of the order decides: the first is that the Store is
/// bad, that nobody signed it, or that it is under another configuration.
const STORES_BY_MARKS: &str = "\
    a copy, unsigned: 20 replica spoilt: store @abc kind=256/0 -:11:60:+41\n\
    a copy, an older configuration: 20 replica older: store @abc kind=256/0 -:11:60:+41\n\
    a copy, a newer one: 20 replica newer: store @abc kind=256/0 -:11:60:+41\n\
    a copy, an extension: 20 replica critical: store @abc kind=256/0 -:11:60:+41\n\
    a copy, an unknown kind: 20 replica: store @abc kind=9/0 -:11:60:+41\n\
    a copy, forbidden: 20 replica: store @abc kind=1/0 =61:11:60:+41\n\
    a copy, a counter: 20 replica: store @abc kind=256/9 -:11:60:+41\n\
    a copy, old: 20 replica: store @abc kind=257/0 0:10:60:+41\n\
    a copy, large: 20 replica: store @abc kind=258/0 =61:11:60:+414243\n\
    unsigned, an older configuration: 2 spoilt older: store @abc kind=256/0 -:11:60:+41\n\
    unsigned, a newer one: 2 spoilt newer: store @abc kind=256/0 -:11:60:+41\n\
    unsigned, an extension: 2 spoilt critical: store @abc kind=256/0 -:11:60:+41\n\
    unsigned, an unknown kind: 2 spoilt: store @abc kind=9/0 -:11:60:+41\n\
    unsigned, forbidden: 2 spoilt: store @abc kind=1/0 =61:11:60:+41\n\
    unsigned, a counter: 2 spoilt: store @abc kind=256/9 -:11:60:+41\n\
    unsigned, old: 2 spoilt: store @abc kind=257/0 0:10:60:+41\n\
    unsigned, large: 2 spoilt: store @abc kind=258/0 =61:11:60:+414243\n\
    an older configuration, an extension: 15 older critical: store @abc kind=256/0 -:11:60:+41\n\
    an older configuration, an unknown kind: 15 older: store @abc kind=9/0 -:11:60:+41\n\
    an older configuration, forbidden: 15 older: store @abc kind=1/0 =61:11:60:+41\n\
    an older configuration, a counter: 15 older: store @abc kind=256/9 -:11:60:+41\n\
    an older configuration, old: 15 older: store @abc kind=257/0 0:10:60:+41\n\
    an older configuration, large: 15 older: store @abc kind=258/0 =61:11:60:+414243";

/// Stores for two causes, of which the first is another.
const STORES_BY_WORDS: &str = "\
    a newer one, an extension: 16 newer critical: store @abc kind=256/0 -:11:60:+41\n\
    a newer one, an unknown kind: 16 newer: store @abc kind=9/0 -:11:60:+41\n\
    a newer one, forbidden: 16 newer: store @abc kind=1/0 =61:11:60:+41\n\
    a newer one, a counter: 16 newer: store @abc kind=256/9 -:11:60:+41\n\
    a newer one, old: 16 newer: store @abc kind=257/0 0:10:60:+41\n\
    a newer one, large: 16 newer: store @abc kind=258/0 =61:11:60:+414243\n\
    an extension, an unknown kind: 13 critical: store @abc kind=9/0 -:11:60:+41\n\
    an extension, forbidden: 13 critical: store @abc kind=1/0 =61:11:60:+41\n\
    an extension, a counter: 13 critical: store @abc kind=256/9 -:11:60:+41\n\
    an extension, old: 13 critical: store @abc kind=257/0 0:10:60:+41\n\
    an extension, large: 13 critical: store @abc kind=258/0 =61:11:60:+414243\n\
    an unknown kind, forbidden: 12: store @abc kind=1/0 =61:11:60:+41 kind=9/0 -:11:60:+41\n\
    an unknown kind, a counter: 12: store @abc kind=256/9 -:11:60:+41 kind=9/0 -:11:60:+41\n\
    an unknown kind, old: 12: store @abc kind=257/0 0:10:60:+41 kind=9/0 -:11:60:+41\n\
    an unknown kind, large: 12: store @abc kind=258/0 =61:11:60:+414243 kind=9/0 -:11:60:+41\n\
    forbidden, a counter: 2: store @abc kind=256/9 -:11:60:+41 kind=1/0 =61:11:60:+41\n\
    forbidden, old: 2: store @abc kind=257/0 0:10:60:+41 kind=1/0 =61:11:60:+41\n\
    forbidden, large: 2: store @abc kind=258/0 =61:11:60:+414243 kind=1/0 =61:11:60:+41\n\
    a counter, old: 5: store @abc kind=257/0 0:10:60:+41 kind=256/9 -:11:60:+41\n\
    a counter, large: 5: store @abc kind=258/0 =61:11:60:+414243 kind=256/9 -:11:60:+41\n\
    old, large: 9: store @abc kind=258/0 =61:11:60:+414243 kind=257/0 0:10:60:+41";

/// Stores for two causes in one value or one kind.
const ONE_KIND: &str = "\
    a single value, unsigned, a counter: 2 unsigned-values: store @abc kind=256/9 -:11:60:+41\n\
    a single value, unsigned, old: 2 unsigned-values: store @abc kind=256/0 -:10:60:+41\n\
    a single value, unsigned, large: 2 unsigned-values: store @abc kind=256/0 -:11:60:+414243\n\
    a single value, a counter, old: 5: store @abc kind=256/9 -:10:60:+41\n\
    a single value, a counter, large: 5: store @abc kind=256/9 -:11:60:+414243\n\
    a single value, old, large: 9: store @abc kind=256/0 -:10:60:+414243\n\
    an array, unsigned, a counter: 2 unsigned-values: store @abc kind=257/9 0:11:60:+41\n\
    an array, unsigned, old: 2 unsigned-values: store @abc kind=257/0 end:10:60:+41\n\
    an array, unsigned, large: 2 unsigned-values: store @abc kind=257/0 4:11:60:+41\n\
    an array, a counter, old: 5: store @abc kind=257/9 end:10:60:+41\n\
    an array, a counter, large: 5: store @abc kind=257/9 4:11:60:+41\n\
    an array, old, large: 9: store @abc kind=257/0 end:10:60:+41 4:11:60:+41\n\
    a dictionary, unsigned, a counter: 2 unsigned-values: store @abc kind=258/9 =61:11:60:+41\n\
    a dictionary, unsigned, old: 2 unsigned-values: store @abc kind=258/0 =61:10:60:+41\n\
    a dictionary, unsigned, large: 2 unsigned-values: store @abc kind=258/0 =62:11:60:+41 \
        =63:11:60:+41\n\
    a dictionary, a counter, old: 5: store @abc kind=258/9 =61:10:60:+41\n\
    a dictionary, a counter, large: 5: store @abc kind=258/9 =62:11:60:+41 =63:11:60:+41\n\
    a dictionary, old, large: 9: store @abc kind=258/0 =61:10:60:+41 =62:11:60:+41 =63:11:60:+41\n\
    forbidden, a counter, heavy: 2: store @test kind=261/9 0:11:60:#131072\n\
    two single values, all others: 20 older: store @abc kind=256/9 -:11:60:+41 -:10:60:+41";

/// Fetches for two causes.
const FETCHES: &str = "\
    another resource, unsigned: 20 misplaced spoilt: fetch @abc 256\n\
    another resource, an older configuration: 20 misplaced older: fetch @abc 256\n\
    another resource, a newer one: 20 misplaced newer: fetch @abc 256\n\
    another resource, an extension: 20 misplaced critical: fetch @abc 256\n\
    another resource, an unknown kind: 20 misplaced: fetch @abc 256 9\n\
    another resource, long: 20 misplaced max=13: fetch @abc 256\n\
    unsigned, an older configuration: 2 spoilt older: fetch @abc 256\n\
    unsigned, a newer one: 2 spoilt newer: fetch @abc 256\n\
    unsigned, an extension: 2 spoilt critical: fetch @abc 256\n\
    unsigned, an unknown kind: 2 spoilt: fetch @abc 256 9\n\
    unsigned, long: 2 spoilt max=13: fetch @abc 256\n\
    an older configuration, an extension: 15 older critical: fetch @abc 256\n\
    an older configuration, an unknown kind: 15 older: fetch @abc 256 9\n\
    an older configuration, long: 15 older max=13: fetch @abc 256\n\
    a newer one, an extension: 16 newer critical: fetch @abc 256\n\
    a newer one, an unknown kind: 16 newer: fetch @abc 256 9\n\
    a newer one, long: 16 newer max=13: fetch @abc 256\n\
    an extension, an unknown kind: 13 critical: fetch @abc 256 9\n\
    an extension, long: 13 critical max=13: fetch @abc 256\n\
    an unknown kind, long: 12 max=13: fetch @abc 256 9";

#[test]
fn the_first_of_two_causes_of_a_store(rt: HostRuntime) -> Result<(), Fail> {
    let unmet = first_unmet_alone(rt.alloc(), &kinds(), FIRST, STORES_BY_MARKS)?;
    assert_eq!(rt; unmet, None);
    Ok(())
}

#[test]
fn the_first_of_two_later_causes_of_a_store(rt: HostRuntime) -> Result<(), Fail> {
    let unmet = first_unmet_alone(rt.alloc(), &kinds(), FIRST, STORES_BY_WORDS)?;
    assert_eq!(rt; unmet, None);
    Ok(())
}

#[test]
fn the_first_of_two_causes_in_one_kind(rt: HostRuntime) -> Result<(), Fail> {
    let unmet = first_unmet_alone(rt.alloc(), &kinds(), FIRST, ONE_KIND)?;
    assert_eq!(rt; unmet, None);
    Ok(())
}

#[test]
fn the_first_of_two_causes_of_a_fetch(rt: HostRuntime) -> Result<(), Fail> {
    let unmet = first_unmet_alone(rt.alloc(), &kinds(), FIRST, FETCHES)?;
    assert_eq!(rt; unmet, None);
    Ok(())
}
