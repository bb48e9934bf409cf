use crate::kinds::{FIRST, kinds};
use std::test::Fail;
use worked_requests::Owner;

/// Stores one after the other.
const REPEATS: &str = "\
    it is accepted: 0 id=70: store @abc kind=256/0 -:11:60:+41\n\
    a repeat gets that answer: 0 id=70: store @abc kind=256/0 -:11:60:+41\n\
    it acted once: 9 id=71: store @abc kind=256/0 -:11:60:+41\n\
    a repeat of a refusal gets that: 9 id=71: store @abc kind=256/0 -:12:60:+41\n\
    another configuration is no matter to a repeat: 9 id=71 older: store @abc kind=256/0 \
        -:11:60:+41\n\
    another origin has transactions of its own: 9 id=70 by-second-abc: store @abc kind=256/0 \
        -:11:60:+41\n\
    a repeat that isn't signed: 2 id=70 spoilt: store @abc kind=256/0 -:11:60:+41\n\
    a repeat that is bad: 20 id=70 replica: store @abc kind=256/0 -:11:60:+41\n\
    another counter: 5 id=72: store @abc kind=256/3 -:13:60:+41\n\
    now the counter is this: 0 id=73: store @abc kind=256/0 -:12:60:+41\n\
    the refusal is kept: 5 id=72: store @abc kind=256/3 -:13:60:+41\n\
    a new transaction is decided anew: 0 id=74: store @abc kind=256/3 -:13:60:+41\n\
    a refusal for an old configuration: 15 id=75 older: store @abc kind=256/0 -:11:60:+41\n\
    it isn't kept: 9 id=75: store @abc kind=256/0 -:11:60:+41\n\
    a refusal of a bad request: 20 id=76 replica: store @abc kind=256/0 -:12:60:+41\n\
    that isn't kept either: 13 id=76 critical: store @abc kind=256/0 -:12:60:+41\n\
    that is kept: 13 id=76: store @abc kind=256/0 -:12:60:+41";

#[test]
fn repeats_get_the_answer_that_is_kept(rt: HostRuntime) -> Result<(), Fail> {
    let mut owner = Owner::new(rt.alloc(), &kinds())?;
    assert_eq!(rt; owner.first_unmet(rt.alloc(), FIRST)?, None);
    assert_eq!(rt; owner.first_unmet(rt.alloc(), REPEATS)?, None);
    Ok(())
}
