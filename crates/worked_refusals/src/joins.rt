use crate::kinds::{FIRST, kinds};
use std::test::Fail;
use worked_requests::first_unmet_alone;

/// Joins, by each cause and by two at once.
const JOINS: &str = "\
    a peer: 0 by-peer: join 80000000000000000000000000000000\n\
    the same peer again: 0 by-peer: join 80000000000000000000000000000000\n\
    another resource: 20 by-peer misplaced: join 80000000000000000000000000000000\n\
    another peer's id: 2 by-peer: join 90000000000000000000000000000000\n\
    a client: 2: join 40000000000000000000000000000000\n\
    nobody: 2 by-peer spoilt: join 80000000000000000000000000000000\n\
    an older configuration: 15 by-peer older: join 80000000000000000000000000000000\n\
    a newer configuration: 16 by-peer newer: join 80000000000000000000000000000000\n\
    a critical extension: 13 by-peer critical: join 80000000000000000000000000000000\n\
    another resource, by nobody: 20 by-peer misplaced spoilt: join \
        80000000000000000000000000000000\n\
    nobody, under an older configuration: 2 by-peer spoilt older: join \
        80000000000000000000000000000000\n\
    a client, with a critical extension: 2 critical: join 40000000000000000000000000000000\n\
    an older configuration, with a critical extension: 15 by-peer older critical: join \
        80000000000000000000000000000000\n\
    a newer configuration, with a critical extension: 16 by-peer newer critical: join \
        80000000000000000000000000000000";

#[test]
fn joins_by_each_cause(rt: HostRuntime) -> Result<(), Fail> {
    let unmet = first_unmet_alone(rt.alloc(), &kinds(), FIRST, JOINS)?;
    assert_eq!(rt; unmet, None);
    Ok(())
}
