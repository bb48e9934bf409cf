use reload_base::{List, NoMemory};
use reload_ids::{NodeId, ResourceId};
use replica_sets::*;
use std::alloc::Global;
use std::test::*;

/// What the peer holds.
const HELD: [ResourceId; 5] = [
    ResourceId(0),
    ResourceId(10),
    ResourceId(20),
    ResourceId(30),
    ResourceId(u128::MAX),
];

fn range(
    alloc: Global,
    from: Option<NodeId>,
    me: u128,
    mirrors: &[u128],
) -> Result<Range, NoMemory> {
    let mut nodes = List::new(alloc);
    for mirror in mirrors {
        nodes.push(NodeId(*mirror))?;
    }
    Ok(Range {
        owning: true,
        from,
        me: NodeId(me),
        mirrors: nodes,
    })
}

/// The numbers of what is queued.
fn queued(alloc: Global, before: &Range, after: &Range) -> Result<List<(u128, u128)>, NoMemory> {
    let mut numbers = List::new(alloc);
    for (mirror, resource) in refill(alloc, before, after, &HELD)?.as_slice() {
        numbers.push((mirror.0, resource.0))?;
    }
    Ok(numbers)
}

#[test]
fn a_first_mirror_gets_all_past_zero(rt: HostRuntime) -> Result<(), Fail> {
    let alloc = rt.alloc();
    let before = range(alloc, Some(NodeId(20)), 10, &[])?;
    let after = range(alloc, Some(NodeId(20)), 10, &[50, 40])?;
    assert_eq!(rt;
        queued(alloc, &before, &after)?.as_slice(),
        [
            (50, 0),
            (50, 10),
            (50, 30),
            (50, u128::MAX),
            (40, 0),
            (40, 10),
            (40, 30),
            (40, u128::MAX),
        ]
        .as_slice()
    );
    Ok(())
}

#[test]
fn an_old_mirror_gets_what_is_newly_owned(rt: HostRuntime) -> Result<(), Fail> {
    let alloc = rt.alloc();
    let before = range(alloc, Some(NodeId(5)), 10, &[40, 50])?;
    let after = range(alloc, Some(NodeId(20)), 10, &[50, 60])?;
    assert_eq!(rt;
        queued(alloc, &before, &after)?.as_slice(),
        [
            (50, 0),
            (50, 30),
            (50, u128::MAX),
            (60, 0),
            (60, 10),
            (60, 30),
            (60, u128::MAX),
        ]
        .as_slice()
    );
    Ok(())
}

#[test]
fn a_range_begins_behind_from(rt: HostRuntime) -> Result<(), Fail> {
    let alloc = rt.alloc();
    let before = range(alloc, None, 30, &[])?;
    let after = range(alloc, Some(NodeId(10)), 30, &[40])?;
    assert_eq!(rt;
        queued(alloc, &before, &after)?.as_slice(),
        [(40, 20), (40, 30)].as_slice()
    );
    Ok(())
}

#[test]
fn a_range_that_shrinks_queues_nothing(rt: HostRuntime) -> Result<(), Fail> {
    let alloc = rt.alloc();
    let before = range(alloc, None, 30, &[40])?;
    let after = range(alloc, Some(NodeId(10)), 30, &[40])?;
    assert_eq!(rt; queued(alloc, &before, &after)?.len(), 0);
    Ok(())
}

#[test]
fn a_peer_begins_and_ends_to_own(rt: HostRuntime) -> Result<(), Fail> {
    let alloc = rt.alloc();
    let whole = range(alloc, None, 30, &[40])?;
    let mut none = range(alloc, None, 30, &[40])?;
    none.owning = false;
    assert_eq!(rt;
        queued(alloc, &none, &whole)?.as_slice(),
        [(40, 0), (40, 10), (40, 20), (40, 30), (40, u128::MAX)].as_slice()
    );
    assert_eq!(rt; queued(alloc, &whole, &none)?.len(), 0);
    Ok(())
}
