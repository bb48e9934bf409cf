use chord_tables::*;
use reload_base::TryCopy;
use reload_ids::NodeId;
use std::alloc::Global;
use std::test::*;

/// A peer at 100 that has heard of nodes on both sides of it.
fn among_others(alloc: Global) -> Result<Tables, Fail> {
    let mut t = Tables::new(alloc, NodeId(100));
    let heard = [120, 90, 100, 110, 130, 105, 90];
    t.merge(heard.map(NodeId).as_slice())?;
    Ok(t)
}

#[test]
fn a_peer_alone_owns_all(rt: HostRuntime) {
    let t = Tables::new(rt.alloc(), NodeId(100));
    assert_eq!(rt; t.me(), NodeId(100));
    assert!(rt; t.owns(100) && t.owns(101) && t.owns(u128::MAX));
    assert!(rt; t.predecessors().is_empty() && t.mirrors(2).is_empty());
    assert!(rt; t.fingers().iter().all(|finger| finger.is_none()));
}

#[test]
fn the_nearest_on_each_side_are_neighbours(rt: HostRuntime) -> Result<(), Fail> {
    let mut t = among_others(rt.alloc())?;
    assert_eq!(rt; t.successors(), [105, 110, 120].map(NodeId).as_slice());
    assert_eq!(rt; t.predecessors(), [90, 130, 120].map(NodeId).as_slice());
    assert_eq!(rt; t.mirrors(2), [105, 110].map(NodeId).as_slice());
    assert_eq!(rt; t.mirrors(9), [105, 110, 120].map(NodeId).as_slice());
    assert!(rt; t.owns(91) && t.owns(100));
    assert!(rt; !t.owns(90) && !t.owns(101));
    t.merge(&[NodeId(95), NodeId(u128::MAX)])?;
    assert_eq!(rt;
        t.predecessors(),
        [95, 90, u128::MAX].map(NodeId).as_slice()
    );
    assert_eq!(rt; t.successors(), [105, 110, 120].map(NodeId).as_slice());
    Ok(())
}

#[test]
fn a_node_leaves_all_tables(rt: HostRuntime) -> Result<(), Fail> {
    let mut t = among_others(rt.alloc())?;
    t.set_finger(15, Some(NodeId(120)));
    t.set_finger(14, Some(NodeId(110)));
    t.add_friend(NodeId(120))?;
    t.add_user(NodeId(120))?;
    assert!(rt; t.names(NodeId(120)));
    t.remove(NodeId(120));
    assert!(rt; !t.names(NodeId(120)));
    assert_eq!(rt; t.finger(15), None);
    assert_eq!(rt; t.finger(14), Some(NodeId(110)));
    assert_eq!(rt; t.predecessors(), [90, 130].map(NodeId).as_slice());
    assert_eq!(rt; t.successors(), [105, 110].map(NodeId).as_slice());
    t.set_finger(14, None);
    assert_eq!(rt; t.finger(14), None);
    Ok(())
}

#[test]
fn friends_and_users_rise(rt: HostRuntime) -> Result<(), Fail> {
    let mut t = Tables::new(rt.alloc(), NodeId(100));
    for id in [7, 3, 9, 7, 5] {
        t.add_friend(NodeId(id))?;
        t.add_user(NodeId(id + 1))?;
    }
    let copy = t.copy(rt.alloc())?;
    t.remove(NodeId(8));
    assert_eq!(rt; t.friends(), [3, 5, 7, 9].map(NodeId).as_slice());
    assert_eq!(rt; t.users(), [4, 6, 10].map(NodeId).as_slice());
    assert_eq!(rt; copy.users(), [4, 6, 8, 10].map(NodeId).as_slice());
    assert!(rt; t.names(NodeId(9)) && !t.names(NodeId(8)) && copy.names(NodeId(8)));
    Ok(())
}
