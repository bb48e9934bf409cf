use chord_tables::Tables;
use peer_routing::{Hop, next_hop};
use reload_ids::NodeId;
use std::test::*;

#[test]
fn a_peer_that_knows_nobody(rt: HostRuntime) {
    let t = Tables::new(rt.alloc(), NodeId(100));
    assert_eq!(rt; next_hop(&t, true, 7), Hop::Here);
    assert_eq!(rt; next_hop(&t, false, 7), Hop::NoRoute);
}

#[test]
fn each_hop_is_nearer(rt: HostRuntime) -> Result<(), Fail> {
    let mut t = Tables::new(rt.alloc(), NodeId(100));
    t.merge([70, 80, 90, 110, 120, 130].map(NodeId).as_slice())?;
    t.set_finger(3, Some(NodeId(200)));
    let rows = [
        (true, 95, Hop::Here),
        (true, 100, Hop::Here),
        (false, 95, Hop::To(NodeId(90))),
        (true, 90, Hop::To(NodeId(90))),
        (true, 85, Hop::To(NodeId(90))),
        (true, 80, Hop::To(NodeId(80))),
        (true, 105, Hop::To(NodeId(110))),
        (true, 125, Hop::To(NodeId(120))),
        (true, 199, Hop::To(NodeId(130))),
        (true, 300, Hop::To(NodeId(200))),
        (true, 75, Hop::To(NodeId(70))),
    ];
    for (owning, k, hop) in rows {
        assert_eq!(rt; next_hop(&t, owning, k), hop);
    }
    Ok(())
}
