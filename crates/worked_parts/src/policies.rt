use access_policy::*;
use reload_ids::{NodeId, ResourceId};
use std::test::*;

/// Its 16 bytes are 1 to 16.
const NODE: NodeId = NodeId(0x0102_0304_0506_0708_090a_0b0c_0d0e_0f10);

fn allowed(policy: Policy, resource: u128) -> bool {
    permits(policy, 3, ResourceId(resource), b"", b"abc", NODE)
}

#[test]
fn names_and_nodes(rt: HostRuntime) {
    let abc = 0xa9993e364706816aba3e25717850c26c;
    let node = 0x2cc429832452134629f1f6d296ec8aef;
    assert!(rt; allowed(Policy::UserMatch, abc));
    assert!(rt; !allowed(Policy::UserMatch, node));
    assert!(rt; allowed(Policy::NodeMatch, node));
    assert!(rt; !allowed(Policy::NodeMatch, abc));
}

#[test]
fn keys(rt: HostRuntime) {
    let resource = ResourceId(0xa9993e364706816aba3e25717850c26c);
    let key = [1, 2, 3, 4, 5, 6, 7, 8, 9, 10, 11, 12, 13, 14, 15, 16];
    let policy = Policy::UserNodeMatch;
    assert!(rt; permits(policy, 0, resource, &key, b"abc", NODE));
    assert!(rt; !permits(policy, 0, resource, &key, b"a", NODE));
    assert!(rt; !permits(policy, 0, resource, b"", b"abc", NODE));
    assert!(rt; !permits(policy, 0, resource, &key, b"abc", NodeId(1)));
}

#[test]
fn numbers(rt: HostRuntime) {
    let policy = Policy::NodeMultiple;
    assert!(rt; !allowed(policy, 0xe1e11f696e0d2814ee46fd87a709990c), "0");
    assert!(rt; allowed(policy, 0x536d1db50a6a6549514999663cf20e56), "1");
    assert!(rt; allowed(policy, 0xe00d98f95572953f7cb56bb6fa5d7771), "3");
    assert!(rt; !allowed(policy, 0xfe24e1fa932d6b9b0c0d36a756300065), "20");
    assert!(rt;
        !allowed(policy, 0x2cc429832452134629f1f6d296ec8aef),
        "the Node-ID alone"
    );
}
