use reload_base::{Bytes, NoMemory};
use reload_ids::NodeId;
use std::alloc::Global;
use std::test::Fail;
use transaction_table::{Again, Left, Spot, Table, Taken, Ticked, Txn};

fn message(alloc: Global, byte: u8) -> Result<Bytes, NoMemory> {
    Bytes::from_slice(alloc, &[byte])
}

fn sent(ticked: Ticked) -> Option<(NodeId, u64)> {
    match ticked {
        Ticked::Idle => None,
        Ticked::Sent { peer, id } => Some((peer, id)),
        Ticked::Over(t) => {
            drop(t.into_message());
            None
        }
    }
}

#[test]
fn a_transaction_is_over_at_its_limit(rt: HostRuntime) -> Result<(), Fail> {
    let peer = NodeId(7);
    let t = Txn::new(peer, 1, message(rt.alloc(), 65)?).send(0);
    match t.resend(3_000, Some(1)) {
        Again::Sent(t) => t.drop_with(Left { node: peer }),
        Again::Over(t) => {
            assert_eq!(rt; (t.peer(), t.id()), (peer, 1));
            assert_eq!(rt; t.into_message().as_slice(), [65].as_slice());
        }
    }
    let waiting = Txn::new(peer, 2, message(rt.alloc(), 66)?);
    waiting.drop_with(Left { node: peer });
    Ok(())
}

#[test]
fn an_empty_table_does_nothing(rt: HostRuntime) -> Result<(), Fail> {
    let peer = NodeId(7);
    let mut table = Table::new(rt.alloc());
    match table.answer(peer, 1, 500) {
        Taken::Taken(t) => drop(t.into_message()),
        Taken::NotMine => {}
    }
    assert_eq!(rt; sent(table.tick(3_000, None)), None);
    assert_eq!(rt; table.due(rt.alloc(), 3_000)?.len(), 0);
    table.renew(&[], 3_000, Some(5));
    let spot = Spot::Issued(1);
    assert_eq!(rt; (table.sends(spot), table.bytes_at(spot)), (None, None));
    table.forget(peer);
    assert_eq!(rt; (table.head_id(peer), table.message(peer, 1)), (None, None));
    assert_eq!(rt; (table.empty(peer), table.all_empty()), (true, true));
    Ok(())
}
