//! Words of requests.

use data_models::{Selector, SlotKey};
use reload_base::List;
use request_words::*;
use std::test::Fail;
use text_words::Pieces;

#[test]
fn groups_of_a_store(rt: HostRuntime) -> Result<(), Fail> {
    let words = b"kind=256/0 -:1:60:+41 kind=257/9 end:2:60:#3 =50:1:1:-";
    let groups = groups_of(rt.alloc(), Pieces::new(b' ', words))?.ok_or("none")?;
    assert_eq!(rt; groups.len(), 2);
    let last = groups.get(1).ok_or("one")?;
    assert_eq!(rt;
        (last.kind, last.generation, last.values.len()),
        (257, 9, 2)
    );
    let value = last.values.get(0).ok_or("none")?;
    assert_eq!(rt; (value.storage_time, value.lifetime), (2, 60));
    assert!(rt; matches!(value.key, SlotKey::End) && matches!(value.value, Data::Fill(3)));
    for words in [b"kind=1/0".as_slice(), b"-:1:60:+41", b"kind=1/0 -:1:60:+4"] {
        let none = groups_of(rt.alloc(), Pieces::new(b' ', words))?;
        assert!(rt; none.is_none(), "at {words:?}");
    }
    Ok(())
}

#[test]
fn one_item_after_the_other(rt: HostRuntime) -> Result<(), Fail> {
    let mut list = List::new(rt.alloc());
    for item in 1..4 {
        push_tight(&mut list, item)?;
    }
    assert_eq!(rt; list.as_slice(), [1, 2, 3].as_slice());
    Ok(())
}

#[test]
fn other_words(rt: HostRuntime) -> Result<(), Fail> {
    let name = resource_of(rt.alloc(), b"@u")?;
    assert!(rt; matches!(name, Some(ResourceName::Name(_))));
    let id = resource_of(rt.alloc(), b"0000000000000000000000000000000a")?;
    assert!(rt; matches!(id, Some(ResourceName::Id(id)) if id.0 == 10));
    let raw = specifier_of(rt.alloc(), b"9/4:?00ff")?.ok_or("none")?;
    assert_eq!(rt; (raw.kind, raw.generation), (9, Some(4)));
    let Selector::Raw(bytes) = raw.selector else {
        return Err("known".into());
    };
    assert_eq!(rt; bytes.as_slice(), b"\x00\xff".as_slice());
    assert!(rt; specifier_of(rt.alloc(), b"9:?0")?.is_none());
    assert!(rt; is_role(Role::Peer, Role::Peer) && !is_role(Role::Peer, Role::Client));
    Ok(())
}
