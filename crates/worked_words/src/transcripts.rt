//! Lines of transcripts.

use data_models::{KindValues, Selector, SlotKey, Specifier, StoreKind, StoredData};
use reload_base::{Bytes, List, NoMemory};
use reload_ids::{NodeId, ResourceId};
use request_words::{DeclaredNode, Role};
use security_block::About;
use std::alloc::Global;
use std::test::Fail;
use storage_model::{
    Answer, Asked, AskedKind, AskedValues, FetchAsked, JoinAsked, Refusal, StoreAsked, Value,
};
use transcript_text::*;
use wire_core::{Signature, SignerIdentity};

fn stored(alloc: Global, key: SlotKey, value: &[u8]) -> Result<StoredData, NoMemory> {
    Ok(StoredData {
        key,
        storage_time: 5_000,
        lifetime: 60,
        present: !value.is_empty(),
        value: Bytes::from_slice(alloc, value)?,
        signature: Signature {
            hash: 0,
            algorithm: 0,
            identity: SignerIdentity::None,
            value: List::new(alloc),
        },
    })
}

fn one<T: Drop>(alloc: Global, item: T) -> Result<List<T>, NoMemory> {
    let mut items = List::new(alloc);
    items.push(item)?;
    Ok(items)
}

fn nodes(alloc: Global) -> Result<List<DeclaredNode>, NoMemory> {
    one(
        alloc,
        DeclaredNode {
            number: 2,
            role: Role::Client,
            node: NodeId(7),
            user: Bytes::from_slice(alloc, b"u")?,
        },
    )
}

fn refused(alloc: Global, cause: Refusal) -> Answer {
    Answer::Decided {
        code: cause.code(),
        counters: List::new(alloc),
    }
}

fn line_of(alloc: Global, asked: &Asked, answer: &Answer) -> Result<Bytes, NoMemory> {
    let mut out = List::new(alloc);
    let line = DecisionLine {
        peer: 1,
        time: 0,
        resource: ResourceId(1),
        origin: NodeId(7),
        id: 8_589_934_593,
        asked,
        answer,
    };
    put_decide_line(&mut out, nodes(alloc)?.as_slice(), &line)?;
    Ok(out)
}

#[test]
fn a_decided_store(rt: HostRuntime) -> Result<(), Fail> {
    let value = Value {
        stored: stored(rt.alloc(), SlotKey::End, b"hi")?,
        signer: Some(About {
            peer: false,
            node: NodeId(7),
            user: Bytes::from_slice(rt.alloc(), b"u")?,
        }),
        size: 100,
    };
    let kind = AskedKind {
        kind: 257,
        generation: 0,
        values: AskedValues::Known(one(rt.alloc(), value)?),
    };
    let asked = Asked::Store(StoreAsked {
        strange: true,
        sequence: 1,
        kinds: one(rt.alloc(), kind)?,
    });
    let told = Answer::Decided {
        code: 5,
        counters: one(rt.alloc(), (257, 3))?,
    };
    let line = b"decide 1 0 00000000000000000000000000000001 store 2 2.1 strange \
        kind=257/0 end:5000:60:+6869:2:100 -> error 5 257:3\n";
    assert_eq!(rt;
        line_of(rt.alloc(), &asked, &told)?.as_slice(),
        line.as_slice()
    );
    Ok(())
}

#[test]
fn a_decided_fetch(rt: HostRuntime) -> Result<(), Fail> {
    let specifier = Specifier {
        kind: 3,
        generation: 4,
        selector: Selector::Names(List::new(rt.alloc())),
    };
    let asked = Asked::Fetch(FetchAsked {
        strange: false,
        sequence: 1,
        max: 9,
        specifiers: one(rt.alloc(), specifier)?,
    });
    let name = SlotKey::Name(Bytes::from_slice(rt.alloc(), b"P")?);
    let kind = StoreKind {
        kind: 3,
        generation: 5,
        values: KindValues::Known(one(rt.alloc(), stored(rt.alloc(), name, b"")?)?),
    };
    let told = Answer::Found {
        kinds: one(rt.alloc(), kind)?,
    };
    let line = b"decide 1 0 00000000000000000000000000000001 fetch 2 2.1 max=9 \
        3/4:* -> kind=3/5 =50:5000:60:-\n";
    assert_eq!(rt;
        line_of(rt.alloc(), &asked, &told)?.as_slice(),
        line.as_slice()
    );
    Ok(())
}

#[test]
fn a_kind_without_a_definition(rt: HostRuntime) -> Result<(), Fail> {
    let specifier = Specifier {
        kind: 9,
        generation: 4,
        selector: Selector::Raw(Bytes::from_slice(rt.alloc(), b"\x00\xff")?),
    };
    let asked = Asked::Fetch(FetchAsked {
        strange: false,
        sequence: 1,
        max: 0,
        specifiers: one(rt.alloc(), specifier)?,
    });
    let kind = StoreKind {
        kind: 9,
        generation: 5,
        values: KindValues::Raw(Bytes::from_slice(rt.alloc(), b"hi")?),
    };
    let told = Answer::Found {
        kinds: one(rt.alloc(), kind)?,
    };
    let line = b"decide 1 0 00000000000000000000000000000001 fetch 2 2.1 max=0 \
        9/4:?00ff -> kind=9/5 ?6869\n";
    assert_eq!(rt;
        line_of(rt.alloc(), &asked, &told)?.as_slice(),
        line.as_slice()
    );
    Ok(())
}

#[test]
fn a_store_without_a_definition(rt: HostRuntime) -> Result<(), Fail> {
    let kind = AskedKind {
        kind: 9,
        generation: 4,
        values: AskedValues::Raw(Bytes::from_slice(rt.alloc(), b"\x00\xff")?),
    };
    let asked = Asked::Store(StoreAsked {
        strange: false,
        sequence: 1,
        kinds: one(rt.alloc(), kind)?,
    });
    let told = refused(rt.alloc(), Refusal::UnknownKind);
    let line = b"decide 1 0 00000000000000000000000000000001 store 2 2.1 kind=9/4 ?00ff \
        -> error 12\n";
    assert_eq!(rt;
        line_of(rt.alloc(), &asked, &told)?.as_slice(),
        line.as_slice()
    );
    Ok(())
}

#[test]
fn other_lines(rt: HostRuntime) -> Result<(), Fail> {
    let told = refused(rt.alloc(), Refusal::InvalidMessage);
    let bad = b"decide 1 0 00000000000000000000000000000001 bad -> error 20\n";
    assert_eq!(rt;
        line_of(rt.alloc(), &Asked::Bad, &told)?.as_slice(),
        bad.as_slice()
    );
    let join = Asked::Join(JoinAsked {
        strange: false,
        sequence: 1,
    });
    let joined = b"decide 1 0 00000000000000000000000000000001 join 2 2.1 -> joined\n";
    assert_eq!(rt;
        line_of(rt.alloc(), &join, &Answer::Joined)?.as_slice(),
        joined.as_slice()
    );
    let mut out = List::new(rt.alloc());
    put_bad_line(&mut out, 8)?;
    put_air_full_line(&mut out, 268_435_400)?;
    put_node_full_line(&mut out, 2)?;
    let lines = b"bad line 8
air full 268435400
node full 2
";
    assert_eq!(rt; out.as_slice(), lines.as_slice());
    Ok(())
}
