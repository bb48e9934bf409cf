//! Lines of runs.

use data_models::{KindValues, Selector, SlotKey, Specifier, StoreKind, StoredData};
use frames_in_flight::FrameError;
use node_model::{Notice, Told};
use reload_base::{Air, Bytes, List, MemoryAir, NoMemory, Sent};
use reload_ids::{NodeId, ResourceId};
use request_words::{DeclaredNode, Role};
use run_model::Happening;
use run_text::*;
use std::alloc::Global;
use std::test::Fail;
use storage_model::{Answer, Asked, FetchAsked, JoinAsked};
use wire_core::{Signature, SignerIdentity};

// The SHA-1 of abc, cut to the length of a Resource-ID.
const ABC: u128 = 0xa9993e364706816aba3e25717850c26c;

fn one<T: Drop>(alloc: Global, item: T) -> Result<List<T>, NoMemory> {
    let mut items = List::new(alloc);
    items.push(item)?;
    Ok(items)
}

// A kind with one value that exists, or with bytes alone.
fn kind(alloc: Global, values: KindValues) -> Result<List<StoreKind>, NoMemory> {
    one(
        alloc,
        StoreKind {
            kind: 256,
            generation: 1,
            values,
        },
    )
}

fn stored(alloc: Global) -> Result<KindValues, NoMemory> {
    let value = StoredData {
        key: SlotKey::Whole,
        storage_time: 5_000,
        lifetime: 60,
        present: true,
        value: Bytes::from_slice(alloc, b"hi")?,
        signature: Signature {
            hash: 0,
            algorithm: 0,
            identity: SignerIdentity::None,
            value: List::new(alloc),
        },
    };
    Ok(KindValues::Known(one(alloc, value)?))
}

// Client 4 took this answer to its request with the transaction id 4.2.
fn taken(told: Told) -> Happening {
    Happening::Tells {
        number: 4,
        notice: Notice::Answered {
            id: 17_179_869_186,
            told,
        },
    }
}

#[test]
fn answers_that_clients_take(rt: HostRuntime) -> Result<(), Fail> {
    let alloc = rt.alloc();
    let mut all = List::new(alloc);
    all.push(taken(Told::Stored {
        counters: one(alloc, (256, 1))?,
    }))?;
    all.push(taken(Told::Stored {
        counters: List::new(alloc),
    }))?;
    all.push(taken(Told::Fetched {
        kinds: kind(alloc, stored(alloc)?)?,
    }))?;
    let raw = KindValues::Raw(Bytes::from_slice(alloc, b"\x00\xff")?);
    all.push(taken(Told::Fetched {
        kinds: kind(alloc, raw)?,
    }))?;
    all.push(taken(Told::Fetched {
        kinds: List::new(alloc),
    }))?;
    all.push(taken(Told::Failed {
        code: 10,
        counters: List::new(alloc),
    }))?;
    all.push(taken(Told::Failed {
        code: 5,
        counters: one(alloc, (256, 3))?,
    }))?;
    all.push(taken(Told::Failed {
        code: 0,
        counters: List::new(alloc),
    }))?;
    let out = lines_of(alloc, &[], all.as_slice())?;
    let lines = b"answer 4.2 ok 256:1
answer 4.2 ok
answer 4.2 kind=256/1 -:5000:60:+6869
answer 4.2 kind=256/1 ?00ff
answer 4.2
answer 4.2 error 10
answer 4.2 error 5 256:3
answer 4.2 error 0
";
    assert_eq!(rt; out.as_slice(), lines.as_slice());
    Ok(())
}

// The lines of all that happens.
fn lines_of(alloc: Global, names: &[DeclaredNode], all: &[Happening]) -> Result<Bytes, NoMemory> {
    let mut out = Bytes::new(alloc);
    for happening in all {
        put_happening(&mut out, names, happening)?;
    }
    Ok(out)
}

// Peer 3 decided on a request of the client with this Node-ID, at 500 ms.
fn decided(origin: u128, asked: Asked, answer: Answer) -> Happening {
    Happening::Tells {
        number: 3,
        notice: Notice::Decision {
            time: 500,
            resource: ResourceId(ABC),
            origin: NodeId(origin),
            id: 17_179_869_186,
            asked,
            answer,
            acted: false,
        },
    }
}

fn fetch(alloc: Global) -> Result<Asked, NoMemory> {
    let specifier = Specifier {
        kind: 256,
        generation: 0,
        selector: Selector::Whole,
    };
    Ok(Asked::Fetch(FetchAsked {
        strange: false,
        sequence: 1,
        max: 0,
        specifiers: one(alloc, specifier)?,
    }))
}

fn error(alloc: Global, code: u16) -> Answer {
    Answer::Decided {
        code,
        counters: List::new(alloc),
    }
}

#[test]
fn decisions_of_peers(rt: HostRuntime) -> Result<(), Fail> {
    let alloc = rt.alloc();
    let names = one(
        alloc,
        DeclaredNode {
            number: 4,
            role: Role::Client,
            node: NodeId(7),
            user: Bytes::from_slice(alloc, b"abc")?,
        },
    )?;
    let found = Answer::Found {
        kinds: kind(alloc, stored(alloc)?)?,
    };
    let join = Asked::Join(JoinAsked {
        strange: false,
        sequence: 1,
    });
    let mut all = List::new(alloc);
    all.push(decided(7, fetch(alloc)?, found))?;
    all.push(decided(8, fetch(alloc)?, error(alloc, 14)))?;
    all.push(decided(7, join, Answer::Joined))?;
    all.push(decided(0, Asked::Unsigned, error(alloc, 2)))?;
    let out = lines_of(alloc, names.as_slice(), all.as_slice())?;
    let lines = b"decide 3 500 a9993e364706816aba3e25717850c26c fetch 4 4.2 max=0 256/0 \
        -> kind=256/1 -:5000:60:+6869
decide 3 500 a9993e364706816aba3e25717850c26c fetch ? 4.2 max=0 256/0 -> error 14
decide 3 500 a9993e364706816aba3e25717850c26c join 4 4.2 -> joined
decide 3 500 a9993e364706816aba3e25717850c26c unsigned -> error 2
";
    assert_eq!(rt; out.as_slice(), lines.as_slice());
    Ok(())
}

#[test]
fn refused_events(rt: HostRuntime) -> Result<(), Fail> {
    let mut all = List::new(rt.alloc());
    all.push(Happening::NoSuchFrame { line: 14 })?;
    all.push(Happening::UnknownNode { line: 9 })?;
    all.push(Happening::Busy { line: 69 })?;
    let out = lines_of(rt.alloc(), &[], all.as_slice())?;
    let lines = b"refused 14 no-such-frame
refused 9 unknown-node
refused 69 busy
";
    assert_eq!(rt; out.as_slice(), lines.as_slice());
    Ok(())
}

// Puts a short frame into an air.
fn sent(
    alloc: Global,
    air: &mut MemoryAir,
    from: u32,
    to: u32,
    bytes: &[u8],
) -> Result<(), FrameError> {
    if bytes.is_empty() || 100 < bytes.len() || 1_000 < air.size() {
        return Err(FrameError::Failed);
    }
    match air.send(alloc, from, to, bytes) {
        Sent::Ok => Ok(()),
        Sent::Failed => Err(FrameError::Failed),
        Sent::NoMemory => Err(FrameError::NoMemory),
    }
}

#[test]
fn frames_behind_the_first(rt: HostRuntime) -> Result<(), FrameError> {
    let alloc = rt.alloc();
    let mut air = MemoryAir::new(alloc, &[])?;
    sent(alloc, &mut air, 4, 3, b"\x80\x00")?;
    sent(
        alloc,
        &mut air,
        3,
        4,
        b"\x81\x00\x00\x00\x01\x00\x00\x00\x00",
    )?;
    sent(alloc, &mut air, 3, 0, b"\xaf")?;
    let mut out = Bytes::new(alloc);
    put_frames(alloc, &mut out, &mut air, 1)?;
    put_frames(alloc, &mut out, &mut air, 3)?;
    put_frames(alloc, &mut out, &mut air, 4)?;
    put_frames(alloc, &mut out, &mut air, 0)?;
    let lines = b"frame 2 3 4 810000000100000000
frame 3 3 0 af
frame 1 4 3 8000
frame 2 3 4 810000000100000000
frame 3 3 0 af
";
    assert_eq!(rt; out.as_slice(), lines.as_slice());
    Ok(())
}

#[test]
fn ends_of_runs(rt: HostRuntime) -> Result<(), Fail> {
    let mut out = Bytes::new(rt.alloc());
    put_end(&mut out, 68, 15_882, 0, true)?;
    put_end(&mut out, 0, 0, 18_446_744_073_709_551_615, false)?;
    let lines = b"end frames=68 bytes=15882 clock=0 settled=yes
end frames=0 bytes=0 clock=18446744073709551615 settled=no
";
    assert_eq!(rt; out.as_slice(), lines.as_slice());
    Ok(())
}
