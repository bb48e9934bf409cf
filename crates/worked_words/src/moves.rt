//! Events, and the moves that they are.

use data_models::{KindValues, Selector, SlotKey, Specifier, StoreKind, StoredData};
use node_model::{Command, FetchCommand, StoreCommand};
use reload_base::{Bytes, List, NoMemory};
use reload_ids::{NodeId, ResourceId};
use request_words::{Data, GroupWords, ResourceName, SpecifierWord, ValueWord};
use run_model::Move;
use scenario_moves::*;
use scenario_text::{EventKind, FetchEvent, StoreEvent};
use sqlite_items::Boxed;
use std::alloc::Global;
use std::test::Fail;
use wire_core::{Signature, SignerIdentity};

/// The first 16 bytes of the SHA-1 of "abc" (FIPS 180-1, appendix A).
const ABC: u128 = 0xa999_3e36_4706_816a_ba3e_2571_7850_c26c;

fn word(key: SlotKey, storage_time: u64, lifetime: u32, value: Data) -> ValueWord {
    ValueWord {
        key,
        storage_time,
        lifetime,
        value,
    }
}

fn unsigned(alloc: Global) -> Result<Signature, NoMemory> {
    Ok(Signature {
        hash: 4,
        algorithm: 224,
        identity: SignerIdentity::CertHash {
            alg: 4,
            hash: Bytes::from_slice(alloc, &[0; 32])?,
        },
        value: Bytes::from_slice(alloc, &[0; 32])?,
    })
}

fn groups(alloc: Global) -> Result<List<GroupWords>, NoMemory> {
    let mut first = List::new(alloc);
    let bytes = Data::Bytes(Bytes::from_slice(alloc, b"AB")?);
    first.push(word(SlotKey::Index(4), 1, 60, bytes))?;
    first.push(word(SlotKey::End, 2, 61, Data::Fill(3)))?;
    let mut second = List::new(alloc);
    let name = SlotKey::Name(Bytes::from_slice(alloc, b"P")?);
    second.push(word(name, 3, 62, Data::Nonexistent))?;
    let mut groups = List::new(alloc);
    groups.push(GroupWords {
        kind: 256,
        generation: 0,
        values: first,
    })?;
    groups.push(GroupWords {
        kind: 257,
        generation: 9,
        values: second,
    })?;
    Ok(groups)
}

fn first_values(alloc: Global) -> Result<List<StoredData>, NoMemory> {
    let mut values = List::new(alloc);
    values.push(StoredData {
        key: SlotKey::Index(4),
        storage_time: 1,
        lifetime: 60,
        present: true,
        value: Bytes::from_slice(alloc, &[0x41, 0x42])?,
        signature: unsigned(alloc)?,
    })?;
    values.push(StoredData {
        key: SlotKey::End,
        storage_time: 2,
        lifetime: 61,
        present: true,
        value: Bytes::from_slice(alloc, &[0x61, 0x61, 0x61])?,
        signature: unsigned(alloc)?,
    })?;
    Ok(values)
}

fn second_values(alloc: Global) -> Result<List<StoredData>, NoMemory> {
    let mut values = List::new(alloc);
    values.push(StoredData {
        key: SlotKey::Name(Bytes::from_slice(alloc, &[0x50])?),
        storage_time: 3,
        lifetime: 62,
        present: false,
        value: Bytes::new(alloc),
        signature: unsigned(alloc)?,
    })?;
    Ok(values)
}

fn kinds(alloc: Global) -> Result<List<StoreKind>, NoMemory> {
    let mut kinds = List::new(alloc);
    kinds.push(StoreKind {
        kind: 256,
        generation: 0,
        values: KindValues::Known(first_values(alloc)?),
    })?;
    kinds.push(StoreKind {
        kind: 257,
        generation: 9,
        values: KindValues::Known(second_values(alloc)?),
    })?;
    Ok(kinds)
}

/// A Store that says all that a line may say.
fn whole_store(alloc: Global) -> Result<(EventKind, Move), NoMemory> {
    let event = StoreEvent {
        client: 3,
        peer: 1,
        resource: ResourceName::Name(Bytes::from_slice(alloc, b"abc")?),
        ttl: Some(5),
        seq: Some(2),
        groups: groups(alloc)?,
    };
    let command = Command::Store(StoreCommand {
        peer: NodeId(0),
        resource: ResourceId(ABC),
        ttl: Some(5),
        sequence: Some(2),
        kinds: kinds(alloc)?,
    });
    let wanted = Move::Ask {
        client: 3,
        peer: 1,
        command,
    };
    Ok((EventKind::Store(Boxed::new(alloc, event)?), wanted))
}

/// A Store that says no more than it must.
fn bare_store(alloc: Global) -> Result<(EventKind, Move), NoMemory> {
    let event = StoreEvent {
        client: 300,
        peer: 200,
        resource: ResourceName::Id(ResourceId(10)),
        ttl: None,
        seq: None,
        groups: List::new(alloc),
    };
    let command = Command::Store(StoreCommand {
        peer: NodeId(0),
        resource: ResourceId(10),
        ttl: None,
        sequence: None,
        kinds: List::new(alloc),
    });
    let wanted = Move::Ask {
        client: 300,
        peer: 200,
        command,
    };
    Ok((EventKind::Store(Boxed::new(alloc, event)?), wanted))
}

fn ranges(alloc: Global) -> Result<Selector, NoMemory> {
    let mut ranges = List::new(alloc);
    ranges.push((0, 2))?;
    Ok(Selector::Ranges(ranges))
}

fn words(alloc: Global) -> Result<List<SpecifierWord>, NoMemory> {
    let mut words = List::new(alloc);
    words.push(SpecifierWord {
        kind: 256,
        generation: None,
        selector: Selector::Whole,
    })?;
    words.push(SpecifierWord {
        kind: 257,
        generation: Some(4),
        selector: ranges(alloc)?,
    })?;
    Ok(words)
}

fn specifiers(alloc: Global) -> Result<List<Specifier>, NoMemory> {
    let mut specifiers = List::new(alloc);
    specifiers.push(Specifier {
        kind: 256,
        generation: 0,
        selector: Selector::Whole,
    })?;
    specifiers.push(Specifier {
        kind: 257,
        generation: 4,
        selector: ranges(alloc)?,
    })?;
    Ok(specifiers)
}

/// A Fetch that says all that a line may say.
fn whole_fetch(alloc: Global) -> Result<(EventKind, Move), NoMemory> {
    let event = FetchEvent {
        client: 3,
        peer: 1,
        resource: ResourceName::Name(Bytes::from_slice(alloc, b"abc")?),
        ttl: Some(0),
        seq: Some(65_535),
        max: Some(100),
        specifiers: words(alloc)?,
    };
    let command = Command::Fetch(FetchCommand {
        peer: NodeId(0),
        resource: ResourceId(ABC),
        ttl: Some(0),
        sequence: Some(65_535),
        max: 100,
        specifiers: specifiers(alloc)?,
    });
    let wanted = Move::Ask {
        client: 3,
        peer: 1,
        command,
    };
    Ok((EventKind::Fetch(Boxed::new(alloc, event)?), wanted))
}

/// A Fetch that says no more than it must.
fn bare_fetch(alloc: Global) -> Result<(EventKind, Move), NoMemory> {
    let event = FetchEvent {
        client: 300,
        peer: 200,
        resource: ResourceName::Id(ResourceId(10)),
        ttl: None,
        seq: None,
        max: None,
        specifiers: List::new(alloc),
    };
    let command = Command::Fetch(FetchCommand {
        peer: NodeId(0),
        resource: ResourceId(10),
        ttl: None,
        sequence: None,
        max: 0,
        specifiers: List::new(alloc),
    });
    let wanted = Move::Ask {
        client: 300,
        peer: 200,
        command,
    };
    Ok((EventKind::Fetch(Boxed::new(alloc, event)?), wanted))
}

fn rows(alloc: Global) -> Result<List<(EventKind, Move)>, NoMemory> {
    let mut rows = List::new(alloc);
    rows.push((EventKind::Clock(1_000), Move::Clock(1_000)))?;
    rows.push((EventKind::Deliver(7), Move::Deliver(7)))?;
    rows.push((EventKind::Lose(8), Move::Lose(8)))?;
    rows.push((EventKind::Drain(50), Move::Drain(50)))?;
    rows.push(whole_store(alloc)?)?;
    rows.push(bare_store(alloc)?)?;
    rows.push(whole_fetch(alloc)?)?;
    rows.push(bare_fetch(alloc)?)?;
    Ok(rows)
}

#[test]
fn events_and_their_moves(rt: HostRuntime) -> Result<(), Fail> {
    let rows = rows(rt.alloc())?;
    for (event, wanted) in rows.as_slice() {
        let got = move_of(rt.alloc(), event)?;
        assert_eq!(rt;
            format!(in rt.alloc(); "{got:?}")?,
            format!(in rt.alloc(); "{wanted:?}")?
        );
    }
    Ok(())
}
