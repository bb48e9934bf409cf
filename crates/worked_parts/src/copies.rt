use access_policy::Policy;
use data_models::{Config, DataModel, KindDef, KindValues, SlotKey, StoreKind, StoredData};
use peer_note::{KeptAnswer, KindNote, NoteForm, PeerNote, SlotNote, StoreNote, encode_note};
use record_copies::{copied_kinds, given_record, noted};
use reload_base::{Bytes, List, NoMemory};
use reload_ids::NodeId;
use std::alloc::Global;
use std::test::Fail;
use wire_core::{Signature, SignerIdentity, Spell};

/// The key of a value.
#[derive(Clone, Copy, Debug)]
enum Key {
    Whole,
    Index(u32),
    Name(&'static [u8]),
}

/// A kind of a note: its Kind-ID, its generation, and the key, whether it is held, and the expiry of
/// each slot.
type Noted = (u32, u64, &'static [(&'static [u8], bool, u64)]);

/// A kind of a Store: its Kind-ID, its generation, and the keys of its values.
type Stored = (u32, u64, &'static [Key]);

const WHOLE: &[(&[u8], bool, u64)] = &[(b"", true, 60_000)];

const NUMBERED: &[(&[u8], bool, u64)] = &[(&[0, 0, 0, 0], true, 5), (&[0, 0, 0, 1], false, 0)];

const NAMED: &[(&[u8], bool, u64)] = &[(b"a", false, 0), (b"b", true, 9), (b"bc", true, 0)];

// A single value, an array and a dictionary, each with the values of the slots that are held.
const NOTES: &[Noted] = &[(256, 2, WHOLE), (257, 1, NUMBERED), (258, 3, NAMED)];

const KINDS: &[Stored] = &[
    (256, 2, &[Key::Whole]),
    (257, 1, &[Key::Index(0)]),
    (258, 3, &[Key::Name(b"b"), Key::Name(b"bc")]),
];

// What a note and its Store may not be: they disagree, or don't rise, or aren't of the configuration.
const WRONG: [(&str, &[Noted], &[Stored]); 20] = [
    ("a kind more", &[(256, 2, WHOLE)], KINDS),
    ("a kind fewer", NOTES, &[(256, 2, &[Key::Whole])]),
    (
        "another kind",
        &[(256, 2, WHOLE)],
        &[(257, 2, &[Key::Whole])],
    ),
    (
        "another generation",
        &[(256, 2, WHOLE)],
        &[(256, 3, &[Key::Whole])],
    ),
    ("no value", &[(256, 2, WHOLE)], &[(256, 2, &[])]),
    (
        "a value more",
        &[(256, 2, WHOLE)],
        &[(256, 2, &[Key::Whole, Key::Whole])],
    ),
    (
        "a value that isn't held",
        &[(257, 1, NUMBERED)],
        &[(257, 1, &[Key::Index(1)])],
    ),
    (
        "values in another order",
        &[(258, 3, NAMED)],
        &[(258, 3, &[Key::Name(b"bc"), Key::Name(b"b")])],
    ),
    (
        "kinds that don't rise",
        &[(257, 1, NUMBERED), (256, 2, WHOLE)],
        &[(257, 1, &[Key::Index(0)]), (256, 2, &[Key::Whole])],
    ),
    (
        "a kind twice",
        &[(256, 2, WHOLE), (256, 2, WHOLE)],
        &[(256, 2, &[Key::Whole]), (256, 2, &[Key::Whole])],
    ),
    (
        "slots that don't rise",
        &[(258, 3, &[(b"b", false, 0), (b"a", false, 0)])],
        &[(258, 3, &[])],
    ),
    (
        "a slot twice",
        &[(258, 3, &[(b"a", false, 0), (b"a", false, 0)])],
        &[(258, 3, &[])],
    ),
    (
        "a kind without a definition",
        &[(259, 1, WHOLE)],
        &[(259, 1, &[])],
    ),
    ("a kind without a slot", &[(256, 2, &[])], &[(256, 2, &[])]),
    (
        "a single value with a key",
        &[(256, 2, &[(b"k", false, 0)])],
        &[(256, 2, &[])],
    ),
    (
        "an index of three bytes",
        &[(257, 1, &[(&[0, 0, 1], false, 0)])],
        &[(257, 1, &[])],
    ),
    (
        "an index of five bytes",
        &[(257, 1, &[(&[0, 0, 0, 0, 1], false, 0)])],
        &[(257, 1, &[])],
    ),
    (
        "the end of an array",
        &[(257, 1, &[(&[255; 4], false, 0)])],
        &[(257, 1, &[])],
    ),
    (
        "an expiry of nothing",
        &[(256, 2, &[(b"", false, 1)])],
        &[(256, 2, &[])],
    ),
    (
        "nothing held, and a value",
        &[(256, 2, &[(b"", false, 0)])],
        &[(256, 2, &[Key::Whole])],
    ),
];

fn config(alloc: Global) -> Result<Config, NoMemory> {
    let mut kinds = List::new(alloc);
    for (id, model) in [
        (256, DataModel::Single),
        (257, DataModel::Array),
        (258, DataModel::Dictionary),
    ] {
        kinds.push(KindDef {
            id,
            model,
            policy: Policy::NodeMatch,
            max_count: 4,
            max_size: 9,
            multiple: 0,
        })?;
    }
    Ok(Config {
        name: Bytes::from_slice(alloc, b"abc")?,
        sequence: 1,
        replicas: 2,
        kinds,
    })
}

fn slot_key(alloc: Global, key: Key) -> Result<SlotKey, NoMemory> {
    match key {
        Key::Whole => Ok(SlotKey::Whole),
        Key::Index(index) => Ok(SlotKey::Index(index)),
        Key::Name(name) => Ok(SlotKey::Name(Bytes::from_slice(alloc, name)?)),
    }
}

/// A value of so many bytes, which has 28 bytes beside them and its key.
fn stored_data(alloc: Global, key: Key, length: usize) -> Result<StoredData, NoMemory> {
    let mut value = Bytes::new(alloc);
    for _ in 0..length {
        value.push(7)?;
    }
    Ok(StoredData {
        key: slot_key(alloc, key)?,
        storage_time: 5,
        lifetime: 60,
        present: true,
        value,
        signature: Signature {
            hash: 0,
            algorithm: 0,
            identity: SignerIdentity::None,
            value: Bytes::new(alloc),
        },
    })
}

fn store_kinds(alloc: Global, rows: &[Stored], length: usize) -> Result<List<StoreKind>, NoMemory> {
    let mut kinds = List::new(alloc);
    for (kind, generation, keys) in rows {
        let mut values = List::new(alloc);
        for key in *keys {
            values.push(stored_data(alloc, *key, length)?)?;
        }
        kinds.push(StoreKind {
            kind: *kind,
            generation: *generation,
            values: KindValues::Known(values),
        })?;
    }
    Ok(kinds)
}

fn kind_notes(alloc: Global, rows: &[Noted]) -> Result<List<KindNote>, NoMemory> {
    let mut kinds = List::new(alloc);
    for (kind, generation, keys) in rows {
        let mut slots = List::new(alloc);
        for (key, held, expiry) in *keys {
            slots.push(SlotNote {
                key: Bytes::from_slice(alloc, key)?,
                floor: 5,
                held: *held,
                expiry: *expiry,
            })?;
        }
        kinds.push(KindNote {
            kind: *kind,
            generation: *generation,
            append_floor: 4,
            slots,
        })?;
    }
    Ok(kinds)
}

/// A note of a record that keeps so many answers.
fn store_note(alloc: Global, rows: &[Noted], answers: u64) -> Result<StoreNote, NoMemory> {
    let mut kept = List::new(alloc);
    for id in 0..answers {
        let mut counters = List::new(alloc);
        counters.push((256, id))?;
        kept.push(KeptAnswer {
            origin: NodeId(0x20),
            id,
            code: 5,
            counters,
        })?;
    }
    Ok(StoreNote {
        turn: 7,
        joined: true,
        kinds: kind_notes(alloc, rows)?,
        kept,
    })
}

/// Whether a note and a Store, with values of so many bytes, say a record.
fn is_taken(
    alloc: Global,
    notes: &[Noted],
    kinds: &[Stored],
    length: usize,
    answers: u64,
) -> Result<bool, NoMemory> {
    let note = store_note(alloc, notes, answers)?;
    let kinds = store_kinds(alloc, kinds, length)?;
    let given = given_record(alloc, &config(alloc)?, note, kinds)?;
    Ok(given.is_some())
}

#[test]
fn a_copy_that_makes_no_sense_is_no_record(rt: HostRuntime) -> Result<(), Fail> {
    let alloc = rt.alloc();
    assert!(rt; is_taken(alloc, NOTES, KINDS, 2, 0)?);
    for (what, notes, kinds) in WRONG {
        assert!(rt; !is_taken(alloc, notes, kinds, 2, 0)?, "{what}");
    }
    Ok(())
}

#[test]
fn no_more_answers_and_no_more_weight_than_a_record_has(rt: HostRuntime) -> Result<(), Fail> {
    let alloc = rt.alloc();
    assert!(rt; is_taken(alloc, NOTES, KINDS, 2, 64)?);
    assert!(rt; !is_taken(alloc, NOTES, KINDS, 2, 65)?);
    // 32 for the kind, 64 for the slot, and 28 beside the value's bytes
    let kinds: &[Stored] = &[(256, 2, &[Key::Whole])];
    assert!(rt; is_taken(alloc, &[(256, 2, WHOLE)], kinds, 130_948, 0)?);
    assert!(rt; !is_taken(alloc, &[(256, 2, WHOLE)], kinds, 130_949, 0)?);
    Ok(())
}

#[test]
fn a_copy_says_what_the_record_has(rt: HostRuntime) -> Result<(), Fail> {
    let alloc = rt.alloc();
    let config = config(alloc)?;
    let note = store_note(alloc, NOTES, 2)?;
    let kinds = store_kinds(alloc, KINDS, 3)?;
    let Some(record) = given_record(alloc, &config, note, kinds)? else {
        return Err(Fail::from(NoMemory));
    };
    let again = PeerNote {
        channel: 9,
        form: NoteForm::Store(noted(alloc, &record)?),
    };
    let first = PeerNote {
        channel: 9,
        form: NoteForm::Store(store_note(alloc, NOTES, 2)?),
    };
    assert!(rt; again.fits());
    assert!(rt; first.fits());
    assert_eq!(rt;
        encode_note(alloc, &again)?.as_slice(),
        encode_note(alloc, &first)?.as_slice()
    );
    // the single value expires at 60,000 ms, the first of the array at 5 ms
    let kinds = copied_kinds(alloc, &config, 1_001, &record)?;
    let mut lifetimes = List::new(alloc);
    for kind in kinds.as_slice() {
        if let KindValues::Known(values) = &kind.values {
            for value in values.as_slice() {
                lifetimes.push(value.lifetime)?;
            }
        }
    }
    assert_eq!(rt; lifetimes.as_slice(), [59, 0, 0, 0].as_slice());
    Ok(())
}
