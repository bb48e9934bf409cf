use peer_note::*;
use reload_base::{Bytes, List};
use reload_ids::NodeId;
use std::test::*;
use wire_core::{Bad, DecodeFault, Reason, Spell};

/// The note of a Store on channel 1: turn 2, nobody joined, kind 256 with generation 3 and floor 0
/// and its one slot with an empty key, floor 5 and a value that expires at 6, and one answer with
/// code 0 to the transaction 7 of node 4 with the counter 256:3.
fn note_bytes() -> &'static [u8] {
    &[
        0, 0, 0, 0, 0, 0, 0, 1, 1, 0, 0, 0, 0, 0, 0, 0, 2, 0, 0, 0, 0, 43, 0, 0, 1, 0, 0, 0, 0, 0,
        0, 0, 0, 3, 0, 0, 0, 0, 0, 0, 0, 0, 0, 0, 0, 19, 0, 0, 0, 0, 0, 0, 0, 0, 0, 5, 1, 0, 0, 0,
        0, 0, 0, 0, 6, 0, 0, 0, 40, 0, 0, 0, 0, 0, 0, 0, 0, 0, 0, 0, 0, 0, 0, 0, 4, 0, 0, 0, 0, 0,
        0, 0, 7, 0, 0, 0, 12, 0, 0, 1, 0, 0, 0, 0, 0, 0, 0, 0, 3,
    ]
}

fn note(rt: &HostRuntime, turn: u64) -> Result<PeerNote, Fail> {
    let mut slots = List::new(rt.alloc());
    slots.push(SlotNote {
        key: Bytes::new(rt.alloc()),
        floor: 5,
        held: true,
        expiry: 6,
    })?;
    let mut kinds = List::new(rt.alloc());
    kinds.push(KindNote {
        kind: 256,
        generation: 3,
        append_floor: 0,
        slots,
    })?;
    let mut counters = List::new(rt.alloc());
    counters.push((256, 3))?;
    let mut kept = List::new(rt.alloc());
    kept.push(KeptAnswer {
        origin: NodeId(4),
        id: 7,
        code: 0,
        counters,
    })?;
    Ok(PeerNote {
        channel: 1,
        form: NoteForm::Store(StoreNote {
            turn,
            joined: false,
            kinds,
            kept,
        }),
    })
}

#[test]
fn a_note(rt: HostRuntime) -> Result<(), Fail> {
    let note = note(&rt, 2)?;
    assert!(rt; note.fits());
    let bytes = encode_note(rt.alloc(), &note)?;
    assert_eq!(rt; bytes.as_slice(), note_bytes());
    let again = decode_note(rt.alloc(), note_bytes())?;
    assert_eq!(rt; again.channel, 1);
    let NoteForm::Store(store) = again.form else {
        return Ok(());
    };
    assert_eq!(rt; (store.turn, store.joined), (2, false));
    assert_eq!(rt; (store.kinds.len(), store.kept.len()), (1, 1));
    let plain = decode_note(rt.alloc(), &[0, 0, 0, 0, 0, 0, 0, 9, 2])?;
    assert!(rt; matches!(plain.form, NoteForm::Plain));
    Ok(())
}

#[test]
fn limits(rt: HostRuntime) -> Result<(), Fail> {
    assert!(rt; note(&rt, TURN_LIMIT - 1)?.fits());
    assert!(rt; !note(&rt, TURN_LIMIT)?.fits());
    Ok(())
}

/// The note with one byte changed, and the first fault of each: a form of 0, a turn and a
/// generation of 2^62, a Boolean of 2 and lengths one more and one less.
#[test]
fn refusals(rt: HostRuntime) -> Result<(), Fail> {
    let changed = [
        (8usize, 0u8, 8u64, Reason::BadValue),
        (9, 0x40, 9, Reason::BadValue),
        (17, 2, 17, Reason::BadValue),
        (21, 44, 66, Reason::Short),
        (26, 0x40, 26, Reason::BadValue),
        (45, 20, 42, Reason::LengthPast),
        (47, 1, 65, Reason::Short),
        (56, 2, 56, Reason::BadValue),
        (68, 41, 65, Reason::LengthPast),
        (68, 39, 95, Reason::LengthPast),
        (96, 13, 95, Reason::LengthPast),
        (96, 11, 108, Reason::Short),
    ];
    for (place, byte, at, reason) in changed {
        let mut bytes = Bytes::from_slice(rt.alloc(), note_bytes())?;
        assert!(rt; place < bytes.len());
        bytes.set(place, byte);
        let read = decode_note(rt.alloc(), bytes.as_slice());
        assert_eq!(rt;
            read.err(),
            Some(DecodeFault::Bad(Bad { place: at, reason }))
        );
    }
    Ok(())
}
