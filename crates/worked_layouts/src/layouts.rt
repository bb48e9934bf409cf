use reload_base::{Bytes, List, NoMemory};
use reload_ids::{NodeId, ResourceId};
use std::test::*;
use wire_core::*;

fn bad<T: Drop>(place: u64, reason: Reason) -> Result<T, Bad> {
    Err(Bad { place, reason })
}

#[test]
fn numbers(rt: HostRuntime) -> Result<(), Fail> {
    let mut out = Bytes::new(rt.alloc());
    put_u8(&mut out, 0x01)?;
    put_u16(&mut out, 0x0203)?;
    put_u24(&mut out, 0x04_0506)?;
    put_u32(&mut out, 0x0708_090a)?;
    put_u64(&mut out, 0x0b0c_0d0e_0f10_1112)?;
    put_u128(&mut out, 0x1314_1516_1718_191a_1b1c_1d1e_1f20_2122)?;
    put_boolean(&mut out, true)?;
    put_boolean(&mut out, false)?;
    put_bytes(&mut out, 2, &[7, 8])?;
    put_whole(&mut out, &ResourceId(5))?;
    assert_eq!(rt; out.len(), 34 + 2 + 4 + 17);
    for (i, byte) in out.as_slice().iter().take(34).enumerate() {
        assert_eq!(rt; usize::from(*byte), i + 1);
    }

    let mut from = Cursor::new(out.as_slice(), 1000);
    assert_eq!(rt; from.take_u8()?, 0x01);
    assert_eq!(rt; from.take_u16()?, 0x0203);
    assert_eq!(rt; from.take_u24()?, 0x04_0506);
    assert_eq!(rt; from.take_u32()?, 0x0708_090a);
    assert_eq!(rt; from.take_u64()?, 0x0b0c_0d0e_0f10_1112);
    assert_eq!(rt;
        from.take_u128()?,
        0x1314_1516_1718_191a_1b1c_1d1e_1f20_2122
    );
    assert_eq!(rt; from.take_boolean()?, true);
    assert_eq!(rt; from.take_boolean()?, false);
    let mut part = from.take_part(2)?;
    assert_eq!(rt; part.rest(), [7, 8].as_slice());
    assert_eq!(rt;
        decode::<ResourceId>(rt.alloc(), &mut from).ok(),
        Some(ResourceId(5))
    );
    assert_eq!(rt; from.place(), 1057);
    assert_eq!(rt; from.finish(), Ok(()));
    Ok(())
}

#[test]
fn refusals(rt: HostRuntime) {
    assert_eq!(rt;
        Cursor::new(&[1, 2, 3], 10).take_u32(),
        bad(13, Reason::Short)
    );
    assert_eq!(rt;
        Cursor::new(&[2], 10).take_boolean(),
        bad(10, Reason::BadValue)
    );
    assert_eq!(rt; Cursor::new(&[2], 10).finish(), bad(10, Reason::Trailing));
    assert_eq!(rt;
        Cursor::new(&[0, 7], 10).take_limited(2, 6),
        bad(10, Reason::TooLarge)
    );
    assert_eq!(rt;
        Cursor::new(&[0, 7], 10).expect(2, 6),
        bad(10, Reason::BadValue)
    );
    assert!(rt;
        matches!(
            Cursor::new(&[0, 2, 9], 10).take_part(2),
            Err(Bad {
                place: 10,
                reason: Reason::LengthPast
            })
        )
    );
    assert!(rt;
        matches!(
            Cursor::new(&[4, 9], 10).take_sized_part(1, 5),
            Err(Bad {
                place: 10,
                reason: Reason::BadValue
            })
        )
    );
}

#[test]
fn vectors_of_structures(rt: HostRuntime) -> Result<(), Fail> {
    let mut from = Cursor::new(&[0, 4, 1, 2, 3, 4, 0, 2, 0, 0], 0);
    let pairs: Result<List<(u8, u8)>, DecodeFault> = take_vector(rt.alloc(), &mut from, 2);
    assert_eq!(rt;
        pairs.ok().ok_or("pairs")?.as_slice(),
        [(1, 2), (3, 4)].as_slice()
    );
    let names: Result<List<Bytes>, DecodeFault> = take_vector_by(rt.alloc(), &Plain, &mut from, 2);
    assert_eq!(rt; names.ok().ok_or("names")?.len(), 1);
    Ok(())
}

#[test]
fn inner_structures(rt: HostRuntime) {
    let mut from = Cursor::new(&[2, 1, 2, 2, 3, 4], 0);
    assert_eq!(rt; take_sized(rt.alloc(), &mut from, 1, 2), Ok(0x0102u16));
    assert_eq!(rt; take_inner(rt.alloc(), &mut from, 1), Ok(0x0304u16));
}

#[test]
fn whole_inputs(rt: HostRuntime) {
    let behind = Bad {
        place: 2,
        reason: Reason::Trailing,
    };
    assert_eq!(rt; decode_whole(rt.alloc(), &[1, 2]), Ok(0x0102u16));
    assert_eq!(rt;
        decode_whole::<u16>(rt.alloc(), &[1, 2, 3]),
        Err(DecodeFault::Bad(behind))
    );
    assert_eq!(rt; given(Some(5), 7, Reason::BadValue), Ok(5));
    assert_eq!(rt;
        given::<u8>(None, 7, Reason::BadValue),
        bad(7, Reason::BadValue)
    );
}
