use access_policy::Policy;
use data_models::*;
use reload_base::{Bytes, List, NoMemory, TryCopy};
use reload_ids::ResourceId;
use std::alloc::Global;
use std::test::*;
use wire_core::{Bad, Cursor, DecodeFault, Reason, Signature, SignerIdentity, Spell};

/// The value `hi` at index 5, signed by nobody with the byte 9: a StoredData of 35 bytes.
const AT_FIVE: &[u8] = &[
    0x00, 0x00, 0x00, 0x1f, 0x01, 0x02, 0x03, 0x04, 0x05, 0x06, 0x07, 0x08, 0x0a, 0x0b, 0x0c, 0x0d,
    0x00, 0x00, 0x00, 0x05, 0x01, 0x00, 0x00, 0x00, 0x02, 0x68, 0x69, 0x04, 0x01, 0x03, 0x00, 0x00,
    0x00, 0x01, 0x09,
];

/// No value under the key `k`, as a Fetch gives it: a StoredData of 31 bytes.
const NONE_AT_K: &[u8] = &[
    0x00, 0x00, 0x00, 0x1b, 0x00, 0x00, 0x00, 0x00, 0x00, 0x00, 0x00, 0x00, 0x00, 0x00, 0x00, 0x00,
    0x00, 0x01, 0x6b, 0x00, 0x00, 0x00, 0x00, 0x00, 0x00, 0x00, 0x03, 0x00, 0x00, 0x00, 0x00,
];

/// No value at the end of an array, signed as the value at index 5: a StoredData of 33 bytes.
const AT_THE_END: &[u8] = &[
    0x00, 0x00, 0x00, 0x1d, 0x00, 0x00, 0x00, 0x00, 0x00, 0x00, 0x00, 0x00, 0x00, 0x00, 0x00, 0x00,
    0xff, 0xff, 0xff, 0xff, 0x00, 0x00, 0x00, 0x00, 0x00, 0x04, 0x01, 0x03, 0x00, 0x00, 0x00, 0x01,
    0x09,
];

fn kind_def(id: u32, model: DataModel) -> KindDef {
    KindDef {
        id,
        model,
        policy: Policy::UserMatch,
        max_count: 4,
        max_size: 100,
        multiple: 0,
    }
}

/// Kind 256 is single, 257 an array, 258 a dictionary.
fn config(alloc: Global) -> Result<Config, NoMemory> {
    let mut kinds = List::new(alloc);
    kinds.push(kind_def(256, DataModel::Single))?;
    kinds.push(kind_def(257, DataModel::Array))?;
    kinds.push(kind_def(258, DataModel::Dictionary))?;
    Ok(Config {
        name: Bytes::from_slice(alloc, b"abc")?,
        sequence: 1,
        replicas: 2,
        kinds,
    })
}

fn at_five(alloc: Global) -> Result<StoredData, NoMemory> {
    Ok(StoredData {
        key: SlotKey::Index(5),
        storage_time: 0x0102_0304_0506_0708,
        lifetime: 0x0a0b_0c0d,
        present: true,
        value: Bytes::from_slice(alloc, b"hi")?,
        signature: Signature {
            hash: 4,
            algorithm: 1,
            identity: SignerIdentity::None,
            value: Bytes::from_slice(alloc, &[9])?,
        },
    })
}

/// A kind that is taken and put again.
fn kind_again(alloc: Global, head: &[u8], values: &[u8]) -> Result<(StoreKind, bool), DecodeFault> {
    let mut bytes = Bytes::from_slice(alloc, head)?;
    bytes.extend(values)?;
    let mut from = Cursor::new(bytes.as_slice(), 0);
    let kind = take_fetch_kind(alloc, &config(alloc)?, &mut from)?;
    let mut out = Bytes::new(alloc);
    put_store_kind(&mut out, &kind)?;
    Ok((kind, out.as_slice() == bytes.as_slice()))
}

/// A specifier that is taken and put again.
fn specifier_again(alloc: Global, bytes: &[u8]) -> Result<(Selector, bool), DecodeFault> {
    let specifier = take_specifier(alloc, &config(alloc)?, &mut Cursor::new(bytes, 0))?;
    let mut out = Bytes::new(alloc);
    put_specifier(&mut out, &specifier)?;
    Ok((specifier.selector, out.as_slice() == bytes))
}

#[test]
fn data_values(rt: HostRuntime) -> Result<(), Fail> {
    let value = take_data_value(rt.alloc(), &mut Cursor::new(&[0, 0, 0, 0, 0], 0))?;
    assert!(rt; !value.0 && value.1.is_empty());
    let bytes = [2, 0, 0, 0, 0];
    assert!(rt;
        matches!(
            take_data_value(rt.alloc(), &mut Cursor::new(&bytes, 0)),
            Err(DecodeFault::Bad(Bad {
                place: 0,
                reason: Reason::BadValue
            }))
        )
    );
    let bytes = [0, 0, 0, 0, 1, 7];
    assert!(rt;
        matches!(
            take_data_value(rt.alloc(), &mut Cursor::new(&bytes, 10)),
            Err(DecodeFault::Bad(Bad {
                place: 11,
                reason: Reason::BadValue
            }))
        )
    );
    Ok(())
}

#[test]
fn kinds(rt: HostRuntime) -> Result<(), Fail> {
    let alloc = rt.alloc();
    let array = [0, 0, 1, 1, 0, 0, 0, 0, 0, 0, 0, 3, 0, 0, 0, 35];
    let (kind, same) = kind_again(alloc, &array, AT_FIVE)?;
    assert!(rt; same && kind.kind == 257 && kind.generation == 3);
    assert!(rt; matches!(&kind.values, KindValues::Known(list) if list.len() == 1));

    let dictionary = [0, 0, 1, 2, 0, 0, 0, 0, 0, 0, 0, 3, 0, 0, 0, 31];
    let (kind, same) = kind_again(alloc, &dictionary, NONE_AT_K)?;
    assert!(rt; same && kind.kind == 258);

    let single = [0, 0, 1, 0, 0, 0, 0, 0, 0, 0, 0, 0, 0, 0, 0, 0];
    let (kind, same) = kind_again(alloc, &single, &[])?;
    assert!(rt; same && matches!(&kind.values, KindValues::Known(list) if list.is_empty()));

    let other = [0, 0, 1, 3, 0, 0, 0, 0, 0, 0, 0, 3, 0, 0, 0, 2];
    let (kind, same) = kind_again(alloc, &other, &[7, 8])?;
    assert!(rt; same && matches!(&kind.values, KindValues::Raw(bytes) if bytes.len() == 2));
    Ok(())
}

#[test]
fn the_end_of_an_array(rt: HostRuntime) -> Result<(), Fail> {
    let alloc = rt.alloc();
    let array = [0, 0, 1, 1, 0, 0, 0, 0, 0, 0, 0, 3, 0, 0, 0, 33];
    let (kind, same) = kind_again(alloc, &array, AT_THE_END)?;
    assert!(rt;
        same && matches!(&kind.values, KindValues::Known(list)
        if matches!(list.get(0), Some(stored) if matches!(&stored.key, SlotKey::End)))
    );
    assert!(rt; SlotKey::End.model() == DataModel::Array);
    assert_eq!(rt;
        SlotKey::Index(258).bytes(alloc)?.as_slice(),
        [0, 0, 1, 2].as_slice()
    );
    Ok(())
}

#[test]
fn specifiers(rt: HostRuntime) -> Result<(), Fail> {
    let alloc = rt.alloc();
    let single = [0, 0, 1, 0, 0, 0, 0, 0, 0, 0, 0, 0, 0, 0];
    let (selector, same) = specifier_again(alloc, &single)?;
    assert!(rt; same && matches!(selector, Selector::Whole));

    let array = [
        0, 0, 1, 1, 0, 0, 0, 0, 0, 0, 0, 0, 0, 10, 0, 8, 0, 0, 0, 1, 0, 0, 0, 2,
    ];
    let (selector, same) = specifier_again(alloc, &array)?;
    assert!(rt;
        same && matches!(&selector, Selector::Ranges(list)
        if list.as_slice() == [(1, 2)].as_slice())
    );

    let dictionary = [0, 0, 1, 2, 0, 0, 0, 0, 0, 0, 0, 0, 0, 5, 0, 3, 0, 1, 0x6b];
    let (selector, same) = specifier_again(alloc, &dictionary)?;
    assert!(rt; same && matches!(&selector, Selector::Names(list) if list.len() == 1));

    let other = [0, 0, 1, 3, 0, 0, 0, 0, 0, 0, 0, 0, 0, 1, 7];
    let (selector, same) = specifier_again(alloc, &other)?;
    assert!(rt; same && matches!(&selector, Selector::Raw(bytes) if bytes.len() == 1));
    Ok(())
}

#[test]
fn what_is_signed(rt: HostRuntime) -> Result<(), Fail> {
    let value = at_five(rt.alloc())?;
    assert!(rt; value.value_fits());
    let resource = ResourceId(0x0102_0304_0506_0708_090a_0b0c_0d0e_0f10);
    let bytes = signed_bytes(rt.alloc(), resource, 257, &value)?;
    let want = [
        1, 2, 3, 4, 5, 6, 7, 8, 9, 10, 11, 12, 13, 14, 15, 16, 0, 0, 1, 1, 1, 2, 3, 4, 5, 6, 7, 8,
        0, 0, 0, 5, 1, 0, 0, 0, 2, 0x68, 0x69,
    ];
    assert_eq!(rt; bytes.as_slice(), want.as_slice());
    Ok(())
}

#[test]
fn the_size_of_a_value_and_of_a_gap(rt: HostRuntime) -> Result<(), Fail> {
    let value = at_five(rt.alloc())?.copy(rt.alloc())?;
    assert!(rt; value.fits());
    assert_eq!(rt; value.size(), 35);
    let gap = StoredData::gap(
        rt.alloc(),
        SlotKey::Name(Bytes::from_slice(rt.alloc(), b"k")?),
    );
    assert!(rt; gap.fits());
    assert_eq!(rt; gap_size(&gap.key), 31);
    let mut out = Bytes::new(rt.alloc());
    gap.put(&mut out)?;
    assert_eq!(rt; out.as_slice(), NONE_AT_K);
    Ok(())
}

#[test]
fn definitions(rt: HostRuntime) -> Result<(), Fail> {
    let config = config(rt.alloc())?.copy(rt.alloc())?;
    assert_eq!(rt; config.model(257), Some(DataModel::Array));
    assert_eq!(rt;
        config.kind(258),
        Some(kind_def(258, DataModel::Dictionary))
    );
    assert_eq!(rt; config.kind(259), None);
    Ok(())
}
