use crate::user_kinds::{kind, widest};
use data_models::{DataModel, KindDef};
use std::test::Fail;
use worked_requests::{Owner, first_unmet_alone};

/// A kind of each model for values of 100 bytes, and one for values without bytes.
fn short_values() -> [KindDef; 4] {
    [
        kind(256, DataModel::Single, 1, 100),
        kind(257, DataModel::Array, 4, 100),
        kind(258, DataModel::Dictionary, 4, 100),
        kind(259, DataModel::Single, 1, 0),
    ]
}

/// Values as long as their kind permits, and longer by one.
const LENGTHS: &str = "\
    a single value: 0: store @abc kind=256/0 -:1:60:#100\n\
    a longer single value: 8: store @abc kind=256/0 -:1:60:#101\n\
    an index: 0: store @abc kind=257/0 0:1:60:#100\n\
    a longer value at an index: 8: store @abc kind=257/0 0:1:60:#101\n\
    an appended value: 0: store @abc kind=257/0 end:1:60:#100\n\
    a longer appended value: 8: store @abc kind=257/0 end:1:60:#101\n\
    a key: 0: store @abc kind=258/0 =61:1:60:#100\n\
    a longer value at a key: 8: store @abc kind=258/0 =61:1:60:#101\n\
    a longer value at a further key: 8: store @abc kind=258/0 =61:1:60:#100 =62:1:60:#101\n\
    no bytes: 0: store @abc kind=259/0 -:1:60:#0\n\
    one byte: 8: store @abc kind=259/0 -:1:60:#1";

/// Records as heavy as they may be, 131,072 bytes, and heavier by one. A kind weighs 32, a slot 64
/// and its key, and a StoredData 94 beside its value in a single kind, 98 in an array, and 96 and
/// those of its key in a dictionary.
const WEIGHTS: &str = "\
    a single value: 0: store @abc kind=256/0 -:1:60:#130882\n\
    a heavier single value: 8: store @abc kind=256/0 -:1:60:#130883\n\
    an index: 0: store @abc kind=257/0 0:1:60:#130874\n\
    a heavier index: 8: store @abc kind=257/0 0:1:60:#130875\n\
    a key of two bytes: 0: store @abc kind=258/0 =6162:1:60:#130876\n\
    a heavier key: 8: store @abc kind=258/0 =6162:1:60:#130877\n\
    two kinds: 0: store @abc kind=256/0 -:1:60:#60000 kind=257/0 0:1:60:#70684\n\
    two heavier kinds: 8: store @abc kind=256/0 -:1:60:#60000 kind=257/0 0:1:60:#70685\n\
    two slots: 0: store @abc kind=257/0 0:1:60:#60000 end:1:60:#70708\n\
    two heavier slots: 8: store @abc kind=257/0 0:1:60:#60000 end:1:60:#70709";

/// Stores one after the other. What stands there already weighs too, until it is taken away or
/// expires; its slot stays.
const WEIGHTS_IN_TURN: &str = "\
    a value: 0: store @abc kind=256/0 -:1:60:#60000\n\
    too heavy beside it: 8: store @abc kind=257/0 0:1:60:#70685\n\
    as heavy as may be: 0: store @abc kind=257/0 0:1:60:#70684\n\
    the first heavier by one: 8: store @abc kind=256/0 -:2:90:#60001\n\
    it is taken away: 0: store @abc kind=256/0 -:2:90:-\n\
    it comes back: 0: store @abc kind=256/0 -:3:90:#60000\n\
    before the other is expired: 8 after=59999: store @abc kind=258/0 =:1:60:-\n\
    once it is: 0 after=1: store @abc kind=258/0 =:1:60:-";

#[test]
fn values_and_records_as_large_as_may_be(rt: HostRuntime) -> Result<(), Fail> {
    let long = first_unmet_alone(rt.alloc(), &short_values(), "", LENGTHS)?;
    let heavy = first_unmet_alone(rt.alloc(), &widest(), "", WEIGHTS)?;
    let mut owner = Owner::new(rt.alloc(), &widest())?;
    let growing = owner.first_unmet(rt.alloc(), WEIGHTS_IN_TURN)?;
    assert_eq!(rt; (long, heavy, growing), (None, None, None));
    Ok(())
}
