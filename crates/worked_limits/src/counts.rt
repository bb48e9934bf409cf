use crate::user_kinds::{kind, widest};
use data_models::{DataModel, KindDef};
use std::test::Fail;
use worked_requests::{Owner, first_unmet_alone};

/// A kind of each model that has several slots, of three slots at the most.
fn few_slots() -> [KindDef; 2] {
    [
        kind(257, DataModel::Array, 3, 10),
        kind(258, DataModel::Dictionary, 3, 10),
    ]
}

/// As many slots as their kind permits, and one more.
const COUNTS: &str = "\
    the last index: 0: store @abc kind=257/0 2:1:60:+41\n\
    the next index: 8: store @abc kind=257/0 3:1:60:+41\n\
    the greatest index: 8: store @abc kind=257/0 4294967294:1:60:+41\n\
    each index: 0: store @abc kind=257/0 0:1:60:+41 1:1:60:+41 2:1:60:+41\n\
    appended values: 0: store @abc kind=257/0 end:1:60:+41 end:2:60:+41 end:3:60:+41\n\
    one more: 8: store @abc kind=257/0 end:1:60:+41 end:2:60:+41 end:3:60:+41 end:4:60:+41\n\
    one behind an index: 0: store @abc kind=257/0 1:1:60:+41 end:1:60:+41\n\
    one behind the last index: 8: store @abc kind=257/0 2:1:60:+41 end:1:60:+41\n\
    keys: 0: store @abc kind=258/0 =61:1:60:+41 =62:1:60:+41 =63:1:60:+41\n\
    one more key: 8: store @abc kind=258/0 =61:1:60:+41 =62:1:60:+41 =63:1:60:+41 =64:1:60:+41";

/// Stores one after the other. A slot stays one when its value is taken away or expires.
const COUNTS_IN_TURN: &str = "\
    two keys: 0: store @abc kind=258/0 =61:1:1:+41 =62:1:1:+41\n\
    a key without a value: 0: store @abc kind=258/0 =63:1:1:-\n\
    one more key: 8: store @abc kind=258/0 =64:1:60:+41\n\
    once all are expired: 8 after=1000: store @abc kind=258/0 =64:1:60:+41\n\
    a key that was there: 0: store @abc kind=258/0 =61:2:60:+41\n\
    two indices: 0: store @abc kind=257/0 end:1:1:+41 end:2:1:+41\n\
    one behind expired ones: 0 after=1000: store @abc kind=257/0 end:3:1:-\n\
    one more: 8: store @abc kind=257/0 end:4:60:+41\n\
    an index that was there: 0: store @abc kind=257/0 0:2:60:+41";

/// Indices where as many slots as a kind may have, 1,024, are permitted.
const INDICES: &str = "\
    the last index: 0: store @abc kind=257/0 1023:1:60:+41\n\
    one behind it: 8: store @abc kind=257/0 end:1:60:+41\n\
    the next index: 8: store @abc kind=257/0 1024:1:60:+41\n\
    the first index: 0: store @abc kind=257/0 0:1:60:+41";

#[test]
fn as_many_slots_as_may_be(rt: HostRuntime) -> Result<(), Fail> {
    let many = first_unmet_alone(rt.alloc(), &few_slots(), "", COUNTS)?;
    let mut few = Owner::new(rt.alloc(), &few_slots())?;
    let growing = few.first_unmet(rt.alloc(), COUNTS_IN_TURN)?;
    let mut wide = Owner::new(rt.alloc(), &widest())?;
    let last = wide.first_unmet(rt.alloc(), INDICES)?;
    assert_eq!(rt; (many, growing, last), (None, None, None));
    Ok(())
}
