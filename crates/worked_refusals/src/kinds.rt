//! The kinds of these tests, and what stands there before each request.

use access_policy::Policy;
use data_models::{DataModel, KindDef};

fn kind(id: u32, model: DataModel, policy: Policy, count: u32, size: u32) -> KindDef {
    KindDef {
        id,
        model,
        policy,
        max_count: count,
        max_size: size,
        multiple: 0,
    }
}

/// A kind of each model for a user, of few and short values; one of each other policy; and one of
/// values that weigh more than a record may.
pub fn kinds() -> [KindDef; 7] {
    [
        kind(256, DataModel::Single, Policy::UserMatch, 1, 2),
        kind(257, DataModel::Array, Policy::UserMatch, 4, 2),
        kind(258, DataModel::Dictionary, Policy::UserMatch, 2, 2),
        kind(1, DataModel::Dictionary, Policy::UserNodeMatch, 2, 2),
        kind(259, DataModel::Single, Policy::NodeMatch, 1, 2),
        KindDef {
            id: 260,
            model: DataModel::Single,
            policy: Policy::NodeMultiple,
            max_count: 1,
            max_size: 2,
            multiple: 2,
        },
        kind(261, DataModel::Array, Policy::UserMatch, 2, 140_000),
    ]
}

/// A first Store, which is accepted: values of each model, at a storage time of 10.
pub const FIRST: &str = "the first: 0: store @abc kind=256/0 -:10:60:+41 \
    kind=257/0 0:10:60:+41 end:10:60:+42 kind=258/0 =61:10:60:+41";
