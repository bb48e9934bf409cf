//! What is drawn: kinds, resources and requests.

use access_policy::Policy;
use data_models::{DataModel, KindDef};
use worked_requests::Asker;

/// How many kinds there are for a user's own resource: they come first.
pub const USER_KINDS: usize = 6;

/// Kinds of each policy, and of each model. A record may not weigh as much as two values of some.
pub fn kinds() -> [KindDef; 8] {
    [
        user_kind(256, DataModel::Single, 1, 40),
        user_kind(257, DataModel::Array, 4, 20),
        user_kind(258, DataModel::Dictionary, 5, 140_000),
        user_kind(259, DataModel::Single, 1, 140_000),
        user_kind(260, DataModel::Array, 8, 140_000),
        KindDef {
            policy: Policy::UserNodeMatch,
            ..user_kind(261, DataModel::Dictionary, 16, 20)
        },
        KindDef {
            policy: Policy::NodeMatch,
            ..user_kind(262, DataModel::Array, 1024, 20)
        },
        KindDef {
            policy: Policy::NodeMultiple,
            multiple: 2,
            ..user_kind(263, DataModel::Single, 1, 40)
        },
    ]
}

fn user_kind(id: u32, model: DataModel, max_count: u32, max_size: u32) -> KindDef {
    KindDef {
        id,
        model,
        policy: Policy::UserMatch,
        max_count,
        max_size,
        multiple: 0,
    }
}

/// The place of a kind that no configuration has, and its Kind-ID.
pub const UNKNOWN: usize = 8;

/// The Kind-ID of the kind that no configuration has.
pub const UNKNOWN_ID: u32 = 9;

/// The kind at a place of the list, and another one at the place behind it.
pub fn kind_at(place: usize) -> KindDef {
    let other = user_kind(UNKNOWN_ID, DataModel::Single, 0, 0);
    kinds().get(place).copied().unwrap_or(other)
}

/// What hashes to a resource.
#[derive(Clone, Copy)]
pub enum Hashed {
    /// The name of a user.
    User(&'static str),
    /// The Node-ID of the first client.
    Node,
    /// That with a number behind it.
    NumberedNode(u32),
}

/// The resources: those of two users, one of nobody, and those of a node, by SHA-1.
pub const RESOURCES: [(&str, Hashed); 7] = [
    ("@abc", Hashed::User("abc")),
    ("@test", Hashed::User("test")),
    ("@nobody", Hashed::User("nobody")),
    ("c5297f1ddea8a76b04b5b395de1162b4", Hashed::Node),
    ("5691f0c999ae91914ecafb9eca2f44bf", Hashed::NumberedNode(1)),
    ("93d43dec8aa14177b8f1637589dff290", Hashed::NumberedNode(2)),
    ("1a2fef92b6863d8f85f8be1147d5dc61", Hashed::NumberedNode(3)),
];

/// The keys of a dictionary, as digits, in the order of their bytes.
pub const KEYS: [&str; 9] = [
    "",
    "30000000000000000000000000000000",
    "40000000000000000000000000000000",
    "50000000000000000000000000000000",
    "61",
    "6162",
    "616263646566",
    "62",
    "80000000000000000000000000000000",
];

/// The place of the key that is an asker's Node-ID.
pub fn own_key(asker: Asker) -> usize {
    match asker {
        Asker::Test => 1,
        Asker::Abc => 2,
        Asker::SecondAbc => 3,
        Asker::Peer => 8,
    }
}

/// The digits of the key at a place of the list.
pub fn key_digits(place: usize) -> &'static str {
    KEYS.get(place).copied().unwrap_or("")
}

/// A value of a Store, of so many bytes, each an `a`, or none where it says that there is no value.
/// An appended one has no key; a single one has the key 0, and one of a dictionary the place of its
/// key.
#[derive(Clone, Copy)]
pub struct Value {
    pub key: Option<usize>,
    pub time: u64,
    pub lifetime: u64,
    pub length: Option<usize>,
}

/// The values of a kind.
#[derive(Drop)]
pub struct Group {
    pub kind: usize,
    pub generation: u64,
    pub values: Vec<Value>,
}

/// Which values of a kind are fetched.
#[derive(Drop)]
pub enum Keys {
    Whole,
    Ranges(Vec<(usize, usize)>),
    /// All of them, where there is none.
    Names(Vec<usize>),
}

/// A kind of a Fetch.
#[derive(Drop)]
pub struct Specifier {
    pub kind: usize,
    pub generation: u64,
    pub keys: Keys,
}

/// What is asked.
#[derive(Drop)]
pub enum Body {
    Store(Vec<Group>),
    Fetch {
        max: u32,
        specifiers: Vec<Specifier>,
    },
}

/// The configuration that a request names.
#[derive(Clone, Copy, PartialEq, Eq)]
pub enum Named {
    Older,
    Same,
    Newer,
}

/// A request.
#[derive(Drop)]
pub struct Request {
    pub asker: Asker,
    pub resource: usize,
    pub transaction: u64,
    pub named: Named,
    pub critical: bool,
    pub spoilt: bool,
    pub misplaced: bool,
    pub body: Body,
}

impl Request {
    /// The place of the kind that it names first.
    pub fn first_kind(&self) -> usize {
        match &self.body {
            Body::Store(groups) => groups.first().map_or(UNKNOWN, |group| group.kind),
            Body::Fetch { specifiers, .. } => {
                specifiers
                    .first()
                    .map_or(UNKNOWN, |specifier| specifier.kind)
            }
        }
    }
}
