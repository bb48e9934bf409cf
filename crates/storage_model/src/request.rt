//! Requests as they were read.

use data_models::{Specifier, StoredData};
use reload_base::{Bytes, List};
use security_block::About;

/// A value of a Store.
#[derive(Debug, Drop)]
pub struct Value {
    pub stored: StoredData,
    /// Whom the first certificate of the message is about with which its signature verifies, if one
    /// does.
    pub signer: Option<About>,
    /// The whole length of its StoredData, in bytes.
    pub size: u32,
}

/// The values of a kind of a Store.
#[derive(Debug, Drop)]
pub enum AskedValues {
    /// Those of a kind that the configuration defines.
    Known(List<Value>),
    /// The bytes of the values of a kind that the configuration lacks.
    Raw(Bytes),
}

/// A kind of a Store.
#[derive(Debug, Drop)]
pub struct AskedKind {
    /// The Kind-ID.
    pub kind: u32,
    /// The generation counter that is asked for, or 0 for any.
    pub generation: u64,
    pub values: AskedValues,
}

/// A Store (RFC 6940, section 7.4.1).
#[derive(Debug, Drop)]
pub struct StoreAsked {
    /// Whether it has an unknown critical extension.
    pub strange: bool,
    /// The number of the asker's configuration.
    pub sequence: u16,
    pub kinds: List<AskedKind>,
}

/// A Fetch (RFC 6940, section 7.4.2).
#[derive(Debug, Drop)]
pub struct FetchAsked {
    /// Whether it has an unknown critical extension.
    pub strange: bool,
    /// The number of the asker's configuration.
    pub sequence: u16,
    /// The most bytes of the answer's message contents, or 0 for no limit of the asker's own.
    pub max: u32,
    pub specifiers: List<Specifier>,
}

/// A Join to the resource of the joiner's own Node-ID (RFC 6940, section 6.4.2.1).
#[derive(Clone, Copy, Debug, PartialEq, Eq)]
pub struct JoinAsked {
    /// Whether it has an unknown critical extension.
    pub strange: bool,
    /// The number of the asker's configuration.
    pub sequence: u16,
}

/// What a peer is asked to decide.
#[derive(Debug, Drop)]
pub enum Asked {
    /// A request outside its grammar.
    Bad,
    /// A request whose signature doesn't verify, or isn't one that it needs.
    Unsigned,
    Store(StoreAsked),
    Fetch(FetchAsked),
    Join(JoinAsked),
}
