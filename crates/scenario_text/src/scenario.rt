//! A scenario: what is declared, and what happens.

use data_models::Config;
use reload_base::{Bytes, List};
use request_words::{DeclaredNode, GroupWords, ResourceName, SpecifierWord};
use sqlite_items::Boxed;

/// The most nodes that a scenario declares (this profile).
pub const MAX_NODES: usize = 256;

/// The most peers among them (this profile).
pub const MAX_PEERS: usize = 64;

/// The number of the configuration with which a scenario begins.
pub const FIRST_SEQUENCE: u16 = 1;

/// How many successors hold a copy of each record, where no line says it.
pub const REPLICAS: u8 = 0;

/// A scenario.
#[derive(Debug, Drop)]
pub struct Scenario {
    pub config: Config,
    /// The lines that declare it, as they stand in its text and without their line feeds.
    pub declarations: List<Bytes>,
    /// The declared nodes, in their order.
    pub nodes: List<DeclaredNode>,
    pub events: List<Event>,
}

/// An event, and the number of its line, counted from 1.
#[derive(Debug, Drop)]
pub struct Event {
    pub line: u64,
    pub what: EventKind,
}

/// What happens. Requests lie in memory of their own, so that an event takes the memory of its own
/// words.
#[derive(Debug, Drop)]
pub enum EventKind {
    /// The clock moves on by so many milliseconds, 1 to 1,000,000,000.
    Clock(u64),
    /// The frame of this number is heard, counted from 1.
    Deliver(u64),
    /// The frame of this number is lost, where it wasn't heard yet.
    Lose(u64),
    /// So many times, 1 to 1,000,000, the lowest frame that was neither heard nor lost is heard.
    Drain(u64),
    /// A client asks a peer to store values.
    Store(Boxed<StoreEvent>),
    /// A client asks a peer for values.
    Fetch(Boxed<FetchEvent>),
}

/// A client's request to a peer to store values.
#[derive(Debug, Drop)]
pub struct StoreEvent {
    /// The number of the client.
    pub client: u32,
    /// The number of the peer.
    pub peer: u32,
    pub resource: ResourceName,
    /// How many hops the request may go, where the line says it.
    pub ttl: Option<u8>,
    /// The number of the configuration that it says to have, where the line says one.
    pub seq: Option<u16>,
    /// At least one.
    pub groups: List<GroupWords>,
}

/// A client's request to a peer for values.
#[derive(Debug, Drop)]
pub struct FetchEvent {
    /// The number of the client.
    pub client: u32,
    /// The number of the peer.
    pub peer: u32,
    pub resource: ResourceName,
    /// How many hops the request may go, where the line says it.
    pub ttl: Option<u8>,
    /// The number of the configuration that it says to have, where the line says one.
    pub seq: Option<u16>,
    /// The most bytes of the answer's message contents, where the line says it.
    pub max: Option<u32>,
    /// At least one.
    pub specifiers: List<SpecifierWord>,
}
