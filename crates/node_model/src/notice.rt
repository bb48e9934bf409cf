//! What is to be told of a node.

use data_models::StoreKind;
use reload_base::List;
use reload_ids::{NodeId, ResourceId};
use storage_model::{Answer, Asked};

/// The answer that a client took.
#[derive(Debug, Drop)]
pub enum Told {
    /// A Store was accepted, with Kind-IDs and generation counters.
    Stored {
        counters: List<(u32, u64)>,
    },
    /// The values of a Fetch.
    Fetched {
        kinds: List<StoreKind>,
    },
    /// An error's code (RFC 6940, section 6.3.3.1), with the generation counters that it tells.
    Failed {
        code: u16,
        counters: List<(u32, u64)>,
    },
}

/// What is to be told of a node.
#[derive(Debug, Drop)]
pub enum Notice {
    /// A peer decided on a request.
    Decision {
        /// The clock in milliseconds.
        time: u64,
        resource: ResourceId,
        /// Who asks: the signer of the request, or the id 0 where it has none.
        origin: NodeId,
        /// The transaction id.
        id: u64,
        asked: Asked,
        answer: Answer,
        /// Whether a value was put.
        acted: bool,
    },
    /// A client took the answer to its request.
    Answered {
        /// The transaction id.
        id: u64,
        told: Told,
    },
    /// A client's request was sent `MAX_SENDS` times without an answer, and isn't sent any more.
    TimedOut {
        /// The transaction id.
        id: u64,
    },
}
