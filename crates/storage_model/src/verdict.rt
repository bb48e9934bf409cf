//! What is decided.

use crate::refusal::Refusal;
use data_models::StoreKind;
use reload_base::List;

/// The answer to a Store.
#[derive(Debug, Drop)]
pub struct StoreVerdict {
    /// The error code (RFC 6940, section 6.3.3.1), or 0 where the Store was accepted.
    pub code: u16,
    /// Kind-IDs with their generation counters, in the order of the request: at code 0 the new
    /// ones, at Generation_Counter_Too_Low the stored ones, else none.
    pub counters: List<(u32, u64)>,
    /// Whether the answer was kept from an earlier decision.
    pub repeat: bool,
    /// Whether a value was put.
    pub acted: bool,
}

/// The answer to a Fetch.
#[derive(Debug, Drop)]
pub enum FetchVerdict {
    /// The asked kinds, in the order of the request.
    Values(List<StoreKind>),
    Refused(Refusal),
}
