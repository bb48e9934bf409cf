//! What is answered.

use data_models::StoreKind;
use reload_base::List;

/// The answer to a request, as a decision gives it and as its asker has it.
#[derive(Debug, Drop)]
pub enum Answer {
    /// An error code (RFC 6940, section 6.3.3.1), or 0 where a Store was accepted, with Kind-IDs and
    /// generation counters.
    Decided {
        code: u16,
        counters: List<(u32, u64)>,
    },
    /// The values of a Fetch, in the order of the request.
    Found {
        kinds: List<StoreKind>,
    },
    /// A joiner is admitted.
    Joined,
}
