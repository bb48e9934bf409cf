//! What a client waits to hear.

/// What a request that waits for its answer asks for.
#[derive(Clone, Copy, Debug, PartialEq, Eq)]
pub enum Question {
    Store,
    Fetch,
}
