//! Messages made, signed and read: a header, contents and a security block (RFC 6940, section 6.3).
#![tactic(auto)]

mod laws;
mod making;
mod message;
mod reading;
mod signed;

pub use laws::{one_message, what_is_made_is_read_as_its_makers};
pub use making::{header_len, make_message};
pub use message::{Behind, Message};
pub use reading::{read_contents, read_message};
