//! The forwarding header of a message, read and written (RFC 6940, sections 6.3.2 to 6.3.2.3).
#![tactic(auto)]

mod decode;
mod destination;
mod forwarding_option;
mod header;
mod way_back;

pub use decode::{decode_header, entries_are_layouts, one_form};
pub use destination::{Destination, MAX_OPAQUE};
pub use forwarding_option::{
    DESTINATION_CRITICAL, FORWARD_CRITICAL, ForwardingOption, OTHER_FLAGS, RESPONSE_COPY,
};
pub use header::{Header, MAX_HEADER_LIST, encode_header, fits, put_header};
pub use way_back::reversed;
