//! Certificates, signatures and who made them: the security block that ends each message (RFC 6940,
//! section 6.3.4).
#![tactic(auto)]

mod about;
mod block;
mod certificate;
mod known;
mod signer;
mod stand_in;

pub use about::{About, MAX_USER};
pub use block::{SecurityBlock, decode_block, encode_block};
pub use certificate::Certificate;
pub use signer::{SIGNING, Signer, signer_of, verifies_as_own};
pub use stand_in::StandIn;
