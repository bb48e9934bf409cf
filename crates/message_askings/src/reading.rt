//! Reading what a request asks for.

ghost use Rattle.std.specs.Prelude.{◌≡◌, IfOk, Ok};
ghost use Rattle.node_messages.specs.Behind.{message_of};
ghost use Rattle.node_messages.specs.Reading.{read_coded};
ghost use Rattle.node_messages.specs.Signed.{words_of};
ghost use Rattle.message_askings.specs.Spelled.{IsSpelledBehind};

use data_models::Config;
use forwarding_header::Header;
use node_messages::{Behind, read_contents};
use reload_base::NoMemory;
use security_block::Signer;
use std::alloc::Global;

/// What a node reads behind a header and its message code, where it asks for something
/// (RFC 6940, section 6.3). The code is the first two of the bytes.
pub fn read_request<G: Signer>(
    alloc: Global,
    config: &Config,
    signer: &G,
    header: &Header,
    code: u16,
    behind: &[u8],
) -> Result<Behind, NoMemory>
    // What is read.
    ensures exact { let words = words_of G.certificate_of G.signature_of G.about_of G.verifies
        signer.now
        in IfOk result (λ r. message_of header.now code r
        ≡ read_coded config.now words header.now behind.now (Ok code)) }
    // What is read as contents is spelled so.
    ensures spelled { IfOk result IsSpelledBehind }
{
    read_contents(alloc, config, signer, header, code, behind)
}
