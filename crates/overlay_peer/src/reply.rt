//! Answers that a peer makes.

ghost use Rattle.std.specs.Prelude.{◌≡◌, [], IfOk};
ghost use Rattle.security_block.specs.Signers.{IsNamed};
ghost use Rattle.node_messages.specs.Making.{made};
ghost use Rattle.node_messages.specs.Signed.{words_of};
ghost use Rattle.node_links.specs.Sendings.{posted, post_of, IsSending};

use forwarding_header::Header;
use message_bodies::{Body, Contents};
use node_links::Sending;
use node_messages::make_message;
use reload_base::{List, NoMemory};
use reload_ids::NodeId;
use security_block::{About, Signer};
use std::alloc::Global;

/// The answer to a node with a header and a body. It has no spelling where a part has none, or
/// where it is too long.
pub(crate) fn reply<'a, G: Signer>(
    alloc: Global,
    signer: &G,
    about: &About,
    to: NodeId,
    header: Header,
    body: Body,
) -> Result<Sending<'a>, NoMemory>
    requires { IsNamed about.now }
    ensures exact { let words = words_of G.certificate_of G.signature_of G.about_of G.verifies
        signer.now
        in IfOk result (λ sending. post_of sending ≡ posted to (made words about.now header
        (record { body = body; extensions = [] }))) }
    ensures fits { IfOk result IsSending }
{
    let extensions = List::new(alloc);
    let contents = Contents { body, extensions };
    let message = make_message(alloc, signer, about, header, &contents)?;
    Ok(Sending::Made { to, message })
}
