//! Who asks, and what is answered to whom asks for nothing that is decided.

ghost use Rattle.std.specs.Prelude.{◌≡◌, ℕ, if◌then◌else◌};
ghost use Rattle.forwarding_header.specs.declared.header.Header.{Header};
ghost use Rattle.node_messages.specs.Behind.{message_of};
ghost use Rattle.storage_model.specs.declared.refusal.Refusal.TheVariants.{UnknownExtension, InvalidMessage};
ghost use Rattle.node_model.specs.Askings as askings;
ghost use Rattle.node_model.specs.Replies as replies;

use message_bodies::{Extension, code};
use node_messages::Behind;
use reload_base::List;
use reload_ids::NodeId;
use storage_model::Refusal;

/// Whether a request with this code is decided by the owner of its resource.
pub fn is_decided(code: u16) -> bool
    ensures { result ≡ askings.is_decided code }
{
    code == code::STORE || code == code::FETCH || code == code::JOIN
}

/// Whether contents have a critical extension.
#[tactic(auto, unfolding(node_model::specs::Askings::has_critical))]
pub(crate) fn has_critical(extensions: &List<Extension>) -> bool
    ensures { result ≡ askings.has_critical extensions.now }
{
    extensions.as_slice().iter().any(|e| e.critical)
}

/// Who asks: the signer, or the id 0 where there is none.
pub fn origin_of(behind: &Behind) -> NodeId
    ensures { (h : Header) (code : ℕ)
        → result ≡ askings.origin_of (message_of h code behind.now) }
{
    match behind {
        Behind::Whole {
            signer: Some(who),
            ..
        } => who.node,
        _ => NodeId(0),
    }
}

/// Why a request to the peer itself, or one that no owner decides, is refused (this profile).
pub fn refusal_of(behind: &Behind) -> Refusal
    ensures { (h : Header) (code : ℕ)
        → result ≡ replies.refusal_of (message_of h code behind.now) }
{
    match behind {
        Behind::Bad => Refusal::InvalidMessage,
        Behind::Whole { signer: None, .. } => Refusal::Forbidden,
        Behind::Whole { contents, .. } => cause_by(has_critical(&contents.extensions)),
    }
}

fn cause_by(strange: bool) -> Refusal
    ensures { result ≡ (if strange then UnknownExtension else InvalidMessage) }
{
    if strange {
        Refusal::UnknownExtension
    } else {
        Refusal::InvalidMessage
    }
}
