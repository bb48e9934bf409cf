//! What is read of a message.

ghost use Rattle.std.specs.Prelude.{◌≡◌};
ghost use Rattle.node_messages.specs.Behind.{message_of};

use forwarding_header::Header;
use message_bodies::Contents;
use reload_base::List;
use security_block::{About, Certificate};

/// What a node reads of the bytes of a message (RFC 6940, section 6.3).
#[derive(Debug, Drop)]
pub enum Message {
    /// There is no header in front, or no message code behind it.
    Unspelt,
    /// What is behind the header isn't contents and a security block.
    Bad {
        header: Header,
        /// The first two bytes behind the header.
        code: u16,
    },
    /// Each part is as it should be.
    Whole {
        header: Header,
        contents: Contents,
        certificates: List<Certificate>,
        /// Whom the first certificate is about with which the signature verifies.
        signer: Option<About>,
    },
}

/// What a node reads behind a header and a message code.
#[derive(Debug, Drop)]
pub enum Behind {
    /// It isn't contents and a security block.
    Bad,
    /// Each part is as it should be.
    Whole {
        contents: Contents,
        certificates: List<Certificate>,
        /// Whom the first certificate is about with which the signature verifies.
        signer: Option<About>,
    },
}

/// The message that has a header, a message code and behind them this.
pub(crate) fn message_of(header: Header, code: u16, behind: Behind) -> Message
    ensures { result ≡ message_of header code behind }
{
    match behind {
        Behind::Bad => Message::Bad { header, code },
        Behind::Whole {
            contents,
            certificates,
            signer,
        } => Message::Whole {
            header,
            contents,
            certificates,
            signer,
        },
    }
}
