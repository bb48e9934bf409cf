//! Reading messages.

ghost use Rattle.std.specs.Prelude.{◌≡◌, ◌<◌, ◌^◌, ◌++◌, [], ◌∷◌, length, IfOk, Ok};
ghost use Rattle.wire_core.specs.Part.{part};
ghost use Rattle.wire_core.specs.Reading.{Gives, value_of, whole_of, number_at};
ghost use Rattle.wire_core.specs.Spelling.{number, joined};
ghost use Rattle.message_bodies.specs.Contents.{contents};
ghost use Rattle.message_bodies.specs.Messages.{message_at};
ghost use Rattle.node_messages.specs.declared.message.Message.{Message};
ghost use Rattle.node_messages.specs.Behind.{message_of};
ghost use Rattle.node_messages.specs.Found.{IsFound};
ghost use Rattle.node_messages.specs.Reading.{read, read_coded, read_parts};
ghost use Rattle.node_messages.specs.Taking.{GivesParts};
ghost use Rattle.node_messages.specs.Signed.{words_of, signed, signer_by};

use crate::message::{Behind, Message, message_of};
use crate::signed::signed_front;
use data_models::Config;
use forwarding_header::{Header, decode_header};
use message_bodies::{Contents, decode_contents};
use reload_base::NoMemory;
use security_block::{About, SecurityBlock, Signer, decode_block, signer_of};
use std::alloc::Global;
use wire_core::{Cursor, DecodeFault};

/// What stands behind the header of a message.
#[derive(Drop)]
struct Parts<'a> {
    contents: Contents,
    /// The bytes of the contents, as they stand in the message.
    spelling: &'a [u8],
    block: SecurityBlock,
}

/// Contents, by the models that a configuration gives their kinds, and a security block, which fill
/// these bytes.
#[tactic(auto, unfolding(wire_core::specs::Reading::pair_at))]
fn take_parts<'a>(
    alloc: Global,
    config: &Config,
    behind: &'a [u8],
) -> Result<Parts<'a>, DecodeFault>
    ensures read { GivesParts result (whole_of (message_at config.now) behind.now) }
    ensures spelling { IfOk result (λ p. p.spelling.now ≡ contents p.contents) }
{
    let mut from = Cursor::new(behind, 0);
    let contents = decode_contents(alloc, config, &mut from)?;
    let (spelling, _) = behind.split_at(from.place() as usize);
    let block = decode_block(alloc, &mut from)?;
    from.finish()?;
    Ok(Parts {
        contents,
        spelling,
        block,
    })
}

/// Who signed contents behind a header.
#[tactic(auto, unfolding(crate::specs::Signed::signer_by, crate::specs::Signed::signed))]
fn signer_of_parts<G: Signer>(
    alloc: Global,
    signer: &G,
    header: &Header,
    parts: &Parts<'_>,
) -> Result<Option<About>, NoMemory>
    requires { parts.now.spelling.now ≡ contents parts.now.contents }
    ensures { let words = words_of G.certificate_of G.signature_of G.about_of G.verifies signer.now
        in IfOk result (λ who. who ≡
        signer_by words (signed header.now parts.now.contents) parts.now.block) }
{
    let mut signed = signed_front(alloc, header, parts.spelling.len())?;
    signed.extend(parts.spelling)?;
    let block = &parts.block;
    signer_of(
        alloc,
        signer,
        &block.certificates,
        signed.as_slice(),
        &block.signature,
    )
}

/// What a node with a configuration reads behind a header and its message code, and who signed it
/// (RFC 6940, section 6.3). The code is the first two of the bytes, and the header isn't read again.
pub fn read_contents<G: Signer>(
    alloc: Global,
    config: &Config,
    signer: &G,
    header: &Header,
    code: u16,
    behind: &[u8],
) -> Result<Behind, NoMemory>
    ensures { let words = words_of G.certificate_of G.signature_of G.about_of G.verifies signer.now
        in IfOk result (λ r. message_of header.now code r
        ≡ read_coded config.now words header.now behind.now (Ok code)) }
{
    match take_parts(alloc, config, behind) {
        Ok(parts) => {
            let signer = signer_of_parts(alloc, signer, header, &parts)?;
            let Parts {
                contents,
                block,
                ..
            } = parts;
            Ok(Behind::Whole {
                contents,
                certificates: block.certificates,
                signer,
            })
        }
        Err(DecodeFault::Bad(_)) => Ok(Behind::Bad),
        Err(DecodeFault::NoMemory) => Err(NoMemory),
    }
}

/// The parts of a message behind its header, and who signed it.
fn read_behind<G: Signer>(
    alloc: Global,
    config: &Config,
    signer: &G,
    header: Header,
    behind: &[u8],
) -> Result<Message, NoMemory>
    ensures { let words = words_of G.certificate_of G.signature_of G.about_of G.verifies signer.now
        in IfOk result (λ m. m ≡ read_coded config.now words header behind.now
        (value_of (number_at 2 (part 0 behind.now)))) }
{
    let Ok(code) = Cursor::new(behind, 0).take_u16() else {
        return Ok(Message::Unspelt);
    };
    let read = read_contents(alloc, config, signer, &header, code, behind)?;
    Ok(message_of(header, code, read))
}

/// The same as `read_message`.
#[tactic(auto, unfolding(crate::specs::Reading::read))]
fn read_all<G: Signer>(
    alloc: Global,
    config: &Config,
    signer: &G,
    message: &[u8],
) -> Result<Message, NoMemory>
    ensures { let words = words_of G.certificate_of G.signature_of G.about_of G.verifies signer.now
        in IfOk result (λ m. m ≡ read config.now words message.now) }
{
    match decode_header(alloc, message) {
        Ok((header, place)) => {
            let (_, behind) = message.split_at(place);
            read_behind(alloc, config, signer, header, behind)
        }
        Err(DecodeFault::Bad(_)) => Ok(Message::Unspelt),
        Err(DecodeFault::NoMemory) => Err(NoMemory),
    }
}

/// What a node with a configuration reads of the bytes of a message (RFC 6940, section 6.3).
pub fn read_message<G: Signer>(
    alloc: Global,
    config: &Config,
    signer: &G,
    message: &[u8],
) -> Result<Message, NoMemory>
    // The bytes are what is read.
    ensures found { let words = words_of G.certificate_of G.signature_of G.about_of G.verifies
        signer.now
        in IfOk result (IsFound config.now words message.now) }
    // What the bytes are is read, unless memory runs out.
    ensures only { let words = words_of G.certificate_of G.signature_of G.about_of G.verifies
        signer.now
        in (m : Message) → IsFound config.now words message.now m → IfOk result (λ r. r ≡ m) }
    // Which message it is.
    ensures exact { let words = words_of G.certificate_of G.signature_of G.about_of G.verifies
        signer.now
        in IfOk result (λ m. m ≡ read config.now words message.now) }
{
    read_all(alloc, config, signer, message)
}
