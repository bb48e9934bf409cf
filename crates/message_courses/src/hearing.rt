//! What a node hears.

ghost use Rattle.std.specs.Prelude.{◌≡◌, ◌≤◌, length, IsTrue, IfOk, IfSome};
ghost use Rattle.std.specs.Option.{option_map};
ghost use Rattle.wire_core.specs.Part.{part};
ghost use Rattle.wire_core.specs.Reading.{value_of, number_at};
ghost use Rattle.reload_ids.specs.Ids.{overlay_id};
ghost use Rattle.data_models.specs.declared.config.Config.{Config};
ghost use Rattle.forwarding_header.specs.Destinations.{destinations};
ghost use Rattle.node_model.specs.Heard.{enveloped, envelope_of, is_ours, heard_in, is_answer};
ghost use Rattle.node_model.specs.Heard as models;
ghost use Rattle.message_courses.specs.Seen.{seen};
ghost use Rattle.message_courses.specs.Heard.{IsEnvelopeOf, IsHeardIn};

use forwarding_header::{Header, decode_header};
use message_bodies::code::ERROR;
use node_model::MAX_VIA;
use reload_base::NoMemory;
use std::alloc::Global;
use wire_core::{Cursor, DecodeFault, list_len};

/// A message that a node looks at, with its header read.
#[derive(Debug, Drop)]
pub struct Envelope<'a> {
    pub header: Header,
    /// The message code.
    pub code: u16,
    /// All that is behind the header, the code among it.
    pub behind: &'a [u8],
}

/// What is behind a header, where it begins with a message code.
fn enveloped<'a>(header: Header, behind: &'a [u8]) -> Option<Envelope<'a>>
    ensures { option_map seen result
        ≡ enveloped header behind.now (value_of (number_at 2 (part 0 behind.now))) }
{
    match Cursor::new(behind, 0).take_u16() {
        Ok(code) => Some(Envelope {
            header,
            code,
            behind,
        }),
        Err(_) => None,
    }
}

/// The envelope that a message is, where it has a header and a message code behind it.
#[tactic(auto, unfolding(node_model::specs::Heard::envelope_of))]
fn envelope_of<'a>(alloc: Global, message: &'a [u8]) -> Result<Option<Envelope<'a>>, NoMemory>
    ensures value { IfOk result (λ e. option_map seen e ≡ envelope_of message.now) }
    ensures parts { IfOk result (λ e. IfSome e (λ x. IsEnvelopeOf message.now (seen x))) }
{
    match decode_header(alloc, message) {
        Ok((header, place)) => {
            let (_, behind) = message.split_at(place);
            Ok(enveloped(header, behind))
        }
        Err(DecodeFault::Bad(_)) => Ok(None),
        Err(DecodeFault::NoMemory) => Err(NoMemory),
    }
}

/// The message code of a message, where it has a header and a message code behind it.
pub fn code_in(alloc: Global, message: &[u8]) -> Result<Option<u16>, NoMemory>
    ensures { IfOk result (λ code. code ≡ option_map (λ e. e.code) (envelope_of message.now)) }
{
    match envelope_of(alloc, message)? {
        Some(e) => Ok(Some(e.code)),
        None => Ok(None),
    }
}

/// Whether a message is one of the overlay with this number, and didn't come too long a way.
#[tactic(auto, unfolding(node_model::specs::Heard::is_ours))]
fn is_ours(overlay: u32, e: &Envelope<'_>) -> bool
    ensures value { (config : Config) → overlay ≡ overlay_id config.name
        → result ≡ is_ours config (seen e.now) }
    ensures via { IsTrue result → length (destinations e.now.header.via) ≤ MAX_VIA }
{
    e.header.overlay == overlay && list_len(&e.header.via) <= u64::from(MAX_VIA)
}

/// The message that a node of the overlay with this number looks at further, if it does: it has a
/// header and a message code behind it, is of this overlay, and has a via list of at most `MAX_VIA`
/// bytes.
#[tactic(auto, unfolding(node_model::specs::Heard::heard_in))]
pub fn heard_in<'a>(
    alloc: Global,
    overlay: u32,
    message: &'a [u8],
) -> Result<Option<Envelope<'a>>, NoMemory>
    // Which message it is.
    ensures value { (config : Config) → overlay ≡ overlay_id config.name
        → IfOk result (λ e. option_map seen e ≡ heard_in config message.now) }
    // Its parts are those of the message, and fit.
    ensures parts { IfOk result (λ e. IfSome e (λ x. IsHeardIn message.now (seen x))) }
{
    let Some(envelope) = envelope_of(alloc, message)? else {
        return Ok(None);
    };
    if is_ours(overlay, &envelope) {
        Ok(Some(envelope))
    } else {
        Ok(None)
    }
}

/// Whether a message with this code is an answer.
pub fn is_answer(code: u16) -> bool
    ensures { (e : models.Envelope) → e.code ≡ code → result ≡ is_answer e }
{
    code % 2 == 0 || code == ERROR
}
