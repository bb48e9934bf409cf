//! Reading the header of a whole message.

ghost use Rattle.std.specs.Prelude.{◌≡◌, ◌≤◌, ◌++◌, List, ℕ, [], length, IfOk, Ok, Err};
ghost use Rattle.wire_core.specs.declared.bad.Bad.{Bad};
ghost use Rattle.wire_core.specs.declared.bad.DecodeFault.TheVariants as faults;
ghost use Rattle.wire_core.specs.Layout.{IsLayout};
ghost use Rattle.wire_core.specs.Reading.{Gives};
ghost use Rattle.forwarding_header.specs.Destinations.{destination, destination_at, IsSpelledDestination, IsDestinationInRange};
ghost use Rattle.forwarding_header.specs.Options.{option, option_at, IsSpelledOption, IsOptionInRange};
ghost use Rattle.forwarding_header.specs.Header.{header, message_at, IsMessage};

use crate::header::{Header, take_header};
use std::alloc::Global;
use wire_core::{Cursor, DecodeFault};

#[tactic(auto, unfolding(crate::specs::Header::message_at))]
fn decode(alloc: Global, message: &[u8]) -> Result<(Header, usize), DecodeFault>
    ensures { Gives result (message_at message.now) }
{
    let mut from = Cursor::new(message, 0);
    let end = from.end();
    let header = take_header(alloc, &mut from, end)?;
    Ok((header, from.place() as usize))
}

/// The header of one whole message, and the place of the contents behind it.
pub fn decode_header(alloc: Global, message: &[u8]) -> Result<(Header, usize), DecodeFault>
    // What is read is the message's header.
    ensures found { IfOk result (λ x. IsMessage x.0 message.now × (x.1 ≡ length (header x.0))) }
    // The header of a message is read, unless memory runs out.
    ensures only { (h : Header) → IsMessage h message.now
        → Gives result (Ok (h, length (header h))) }
    // Which fault it is.
    ensures exact { Gives result (message_at message.now) }
    // A fault lies in the message, or at its end.
    ensures within { (bad : Bad) → result ≡ Err (faults.Bad bad) → bad.place ≤ length message.now }
{
    decode(alloc, message)
}

/// No message is a front of another, and each message has one header.
pub fn one_form()
    ensures { (g h : Header) (x y z : List ℕ) →
        IsMessage g x → IsMessage h y → x ++ z ≡ y → (z ≡ []) × (g ≡ h) }
{}

/// Destinations and options are read as they are spelled, and nothing else is.
pub fn entries_are_layouts()
    ensures destinations { IsLayout (λ d. IsSpelledDestination d × IsDestinationInRange d)
        destination destination_at }
    ensures options { IsLayout (λ o. IsSpelledOption o × IsOptionInRange o) option option_at }
{}
