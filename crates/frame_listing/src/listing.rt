//! The listing of a stream.

ghost use Rattle.std.specs.Prelude.{◌≡◌, ◌<◌, ◌^◌, ◌↔◌, ◌++◌, length, Some, None, IfOk};
ghost use Rattle.text_words.specs.Lines.{ended};
ghost use Rattle.frame_listing.specs.Lines.{fault_line};
ghost use Rattle.frame_listing.specs.Listing.{IsWhole, IsListing};

use crate::front::put_front;
use crate::lines::{put_end_line, put_fault_line};
use crate::message::no_kinds;
use reload_base::{Bytes, NoMemory};
use std::alloc::Global;
use wire_core::{Bad, DecodeFault};

/// What is listed of a stream.
#[derive(Debug, Drop)]
pub struct Listing {
    /// Lines, each ended by a line feed.
    pub text: Bytes,
    /// Why the stream isn't whole frames of whole messages, as the last line tells it.
    pub fault: Option<Bad>,
}

/// Lists the frames of a whole stream, and the parts of each message, up to the first fault. All
/// kinds are unknown: their values may be any bytes.
pub fn list_stream(alloc: Global, stream: &[u8]) -> Result<Listing, NoMemory>
    requires { length stream.now < 2 ^ 63 }
    // What is listed, and the first fault, if there is one.
    ensures listing { IfOk result (λ listing. IsListing stream.now listing.text listing.fault) }
    // There is none exactly where the stream is whole frames of whole messages.
    ensures whole { IfOk result (λ listing. (listing.fault ≡ None) ↔ IsWhole stream.now) }
{
    list(alloc, stream)
}

// The same, frame by frame.
fn list(alloc: Global, stream: &[u8]) -> Result<Listing, NoMemory>
    requires { length stream.now < 2 ^ 63 }
    ensures { IfOk result (λ listing. IsListing stream.now listing.text listing.fault) }
{
    let config = no_kinds(alloc)?;
    let mut text = Bytes::new(alloc);
    text.reserve(stream.len())?;
    let mut rest = stream;
    let mut frames = 0u64;
    'frames: while !rest.is_empty() {
        let place = (stream.len() - rest.len()) as u64;
        match put_front(alloc, &config, &mut text, rest, place) {
            Ok(len) => rest = rest.split_at(len).1,
            Err(DecodeFault::Bad(fault)) => return ended_by(text, fault),
            Err(DecodeFault::NoMemory) => return Err(NoMemory),
        }
        frames += 1;
    }
    put_end_line(&mut text, frames, stream.len() as u64)?;
    Ok(Listing { text, fault: None })
}

// The listing whose last line tells a fault.
fn ended_by(mut text: Bytes, fault: Bad) -> Result<Listing, NoMemory>
    ensures { IfOk result (λ listing. (listing.text ≡ text ++ ended (fault_line fault))
        × (listing.fault ≡ Some fault)) }
{
    put_fault_line(&mut text, fault)?;
    Ok(Listing {
        text,
        fault: Some(fault),
    })
}
