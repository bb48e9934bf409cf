//! The top call.

ghost use Rattle.std.specs.Prelude.{◌≡◌, ◌≤◌, [], length};
ghost use Rattle.node_messages.specs.Signed.{words_of};
ghost use Rattle.overlay_command.specs.Top.{Ends, Completes};
ghost use Rattle.overlay_command.specs.Answers.{AnswersInput, ListsStream, listed};

use crate::form::{Form, form_of};
use crate::run::run_text;
use crate::status::Status;
use crate::tell::{tell, too_long_line, usage_line};
use frame_listing::{Listing, list_stream};
use reload_base::{Air, Bytes, MAX_INPUT, ReadError, Sink, Source, WriteError, read_all};
use security_block::Signer;
use std::alloc::Global;

// The status that the last line of a listing tells.
fn told_by(listing: &Listing) -> Status
    ensures { result ≡ listed listing.now.fault }
{
    match listing.fault {
        None => Status::Done,
        Some(_) => Status::BadBytes,
    }
}

// Lists a stream up to its first fault.
fn show<K: Sink>(alloc: Global, stream: &[u8], sink: &mut K) -> Result<Status, WriteError>
    requires { length stream.now ≤ MAX_INPUT }
    ensures { ListsStream stream.now (K.view sink.old) (K.view sink.new) result }
{
    let listing = list_stream(alloc, stream)?;
    tell(listing.text.as_slice(), told_by(&listing), sink)
}

// Does with an input what its form says.
fn answer<K: Sink, A: Air, G: Signer>(
    alloc: Global,
    form: Form,
    input: Bytes,
    sink: &mut K,
    air: &mut A,
    signer: &G,
) -> Result<Status, WriteError>
    requires short { length input ≤ MAX_INPUT }
    requires empty { (A.view air.old).sent ≡ [] }
    ensures { let words = words_of G.certificate_of G.signature_of G.about_of G.verifies
        signer.now in AnswersInput words form input
        (record { sink = K.view sink.old; air = A.view air.old })
        (record { sink = K.view sink.new; air = A.view air.new }) result }
{
    match form {
        Form::Run => run_text(alloc, false, input, sink, air, signer),
        Form::Trace => run_text(alloc, true, input, sink, air, signer),
        Form::Show => show(alloc, input.as_slice(), sink),
    }
}

/// Runs a command over a source, a sink and an air, which reads the source to its end: `run` runs a
/// scenario and writes its transcript, `trace` writes its frames too, `show` lists a stream of
/// frames.
///
/// The words are those after the program's name. Every line that is written ends with a line feed.
/// The air is empty before; the frames of a run go through it, each node's signed by the signer.
/// A status other than `Done` has its cause and its last line: `Usage` where the words are no
/// command, `TooLong` where more than `MAX_INPUT` bytes were read, `BadLine` where a line is
/// outside the grammar, `BadBytes` where a stream isn't whole frames of whole messages.
/// `LinkFault`, `AirFull` and `NodeFull` stop a run behind the lines of the events before.
pub fn overlay<S: Source, K: Sink, A: Air, G: Signer>(
    alloc: Global,
    words: &Vec<String>,
    source: &mut S,
    sink: &mut K,
    air: &mut A,
    signer: &G,
) -> Status
    requires empty { (A.view air.old).sent ≡ [] }
    // What was read, written and sent; that a fault of the source, the sink or the air is counted
    // exactly where it is answered; that the decisions are those of one map that each Store changes
    // at most once.
    ensures ends { Ends (words_of G.certificate_of G.signature_of G.about_of G.verifies signer.now)
        words.now.items
        (record {
          source = S.view source.old;
          outlets = record { sink = K.view sink.old; air = A.view air.old };
        })
        (record {
          source = S.view source.new;
          outlets = record { sink = K.view sink.new; air = A.view air.new };
        }) result }

    // The text of a scenario is run whole, and a whole stream listed whole, unless the source, the
    // sink, the air, a node or the memory stops it.
    ensures complete { Completes words.now.items (S.view source.old).left result }
{
    let Some(form) = form_of(words.as_slice()) else {
        return Status::of(tell(usage_line(), Status::Usage, sink));
    };
    match read_all(alloc, source, MAX_INPUT) {
        Ok(input) => Status::of(answer(alloc, form, input, sink, air, signer)),
        Err(ReadError::Failed) => Status::ReadFault,
        Err(ReadError::TooLong) => Status::of(tell(too_long_line(), Status::TooLong, sink)),
        Err(ReadError::NoMemory) => Status::NoMemory,
    }
}
