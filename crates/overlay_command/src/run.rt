//! The run of a text.

ghost use Rattle.std.specs.Prelude.{◌≡◌, ◌≤◌, [], length, if◌then◌else◌};
ghost use Rattle.reload_base.specs.declared.reading.TheConstants.{MAX_INPUT};
ghost use Rattle.node_messages.specs.Signed.{words_of};
ghost use Rattle.overlay_command.specs.Answers.{AnswersInput};

use crate::form::Form;
use crate::status::Status;
use crate::tell::{tell_bad_line, tell_fault};
use reload_base::{Air, Bytes, MAX_INPUT, Sink, WriteError};
use scenario_run::run_scenario;
use scenario_text::{TextFault, read_scenario};
use security_block::Signer;
use std::alloc::Global;

/// Runs the scenario of a text, with its frames if they are traced, or tells its first bad line.
/// The memory of the text is given back before the run.
pub fn run_text<K: Sink, A: Air, G: Signer>(
    alloc: Global,
    traced: bool,
    text: Bytes,
    sink: &mut K,
    air: &mut A,
    signer: &G,
) -> Result<Status, WriteError>
    requires short { length text ≤ MAX_INPUT }
    requires empty { (A.view air.old).sent ≡ [] }
    ensures { let words = words_of G.certificate_of G.signature_of G.about_of G.verifies
        signer.now in AnswersInput words (if traced then Form.Trace else Form.Run) text
        (record { sink = K.view sink.old; air = A.view air.old })
        (record { sink = K.view sink.new; air = A.view air.new }) result }
{
    match read_scenario(alloc, text.as_slice()) {
        Ok(scenario) => {
            drop(text);
            match run_scenario(alloc, &scenario, traced, sink, air, signer) {
                Ok(()) => Ok(Status::Done),
                Err(fault) => tell_fault(alloc, fault, sink),
            }
        }
        Err(TextFault::BadLine(n)) => tell_bad_line(alloc, n, sink),
        Err(TextFault::NoMemory) => Err(WriteError::NoMemory),
    }
}
