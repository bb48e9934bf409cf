//! Calls over memory, and texts for them: for tests.
#![tactic(auto)]

use overlay_command::{Status, overlay};
use reload_base::{Air, Bytes, MemoryAir, MemorySink, MemorySource, NoMemory};
use security_block::StandIn;
use std::alloc::Global;

/// The first lines of a scenario, and of its transcript.
pub const DECLARATIONS: &str = "overlay abc\n\
    kind 256 single user-match 1 140000 0\n\
    peer 1 80000000000000000000000000000000 p\n\
    client 2 40000000000000000000000000000000 abc\n";

/// One Store that is delivered three times, and whatever else is sent.
pub const THREE_DELIVERIES: &str = "store 2 1 @abc kind=256/0 -:5000:60:+6869\n\
    deliver 1\n\
    deliver 1\n\
    deliver 1\n\
    drain 20\n";

/// The transcript of three deliveries behind the declarations: the Store acts once, and its client
/// takes one answer.
pub const ACTS_ONCE: &str =
    "decide 1 0 a9993e364706816aba3e25717850c26c store 2 2.1 kind=256/0 -:5000:60:+6869:2:96 \
    -> ok 256:1\n\
    decide 1 0 a9993e364706816aba3e25717850c26c store 2 2.1 kind=256/0 -:5000:60:+6869:2:96 \
    -> ok 256:1\n\
    decide 1 0 a9993e364706816aba3e25717850c26c store 2 2.1 kind=256/0 -:5000:60:+6869:2:96 \
    -> ok 256:1\n\
    answer 2.1 ok 256:1\n\
    end frames=10 bytes=1055 clock=0 settled=yes\n";

/// Texts one behind the other.
pub fn joined(alloc: Global, texts: &[&str]) -> Result<Bytes, NoMemory> {
    let mut whole = Bytes::new(alloc);
    for text in texts {
        whole.extend(text.as_bytes())?;
    }
    Ok(whole)
}

/// The same byte, so often.
pub fn repeated(alloc: Global, byte: u8, count: usize) -> Result<Bytes, NoMemory> {
    Ok(Bytes::from_vec(vec![in alloc; byte; count]?))
}

/// The numbers of the calls that fail.
#[derive(Clone, Copy)]
pub struct Failing<'a> {
    pub reads: &'a [u64],
    pub writes: &'a [u64],
    pub sends: &'a [u64],
}

impl<'a> Failing<'a> {
    /// These reads and writes, and no send.
    pub fn at(reads: &'a [u64], writes: &'a [u64]) -> Failing<'a> {
        Failing {
            reads,
            writes,
            sends: &[],
        }
    }
}

/// What a call came to.
#[derive(Debug, Drop)]
pub struct Outcome {
    pub status: Status,
    pub written: Bytes,
    /// How many frames were sent.
    pub frames: u64,
}

/// A call, where some calls of its outside fail.
pub fn ended(
    alloc: Global,
    words: &[&str],
    content: &[u8],
    failing: &Failing<'_>,
) -> Result<Outcome, NoMemory> {
    let mut owned = Vec::new(alloc);
    for word in words {
        owned.push(String::from_str(alloc, word)?)?;
    }
    let mut source = MemorySource::new(alloc, content, failing.reads)?;
    let mut sink = MemorySink::new(alloc, failing.writes)?;
    let mut air = MemoryAir::new(alloc, failing.sends)?;
    let status = overlay(
        alloc,
        &owned,
        &mut source,
        &mut sink,
        &mut air,
        &StandIn::new(alloc),
    );
    Ok(Outcome {
        status,
        written: Bytes::from_slice(alloc, sink.as_slice())?,
        frames: air.frames(),
    })
}

/// The status and the written text of a call of one word, where none fails.
fn faultless(alloc: Global, word: &str, content: &[u8]) -> Result<(Status, Bytes), NoMemory> {
    let Outcome {
        status,
        written,
        ..
    } = ended(alloc, &[word], content, &Failing::at(&[], &[]))?;
    Ok((status, written))
}

/// The same for `run` over a text.
pub fn run_of(alloc: Global, content: &[u8]) -> Result<(Status, Bytes), NoMemory> {
    faultless(alloc, "run", content)
}

/// The same for `trace` over a text.
pub fn trace_of(alloc: Global, content: &[u8]) -> Result<(Status, Bytes), NoMemory> {
    faultless(alloc, "trace", content)
}

/// The same for `show` over a stream.
pub fn show_of(alloc: Global, stream: &[u8]) -> Result<(Status, Bytes), NoMemory> {
    faultless(alloc, "show", stream)
}
