//! Answers as texts.

use reload_base::{Bytes, NoMemory};
use std::alloc::Global;
use storage_model::Answer;
use transcript_text::{put_counters, put_found_kinds};

/// The text of an answer: `CODE KIND:GENERATION..`, or `found` and the kinds and values as a
/// transcript tells them.
pub fn text_of(alloc: Global, answer: &Answer) -> Result<Bytes, NoMemory> {
    let mut text = Bytes::new(alloc);
    match answer {
        Answer::Decided { code, counters } => {
            text.extend(format!(in alloc; "{code}")?.as_bytes())?;
            put_counters(&mut text, counters.as_slice())?;
        }
        Answer::Found { kinds } => {
            text.extend(b"found")?;
            put_found_kinds(&mut text, kinds.as_slice())?;
        }
        Answer::Joined => text.extend(b"joined")?,
    }
    Ok(text)
}
