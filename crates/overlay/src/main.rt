//! The program: the words of its call, standard input and standard output, an air in memory and the
//! stand-in signer, handed to the top call.
#![tactic(auto)]

use overlay_command::{Status, overlay};
use reload_base::{MemoryAir, StdSink, StdSource};
use security_block::StandIn;
use std::alloc::AllocError;
use std::env::{Env, FillError};
use std::process::ExitCode;
use std::str;

// No form of a call has a word of more bytes.
const MAX_WORD: usize = 64;

// A word of the call: number 0 is the program's own name. It is handed over whole: one that is
// longer, or isn't text, stands as the empty word, which no form of a call has either.
fn word<R: Env + AllocGlobal>(rt: &R, index: usize) -> Result<Option<String>, AllocError> {
    let mut room = [0; MAX_WORD];
    let length = match rt.arg(index, &mut room) {
        Ok(length) => length,
        Err(FillError::TooLong) => 0,
        Err(FillError::NotPresent) => return Ok(None),
    };
    let text = str::from_utf8(&room[..length]).unwrap_or("");
    Ok(Some(String::from_str(rt.alloc(), text)?))
}

// The words after the program's own name.
fn words<R: Env + AllocGlobal>(rt: &R) -> Result<Vec<String>, AllocError> {
    let mut words = Vec::new(rt.alloc());
    for index in 1..usize::MAX {
        match word(rt, index)? {
            Some(word) => words.push(word)?,
            None => break,
        }
    }
    Ok(words)
}

fn main(rt: HostRuntime) -> ExitCode {
    let status = match (words(&rt), MemoryAir::new(rt.alloc(), &[])) {
        (Ok(words), Ok(mut air)) => overlay(
            rt.alloc(),
            &words,
            &mut StdSource::new(rt.stdin()),
            &mut StdSink::new(rt.stdout()),
            &mut air,
            &StandIn::new(rt.alloc()),
        ),
        _ => Status::NoMemory,
    };
    ExitCode::from(status.code())
}
