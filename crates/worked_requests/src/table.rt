//! Tables of requests and of the codes that are answered to them, as texts. A row is a line
//! `NAME: CODE MARK..: REQUEST`, where the code 0 stands for an answer that is no error, and `none`
//! for a request that has no spelling.

use crate::owner::Owner;
use crate::plan::{Mark, mark_of};
use data_models::KindDef;
use reload_base::NoMemory;
use std::alloc::Global;
use text_words::{behind, decimal_of, upto};

/// What a row says beside its request.
#[derive(Drop)]
struct Expected {
    /// The milliseconds that pass before it.
    ms: u32,
    code: Option<u16>,
    marks: Vec<Mark>,
}

/// The milliseconds of `after=N`.
fn after(word: &[u8]) -> Option<u32> {
    let ms = decimal_of(u64::from(u32::MAX), behind(b"after=", word)?)?;
    Some(ms as u32)
}

fn code_of(word: &[u8]) -> Option<u16> {
    let code = decimal_of(u64::from(u16::MAX), word)?;
    Some(code as u16)
}

impl Expected {
    /// Takes a word; false where it says nothing. An empty one stands behind each colon.
    fn take(&mut self, word: &[u8]) -> Result<bool, NoMemory> {
        if word.is_empty() || word == b"none".as_slice() {
            return Ok(true);
        }
        if let Some(code) = code_of(word) {
            self.code = Some(code);
            return Ok(true);
        }
        if let Some(ms) = after(word) {
            self.ms = ms;
            return Ok(true);
        }
        if let Some(mark) = mark_of(word) {
            self.marks.push(mark)?;
            return Ok(true);
        }
        Ok(false)
    }
}

fn expected_of(alloc: Global, words: &[u8]) -> Result<Option<Expected>, NoMemory> {
    let mut expected = Expected {
        ms: 0,
        code: None,
        marks: Vec::new(alloc),
    };
    for word in words.split(|byte| *byte == b' ') {
        if !expected.take(word)? {
            return Ok(None);
        }
    }
    Ok(Some(expected))
}

/// The words behind a row's name, and its request.
fn parts_of(row: &[u8]) -> Option<(&[u8], &[u8])> {
    let (_, rest) = upto(b':', row)?;
    let (words, request) = upto(b':', rest)?;
    Some((words, behind(b" ", request)?))
}

impl Owner {
    /// Whether a row's request is answered as the row says. An empty row says nothing.
    fn meets(&mut self, alloc: Global, row: &[u8]) -> Result<bool, NoMemory> {
        if row.is_empty() {
            return Ok(true);
        }
        let Some((words, request)) = parts_of(row) else {
            return Ok(false);
        };
        let Some(expected) = expected_of(alloc, words)? else {
            return Ok(false);
        };
        self.wait(expected.ms);
        let code = self.answer_line(alloc, expected.marks.as_slice(), request)?;
        Ok(code == expected.code)
    }

    /// The number of the first row of a table, counted from 1, whose request is answered otherwise
    /// than the row says, as they are asked one after the other.
    pub fn first_unmet(&mut self, alloc: Global, table: &str) -> Result<Option<usize>, NoMemory> {
        let mut number = 0_usize;
        for row in table.as_bytes().split(|byte| *byte == b'\n') {
            number = number.wrapping_add(1);
            if !self.meets(alloc, row)? {
                return Ok(Some(number));
            }
        }
        Ok(None)
    }
}

/// The same, where each row is asked of an owner of its own, which was asked a first row.
pub fn first_unmet_alone(
    alloc: Global,
    kinds: &[KindDef],
    first: &str,
    table: &str,
) -> Result<Option<usize>, NoMemory> {
    let mut number = 0_usize;
    for row in table.as_bytes().split(|byte| *byte == b'\n') {
        number = number.wrapping_add(1);
        let mut owner = Owner::new(alloc, kinds)?;
        if !owner.meets(alloc, first.as_bytes())? || !owner.meets(alloc, row)? {
            return Ok(Some(number));
        }
    }
    Ok(None)
}
