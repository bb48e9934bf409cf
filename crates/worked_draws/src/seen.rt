//! What is to be seen among the answers.

use crate::requests::{Request, kind_at};
use reload_base::{Bytes, NoMemory};
use std::alloc::Global;

/// What stands in the lines of answers, each behind the kind that its request names first: values of
/// each kind that are put and found, and some that each policy refuses; each other error code; and a
/// gap, a value that says that there is none, and others with a second and more left.
const SEEN: [&str; 34] = [
    "256 0 256:",
    "257 0 257:",
    "258 0 258:",
    "259 0 259:",
    "260 0 260:",
    "261 0 261:",
    "262 0 262:",
    "263 0 263:",
    "256 found ",
    "257 found ",
    "258 found ",
    "259 found ",
    "260 found ",
    "261 found ",
    "262 found ",
    "263 found ",
    "256 2\n",
    "261 2\n",
    "262 2\n",
    "263 2\n",
    "spoilt 2\n",
    " 5 ",
    " 8\n",
    " 9\n",
    " 12\n",
    " 13\n",
    " 14\n",
    " 15\n",
    " 16\n",
    " 20\n",
    ":0:0:-",
    ":2:-",
    ":1:+61",
    ":4:+61",
];

/// How many bytes of an answer stand in its line.
const LINE: usize = 80;

/// Adds the line of an answer.
pub fn put_line(
    alloc: Global,
    request: &Request,
    answer: &str,
    lines: &mut Bytes,
) -> Result<(), NoMemory> {
    let id = kind_at(request.first_kind()).id;
    let sign = if request.spoilt { "spoilt " } else { "" };
    lines.extend(format!(in alloc; "{id} {sign}")?.as_bytes())?;
    let answer = answer.as_bytes();
    lines.extend(answer.split_at(answer.len().min(LINE)).0)?;
    lines.extend(b"\n")
}

/// How often a part stands in a text.
pub fn times(text: &[u8], part: &[u8]) -> usize {
    if part.is_empty() {
        return 0;
    }
    text.windows(part.len())
        .filter(|window| *window == part)
        .count()
}

/// The first of what is to be seen that doesn't stand more than 20 times in the lines.
pub fn first_rare(lines: &[u8]) -> Option<&'static str> {
    SEEN.into_iter()
        .find(|part| times(lines, part.as_bytes()) <= 20)
}
