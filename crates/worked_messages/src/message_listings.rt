//! What is listed of a message that was changed.

use crate::messages::{CONTENTS, number_at, set_number};
use overlay_command::Status;
use reload_base::{Bytes, NoMemory};
use std::alloc::Global;
use std::process::Abort;
use std::test::Fail;
use worked_calls::show_of;

/// What of a message is read and listed: its frame alone, its header, contents with so many
/// extensions, and a security block with so many certificates and a signature of so many bytes.
#[derive(Clone, Copy)]
pub enum Read {
    Frame,
    Header,
    Contents(usize),
    Block(usize, usize, usize),
}

/// What is found behind that: nothing wrong, or a fault at a place of the message.
#[derive(Clone, Copy)]
pub enum Found {
    Whole,
    Short(usize),
    LengthPast(usize),
    BadValue(usize),
    Trailing(usize),
}

impl Found {
    /// The same, where places were counted from another one of the message.
    pub fn from(self, origin: usize) -> Found {
        match self {
            Found::Whole => Found::Whole,
            Found::Short(place) => Found::Short(place.wrapping_add(origin)),
            Found::LengthPast(place) => Found::LengthPast(place.wrapping_add(origin)),
            Found::BadValue(place) => Found::BadValue(place.wrapping_add(origin)),
            Found::Trailing(place) => Found::Trailing(place.wrapping_add(origin)),
        }
    }
}

/// A stream of one payload with this message, which begins at 8.
pub fn framed(alloc: Global, message: &[u8]) -> Result<Vec<u8>, NoMemory> {
    let mut stream = Vec::from_array(alloc, [0x80, 0, 0, 0, 1, 0, 0, 0])?;
    set_number(&mut stream, 5, 3, message.len());
    stream.extend_from_slice(message)?;
    Ok(stream)
}

// Appends the lines of contents and of a security block, as far as they were read.
fn put_further_lines(
    alloc: Global,
    out: &mut Bytes,
    message: &[u8],
    read: Read,
) -> Result<(), NoMemory> {
    let (extensions, block) = match read {
        Read::Frame | Read::Header => return Ok(()),
        Read::Contents(extensions) => (extensions, None),
        Read::Block(extensions, certificates, value) => (extensions, Some((certificates, value))),
    };
    let (code, body) = (
        number_at(message, CONTENTS, 2),
        number_at(message, CONTENTS + 2, 4),
    );
    out.extend(format!(in alloc;
        "contents code={code} body={body} extensions={extensions}\n"
    )?.as_bytes())?;
    if let Some((certificates, value)) = block {
        out.extend(format!(in alloc;
            "security certificates={certificates} identity=1 value={value}\n"
        )?.as_bytes())?;
    }
    Ok(())
}

// The lines of the parts that were read.
fn lines_of(alloc: Global, message: &[u8], read: Read) -> Result<Bytes, NoMemory> {
    let mut lines = Bytes::new(alloc);
    let len = message.len();
    lines.extend(format!(in alloc; "frame 0 payload 1 {len}\n")?.as_bytes())?;
    if !matches!(read, Read::Frame) {
        let line = format!(in alloc;
            "message overlay=9cd0d89d seq=1 ttl=100 length={len} id=2.1 max=4096 \
            via=2 dest=2 options=1\n"
        )?;
        lines.extend(line.as_bytes())?;
    }
    put_further_lines(alloc, &mut lines, message, read)?;
    Ok(lines)
}

// Appends the last line of the listing of a message of so many bytes.
fn put_last_line(alloc: Global, out: &mut Bytes, len: usize, found: Found) -> Result<(), NoMemory> {
    let (place, reason) = match found.from(8) {
        Found::Whole => {
            let end = len.wrapping_add(8);
            return out.extend(format!(in alloc; "end 1 {end}\n")?.as_bytes());
        }
        Found::Short(place) => (place, "short"),
        Found::LengthPast(place) => (place, "length-past"),
        Found::BadValue(place) => (place, "bad-value"),
        Found::Trailing(place) => (place, "trailing"),
    };
    out.extend(format!(in alloc; "bad {place} {reason}\n")?.as_bytes())
}

/// That a stream has this listing, and whether it is whole.
pub fn assert_lines(
    rt: &(impl Abort + AllocGlobal),
    stream: &[u8],
    lines: &[u8],
    is_whole: bool,
) -> Result<(), Fail> {
    let status = if is_whole {
        Status::Done
    } else {
        Status::BadBytes
    };
    let (got, written) = show_of(rt.alloc(), stream)?;
    assert_eq!(rt; written.as_slice(), lines, "of {stream:?}");
    assert_eq!(rt; got, status, "of {stream:?}");
    Ok(())
}

/// That this is found in a message, behind what is read of it.
pub fn assert_found(
    rt: &(impl Abort + AllocGlobal),
    message: &[u8],
    read: Read,
    found: Found,
) -> Result<(), Fail> {
    let stream = framed(rt.alloc(), message)?;
    let mut lines = lines_of(rt.alloc(), message, read)?;
    put_last_line(rt.alloc(), &mut lines, message.len(), found)?;
    let is_whole = matches!(found, Found::Whole);
    assert_lines(rt, &stream, lines.as_slice(), is_whole)
}
