//! Messages that end anywhere, and parts of them that do: which fault is told.

use crate::message_listings::{Found, Read, assert_found};
use crate::message_parts::{
    ANY_BYTES, BLOCK, BODIES, Cut, EXTENSIONS, IN_BLOCK, IN_CONTENTS, IN_EXTENSIONS, IN_HEADER,
    LISTS, Lengths, NODE_IDS, SOUND, cut_at,
};
use crate::messages::{CONTENTS, MESSAGES, ends_of, message_of, number_at, set_length, set_number};
use reload_base::NoMemory;
use std::alloc::Global;
use std::process::Abort;
use std::test::Fail;

// What is read and found where a part ends at a place, behind what was read before. Places were
// counted from the origin.
fn found_of(cut: Cut, read: Read, origin: usize, end: usize) -> (Read, Found) {
    match cut {
        Cut::Whole(extensions, certificates) => {
            (Read::Block(extensions, certificates, 2), Found::Whole)
        }
        Cut::Short => (read, Found::Short(end)),
        Cut::LengthPast(place) => (read, Found::LengthPast(place).from(origin)),
    }
}

// All bytes but those from a place up to another.
fn without(alloc: Global, bytes: &[u8], from: usize, to: usize) -> Result<Vec<u8>, NoMemory> {
    let mut left = Vec::new(alloc);
    for (i, byte) in bytes.iter().enumerate() {
        if i < from || to <= i {
            left.push(*byte)?;
        }
    }
    Ok(left)
}

// Where a part lies in a message: the place from which the places of its lengths are counted, and
// these.
#[derive(Clone, Copy)]
struct Part {
    origin: usize,
    lengths: Lengths,
}

impl Part {
    // Where its content begins, and how many bytes it has.
    fn content(self, message: &[u8]) -> (usize, usize) {
        let (place, width) = self.lengths.last().copied().unwrap_or((0, 0));
        let place = place.wrapping_add(self.origin);
        (place.wrapping_add(width), number_at(message, place, width))
    }

    // The message where so many bytes of the part stay. All lengths are right.
    fn cut(self, alloc: Global, message: &[u8], kept: usize) -> Result<Vec<u8>, NoMemory> {
        let (front, len) = self.content(message);
        let gone = len.wrapping_sub(kept);
        let (from, to) = (front.wrapping_add(kept), front.wrapping_add(len));
        let mut shorter = without(alloc, message, from, to)?;
        for (place, width) in self.lengths.iter().copied() {
            let place = place.wrapping_add(self.origin);
            let number = number_at(message, place, width).wrapping_sub(gone);
            set_number(&mut shorter, place, width, number);
        }
        set_length(&mut shorter);
        Ok(shorter)
    }
}

// That each front of a part is found so, all lengths being right.
fn assert_part(
    rt: &(impl Abort + AllocGlobal),
    message: &[u8],
    part: Part,
    read: Read,
    cuts: &[(usize, Cut)],
) -> Result<(), Fail> {
    let (front, len) = part.content(message);
    for kept in 0..=len {
        let shorter = part.cut(rt.alloc(), message, kept)?;
        let end = front.wrapping_add(kept);
        let (read, found) = found_of(cut_at(cuts, kept), read, part.origin, end);
        assert_found(rt, &shorter, read, found)?;
    }
    Ok(())
}

// The same of a part of the contents of a message.
fn assert_contents(
    rt: &(impl Abort + AllocGlobal),
    contents: &str,
    lengths: Lengths,
    cuts: &[(usize, Cut)],
) -> Result<(), Fail> {
    let message = message_of(rt.alloc(), contents)?;
    let part = Part {
        origin: CONTENTS,
        lengths,
    };
    assert_part(rt, &message, part, Read::Header, cuts)
}

#[test]
fn bodies_end_anywhere(rt: HostRuntime) -> Result<(), Fail> {
    for (contents, cuts) in BODIES {
        assert_contents(&rt, contents, &[(2, 4)], cuts)?;
    }
    Ok(())
}

#[test]
fn lists_in_bodies_end_anywhere(rt: HostRuntime) -> Result<(), Fail> {
    for (contents, lengths, cuts) in LISTS {
        assert_contents(&rt, contents, lengths, cuts)?;
    }
    for (contents, lengths) in ANY_BYTES {
        assert_contents(&rt, contents, lengths, &[(0, SOUND)])?;
    }
    for (contents, lengths) in NODE_IDS {
        let cuts = [
            (0, SOUND),
            (1, Cut::Short),
            (16, SOUND),
            (17, Cut::Short),
            (32, SOUND),
        ];
        assert_contents(&rt, contents, lengths, &cuts)?;
    }
    Ok(())
}

#[test]
fn extensions_end_anywhere(rt: HostRuntime) -> Result<(), Fail> {
    for contents in MESSAGES {
        let message = message_of(rt.alloc(), contents)?;
        let (origin, _) = ends_of(&message);
        for (lengths, cuts) in EXTENSIONS {
            let part = Part { origin, lengths };
            assert_part(&rt, &message, part, Read::Header, cuts)?;
        }
    }
    Ok(())
}

#[test]
fn parts_of_a_security_block_end_anywhere(rt: HostRuntime) -> Result<(), Fail> {
    for contents in MESSAGES {
        let message = message_of(rt.alloc(), contents)?;
        let (_, origin) = ends_of(&message);
        for (lengths, cuts) in BLOCK {
            let part = Part { origin, lengths };
            assert_part(&rt, &message, part, Read::Contents(2), cuts)?;
        }
    }
    Ok(())
}

// That a message that ends at a place, and whose length is right, is found so.
fn assert_front(rt: &(impl Abort + AllocGlobal), message: &[u8], end: usize) -> Result<(), Fail> {
    let (extensions, block) = ends_of(message);
    let (origin, read, cuts) = match end {
        _ if end < CONTENTS => (0, Read::Frame, IN_HEADER),
        _ if end < extensions => (CONTENTS, Read::Header, IN_CONTENTS),
        _ if end < block => (extensions, Read::Header, IN_EXTENSIONS),
        _ => (block, Read::Contents(2), IN_BLOCK),
    };
    let cut = cut_at(cuts, end.wrapping_sub(origin));
    let (read, found) = found_of(cut, read, origin, end);
    let mut front = without(rt.alloc(), message, end, message.len())?;
    set_length(&mut front);
    assert_found(rt, &front, read, found)
}

#[test]
fn a_message_ends_anywhere(rt: HostRuntime) -> Result<(), Fail> {
    for contents in MESSAGES {
        let message = message_of(rt.alloc(), contents)?;
        for end in 0..=message.len() {
            assert_front(&rt, &message, end)?;
        }
    }
    Ok(())
}
