//! A cursor over a part of the input.

ghost use Rattle.std.specs.Prelude.{◌≡◌, ◌+◌, ◌^◌, ◌<◌, ◌≤◌, ◌==◌, [], length, MatchResult, IfOk, Ok, Err};
ghost use Rattle.wire_core.specs.Part.{end_of};
ghost use Rattle.wire_core.specs.Spelling.{AreBytes};
ghost use Rattle.wire_core.specs.Reading.{Reads, place_at, ended, bytes_at, number_at, exact_at, limited_at, boolean_at, stretch_at, part_at, sized_part_at};

use crate::bad::{Bad, Reason, allowed};
use byteorder::{BigEndian, ByteOrder};
use std::marker::Model;

/// What is left to read of a part of the input. Contracts see the place of its first byte in the
/// whole input, and its bytes. After a refusal the place of a cursor is open.
#[derive(Debug, Drop)]
pub struct Cursor<'a> {
    bytes: &'a [u8],
    place: u64,
}

impl<'a> Model for Cursor<'a> {
    ghost use Rattle.std.specs.Prelude.{◌+◌, ◌<◌, ◌^◌, length};
    ghost use Rattle.wire_core.specs.Part.{Part};

    ghost Value = { Part };

    ghost view = { λ c. record { place = c.place; bytes = c.bytes.now } };

    ghost invariant = { λ c. c.place + length c.bytes.now < 2 ^ 64 };
}

impl<'a> Cursor<'a> {
    /// All of some bytes, the first of which stands at the place `base`.
    pub fn new(bytes: &'a [u8], base: u64) -> Cursor<'a>
        requires { base + length bytes.now < 2 ^ 64 }
        ensures { result ≡ record { place = base; bytes = bytes.now } }
    {
        Cursor { bytes, place: base }
    }

    /// Does nothing, and tells contracts that what is left are bytes.
    pub fn are_bytes(&self)
        ensures { AreBytes self.now.bytes }
    {
        are_bytes(self.bytes)
    }

    /// The place of the next byte.
    #[tactic(auto, unfolding(crate::specs::Reading::place_at))]
    pub fn place(&self) -> u64
        ensures value { result ≡ self.now.place }
        ensures read { place_at self.now ≡ Ok (result, self.now) }
    {
        self.place
    }

    /// The place behind the last byte.
    pub fn end(&self) -> u64
        ensures { result ≡ end_of self.now }
    {
        self.place + self.bytes.len() as u64
    }

    /// The number of bytes that are left.
    pub fn len(&self) -> usize
        ensures { result ≡ length self.now.bytes }
    {
        self.bytes.len()
    }

    /// Whether no byte is left.
    pub fn is_empty(&self) -> bool
        ensures { result ≡ (length self.now.bytes == 0) }
    {
        self.bytes.is_empty()
    }

    /// Takes and lends all that is left.
    pub fn rest(&mut self) -> &'a [u8]
        ensures lent { result.now ≡ self.old.bytes }
        ensures left { self.new ≡ record { place = end_of self.old; bytes = [] } }
    {
        let (rest, nothing) = self.bytes.split_at(self.bytes.len());
        self.place += rest.len() as u64;
        self.bytes = nothing;
        rest
    }

    /// Refuses bytes that are left.
    #[tactic(auto, unfolding(crate::specs::Reading::allowed))]
    pub fn finish(&self) -> Result<(), Bad>
        ensures { Reads result self.now (ended self.now) }
    {
        if self.bytes.is_empty() {
            return Ok(());
        }
        Err(Bad {
            place: self.place,
            reason: Reason::Trailing,
        })
    }

    /// The next `n` bytes.
    #[tactic(auto, unfolding(crate::specs::Reading::bytes_at))]
    fn front(&mut self, n: usize) -> Result<&'a [u8], Bad>
        ensures read { MatchResult result (λ front. bytes_at n self.old ≡ Ok (front.now, self.new))
            (λ bad. bytes_at n self.old ≡ Err bad) }
        ensures len { IfOk result (λ front. length front.now ≡ n) }
    {
        if self.bytes.len() < n {
            return Err(Bad {
                place: self.place + self.bytes.len() as u64,
                reason: Reason::Short,
            });
        }
        let (front, rest) = self.bytes.split_at(n);
        self.bytes = rest;
        self.place += n as u64;
        Ok(front)
    }

    /// A number of one byte.
    #[tactic(auto, unfolding(crate::specs::Reading::number_at))]
    pub fn take_u8(&mut self) -> Result<u8, Bad>
        ensures { Reads result self.new (number_at 1 self.old) }
    {
        let front = self.front(1)?;
        Ok(front[0])
    }

    /// A number of two bytes.
    #[tactic(auto, unfolding(crate::specs::Reading::number_at))]
    pub fn take_u16(&mut self) -> Result<u16, Bad>
        ensures { Reads result self.new (number_at 2 self.old) }
    {
        Ok(BigEndian::read_u16(self.front(2)?))
    }

    /// A number of three bytes.
    #[tactic(auto, unfolding(crate::specs::Reading::number_at))]
    pub fn take_u24(&mut self) -> Result<u32, Bad>
        ensures { Reads result self.new (number_at 3 self.old) }
    {
        Ok(BigEndian::read_u24(self.front(3)?))
    }

    /// A number of four bytes.
    #[tactic(auto, unfolding(crate::specs::Reading::number_at))]
    pub fn take_u32(&mut self) -> Result<u32, Bad>
        ensures { Reads result self.new (number_at 4 self.old) }
    {
        Ok(BigEndian::read_u32(self.front(4)?))
    }

    /// A number of eight bytes.
    #[tactic(auto, unfolding(crate::specs::Reading::number_at))]
    pub fn take_u64(&mut self) -> Result<u64, Bad>
        ensures { Reads result self.new (number_at 8 self.old) }
    {
        Ok(BigEndian::read_u64(self.front(8)?))
    }

    /// A number of sixteen bytes.
    #[tactic(auto, unfolding(crate::specs::Reading::number_at))]
    pub fn take_u128(&mut self) -> Result<u128, Bad>
        ensures { Reads result self.new (number_at 16 self.old) }
    {
        Ok(BigEndian::read_u128(self.front(16)?))
    }

    /// One byte, 0 or 1 (RFC 6940, section 6.3.1).
    #[tactic(auto, unfolding(crate::specs::Reading::boolean_at))]
    pub fn take_boolean(&mut self) -> Result<bool, Bad>
        ensures { Reads result self.new (boolean_at self.old) }
    {
        let place = self.place();
        let byte = self.take_u8()?;
        allowed(byte < 2, place, Reason::BadValue)?;
        Ok(byte == 1)
    }

    /// A number of `width` bytes, which is 1 to 4.
    pub fn take_number(&mut self, width: u8) -> Result<u32, Bad>
        requires low { 1 ≤ width }
        requires high { width ≤ 4 }
        ensures { Reads result self.new (number_at width self.old) }
    {
        match width {
            1 => Ok(u32::from(self.take_u8()?)),
            2 => Ok(u32::from(self.take_u16()?)),
            3 => self.take_u24(),
            _ => self.take_u32(),
        }
    }

    /// A number of `width` bytes, any other of which than `value` is a bad value.
    #[tactic(auto, unfolding(crate::specs::Reading::exact_at))]
    pub fn expect(&mut self, width: u8, value: u32) -> Result<(), Bad>
        requires low { 1 ≤ width }
        requires high { width ≤ 4 }
        ensures { Reads result self.new (exact_at width value self.old) }
    {
        let place = self.place();
        let number = self.take_number(width)?;
        allowed(number == value, place, Reason::BadValue)
    }

    /// A length of `width` bytes, which is too large above `limit`.
    #[tactic(auto, unfolding(crate::specs::Reading::limited_at))]
    pub fn take_limited(&mut self, width: u8, limit: u32) -> Result<u32, Bad>
        requires low { 1 ≤ width }
        requires high { width ≤ 4 }
        ensures { Reads result self.new (limited_at width limit self.old) }
    {
        let place = self.place();
        let number = self.take_number(width)?;
        allowed(number <= limit, place, Reason::TooLarge)?;
        Ok(number)
    }

    /// The next `len` bytes as a cursor of their own. Their length stands at `place`, where it is
    /// refused if fewer are left.
    #[tactic(auto, unfolding(crate::specs::Reading::stretch_at))]
    pub fn take_stretch(&mut self, place: u64, len: u32) -> Result<Cursor<'a>, Bad>
        ensures { Reads result self.new (stretch_at place len self.old) }
    {
        let len = len as usize;
        if self.bytes.len() < len {
            return Err(Bad {
                place,
                reason: Reason::LengthPast,
            });
        }
        let (front, rest) = self.bytes.split_at(len);
        let part = Cursor::new(front, self.place);
        self.bytes = rest;
        self.place += len as u64;
        Ok(part)
    }

    /// The content of a vector as a cursor of its own. Its length stands in `width` bytes.
    #[tactic(auto, unfolding(crate::specs::Reading::part_at))]
    pub fn take_part(&mut self, width: u8) -> Result<Cursor<'a>, Bad>
        requires low { 1 ≤ width }
        requires high { width ≤ 4 }
        ensures { Reads result self.new (part_at width self.old) }
    {
        let place = self.place();
        let len = self.take_number(width)?;
        self.take_stretch(place, len)
    }

    /// The same, where any length other than `size` is refused as a bad value.
    #[tactic(auto, unfolding(crate::specs::Reading::sized_part_at))]
    pub fn take_sized_part(&mut self, width: u8, size: u32) -> Result<Cursor<'a>, Bad>
        requires low { 1 ≤ width }
        requires high { width ≤ 4 }
        ensures { Reads result self.new (sized_part_at width size self.old) }
    {
        let place = self.place();
        let len = self.take_number(width)?;
        allowed(len == size, place, Reason::BadValue)?;
        self.take_stretch(place, len)
    }
}

/// Does nothing, and tells contracts that these are bytes.
fn are_bytes(bytes: &[u8])
    ensures { AreBytes bytes.now }
{}
