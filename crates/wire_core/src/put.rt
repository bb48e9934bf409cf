//! Writing numbers at the end of bytes, the highest byte first.

ghost use Rattle.std.specs.Prelude.{◌≡◌, ◌^◌, ◌<◌, ◌≤◌, ◌++◌, length, take, OnOk, OnErr};
ghost use Rattle.wire_core.specs.Spelling.{number, boolean, vector};

use byteorder::{BigEndian, ByteOrder};
use reload_base::{Bytes, NoMemory};

/// Adds a number of one byte. After `NoMemory` the bytes are as before.
#[tactic(auto, unfolding(crate::specs::Spelling::number))]
pub fn put_u8(out: &mut Bytes, v: u8) -> Result<(), NoMemory>
    ensures ok { OnOk result (out.new ≡ out.old ++ number 1 v) }
    ensures err { OnErr result (out.new ≡ out.old) }
{
    out.push(v)
}

/// Adds a number of two bytes. After `NoMemory` the bytes are as before.
#[tactic(auto, unfolding(crate::specs::Spelling::number))]
pub fn put_u16(out: &mut Bytes, v: u16) -> Result<(), NoMemory>
    ensures ok { OnOk result (out.new ≡ out.old ++ number 2 v) }
    ensures err { OnErr result (out.new ≡ out.old) }
{
    let mut bytes = [0; 2];
    BigEndian::write_u16(&mut bytes, v);
    out.extend(&bytes)
}

/// Adds a number of three bytes. After `NoMemory` the bytes are as before.
#[tactic(auto, unfolding(crate::specs::Spelling::number))]
pub fn put_u24(out: &mut Bytes, v: u32) -> Result<(), NoMemory>
    requires { v < 2 ^ 24 }
    ensures ok { OnOk result (out.new ≡ out.old ++ number 3 v) }
    ensures err { OnErr result (out.new ≡ out.old) }
{
    let mut bytes = [0; 3];
    BigEndian::write_u24(&mut bytes, v);
    out.extend(&bytes)
}

/// Adds a number of four bytes. After `NoMemory` the bytes are as before.
#[tactic(auto, unfolding(crate::specs::Spelling::number))]
pub fn put_u32(out: &mut Bytes, v: u32) -> Result<(), NoMemory>
    ensures ok { OnOk result (out.new ≡ out.old ++ number 4 v) }
    ensures err { OnErr result (out.new ≡ out.old) }
{
    let mut bytes = [0; 4];
    BigEndian::write_u32(&mut bytes, v);
    out.extend(&bytes)
}

/// Adds a number of eight bytes. After `NoMemory` the bytes are as before.
#[tactic(auto, unfolding(crate::specs::Spelling::number))]
pub fn put_u64(out: &mut Bytes, v: u64) -> Result<(), NoMemory>
    ensures ok { OnOk result (out.new ≡ out.old ++ number 8 v) }
    ensures err { OnErr result (out.new ≡ out.old) }
{
    let mut bytes = [0; 8];
    BigEndian::write_u64(&mut bytes, v);
    out.extend(&bytes)
}

/// Adds a number of sixteen bytes. After `NoMemory` the bytes are as before.
#[tactic(auto, unfolding(crate::specs::Spelling::number))]
pub fn put_u128(out: &mut Bytes, v: u128) -> Result<(), NoMemory>
    ensures ok { OnOk result (out.new ≡ out.old ++ number 16 v) }
    ensures err { OnErr result (out.new ≡ out.old) }
{
    let mut bytes = [0; 16];
    BigEndian::write_u128(&mut bytes, v);
    out.extend(&bytes)
}

/// Adds a Boolean: one byte, 0 or 1. After `NoMemory` the bytes are as before.
pub fn put_boolean(out: &mut Bytes, v: bool) -> Result<(), NoMemory>
    ensures ok { OnOk result (out.new ≡ out.old ++ boolean v) }
    ensures err { OnErr result (out.new ≡ out.old) }
{
    put_u8(out, if v { 1 } else { 0 })
}

/// Adds the length of a vector, which stands in `width` bytes. After `NoMemory` the bytes are as
/// before.
pub fn put_length(out: &mut Bytes, width: u8, len: u64) -> Result<(), NoMemory>
    requires low { 1 ≤ width }
    requires high { width ≤ 4 }
    requires fits { len < 256 ^ width }
    ensures ok { OnOk result (out.new ≡ out.old ++ number width len) }
    ensures err { OnErr result (out.new ≡ out.old) }
{
    match width {
        1 => put_u8(out, len as u8),
        2 => put_u16(out, len as u16),
        3 => put_u24(out, len as u32),
        _ => put_u32(out, len as u32),
    }
}

/// Cuts bytes back to the length that they had before a call, unless the call did all.
pub fn cut_back(out: &mut Bytes, len: usize, put: Result<(), NoMemory>) -> Result<(), NoMemory>
    ensures same { result ≡ put }
    ensures ok { OnOk put (out.new ≡ out.old) }
    ensures err { OnErr put (out.new ≡ take len out.old) }
{
    if put.is_err() {
        out.truncate(len);
    }
    put
}

/// Adds a vector of bytes, whose length stands in `width` bytes. After `NoMemory` the bytes are as
/// before.
pub fn put_bytes(out: &mut Bytes, width: u8, bytes: &[u8]) -> Result<(), NoMemory>
    requires low { 1 ≤ width }
    requires high { width ≤ 4 }
    requires fits { length bytes.now < 256 ^ width }
    ensures ok { OnOk result (out.new ≡ out.old ++ vector width bytes.now) }
    ensures err { OnErr result (out.new ≡ out.old) }
{
    let len = out.len();
    put_length(out, width, bytes.len() as u64)?;
    let put = out.extend(bytes);
    cut_back(out, len, put)
}
