//! The texts of answers.

use crate::lines::{put, put_key};
use crate::requests::{Value, kind_at};
use reload_base::NoMemory;
use std::alloc::Global;

/// An answer of a code, of which nothing more is told.
pub fn told(alloc: Global, code: u16) -> Result<String, NoMemory> {
    Ok(format!(in alloc; "{code}")?)
}

/// Adds a kind and its generation counter.
pub fn put_counter(
    alloc: Global,
    kind: usize,
    generation: u64,
    out: &mut String,
) -> Result<(), NoMemory> {
    let id = kind_at(kind).id;
    put(&format!(in alloc; " {id}:{generation}")?, out)
}

/// Adds the head of a kind that is found.
pub fn put_head(
    alloc: Global,
    kind: usize,
    generation: u64,
    out: &mut String,
) -> Result<(), NoMemory> {
    let id = kind_at(kind).id;
    put(&format!(in alloc; " kind={id}/{generation}")?, out)
}

fn put_bytes(length: Option<usize>, out: &mut String) -> Result<(), NoMemory> {
    let Some(length) = length else {
        return put("-", out);
    };
    put("+", out)?;
    for _ in 0..length {
        put("61", out)?;
    }
    Ok(())
}

/// Adds a value that is found, with the seconds that are left of its lifetime.
pub fn put_found(
    alloc: Global,
    kind: usize,
    value: Value,
    left: u64,
    out: &mut String,
) -> Result<(), NoMemory> {
    put(" ", out)?;
    put_key(alloc, kind_at(kind).model, value.key, out)?;
    let time = value.time;
    put(&format!(in alloc; ":{time}:{left}:")?, out)?;
    put_bytes(value.length, out)
}
