//! What a Fetch is answered.

use crate::plain::Plain;
use crate::plain::sizes::gap_size;
use crate::plain::slots::{Held, Place, live, next_index};
use crate::plain::told::{put_found, put_head, told};
use crate::requests::{KEYS, Keys, Named, Request, Specifier, UNKNOWN, Value};
use reload_base::NoMemory;
use std::alloc::Global;

/// How long an answer is at the most.
const MAX_ANSWER: usize = 200_000;

/// What is given so far: its text, and the bytes of the contents that tell it.
#[derive(Drop)]
struct Given {
    text: String,
    size: usize,
}

fn fetches_unknown(specifiers: &[Specifier]) -> bool {
    specifiers.iter().any(|specifier| specifier.kind == UNKNOWN)
}

/// What stands where no value is.
fn gap(key: usize) -> Value {
    Value {
        key: Some(key),
        time: 0,
        lifetime: 0,
        length: None,
    }
}

/// The seconds to a time, of which a part counts as a whole one.
fn seconds_to(expiry: u64, now: u64) -> u64 {
    expiry.wrapping_sub(now).wrapping_add(999) / 1000
}

impl Given {
    fn give(&mut self, alloc: Global, kind: usize, held: Held, now: u64) -> Result<(), NoMemory> {
        self.size = self.size.wrapping_add(held.size);
        let left = seconds_to(held.expiry, now);
        put_found(alloc, kind, held.value, left, &mut self.text)
    }

    fn give_gap(&mut self, alloc: Global, kind: usize, key: usize) -> Result<(), NoMemory> {
        self.size = self.size.wrapping_add(gap_size(kind, key));
        put_found(alloc, kind, gap(key), 0, &mut self.text)
    }
}

impl Plain {
    /// What a slot holds that isn't expired.
    fn held(&self, now: u64, place: Place, key: usize) -> Option<Held> {
        let slot = self.slot(place, key)?;
        live(slot.held, now)
    }

    /// The indices of the ranges, up to the greatest one.
    fn indices(
        &self,
        alloc: Global,
        place: Place,
        ranges: &[(usize, usize)],
    ) -> Result<Vec<usize>, NoMemory> {
        let mut keys = Vec::new(alloc);
        for range in ranges {
            for key in 0..next_index(self.slots.as_slice(), place) {
                if range.0 <= key && key <= range.1 {
                    keys.push(key)?;
                }
            }
        }
        Ok(keys)
    }

    /// The keys of a dictionary's values that aren't expired.
    fn live_keys(&self, alloc: Global, now: u64, place: Place) -> Result<Vec<usize>, NoMemory> {
        let mut keys = Vec::new(alloc);
        for key in 0..KEYS.len() {
            if self.held(now, place, key).is_some() {
                keys.push(key)?;
            }
        }
        Ok(keys)
    }

    /// The keys that a specifier asks for.
    fn keys(
        &self,
        alloc: Global,
        now: u64,
        place: Place,
        asked: &Keys,
    ) -> Result<Vec<usize>, NoMemory> {
        match asked {
            Keys::Whole => Ok(vec![in alloc; 0; 1]?),
            Keys::Ranges(ranges) => self.indices(alloc, place, ranges.as_slice()),
            Keys::Names(names) if names.is_empty() => self.live_keys(alloc, now, place),
            Keys::Names(names) => Ok(names.as_slice().to_vec(alloc)?),
        }
    }

    /// Gives the values that a specifier asks for, or nothing where they are known.
    fn give_kind(
        &self,
        alloc: Global,
        now: u64,
        resource: usize,
        specifier: &Specifier,
        given: &mut Given,
    ) -> Result<(), NoMemory> {
        let kind = specifier.kind;
        let place = Place { resource, kind };
        let generation = self.count(place).generation;
        given.size = given.size.wrapping_add(16);
        put_head(alloc, kind, generation, &mut given.text)?;
        if specifier.generation != 0 && specifier.generation == generation {
            return Ok(());
        }
        for key in self.keys(alloc, now, place, &specifier.keys)?.as_slice() {
            match self.held(now, place, *key) {
                Some(held) => given.give(alloc, kind, held, now)?,
                None => given.give_gap(alloc, kind, *key)?,
            }
        }
        Ok(())
    }

    /// The answer to a Fetch that asks for kinds that the configuration has.
    fn found(
        &self,
        alloc: Global,
        now: u64,
        resource: usize,
        max: u32,
        specifiers: &[Specifier],
    ) -> Result<String, NoMemory> {
        let mut given = Given {
            text: String::from_str(alloc, "found")?,
            size: 14,
        };
        for specifier in specifiers {
            self.give_kind(alloc, now, resource, specifier, &mut given)?;
        }
        if given.size > MAX_ANSWER || (max != 0 && given.size > max as usize) {
            return told(alloc, 14);
        }
        Ok(given.text)
    }

    /// The answer to a Fetch that makes sense and is signed.
    pub(super) fn fetch(
        &self,
        alloc: Global,
        now: u64,
        request: &Request,
        max: u32,
        specifiers: &[Specifier],
    ) -> Result<String, NoMemory> {
        match request.named {
            Named::Older => told(alloc, 15),
            Named::Newer => told(alloc, 16),
            Named::Same if request.critical => told(alloc, 13),
            Named::Same if fetches_unknown(specifiers) => told(alloc, 12),
            Named::Same => self.found(alloc, now, request.resource, max, specifiers),
        }
    }
}
