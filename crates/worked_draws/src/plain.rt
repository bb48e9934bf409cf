//! A plain program of what is decided.

mod fetch;
mod permits;
mod sizes;
mod slots;
mod sound;
mod told;

use crate::requests::{Body, Group, Named, Request, UNKNOWN, Value};
use permits::permits_all;
use reload_base::NoMemory;
use slots::{Place, Slot, expire, is_too_large, position, put_values, weight};
use sound::{is_sound_fetch, is_sound_store};
use std::alloc::Global;
use told::{put_counter, told};
use worked_requests::Asker;

/// How many answers a record keeps.
const MAX_KEPT: usize = 64;

/// How much a record weighs at the most.
const MAX_WEIGHT: usize = 131_072;

/// What a kind has come to at a resource beside its slots.
#[derive(Clone, Copy)]
struct Count {
    place: Place,
    generation: u64,
    append_floor: u64,
}

/// An answer that a resource keeps.
#[derive(Drop)]
struct Kept {
    resource: usize,
    asker: Asker,
    transaction: u64,
    text: String,
}

/// What all resources have come to.
#[derive(Drop)]
pub struct Plain {
    slots: Vec<Slot>,
    counts: Vec<Count>,
    kept: Vec<Kept>,
}

fn place_of(request: &Request, group: &Group) -> Place {
    Place {
        resource: request.resource,
        kind: group.kind,
    }
}

fn asks_unknown(groups: &[Group]) -> bool {
    groups.iter().any(|group| group.kind == UNKNOWN)
}

/// The storage time of the last value that is appended, or that before.
fn append_floor_after(before: u64, values: &[Value]) -> u64 {
    let mut floor = before;
    for value in values {
        if value.key.is_none() {
            floor = value.time;
        }
    }
    floor
}

/// Whether a resource weighs too much with the slots as they are afterwards.
fn is_too_heavy(slots: &[Slot], resource: usize) -> bool {
    let mut sum = 0_usize;
    for kind in 0..UNKNOWN {
        sum = sum.wrapping_add(weight(slots, Place { resource, kind }));
    }
    sum > MAX_WEIGHT
}

fn permits_groups(request: &Request, groups: &[Group]) -> bool {
    groups.iter().all(|group| permits_all(request.asker, place_of(request, group), group))
}

fn any_too_large(slots: &[Slot], request: &Request, groups: &[Group]) -> bool {
    groups.iter().any(|group| is_too_large(slots, place_of(request, group), group))
}

/// Whether a resource keeps an answer for a request.
fn answers(kept: &Kept, request: &Request) -> bool {
    kept.asker == request.asker && kept.transaction == request.transaction
}

impl Plain {
    pub fn new(alloc: Global) -> Plain {
        Plain {
            slots: Vec::new(alloc),
            counts: Vec::new(alloc),
            kept: Vec::new(alloc),
        }
    }

    fn count_position(&self, place: Place) -> Option<usize> {
        let mut counts = self.counts.as_slice().iter();
        counts.position(|count| count.place == place)
    }

    fn count(&self, place: Place) -> Count {
        let none = Count {
            place,
            generation: 0,
            append_floor: 0,
        };
        match self.count_position(place) {
            Some(at) => self.counts.get(at).copied().unwrap_or(none),
            None => none,
        }
    }

    fn slot(&self, place: Place, key: usize) -> Option<Slot> {
        let at = position(self.slots.as_slice(), place, key)?;
        self.slots.get(at).copied()
    }

    /// The storage time that a value with a key has to pass.
    fn floor(&self, place: Place, key: usize) -> u64 {
        match self.slot(place, key) {
            Some(slot) => slot.floor,
            None => 0,
        }
    }

    /// Whether a storage time isn't over its floor, appends one after the other.
    fn is_old(&self, place: Place, values: &[Value]) -> bool {
        let mut append_floor = self.count(place).append_floor;
        let mut old = false;
        for value in values {
            let floor = match value.key {
                Some(key) => self.floor(place, key),
                None => append_floor,
            };
            old = old || value.time <= floor;
            if value.key.is_none() {
                append_floor = value.time;
            }
        }
        old
    }

    fn any_old(&self, request: &Request, groups: &[Group]) -> bool {
        groups.iter().any(|group| self.is_old(place_of(request, group), group.values.as_slice()))
    }

    fn asks_other_generation(&self, place: Place, group: &Group) -> bool {
        group.generation != 0 && group.generation != self.count(place).generation
    }

    fn any_other_generation(&self, request: &Request, groups: &[Group]) -> bool {
        groups.iter().any(|group| self.asks_other_generation(place_of(request, group), group))
    }

    /// Why a Store is refused for what is there, or 0.
    fn refused(&self, request: &Request, groups: &[Group]) -> u16 {
        if asks_unknown(groups) {
            12
        } else if !permits_groups(request, groups) {
            2
        } else if self.any_other_generation(request, groups) {
            5
        } else if self.any_old(request, groups) {
            9
        } else {
            0
        }
    }

    /// The slots after a Store was accepted: expired values leave first.
    fn slots_after(
        &self,
        alloc: Global,
        now: u64,
        request: &Request,
        groups: &[Group],
    ) -> Result<Vec<Slot>, NoMemory> {
        let mut slots = self.slots.as_slice().to_vec(alloc)?;
        expire(&mut slots, now, request.resource);
        for group in groups {
            let place = place_of(request, group);
            put_values(&mut slots, place, now, group.values.as_slice())?;
        }
        Ok(slots)
    }

    /// A kind got values.
    fn raise(&mut self, place: Place, values: &[Value]) -> Result<(), NoMemory> {
        let before = self.count(place);
        let count = Count {
            place,
            generation: before.generation.wrapping_add(1),
            append_floor: append_floor_after(before.append_floor, values),
        };
        let at = self.count_position(place);
        match at.and_then(|at| self.counts.get_mut(at)) {
            Some(old) => *old = count,
            None => self.counts.push(count)?,
        }
        Ok(())
    }

    /// Puts the values of a Store, or answers 8 where they pass a limit.
    fn put(
        &mut self,
        alloc: Global,
        now: u64,
        request: &Request,
        groups: &[Group],
    ) -> Result<u16, NoMemory> {
        let slots = self.slots_after(alloc, now, request, groups)?;
        if any_too_large(slots.as_slice(), request, groups)
            || is_too_heavy(slots.as_slice(), request.resource)
        {
            return Ok(8);
        }
        self.slots = slots;
        for group in groups {
            self.raise(place_of(request, group), group.values.as_slice())?;
        }
        Ok(0)
    }

    /// The answer that is kept for a request: one of the last that its resource gave.
    fn kept(&self, request: &Request) -> Option<&Kept> {
        let mut seen = 0_usize;
        for kept in self.kept.as_slice().iter().rev() {
            if kept.resource == request.resource && seen < MAX_KEPT {
                if answers(kept, request) {
                    return Some(kept);
                }
                seen = seen.wrapping_add(1);
            }
        }
        None
    }

    fn keep(&mut self, alloc: Global, request: &Request, text: &str) -> Result<(), NoMemory> {
        self.kept.push(Kept {
            resource: request.resource,
            asker: request.asker,
            transaction: request.transaction,
            text: String::from_str(alloc, text)?,
        })?;
        Ok(())
    }

    /// The code of a Store that names this configuration, and that no kept answer is for.
    fn store_anew(
        &mut self,
        alloc: Global,
        now: u64,
        request: &Request,
        groups: &[Group],
    ) -> Result<u16, NoMemory> {
        if request.critical {
            return Ok(13);
        }
        match self.refused(request, groups) {
            0 => self.put(alloc, now, request, groups),
            code => Ok(code),
        }
    }

    /// The answer of a code to a Store. Where it was accepted, or asked for another generation
    /// counter, each kind's counter is told.
    fn told_store(
        &self,
        alloc: Global,
        code: u16,
        request: &Request,
        groups: &[Group],
    ) -> Result<String, NoMemory> {
        let mut text = told(alloc, code)?;
        if code != 0 && code != 5 {
            return Ok(text);
        }
        for group in groups {
            let count = self.count(place_of(request, group));
            put_counter(alloc, group.kind, count.generation, &mut text)?;
        }
        Ok(text)
    }

    /// The answer to a Store that makes sense and is signed.
    fn store(
        &mut self,
        alloc: Global,
        now: u64,
        request: &Request,
        groups: &[Group],
    ) -> Result<String, NoMemory> {
        if let Some(kept) = self.kept(request) {
            return Ok(String::from_str(alloc, &kept.text)?);
        }
        match request.named {
            Named::Older => told(alloc, 15),
            Named::Newer => told(alloc, 16),
            Named::Same => {
                let code = self.store_anew(alloc, now, request, groups)?;
                let text = self.told_store(alloc, code, request, groups)?;
                self.keep(alloc, request, &text)?;
                Ok(text)
            }
        }
    }

    /// The answer to a request, at a clock in milliseconds: `CODE KIND:GENERATION..`, or `found`
    /// and what a Fetch is given, in the words of a transcript.
    pub fn rule(&mut self, alloc: Global, now: u64, request: &Request) -> Result<String, NoMemory> {
        let sound = match &request.body {
            Body::Store(groups) => is_sound_store(groups.as_slice()),
            Body::Fetch { specifiers, .. } => is_sound_fetch(specifiers.as_slice()),
        };
        if request.misplaced || !sound {
            return told(alloc, 20);
        }
        if request.spoilt {
            return told(alloc, 2);
        }
        match &request.body {
            Body::Store(groups) => self.store(alloc, now, request, groups.as_slice()),
            Body::Fetch { max, specifiers } => {
                self.fetch(alloc, now, request, *max, specifiers.as_slice())
            }
        }
    }
}
