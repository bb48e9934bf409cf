//! Requests that are drawn.

use crate::requests::{
    Body, Group, KEYS, Keys, Named, RESOURCES, Request, Specifier, UNKNOWN, USER_KINDS, Value,
    kind_at, own_key,
};
use access_policy::Policy;
use data_models::{DataModel, KindDef};
use reload_base::NoMemory;
use std::alloc::Global;
use worked_requests::Asker;

/// Numbers by a linear congruence, and a time that rises with each Store.
#[derive(Drop)]
pub struct Draws {
    seed: u64,
    time: u64,
    transaction: u64,
}

/// Whether an asker has one slot of a kind at the most.
fn has_one_slot(kind: KindDef) -> bool {
    kind.model == DataModel::Single || kind.policy == Policy::UserNodeMatch
}

impl Draws {
    pub fn new(seed: u64) -> Draws {
        Draws {
            seed,
            time: 0,
            transaction: 100_000,
        }
    }

    /// A number below `end`.
    pub fn draw(&mut self, end: u64) -> u64 {
        self.seed = self
            .seed
            .wrapping_mul(6_364_136_223_846_793_005)
            .wrapping_add(1_442_695_040_888_963_407);
        (self.seed >> 33).checked_rem(end).unwrap_or(0)
    }

    pub fn pick(&mut self, end: usize) -> usize {
        self.draw(end as u64) as usize
    }

    /// Once in so many times.
    pub fn once_in(&mut self, times: u64) -> bool {
        self.draw(times) == 0
    }

    /// A client and a resource of its user.
    fn user_place(&mut self) -> (Asker, usize) {
        match self.draw(4) {
            0 => (Asker::SecondAbc, 0),
            1 => (Asker::Test, 1),
            _ => (Asker::Abc, 0),
        }
    }

    /// An asker and a resource: mostly ones that a kind's policy permits.
    fn place(&mut self, kind: usize) -> (Asker, usize) {
        let (asker, resource) = match kind_at(kind).policy {
            Policy::UserMatch | Policy::UserNodeMatch => self.user_place(),
            Policy::NodeMatch => (Asker::Abc, 3),
            Policy::NodeMultiple => (Asker::Abc, self.pick(3).wrapping_add(4)),
        };
        match self.draw(12) {
            0 => (asker, self.pick(RESOURCES.len())),
            1 => (Asker::SecondAbc, resource),
            _ => (asker, resource),
        }
    }

    /// A key of a dictionary: mostly one that a kind's policy permits an asker.
    fn name(&mut self, policy: Policy, asker: Asker) -> usize {
        if policy == Policy::UserNodeMatch && !self.once_in(6) {
            own_key(asker)
        } else {
            self.pick(KEYS.len())
        }
    }

    fn key(&mut self, kind: KindDef, asker: Asker) -> Option<usize> {
        match kind.model {
            DataModel::Single => Some(0),
            DataModel::Array if self.once_in(2) => None,
            DataModel::Array => Some(self.pick(5)),
            DataModel::Dictionary => Some(self.name(kind.policy, asker)),
        }
    }

    fn length(&mut self, max: u32) -> Option<usize> {
        match self.draw(30) {
            0 => Some(self.pick(50)),
            1..=2 if max > 100_000 => Some(self.pick(20_000).wrapping_add(50_000)),
            3..=11 => None,
            _ => Some(self.pick(20)),
        }
    }

    fn value(&mut self, kind: usize, asker: Asker) -> Value {
        let kind = kind_at(kind);
        Value {
            key: self.key(kind, asker),
            time: self.time.wrapping_add(self.draw(4)),
            lifetime: self.draw(6),
            length: self.length(kind.max_size),
        }
    }

    /// The place of a kind below `end`, or once in a while of one that no configuration has.
    fn kind(&mut self, end: usize) -> usize {
        if self.once_in(40) {
            UNKNOWN
        } else {
            self.pick(end)
        }
    }

    fn generation(&mut self) -> u64 {
        if self.once_in(6) { self.draw(8) } else { 0 }
    }

    fn group(&mut self, alloc: Global, kind: usize, asker: Asker) -> Result<Group, NoMemory> {
        let mut values = Vec::new(alloc);
        values.push(self.value(kind, asker))?;
        let alone = has_one_slot(kind_at(kind)) && !self.once_in(20);
        for _ in 0..3 {
            if !alone && self.once_in(3) {
                values.push(self.value(kind, asker))?;
            }
        }
        Ok(Group {
            kind,
            generation: self.generation(),
            values,
        })
    }

    /// A Store of a kind, and of others of a user's own.
    fn store(&mut self, alloc: Global, first: usize, asker: Asker) -> Result<Body, NoMemory> {
        self.time = self.time.wrapping_add(1);
        let mut groups = Vec::new(alloc);
        groups.push(self.group(alloc, first, asker)?)?;
        for _ in 0..2 {
            if self.once_in(4) {
                let kind = self.kind(USER_KINDS);
                groups.push(self.group(alloc, kind, asker)?)?;
            }
        }
        Ok(Body::Store(groups))
    }

    fn ranges(&mut self, alloc: Global) -> Result<Keys, NoMemory> {
        let mut ranges = Vec::new(alloc);
        let count = self.pick(3).wrapping_add(1);
        for _ in 0..count {
            let first = self.pick(5);
            let last = if self.once_in(10) {
                self.pick(5)
            } else {
                first.wrapping_add(self.pick(5))
            };
            ranges.push((first, last))?;
        }
        Ok(Keys::Ranges(ranges))
    }

    fn names(&mut self, alloc: Global) -> Result<Keys, NoMemory> {
        let mut names = Vec::new(alloc);
        let count = self.pick(4);
        for _ in 0..count {
            names.push(self.pick(KEYS.len()))?;
        }
        Ok(Keys::Names(names))
    }

    fn specifier(&mut self, alloc: Global, kind: usize) -> Result<Specifier, NoMemory> {
        let keys = match kind_at(kind).model {
            DataModel::Single => Keys::Whole,
            DataModel::Array => self.ranges(alloc)?,
            DataModel::Dictionary => self.names(alloc)?,
        };
        Ok(Specifier {
            kind,
            generation: self.generation(),
            keys,
        })
    }

    /// A Fetch of a kind, and of others of a user's own.
    fn fetch(&mut self, alloc: Global, first: usize) -> Result<Body, NoMemory> {
        let mut specifiers = Vec::new(alloc);
        specifiers.push(self.specifier(alloc, first)?)?;
        for _ in 0..2 {
            if self.once_in(3) {
                let kind = self.kind(USER_KINDS);
                specifiers.push(self.specifier(alloc, kind)?)?;
            }
        }
        let max = if self.once_in(3) {
            self.draw(300).min(300) as u32
        } else {
            0
        };
        Ok(Body::Fetch { max, specifiers })
    }

    /// A new request.
    pub fn request(&mut self, alloc: Global) -> Result<Request, NoMemory> {
        let first = self.kind(UNKNOWN);
        let (asker, resource) = self.place(first);
        self.transaction = self.transaction.wrapping_add(1);
        let named = match self.draw(60) {
            0 => Named::Older,
            1 => Named::Newer,
            _ => Named::Same,
        };
        let body = if self.once_in(3) {
            self.fetch(alloc, first)?
        } else {
            self.store(alloc, first, asker)?
        };
        Ok(Request {
            asker,
            resource,
            transaction: self.transaction,
            named,
            critical: self.once_in(40),
            spoilt: self.once_in(40),
            misplaced: self.once_in(60),
            body,
        })
    }
}
