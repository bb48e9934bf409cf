//! The owner of resources.

ghost use Rattle.std.specs.Prelude.{ℕ, ◌<◌, ◌^◌, IfOk, IfSome};
ghost use Rattle.storage_model.specs.Records.{record_in};
ghost use Rattle.storage_model.specs.Laws.{IsWithin, IsSoundAsked};

use crate::config::configuration;
use crate::message::made;
use crate::plan::Mark;
use data_models::{Config, KindDef};
use forwarding_header::{Destination, Header, decode_header};
use kind_store::Shelf;
use message_askings::{asked_in, origin_of, read_request, rule_on};
use reload_base::NoMemory;
use reload_ids::{NodeId, ResourceId};
use security_block::StandIn;
use std::alloc::Global;
use std::marker::Model;
use storage_model::{Answer, Asked};
use wire_core::{Cursor, DecodeFault};

/// The most rulings of an owner, and the latest of its clocks in milliseconds.
const MOST: u64 = 0x1_0000_0000;

/// An owner of all resources: its configuration, its records, its clock in milliseconds, and how
/// often it ruled.
#[derive(Drop)]
pub struct Owner {
    config: Config,
    shelf: Shelf,
    clock: u64,
    rulings: u64,
}

impl Model for Owner {
    ghost use Rattle.std.specs.Prelude.{ℕ};
    ghost use Rattle.storage_model.specs.Records.{record_in};
    ghost use Rattle.storage_model.specs.Laws.{IsWithin};

    ghost Value = { ℕ };

    ghost view = { λ o. o.rulings };

    ghost invariant = { λ o. (r : ℕ) → IsWithin o.rulings (record_in o.shelf r) };
}

/// What is asked of the owner of a resource.
#[derive(Drop)]
struct Question {
    resource: ResourceId,
    origin: NodeId,
    id: u64,
    asked: Asked,
}

/// The resource that a message is for.
fn resource_in(header: &Header) -> Option<ResourceId> {
    match header.dest.as_slice().first() {
        Some(Destination::Resource(resource)) => Some(*resource),
        _ => None,
    }
}

/// What is asked behind a header.
fn question_behind(
    alloc: Global,
    config: &Config,
    header: &Header,
    behind: &[u8],
) -> Result<Option<Question>, NoMemory>
    ensures { IfOk result (λ q. IfSome q (λ q. IsSoundAsked config.now q.asked)) }
{
    let Some(resource) = resource_in(header) else {
        return Ok(None);
    };
    let Ok(code) = Cursor::new(behind, 0).take_u16() else {
        return Ok(None);
    };
    let signer = StandIn::new(alloc);
    let behind = read_request(alloc, config, &signer, header, code, behind)?;
    let origin = origin_of(&behind);
    let asked = asked_in(alloc, config, &signer, resource, header, behind)?;
    Ok(Some(Question {
        resource,
        origin,
        id: header.id,
        asked,
    }))
}

/// What a message asks of the owner of a resource.
fn question_of(alloc: Global, config: &Config, message: &[u8]) -> Result<Option<Question>, NoMemory>
    ensures { IfOk result (λ q. IfSome q (λ q. IsSoundAsked config.now q.asked)) }
{
    match decode_header(alloc, message) {
        Ok((header, place)) => {
            let (_, behind) = message.split_at(place);
            question_behind(alloc, config, &header, behind)
        }
        Err(DecodeFault::Bad(_)) => Ok(None),
        Err(DecodeFault::NoMemory) => Err(NoMemory),
    }
}

/// The error code of an answer, or 0.
fn code_of(answer: &Answer) -> u16 {
    match answer {
        Answer::Decided { code, .. } => *code,
        Answer::Found { .. } | Answer::Joined => 0,
    }
}

/// The answer to a question. No record changed more often than there were rulings.
fn ruled(
    alloc: Global,
    shelf: &mut Shelf,
    rulings: &mut u64,
    config: &Config,
    now: u64,
    q: &Question,
) -> Result<Answer, NoMemory>
    requires clock { now < 2 ^ 62 }
    requires few { rulings.old < 2 ^ 62 }
    requires within { (r : ℕ) → IsWithin rulings.old (record_in shelf.old r) }
    requires sound { IsSoundAsked config.now q.now.asked }
    ensures { (r : ℕ) → IsWithin rulings.new (record_in shelf.new r) }
{
    *rulings += 1;
    let ruling = rule_on(
        alloc, shelf, config, now, q.resource, q.origin, q.id, &q.asked,
    )?;
    Ok(ruling.answer)
}

impl Owner {
    /// An owner of resources without records, at the clock 0.
    pub fn new(alloc: Global, kinds: &[KindDef]) -> Result<Owner, NoMemory> {
        Ok(Owner {
            config: configuration(alloc, kinds)?,
            shelf: Shelf::new(alloc),
            clock: 0,
            rulings: 0,
        })
    }

    /// So many milliseconds pass.
    pub fn wait(&mut self, ms: u32) {
        self.clock = self.clock.saturating_add(u64::from(ms));
    }

    /// The answer to a message. `None` where it is no message for a resource.
    fn hear(&mut self, alloc: Global, message: &[u8]) -> Result<Option<Answer>, NoMemory> {
        let Some(question) = question_of(alloc, &self.config, message)? else {
            return Ok(None);
        };
        if self.rulings >= MOST || self.clock >= MOST {
            return Ok(None);
        }
        let answer = ruled(
            alloc,
            &mut self.shelf,
            &mut self.rulings,
            &self.config,
            self.clock,
            &question,
        )?;
        Ok(Some(answer))
    }

    /// The answer to a request in words. `None` where they say none that has a spelling.
    pub fn whole_answer(
        &mut self,
        alloc: Global,
        marks: &[Mark],
        line: &[u8],
    ) -> Result<Option<Answer>, NoMemory> {
        match made(alloc, self.rulings, marks, line)? {
            Some(message) => self.hear(alloc, message.as_slice()),
            None => Ok(None),
        }
    }

    /// The code that is answered to a request in words, or 0 where it isn't refused. `None` where
    /// they say none that has a spelling.
    pub fn answer(
        &mut self,
        alloc: Global,
        marks: &[Mark],
        line: &str,
    ) -> Result<Option<u16>, NoMemory> {
        self.answer_line(alloc, marks, line.as_bytes())
    }

    /// The same.
    pub(crate) fn answer_line(
        &mut self,
        alloc: Global,
        marks: &[Mark],
        line: &[u8],
    ) -> Result<Option<u16>, NoMemory> {
        let answer = self.whole_answer(alloc, marks, line)?;
        Ok(answer.map(|answer| code_of(&answer)))
    }
}
