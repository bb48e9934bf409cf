//! What waits for a peer.

ghost use Rattle.std.specs.Prelude.{ℕ, ◌≡◌, ◌<◌, ◌^◌, [], unwrap_or, OnOk, OnErr, MatchOption};
ghost use Rattle.std.specs.Option.{option_copied, option_map};
ghost use Rattle.transaction_table.specs.Outboxes.{opened, behind, promoted, again_outbox, again_request};

use crate::RESEND_AFTER;
use crate::queue::Queue;
use reload_base::{Bytes, NoMemory};
use reload_ids::NodeId;
use std::alloc::Global;

/// A message, and the id of its transaction.
#[derive(Debug, Drop)]
pub struct Message {
    pub id: u64,
    pub bytes: Bytes,
}

/// The messages to one peer: the head, which was sent, and those that wait behind it.
#[derive(Debug, Drop)]
pub struct Outbox {
    pub head: Message,
    /// How many times the head was sent. The count ends at 255.
    pub sends: u8,
    /// When the head is sent again, in milliseconds.
    pub due: u64,
    pub waiting: Queue,
}

/// A message that was sent outside the outboxes.
#[derive(Debug, Drop)]
pub struct Request {
    pub peer: NodeId,
    pub message: Message,
    /// How many times it was sent. The count ends at 255.
    pub sends: u8,
    /// When it is sent again, in milliseconds.
    pub due: u64,
}

impl Outbox {
    /// An outbox with one message, which is sent now.
    pub fn new(alloc: Global, now: u64, head: Message) -> Outbox
        requires { now < 2 ^ 62 }
        ensures { result ≡ opened now head [] }
    {
        Outbox {
            head,
            sends: 1,
            due: now + RESEND_AFTER,
            waiting: Queue::new(alloc),
        }
    }

    /// The message that is sent when the head ends.
    pub fn next(&self) -> Option<&Message>
        ensures { (now : ℕ) → option_copied result ≡ option_map (λ o. o.head) (promoted now self.now) }
    {
        self.waiting.first()
    }

    /// Puts a message behind the others. After `NoMemory` the outbox is as before.
    pub fn push(&mut self, message: Message) -> Result<(), NoMemory>
        ensures ok { OnOk result (self.new ≡ behind message self.old) }
        ensures err { OnErr result (self.new ≡ self.old) }
    {
        self.waiting.push(message)
    }

    /// Ends the head where another message waits, which is sent now, and hands the ended one back.
    /// No memory is taken.
    pub fn promote(&mut self, now: u64) -> Option<Message>
        requires { now < 2 ^ 62 }
        ensures head { result ≡ option_map (λ _. self.old.head) (promoted now self.old) }
        ensures outbox { self.new ≡ unwrap_or (promoted now self.old) self.old }
    {
        let next = self.waiting.pop()?;
        self.sends = 1;
        self.due = now + RESEND_AFTER;
        Some(std::mem::replace(&mut self.head, next))
    }

    /// Takes the last message that waits out again. Where none waits, nothing changes. No memory
    /// is taken.
    pub fn pop_last(&mut self) -> Option<Message>
        ensures { MatchOption result ((self.old.waiting ≡ []) × (self.new ≡ self.old))
            (λ last. self.old ≡ behind last self.new) }
    {
        self.waiting.pop_last()
    }

    /// Sends the head again.
    pub fn repeat(&mut self, now: u64)
        requires { now < 2 ^ 62 }
        ensures { self.new ≡ again_outbox now self.old }
    {
        self.sends = self.sends.saturating_add(1);
        self.due = now + RESEND_AFTER;
    }
}

impl Request {
    /// Sends the message again.
    pub fn repeat(&mut self, now: u64)
        requires { now < 2 ^ 62 }
        ensures { self.new ≡ again_request now self.old }
    {
        self.sends = self.sends.saturating_add(1);
        self.due = now + RESEND_AFTER;
    }
}
