//! Messages in a queue.

ghost use Rattle.std.specs.Prelude.{◌≡◌, List, [], ◌∷◌, ◌++◌, OnOk, OnErr, MatchOption};
ghost use Rattle.std.specs.Option.{option_copied};

use crate::outbox::Message;
use reload_base::NoMemory;
use std::alloc::Global;
use std::collections::VecDeque;
use std::marker::Model;

/// Messages in order. Contracts see the list.
#[derive(Debug, Drop)]
pub struct Queue {
    items: VecDeque<Message>,
}

impl Model for Queue {
    ghost use Rattle.std.specs.Prelude.{List};
    ghost use Rattle.std.specs.Coded.{coded_list};
    ghost use Rattle.transaction_table.specs.declared.outbox.Message.{Message};
    ghost use Rattle.transaction_table.specs.contracts.outbox.Message as of_message;

    ghost Value = { List Message };

    ghost coded = { coded_list of_message.the_row.coded };

    ghost view = { λ q. q.items.items };
}

impl Queue {
    /// No messages.
    pub fn new(alloc: Global) -> Queue
        ensures { result ≡ [] }
    {
        Queue {
            items: VecDeque::new(alloc),
        }
    }

    /// Adds a message at the end. After `NoMemory` the queue is as before.
    pub fn push(&mut self, message: Message) -> Result<(), NoMemory>
        ensures ok { OnOk result (self.new ≡ self.old ++ message ∷ []) }
        ensures err { OnErr result (self.new ≡ self.old) }
    {
        self.items.push_back(message)?;
        Ok(())
    }

    /// The first message.
    pub fn first(&self) -> Option<&Message>
        ensures { MatchOption (option_copied result) (self.now ≡ [])
            (λ first. (rest : List Message) × (self.now ≡ first ∷ rest)) }
    {
        self.items.front()
    }

    /// Takes the first message out, without memory.
    pub fn pop(&mut self) -> Option<Message>
        ensures { MatchOption result ((self.old ≡ []) × (self.new ≡ []))
            (λ first. self.old ≡ first ∷ self.new) }
    {
        self.items.pop_front()
    }

    /// Takes the last message out, without memory.
    pub fn pop_last(&mut self) -> Option<Message>
        ensures { MatchOption result ((self.old ≡ []) × (self.new ≡ []))
            (λ last. self.old ≡ self.new ++ last ∷ []) }
    {
        self.items.pop_back()
    }
}
