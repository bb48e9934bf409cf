//! One transaction, from its request to its answer.

ghost use Rattle.std.specs.Prelude.{◌≡◌, ◌<◌, ◌≤◌, ◌^◌};
ghost use Rattle.transaction_table.specs.Sends as sends;
ghost use Rattle.transaction_table.specs.Outboxes.{outstanding_of, message_of};

use crate::RESEND_AFTER;
use crate::again::Again;
use crate::outbox::Message;
use reload_base::Bytes;
use reload_ids::NodeId;

/// A transaction in one of its states. It is ended by one of its moves, and can't be let go
/// otherwise.
#[derive(Debug)]
pub struct Txn<S> {
    state: S,
    peer: NodeId,
    id: u64,
    message: Bytes,
    sends: u8,
    due: u64,
}

/// Its message wasn't sent yet.
#[derive(Clone, Copy, Debug)]
pub struct Queued;

/// Its message was sent, and waits for an answer.
#[derive(Clone, Copy, Debug)]
pub struct Outstanding;

/// It was answered.
#[derive(Clone, Copy, Debug)]
pub struct Answered;

/// It wasn't answered in time.
#[derive(Clone, Copy, Debug)]
pub struct TimedOut;

/// That a node left.
#[derive(Clone, Copy, Debug)]
pub struct Left {
    pub node: NodeId,
}

impl<S> Txn<S> {
    /// The node that is asked.
    pub fn peer(&self) -> NodeId
        ensures { result ≡ self.now.peer }
    {
        self.peer
    }

    /// The transaction id.
    pub fn id(&self) -> u64
        ensures { result ≡ self.now.id }
    {
        self.id
    }
}

impl Txn<Queued> {
    /// A transaction whose message is yet to be sent.
    pub fn new(peer: NodeId, id: u64, message: Bytes) -> Txn<Queued>
        ensures peer { result.peer ≡ peer }
        ensures id { result.id ≡ id }
        ensures message { result.message ≡ message }
    {
        Txn {
            state: Queued,
            peer,
            id,
            message,
            sends: 0,
            due: 0,
        }
    }

    /// The message is sent for the first time, at a time in milliseconds.
    pub fn send(self, now: u64) -> Txn<Outstanding>
        requires { now < 2 ^ 62 }
        ensures { result ≡ sends.sent now self }
    {
        let Txn {
            state: _,
            peer,
            id,
            message,
            sends: _,
            due: _,
        } = self;
        Txn {
            state: Outstanding,
            peer,
            id,
            message,
            sends: 1,
            due: now + RESEND_AFTER,
        }
    }

    /// The peer, and the message that is to be sent to it.
    pub(crate) fn into_message_of(self) -> (NodeId, Message)
        ensures { result ≡ (self.peer, message_of self) }
    {
        let Txn {
            state: _,
            peer,
            id,
            message,
            sends: _,
            due: _,
        } = self;
        (peer, Message { id, bytes: message })
    }

    /// Ends the transaction, whose peer left.
    pub fn drop_with(self, left: Left)
        requires { left.node ≡ self.peer }
    {
        let Txn {
            state: _,
            peer: _,
            id: _,
            message,
            sends: _,
            due: _,
        } = self;
        drop(message);
    }
}

impl Txn<Outstanding> {
    /// The transaction of a message that was sent.
    pub(crate) fn outstanding(
        peer: NodeId,
        message: Message,
        sends: u8,
        due: u64,
    ) -> Txn<Outstanding>
        ensures { result ≡ outstanding_of peer message sends due }
    {
        Txn {
            state: Outstanding,
            peer,
            id: message.id,
            message: message.bytes,
            sends,
            due,
        }
    }

    /// The time has come to send the message again: it is sent, or as many sends were made as the
    /// limit allows. The time is in milliseconds.
    pub fn resend(self, now: u64, limit: Option<u8>) -> Again
        requires time { now < 2 ^ 62 }
        requires due { self.due ≤ now }
        ensures { result ≡ sends.resent now limit self }
    {
        if limit.is_some_and(|limit| limit <= self.sends) {
            return Again::Over(self.timed_out());
        }
        Again::Sent(self.sent_again(now))
    }

    /// An answer came.
    pub fn answered(self) -> Txn<Answered>
        ensures { result ≡ sends.answered self }
    {
        self.moved(Answered)
    }

    /// No answer came in time.
    pub(crate) fn timed_out(self) -> Txn<TimedOut>
        ensures { result ≡ sends.timed_out self }
    {
        self.moved(TimedOut)
    }

    /// Ends the transaction, whose peer left.
    pub fn drop_with(self, left: Left)
        requires { left.node ≡ self.peer }
    {
        let Txn {
            state: _,
            peer: _,
            id: _,
            message,
            sends: _,
            due: _,
        } = self;
        drop(message);
    }

    /// The message is sent again, at a time in milliseconds.
    fn sent_again(self, now: u64) -> Txn<Outstanding>
        requires { now < 2 ^ 62 }
        ensures { result ≡ sends.sent_again now self }
    {
        let Txn {
            state,
            peer,
            id,
            message,
            sends,
            due: _,
        } = self;
        Txn {
            state,
            peer,
            id,
            message,
            sends: sends.saturating_add(1),
            due: now + RESEND_AFTER,
        }
    }

    fn moved<T>(self, state: T) -> Txn<T>
        ensures { result ≡ record {
          state = state;
          peer = self.peer;
          id = self.id;
          message = self.message;
          sends = self.sends;
          due = self.due;
        } }
    {
        let Txn {
            state: _,
            peer,
            id,
            message,
            sends,
            due,
        } = self;
        Txn {
            state,
            peer,
            id,
            message,
            sends,
            due,
        }
    }
}

impl Txn<Answered> {
    /// Ends the transaction, and hands its message back.
    pub fn into_message(self) -> Bytes
        ensures { result ≡ self.message }
    {
        let Txn {
            state: _,
            peer: _,
            id: _,
            message,
            sends: _,
            due: _,
        } = self;
        message
    }
}

impl Txn<TimedOut> {
    /// Ends the transaction, and hands its message back.
    pub fn into_message(self) -> Bytes
        ensures { result ≡ self.message }
    {
        let Txn {
            state: _,
            peer: _,
            id: _,
            message,
            sends: _,
            due: _,
        } = self;
        message
    }
}
