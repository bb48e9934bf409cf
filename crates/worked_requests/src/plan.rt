//! What a request is beside its words.

use crate::asker::Asker;
use crate::config::SEQUENCE;
use text_words::{behind, decimal_of};

/// In what a request differs from one that a client of the user `abc` signs, that names the owner's
/// configuration, and that is the first of its transaction.
#[derive(Clone, Copy, Debug)]
pub enum Mark {
    /// Who asks.
    By(Asker),
    /// The transaction id.
    Transaction(u64),
    /// The number of the configuration that it names.
    Sequence(u16),
    /// The most bytes of an answer's contents.
    MaxResponse(u32),
    /// It has an unknown critical extension.
    Critical,
    /// It has an unknown extension that isn't critical.
    Extended,
    /// A byte of the message's signature is another.
    Spoilt,
    /// The values of a Store aren't signed.
    UnsignedValues,
    /// It is to store a copy.
    Replica,
    /// Its body names another resource than its header does.
    Misplaced,
}

/// What a request is beside its words.
#[derive(Clone, Copy)]
pub(crate) struct Plan {
    pub(crate) asker: Asker,
    pub(crate) id: u64,
    pub(crate) sequence: u16,
    pub(crate) max_response: u32,
    /// Whether its extension is critical, where it has one.
    pub(crate) extension: Option<bool>,
    pub(crate) spoilt: bool,
    pub(crate) signs_values: bool,
    pub(crate) replica_number: u8,
    pub(crate) misplaced: bool,
}

impl Plan {
    /// A request with a transaction id, where no mark says another, and with these marks.
    pub(crate) fn new(id: u64, marks: &[Mark]) -> Plan {
        let mut plan = Plan {
            asker: Asker::Abc,
            id,
            sequence: SEQUENCE,
            max_response: 0,
            extension: None,
            spoilt: false,
            signs_values: true,
            replica_number: 0,
            misplaced: false,
        };
        for mark in marks {
            plan = plan.marked(*mark);
        }
        plan
    }

    fn marked(self, mark: Mark) -> Plan {
        match mark {
            Mark::By(asker) => Plan { asker, ..self },
            Mark::Transaction(id) => Plan { id, ..self },
            Mark::Sequence(sequence) => Plan { sequence, ..self },
            Mark::MaxResponse(max_response) => Plan {
                max_response,
                ..self
            },
            Mark::Critical => Plan {
                extension: Some(true),
                ..self
            },
            Mark::Extended => Plan {
                extension: Some(false),
                ..self
            },
            Mark::Spoilt => Plan {
                spoilt: true,
                ..self
            },
            Mark::UnsignedValues => Plan {
                signs_values: false,
                ..self
            },
            Mark::Replica => Plan {
                replica_number: 1,
                ..self
            },
            Mark::Misplaced => Plan {
                misplaced: true,
                ..self
            },
        }
    }
}

/// The mark of a word that stands for one alone.
fn lone_mark(word: &[u8]) -> Option<Mark> {
    if word == b"older".as_slice() {
        Some(Mark::Sequence(SEQUENCE - 1))
    } else if word == b"newer".as_slice() {
        Some(Mark::Sequence(SEQUENCE + 1))
    } else if word == b"critical".as_slice() {
        Some(Mark::Critical)
    } else if word == b"extended".as_slice() {
        Some(Mark::Extended)
    } else if word == b"spoilt".as_slice() {
        Some(Mark::Spoilt)
    } else if word == b"unsigned-values".as_slice() {
        Some(Mark::UnsignedValues)
    } else if word == b"replica".as_slice() {
        Some(Mark::Replica)
    } else if word == b"misplaced".as_slice() {
        Some(Mark::Misplaced)
    } else {
        None
    }
}

/// The mark of a word `by-..`.
fn asker_mark(word: &[u8]) -> Option<Mark> {
    if word == b"by-second-abc".as_slice() {
        Some(Mark::By(Asker::SecondAbc))
    } else if word == b"by-test".as_slice() {
        Some(Mark::By(Asker::Test))
    } else if word == b"by-peer".as_slice() {
        Some(Mark::By(Asker::Peer))
    } else {
        None
    }
}

/// The mark of a word `id=N` or `max=N`.
fn numbered_mark(word: &[u8]) -> Option<Mark> {
    match behind(b"id=", word) {
        Some(digits) => Some(Mark::Transaction(decimal_of(u64::MAX, digits)?)),
        None => {
            let max = decimal_of(u64::from(u32::MAX), behind(b"max=", word)?)?;
            Some(Mark::MaxResponse(max as u32))
        }
    }
}

/// The mark that a word stands for.
pub(crate) fn mark_of(word: &[u8]) -> Option<Mark> {
    lone_mark(word).or(asker_mark(word)).or(numbered_mark(word))
}
