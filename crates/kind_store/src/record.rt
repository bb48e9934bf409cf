//! What a peer stores for one resource.

ghost use Rattle.std.specs.Prelude.{◌≡◌, ◌≤◌, ◌<◌, ◌^◌, [], ◌∷◌, ◌++◌, length, is_some, unwrap_or, IfOk, OnOk, OnErr};
ghost use Rattle.storage_model.specs.declared.limits.TheConstants.{MAX_WEIGHT, MAX_KEPT};
ghost use Rattle.storage_model.specs.Records.{empty_record, weight};
ghost use Rattle.storage_model.specs.Decisions.{with_joined};
ghost use Rattle.std.specs.FinMap.{insert};
ghost use Rattle.record_state.specs.Written.{Follows, kind_written, kind_records};
ghost use Rattle.kind_store.specs.Undoing.{record_undone, IsRecordUndo};

use crate::undo::RecordUndo;
use record_state::{KeptAnswers, Kinds};
use reload_base::{List, NoMemory, TryCopy};
use std::alloc::Global;
use std::marker::Model;
use storage_model::{Kept, KindRecord};

/// What a peer stores for one resource. Contracts see the record.
#[derive(Debug, Drop)]
pub struct Record {
    alloc: Global,
    pub(crate) turn: u64,
    pub(crate) joined: bool,
    pub(crate) kinds: Kinds,
    pub(crate) kept: KeptAnswers,
}

impl Model for Record {
    ghost use Rattle.std.specs.Prelude.{◌≤◌};
    ghost use Rattle.storage_model.specs.declared.limits.TheConstants.{MAX_WEIGHT};
    ghost use Rattle.storage_model.specs.Records as records;
    ghost use Rattle.storage_model.specs.Records.{weight};
    ghost use Rattle.kind_store.specs.Codes.{record_code};

    ghost Value = { records.Record };

    ghost coded = { record_code };

    ghost view = { λ r. record
        { turn = r.turn; joined = r.joined; kinds = r.kinds; kept = r.kept } };

    ghost invariant = { λ r. weight r.kinds ≤ MAX_WEIGHT };
}

impl Record {
    /// The record of a resource that nobody wrote. It takes no memory yet.
    pub(crate) fn empty(alloc: Global) -> Record
        ensures { result ≡ empty_record }
    {
        Record {
            alloc,
            turn: 0,
            joined: false,
            kinds: Kinds::new(alloc),
            kept: KeptAnswers::new(alloc),
        }
    }

    /// A record without kinds and kept answers. It takes no memory yet.
    pub fn new(alloc: Global, turn: u64, joined: bool) -> Record
        ensures { result ≡ record empty_record { turn = turn; joined = joined } }
    {
        let mut given = Record::empty(alloc);
        given.turn = turn;
        given.joined = joined;
        given
    }

    /// How often the record changed.
    pub fn turn(&self) -> u64
        ensures { result ≡ self.now.turn }
    {
        self.turn
    }

    /// Whether a peer joined with this resource as its Node-ID.
    pub fn joined(&self) -> bool
        ensures { result ≡ self.now.joined }
    {
        self.joined
    }

    /// Adds an answer behind those that are kept, of which there are fewer than [`MAX_KEPT`]. After
    /// `NoMemory` the record is as before.
    #[tactic(auto, using(record_state::proofs::Rings::kept_within))]
    pub fn push_kept(&mut self, answer: Kept) -> Result<(), NoMemory>
        requires { length self.old.kept < MAX_KEPT }
        ensures ok { OnOk result (self.new
            ≡ record self.old { kept = self.old.kept ++ answer ∷ [] }) }
        ensures err { OnErr result (self.new ≡ self.old) }
    {
        self.kept.push(answer)?;
        Ok(())
    }

    /// The answers that are kept, the oldest first.
    pub fn kept(&self, alloc: Global) -> Result<List<Kept>, NoMemory>
        ensures { IfOk result (λ all. all ≡ self.now.kept) }
    {
        self.kept.list(alloc)
    }

    /// Adds a kind whose id is over those that are there, with its slots by rising key, where the
    /// record then weighs at most `MAX_WEIGHT`. The values move. After `NoMemory` the record is as
    /// before.
    pub fn push_kind(&mut self, kind: KindRecord) -> Result<(), NoMemory>
        requires follows { Follows self.old.kinds kind }
        requires light { weight (insert self.old.kinds kind.kind (kind_written kind)) ≤ MAX_WEIGHT }
        ensures ok { OnOk result (self.new ≡ record self.old
            { kinds = insert self.old.kinds kind.kind (kind_written kind) }) }
        ensures listed { OnOk result (
            kind_records self.new.kinds ≡ kind_records self.old.kinds ++ kind ∷ []) }
        ensures err { OnErr result (self.new ≡ self.old) }
    {
        self.kinds.push(self.alloc, kind)
    }

    /// The kinds by rising id, each with its slots by rising key: after any calls of `push_kind`,
    /// what was pushed, in order.
    pub fn kinds(&self, alloc: Global) -> Result<List<KindRecord>, NoMemory>
        ensures { IfOk result (λ all. all ≡ kind_records self.now.kinds) }
    {
        self.kinds.records(alloc)
    }

    /// The kinds as they are held.
    pub fn kinds_held(&self) -> &Kinds
        ensures { result.now ≡ self.now.kinds }
    {
        &self.kinds
    }

    /// What the kinds weigh, in this profile's bytes: at most `MAX_WEIGHT`.
    pub(crate) fn weight(&self) -> u64
        ensures value { result ≡ weight self.now.kinds }
        ensures small { result ≤ MAX_WEIGHT }
    {
        self.kinds.weight() as u64
    }

    /// Notes that a peer joined: true the first time, when the turn rises. It says what takes that
    /// back.
    #[tactic(auto, unfolding(storage_model::specs::Decisions::with_joined))]
    pub(crate) fn set_joined(&mut self) -> (bool, RecordUndo)
        requires { self.old.turn < 2 ^ 63 }
        ensures first { result.0 ≡ is_some (with_joined self.old) }
        ensures record { self.new ≡ unwrap_or (with_joined self.old) self.old }
        ensures undo { IsRecordUndo result.1 self.new self.old }
    {
        if self.joined {
            return (false, RecordUndo::Nothing);
        }
        self.joined = true;
        self.turn += 1;
        (true, RecordUndo::Joined)
    }

    /// Takes its last change back. No memory is taken.
    #[tactic(auto, unfolding(crate::specs::Undoing::record_undone))]
    pub(crate) fn undo(&mut self, undo: RecordUndo)
        requires { weight (record_undone undo self.old).kinds ≤ MAX_WEIGHT }
        ensures { self.new ≡ record_undone undo self.old }
    {
        match undo {
            RecordUndo::Nothing => {}
            RecordUndo::Noted { kinds, oldest } => {
                self.kinds.undo_all(self.alloc, kinds);
                self.kept.take_back(oldest);
                self.turn = self.turn.saturating_sub(1);
            }
            RecordUndo::Joined => {
                self.joined = false;
                self.turn = self.turn.saturating_sub(1);
            }
        }
    }
}

impl TryCopy for Record {
    fn copy(&self, alloc: Global) -> Result<Record, NoMemory> {
        Ok(Record {
            alloc,
            turn: self.turn,
            joined: self.joined,
            kinds: self.kinds.copy(alloc)?,
            kept: self.kept.copy(alloc)?,
        })
    }
}
