//! The answers that a record keeps.

ghost use Rattle.std.specs.Prelude.{◌≡◌, ◌+◌, ◌<◌, ◌≤◌, ◌⊎◌, [], ◌∷◌, ◌++◌, length, IfOk, OnOk, OnErr};
ghost use Rattle.std.specs.Option.{option_copied};
ghost use Rattle.circular_buffer.specs.Buffer.{buffer};
ghost use Rattle.reload_base.specs.Lists.{pushed_within};
ghost use Rattle.storage_model.specs.declared.limits.TheConstants.{MAX_KEPT};
ghost use Rattle.storage_model.specs.Records.{kept_for};
ghost use Rattle.record_state.specs.Rings.{taken_back};

use circular_buffer::HeapCircularBuffer;
use reload_base::{List, NoMemory, TryCopy};
use std::alloc::Global;
use std::marker::Model;
use storage_model::{Kept, MAX_KEPT};

/// The answers that a ring has room for at first.
const FEW: usize = 4;

/// The answers that a record keeps, the oldest first: at most [`MAX_KEPT`], in a ring that grows
/// until it has room for so many. Contracts see their list.
#[derive(Debug, Drop)]
pub struct KeptAnswers {
    alloc: Global,
    ring: Option<HeapCircularBuffer<Kept>>,
}

impl Model for KeptAnswers {
    ghost use Rattle.std.specs.Prelude.{List};
    ghost use Rattle.std.specs.Coded.{coded_list};
    ghost use Rattle.storage_model.specs.declared.record.Kept.{Kept};
    ghost use Rattle.storage_model.specs.contracts.record.Kept as of_kept;
    ghost use Rattle.record_state.specs.Rings.{kept_in, IsWithin};

    ghost Value = { List Kept };

    ghost coded = { coded_list of_kept.the_row.coded };

    ghost view = { λ k. kept_in k.ring };

    ghost invariant = { λ k. IsWithin k.ring };
}

/// The room of a ring that is full, once it has grown.
fn grown(capacity: usize) -> usize
    requires { capacity < MAX_KEPT }
    ensures more { capacity < result }
    ensures within { result ≤ MAX_KEPT }
{
    (2 * capacity).max(FEW).min(MAX_KEPT)
}

/// Finds memory for one more answer, unless there is room for all that are kept.
fn make_room(ring: &mut HeapCircularBuffer<Kept>) -> Result<(), NoMemory>
    requires { ring.old.capacity ≤ MAX_KEPT }
    ensures items { ring.new.items ≡ ring.old.items }
    ensures within { ring.new.capacity ≤ MAX_KEPT }
    ensures room { OnOk result
        ((length ring.new.items < ring.new.capacity) ⊎ (ring.new.capacity ≡ MAX_KEPT)) }
{
    let capacity = ring.capacity();
    if ring.len() < capacity || capacity == MAX_KEPT {
        return Ok(());
    }
    ring.resize(grown(capacity))?;
    Ok(())
}

/// Adds an answer at the end of a ring with room for it.
#[tactic(auto, using(crate::proofs::Rings::has_room))]
fn append(ring: &mut HeapCircularBuffer<Kept>, answer: Kept)
    requires { length ring.old.items < ring.old.capacity }
    ensures { ring.new ≡ buffer (ring.old.items ++ answer ∷ []) ring.old.capacity }
{
    let _oldest = ring.push_back(answer);
}

/// Adds an answer at the end of a ring, in place of the oldest where all room is taken, and hands
/// that back.
#[tactic(auto, using(crate::proofs::Rings::kept_last, crate::proofs::Rings::last_taken))]
fn add(ring: &mut HeapCircularBuffer<Kept>, answer: Kept) -> Option<Kept>
    requires within { ring.old.capacity ≤ MAX_KEPT }
    requires room { (length ring.old.items < ring.old.capacity) ⊎ (ring.old.capacity ≡ MAX_KEPT) }
    ensures items { ring.new.items ≡ pushed_within MAX_KEPT ring.old.items answer }
    ensures oldest { taken_back result (pushed_within MAX_KEPT ring.old.items answer)
        ≡ ring.old.items }
    ensures within { ring.new.capacity ≤ MAX_KEPT }
{
    let _capacity = ring.capacity();
    ring.push_back(answer)
}

/// Keeps an answer in a ring, and hands back the oldest, where it leaves. After `NoMemory` its
/// answers are as before.
fn keep(ring: &mut HeapCircularBuffer<Kept>, answer: Kept) -> Result<Option<Kept>, NoMemory>
    requires { ring.old.capacity ≤ MAX_KEPT }
    ensures ok { OnOk result (ring.new.items ≡ pushed_within MAX_KEPT ring.old.items answer) }
    ensures oldest { IfOk result (λ oldest. taken_back oldest ring.new.items ≡ ring.old.items) }
    ensures err { OnErr result (ring.new.items ≡ ring.old.items) }
    ensures within { ring.new.capacity ≤ MAX_KEPT }
{
    make_room(ring)?;
    Ok(add(ring, answer))
}

/// Takes the last answer of a ring back, and puts the oldest before the others again, where it
/// left.
#[tactic(auto, unfolding(crate::specs::Rings::taken_back))]
fn drop_last(ring: &mut HeapCircularBuffer<Kept>, oldest: Option<Kept>)
    requires { ring.old.capacity ≤ MAX_KEPT }
    ensures items { ring.new.items ≡ taken_back oldest ring.old.items }
    ensures within { ring.new.capacity ≤ MAX_KEPT }
{
    let _capacity = ring.capacity();
    if ring.pop_back().is_none() {
        return;
    }
    if let Some(first) = oldest {
        ring.push_front(first);
    }
}

/// A ring with one answer.
fn ring_of(alloc: Global, answer: Kept) -> Result<HeapCircularBuffer<Kept>, NoMemory>
    ensures { IfOk result (λ ring. ring ≡ buffer (answer ∷ []) FEW) }
{
    let mut ring = HeapCircularBuffer::with_capacity(alloc, FEW)?;
    append(&mut ring, answer);
    Ok(ring)
}

/// The answer in a ring for an origin and a transaction id.
#[tactic(auto, unfolding(storage_model::specs::Records::kept_for))]
fn answer_in(ring: &HeapCircularBuffer<Kept>, origin: u128, id: u64) -> Option<&Kept>
    ensures { option_copied result ≡ kept_for ring.now.items origin id }
{
    ring.iter()
        .find(|answer| answer.origin.0 == origin && answer.id == id)
}

/// Adds copies of answers to a list.
fn extend_by_copies(alloc: Global, list: &mut List<Kept>, answers: &[Kept]) -> Result<(), NoMemory>
    ensures { OnOk result (list.new ≡ list.old ++ answers.now) }
{
    for answer in answers {
        list.push(answer.copy(alloc)?)?;
    }
    Ok(())
}

/// Copies of the answers in a ring, in their order.
fn copies_in(alloc: Global, ring: &HeapCircularBuffer<Kept>) -> Result<List<Kept>, NoMemory>
    ensures { IfOk result (λ list. list ≡ ring.now.items) }
{
    let mut list = List::new(alloc);
    list.reserve(ring.len())?;
    let (front, back) = ring.as_slices();
    extend_by_copies(alloc, &mut list, front)?;
    extend_by_copies(alloc, &mut list, back)?;
    Ok(list)
}

impl KeptAnswers {
    /// No answers, which take no memory yet.
    pub fn new(alloc: Global) -> KeptAnswers
        ensures { result ≡ [] }
    {
        KeptAnswers { alloc, ring: None }
    }

    /// Keeps an answer, in place of the oldest of [`MAX_KEPT`], which is handed back. After
    /// `NoMemory` all is as before.
    #[tactic(auto, using(crate::proofs::Rings::first_kept, crate::proofs::Rings::first_taken))]
    pub fn push(&mut self, answer: Kept) -> Result<Option<Kept>, NoMemory>
        ensures ok { OnOk result (self.new ≡ pushed_within MAX_KEPT self.old answer) }
        ensures oldest { IfOk result (λ oldest. taken_back oldest self.new ≡ self.old) }
        ensures err { OnErr result (self.new ≡ self.old) }
    {
        match &mut self.ring {
            Some(ring) => keep(ring, answer),
            None => {
                self.ring = Some(ring_of(self.alloc, answer)?);
                Ok(None)
            }
        }
    }

    /// Takes the last answer back, with the oldest that left for it, if one did. No memory is
    /// taken.
    #[tactic(auto, unfolding(crate::specs::Rings::taken_back))]
    pub fn take_back(&mut self, oldest: Option<Kept>)
        ensures { self.new ≡ taken_back oldest self.old }
    {
        match &mut self.ring {
            Some(ring) => drop_last(ring, oldest),
            None => {}
        }
    }

    /// The answer that is kept for an origin and a transaction id.
    #[tactic(auto, unfolding(storage_model::specs::Records::kept_for))]
    pub fn answer_to(&self, origin: u128, id: u64) -> Option<&Kept>
        ensures { option_copied result ≡ kept_for self.now origin id }
    {
        match &self.ring {
            Some(ring) => answer_in(ring, origin, id),
            None => None,
        }
    }

    /// Copies of the answers, the oldest first.
    pub fn list(&self, alloc: Global) -> Result<List<Kept>, NoMemory>
        ensures { IfOk result (λ list. list ≡ self.now) }
    {
        match &self.ring {
            Some(ring) => copies_in(alloc, ring),
            None => Ok(List::new(alloc)),
        }
    }
}

/// Adds copies of answers at the end of a ring with room for them.
fn append_copies(
    alloc: Global,
    ring: &mut HeapCircularBuffer<Kept>,
    answers: &[Kept],
) -> Result<(), NoMemory>
    requires { length ring.old.items + length answers.now ≤ ring.old.capacity }
    ensures { OnOk result (ring.new ≡ buffer (ring.old.items ++ answers.now) ring.old.capacity) }
{
    for answer in answers {
        append(ring, answer.copy(alloc)?);
    }
    Ok(())
}

/// A copy of a ring.
fn copy_of(
    alloc: Global,
    ring: &HeapCircularBuffer<Kept>,
) -> Result<HeapCircularBuffer<Kept>, NoMemory>
    ensures { IfOk result (λ copy. copy ≡ ring.now) }
{
    let mut copy = HeapCircularBuffer::with_capacity(alloc, ring.capacity())?;
    let (front, back) = ring.as_slices();
    append_copies(alloc, &mut copy, front)?;
    append_copies(alloc, &mut copy, back)?;
    Ok(copy)
}

impl TryCopy for KeptAnswers {
    fn copy(&self, alloc: Global) -> Result<KeptAnswers, NoMemory> {
        let ring = match &self.ring {
            Some(ring) => Some(copy_of(alloc, ring)?),
            None => None,
        };
        Ok(KeptAnswers { alloc, ring })
    }
}
