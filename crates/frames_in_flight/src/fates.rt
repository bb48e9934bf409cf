//! The fates of frames.

ghost use Rattle.std.specs.Prelude.{◌≡◌, ◌≢◌, ◌<◌, [], ◌∷◌, ◌++◌, length, position, slice_get, slice_set, Some, OnOk, OnErr, if◌then◌else◌};
ghost use Rattle.run_model.specs.declared.flight.Fate.{Fate};
ghost use Rattle.run_model.specs.declared.flight.Fate.TheVariants.{Waiting, Delivered, Lost};
ghost use Rattle.frames_in_flight.specs.Flying.{waits};

use reload_base::NoMemory;
use run_model::Fate;
use std::alloc::Global;
use std::marker::Model;

/// What became of the frames ever sent, one byte a frame: the frames themselves lie in an air.
/// Contracts see the fates in order, that of the first frame in front.
#[derive(Debug, Drop)]
pub struct Fates {
    fates: Vec<Fate>,
    /// Of so many frames at the front none waits.
    settled: usize,
}

impl Model for Fates {
    ghost use Rattle.std.specs.Prelude as words;
    ghost use Rattle.std.specs.Prelude.{◌≤◌};
    ghost use Rattle.std.specs.List.{position_or_len};
    ghost use Rattle.std.specs.Coded.{coded_list};
    ghost use Rattle.run_model.specs.declared.flight.Fate as model;
    ghost use Rattle.run_model.specs.contracts.flight.Fate as of_fate;
    ghost use Rattle.frames_in_flight.specs.Flying.{waits};

    ghost Value = { words.List model.Fate };

    ghost coded = { coded_list of_fate.the_row.coded };

    ghost view = { λ f. f.fates.items };

    ghost invariant = { λ f. f.settled ≤ position_or_len waits f.fates.items };
}

impl Fates {
    /// No frame was sent. This takes no memory yet.
    pub fn new(alloc: Global) -> Fates
        ensures { result ≡ [] }
    {
        Fates {
            fates: Vec::new(alloc),
            settled: 0,
        }
    }

    /// The number of frames ever sent.
    pub fn count(&self) -> usize
        ensures { result ≡ length self.now }
    {
        self.fates.len()
    }

    /// One more frame was sent, and waits. After `NoMemory` all are as before.
    #[tactic(auto, using(crate::proofs::Fronts::front_added))]
    pub fn add(&mut self) -> Result<(), NoMemory>
        ensures ok { OnOk result (self.new ≡ self.old ++ Waiting ∷ []) }
        ensures err { OnErr result (self.new ≡ self.old) }
    {
        self.fates.push(Fate::Waiting)?;
        Ok(())
    }

    /// The frame at a place, counted from 0, is delivered, whatever became of it before.
    pub fn delivered(&mut self, at: usize)
        requires { at < length self.old }
        ensures { self.new ≡ slice_set self.old at Delivered }
    {
        self.settle(at, Fate::Delivered);
    }

    /// The frame at a place is lost, where it waits.
    pub fn lost(&mut self, at: usize)
        requires { at < length self.old }
        ensures { (fate : Fate) → slice_get self.old at ≡ Some fate
            → self.new ≡ (if waits fate then slice_set self.old at Lost else self.old) }
    {
        if waits(self.fates[at]) {
            self.settle(at, Fate::Lost);
        }
    }

    /// The place of the lowest frame that waits. Over all calls each frame is looked at once, and
    /// one that waits again at each call.
    pub fn lowest(&mut self) -> Option<usize>
        ensures place { result ≡ position waits self.old }
        ensures same { self.new ≡ self.old }
    {
        let (_, rest) = self.fates.as_slice().split_at(self.settled);
        match first_waiting(rest) {
            Some(more) => {
                self.settled += more;
                Some(self.settled)
            }
            None => {
                self.settled = self.fates.len();
                None
            }
        }
    }

    /// The frame at a place has a fate for which it waits no more.
    fn settle(&mut self, at: usize, fate: Fate)
        requires there { at < length self.old }
        requires settled { fate ≢ Waiting }
        ensures { self.new ≡ slice_set self.old at fate }
    {
        self.fates[at] = fate;
    }
}

/// Whether a frame of this fate waits.
fn waits(fate: Fate) -> bool
    ensures { result ≡ waits fate }
{
    match fate {
        Fate::Waiting => true,
        Fate::Delivered | Fate::Lost => false,
    }
}

/// The place of the first frame that waits.
fn first_waiting(fates: &[Fate]) -> Option<usize>
    ensures { result ≡ position waits fates.now }
{
    fates.iter().position(|fate| waits(*fate))
}
