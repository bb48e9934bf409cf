//! An air in memory.

ghost use Rattle.std.specs.Prelude.{◌≡◌, ◌≢◌, ◌+◌, ◌^◌, ◌<◌, ◌≤◌, ◌↔◌, [], ◌∷◌, ◌++◌, length, slice_index, ℕ, IsTrue, IfOk, OnOk, OnErr};
ghost use Rattle.reload_base.specs.Outside.{Sends, Gets, HoldBytes, size_of};
ghost use Rattle.reload_base.specs.Fakes.{counted, next_fails, IsFaultless};
ghost use Rattle.reload_base.specs.Heads.{start_from};

use crate::air::{Air, AirFrame, Got, Sent};
use crate::calls::Calls;
use crate::list::{Bytes, List};
use crate::no_memory::NoMemory;
use std::alloc::Global;
use std::marker::Model;

/// The nodes that a frame goes from and to, and where its bytes end among the bytes of all. They
/// begin where those of the frame before it end.
#[derive(Debug, Drop)]
struct Head {
    from: u32,
    to: u32,
    end: u64,
}

/// Frames in memory, a fake of the outside. Their bytes lie one behind the other in memory that
/// all share. Contracts see the frames that were sent, and beside them the calls of `send`, which
/// alone are counted and can fail.
#[derive(Debug, Drop)]
pub struct MemoryAir {
    heads: List<Head>,
    bytes: Bytes,
    calls: Calls,
}

impl Model for MemoryAir {
    ghost use Rattle.std.specs.Prelude.{◌≡◌, List, ◌^◌, ◌<◌, length};
    ghost use Rattle.std.specs.Coded.{coded_list, coded×};
    ghost use Rattle.reload_base.specs.declared.air.AirFrame.{AirFrame};
    ghost use Rattle.reload_base.specs.contracts.air.AirFrame as of_frame;
    ghost use Rattle.reload_base.specs.declared.calls.Calls.{Calls};
    ghost use Rattle.reload_base.specs.contracts.calls.Calls as of_calls;
    ghost use Rattle.reload_base.specs.Heads.{frames_in, Rises};
    ghost use Rattle.reload_base.specs.Outside.{size_of};

    ghost Value = { List AirFrame × Calls };

    ghost coded = { coded× (coded_list of_frame.the_row.coded) of_calls.the_row.coded };

    ghost view = { λ a. (frames_in a.heads a.bytes, a.calls) };

    ghost invariant = { λ a. (size_of (frames_in a.heads a.bytes) ≡ length a.bytes)
        × (length a.bytes < 2 ^ 63) × Rises 0 a.heads (length a.bytes) };
}

impl MemoryAir {
    /// An air without frames. The sends whose numbers are in `fail`, counted from 1, fail.
    #[tactic(auto, using(crate::proofs::Heads::none_in, crate::proofs::Heads::none_rise, crate::proofs::Frames::size_of_none))]
    pub fn new(alloc: Global, fail: &[u64]) -> Result<MemoryAir, NoMemory>
        ensures view { IfOk result (λ a. ⟦<MemoryAir as Air>⟧.view a
            ≡ record { sent = []; faults = 0 }) }
        ensures faultless { fail.now ≡ [] → IfOk result (λ a. IsFaultless a.1) }
        ensures calls { IfOk result (λ a.
            a.1 ≡ record { made = 0; failing = fail.now; faults = 0 }) }
    {
        Ok(MemoryAir {
            heads: List::new(alloc),
            bytes: List::new(alloc),
            calls: Calls::new(alloc, fail)?,
        })
    }

    /// Puts a frame behind the others. After `NoMemory` the frames are as before.
    fn append(&mut self, alloc: Global, from: u32, to: u32, bytes: &[u8]) -> Result<(), NoMemory>
        requires some { 0 < length bytes.now }
        requires room { size_of self.old.0 + length bytes.now < 2 ^ 63 }
        ensures ok { OnOk result (
            self.new.0 ≡ self.old.0 ++ record { from = from; to = to; bytes = bytes.now } ∷ []) }
        ensures err { OnErr result (self.new.0 ≡ self.old.0) }
        ensures calls { self.new.1 ≡ self.old.1 }
    {
        let start = self.bytes.len();
        self.bytes.extend(bytes)?;
        let head = Head {
            from,
            to,
            end: self.bytes.len() as u64,
        };
        if let Err(e) = self.heads.push(head) {
            self.bytes.truncate(start);
            return Err(e);
        }
        Ok(())
    }
}

impl Air for MemoryAir {
    ghost view = { λ a. record { sent = a.0; faults = a.1.faults } };

    /// Sends the frame, unless the call is one that fails or memory is missing.
    fn send(&mut self, alloc: Global, from: u32, to: u32, bytes: &[u8]) -> Sent
        requires some { 0 < length bytes.now }
        requires room { size_of self.old.0 + length bytes.now < 2 ^ 63 }
        ensures sent { Sends (⟦<MemoryAir as Air>⟧.view self.old)
            (⟦<MemoryAir as Air>⟧.view self.new) result
            (record { from = from; to = to; bytes = bytes.now }) }
        ensures fails { (result ≡ Sent.Failed) ↔ IsTrue (next_fails self.old.1) }
        ensures calls { self.new.1 ≡ counted self.old.1 }
        ensures faultless { IsFaultless self.old.1
            → IsFaultless self.new.1 × (self.new.1.faults ≡ self.old.1.faults) }
    {
        if self.calls.count() {
            return Sent::Failed;
        }
        match self.append(alloc, from, to, bytes) {
            Ok(()) => Sent::Ok,
            Err(_) => Sent::NoMemory,
        }
    }

    /// Gives a copy of the frame, unless memory is missing. Nothing changes.
    #[tactic(auto, using(crate::proofs::Heads::counted_from, crate::proofs::Heads::begins_from, crate::proofs::Heads::ends_within))]
    fn frame(&mut self, alloc: Global, k: u64) -> Got
        requires first { 1 ≤ k }
        requires last { k ≤ length self.old.0 }
        ensures kept { self.new ≡ self.old }
        ensures got { Gets (⟦<MemoryAir as Air>⟧.view self.old)
            (⟦<MemoryAir as Air>⟧.view self.new) k result }
        ensures fault { result ≢ Got.Failed }
    {
        let at = (k - 1) as usize;
        let heads = self.heads.as_slice();
        let head = &heads[at];
        let (front, _) = self.bytes.as_slice().split_at(head.end as usize);
        let (_, bytes) = front.split_at(start_of(heads, at) as usize);
        match Bytes::from_slice(alloc, bytes) {
            Ok(bytes) => Got::Frame(AirFrame {
                from: head.from,
                to: head.to,
                bytes,
            }),
            Err(_) => Got::NoMemory,
        }
    }

    #[tactic(auto, using(crate::proofs::Heads::counted_from, crate::proofs::Heads::few_in, crate::proofs::Heads::hold_bytes))]
    fn frames(&self) -> u64
        ensures value { result ≡ length self.now.0 }
        ensures few { result ≤ size_of self.now.0 }
        ensures bytes { HoldBytes self.now.0 }
    {
        are_bytes(self.bytes.as_slice());
        self.heads.len() as u64
    }

    fn size(&self) -> u64
        ensures { result ≡ size_of self.now.0 }
    {
        self.bytes.len() as u64
    }
}

/// Where the bytes of the frame at a place begin.
fn start_of(heads: &[Head], at: usize) -> u64
    requires { at ≤ length heads.now }
    ensures { result ≡ start_from 0 heads.now at }
{
    if at == 0 {
        return 0;
    }
    heads[at - 1].end
}

/// Does nothing, and tells contracts that these are bytes.
fn are_bytes(bytes: &[u8])
    ensures { (i : ℕ) → slice_index bytes.now i < 2 ^ 8 }
{}
