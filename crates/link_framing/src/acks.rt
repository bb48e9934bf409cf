//! Which payloads were heard, and the acks that say so.

ghost use Rattle.std.specs.Prelude.{◌≡◌, ◌≢◌, ◌+◌, ◌<◌, ◌≤◌, ◌^◌, ℕ, true, false, IfOk, OnOk, OnErr, if◌then◌else◌};
ghost use Rattle.std.specs.Int.{bit_at};
ghost use Rattle.std.specs.FinSet as set;
ghost use Rattle.link_framing.specs.Acked.{heard_before, IsMask};

use reload_base::NoMemory;
use std::alloc::Global;
use std::collections::BTreeSet;
use std::marker::Model;

/// The sequences of the payloads that were heard from one node. Contracts see their set.
#[derive(Debug, Drop)]
pub struct Acks {
    /// Each payload from 1 up to this one was heard.
    front: u32,
    /// The others that were. Payloads that come in their order take no memory here.
    others: BTreeSet<u32>,
}

impl Model for Acks {
    ghost use Rattle.std.specs.Ordering.{nat_cmp};
    ghost use Rattle.std.specs.Coded.{coded_ℕ};
    ghost use Rattle.std.specs.FinSet as set;
    ghost use Rattle.link_framing.specs.Acked.{heard_up_to};

    ghost Value = { set.FinSet nat_cmp };

    ghost coded = { set.code coded_ℕ };

    ghost view = { λ a. heard_up_to a.front (set.from_list a.others.keys) };
}

impl Acks {
    /// Nothing was heard yet.
    #[tactic(auto, unfolding(crate::specs::Acked::heard_up_to))]
    pub fn new(alloc: Global) -> Acks
        ensures { result ≡ set.empty }
    {
        Acks {
            front: 0,
            others: BTreeSet::new(alloc),
        }
    }

    /// The mask for the ack of payload `n`: which of the 31 payloads before it were heard so far,
    /// however late they came (this profile).
    pub fn mask(&self, n: u32) -> u32
        ensures { IsMask self.now n result }
    {
        let mut mask = 0;
        let end = if n < 32 { n + 1 } else { 32 };
        for k in 1..end {
            mask = with_bit(mask, k, self.heard_before(n, k));
        }
        mask
    }

    /// Payload `n` was heard. The answer is the mask for its ack.
    pub fn hear(&mut self, n: u32) -> Result<u32, NoMemory>
        ensures mask { IfOk result (λ mask. IsMask self.new n mask) }
        ensures ok { OnOk result (self.new ≡ set.insert self.old n) }
        ensures err { OnErr result (self.new ≡ self.old) }
    {
        self.add(n)?;
        Ok(self.mask(n))
    }

    /// Payload `n` was heard. After `NoMemory` the set is as before.
    pub fn add(&mut self, n: u32) -> Result<(), NoMemory>
        ensures ok { OnOk result (self.new ≡ set.insert self.old n) }
        ensures err { OnErr result (self.new ≡ self.old) }
    {
        if follows(self.front, n) {
            self.front = n;
            return Ok(());
        }
        self.others.insert(n)?;
        Ok(())
    }

    /// Whether the payload `k` before `n` was heard, where there is one.
    fn heard_before(&self, n: u32, k: u32) -> bool
        ensures { result ≡ heard_before self.now n k }
    {
        k <= n && self.has(n - k)
    }

    fn has(&self, n: u32) -> bool
        ensures { result ≡ set.contains self.now n }
    {
        if is_within(self.front, n) {
            return true;
        }
        self.others.contains(&n)
    }
}

/// Whether payload `n` is one of those up to a front.
fn is_within(front: u32, n: u32) -> bool
    ensures there { result ≡ true → (1 ≤ n) × (n ≤ front) }
    ensures elsewhere { result ≡ false → 1 ≤ n → front < n }
{
    1 <= n && n <= front
}

/// Whether payload `n` is the one behind a front.
fn follows(front: u32, n: u32) -> bool
    ensures { result ≡ true → n ≡ front + 1 }
{
    front < n && n - 1 == front
}

/// The mask with bit `k`, which isn't set yet, as told.
fn with_bit(mask: u32, k: u32, marked: bool) -> u32
    requires place { k < 32 }
    requires clear { bit_at mask k ≡ 0 }
    ensures small { result < 2 ^ 32 }
    ensures there { bit_at result k ≡ (if marked then 1 else 0) }
    ensures others { (j : ℕ) → j ≢ k → bit_at result j ≡ bit_at mask j }
{
    if marked { mask | 1 << k } else { mask }
}
