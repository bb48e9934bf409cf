//! `drain N`

ghost use Rattle.std.specs.Prelude.{◌≡◌};
ghost use Rattle.scenario_text.specs.Lines.Drain.{drain_of};

use text_words::{Pieces, number_of};

/// The most deliveries of one drain (this profile).
pub const MAX_DRAIN: u64 = 1_000_000;

/// How many frames are heard at most.
#[tactic(auto, unfolding(crate::specs::Lines::Drain::drain_of))]
pub fn drain_of(words: Pieces<'_>) -> Option<u64>
    ensures { result ≡ drain_of words.entry }
{
    number_of(1, MAX_DRAIN, words.only()?)
}
