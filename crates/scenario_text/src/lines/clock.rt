//! `clock MS`

ghost use Rattle.std.specs.Prelude.{◌≡◌};
ghost use Rattle.scenario_text.specs.Lines.Clock.{clock_of};

use text_words::{Pieces, number_of};

/// The most milliseconds of one move of the clock (this profile).
pub const MAX_CLOCK: u64 = 1_000_000_000;

/// The milliseconds by which the clock moves on.
#[tactic(auto, unfolding(crate::specs::Lines::Clock::clock_of))]
pub fn clock_of(words: Pieces<'_>) -> Option<u64>
    ensures { result ≡ clock_of words.entry }
{
    number_of(1, MAX_CLOCK, words.only()?)
}
