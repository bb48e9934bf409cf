//! `lose K`

ghost use Rattle.std.specs.Prelude.{◌≡◌};
ghost use Rattle.scenario_text.specs.Lines.Lose.{lose_of};

use text_words::{Pieces, decimal_of};

/// The number of the frame that is lost.
#[tactic(auto, unfolding(crate::specs::Lines::Lose::lose_of))]
pub fn lose_of(words: Pieces<'_>) -> Option<u64>
    ensures { result ≡ lose_of words.entry }
{
    decimal_of(u64::MAX, words.only()?)
}
