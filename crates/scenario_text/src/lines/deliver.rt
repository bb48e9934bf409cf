//! `deliver K`

ghost use Rattle.std.specs.Prelude.{◌≡◌};
ghost use Rattle.scenario_text.specs.Lines.Deliver.{deliver_of};

use text_words::{Pieces, decimal_of};

/// The number of the frame that is heard.
#[tactic(auto, unfolding(crate::specs::Lines::Deliver::deliver_of))]
pub fn deliver_of(words: Pieces<'_>) -> Option<u64>
    ensures { result ≡ deliver_of words.entry }
{
    decimal_of(u64::MAX, words.only()?)
}
