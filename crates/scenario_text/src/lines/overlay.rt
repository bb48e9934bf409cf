//! `overlay NAME`

ghost use Rattle.std.specs.Prelude.{◌≡◌};
ghost use Rattle.std.specs.Option.{option_copied};
ghost use Rattle.scenario_text.specs.Lines.Overlay.{name_of, overlay_of};

use text_words::{Pieces, allowed, is_name};

/// A word that is a name.
#[tactic(auto, unfolding(crate::specs::Lines::Overlay::name_of))]
pub fn name_of(word: &[u8]) -> Option<&[u8]>
    ensures { option_copied result ≡ name_of word.now }
{
    allowed(is_name(word))?;
    Some(word)
}

/// The overlay's name.
#[tactic(auto, unfolding(crate::specs::Lines::Overlay::overlay_of))]
pub fn overlay_of(words: Pieces<'_>) -> Option<&[u8]>
    ensures { option_copied result ≡ overlay_of words.entry }
{
    name_of(words.only()?)
}
