//! Names as words.

ghost use Rattle.std.specs.Prelude.{◌≡◌, ◌↔◌, IsTrue};
ghost use Rattle.std.specs.List.{list_all};
ghost use Rattle.text_words.specs.Name.{is_visible, is_name, IsName};

/// The most bytes of a name.
pub const MAX_NAME: usize = 64;

/// Whether a word is a name: 1 to `MAX_NAME` bytes from `!` to `~`.
#[tactic(auto, unfolding(crate::specs::Name::is_name))]
pub fn is_name(word: &[u8]) -> bool
    ensures holds { IsTrue result ↔ IsName word.now }
    ensures value { result ≡ is_name word.now }
{
    !word.is_empty() && word.len() <= MAX_NAME && is_visible(word)
}

fn is_visible(word: &[u8]) -> bool
    ensures { result ≡ list_all is_visible word.now }
{
    word.iter().all(|byte| matches!(*byte, b'!'..=b'~'))
}
