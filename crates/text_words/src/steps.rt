//! Tests as steps of a chain of readers.

ghost use Rattle.std.specs.Prelude.{◌≡◌};
ghost use Rattle.text_words.specs.Steps.{allowed};

/// A test as a step of a chain: `allowed(test)?` goes on only where it holds.
pub fn allowed(test: bool) -> Option<()>
    ensures { result ≡ allowed test }
{
    if test { Some(()) } else { None }
}
