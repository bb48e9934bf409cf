ghost use Rattle.std.specs.Prelude.{ℕ, ◌^◌, ◌<◌, length};
ghost use Rattle.wire_core.specs.Layout.{IsLayout};
ghost use Rattle.wire_core.specs.Spelling.{AreBytes, number, boolean, vector};
ghost use Rattle.wire_core.specs.Reading.{rest_at, number_at, boolean_at, vector_at};

/// Each word of the wire is read as it is spelled, and nothing else is: a number has the bytes from
/// which it is read, and is read from the bytes that it has.
pub fn words_are_layouts()
    ensures numbers { (n : ℕ) → IsLayout (λ x. x < 256 ^ n) (number n) (number_at n) }
    ensures booleans { IsLayout (λ _. Unit {0}) boolean boolean_at }
    ensures vectors { (n : ℕ) →
        IsLayout (λ bytes. (length bytes < 256 ^ n) × AreBytes bytes)
        (vector n) (vector_at n rest_at) }
{}
