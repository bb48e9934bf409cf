//! Fixed texts, and bytes that separate words.

ghost use Rattle.std.specs.Prelude.{◌≡◌, ℕ, ◌==◌, ◌<◌, List, length, position, ◌∷◌, ◌++◌, Option, Some, option_map, IfSome, IfNone};
ghost use Rattle.std.specs.Option.{option_copied};
ghost use Rattle.text_words.specs.Separator.{behind, upto, Lacks};

/// What follows a fixed text at the front.
#[tactic(auto, unfolding(crate::specs::Separator::behind))]
pub fn behind<'a>(text: &[u8], bytes: &'a [u8]) -> Option<&'a [u8]>
    ensures value { option_copied result ≡ behind text.now bytes.now }
    ensures found { IfSome result (λ rest. bytes.now ≡ text.now ++ rest.now) }
    ensures only { (rest : List ℕ) → bytes.now ≡ text.now ++ rest → option_copied result
        ≡ Some rest }
{
    bytes.strip_prefix(text)
}

/// What is before and behind the first byte of this value.
pub fn upto(byte: u8, bytes: &[u8]) -> Option<(&[u8], &[u8])>
    ensures value { option_map (λ r. (r.0.now, r.1.now)) result ≡ upto byte bytes.now }
    ensures found { IfSome result (λ r. bytes.now ≡ r.0.now ++ byte ∷ r.1.now) }
    ensures first { IfSome result (λ r. Lacks byte r.0.now) }
    ensures only { (before behind : List ℕ) → Lacks byte before → bytes.now ≡ before
        ++ byte ∷ behind
        → option_map {U = List ℕ × List ℕ} (λ r. (r.0.now, r.1.now)) result
        ≡ Some (before, behind) }
    ensures none { IfNone result (Lacks byte bytes.now) }
{
    split_round(byte, bytes)
}

// The same, by the place of the byte.
#[tactic(auto, unfolding(crate::specs::Separator::upto))]
fn split_round(byte: u8, bytes: &[u8]) -> Option<(&[u8], &[u8])>
    ensures { option_map (λ r. (r.0.now, r.1.now)) result ≡ upto byte bytes.now }
{
    let at = position(byte, bytes)?;
    Some((bytes.split_at(at).0, bytes.split_at(at + 1).1))
}

// The place of the first byte of this value.
fn position(byte: u8, bytes: &[u8]) -> Option<usize>
    ensures value { result ≡ position (λ b. b == byte) bytes.now }
    ensures within { IfSome result (λ at. at < length bytes.now) }
{
    bytes.iter().position(|b| *b == byte)
}
