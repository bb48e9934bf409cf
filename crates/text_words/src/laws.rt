//! What holds of printed words and of lines, and is no reader's answer. The functions do nothing.

ghost use Rattle.std.specs.Prelude.{◌≡◌, ℕ, ◌^◌, ◌<◌, List, [], ◌∷◌, ◌++◌, false, MatchOption, codes};
ghost use Rattle.std.specs.Char.{is_ascii_digit};
ghost use Rattle.std.specs.Fmt.{decimal};
ghost use Rattle.std.specs.List.{All, AllByRecursion, flat_map};
ghost use Rattle.hex.specs.Hex.{encode_lower};
ghost use Rattle.text_words.specs.Hex.{AllBytes, is_lower_digit};
ghost use Rattle.text_words.specs.Id.{id_text};
ghost use Rattle.text_words.specs.Lines.{ended, line_of, lines_of, words_of};
ghost use Rattle.text_words.specs.Name.{is_visible, IsName};
ghost use Rattle.text_words.specs.Separator.{byte_of, upto, Lacks};

use crate::lines::LINE_FEED;

/// No printed word holds a byte that isn't one of its digits, nor a name an invisible one. So a
/// space, a colon, a slash or a line feed behind a number is the first one.
pub fn printed_words()
    ensures decimal { (byte n : ℕ) → n < 2 ^ 64 → is_ascii_digit byte ≡ false
        → Lacks byte (decimal n) }
    ensures hex { (byte : ℕ) (bytes : List ℕ) → AllBytes bytes → is_lower_digit byte ≡ false
        → Lacks byte (encode_lower bytes) }
    ensures id { (byte id : ℕ) → is_lower_digit byte ≡ false → Lacks byte (id_text id) }
    ensures name { (byte : ℕ) (word : List ℕ) → IsName word → is_visible byte ≡ false
        → Lacks byte word }
{}

/// A line is its words: joined by single spaces they make it, none of them holds a space, and words
/// without a space are those of the line that they make. No reader of a word takes the empty one,
/// which stands between two spaces and at an end.
pub fn words_of_a_line()
    ensures line { (line : List ℕ) → line_of (words_of line) ≡ line }
    ensures lack { (line : List ℕ) → AllByRecursion (Lacks (byte_of (codes " "))) (words_of line) }
    ensures only { (word : List ℕ) (words : List (List ℕ)) → Lacks (byte_of (codes " ")) word
        → AllByRecursion (Lacks (byte_of (codes " "))) words → words_of (line_of (word ∷ words))
        ≡ word ∷ words }
{}

/// A text is its lines, each with its line feed, and its rest, in this one way.
pub fn lines_of_a_text()
    ensures text { (text : List ℕ) → text ≡ flat_map ended (lines_of text).0 ++ (lines_of text).1 }
    ensures lacks { (text : List ℕ) → All (Lacks LINE_FEED) (lines_of text).0
        × Lacks LINE_FEED (lines_of text).1 }
    ensures only { (lines : List (List ℕ)) (rest : List ℕ) → All (Lacks LINE_FEED) lines
        → Lacks LINE_FEED rest
        → lines_of (flat_map ended lines ++ rest) ≡ (lines, rest) }
    ensures first { (text : List ℕ) → MatchOption (upto LINE_FEED text) (lines_of text ≡ ([], text))
        (λ r. lines_of text ≡ (r.0 ∷ (lines_of r.1).0, (lines_of r.1).1)) }
{}
