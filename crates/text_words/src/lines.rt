//! The lines of a text, each ended by a line feed.

ghost use Rattle.std.specs.Prelude.{◌≡◌, option_map};
ghost use Rattle.std.specs.Char.{is_ascii};
ghost use Rattle.std.specs.List.{list_all};
ghost use Rattle.text_words.specs.Lines.{is_sound_line, is_passed_over};
ghost use Rattle.text_words.specs.Separator.{upto};

use crate::separator::upto;

/// The most bytes of a line, its line feed not counted.
pub const MAX_LINE: usize = 400_000;

/// The byte that ends a line.
pub const LINE_FEED: u8 = b'\n';

/// The first line, without its line feed, and what follows it. None where no line feed is left.
pub fn first_line(text: &[u8]) -> Option<(&[u8], &[u8])>
    ensures { option_map (λ r. (r.0.now, r.1.now)) result ≡ upto LINE_FEED text.now }
{
    upto(LINE_FEED, text)
}

/// Whether a line is ASCII and at most `MAX_LINE` bytes long.
#[tactic(auto, unfolding(crate::specs::Lines::is_sound_line))]
pub fn is_sound_line(line: &[u8]) -> bool
    ensures { result ≡ is_sound_line line.now }
{
    line.len() <= MAX_LINE && is_ascii(line)
}

fn is_ascii(line: &[u8]) -> bool
    ensures { result ≡ list_all is_ascii line.now }
{
    line.iter().all(|byte| byte.is_ascii())
}

/// Whether a line is passed over: an empty one or a comment.
#[tactic(auto, unfolding(crate::specs::Lines::is_passed_over))]
pub fn is_passed_over(line: &[u8]) -> bool
    ensures { result ≡ is_passed_over line.now }
{
    matches!(line, [] | [b'#', ..])
}
