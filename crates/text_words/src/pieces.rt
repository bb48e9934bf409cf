//! What stands between the bytes of one value: the words of a line, the parts of a word.

ghost use Rattle.std.specs.Prelude.{◌≡◌, ◌==◌, drop, length, option_map};
ghost use Rattle.text_words.specs.Lines.{words_of};
ghost use Rattle.text_words.specs.Separator.{pieces_of};
ghost use Rattle.text_words.specs.Steps.{first_of, only_word};

use crate::separator::upto;
use crate::steps::allowed;
use std::marker::Model;

/// The pieces that are left between bytes of one value. Contracts see their list.
#[derive(Debug, Drop)]
pub struct Pieces<'a> {
    byte: u8,
    rest: Option<&'a [u8]>,
}

impl<'a> Model for Pieces<'a> {
    ghost use Rattle.std.specs.Prelude.{ℕ, List, option_map};
    ghost use Rattle.text_words.specs.Separator.{pieces_left};

    ghost Value = { List (List ℕ) };

    ghost view = { λ p. pieces_left p.byte (option_map (λ bytes. bytes.now) p.rest) };
}

impl<'a> Pieces<'a> {
    /// All pieces of some bytes: one more than there are bytes of this value.
    pub fn new(byte: u8, bytes: &'a [u8]) -> Pieces<'a>
        ensures { result ≡ pieces_of byte bytes.now }
    {
        Pieces {
            byte,
            rest: Some(bytes),
        }
    }

    /// Whether no piece is left.
    pub fn is_empty(&self) -> bool
        ensures { result ≡ (length self.now == 0) }
    {
        self.rest.is_none()
    }

    /// The first piece, which stays.
    pub fn first(&self) -> Option<&'a [u8]>
        ensures { option_map (λ piece. piece.now) result
            ≡ option_map (λ found. found.0) (first_of self.now) }
    {
        let bytes = self.rest?;
        match upto(self.byte, bytes) {
            Some((piece, _)) => Some(piece),
            None => Some(bytes),
        }
    }

    /// The only piece that is left.
    #[tactic(auto, unfolding(crate::specs::Steps::only_word))]
    pub fn only(mut self) -> Option<&'a [u8]>
        ensures { option_map (λ piece. piece.now) result ≡ only_word self.entry }
    {
        let piece = self.take()?;
        allowed(self.is_empty())?;
        Some(piece)
    }

    /// Takes the first piece.
    pub fn take(&mut self) -> Option<&'a [u8]>
        ensures first { option_map (λ piece. (piece.now, self.new)) result ≡ first_of self.old }
        ensures left { self.new ≡ drop 1 self.old }
    {
        let bytes = self.rest?;
        match upto(self.byte, bytes) {
            Some((piece, rest)) => {
                self.rest = Some(rest);
                Some(piece)
            }
            None => {
                self.rest = None;
                Some(bytes)
            }
        }
    }
}

/// The words of a line: what stands between its spaces.
pub fn words_of(line: &[u8]) -> Pieces<'_>
    ensures { result ≡ words_of line.now }
{
    Pieces::new(b' ', line)
}
