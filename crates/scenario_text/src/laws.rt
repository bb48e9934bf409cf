//! What holds of lines, and is no reader's answer. The function does nothing.

ghost use Rattle.text_words.specs.Codec.{IsCodec};
ghost use Rattle.text_words.specs.Lines.{line_of, words_of};
ghost use Rattle.scenario_text.specs.Sayings.{saying_of, saying_words, IsSaying};

/// A line of a scenario is read exactly where it is what it spells.
pub fn lines_both_ways()
    ensures { IsCodec (λ line. saying_of (words_of line))
        (λ saying. line_of (saying_words saying)) IsSaying }
{}
