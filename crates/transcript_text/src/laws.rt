//! What holds of the words of decisions and answers, and is no reader's answer. The function does
//! nothing.

ghost use Rattle.text_words.specs.Codec.{IsCodec};
ghost use Rattle.transcript_text.specs.Words.{counter_of, counter_text, decided_of, decided_text, number_text, some_number_of, IsCounter, IsDecided, IsNumber};

/// Each word that no request of a scenario has is read exactly where it is what it spells.
pub fn words_both_ways()
    ensures decided { IsCodec decided_of decided_text IsDecided }
    ensures counter { IsCodec counter_of counter_text IsCounter }
    ensures number { IsCodec some_number_of number_text IsNumber }
{}
