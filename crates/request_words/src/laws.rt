//! What holds of the words of requests, and is no reader's answer. The function does nothing.

ghost use Rattle.std.specs.List.{flat_map};
ghost use Rattle.text_words.specs.Codec.{IsCodec};
ghost use Rattle.text_words.specs.Hex.{AllBytes};
ghost use Rattle.request_words.specs.Groups.{group_words, groups_of, head_text, head_word_of, AreGroups, IsHead};
ghost use Rattle.request_words.specs.Raw.{raw_of, raw_text};
ghost use Rattle.request_words.specs.Resources.{resource_of, resource_text, IsResource};
ghost use Rattle.request_words.specs.Specifiers.{specifier_of, specifier_text, IsSpecifier};
ghost use Rattle.request_words.specs.Values.{value_of, value_text, IsValue};

/// Each word of a request is read exactly where it is what it spells, and so are the words of a
/// Store's kinds.
pub fn words_both_ways()
    ensures resource { IsCodec resource_of resource_text IsResource }
    ensures head { IsCodec head_word_of (λ head. head_text head.0 head.1) IsHead }
    ensures value { IsCodec value_of value_text IsValue }
    ensures groups { IsCodec groups_of (flat_map group_words) AreGroups }
    ensures specifier { IsCodec specifier_of specifier_text IsSpecifier }
    ensures raw { IsCodec raw_of raw_text AllBytes }
{}
