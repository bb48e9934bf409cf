//! What holds of messages behind their headers.

ghost use Rattle.std.specs.Prelude.{◌≡◌, ◌+◌, ◌++◌, ℕ, List, length, Ok};
ghost use Rattle.wire_core.specs.Part.{part};
ghost use Rattle.security_block.specs.declared.block.SecurityBlock.{SecurityBlock};
ghost use Rattle.data_models.specs.declared.config.Config.{Config};
ghost use Rattle.message_bodies.specs.declared.contents.Contents.{Contents};
ghost use Rattle.message_bodies.specs.Messages.{message, message_at, IsSpelledMessage};

/// The contents and the security block of a message have one spelling, and nothing else has it:
/// bytes that begin with those of two messages begin with one message.
pub fn one_spelling()
    ensures { (config : Config) (c d : Contents) (a b : SecurityBlock) (x y : List ℕ)
        → IsSpelledMessage config c a → IsSpelledMessage config d b → message c a ++ x
        ≡ message d b ++ y
        → (c ≡ d) × (a ≡ b) × (x ≡ y) }
{}

/// What is spelled under a configuration is read back as it was under the same configuration,
/// wherever it stands and whatever follows.
pub fn reads_back()
    ensures { (config : Config) (c : Contents) (b : SecurityBlock) (place : ℕ) (rest : List ℕ)
        → IsSpelledMessage config c b
        → message_at config (part place (message c b ++ rest)) ≡ Ok (
          (c, b),
          part (place + length
              (message c b)) rest,
        ) }
{}
