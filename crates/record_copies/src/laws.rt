//! What holds of copies, whoever makes and hears them.

ghost use Rattle.std.specs.Prelude.{◌≡◌, ℕ, Some};
ghost use Rattle.data_models.specs.declared.config.Config.{Config};
ghost use Rattle.storage_model.specs.Records.{Record};
ghost use Rattle.node_model.specs.Copies as model;
ghost use Rattle.record_copies.specs.Copied.{IsCopied};

/// What a peer says of a record in a note and a Store is read as that record, at whatever clock it
/// was copied, exactly where its copy says all of it.
pub fn a_copy_is_read_as_its_record()
    // Where its copy says all of it, the record is read.
    ensures read { (config : Config) (now : ℕ) (x : Record) → IsCopied config x
        → model.given_record config (model.noted x) (model.copied_kinds config now x) ≡ Some x }
    // Nowhere else is it.
    ensures needed { (config : Config) (now : ℕ) (x : Record)
        → model.given_record config (model.noted x) (model.copied_kinds config now x) ≡ Some x
        → IsCopied config x }
{}
