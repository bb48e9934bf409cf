//! The forms that the words of a call have.

ghost use Rattle.std.specs.Prelude.{◌≡◌, None, IfSome};
ghost use Rattle.overlay_command.specs.Top.{HasForm, IsCommand};

/// What a call does with its input.
#[derive(Clone, Copy, Debug, PartialEq, Eq)]
pub enum Form {
    /// `run`: runs the scenario of a text.
    Run,
    /// `trace`: the same, and writes its frames too.
    Trace,
    /// `show`: lists a stream of frames.
    Show,
}

/// The form of the words, if they have one.
pub(crate) fn form_of(words: &[String]) -> Option<Form>
    ensures some { IfSome result (λ form. HasForm form words.now) }
    ensures none { result ≡ None → ¬ IsCommand words.now }
{
    match words {
        [word] if word.as_str() == "run" => Some(Form::Run),
        [word] if word.as_str() == "trace" => Some(Form::Trace),
        [word] if word.as_str() == "show" => Some(Form::Show),
        _ => None,
    }
}
