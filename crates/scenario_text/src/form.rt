//! The first words of lines, which name their forms.

ghost use Rattle.std.specs.Prelude.{◌≡◌};
ghost use Rattle.scenario_text.specs.Forms.{form_of, form_text};

/// What a line of a scenario says.
#[derive(Clone, Copy, Debug, PartialEq, Eq)]
pub enum Form {
    Overlay,
    Kind,
    Peer,
    Client,
    Clock,
    Deliver,
    Lose,
    Drain,
    Store,
    Fetch,
}

// All forms.
const FORMS: [Form; 10] = [
    Form::Overlay,
    Form::Kind,
    Form::Peer,
    Form::Client,
    Form::Clock,
    Form::Deliver,
    Form::Lose,
    Form::Drain,
    Form::Store,
    Form::Fetch,
];

impl Form {
    /// Its first word.
    #[tactic(auto, unfolding(crate::specs::Forms::form_text))]
    pub fn text(self) -> &'static [u8]
        ensures { result.now ≡ form_text self }
    {
        match self {
            Form::Overlay => b"overlay",
            Form::Kind => b"kind",
            Form::Peer => b"peer",
            Form::Client => b"client",
            Form::Clock => b"clock",
            Form::Deliver => b"deliver",
            Form::Lose => b"lose",
            Form::Drain => b"drain",
            Form::Store => b"store",
            Form::Fetch => b"fetch",
        }
    }

    /// The form of a line that begins with this word.
    #[tactic(auto, unfolding(crate::specs::Forms::form_of))]
    pub fn of(word: &[u8]) -> Option<Form>
        ensures { result ≡ form_of word.now }
    {
        FORMS.iter().copied().find(|form| form.text() == word)
    }
}
