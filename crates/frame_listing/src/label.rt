//! The fixed texts of a listing.

ghost use Rattle.std.specs.Prelude.{◌≡◌};
ghost use Rattle.frame_listing.specs.Texts.{text_of, name_of};

use wire_core::Reason;

/// What stands in front of a word.
#[derive(Clone, Copy, Debug, PartialEq, Eq)]
pub(crate) enum Label {
    Frame,
    Payload,
    Ack,
    Message,
    Sequence,
    TimeToLive,
    Length,
    Transaction,
    MaxResponse,
    Via,
    Destination,
    Options,
    Contents,
    Body,
    Extensions,
    Security,
    Identity,
    Value,
    End,
    Bad,
}

impl Label {
    /// The text's bytes.
    #[tactic(auto, unfolding(crate::specs::Texts::text_of))]
    pub(crate) fn text(self) -> &'static [u8]
        ensures { result.now ≡ text_of self }
    {
        match self {
            Label::Frame => b"frame ",
            Label::Payload => b" payload ",
            Label::Ack => b" ack ",
            Label::Message => b"message overlay=",
            Label::Sequence => b" seq=",
            Label::TimeToLive => b" ttl=",
            Label::Length => b" length=",
            Label::Transaction => b" id=",
            Label::MaxResponse => b" max=",
            Label::Via => b" via=",
            Label::Destination => b" dest=",
            Label::Options => b" options=",
            Label::Contents => b"contents code=",
            Label::Body => b" body=",
            Label::Extensions => b" extensions=",
            Label::Security => b"security certificates=",
            Label::Identity => b" identity=",
            Label::Value => b" value=",
            Label::End => b"end ",
            Label::Bad => b"bad ",
        }
    }
}

/// The name of a fault's reason.
#[tactic(auto, unfolding(crate::specs::Texts::name_of))]
pub(crate) fn name_of(reason: Reason) -> &'static [u8]
    ensures { result.now ≡ name_of reason }
{
    match reason {
        Reason::Short => b"short",
        Reason::LengthPast => b"length-past",
        Reason::BadValue => b"bad-value",
        Reason::Trailing => b"trailing",
        Reason::TooLarge => b"too-large",
    }
}
