//! Why a request is refused.

/// The error codes (RFC 6940, section 6.3.3.1).
#[derive(Clone, Copy, Debug, PartialEq, Eq)]
pub enum Refusal {
    Forbidden,
    NotFound,
    RequestTimeout,
    GenerationCounterTooLow,
    IncompatibleWithOverlay,
    UnsupportedForwardingOption,
    DataTooLarge,
    DataTooOld,
    TtlExceeded,
    MessageTooLarge,
    UnknownKind,
    UnknownExtension,
    ResponseTooLarge,
    ConfigTooOld,
    ConfigTooNew,
    InProgress,
    InvalidMessage,
}

impl Refusal {
    ghost use Rattle.std.specs.Prelude.{◌≡◌};
    ghost use Rattle.storage_model.specs.Refusals.{error_code};

    /// The error code.
    pub fn code(self) -> u16
        ensures { result ≡ error_code self }
    {
        match self {
            Refusal::Forbidden => 0x2,
            Refusal::NotFound => 0x3,
            Refusal::RequestTimeout => 0x4,
            Refusal::GenerationCounterTooLow => 0x5,
            Refusal::IncompatibleWithOverlay => 0x6,
            Refusal::UnsupportedForwardingOption => 0x7,
            Refusal::DataTooLarge => 0x8,
            Refusal::DataTooOld => 0x9,
            Refusal::TtlExceeded => 0xA,
            Refusal::MessageTooLarge => 0xB,
            Refusal::UnknownKind => 0xC,
            Refusal::UnknownExtension => 0xD,
            Refusal::ResponseTooLarge => 0xE,
            Refusal::ConfigTooOld => 0xF,
            Refusal::ConfigTooNew => 0x10,
            Refusal::InProgress => 0x11,
            Refusal::InvalidMessage => 0x14,
        }
    }
}
