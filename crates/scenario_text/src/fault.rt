//! Why a text wasn't read.

use reload_base::NoMemory;
use thiserror::Error;

/// Why a text wasn't read.
#[derive(Clone, Copy, Debug, Error, PartialEq, Eq)]
pub enum TextFault {
    /// The first line that is outside the grammar, counted from 1; one more than the number of
    /// lines where something is missing at the end.
    #[error("bad line {0}")]
    BadLine(u64),
    /// Memory is missing.
    #[error("out of memory")]
    NoMemory,
}

impl From<NoMemory> for TextFault {
    ghost use Rattle.std.specs.Prelude.{◌≡◌};
    ghost use Rattle.scenario_text.specs.declared.fault.TextFault.TheVariants as fault;

    ghost from_gives = { λ _ e. e ≡ fault.NoMemory };

    fn from(_missing: NoMemory) -> TextFault {
        TextFault::NoMemory
    }
}
