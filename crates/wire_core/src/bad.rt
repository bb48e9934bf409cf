//! Why bytes are refused.

ghost use Rattle.std.specs.Prelude.{◌≡◌};
ghost use Rattle.wire_core.specs.declared.bad.DecodeFault.TheVariants as faults;
ghost use Rattle.wire_core.specs.Part.{Part};
ghost use Rattle.wire_core.specs.Reading.{Reads, allowed, given};

use reload_base::NoMemory;

/// What is wrong with the first field that can't be read.
#[derive(Clone, Copy, Debug, PartialEq, Eq)]
pub enum Reason {
    /// The enclosing part ends before the field does. The place is that part's end.
    Short = 1,
    /// A length says more than is left in its part. The place is the length's first byte.
    LengthPast = 2,
    /// A field has a value that its layout doesn't allow. The place is the field's first byte.
    BadValue = 3,
    /// Bytes are left in a part whose content is complete. The place is the first such byte.
    Trailing = 4,
    /// A length passes a limit. The place is the length's first byte.
    TooLarge = 5,
}

/// The first fault of some bytes in the order of their layout.
#[derive(Clone, Copy, Debug, PartialEq, Eq)]
pub struct Bad {
    /// Counted in bytes from the front of the whole input.
    pub place: u64,
    pub reason: Reason,
}

/// Why there is no value.
#[derive(Clone, Copy, Debug, PartialEq, Eq)]
pub enum DecodeFault {
    /// The bytes spell none.
    Bad(Bad),
    /// There was no memory for it.
    NoMemory,
}

impl From<Bad> for DecodeFault {
    ghost from_gives = { λ bad fault. fault ≡ faults.Bad bad };

    fn from(bad: Bad) -> DecodeFault {
        DecodeFault::Bad(bad)
    }
}

impl From<NoMemory> for DecodeFault {
    ghost from_gives = { λ _ fault. fault ≡ faults.NoMemory };

    fn from(_error: NoMemory) -> DecodeFault {
        DecodeFault::NoMemory
    }
}

/// A test as a step of reading: a fault at a place unless it holds.
#[tactic(auto, unfolding(crate::specs::Reading::allowed))]
pub fn allowed(test: bool, place: u64, reason: Reason) -> Result<(), Bad>
    ensures { (p : Part) → Reads result p (allowed test place reason p) }
{
    if test {
        Ok(())
    } else {
        Err(Bad { place, reason })
    }
}

/// A value as a step of reading: a fault at a place where there is none.
#[tactic(auto, unfolding(crate::specs::Reading::given))]
pub fn given<T>(value: Option<T>, place: u64, reason: Reason) -> Result<T, Bad>
    ensures { (p : Part) → Reads result p (given value place reason p) }
{
    match value {
        Some(value) => Ok(value),
        None => Err(Bad { place, reason }),
    }
}
