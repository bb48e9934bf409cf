//! Where an entry is reached.

use std::marker::Model;

/// Where an entry of a `Due` is reached, from its insertion until it is taken out. Contracts see a
/// number.
#[derive(Clone, Copy, Debug)]
pub struct Place {
    number: u64,
}

impl Model for Place {
    ghost use Rattle.std.specs.Prelude.{ℕ};
    ghost use Rattle.std.specs.Coded.{coded_ℕ};

    ghost Value = { ℕ };

    ghost coded = { coded_ℕ };

    ghost view = { λ p. p.number };

    ghost inverse = { λ n. record { number = n } };
}

impl Place {
    ghost use Rattle.std.specs.Prelude.{◌≡◌};

    /// The place of an id.
    pub(crate) fn of(id: u64) -> Place
        ensures { result ≡ id }
    {
        Place { number: id }
    }

    /// The id that has this place.
    pub(crate) fn id(self) -> u64
        ensures { result ≡ self }
    {
        self.number
    }
}
