//! A value that a slot holds, in memory of its own.

ghost use Rattle.std.specs.Prelude.{◌≡◌, IfOk};

use reload_base::{NoMemory, TryCopy};
use std::alloc::Global;
use std::marker::Model;
use storage_model::Held;

/// A value that a slot holds, in memory of its own: an ordered map has room for many slots where
/// there is one. Contracts see the value.
#[derive(Debug, Drop)]
pub struct BoxedHeld {
    held: Box<Held>,
}

impl Model for BoxedHeld {
    ghost use Rattle.storage_model.specs.declared.record.Held as declared;
    ghost use Rattle.storage_model.specs.contracts.record.Held as of_held;

    ghost Value = { declared.Held };

    ghost coded = { of_held.the_row.coded };

    ghost view = { λ b. b.held.value };
}

impl BoxedHeld {
    /// Moves a value into memory of its own.
    pub fn new(alloc: Global, held: Held) -> Result<BoxedHeld, NoMemory>
        ensures { IfOk result (λ boxed. boxed ≡ held) }
    {
        Ok(BoxedHeld {
            held: Box::new(alloc, held)?,
        })
    }

    /// The value.
    pub fn get(&self) -> &Held
        ensures { result.now ≡ self.now }
    {
        self.held.as_ref()
    }
}

impl TryCopy for BoxedHeld {
    fn copy(&self, alloc: Global) -> Result<BoxedHeld, NoMemory> {
        BoxedHeld::new(alloc, self.get().copy(alloc)?)
    }
}
