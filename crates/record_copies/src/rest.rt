//! Items that are taken from the front.

ghost use Rattle.std.specs.Prelude.{◌≡◌, ◌∷◌, [], MatchOption};

use reload_base::List;
use std::collections::VecDeque;
use std::marker::Model;

/// Items that are taken from the front, one after the other. Contracts see the list of those that
/// are left.
#[derive(Debug, Drop)]
pub(crate) struct Rest<T> {
    items: VecDeque<T>,
}

impl<T> Model for Rest<T> {
    ghost use Rattle.std.specs.Prelude as words;
    ghost use Rattle.std.specs.Coded.{coded_list};

    ghost Value = { words.List T };

    ghost coded = { coded_list T.code };

    ghost view = { λ r. r.items.items };
}

impl<T> Rest<T> {
    /// All items of a list, as they lie there.
    pub(crate) fn of(list: List<T>) -> Rest<T>
        ensures { result ≡ list }
    {
        Rest {
            items: VecDeque::from(list.into_vec()),
        }
    }

    /// Takes the first item.
    pub(crate) fn take(&mut self) -> Option<T>
        ensures { MatchOption result ((self.old ≡ []) × (self.new ≡ []))
            (λ first. self.old ≡ first ∷ self.new) }
    {
        self.items.pop_front()
    }
}
