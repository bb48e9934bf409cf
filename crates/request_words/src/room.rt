//! Lists that mostly have one item.

ghost use Rattle.std.specs.Prelude.{◌≡◌, [], ◌∷◌, ◌++◌, OnOk, OnErr};

use reload_base::{List, NoMemory};

/// Adds an item at the end. The first item takes memory for itself alone, and not for more: most
/// lists of a request have one. After `NoMemory` the list is as before.
pub fn push_tight<T: Drop>(list: &mut List<T>, item: T) -> Result<(), NoMemory>
    ensures ok { OnOk result (list.new ≡ list.old ++ item ∷ []) }
    ensures err { OnErr result (list.new ≡ list.old) }
{
    if list.is_empty() {
        list.reserve(1)?;
    }
    list.push(item)
}
