//! What is due, by id.

ghost use Rattle.std.specs.Prelude.{ℕ, ◌≡◌, ◌==◌, ◌<◌, cond, Some, None, IsSome, IfSome};
ghost use Rattle.transaction_table.specs.Timed.{time_of, passed};

use due_list::Due;

/// Adds an id that is due at a time in milliseconds, and heads the outbox to its owner, if it has
/// one. Memory for it is there.
pub fn set(due: &mut Due, id: u64, time: u64, owner: Option<u128>)
    requires room { 0 < due.old.spare }
    requires new { time_of id due.old.entries ≡ None }
    ensures { (k : ℕ) → time_of k due.new.entries
        ≡ cond (id == k) (Some (time, owner)) (time_of k due.old.entries) }
{
    let place = due.insert_for(owner, time, id);
    prove!(place.is_ok());
}

/// Takes an id out. Its memory serves another one.
pub fn clear(due: &mut Due, id: u64)
    requires { IsSome (time_of id due.old.entries) }
    ensures times { (k : ℕ) → time_of k due.new.entries
        ≡ cond (id == k) None (time_of k due.old.entries) }
    ensures room { 0 < due.new.spare }
{
    let place = due.place_of(id);
    due.unlink(place);
}

/// Takes an id out, and adds the next one, if there is one, which is due at a time in milliseconds.
/// No memory is taken.
pub fn pass(due: &mut Due, ended: u64, next: Option<u64>, time: u64, owner: Option<u128>)
    requires ended { IsSome (time_of ended due.old.entries) }
    requires next { IfSome next
        (λ id. cond (ended == id) None (time_of id due.old.entries) ≡ None) }
    ensures { (k : ℕ) → time_of k due.new.entries
        ≡ passed ended next (time, owner) k (time_of k due.old.entries) }
{
    clear(due, ended);
    if let Some(id) = next {
        set(due, id, time, owner);
    }
}
