//! Timers in a vector, in the order in which they are due.

ghost use Rattle.std.specs.Prelude.{◌≡◌, ◌==◌, ◌+◌, ◌<◌, ◌≤◌, ◌||◌, ◌&&◌, nat_lt, length, position, insert, Some, None, IsSome, IsOk, OnOk, OnErr, vec_len, vec_capacity};
ghost use Rattle.due_list.specs.Entries.{with_entry, without, entry_at, entry_of, AreInOrder};
ghost use Rattle.due_list.specs.Timers.{placed, all_placed};

use crate::place::Place;
use reload_base::NoMemory;

/// When an id is due, in milliseconds, and whose it is.
#[derive(Clone, Copy, Debug)]
pub struct Timer {
    pub due: u64,
    pub id: u64,
    pub owner: Option<u128>,
}

/// Where the timer of an id stands.
fn index_of(timers: &[Timer], id: u64) -> Option<usize>
    ensures { result ≡ position (λ t. t.id == id) timers.now }
{
    timers.iter().position(|t| t.id == id)
}

/// Where a timer belongs in timers that rise.
fn rank(timers: &[Timer], timer: Timer) -> usize
    requires { AreInOrder (all_placed timers.now) }
    ensures within { result ≤ length timers.now }
    ensures order { with_entry (placed timer) (all_placed timers.now)
        ≡ all_placed (insert timers.now result timer) }
{
    timers.partition_point(|t| t.due < timer.due || t.due == timer.due && t.id < timer.id)
}

/// Puts a timer where it belongs. After `NoMemory` all is as before.
pub fn put(timers: &mut Vec<Timer>, timer: Timer) -> Result<(), NoMemory>
    requires { AreInOrder (all_placed timers.old.items) }
    ensures ok { OnOk result (all_placed timers.new.items
        ≡ with_entry (placed timer) (all_placed timers.old.items)) }
    ensures err { OnErr result (timers.new.items ≡ timers.old.items) }
    ensures len { vec_len timers.new ≤ vec_len timers.old + 1 }
    ensures err_len { OnErr result (vec_len timers.new ≡ vec_len timers.old) }
    ensures capacity { vec_capacity timers.old ≤ vec_capacity timers.new }
    ensures succeeds { vec_len timers.old < vec_capacity timers.old → IsOk result }
{
    let index = rank(timers.as_slice(), timer);
    timers.insert(index, timer)?;
    Ok(())
}

/// Takes the timer at a place out.
pub fn take(timers: &mut Vec<Timer>, place: Place) -> Timer
    requires { IsSome (entry_at place (all_placed timers.old.items)) }
    ensures entry { entry_at place (all_placed timers.old.items) ≡ Some (placed result) }
    ensures rest { all_placed timers.new.items ≡ without place (all_placed timers.old.items) }
    ensures len { vec_len timers.new + 1 ≡ vec_len timers.old }
    ensures capacity { vec_capacity timers.new ≡ vec_capacity timers.old }
{
    let index = index_of(timers.as_slice(), place.id()).unwrap();
    timers.remove(index)
}
