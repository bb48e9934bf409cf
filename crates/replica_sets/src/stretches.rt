//! The stretches of a rising list of resources that a range owns: at most two, since the ring goes
//! on behind its greatest id at 0.

ghost use Rattle.std.specs.Prelude.{◌≡◌, ◌<◌, ◌≤◌, ◌^◌, ◌-◌, ◌++◌, length, slice_get, filter, not};
ghost use Rattle.std.specs.List.{All};
ghost use Rattle.std.specs.Option.{option_map};
ghost use Rattle.reload_ids.specs.Ring.{between};
ghost use Rattle.replica_sets.specs.Refills.{owns};
ghost use Rattle.replica_sets.specs.Rising.{IsRising};

use crate::range::Range;
use reload_ids::ResourceId;

/// The greatest of some resources that rise.
fn greatest(held: &[ResourceId]) -> Option<u128>
    ensures { result ≡ option_map (λ r. r.0) (slice_get held.now (length held.now - 1)) }
{
    Some(held.last()?.0)
}

/// The resources up to and including a place, and those above it. Where there is none above it, no
/// search is needed.
fn split(held: &[ResourceId], place: u128) -> (&[ResourceId], &[ResourceId])
    requires { IsRising held.now }
    ensures whole { held.now ≡ result.0.now ++ result.1.now }
    ensures until { All (λ r. r.0 ≤ place) result.0.now }
    ensures above { All (λ r. (place < r.0) × (r.0 < 2 ^ 128)) result.1.now }
{
    match greatest(held) {
        Some(greatest) if place < greatest => {
            held.split_at(held.partition_point(|r| r.0 <= place))
        }
        _ => (held, &[]),
    }
}

/// The resources behind a place, up to and including another, as two stretches.
fn behind(held: &[ResourceId], from: u128, to: u128) -> (&[ResourceId], &[ResourceId])
    requires { IsRising held.now }
    ensures { result.0.now ++ result.1.now ≡ filter (λ r. between from r.0 to) held.now }
{
    if from == to {
        return (held, &[]);
    }
    let (until, above) = split(held, to);
    if from < to {
        (split(until, from).1, &[])
    } else {
        (until, split(above, from).1)
    }
}

/// The resources that don't lie behind a place, up to and including another: on the ring they lie
/// behind that, up to and including the first. They are two stretches.
fn outside(held: &[ResourceId], from: u128, to: u128) -> (&[ResourceId], &[ResourceId])
    requires { IsRising held.now }
    ensures { result.0.now ++ result.1.now ≡ filter (λ r. not (between from r.0 to)) held.now }
{
    if from == to {
        return (&[], &[]);
    }
    behind(held, to, from)
}

/// The resources that a range owns, as two stretches.
#[tactic(auto, unfolding(crate::specs::Refills::owns))]
pub fn owned<'a>(held: &'a [ResourceId], range: &Range) -> (&'a [ResourceId], &'a [ResourceId])
    requires { IsRising held.now }
    ensures { result.0.now ++ result.1.now ≡ filter (λ r. owns range.now r) held.now }
{
    if !range.owning {
        return (&[], &[]);
    }
    match range.from {
        Some(from) => behind(held, from.0, range.me.0),
        None => (held, &[]),
    }
}

/// The resources that a range doesn't own, as two stretches.
#[tactic(auto, unfolding(crate::specs::Refills::owns))]
pub fn unowned<'a>(held: &'a [ResourceId], range: &Range) -> (&'a [ResourceId], &'a [ResourceId])
    requires { IsRising held.now }
    ensures { result.0.now ++ result.1.now ≡ filter (λ r. not (owns range.now r)) held.now }
{
    if !range.owning {
        return (held, &[]);
    }
    match range.from {
        Some(from) => outside(held, from.0, range.me.0),
        None => (&[], &[]),
    }
}
