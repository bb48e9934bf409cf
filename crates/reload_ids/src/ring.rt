//! Ways and intervals on the ring (RFC 6940, section 10.1).

ghost use Rattle.std.specs.Prelude.{◌≡◌};
ghost use Rattle.reload_ids.specs.Ring.{distance, between, ppb};

/// How far it is from `a` on to `b`, in the direction of rising ids: b - a modulo 2^128.
pub fn distance(a: u128, b: u128) -> u128
    ensures { result ≡ distance a b }
{
    b.wrapping_sub(a)
}

/// Whether `k` comes after `a`, up to and including `b`. Where `a` is `b` the interval is the whole
/// ring.
pub fn between(a: u128, k: u128, b: u128) -> bool
    ensures { result ≡ between a k b }
{
    let way = distance(a, k);
    a == b || (0 < way && way <= distance(a, b))
}

/// The share of the ring that a range of this many ids is, in parts of 10^9 and rounded down.
pub fn ppb(range: u128) -> u32
    ensures { result ≡ ppb range }
{
    (((range >> 32) * 1_000_000_000) >> 96) as u32
}
