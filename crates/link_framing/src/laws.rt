//! Laws of streams, each the contract of a function that does nothing. A `feed` that found memory
//! and a `take` that gave a frame are the calls that they speak of. Any other answer leaves the
//! reader as it was.

ghost use Rattle.std.specs.Prelude.{◌≡◌, ◌++◌, ℕ, List, length};
ghost use Rattle.std.specs.List.{flat_map, AllByRecursion};
ghost use Rattle.wire_core.specs.Part.{Part};
ghost use Rattle.wire_core.specs.Layout.{IsLayout};
ghost use Rattle.link_framing.specs.declared.frame.Frame.{Frame};
ghost use Rattle.link_framing.specs.Framing.{frame, IsFrame};
ghost use Rattle.link_framing.specs.Reading.{frame_at};
ghost use Rattle.link_framing.specs.Streams.{IsBadType, IsTooLarge, IsEnd, Stream, Call, Run, fed_by, taken_by, nothing};

/// A frame is read as it is spelled, whatever follows, and nothing else is.
pub fn frames_are_layouts()
    ensures { IsLayout IsFrame frame frame_at }
{}

/// After any calls on a new reader, the bytes fed are the spellings of the frames taken, in order,
/// and then the bytes that are held. Where no further frame can be taken, they stand so as a
/// stream.
pub fn fed_is_taken_and_held()
    ensures bytes { (calls : List Call) → (held : Part) → Run nothing calls held
        → fed_by calls ≡ flat_map frame (taken_by calls) ++ held.bytes }
    ensures frames { (calls : List Call) → (held : Part) → Run nothing calls held
        → AllByRecursion IsFrame (taken_by calls) }
    ensures place { (calls : List Call) → (held : Part) → Run nothing calls held
        → held.place ≡ length (flat_map frame (taken_by calls)) }
    ensures stream { (calls : List Call) → (held : Part) → Run nothing calls held → IsEnd held.bytes
        → Stream (taken_by calls) (fed_by calls) held.bytes }
{}

/// A stream is read in one way.
pub fn one_reading()
    ensures { (fs gs : List Frame) → (bytes rest last : List ℕ)
        → Stream fs bytes rest → Stream gs bytes last → (fs ≡ gs) × (rest ≡ last) }
{}

/// Two readers that were fed the same stream, however it was cut and whenever frames were taken,
/// have given the same frames, once neither has a further one.
pub fn any_cutting()
    ensures { (a b : List Call) → (x y : Part) → Run nothing a x → Run nothing b y
        → fed_by a ≡ fed_by b → IsEnd x.bytes → IsEnd y.bytes
        → (taken_by a ≡ taken_by b) × (x ≡ y) }
{}

/// A fault stays at its place, whatever calls follow.
pub fn faults_stay()
    ensures bad_type { (calls : List Call) → (old new : Part) → Run old calls new
        → IsBadType old.bytes → IsBadType new.bytes × (new.place ≡ old.place) }
    ensures too_large { (calls : List Call) → (old new : Part) → Run old calls new
        → IsTooLarge old.bytes → IsTooLarge new.bytes × (new.place ≡ old.place) }
{}
