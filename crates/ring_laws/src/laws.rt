//! Laws of the ring, for every list of members.

ghost use Rattle.std.specs.Prelude.{◌≡◌, ◌≢◌, ◌↔◌, ℕ, ◌^◌, ◌<◌, IsTrue, true};
ghost use Rattle.std.specs.Prelude.{List, [], ◌∷◌, ◌++◌, length};
ghost use Rattle.reload_ids.specs.Ring.{distance};
ghost use Rattle.chord_tables.specs.Neighbours.{without};
ghost use Rattle.chord_tables.specs.Tables.{Tables, alone, merged, owns, removed};
ghost use Rattle.peer_routing.specs.declared.Hop.TheVariants.{Here, To};
ghost use Rattle.peer_routing.specs.Routes.{next_hop};
ghost use Rattle.ring_laws.specs.Members.{IsAmong, AreAmong, AreMembers, IsOwner, AreNearest};
ghost use Rattle.ring_laws.specs.Members.{IsExact, AreExact, IsEnough, set_fingers};
ghost use Rattle.ring_laws.specs.Members.{IsWalk, LeadsToOwner};

/// Where there is a member, each id has an owner, and only one; a member whose tables are exact
/// tells by them whether it is the one (RFC 6940, 10.1).
pub fn one_owner()
    ensures some { (members : List ℕ) (k : ℕ) → AreMembers members → 0 < length members
        → k < 2 ^ 128 → (m : ℕ) × IsOwner members k m }
    ensures one { (members : List ℕ) (k m n : ℕ) → AreMembers members → k < 2 ^ 128
        → IsOwner members k m → IsOwner members k n → m ≡ n }
    ensures owns { (members : List ℕ) (t : Tables) (k : ℕ) → AreMembers members → k < 2 ^ 128
        → IsExact members t → IsTrue (owns t k) ↔ IsOwner members k t.me }
{}

/// Exact tables have on each side the nearest of the other members, the nearest first: as many as
/// this profile has, or as there are. In which order the members are named is no matter.
pub fn neighbours_are_the_nearest()
    ensures predecessors { (members : List ℕ) (t : Tables) → AreMembers members
        → IsExact members t → AreNearest members t.me (λ x. distance x t.me) t.predecessors }
    ensures successors { (members : List ℕ) (t : Tables) → AreMembers members
        → IsExact members t → AreNearest members t.me (λ x. distance t.me x) t.successors }
    ensures any_order { (members others : List ℕ) (t : Tables) → AreMembers members
        → AreMembers others → AreAmong members others → AreAmong others members
        → IsExact members t → IsExact others t }
{}

/// A member whose tables are exact handles what is for an id that it owns, and hands all else on to
/// a member that is nearer to the owner (RFC 6940, 10.3).
pub fn hops_go_nearer_to_the_owner()
    ensures owner { (members : List ℕ) (t : Tables) (k : ℕ) → AreMembers members → k < 2 ^ 128
        → IsExact members t → IsOwner members k t.me → next_hop t true k ≡ Here }
    ensures other { (members : List ℕ) (t : Tables) (k o : ℕ) → AreMembers members → k < 2 ^ 128
        → IsExact members t → IsOwner members k o → t.me ≢ o
        → (x : ℕ) × (next_hop t true k ≡ To (record { 0 = x })) × IsAmong x members
        × (distance x o < distance t.me o) }
{}

/// Where the tables of all members are exact, there is one walk from each member to each id. It
/// names members alone, at most as many as there are, and ends at the id's owner (RFC 6940, 10.3).
pub fn walks_end_at_the_owner()
    ensures walk { (members : List ℕ) (tables : ℕ → Tables) (p k : ℕ) → AreMembers members
        → AreExact members tables → IsAmong p members → k < 2 ^ 128
        → (path : List ℕ) × IsWalk tables k p path × LeadsToOwner members k path }
    ensures one { (tables : ℕ → Tables) (p k : ℕ) (path other : List ℕ) → IsWalk tables k p path
        → IsWalk tables k p other → path ≡ other }
{}

/// A merge leaves exact tables where the two lists and what is merged name nobody but members, and
/// at least those next to the peer. So exact tables stay exact at a merge of members, and a peer
/// that knew nobody has exact tables once it has merged all members.
pub fn merging_what_is_enough()
    ensures enough { (members others : List ℕ) (t : Tables) → AreMembers members
        → IsAmong t.me members → AreAmong (set_fingers t) members
        → IsEnough members t.me (t.predecessors ++ t.successors ++ others)
        → IsExact members (merged others t) }
    ensures again { (members others : List ℕ) (t : Tables) → AreMembers members
        → IsExact members t → AreAmong others members → IsExact members (merged others t) }
    ensures all { (members : List ℕ) (p : ℕ) → AreMembers members → IsAmong p members
        → IsExact members (merged members (alone p)) }
{}

/// With a joiner, the tables of each member are exact once it has merged the joiner, alone or with
/// other members, and those of the joiner once it has merged the peer that owned its id and that
/// peer's neighbours, which the hand-over Update names behind the joiner itself.
pub fn merging_a_joiner()
    ensures member { (members : List ℕ) (j : ℕ) (t : Tables) → AreMembers (j ∷ members)
        → IsExact members t → IsExact (j ∷ members) (merged (j ∷ []) t) }
    ensures among_others { (members : List ℕ) (j : ℕ) (others : List ℕ) (t : Tables)
        → AreMembers (j ∷ members) → IsExact members t → IsAmong j others
        → AreAmong others (j ∷ members) → IsExact (j ∷ members) (merged others t) }
    ensures joiner { (members : List ℕ) (j : ℕ) (o : Tables) → AreMembers (j ∷ members)
        → IsExact members o → IsTrue (owns o j)
        → IsExact (j ∷ members) (merged (o.me ∷ o.predecessors ++ o.successors) (alone j)) }
    ensures handed_over { (members : List ℕ) (j : ℕ) (o : Tables) → AreMembers (j ∷ members)
        → IsExact members o → IsTrue (owns o j)
        → IsExact (j ∷ members) (merged (o.me ∷ j ∷ o.predecessors ++ o.successors) (alone j)) }
{}

/// Without a leaver, the tables of each other member are exact once it has taken the leaver out and
/// merged what the leaver tells it: a successor its predecessors, a predecessor its successors, and
/// who is neither its predecessors (this profile).
pub fn removing_a_leaver()
    ensures members { (members : List ℕ) (l : ℕ) → AreMembers members
        → AreMembers (without l members) }
    ensures successor { (members : List ℕ) (t l : Tables) → AreMembers members → IsExact members t
        → IsExact members l → t.me ≢ l.me → IsAmong t.me l.successors
        → IsExact (without l.me members) (merged l.predecessors (removed l.me t)) }
    ensures predecessor { (members : List ℕ) (t l : Tables) → AreMembers members
        → IsExact members t → IsExact members l → t.me ≢ l.me → IsAmong t.me l.predecessors
        → IsExact (without l.me members) (merged l.successors (removed l.me t)) }
    ensures other { (members : List ℕ) (t l : Tables) → AreMembers members → IsExact members t
        → IsExact members l → t.me ≢ l.me → ¬ IsAmong t.me l.predecessors
        → ¬ IsAmong t.me l.successors
        → IsExact (without l.me members) (merged l.predecessors (removed l.me t)) }
{}
