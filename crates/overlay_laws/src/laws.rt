//! Laws of a ring whose tables don't change, whatever is delivered, lost, repeated and asked in
//! whichever order.

ghost use Rattle.std.specs.Prelude.{◌≡◌, ◌≢◌, ℕ, ◌^◌, ◌<◌, ◌≤◌, true, List, length, Some, None, Ok};
ghost use Rattle.std.specs.List.{AllByRecursion};
ghost use Rattle.std.specs.FinMap.{get};
ghost use Rattle.reload_ids.specs.declared.NodeId.{NodeId};
ghost use Rattle.reload_ids.specs.declared.ResourceId.{ResourceId};
ghost use Rattle.reload_ids.specs.Ring.{distance};
ghost use Rattle.chord_tables.specs.Tables.{Tables, owns};
ghost use Rattle.ring_laws.specs.Members.{IsAmong, AreMembers, IsOwner, IsExact};
ghost use Rattle.wire_core.specs.declared.limits.TheConstants.{MAX_MESSAGE};
ghost use Rattle.wire_core.specs.Part.{part};
ghost use Rattle.wire_core.specs.Spelling.{AreBytes};
ghost use Rattle.link_framing.specs.declared.frame.Frame.TheVariants.{Payload, Ack};
ghost use Rattle.link_framing.specs.Framing.{frame};
ghost use Rattle.wire_core.specs.Reading.{value_of, number_at};
ghost use Rattle.forwarding_header.specs.declared.header.Header.{Header};
ghost use Rattle.forwarding_header.specs.Header.{IsSpelledHeader, IsHeaderInRange};
ghost use Rattle.node_messages.specs.Making.{with_length, whole};
ghost use Rattle.data_models.specs.declared.config.Config.{Config};
ghost use Rattle.data_models.specs.Configs.{IsConfig};
ghost use Rattle.request_words.specs.declared.node.DeclaredNode.{DeclaredNode};
ghost use Rattle.node_messages.specs.Signed.{SignerWords};
ghost use Rattle.storage_model.specs.Records.{record_in};
ghost use Rattle.storage_model.specs.Decisions.{IsLegal, IsOnce};
ghost use Rattle.storage_model.specs.Laws.{map_of};
ghost use Rattle.node_model.specs.declared.course.Course.TheVariants.{Owned, Forwarded};
ghost use Rattle.node_model.specs.declared.peer_state.PeerState.TheVariants.{Member};
ghost use Rattle.node_model.specs.Heard.{Envelope, envelope_of, payload_in, ttl_of};
ghost use Rattle.node_model.specs.Courses.{onward, course};
ghost use Rattle.node_model.specs.Nodes.{Cause};
ghost use Rattle.node_model.specs.Peers.{Peer, peer_step};
ghost use Rattle.node_model.specs.Clients.{Client, client_step};
ghost use Rattle.run_model.specs.Worlds.{APeer, AreApart, first_world};
ghost use Rattle.overlay_laws.specs.Bytes.{AreAllBytes};
ghost use Rattle.overlay_laws.specs.Gives.{GivesLastPuts, GivesAtDecisions, HoldsPermitted, InTime};
ghost use Rattle.overlay_laws.specs.Sources.{IsAnswerOf, IsRequestOf, Source, Origin};
ghost use Rattle.overlay_laws.specs.Ways.{IsRouted};
ghost use Rattle.run_model.specs.Runs.{Event, world_after, happenings, decisions_in};

/// The decisions, taken in order, are those of one map, which no node has.
pub fn decisions_are_those_of_one_map()
    ensures { (words : SignerWords) (config : Config) (names : List DeclaredNode)
        (events : List Event) → AreApart names
        → IsLegal (decisions_in config (happenings words (first_world config names) events)) }
{}

/// Each Store acts at most once, whatever is repeated, and the storage times accepted in one slot
/// rise: under a configuration within its limits, where what the frames hold are bytes.
pub fn stores_act_once_in_every_run()
    ensures { (words : SignerWords) (config : Config) (names : List DeclaredNode)
        (events : List Event) → AreApart names → IsConfig config
        → let w = first_world config names in
        AreAllBytes (world_after words w events)
        → IsOnce (decisions_in config (happenings words w events)) }
{}

/// The clocks of decisions never fall.
pub fn clocks_never_fall()
    ensures { (words : SignerWords) (config : Config) (names : List DeclaredNode)
        (events : List Event)
        → InTime (decisions_in config (happenings words (first_world config names) events)) }
{}

/// A Fetch is given for each slot the value that was last put there by an acting Store, if that
/// hasn't expired, else a gap: at any moment, at a clock that isn't before that of any decision so
/// far, and so at the clock of each decision. This is under a configuration within its limits,
/// where what the frames hold are bytes.
pub fn fetches_give_the_last_put_in_every_run()
    ensures gives { (words : SignerWords) (config : Config) (names : List DeclaredNode)
        (events : List Event) → AreApart names → IsConfig config
        → let w = first_world config names in
        AreAllBytes (world_after words w events)
        → GivesLastPuts (decisions_in config (happenings words w events)) }
    ensures at_decisions { (words : SignerWords) (config : Config) (names : List DeclaredNode)
        (events : List Event) → AreApart names → IsConfig config
        → let w = first_world config names in
        AreAllBytes (world_after words w events)
        → GivesAtDecisions (decisions_in config (happenings words w events)) }
{}

/// Nothing that wasn't permitted is ever held, under a configuration within its limits, where what
/// the frames hold are bytes.
pub fn only_what_is_permitted_is_held_in_every_run()
    ensures { (words : SignerWords) (config : Config) (names : List DeclaredNode)
        (events : List Event) → AreApart names → IsConfig config
        → let w = first_world config names in
        AreAllBytes (world_after words w events)
        → HoldsPermitted (decisions_in config (happenings words w events)) }
{}

/// At each moment no two peers own one id.
pub fn each_id_has_one_owner()
    ensures { (words : SignerWords) (config : Config) (names : List DeclaredNode)
        (events : List Event) (n k : ℕ) (p q : Peer) (id : ℕ) → AreApart names
        → let w = world_after words (first_world config names) events in
        get w.actors n ≡ Some (APeer p) → get w.actors k ≡ Some (APeer q)
        → owns p.tables id ≡ true → owns q.tables id ≡ true → n ≡ k }
{}

/// At each moment the record of a resource at the peer that owns it is that of the one map.
pub fn owners_have_the_record_of_the_one_map()
    ensures { (words : SignerWords) (config : Config) (names : List DeclaredNode)
        (events : List Event) (n : ℕ) (p : Peer) (resource : ℕ) → AreApart names
        → let w = first_world config names in
        get (world_after words w events).actors n ≡ Some (APeer p)
        → owns p.tables resource ≡ true
        → record_in p.records resource
        ≡ record_in (map_of (decisions_in config (happenings words w events))) resource }
{}

/// A request for a resource stays with the member that owns it, and goes on from each other one to
/// a member that is nearer to the owner, with one hop less and the node that it came from behind
/// its via list.
pub fn requests_go_to_the_owner()
    ensures owner { (members : List ℕ) (from : NodeId) (t : Tables) (size : ℕ)
        (resource : ResourceId) (h : Header) → AreMembers members → resource.0 < 2 ^ 128
        → IsExact members t → IsRouted size resource h → IsOwner members resource.0 t.me
        → course from t Member size h ≡ Owned resource }
    ensures others { (members : List ℕ) (from : NodeId) (t : Tables) (size : ℕ)
        (resource : ResourceId) (h : Header) (owner : ℕ) → AreMembers members
        → resource.0 < 2 ^ 128 → IsExact members t → IsRouted size resource h → 1 < ttl_of h
        → IsOwner members resource.0 owner → t.me ≢ owner
        → (next : ℕ)
        × (course from t Member size h ≡ Forwarded (record { 0 = next }) (onward from h h.dest))
        × IsAmong next members
        × (distance next owner < distance t.me owner) }
{}

/// A node sends acks, and payloads with messages that it made, that it passes on behind another
/// header, or that it keeps to send them again. A request that goes on has a via list that ends with
/// the node that it came from. Peers make answers alone, and clients Stores and Fetches.
pub fn nodes_send_what_they_make_hear_or_keep()
    ensures peers { (words : SignerWords) (now : ℕ) (cause : Cause) (p : Peer)
        → let s = peer_step words now cause p in
        AllByRecursion (Origin (Source words p.node.about p.node.config cause p.txns
        s.node.txns IsAnswerOf)) s.outputs.frames }
    ensures clients { (words : SignerWords) (now : ℕ) (cause : Cause) (c : Client)
        → let s = client_step words now cause c in
        AllByRecursion (Origin (Source words c.node.about c.node.config cause c.txns
        s.node.txns IsRequestOf)) s.outputs.frames }
{}

/// A message that goes on behind a header that fits is read, where it arrives, as that header, its
/// length filled in, and all that was behind the old one.
pub fn what_goes_on_is_read_as_it_was()
    ensures { (h : Header) (e : Envelope) → IsSpelledHeader h → IsHeaderInRange h
        → length (whole h e.behind) ≤ MAX_MESSAGE
        → value_of (number_at 2 (part 0 e.behind)) ≡ Ok e.code
        → envelope_of (whole h e.behind) ≡ Some (record e { header = with_length h e.behind }) }
{}

/// The frame of a payload carries its message and no other, and that of an ack carries none, where
/// what they hold are bytes.
pub fn payloads_carry_their_messages()
    ensures payloads { (sequence : ℕ) (message : List ℕ) (x : ℕ × List ℕ)
        → AreBytes (frame (Payload sequence message))
        → payload_in (frame (Payload sequence message)) ≡ Some x → x.1 ≡ message }
    ensures acks { (sequence mask : ℕ) → AreBytes (frame (Ack sequence mask))
        → payload_in (frame (Ack sequence mask)) ≡ None }
{}
