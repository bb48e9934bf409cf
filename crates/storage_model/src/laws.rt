//! Laws of decisions, over every list of them.

ghost use Rattle.std.specs.Prelude.{◌≡◌, ℕ, ◌+◌, ◌≤◌, List, [], Some, None, ◌++◌, length};
ghost use Rattle.std.specs.List.{AllByRecursion};
ghost use Rattle.std.specs.FinMap.{empty};
ghost use Rattle.data_models.specs.declared.config.DataModel.{DataModel};
ghost use Rattle.data_models.specs.declared.stored_data.SlotKey.{SlotKey};
ghost use Rattle.data_models.specs.Stored.{key_of};
ghost use Rattle.storage_model.specs.declared.answer.Answer.TheVariants.{Decided};
ghost use Rattle.storage_model.specs.declared.limits.TheConstants.{MAX_WEIGHT};
ghost use Rattle.storage_model.specs.declared.record.Held.{Held};
ghost use Rattle.storage_model.specs.declared.record.Kept.{Kept};
ghost use Rattle.storage_model.specs.declared.request.Asked.TheVariants.{Store};
ghost use Rattle.storage_model.specs.declared.request.StoreAsked.{StoreAsked};
ghost use Rattle.storage_model.specs.Records.{Map, record_in, slot_in, kept_for, weight};
ghost use Rattle.storage_model.specs.Fetches.{given_for};
ghost use Rattle.storage_model.specs.Decisions.{Decision, only, map_after, effect_on, puts_from, puts_in, IsOnce};
ghost use Rattle.storage_model.specs.Laws.{IsKeyOf, IsSoundAsked, AreSound, IsWithin, WasPermitted, map_of, kind_at, last_put};

/// No Store acts twice, whatever comes in whichever order, and the storage times that are accepted
/// in one slot or appended to one array rise strictly.
pub fn stores_act_once()
    ensures { (models : ℕ → DataModel) (ds : List Decision) → AreSound models ds → IsOnce ds }
{}

/// The turn and the generation counters of a record rise by one at most at a decision.
pub fn decisions_bound_counters()
    ensures { (m : Map) (d : Decision) (n resource : ℕ) → IsSoundAsked d.config d.asked
        → IsWithin n (record_in m resource)
        → IsWithin (n + 1) (record_in (map_after m d) resource) }
{}

/// Floors never fall, neither those of slots nor those of appends.
pub fn floors_never_fall()
    ensures slots { (models : ℕ → DataModel) (ds more : List Decision)
        (resource kind : ℕ) (key : List ℕ)
        → AreSound models (ds ++ more)
        → (slot_in (kind_at (map_of ds) resource kind).slots key).floor
        ≤ (slot_in (kind_at (map_of (ds ++ more)) resource kind).slots key).floor }
    ensures appends { (models : ℕ → DataModel) (ds more : List Decision) (resource kind : ℕ)
        → AreSound models (ds ++ more)
        → (kind_at (map_of ds) resource kind).append_floor
        ≤ (kind_at (map_of (ds ++ more)) resource kind).append_floor }
{}

/// A repeat, while the answer to its request is kept, gets that answer, puts nothing and changes
/// nothing.
pub fn repeats_get_their_answer()
    ensures effect { (m : Map) (d : Decision) (request : StoreAsked) (kept : Kept)
        → d.asked ≡ Store request
        → kept_for (record_in m d.resource).kept d.origin.0 d.id ≡ Some kept
        → effect_on m d ≡ only (Decided kept.code kept.counters) }
    ensures same { (m : Map) (d : Decision) (request : StoreAsked) (kept : Kept)
        → d.asked ≡ Store request
        → kept_for (record_in m d.resource).kept d.origin.0 d.id ≡ Some kept
        → map_after m d ≡ m }
{}

/// At any moment a Fetch is given for a slot the value that was last put there by an acting Store,
/// if that hasn't expired, else a gap: here at a clock that isn't before that of any decision.
pub fn fetches_give_the_last_put()
    ensures { (models : ℕ → DataModel) (ds : List Decision) (now resource kind : ℕ) (key : SlotKey)
        → AreSound models ds → AllByRecursion (λ d. d.time ≤ now) ds
        → given_for now key (slot_in (kind_at (map_of ds) resource kind).slots (key_of key)).held
        ≡ given_for now key (last_put (puts_in resource kind (key_of key) (puts_from empty ds))) }
{}

/// Nothing that wasn't permitted is ever held.
pub fn only_what_is_permitted_is_held()
    ensures { (models : ℕ → DataModel) (ds : List Decision)
        (resource kind : ℕ) (key : List ℕ) (held : Held)
        → AreSound models ds
        → (slot_in (kind_at (map_of ds) resource kind).slots key).held ≡ Some held
        → WasPermitted ds resource kind held }
{}

/// No record passes its weight.
pub fn records_keep_their_weight()
    ensures { (m : Map) (d : Decision) (resource : ℕ)
        → weight (record_in m resource).kinds ≤ MAX_WEIGHT
        → weight (record_in (map_after m d) resource).kinds ≤ MAX_WEIGHT }
{}
