//! `kind ID MODEL POLICY COUNT SIZE MULT`

ghost use Rattle.std.specs.Prelude.{◌≡◌, ◌≤◌, IfSome};
ghost use Rattle.scenario_text.specs.Lines.Kind.{is_keyed, is_multiple, kind_of, limits_in, model_of, model_text, policy_of, policy_text};

use access_policy::Policy;
use data_models::{DataModel, KindDef, MAX_COUNT, MAX_MULTIPLE, MAX_SIZE};
use text_words::{Pieces, allowed, decimal_of, number_of};

const MODELS: [DataModel; 3] = [DataModel::Single, DataModel::Array, DataModel::Dictionary];

const POLICIES: [Policy; 4] = [
    Policy::UserMatch,
    Policy::NodeMatch,
    Policy::UserNodeMatch,
    Policy::NodeMultiple,
];

/// The word of a model.
#[tactic(auto, unfolding(crate::specs::Lines::Kind::model_text))]
pub fn model_text(model: DataModel) -> &'static [u8]
    ensures { result.now ≡ model_text model }
{
    match model {
        DataModel::Single => b"single",
        DataModel::Array => b"array",
        DataModel::Dictionary => b"dictionary",
    }
}

#[tactic(auto, unfolding(crate::specs::Lines::Kind::model_of))]
fn model_of(word: &[u8]) -> Option<DataModel>
    ensures { result ≡ model_of word.now }
{
    MODELS
        .iter()
        .copied()
        .find(|model| model_text(*model) == word)
}

/// The word of a policy.
#[tactic(auto, unfolding(crate::specs::Lines::Kind::policy_text))]
pub fn policy_text(policy: Policy) -> &'static [u8]
    ensures { result.now ≡ policy_text policy }
{
    match policy {
        Policy::UserMatch => b"user-match",
        Policy::NodeMatch => b"node-match",
        Policy::UserNodeMatch => b"user-node-match",
        Policy::NodeMultiple => b"node-multiple",
    }
}

#[tactic(auto, unfolding(crate::specs::Lines::Kind::policy_of))]
fn policy_of(word: &[u8]) -> Option<Policy>
    ensures { result ≡ policy_of word.now }
{
    POLICIES
        .iter()
        .copied()
        .find(|policy| policy_text(*policy) == word)
}

// A number of resources goes with NODE-MULTIPLE alone.
fn is_multiple(policy: Policy, multiple: u64) -> bool
    ensures { result ≡ is_multiple policy multiple }
{
    match policy {
        Policy::NodeMultiple => multiple >= 1,
        _ => multiple == 0,
    }
}

// USER-NODE-MATCH goes with dictionaries alone.
fn is_keyed(policy: Policy, model: DataModel) -> bool
    ensures { result ≡ is_keyed policy model }
{
    match (policy, model) {
        (Policy::UserNodeMatch, DataModel::Single | DataModel::Array) => false,
        _ => true,
    }
}

// The most slots, the most bytes of a value, and the number of resources.
#[tactic(auto, unfolding(crate::specs::Lines::Kind::limits_in))]
fn limits_in(mut words: Pieces<'_>) -> Option<(u64, u64, u64)>
    ensures value { result ≡ limits_in words.entry }
    ensures within { IfSome result (λ r. (r.0 ≤ MAX_COUNT) × (r.1 ≤ MAX_SIZE)
        × (r.2 ≤ MAX_MULTIPLE)) }
{
    let count = number_of(1, u64::from(MAX_COUNT), words.take()?)?;
    let size = decimal_of(u64::from(MAX_SIZE), words.take()?)?;
    let multiple = decimal_of(u64::from(MAX_MULTIPLE), words.only()?)?;
    Some((count, size, multiple))
}

/// The kind that is declared.
#[tactic(auto, unfolding(crate::specs::Lines::Kind::kind_of))]
pub fn kind_of(mut words: Pieces<'_>) -> Option<KindDef>
    ensures { result ≡ kind_of words.entry }
{
    let id = decimal_of(u64::from(u32::MAX), words.take()?)?;
    let model = model_of(words.take()?)?;
    let policy = policy_of(words.take()?)?;
    let (count, size, multiple) = limits_in(words)?;
    allowed(is_multiple(policy, multiple) && is_keyed(policy, model))?;
    Some(KindDef {
        id: id as u32,
        model,
        policy,
        max_count: count as u32,
        max_size: size as u32,
        multiple: multiple as u32,
    })
}
