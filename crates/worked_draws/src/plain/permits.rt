//! Who may store where.

use crate::plain::slots::Place;
use crate::requests::{Group, Hashed, RESOURCES, Value, kind_at, own_key};
use access_policy::Policy;
use worked_requests::Asker;

fn user_of(asker: Asker) -> &'static str {
    match asker {
        Asker::Abc | Asker::SecondAbc | Asker::Peer => "abc",
        Asker::Test => "test",
    }
}

/// Whether a policy permits an asker to put a value at what hashes to a resource.
fn permits(asker: Asker, policy: Policy, multiple: u32, hashed: Hashed, value: Value) -> bool {
    match (policy, hashed) {
        (Policy::UserMatch, Hashed::User(name)) => name == user_of(asker),
        (Policy::UserNodeMatch, Hashed::User(name)) => {
            name == user_of(asker) && value.key == Some(own_key(asker))
        }
        (Policy::NodeMatch, Hashed::Node) => asker == Asker::Abc,
        (Policy::NodeMultiple, Hashed::NumberedNode(number)) => {
            asker == Asker::Abc && number <= multiple
        }
        _ => false,
    }
}

/// Whether an asker may put each value of a group.
pub fn permits_all(asker: Asker, place: Place, group: &Group) -> bool {
    let kind = kind_at(place.kind);
    let (_, hashed) = RESOURCES
        .get(place.resource)
        .copied()
        .unwrap_or(RESOURCES[0]);
    let mut values = group.values.as_slice().iter();
    values.all(|value| permits(asker, kind.policy, kind.multiple, hashed, *value))
}
