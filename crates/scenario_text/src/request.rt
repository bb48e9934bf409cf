//! What each request begins with.

ghost use Rattle.std.specs.Prelude.{◌≡◌, ◌-◌, ◌^◌, IfOk, codes, option_map};
ghost use Rattle.text_words.specs.Decimal.{decimal_of};
ghost use Rattle.text_words.specs.Labelled.{optional_of};
ghost use Rattle.text_words.specs.Steps.{part_of};
ghost use Rattle.scenario_text.specs.Requests.{address_of};
ghost use Rattle.request_words.specs.Resources.{resource_of};

use reload_base::NoMemory;
use request_words::{ResourceName, resource_of};
use std::alloc::Global;
use text_words::{Pieces, decimal_of, take_labelled};

/// Who asks whom for which resource.
#[derive(Debug, Drop)]
pub struct Address {
    /// The number of the client.
    pub client: u32,
    /// The number of the peer.
    pub peer: u32,
    pub resource: ResourceName,
}

/// Takes the words `C P RES`.
#[tactic(auto, unfolding(crate::specs::Requests::address_of))]
pub fn take_address(alloc: Global, words: &mut Pieces<'_>) -> Result<Option<Address>, NoMemory>
    ensures { IfOk result (λ address. option_map (λ a. (a, words.new)) address
        ≡ address_of words.old) }
{
    let Some(client) = take_number(words) else {
        return Ok(None);
    };
    let Some(peer) = take_number(words) else {
        return Ok(None);
    };
    let Some(resource) = take_resource(alloc, words)? else {
        return Ok(None);
    };
    Ok(Some(Address {
        client,
        peer,
        resource,
    }))
}

// Takes a number of 32 bits.
fn take_number(words: &mut Pieces<'_>) -> Option<u32>
    ensures { option_map (λ n. (n, words.new)) result
        ≡ part_of (decimal_of (2 ^ 32 - 1)) words.old }
{
    Some(decimal_of(u64::from(u32::MAX), words.take()?)? as u32)
}

fn take_resource(alloc: Global, words: &mut Pieces<'_>) -> Result<Option<ResourceName>, NoMemory>
    ensures { IfOk result (λ resource. option_map (λ r. (r, words.new)) resource
        ≡ part_of resource_of words.old) }
{
    match words.take() {
        None => Ok(None),
        Some(word) => resource_of(alloc, word),
    }
}

/// Takes the word `ttl=N`, where there is one: how many hops a request may go.
pub fn take_ttl(words: &mut Pieces<'_>) -> Option<Option<u8>>
    ensures { option_map (λ ttl. (ttl, words.new)) result
        ≡ optional_of (codes "ttl=") 255 words.old }
{
    match take_labelled(words, b"ttl=", u64::from(u8::MAX))? {
        None => Some(None),
        Some(hops) => Some(Some(hops as u8)),
    }
}
