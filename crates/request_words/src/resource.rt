//! A resource as a word.

ghost use Rattle.std.specs.Prelude.{◌≡◌, IfOk};
ghost use Rattle.text_words.specs.Codec.{Spells};
ghost use Rattle.request_words.specs.Resources.{resource_of, resource_text, IsResource};

use reload_base::{Bytes, NoMemory};
use reload_ids::ResourceId;
use std::alloc::Global;
use text_words::{behind, id_of, is_name};

/// How a text names a resource.
#[derive(Debug, Drop)]
pub enum ResourceName {
    /// By a name, whose Resource-ID is meant.
    Name(Bytes),
    /// By its Resource-ID.
    Id(ResourceId),
}

/// The resource of a word: `@NAME`, or the 32 digits of its Resource-ID.
pub fn resource_of(alloc: Global, word: &[u8]) -> Result<Option<ResourceName>, NoMemory>
    ensures value { IfOk result (λ resource. resource ≡ resource_of word.now) }
    ensures spells { IfOk result (Spells resource_text IsResource word.now) }
{
    read(alloc, word)
}

// The same, by the first byte.
#[tactic(auto, unfolding(crate::specs::Resources::resource_of))]
fn read(alloc: Global, word: &[u8]) -> Result<Option<ResourceName>, NoMemory>
    ensures { IfOk result (λ resource. resource ≡ resource_of word.now) }
{
    let Some(name) = behind(b"@", word) else {
        return Ok(id_of(word).map(|id| ResourceName::Id(ResourceId(id))));
    };
    if !is_name(name) {
        return Ok(None);
    }
    Ok(Some(ResourceName::Name(Bytes::from_slice(alloc, name)?)))
}
