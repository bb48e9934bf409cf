//! Forwarding options, by their flags.

ghost use Rattle.std.specs.Prelude.{◌≡◌, IfOk};
ghost use Rattle.std.specs.List.{list_any};
ghost use Rattle.node_model.specs.Ways.{has_flag, cleared, copied};

use forwarding_header::{ForwardingOption, Header, OTHER_FLAGS, RESPONSE_COPY};
use reload_base::{List, NoMemory, TryCopy};
use std::alloc::Global;

/// Whether an option has a flag.
#[tactic(auto, unfolding(node_model::specs::Ways::has_flag))]
fn has_flag(flag: u8, option: &ForwardingOption) -> bool
    ensures { result ≡ has_flag flag option.now }
{
    option.flags & flag != 0
}

/// Whether some option of a header has a flag.
pub fn any_has(flag: u8, header: &Header) -> bool
    ensures { result ≡ list_any (has_flag flag) header.now.options }
{
    header.options.as_slice().iter().any(|o| has_flag(flag, o))
}

/// An option with none of the three flags.
#[tactic(auto, unfolding(node_model::specs::Ways::cleared))]
fn cleared(alloc: Global, option: &ForwardingOption) -> Result<ForwardingOption, NoMemory>
    ensures { IfOk result (λ o. o ≡ cleared option.now) }
{
    Ok(ForwardingOption {
        code: option.code,
        flags: option.flags & OTHER_FLAGS,
        value: option.value.copy(alloc)?,
    })
}

/// The options that an answer has of its request: those that are to be copied, with none of the
/// three flags.
#[tactic(auto, unfolding(node_model::specs::Ways::copied))]
pub(crate) fn copied(
    alloc: Global,
    options: &List<ForwardingOption>,
) -> Result<List<ForwardingOption>, NoMemory>
    ensures { IfOk result (λ os. os ≡ copied options.now) }
{
    let mut copied = List::new(alloc);
    for o in options.as_slice() {
        if has_flag(RESPONSE_COPY, o) {
            copied.push(cleared(alloc, o)?)?;
        }
    }
    Ok(copied)
}
