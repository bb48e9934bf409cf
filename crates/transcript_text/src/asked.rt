//! What a peer is asked to decide.

ghost use Rattle.std.specs.Prelude.{◌≡◌, ◌++◌, codes};
ghost use Rattle.std.specs.List.{flat_map};
ghost use Rattle.text_words.specs.Codec.{AppendedSome};
ghost use Rattle.text_words.specs.Labelled.{labelled};
ghost use Rattle.text_words.specs.Lines.{spaced, spaced_by};
ghost use Rattle.text_words.specs.Transaction.{transaction_text};
ghost use Rattle.transcript_text.specs.Words.{number_text};
ghost use Rattle.request_words.specs.Specifiers.{counted_text, selection_text, selector_text};
ghost use Rattle.transcript_text.specs.Transcript.{asked_kind, asked_specifier, asker_text, fetch_text, join_text, number_of, request_text, store_text, strange_text};

use crate::value::{
    number_of, put_asked_values, put_head, put_next_raw, put_number, put_raw, put_slashed,
};
use data_models::{Selector, Specifier};
use reload_base::{Bytes, NoMemory};
use reload_ids::NodeId;
use request_words::DeclaredNode;
use storage_model::{Asked, AskedKind, AskedValues, FetchAsked, JoinAsked, StoreAsked};
use text_words::{put_key_names, put_labelled, put_ranges, put_transaction};

// Appends kind=ID/GEN and the values, or the bytes of those of a kind without a definition.
#[tactic(auto, unfolding(crate::specs::Transcript::asked_kind))]
fn put_asked_kind(
    out: &mut Bytes,
    nodes: &[DeclaredNode],
    asked: &AskedKind,
) -> Result<(), NoMemory>
    ensures { AppendedSome out.old out.new (asked_kind nodes.now asked.now) result }
{
    put_head(out, asked.kind, asked.generation)?;
    match &asked.values {
        AskedValues::Known(values) => put_asked_values(out, nodes, values.as_slice()),
        AskedValues::Raw(bytes) => put_next_raw(out, bytes.as_slice()),
    }
}

#[tactic(auto, unfolding(text_words::specs::Lines::spaced_by))]
fn put_next_kind(out: &mut Bytes, nodes: &[DeclaredNode], asked: &AskedKind) -> Result<(), NoMemory>
    ensures { AppendedSome out.old out.new (spaced_by (asked_kind nodes.now) asked.now) result }
{
    out.extend(b" ")?;
    put_asked_kind(out, nodes, asked)
}

fn put_asked_kinds(
    out: &mut Bytes,
    nodes: &[DeclaredNode],
    kinds: &[AskedKind],
) -> Result<(), NoMemory>
    ensures { AppendedSome out.old out.new
        (flat_map (spaced_by (asked_kind nodes.now)) kinds.now) result }
{
    for asked in kinds {
        put_next_kind(out, nodes, asked)?;
    }
    Ok(())
}

#[tactic(auto, unfolding(request_words::specs::Specifiers::selector_text))]
fn put_selector(out: &mut Bytes, selector: &Selector) -> Result<(), NoMemory>
    ensures { AppendedSome out.old out.new (selector_text selector.now) result }
{
    match selector {
        Selector::Whole => Ok(()),
        Selector::Ranges(ranges) => put_ranges(out, ranges.as_slice()),
        Selector::Names(names) if names.is_empty() => out.extend(b"*"),
        Selector::Names(names) => put_key_names(out, names.as_slice()),
        Selector::Raw(bytes) => put_raw(out, bytes.as_slice()),
    }
}

// Appends a colon and which values are asked for, or nothing.
#[tactic(auto, unfolding(request_words::specs::Specifiers::selection_text))]
fn put_selection(out: &mut Bytes, selector: &Selector) -> Result<(), NoMemory>
    ensures { AppendedSome out.old out.new (selection_text selector.now) result }
{
    match selector {
        Selector::Whole => Ok(()),
        selector => {
            out.extend(b":")?;
            put_selector(out, selector)
        }
    }
}

// Appends KIND/GEN[:SEL].
#[tactic(auto, unfolding(request_words::specs::Specifiers::specifier_text))]
fn put_specifier(out: &mut Bytes, specifier: &Specifier) -> Result<(), NoMemory>
    ensures { AppendedSome out.old out.new (asked_specifier specifier.now) result }
{
    put_slashed(out, specifier.kind, specifier.generation)?;
    put_selection(out, &specifier.selector)
}

#[tactic(auto, unfolding(text_words::specs::Lines::spaced_by))]
fn put_next_specifier(out: &mut Bytes, specifier: &Specifier) -> Result<(), NoMemory>
    ensures { AppendedSome out.old out.new (spaced_by asked_specifier specifier.now) result }
{
    out.extend(b" ")?;
    put_specifier(out, specifier)
}

fn put_specifiers(out: &mut Bytes, specifiers: &[Specifier]) -> Result<(), NoMemory>
    ensures { AppendedSome out.old out.new
        (flat_map (spaced_by asked_specifier) specifiers.now) result }
{
    for specifier in specifiers {
        put_next_specifier(out, specifier)?;
    }
    Ok(())
}

fn put_strange(out: &mut Bytes, strange: bool) -> Result<(), NoMemory>
    ensures { AppendedSome out.old out.new (strange_text strange) result }
{
    if strange {
        out.extend(b" strange")
    } else {
        Ok(())
    }
}

/// Who asks, and with which transaction id.
#[derive(Clone, Copy, Debug)]
pub struct Asker {
    pub origin: NodeId,
    /// The transaction id.
    pub id: u64,
}

// Appends the number of the asking node behind a space.
fn put_origin(out: &mut Bytes, nodes: &[DeclaredNode], origin: NodeId) -> Result<(), NoMemory>
    ensures { AppendedSome out.old out.new
        (spaced (number_text (number_of nodes.now origin.0))) result }
{
    out.extend(b" ")?;
    put_number(out, number_of(nodes, origin))
}

fn put_spaced_id(out: &mut Bytes, id: u64) -> Result<(), NoMemory>
    ensures { AppendedSome out.old out.new (spaced (transaction_text id)) result }
{
    out.extend(b" ")?;
    put_transaction(out, id)
}

// Appends N H.L [strange], each word behind a space.
#[tactic(auto, unfolding(crate::specs::Transcript::asker_text))]
fn put_asker(
    out: &mut Bytes,
    nodes: &[DeclaredNode],
    asker: Asker,
    strange: bool,
) -> Result<(), NoMemory>
    ensures { AppendedSome out.old out.new
        (asker_text nodes.now asker.origin.0 asker.id strange) result }
{
    put_origin(out, nodes, asker.origin)?;
    put_spaced_id(out, asker.id)?;
    put_strange(out, strange)
}

fn put_max(out: &mut Bytes, max: u32) -> Result<(), NoMemory>
    ensures { AppendedSome out.old out.new (spaced (labelled (codes "max=") max)) result }
{
    out.extend(b" ")?;
    put_labelled(out, b"max=", u64::from(max))
}

#[tactic(auto, unfolding(crate::specs::Transcript::store_text))]
fn put_store(
    out: &mut Bytes,
    nodes: &[DeclaredNode],
    asker: Asker,
    request: &StoreAsked,
) -> Result<(), NoMemory>
    ensures { AppendedSome out.old out.new
        (store_text nodes.now asker.origin.0 asker.id request.now) result }
{
    out.extend(b"store")?;
    put_asker(out, nodes, asker, request.strange)?;
    put_asked_kinds(out, nodes, request.kinds.as_slice())
}

// Appends `fetch`, who asks, and the limit.
fn put_fetch_words(
    out: &mut Bytes,
    nodes: &[DeclaredNode],
    asker: Asker,
    request: &FetchAsked,
) -> Result<(), NoMemory>
    ensures { AppendedSome out.old out.new (codes "fetch"
        ++ asker_text nodes.now asker.origin.0 asker.id request.now.strange
        ++ spaced (labelled (codes "max=") request.now.max)) result }
{
    out.extend(b"fetch")?;
    put_asker(out, nodes, asker, request.strange)?;
    put_max(out, request.max)
}

#[tactic(auto, unfolding(crate::specs::Transcript::fetch_text))]
fn put_fetch(
    out: &mut Bytes,
    nodes: &[DeclaredNode],
    asker: Asker,
    request: &FetchAsked,
) -> Result<(), NoMemory>
    ensures { AppendedSome out.old out.new
        (fetch_text nodes.now asker.origin.0 asker.id request.now) result }
{
    put_fetch_words(out, nodes, asker, request)?;
    put_specifiers(out, request.specifiers.as_slice())
}

#[tactic(auto, unfolding(crate::specs::Transcript::join_text))]
fn put_join(
    out: &mut Bytes,
    nodes: &[DeclaredNode],
    asker: Asker,
    request: &JoinAsked,
) -> Result<(), NoMemory>
    ensures { AppendedSome out.old out.new
        (join_text nodes.now asker.origin.0 asker.id request.now) result }
{
    out.extend(b"join")?;
    put_asker(out, nodes, asker, request.strange)
}

/// Appends REQUEST.
pub fn put_request(
    out: &mut Bytes,
    nodes: &[DeclaredNode],
    asker: Asker,
    asked: &Asked,
) -> Result<(), NoMemory>
    ensures { AppendedSome out.old out.new
        (request_text nodes.now asker.origin.0 asker.id asked.now) result }
{
    match asked {
        Asked::Bad => out.extend(b"bad"),
        Asked::Unsigned => out.extend(b"unsigned"),
        Asked::Store(request) => put_store(out, nodes, asker, request),
        Asked::Fetch(request) => put_fetch(out, nodes, asker, request),
        Asked::Join(request) => put_join(out, nodes, asker, request),
    }
}
