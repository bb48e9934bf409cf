//! Values, as decisions and answers tell them.

ghost use Rattle.std.specs.Prelude.{◌≡◌, ◌==◌, ◌++◌, codes, find};
ghost use Rattle.std.specs.Fmt.{decimal};
ghost use Rattle.std.specs.Option.{option_copied};
ghost use Rattle.text_words.specs.Codec.{AppendedSome};
ghost use Rattle.text_words.specs.Lines.{spaced, spaced_by};
ghost use Rattle.std.specs.List.{flat_map};
ghost use Rattle.request_words.specs.Groups.{head_text};
ghost use Rattle.request_words.specs.Raw.{raw_text};
ghost use Rattle.request_words.specs.Specifiers.{slashed};
ghost use Rattle.transcript_text.specs.Transcript.{asked_value, datum_of, is_about, number_of, role_of, signer_of, stored_text, word_of};
ghost use Rattle.request_words.specs.Values.{data_text, slot_key_text, value_text};
ghost use Rattle.transcript_text.specs.Words.{number_text};

use data_models::{SlotKey, StoredData};
use reload_base::{Bytes, NoMemory};
use reload_ids::NodeId;
use request_words::{DeclaredNode, Role, is_role};
use security_block::About;
use storage_model::Value;
use text_words::{put_decimal, put_hex, put_key_name};

#[tactic(auto, unfolding(request_words::specs::Values::slot_key_text))]
fn put_key(out: &mut Bytes, key: &SlotKey) -> Result<(), NoMemory>
    ensures { AppendedSome out.old out.new (slot_key_text key.now) result }
{
    match key {
        SlotKey::Whole => out.extend(b"-"),
        SlotKey::Index(index) => put_decimal(out, u64::from(*index)),
        SlotKey::End => out.extend(b"end"),
        SlotKey::Name(name) => put_key_name(out, name.as_slice()),
    }
}

#[tactic(auto, unfolding(request_words::specs::Values::data_text))]
fn put_datum(out: &mut Bytes, stored: &StoredData) -> Result<(), NoMemory>
    ensures { AppendedSome out.old out.new (data_text (datum_of stored.now)) result }
{
    if !stored.present {
        return out.extend(b"-");
    }
    out.extend(b"+")?;
    put_hex(out, stored.value.as_slice())
}

// Appends KEY:TIME:LIFE: and no data yet.
fn put_times(out: &mut Bytes, stored: &StoredData) -> Result<(), NoMemory>
    ensures { AppendedSome out.old out.new (slot_key_text stored.now.key ++ codes ":"
        ++ decimal stored.now.storage_time
        ++ codes ":" ++ decimal stored.now.lifetime ++ codes ":") result }
{
    put_key(out, &stored.key)?;
    out.extend(b":")?;
    put_decimal(out, stored.storage_time)?;
    out.extend(b":")?;
    put_decimal(out, u64::from(stored.lifetime))?;
    out.extend(b":")
}

/// Appends `KEY:TIME:LIFE:DATA`.
#[tactic(auto, unfolding(crate::specs::Transcript::stored_text, request_words::specs::Values::value_text))]
pub fn put_stored(out: &mut Bytes, stored: &StoredData) -> Result<(), NoMemory>
    ensures { AppendedSome out.old out.new (stored_text stored.now) result }
{
    put_times(out, stored)?;
    put_datum(out, stored)
}

// The node with a Node-ID.
fn node_with(nodes: &[DeclaredNode], node: NodeId) -> Option<&DeclaredNode>
    ensures { option_copied result ≡ find (λ n. n.node.0 == node.0) nodes.now }
{
    nodes.iter().find(|n| n.node.0 == node.0)
}

/// The number of the node with a Node-ID.
#[tactic(auto, unfolding(crate::specs::Transcript::number_of))]
pub fn number_of(nodes: &[DeclaredNode], node: NodeId) -> Option<u32>
    ensures { result ≡ number_of nodes.now node.0 }
{
    Some(node_with(nodes, node)?.number)
}

fn role_of(peer: bool) -> Role
    ensures { result ≡ role_of peer }
{
    if peer { Role::Peer } else { Role::Client }
}

// Whether a node is the one of a certificate: by its Node-ID, its role and its user.
#[tactic(auto, unfolding(crate::specs::Transcript::is_about))]
fn is_about(about: &About, node: &DeclaredNode) -> bool
    ensures { result ≡ is_about about.now node.now }
{
    node.node.0 == about.node.0
        && is_role(role_of(about.peer), node.role)
        && node.user.as_slice() == about.user.as_slice()
}

fn node_about<'a>(nodes: &'a [DeclaredNode], about: &About) -> Option<&'a DeclaredNode>
    ensures { option_copied result ≡ find (is_about about.now) nodes.now }
{
    nodes.iter().find(|node| is_about(about, node))
}

// The number of the node that signed a value, where one did.
#[tactic(auto, unfolding(crate::specs::Transcript::signer_of))]
fn signer_of(nodes: &[DeclaredNode], signer: &Option<About>) -> Option<u32>
    ensures { result ≡ signer_of nodes.now signer.now }
{
    match signer {
        None => None,
        Some(about) => Some(node_about(nodes, about)?.number),
    }
}

/// Appends the number of a node, or `?` where it is none's.
#[tactic(auto, unfolding(crate::specs::Words::number_text))]
pub fn put_number(out: &mut Bytes, number: Option<u32>) -> Result<(), NoMemory>
    ensures { AppendedSome out.old out.new (number_text number) result }
{
    match number {
        None => out.extend(b"?"),
        Some(number) => put_decimal(out, u64::from(number)),
    }
}

// Appends KEY:TIME:LIFE:DATA:SIGNER:SIZE.
#[tactic(auto, unfolding(crate::specs::Transcript::asked_value, crate::specs::Words::decided_text))]
fn put_asked_value(out: &mut Bytes, nodes: &[DeclaredNode], value: &Value) -> Result<(), NoMemory>
    ensures { AppendedSome out.old out.new (asked_value nodes.now value.now) result }
{
    put_signed(out, nodes, value)?;
    put_decimal(out, u64::from(value.size))
}

// Appends KEY:TIME:LIFE:DATA:SIGNER: and no size yet.
#[tactic(auto, unfolding(crate::specs::Transcript::stored_text))]
fn put_signed(out: &mut Bytes, nodes: &[DeclaredNode], value: &Value) -> Result<(), NoMemory>
    ensures { AppendedSome out.old out.new (value_text (word_of value.now.stored) ++ codes ":"
        ++ number_text (signer_of nodes.now value.now.signer) ++ codes ":") result }
{
    put_stored(out, &value.stored)?;
    out.extend(b":")?;
    put_number(out, signer_of(nodes, &value.signer))?;
    out.extend(b":")
}

#[tactic(auto, unfolding(text_words::specs::Lines::spaced_by))]
fn put_next_value(out: &mut Bytes, nodes: &[DeclaredNode], value: &Value) -> Result<(), NoMemory>
    ensures { AppendedSome out.old out.new (spaced_by (asked_value nodes.now) value.now) result }
{
    out.extend(b" ")?;
    put_asked_value(out, nodes, value)
}

/// Appends values of a request, each behind a space.
pub fn put_asked_values(
    out: &mut Bytes,
    nodes: &[DeclaredNode],
    values: &[Value],
) -> Result<(), NoMemory>
    ensures { AppendedSome out.old out.new
        (flat_map (spaced_by (asked_value nodes.now)) values.now) result }
{
    for value in values {
        put_next_value(out, nodes, value)?;
    }
    Ok(())
}

#[tactic(auto, unfolding(text_words::specs::Lines::spaced_by))]
fn put_next_stored(out: &mut Bytes, stored: &StoredData) -> Result<(), NoMemory>
    ensures { AppendedSome out.old out.new (spaced_by stored_text stored.now) result }
{
    out.extend(b" ")?;
    put_stored(out, stored)
}

/// Appends values of an answer, each behind a space.
pub fn put_all_stored(out: &mut Bytes, values: &[StoredData]) -> Result<(), NoMemory>
    ensures { AppendedSome out.old out.new (flat_map (spaced_by stored_text) values.now) result }
{
    for stored in values {
        put_next_stored(out, stored)?;
    }
    Ok(())
}

#[tactic(auto, unfolding(request_words::specs::Specifiers::slashed))]
pub fn put_slashed(out: &mut Bytes, kind: u32, generation: u64) -> Result<(), NoMemory>
    ensures { AppendedSome out.old out.new (slashed kind generation) result }
{
    put_decimal(out, u64::from(kind))?;
    out.extend(b"/")?;
    put_decimal(out, generation)
}

/// Appends `kind=ID/GEN`.
#[tactic(auto, unfolding(request_words::specs::Groups::head_text))]
pub fn put_head(out: &mut Bytes, kind: u32, generation: u64) -> Result<(), NoMemory>
    ensures { AppendedSome out.old out.new (head_text kind generation) result }
{
    out.extend(b"kind=")?;
    put_slashed(out, kind, generation)
}

/// Appends `?` and the digits of bytes: what is known of a kind without a definition.
#[tactic(auto, unfolding(request_words::specs::Raw::raw_text))]
pub fn put_raw(out: &mut Bytes, bytes: &[u8]) -> Result<(), NoMemory>
    ensures { AppendedSome out.old out.new (raw_text bytes.now) result }
{
    out.extend(b"?")?;
    put_hex(out, bytes)
}

/// Appends them as a word of their own, behind a space.
pub fn put_next_raw(out: &mut Bytes, bytes: &[u8]) -> Result<(), NoMemory>
    ensures { AppendedSome out.old out.new (spaced (raw_text bytes.now)) result }
{
    out.extend(b" ")?;
    put_raw(out, bytes)
}
