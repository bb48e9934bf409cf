//! The lines of a message's parts, each ended by a line feed. Where memory is missing, a part of
//! the line may stand in `out`.

ghost use Rattle.std.specs.Prelude.{◌≡◌, ◌<◌, ◌^◌, ◌++◌, length, OnOk};
ghost use Rattle.text_words.specs.Lines.{ended};
ghost use Rattle.message_bodies.specs.Bodies.{bytes_of};
ghost use Rattle.frame_listing.specs.Lines.{fixed_fields, entry_fields, message_line, contents_line, type_of, security_line};

use crate::label::Label;
use crate::lines::put_field;
use forwarding_header::Header;
use message_bodies::Contents;
use reload_base::{Bytes, NoMemory};
use security_block::SecurityBlock;
use text_words::{put_number_in_hex, put_transaction};
use wire_core::SignerIdentity;

// Appends the fields of fixed size behind the overlay.
#[tactic(auto, unfolding(crate::specs::Lines::fixed_fields))]
fn put_fixed_fields(out: &mut Bytes, header: &Header) -> Result<(), NoMemory>
    ensures { OnOk result (out.new ≡ out.old ++ fixed_fields header.now) }
{
    put_field(out, Label::Sequence, u64::from(header.sequence))?;
    put_field(out, Label::TimeToLive, u64::from(header.ttl))?;
    put_field(out, Label::Length, u64::from(header.length))?;
    out.extend(Label::Transaction.text())?;
    put_transaction(out, header.id)?;
    put_field(out, Label::MaxResponse, u64::from(header.max_response))
}

// Appends the numbers of entries.
#[tactic(auto, unfolding(crate::specs::Lines::entry_fields))]
fn put_entry_fields(out: &mut Bytes, header: &Header) -> Result<(), NoMemory>
    ensures { OnOk result (out.new ≡ out.old ++ entry_fields header.now) }
{
    put_field(out, Label::Via, header.via.len() as u64)?;
    put_field(out, Label::Destination, header.dest.len() as u64)?;
    put_field(out, Label::Options, header.options.len() as u64)
}

/// Appends `message overlay=HEX seq=N ttl=N length=N id=H.L max=N via=N dest=N options=N`.
#[tactic(auto, unfolding(crate::specs::Lines::message_line))]
pub(crate) fn put_message_line(out: &mut Bytes, header: &Header) -> Result<(), NoMemory>
    ensures { OnOk result (out.new ≡ out.old ++ ended (message_line header.now)) }
{
    out.extend(Label::Message.text())?;
    put_number_in_hex(out, header.overlay)?;
    put_fixed_fields(out, header)?;
    put_entry_fields(out, header)?;
    out.push(b'\n')
}

/// Appends `contents code=N body=LENGTH extensions=N`.
#[tactic(auto, unfolding(crate::specs::Lines::contents_line))]
pub(crate) fn put_contents_line(out: &mut Bytes, contents: &Contents) -> Result<(), NoMemory>
    requires { length (bytes_of contents.now.body) < 2 ^ 32 }
    ensures { OnOk result (out.new ≡ out.old ++ ended (contents_line contents.now)) }
{
    put_field(out, Label::Contents, u64::from(contents.body.code()))?;
    put_field(out, Label::Body, contents.body.len())?;
    put_field(out, Label::Extensions, contents.extensions.len() as u64)?;
    out.push(b'\n')
}

// The byte that says which identity it is (RFC 6940, section 6.3.4).
#[tactic(auto, unfolding(crate::specs::Lines::type_of))]
fn type_of(identity: &SignerIdentity) -> u64
    ensures { result ≡ type_of identity.now }
{
    match identity {
        SignerIdentity::CertHash { .. } => 1,
        SignerIdentity::CertHashNodeId { .. } => 2,
        SignerIdentity::None => 3,
    }
}

/// Appends `security certificates=N identity=N value=LENGTH`.
#[tactic(auto, unfolding(crate::specs::Lines::security_line))]
pub(crate) fn put_security_line(out: &mut Bytes, block: &SecurityBlock) -> Result<(), NoMemory>
    ensures { OnOk result (out.new ≡ out.old ++ ended (security_line block.now)) }
{
    put_field(out, Label::Security, block.certificates.len() as u64)?;
    put_field(out, Label::Identity, type_of(&block.signature.identity))?;
    put_field(out, Label::Value, block.signature.value.len() as u64)?;
    out.push(b'\n')
}
