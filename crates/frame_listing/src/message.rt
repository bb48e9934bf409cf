//! What is listed of a message: a line for each part that was read, up to the first fault.

ghost use Rattle.std.specs.Prelude.{◌≡◌, ◌≤◌, length, IfOk, Err};
ghost use Rattle.wire_core.specs.declared.bad.Bad.{Bad};
ghost use Rattle.wire_core.specs.declared.bad.DecodeFault.TheVariants as faults;
ghost use Rattle.message_bodies.specs.Contents.{contents_at};
ghost use Rattle.security_block.specs.Block.{block_at};
ghost use Rattle.frame_listing.specs.Lines.{contents_line, security_line};
ghost use Rattle.frame_listing.specs.Messages.{no_kinds, message_listing};
ghost use Rattle.frame_listing.specs.Fronts.{AddsLine, Lists};

use crate::parts::{put_contents_line, put_message_line, put_security_line};
use data_models::Config;
use forwarding_header::decode_header;
use message_bodies::decode_contents;
use reload_base::{Bytes, List, NoMemory};
use security_block::decode_block;
use std::alloc::Global;
use wire_core::{Cursor, DecodeFault};

/// A configuration to which all kinds are unknown.
#[tactic(auto, unfolding(crate::specs::Messages::no_kinds))]
pub(crate) fn no_kinds(alloc: Global) -> Result<Config, NoMemory>
    ensures { IfOk result (λ config. config ≡ no_kinds) }
{
    Ok(Config {
        name: Bytes::from_slice(alloc, b"show")?,
        sequence: 1,
        replicas: 0,
        kinds: List::new(alloc),
    })
}

// Reads contents, whose kinds a configuration gives, and adds their line.
fn put_contents(
    alloc: Global,
    config: &Config,
    out: &mut Bytes,
    from: &mut Cursor<'_>,
) -> Result<(), DecodeFault>
    ensures { AddsLine result (contents_at config.now from.old) contents_line from.new
        out.old out.new }
{
    let contents = decode_contents(alloc, config, from)?;
    put_contents_line(out, &contents)?;
    Ok(())
}

// Reads a security block, and adds its line.
fn put_security(alloc: Global, out: &mut Bytes, from: &mut Cursor<'_>) -> Result<(), DecodeFault>
    ensures { AddsLine result (block_at from.old) security_line from.new out.old out.new }
{
    let block = decode_block(alloc, from)?;
    put_security_line(out, &block)?;
    Ok(())
}

/// Adds the lines of a message, up to its first fault. All kinds are unknown to `config`.
pub(crate) fn put_message(
    alloc: Global,
    config: &Config,
    out: &mut Bytes,
    message: &[u8],
) -> Result<(), DecodeFault>
    requires { config.now ≡ no_kinds }
    ensures listed { Lists result (message_listing message.now) out.old out.new }
    ensures within { (bad : Bad) → result ≡ Err (faults.Bad bad) → bad.place ≤ length message.now }
{
    put_parts(alloc, config, out, message)
}

// The same, part by part.
fn put_parts(
    alloc: Global,
    config: &Config,
    out: &mut Bytes,
    message: &[u8],
) -> Result<(), DecodeFault>
    requires { config.now ≡ no_kinds }
    ensures { Lists result (message_listing message.now) out.old out.new }
{
    let (header, place) = decode_header(alloc, message)?;
    put_message_line(out, &header)?;
    let mut from = Cursor::new(message.split_at(place).1, place as u64);
    put_contents(alloc, config, out, &mut from)?;
    put_security(alloc, out, &mut from)?;
    from.finish()?;
    Ok(())
}
