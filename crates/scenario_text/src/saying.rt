//! What a line of a scenario says.

ghost use Rattle.std.specs.Prelude.{◌≡◌, IfOk, option_map};
ghost use Rattle.text_words.specs.Lines.{words_of};
ghost use Rattle.scenario_text.specs.Sayings.{said_fetch, said_node, said_overlay, said_store, saying_in, saying_of};

use crate::form::Form;
use crate::lines::clock::clock_of;
use crate::lines::deliver::deliver_of;
use crate::lines::drain::drain_of;
use crate::lines::fetch::fetch_of;
use crate::lines::kind::kind_of;
use crate::lines::lose::lose_of;
use crate::lines::node::node_of;
use crate::lines::overlay::overlay_of;
use crate::lines::store::store_of;
use crate::scenario::{EventKind, FetchEvent, StoreEvent};
use data_models::KindDef;
use reload_base::{Bytes, NoMemory};
use request_words::{DeclaredNode, Role};
use sqlite_items::Boxed;
use std::alloc::Global;
use text_words::{Pieces, words_of};

/// What a declaration declares.
#[derive(Debug, Drop)]
pub enum Declaration {
    Kind(KindDef),
    Node(DeclaredNode),
}

/// What a line says.
#[derive(Debug, Drop)]
pub enum Saying {
    /// The name of the overlay.
    Overlay(Bytes),
    Declaration(Declaration),
    Event(EventKind),
}

fn overlay(alloc: Global, words: Pieces<'_>) -> Result<Option<Saying>, NoMemory>
    ensures { IfOk result (λ saying. saying ≡ said_overlay words.entry) }
{
    match overlay_of(words) {
        None => Ok(None),
        Some(name) => Ok(Some(Saying::Overlay(Bytes::from_slice(alloc, name)?))),
    }
}

fn node(alloc: Global, role: Role, words: Pieces<'_>) -> Result<Option<Saying>, NoMemory>
    ensures { IfOk result (λ saying. saying ≡ said_node role words.entry) }
{
    let node = node_of(alloc, role, words)?;
    Ok(node.map(|node| Saying::Declaration(Declaration::Node(node))))
}

fn store(alloc: Global, words: Pieces<'_>) -> Result<Option<Saying>, NoMemory>
    ensures { IfOk result (λ saying. saying ≡ said_store words.entry) }
{
    match store_of(alloc, words)? {
        None => Ok(None),
        Some(event) => {
            let event = Boxed::new(alloc, event)?;
            Ok(Some(Saying::Event(EventKind::Store(event))))
        }
    }
}

fn fetch(alloc: Global, words: Pieces<'_>) -> Result<Option<Saying>, NoMemory>
    ensures { IfOk result (λ saying. saying ≡ said_fetch words.entry) }
{
    match fetch_of(alloc, words)? {
        None => Ok(None),
        Some(event) => {
            let event = Boxed::new(alloc, event)?;
            Ok(Some(Saying::Event(EventKind::Fetch(event))))
        }
    }
}

// What the words of a form say behind the first one.
#[tactic(auto, unfolding(crate::specs::Sayings::saying_in))]
fn saying_in(alloc: Global, form: Form, words: Pieces<'_>) -> Result<Option<Saying>, NoMemory>
    ensures { IfOk result (λ saying. saying ≡ saying_in form words.entry) }
{
    match form {
        Form::Overlay => overlay(alloc, words),
        Form::Kind => Ok(kind_of(words).map(|kind| Saying::Declaration(Declaration::Kind(kind)))),
        Form::Peer => node(alloc, Role::Peer, words),
        Form::Client => node(alloc, Role::Client, words),
        Form::Clock => Ok(clock_of(words).map(|ms| Saying::Event(EventKind::Clock(ms)))),
        Form::Deliver => Ok(deliver_of(words).map(|k| Saying::Event(EventKind::Deliver(k)))),
        Form::Lose => Ok(lose_of(words).map(|k| Saying::Event(EventKind::Lose(k)))),
        Form::Drain => Ok(drain_of(words).map(|n| Saying::Event(EventKind::Drain(n)))),
        Form::Store => store(alloc, words),
        Form::Fetch => fetch(alloc, words),
    }
}

// What words say.
#[tactic(auto, unfolding(crate::specs::Sayings::saying_of))]
fn saying_of_words(alloc: Global, mut words: Pieces<'_>) -> Result<Option<Saying>, NoMemory>
    ensures { IfOk result (λ saying. saying ≡ saying_of words.entry) }
{
    let Some(first) = words.take() else {
        return Ok(None);
    };
    let Some(form) = Form::of(first) else {
        return Ok(None);
    };
    saying_in(alloc, form, words)
}

/// What a line says, by its words.
pub fn saying_of(alloc: Global, line: &[u8]) -> Result<Option<Saying>, NoMemory>
    ensures { IfOk result (λ saying. saying ≡ saying_of (words_of line.now)) }
{
    saying_of_words(alloc, words_of(line))
}
