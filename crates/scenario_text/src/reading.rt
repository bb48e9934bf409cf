//! Reading a scenario, one line after the other.

ghost use Rattle.std.specs.Prelude.{◌≡◌, ℕ, ◌+◌, ◌<◌, ◌≤◌, ◌^◌, length, IfOk, IfErr, IfSome, ◌-◌, Option, Some, Ok};
ghost use Rattle.data_models.specs.Configs.{IsConfig};
ghost use Rattle.scenario_text.specs.Scenarios.{IsTextOf};
ghost use Rattle.scenario_text.specs.Reading.{opened, with_kind, with_node, with_event, with_saying, said_at, line_at, whole_or_bad, reading};
ghost use Rattle.scenario_text.specs.Reads.{Reads, IsBad, HasAtMost};
ghost use Rattle.scenario_text.specs.declared.scenario.Scenario.{Scenario};

use crate::declaring::{has_peer, is_new_kind, is_new_node};
use crate::fault::TextFault;
use crate::saying::{Declaration, Saying, saying_of};
use crate::scenario::{Event, EventKind, FIRST_SEQUENCE, REPLICAS, Scenario};
use data_models::{Config, KindDef};
use reload_base::{Bytes, List, NoMemory};
use request_words::DeclaredNode;
use std::alloc::Global;
use text_words::{first_line, is_passed_over, is_sound_line};

// What the first line that isn't passed over says.
fn opened(alloc: Global, line: &[u8], saying: Saying) -> Result<Option<Scenario>, NoMemory>
    ensures value { IfOk result (λ next. next ≡ opened line.now saying) }
    ensures few { IfOk result (λ next. HasAtMost 0 next) }
{
    let Saying::Overlay(name) = saying else {
        return Ok(None);
    };
    let mut declarations = List::new(alloc);
    declarations.push(Bytes::from_slice(alloc, line)?)?;
    Ok(Some(Scenario {
        config: Config {
            name,
            sequence: FIRST_SEQUENCE,
            replicas: REPLICAS,
            kinds: List::new(alloc),
        },
        declarations,
        nodes: List::new(alloc),
        events: List::new(alloc),
    }))
}

#[tactic(auto, unfolding(crate::specs::Reading::with_kind))]
fn with_kind(
    alloc: Global,
    mut s: Scenario,
    line: &[u8],
    kind: KindDef,
) -> Result<Option<Scenario>, NoMemory>
    ensures value { IfOk result (λ next. next ≡ with_kind s line.now kind) }
    ensures few { IfOk result (λ next. HasAtMost (length s.events) next) }
{
    if !(s.events.is_empty() && is_new_kind(&s.config, &kind)) {
        return Ok(None);
    }
    s.declarations.push(Bytes::from_slice(alloc, line)?)?;
    s.config.kinds.push(kind)?;
    Ok(Some(s))
}

#[tactic(auto, unfolding(crate::specs::Reading::with_node))]
fn with_node(
    alloc: Global,
    mut s: Scenario,
    line: &[u8],
    node: DeclaredNode,
) -> Result<Option<Scenario>, NoMemory>
    ensures value { IfOk result (λ next. next ≡ with_node s line.now node) }
    ensures few { IfOk result (λ next. HasAtMost (length s.events) next) }
{
    if !(s.events.is_empty() && is_new_node(s.nodes.as_slice(), &node)) {
        return Ok(None);
    }
    s.declarations.push(Bytes::from_slice(alloc, line)?)?;
    s.nodes.push(node)?;
    Ok(Some(s))
}

#[tactic(auto, unfolding(crate::specs::Reading::with_event))]
fn with_event(mut s: Scenario, n: u64, what: EventKind) -> Result<Option<Scenario>, NoMemory>
    ensures value { IfOk result (λ next. next ≡ with_event s n what) }
    ensures few { IfOk result (λ next. HasAtMost (length s.events + 1) next) }
{
    if !has_peer(s.nodes.as_slice()) {
        return Ok(None);
    }
    s.events.push(Event { line: n, what })?;
    Ok(Some(s))
}

// The scenario with what line n says, where it may say so.
#[tactic(auto, unfolding(crate::specs::Reading::with_saying))]
fn with_saying(
    alloc: Global,
    so_far: Option<Scenario>,
    n: u64,
    line: &[u8],
    saying: Saying,
) -> Result<Option<Scenario>, NoMemory>
    requires few { HasAtMost (n - 1) so_far × (1 ≤ n) }
    ensures value { IfOk result (λ next. next ≡ with_saying so_far n line.now saying) }
    ensures few { IfOk result (λ next. HasAtMost n next) }
{
    let Some(s) = so_far else {
        return opened(alloc, line, saying);
    };
    match saying {
        Saying::Overlay(_) => Ok(None),
        Saying::Declaration(Declaration::Kind(kind)) => with_kind(alloc, s, line, kind),
        Saying::Declaration(Declaration::Node(node)) => with_node(alloc, s, line, node),
        Saying::Event(what) => with_event(s, n, what),
    }
}

// The scenario after line n, where that is in the grammar.
#[tactic(auto, unfolding(crate::specs::Reading::said_at))]
fn said_at(
    alloc: Global,
    so_far: Option<Scenario>,
    n: u64,
    line: &[u8],
) -> Result<Option<Scenario>, NoMemory>
    requires few { HasAtMost (n - 1) so_far × (1 ≤ n) }
    ensures value { IfOk result (λ next. next ≡ said_at so_far n line.now) }
    ensures few { IfOk result (λ next. HasAtMost n next) }
{
    match saying_of(alloc, line)? {
        None => Ok(None),
        Some(saying) => with_saying(alloc, so_far, n, line, saying),
    }
}

// What is read after line n, which may be passed over.
#[tactic(auto, unfolding(crate::specs::Reading::line_at))]
fn line_at(
    alloc: Global,
    so_far: Option<Scenario>,
    n: u64,
    line: &[u8],
) -> Result<Option<Option<Scenario>>, NoMemory>
    requires few { HasAtMost (n - 1) so_far × (1 ≤ n) }
    ensures value { IfOk result (λ next. next ≡ line_at so_far n line.now) }
    ensures few { IfOk result (λ next. IfSome next (HasAtMost n)) }
{
    if !is_sound_line(line) {
        return Ok(None);
    }
    if is_passed_over(line) {
        return Ok(Some(so_far));
    }
    match said_at(alloc, so_far, n, line)? {
        None => Ok(None),
        Some(s) => Ok(Some(Some(s))),
    }
}

// What was read at line n makes of bytes that no line feed ends.
fn finished(so_far: Option<Scenario>, n: u64, rest: &[u8]) -> Result<Scenario, TextFault>
    ensures reads { Reads result (whole_or_bad n rest.now (Ok so_far)) }
    ensures few { (most : ℕ) → HasAtMost most so_far → IfOk result (λ s. length s.events ≤ most) }
{
    match so_far {
        Some(s) if rest.is_empty() && has_peer(s.nodes.as_slice()) => Ok(s),
        _ => Err(TextFault::BadLine(n)),
    }
}

// Reads one line after the other.
fn read(alloc: Global, text: &[u8]) -> Result<Scenario, TextFault>
    requires { length text.now < 2 ^ 62 }
    ensures reads { Reads result (reading text.now) }
    ensures few { IfOk result (λ s. length s.events ≤ length text.now) }
{
    let mut so_far = None;
    let mut n = 1;
    let mut rest = text;
    'lines: while let Some((line, after)) = first_line(rest) {
        match line_at(alloc, so_far, n, line)? {
            None => return Err(TextFault::BadLine(n)),
            Some(next) => so_far = next,
        }
        rest = after;
        n += 1;
    }
    finished(so_far, n, rest)
}

/// The scenario of a text: of the lines that aren't passed over, the first names the overlay,
/// others declare kinds and nodes in any order, and those behind them tell the events.
pub fn read_scenario(alloc: Global, text: &[u8]) -> Result<Scenario, TextFault>
    requires { length text.now < 2 ^ 62 }
    // What is read is spelled so, and what is spelled so is read.
    ensures found { IfOk result (λ s. IsTextOf text.now s) }
    ensures only { (s : Scenario) → IsTextOf text.now s → Reads result (Ok s) }

    // A bad line is the first one.
    ensures first_bad { IfErr result (IsBad text.now) }
    ensures config { IfOk result (λ s. IsConfig s.config) }
    ensures few { IfOk result (λ s. length s.events ≤ length text.now) }
{
    read(alloc, text)
}
