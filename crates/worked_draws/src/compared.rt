//! Drawn requests, each of which is answered as the plain program does.

use crate::answers::text_of;
use crate::draws::Draws;
use crate::plain::Plain;
use crate::requests::{Request, kinds};
use crate::seen::{first_rare, put_line, times};
use reload_base::{Bytes, NoMemory};
use std::alloc::Global;
use std::test::Fail;
use worked_requests::Owner;

/// How many requests are drawn of each seed.
const REQUESTS: usize = 1000;

/// An owner and the plain program, at the same clock in milliseconds.
#[derive(Drop)]
struct Both {
    owner: Owner,
    plain: Plain,
    clock: u64,
}

impl Both {
    fn new(alloc: Global) -> Result<Both, NoMemory> {
        Ok(Both {
            owner: Owner::new(alloc, &kinds())?,
            plain: Plain::new(alloc),
            clock: 0,
        })
    }

    /// Some time passes, once in two times.
    fn wait(&mut self, draws: &mut Draws) {
        if draws.once_in(2) {
            let ms = draws.draw(250).min(250) as u32;
            self.owner.wait(ms);
            self.clock = self.clock.wrapping_add(u64::from(ms));
        }
    }

    /// What the owner answers to a request, and what the plain program does.
    fn answers(
        &mut self,
        alloc: Global,
        request: &Request,
    ) -> Result<(Option<Bytes>, String), NoMemory> {
        let (marks, line) = (request.marks(alloc)?, request.line(alloc)?);
        let answer = self
            .owner
            .whole_answer(alloc, marks.as_slice(), line.as_bytes())?;
        let text = match &answer {
            Some(answer) => Some(text_of(alloc, answer)?),
            None => None,
        };
        Ok((text, self.plain.rule(alloc, self.clock, request)?))
    }
}

/// The place of the request that is asked next: the last one, or once in five times one before it.
fn next_place(draws: &mut Draws, drawn: usize) -> usize {
    let back = if draws.once_in(5) { draws.pick(120) } else { 0 };
    drawn.saturating_sub(1).saturating_sub(back)
}

/// Draws a request, or asks for none once in five times.
fn draw_request(
    alloc: Global,
    draws: &mut Draws,
    drawn: &mut Vec<Request>,
) -> Result<(), NoMemory> {
    if drawn.is_empty() || !draws.once_in(5) {
        drawn.push(draws.request(alloc)?)?;
    }
    Ok(())
}

fn is_text(text: &Option<Bytes>, want: &str) -> bool {
    text.as_ref()
        .is_some_and(|text| text.as_slice() == want.as_bytes())
}

/// The first request of a seed that both answer otherwise, and what the plain program answers. Adds
/// the lines of the answers before it.
fn first_difference(
    alloc: Global,
    seed: u64,
    lines: &mut Bytes,
) -> Result<Option<String>, NoMemory> {
    let (mut both, mut draws) = (Both::new(alloc)?, Draws::new(seed));
    let mut drawn = Vec::new(alloc);
    for _ in 0..REQUESTS {
        both.wait(&mut draws);
        draw_request(alloc, &mut draws, &mut drawn)?;
        if let Some(request) = drawn.get(next_place(&mut draws, drawn.len())) {
            let (text, want) = both.answers(alloc, request)?;
            if !is_text(&text, &want) {
                let line = request.line(alloc)?;
                return Ok(Some(format!(in alloc; "{line}: {want}")?));
            }
            put_line(alloc, request, &want, lines)?;
        }
    }
    Ok(None)
}

#[test]
fn drawn_requests_are_answered_as_the_plain_program_does(rt: HostRuntime) -> Result<(), Fail> {
    let alloc = rt.alloc();
    let mut lines = Bytes::new(alloc);
    for seed in 0..8 {
        assert_eq!(rt; first_difference(alloc, seed, &mut lines)?, None);
    }
    assert_eq!(rt; times(lines.as_slice(), b"\n"), 8000);
    assert_eq!(rt; first_rare(lines.as_slice()), None);
    Ok(())
}
