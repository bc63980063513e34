//! `polled STEP WAITS CALLS TIMES BYTES`: bytes, so many times one behind the other, that come over a
//! connection that doesn't wait, so many a read, whose calls with these numbers would have to wait, or fail;
//! the number of its steps is told. `turns STEP WAITS BYTES`: two of them, by turns.

ghost use Rattle.std.specs.Prelude.{◌<◌};

use crate::answers::{Answers, put_end};
use crate::links::{repeated, step_of};
use crate::texts::put_numbers;
use case_text::{LineFault, bytes, calls, first_of, number};
use conn_future::{Step, take_step};
use http_dialog::{Dialog, LinkEnd};
use kap_base::Bytes;
use kap_io::MemPollLink;
use std::alloc::Global;

/// A connection and how it goes on.
#[derive(Drop)]
struct Polled {
    link: MemPollLink,
    dialog: Dialog,
    serve: Answers,
    steps: u32,
    waits: u32,
    end: Option<LinkEnd>,
}

/// What a connection reads, as a line says.
fn link_of(
    alloc: Global,
    step: &str,
    waits: &str,
    fails: &str,
    all: Vec<u8>,
) -> Result<MemPollLink, LineFault> {
    let step = step_of(step)?;
    let waits = calls(alloc, waits)?;
    let fails = calls(alloc, fails)?;
    Ok(MemPollLink::new(alloc, all, step, waits, fails))
}

/// A connection that reads what a line says.
fn polled_of(
    alloc: Global,
    step: &str,
    waits: &str,
    fails: &str,
    all: Vec<u8>,
) -> Result<Polled, LineFault> {
    let link = link_of(alloc, step, waits, fails, all)?;
    Ok(Polled {
        link,
        dialog: Dialog::new(alloc),
        serve: Answers { served: 0 },
        steps: 0,
        waits: 0,
        end: None,
    })
}

/// Goes on by a step, where it hasn't ended.
fn go_on(alloc: Global, number: u32, polled: &mut Polled) {
    if polled.end.is_some() {
        return;
    }
    polled.steps = polled.steps.saturating_add(1);
    match take_step(
        alloc,
        &mut polled.link,
        &mut polled.dialog,
        number,
        &mut polled.serve,
    ) {
        Step::Ended(end) => polled.end = Some(end),
        Step::Spent => {}
        Step::Reads | Step::Writes => polled.waits = polled.waits.saturating_add(1),
    }
}

/// Adds how a connection ended.
fn put_polled(alloc: Global, polled: &Polled, to: &mut Bytes) -> Result<(), LineFault> {
    let counts = [
        ("", u64::from(polled.steps)),
        (" steps, ", u64::from(polled.waits)),
    ];
    put_numbers(alloc, &counts, to)?;
    to.append(b" waits, ")?;
    match polled.end {
        Some(end) => put_end(alloc, end, polled.serve.served, polled.link.bytes(), to)?,
        None => to.append(b"no end")?,
    }
    Ok(())
}

/// Adds the answer of a line `polled`.
pub fn answer_polled(alloc: Global, line: &str, to: &mut Bytes) -> Result<(), LineFault> {
    let (step, rest) = first_of(line);
    let (waits, rest) = first_of(rest);
    let (fails, rest) = first_of(rest);
    let (times, word) = first_of(rest);
    let all = repeated(alloc, &bytes(alloc, word)?, number(times)?)?;
    let mut polled = polled_of(alloc, step, waits, fails, all)?;
    for _ in 0..1_000 {
        go_on(alloc, 0, &mut polled);
    }
    put_polled(alloc, &polled, to)
}

/// Two connections, by turns.
#[derive(Drop)]
struct Two {
    one: Polled,
    other: Polled,
}

/// A connection that reads these bytes so many times.
fn polled_times(
    alloc: Global,
    step: &str,
    waits: &str,
    all: &[u8],
    times: u64,
) -> Result<Polled, LineFault> {
    let all = repeated(alloc, all, times)?;
    polled_of(alloc, step, waits, "-", all)
}

/// Two connections that read what a line says, the second one twice.
fn two_of(alloc: Global, step: &str, waits: &str, all: &[u8]) -> Result<Two, LineFault> {
    let one = polled_times(alloc, step, waits, all, 1)?;
    let other = polled_times(alloc, step, waits, all, 2)?;
    Ok(Two { one, other })
}

fn take_turns(alloc: Global, two: &mut Two) {
    for _ in 0..1_000 {
        go_on(alloc, 1, &mut two.one);
        go_on(alloc, 2, &mut two.other);
    }
}

fn put_both(alloc: Global, two: &Two, to: &mut Bytes) -> Result<(), LineFault> {
    put_polled(alloc, &two.one, to)?;
    to.append(b"; ")?;
    put_polled(alloc, &two.other, to)
}

/// Adds the answer of a line `turns`.
pub fn answer_turns(alloc: Global, line: &str, to: &mut Bytes) -> Result<(), LineFault> {
    let (step, rest) = first_of(line);
    let (waits, word) = first_of(rest);
    let all = bytes(alloc, word)?;
    let mut two = two_of(alloc, step, waits, &all)?;
    take_turns(alloc, &mut two);
    put_both(alloc, &two, to)
}
