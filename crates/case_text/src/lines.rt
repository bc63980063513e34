//! A line asks, and its answer is a line behind `> `.

use crate::fault::LineFault;
use crate::words::first_of;
use anyhow::Context;
use kap_base::Bytes;
use kap_io::{Sink, WriteSink, write_all};
use std::alloc::Global;
use std::io::{self, BufRead, BufReader};

/// What lines ask, one after the other.
pub trait Asked: Drop {
    /// As before the first line.
    fn new(alloc: Global) -> Self;

    /// Adds the answer of a line: its first word, and what stands behind it.
    fn answer(
        &mut self,
        alloc: Global,
        kind: &str,
        rest: &str,
        to: &mut Bytes,
    ) -> Result<(), LineFault>;
}

/// The answer of a line. One whose first word is `=` asks nothing: what follows begins anew.
fn answer_line<A: Asked>(alloc: Global, asked: &mut A, line: &str) -> Result<Bytes, LineFault> {
    let (kind, rest) = first_of(line);
    let mut to = Bytes::new(alloc);
    if kind == "=" {
        *asked = A::new(alloc);
        to.append(line.as_bytes())?;
    } else {
        to.append(b"> ")?;
        asked.answer(alloc, kind, rest, &mut to)?;
    }
    to.push(b'\n')?;
    Ok(to)
}

/// Does what a line says, and prints its answer as a line.
fn take_line<A: Asked, K: Sink>(
    alloc: Global,
    asked: &mut A,
    line: &str,
    out: &mut K,
) -> Result<(), LineFault> {
    let text = answer_line(alloc, asked, line)?;
    write_all(out, text.as_slice())?;
    Ok(())
}

/// Answers each line of standard input. The first that is of no kind, or can't be done, ends it.
pub fn answer_lines<R: Input + Print + AllocGlobal, A: Asked>(rt: &R) -> anyhow::Result<()> {
    let alloc = rt.alloc();
    let mut out = WriteSink::new(io::writer(rt));
    let mut asked = A::new(alloc);
    let mut number = 0u64;
    for line in BufReader::new(alloc, rt.reader())?.lines(alloc) {
        number = number.saturating_add(1);
        let line = line.context(format_args!("line {number}"))?;
        take_line(alloc, &mut asked, line.as_str(), &mut out).context(format_args!(
            "line {number}"
        ))?;
    }
    Ok(())
}
