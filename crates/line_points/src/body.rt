ghost use Rattle.std.specs.Prelude.{◌≡◌, ◌≢◌, ◌==◌, not, IsTrue, IfOk, IfErr, OnOk, Ok, Err};
ghost use Rattle.std.specs.List.{before_first, after_first};
ghost use Rattle.kap_base.specs.Texts.{has_line_feed, line_feed};
ghost use Rattle.line_points.specs.Line.{has_time, line_of};
ghost use Rattle.line_points.specs.Body.{ReachesLine, with_line, body_of, without_return};

use crate::bytes::byte_place;
use crate::fault::{BodyFault, LineFault};
use crate::line::read_line;
use crate::mode::Mode;
use kap_base::{Points, Text};
use std::alloc::Global;

/// The bytes before the first line feed, and those behind it.
fn first_line(body: &[u8]) -> (&[u8], &[u8])
    ensures line { result.0.now ≡ before_first (λ b. b == line_feed) body.now }
    ensures behind { result.1.now ≡ after_first (λ b. b == line_feed) body.now }
{
    match byte_place(body, b'\n') {
        Some(at) => (&body[..at], &body[at + 1..]),
        None => (body, &[]),
    }
}

/// The line without one carriage return at its end.
pub fn without_return(line: &[u8]) -> &[u8]
    ensures { result.now ≡ without_return line.now }
{
    match line.split_last() {
        Some((last, front)) => { if *last == b'\r' { front } else { line } }
        None => line,
    }
}

/// Adds the point of the line, if there is one.
fn add_line(
    alloc: Global,
    line: &[u8],
    db: &Text,
    rp: &Text,
    mode: &Mode,
    points: &mut Points,
) -> Result<(), LineFault>
    requires line { IsTrue (not (has_line_feed line.now)) }
    requires db { IsTrue (not (has_line_feed db.now)) }
    requires rp { IsTrue (not (has_line_feed rp.now)) }
    requires time { IsTrue (has_time mode.now) }
    ensures added { OnOk result (
        with_line points.old (line_of db.now rp.now mode.now line.now) ≡ Ok points.new) }
    ensures fault { IfErr result (λ f.
        f ≢ LineFault.NoMemory → line_of db.now rp.now mode.now line.now ≡ Err f) }
{
    if let Some(point) = read_line(alloc, line, db, rp, mode)? {
        points.push(point)?;
    }
    Ok(())
}

/// The points of all lines of a body, in their order, or the first faulty line. A line ends before a line
/// feed, and one carriage return at its end isn't part of it. `NoMemory` comes with the line that was
/// reached.
pub fn read_body(
    alloc: Global,
    body: &[u8],
    db: &Text,
    rp: &Text,
    mode: &Mode,
) -> Result<Points, BodyFault>
    requires db { IsTrue (not (has_line_feed db.now)) }
    requires rp { IsTrue (not (has_line_feed rp.now)) }
    requires time { IsTrue (has_time mode.now) }
    ensures points { IfOk result (λ points. body_of db.now rp.now mode.now body.now ≡ Ok points) }
    ensures fault { IfErr result (λ f.
        f.fault ≢ LineFault.NoMemory → body_of db.now rp.now mode.now body.now ≡ Err f) }
    ensures reached { IfErr result (λ f. ReachesLine db.now rp.now mode.now body.now f.line) }
{
    let mut points = Points::new(alloc);
    let mut before = 0u64;
    let mut rest = body;
    'lines: while !rest.is_empty() {
        let (first, behind) = first_line(rest);
        let line = without_return(first);
        if let Err(fault) = add_line(alloc, line, db, rp, mode, &mut points) {
            return Err(BodyFault {
                line: before + 1,
                fault,
            });
        }
        rest = behind;
        before += 1;
    }
    Ok(points)
}
